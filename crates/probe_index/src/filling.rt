//! The index of a case, and the rows that are put into it.
ghost use Rattle.std.specs.Prelude.{◌≡◌, ◌<◌, false, length, IfSome};
ghost use Rattle.row_cells.specs.Each.{Each};
ghost use Rattle.row_cells.specs.KeyedRows.{IsRowOf};
ghost use Rattle.ts_mapping.specs.Schemas.{IsTemplateSchema};
ghost use Rattle.tsds_index.specs.Segments.{AreOfSchema};

use index_segment::Segment;
use probe_case::is_set;
use probe_rows::{rows_at, schema_at};
use row_cells::{Row, Schema, copy_schema};
use serde_json::Value;
use std::alloc::Global;
use tsds_index::{PutError, TsdsIndex};

/// Puts a row, and tells whether its place was free.
fn put_row(alloc: Global, index: &mut TsdsIndex, row: &Row) -> Option<bool>
    requires row { IsRowOf index.old.schema row.now }
    requires raw { index.old.schema.folded ≡ false }
    ensures { index.new.schema ≡ index.old.schema }
{
    match index.put(alloc, row) {
        Ok(()) => Some(true),
        Err(PutError::Duplicate) => Some(false),
        Err(_) => None,
    }
}

/// Puts rows, the last of them first, and tells how many places weren't free.
fn put_rows(alloc: Global, index: &mut TsdsIndex, rows: &[Row]) -> Option<usize>
    requires rows { Each (IsRowOf index.old.schema) rows.now }
    requires raw { index.old.schema.folded ≡ false }
    ensures { index.new.schema ≡ index.old.schema }
{
    let mut doubles: usize = 0;
    let mut left = rows;
    while let Some((row, rest)) = left.split_last() {
        if !put_row(alloc, index, row)? {
            doubles = doubles.wrapping_add(1);
        }
        left = rest;
    }
    Some(doubles)
}

/// Puts the rows of documents, which stand in row order.
fn put_documents(
    alloc: Global,
    schema: &Schema,
    index: &mut TsdsIndex,
    case: &Value,
    name: &str,
    lines: &str,
) -> Option<usize>
    requires schema { IsTemplateSchema schema.now }
    requires raw { schema.now.folded ≡ false }
    requires same { index.old.schema ≡ schema.now }
    ensures { index.new.schema ≡ index.old.schema }
{
    match rows_at(alloc, schema, case, name, lines) {
        Some(rows) => put_rows(alloc, index, rows.as_slice()),
        None => None,
    }
}

/// An index without rows, of 1 to 64 shards.
fn empty_index(alloc: Global, schema: &Schema, case: &Value) -> Option<TsdsIndex>
    requires schema { IsTemplateSchema schema.now }
    ensures { IfSome result (λ index. index.schema ≡ schema.now) }
{
    let shards = case.get("shards")?.as_u64()?;
    if shards == 0 || shards > 64 {
        return None;
    }
    match copy_schema(alloc, schema) {
        Ok(schema) => TsdsIndex::new(alloc, schema, shards as u32).ok(),
        Err(_) => None,
    }
}

/// Puts the rows of a case: those of `documents` or `lines`, and then those of `later` or `later_lines`. Tells how many places
/// weren't free.
pub fn fill(alloc: Global, schema: &Schema, index: &mut TsdsIndex, case: &Value) -> Option<usize>
    requires schema { IsTemplateSchema schema.now }
    requires raw { schema.now.folded ≡ false }
    requires same { index.old.schema ≡ schema.now }
    ensures { index.new.schema ≡ index.old.schema }
{
    let first = put_documents(alloc, schema, index, case, "documents", "lines")?;
    let later = put_documents(alloc, schema, index, case, "later", "later_lines")?;
    Some(first.wrapping_add(later))
}

/// The segment of a shard, by way of its bytes.
fn segment_of(alloc: Global, schema: &Schema, index: &TsdsIndex, shard: u32) -> Option<Segment>
    requires schema { IsTemplateSchema schema.now }
    requires there { shard < length index.now.parts }
    ensures { IfSome result (λ segment. segment.schema ≡ schema.now) }
{
    match index.shard_bytes(alloc, shard) {
        Ok(bytes) => match Segment::read(alloc, schema, bytes.as_slice()) {
            Ok(segment) => Some(segment),
            Err(_) => None,
        },
        Err(_) => None,
    }
}

/// The segments of all shards.
fn segments_of(alloc: Global, schema: &Schema, index: &TsdsIndex) -> Option<Vec<Segment>>
    requires { IsTemplateSchema schema.now }
    ensures { IfSome result (λ segments. AreOfSchema schema.now segments.items) }
{
    let mut segments = Vec::new(alloc);
    for shard in 0..index.shard_count() {
        segments
            .push(segment_of(alloc, schema, index, shard)?)
            .ok()?;
    }
    Some(segments)
}

/// An index of segments, unless they are refused.
fn restored_of(alloc: Global, schema: Schema, segments: Vec<Segment>) -> Option<TsdsIndex>
    requires schema { IsTemplateSchema schema }
    requires same { AreOfSchema schema segments.items }
{
    if TsdsIndex::is_restorable(&schema, segments.as_slice()) {
        TsdsIndex::restore(alloc, schema, segments).ok()
    } else {
        None
    }
}

/// An index of the bytes of another one's shards.
fn restored(alloc: Global, schema: Schema, index: &TsdsIndex) -> Option<TsdsIndex>
    requires { IsTemplateSchema schema }
{
    match segments_of(alloc, &schema, index) {
        Some(segments) => restored_of(alloc, schema, segments),
        None => None,
    }
}

/// Makes an index sealed where a case says so.
fn sealed(alloc: Global, index: &mut TsdsIndex, case: &Value) -> Option<()> {
    if is_set(case, "sealed") {
        index.seal(alloc).ok()
    } else {
        Some(())
    }
}

/// The index of a case, sealed or restored from its bytes where the case says so, and how many places weren't free.
pub fn index_of(alloc: Global, case: &Value) -> Option<(TsdsIndex, usize)> {
    let schema = schema_at(alloc, case, "template")?;
    let mut index = empty_index(alloc, &schema, case)?;
    let doubles = fill(alloc, &schema, &mut index, case)?;
    sealed(alloc, &mut index, case)?;
    if is_set(case, "restored") {
        return Some((restored(alloc, schema, &index)?, doubles));
    }
    Some((index, doubles))
}
