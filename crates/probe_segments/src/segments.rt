//! The segment of a case, by way of its bytes.
ghost use Rattle.std.specs.Prelude.{◌≡◌, false, IfSome};
ghost use Rattle.row_cells.specs.KeyedRows.{AreRowsOf};
ghost use Rattle.row_cells.specs.Mapped.{IsMapped};
ghost use Rattle.ts_mapping.specs.Schemas.{IsTemplateSchema};

use edge_face::Bytes;
use index_segment::Segment;
use probe_case::{bytes_of, has, is_set};
use probe_rows::{case_rows, schema_at};
use row_cells::{Row, Schema};
use serde_json::Value;
use std::alloc::Global;

/// The schema of a case's template, where rows are folded, and counters don't rise, if the case says so.
pub fn schema_of(alloc: Global, case: &Value) -> Option<Schema>
    ensures { IfSome result IsMapped }
{
    match schema_at(alloc, case, "template") {
        Some(schema) => Some(Schema {
            folded: is_set(case, "folded"),
            rises: !has(case, "rises") || is_set(case, "rises"),
            ..schema
        }),
        None => None,
    }
}

/// The segment of rows.
pub fn built(alloc: Global, schema: &Schema, rows: &[Row]) -> Option<Segment>
    requires schema { IsTemplateSchema schema.now }
    requires rows { AreRowsOf schema.now rows.now }
    ensures schema { IfSome result (λ segment. segment.schema ≡ schema.now) }
    ensures rows { IfSome result (λ segment. segment.rows ≡ rows.now) }
{
    match Segment::build(alloc, schema, rows) {
        Ok(segment) => Some(segment),
        Err(_) => None,
    }
}

/// The bytes of the segment of rows.
fn spelled(alloc: Global, schema: &Schema, rows: &[Row]) -> Option<Bytes>
    requires schema { IsTemplateSchema schema.now }
    requires rows { AreRowsOf schema.now rows.now }
{
    match built(alloc, schema, rows) {
        Some(segment) => segment.bytes(alloc).ok(),
        None => None,
    }
}

/// The bytes of the segment of a case's documents.
pub fn spelled_documents(alloc: Global, schema: &Schema, case: &Value) -> Option<Bytes>
    requires schema { IsTemplateSchema schema.now }
    requires raw { schema.now.folded ≡ false }
{
    match case_rows(alloc, schema, case) {
        Some(rows) => spelled(alloc, schema, rows.as_slice()),
        None => None,
    }
}

fn spelled_case(alloc: Global, case: &Value) -> Option<Bytes> {
    match schema_at(alloc, case, "template") {
        Some(schema) => spelled_documents(alloc, &schema, case),
        None => None,
    }
}

/// The bytes of a case, or those of the segment of its documents.
pub fn bytes_at(alloc: Global, case: &Value) -> Option<Bytes> {
    match case.get("bytes") {
        Some(bytes) => Some(Bytes::from_vec(bytes_of(alloc, bytes)?)),
        None => spelled_case(alloc, case),
    }
}
