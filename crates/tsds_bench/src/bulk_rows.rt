//! Bulk bodies of a thousand documents of the generated form, each to its row, key and shard.
ghost use Rattle.std.specs.Prelude.{◌≡◌, false};
ghost use Rattle.ts_mapping.specs.Schemas.{IsTemplateSchema};

use crate::samples::{SERIES, schema_of, text_of};
use anyhow::Result;
use bulk_json::{BulkLines, NextItem};
use json_walk::read_line;
use row_cells::Schema;
use series_id::series_key;
use shard_route::shard_of;
use std::alloc::Global;
use synthetic_source::type_doc;

const ACTION: &str = "{\"create\":{}}\n";

/// How many documents a body has.
const TURN: u32 = 1_000;

const SHARDS: u32 = 4;

/// A body of the documents of the first turns of all series, each behind its action line.
fn generated(alloc: Global) -> Result<Vec<u8>> {
    let mut body = Vec::new(alloc);
    for place in 0..TURN {
        let text = text_of(alloc, place % SERIES, place / SERIES)?;
        body.extend_from_slice(ACTION.as_bytes())?;
        body.extend_from_slice(text.as_bytes())?;
        body.push(b'\n')?;
    }
    Ok(body)
}

/// How long the sources of a body are, in their order.
fn source_lengths(alloc: Global, body: &[u8]) -> Result<Vec<usize>> {
    let mut lengths = Vec::with_capacity(alloc, TURN as usize)?;
    let mut lines = BulkLines::new(Some("metrics"), body);
    while let Some(NextItem { item, ahead }) = lines.next(alloc)? {
        if let Some(source) = item.source {
            lengths.push(source.len())?;
        }
        lines = ahead;
    }
    Ok(lengths)
}

/// A number of the row of a document, and of its shard.
fn row_at(alloc: Global, schema: &Schema, source: &[u8]) -> Result<u64>
    requires template { IsTemplateSchema schema.now }
    requires raw { schema.now.folded ≡ false }
{
    let document = read_line(alloc, source)?;
    let typed = type_doc(alloc, schema, true, &document)?;
    let key = series_key(alloc, schema, typed.cells.as_slice())?;
    let shard = shard_of(&key, schema, SHARDS);
    Ok(typed.time.cast_unsigned().wrapping_add(u64::from(shard)))
}

/// A sum over the rows of a body. Its lines are cut by a walk of their own, since what a line lends is in the way of the exits of a
/// row, and the sources are then taken by their lengths.
fn rows_of(alloc: Global, schema: &Schema, body: &[u8]) -> Result<u64>
    requires template { IsTemplateSchema schema.now }
    requires raw { schema.now.folded ≡ false }
{
    let lengths = source_lengths(alloc, body)?;
    let mut sum = 0u64;
    let mut at = 0usize;
    for length in &lengths {
        let from = at.wrapping_add(ACTION.len());
        let end = from.wrapping_add(*length);
        sum = sum.wrapping_add(row_at(alloc, schema, body.get(from..end).unwrap_or(&[]))?);
        at = end.wrapping_add(1);
    }
    Ok(sum)
}

/// The rows of one body, over and over.
pub fn run(alloc: Global, size: u64) -> Result<u64> {
    let schema = schema_of(alloc)?;
    let body = generated(alloc)?;
    let mut sum = 0u64;
    for _ in 0..size / u64::from(TURN) {
        sum = sum.wrapping_add(rows_of(alloc, &schema, body.as_slice())?);
    }
    Ok(sum)
}
