//! Indices of 4 shards, whose rows arrive by time. `index-rows-N` makes SIZE rows of N series, which takes most of the time
//! of all these cases, and `index-put-N` puts them too, each shard sealing and joining as it goes; `index-seal-N` makes the
//! index sealed besides. `index-double` puts rows SIZE times that are there already, among 200,000 of 100 series, and
//! `index-walk` goes SIZE times over the series of 200,000 rows of 20,000 series.
ghost use Rattle.std.specs.Prelude.{◌≡◌, false, IfOk};
ghost use Rattle.row_cells.specs.Each.{Each};
ghost use Rattle.row_cells.specs.KeyedRows.{IsRowOf};
ghost use Rattle.ts_mapping.specs.Schemas.{IsTemplateSchema};

use crate::samples::{row_at, schema_of};
use anyhow::{Result, bail};
use row_cells::{Row, Schema, copy_schema};
use std::alloc::Global;
use tsds_index::{PutError, TsdsIndex};

const SHARDS: u32 = 4;

/// How many rows the cases have that ask of an index.
const ASKED: u64 = 200_000;

/// The row of a place among rows that arrive by time: one of each series, and then the next of each.
fn arriving(alloc: Global, schema: &Schema, series: u32, place: u64) -> Result<Row>
    requires schema { IsTemplateSchema schema.now }
    requires raw { schema.now.folded ≡ false }
    ensures { IfOk result (IsRowOf schema.now) }
{
    let many = u64::from(series.max(1));
    let row = row_at(
        alloc,
        schema,
        (place % many) as u32,
        (place / many % 1_000_000) as u32,
    )?;
    Ok(row)
}

/// The number of rows there are if a row is put, or a row's of its series and time is there.
fn put(alloc: Global, index: &mut TsdsIndex, row: &Row) -> Result<u64>
    requires row { IsRowOf index.old.schema row.now }
    requires raw { index.old.schema.folded ≡ false }
    ensures { index.new.schema ≡ index.old.schema }
{
    match index.put(alloc, row) {
        Ok(()) => Ok(1),
        Err(PutError::Duplicate) => Ok(0),
        Err(_) => bail!("a row isn't put"),
    }
}

fn time_of(row: &Row) -> u64 {
    row.time.cast_unsigned()
}

/// Makes so many rows, and lets each go.
fn made(alloc: Global, schema: &Schema, series: u32, size: u64) -> Result<u64>
    requires schema { IsTemplateSchema schema.now }
    requires raw { schema.now.folded ≡ false }
{
    let mut sum = 0u64;
    for place in 0..size {
        let row = arriving(alloc, schema, series, place)?;
        sum = sum.wrapping_add(time_of(&row));
    }
    Ok(sum)
}

/// An index of so many rows.
fn filled(alloc: Global, schema: &Schema, series: u32, size: u64) -> Result<TsdsIndex>
    requires schema { IsTemplateSchema schema.now }
    requires raw { schema.now.folded ≡ false }
    ensures { IfOk result (λ index. index.schema ≡ schema.now) }
{
    let mut index = TsdsIndex::new(alloc, copy_schema(alloc, schema)?, SHARDS)?;
    for place in 0..size {
        let row = arriving(alloc, schema, series, place)?;
        put(alloc, &mut index, &row)?;
    }
    Ok(index)
}

/// Puts a row so many times.
fn puts(alloc: Global, index: &mut TsdsIndex, row: &Row, times: u64) -> Result<u64>
    requires row { IsRowOf index.old.schema row.now }
    requires raw { index.old.schema.folded ≡ false }
    ensures { index.new.schema ≡ index.old.schema }
{
    let mut sum = 0u64;
    for _ in 0..times {
        sum = sum.wrapping_add(put(alloc, index, row)?);
    }
    Ok(sum)
}

/// Puts each of a thousand rows again, as often as the others.
fn doubles(alloc: Global, schema: &Schema, rounds: u64) -> Result<u64>
    requires schema { IsTemplateSchema schema.now }
    requires raw { schema.now.folded ≡ false }
{
    let mut index = filled(alloc, schema, 100, ASKED)?;
    let mut sum = index.len();
    for turn in 0..1_000 {
        let row = arriving(alloc, schema, 100, turn * 199)?;
        sum = sum.wrapping_add(puts(alloc, &mut index, &row, rounds / 1_000)?);
    }
    Ok(sum)
}

fn walks(alloc: Global, schema: &Schema, rounds: u64) -> Result<u64>
    requires schema { IsTemplateSchema schema.now }
    requires raw { schema.now.folded ≡ false }
{
    let index = filled(alloc, schema, 20_000, ASKED)?;
    let mut sum = 0u64;
    for _ in 0..rounds {
        sum = sum.wrapping_add(index.series_count());
    }
    Ok(sum)
}

/// A sum over what a case gives.
pub fn run(alloc: Global, case: &str, size: u64) -> Result<u64> {
    let schema = schema_of(alloc)?;
    match case {
        "double" => return doubles(alloc, &schema, size),
        "walk" => return walks(alloc, &schema, size),
        _ => (),
    }
    let Some((what, series)) = case.split_once('-') else {
        bail!("no such case");
    };
    let series: u32 = series.parse()?;
    match what {
        "rows" => made(alloc, &schema, series, size),
        "put" => Ok(filled(alloc, &schema, series, size)?.len()),
        "seal" => {
            let mut index = filled(alloc, &schema, series, size)?;
            index.seal(alloc)?;
            Ok(index.len())
        }
        _ => bail!("no such case"),
    }
}
