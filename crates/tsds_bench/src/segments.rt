//! A segment of 1,000,000 rows, and then SIZE times what the case names: `segment-pass` goes over the rows before they are
//! packed, `segment-build` packs them, `segment-spell` writes the bytes, `segment-read` reads those, `segment-scan` makes
//! the 10,000 rows of a series, `segment-hour` those of one hour, `segment-gauge` folds a gauge over that hour, and
//! `segment-find` looks a row of the series up. With SIZE 0 what is needed is made, and nothing else.
ghost use Rattle.std.specs.Prelude.{◌≡◌, ◌<◌};
ghost use Rattle.row_cells.specs.KeyedRows.{AreRowsOf};
ghost use Rattle.row_cells.specs.Mapped.{IsMapped};
ghost use Rattle.index_segment.specs.Looks.{IsGaugeAt};

use crate::samples::{START, STEP, rows_of, schema_of};
use anyhow::{Result, bail};
use index_segment::{Segment, Steps};
use row_cells::{Cell, Key, Row, Scalar, Schema};
use sample_rows::is_gauge_at;
use std::alloc::Global;
use std::marker::Brand;
use std::sync::ledger::{Blank, Ledger};

/// How many rows each series has.
const EACH: u32 = 10_000;

/// The place of the gauge among the fields.
const CPU: u32 = 2;

/// The times of all rows.
const ALL: (i64, i64) = (START, START + 864_000_000);

/// An hour in the middle.
const HOUR: (i64, i64) = (START + 36_000_000, START + 39_600_000);

fn number_of(cell: Option<&Cell>) -> u64 {
    match cell {
        Some(Cell::One(Scalar::Whole(number))) => number.cast_unsigned(),
        _ => 0,
    }
}

/// A sum over times and gauges, which reads each row once.
fn sum_of(rows: &[Row]) -> u64 {
    let mut sum = 0u64;
    for row in rows {
        let cpu = number_of(row.cells.as_slice().get(CPU as usize));
        sum = sum.wrapping_add(row.time.cast_unsigned()).wrapping_add(cpu);
    }
    sum
}

fn passes(rows: &[Row], rounds: u64) -> u64 {
    let mut sum = 0u64;
    for _ in 0..rounds {
        sum = sum.wrapping_add(sum_of(rows));
    }
    sum
}

fn builds(alloc: Global, schema: &Schema, rows: &[Row], rounds: u64) -> Result<u64>
    requires mapped { IsMapped schema.now }
    requires rows { AreRowsOf schema.now rows.now }
{
    let mut sum = 0u64;
    for _ in 0..rounds {
        let segment = Segment::build(alloc, schema, rows)?;
        sum = sum.wrapping_add(segment.columns().len() as u64);
    }
    Ok(sum)
}

fn spells(alloc: Global, segment: &Segment, rounds: u64) -> Result<u64> {
    let mut sum = 0u64;
    for _ in 0..rounds {
        let bytes = segment.bytes(alloc)?;
        sum = sum.wrapping_add(bytes.as_slice().len() as u64);
    }
    Ok(sum)
}

fn reads(alloc: Global, schema: &Schema, segment: &Segment, rounds: u64) -> Result<u64>
    requires { IsMapped schema.now }
{
    let bytes = segment.bytes(alloc)?;
    let mut sum = bytes.as_slice().len() as u64;
    for _ in 0..rounds {
        let read = Segment::read(alloc, schema, bytes.as_slice())?;
        sum = sum.wrapping_add(read.columns().len() as u64);
    }
    Ok(sum)
}

fn scans(
    alloc: Global,
    segment: &Segment,
    key: &Key,
    (from, to): (i64, i64),
    rounds: u64,
) -> Result<u64> {
    let mut sum = 0u64;
    for _ in 0..rounds {
        let rows = segment.scan(alloc, key, from, to)?;
        sum = sum.wrapping_add(rows.len() as u64);
    }
    Ok(sum)
}

fn gauges(segment: &Segment, key: &Key, place: u32, rounds: u64) -> u64
    requires { IsGaugeAt segment.now.schema.fields place }
{
    let mut sum = 0u64;
    for _ in 0..rounds {
        if let Some(parts) = segment.gauge(key, place, HOUR.0, HOUR.1).0 {
            sum = sum.wrapping_add(parts.max.cast_unsigned());
        }
    }
    sum
}

/// Looks rows up that lie all over the series.
fn finds<L: Ledger>(segment: &Segment, key: &Key, rounds: u64, blank: Blank) -> u64
    requires name { blank.name ≡ L.name }
    requires parts { blank.parts ≡ L.parts }
    requires some { 0 < blank.parts }
{
    let mut steps = Steps::<L>::new(blank);
    let mut sum = 0u64;
    for round in 0..rounds {
        let turn = round.wrapping_mul(7_919) % u64::from(EACH);
        let time = START + turn as i64 * STEP;
        sum = sum.wrapping_add(segment.find(key, time, &mut steps).unwrap_or(0));
    }
    sum
}

fn asked(alloc: Global, schema: &Schema, segment: &Segment, case: &str, rounds: u64) -> Result<u64>
    requires mapped { IsMapped schema.now }
    requires of { segment.now.schema ≡ schema.now }
{
    let Some(key) = segment.series_after(alloc, None)? else {
        bail!("no rows");
    };
    match case {
        "spell" => spells(alloc, segment, rounds),
        "read" => reads(alloc, schema, segment, rounds),
        "scan" => scans(alloc, segment, &key, ALL, rounds),
        "hour" => scans(alloc, segment, &key, HOUR, rounds),
        "gauge" if is_gauge_at(schema.fields.as_slice(), CPU) => {
            Ok(gauges(segment, &key, CPU, rounds))
        }
        "find" => Ok(finds::<Brand>(segment, &key, rounds, Blank::new(1))),
        _ => bail!("no such case"),
    }
}

/// A sum over what a case gives, so many times.
pub fn run(alloc: Global, case: &str, rounds: u64) -> Result<u64> {
    let schema = schema_of(alloc)?;
    let rows = rows_of(alloc, &schema, EACH)?;
    match case {
        "pass" => Ok(passes(rows.as_slice(), rounds)),
        "build" => builds(alloc, &schema, rows.as_slice(), rounds),
        _ => {
            let segment = Segment::build(alloc, &schema, rows.as_slice())?;
            asked(alloc, &schema, &segment, case, rounds)
        }
    }
}
