//! Folds the rows of 100 series by the hour, in memory: SIZE rows in all. `fold-rows` makes the rows alone, `fold-once` folds them
//! once besides, and `fold-often` eleven times.
ghost use Rattle.row_cells.specs.KeyedRows.{AreRowsOf};

use crate::samples::{rows_of, schema_of};
use anyhow::{Result, bail};
use downsample_fold::fold_all;
use row_cells::{Row, Schema};
use std::alloc::Global;
use time_text::{Interval, Unit};

const HOUR: Interval = Interval {
    number: 1,
    unit: Unit::H,
};

fn folds(alloc: Global, schema: &Schema, rows: &[Row], rounds: u64) -> Result<u64>
    requires { AreRowsOf schema.now rows.now }
{
    let mut sum = rows.len() as u64;
    for _ in 0..rounds {
        let folded = fold_all(alloc, schema, rows, HOUR)?;
        sum = sum.wrapping_add(folded.len() as u64);
    }
    Ok(sum)
}

/// A sum over the rows that are folded, or over those that were made.
pub fn run(alloc: Global, case: &str, size: u64) -> Result<u64> {
    let rounds = match case {
        "rows" => 0,
        "once" => 1,
        "often" => 11,
        _ => bail!("no such case"),
    };
    let schema = schema_of(alloc)?;
    let rows = rows_of(alloc, &schema, (size / 100 % 100_000) as u32)?;
    folds(alloc, &schema, rows.as_slice(), rounds)
}
