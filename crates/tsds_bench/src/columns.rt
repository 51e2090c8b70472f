//! A column of 1,000,000 random numbers of 17 bits, and then SIZE folds of it: `column-gauge` and `column-fold` over all
//! rows, `part-gauge` and `part-fold` over 1,000 rows in the middle. With SIZE 0 the column is made and nothing is folded.

use column_block::{Column, Values, halves_of};
use edge_face::NoMemory;
use fold_law::Gauge;
use sqlite_items::Items;
use std::alloc::Global;

const ROWS: u32 = 1_000_000;

const PART: (u32, u32) = (499_500, 500_500);

/// A sum over what a case gives, or `None` where the text names no case.
pub fn run(alloc: Global, case: &str, size: u64) -> Result<Option<u64>, NoMemory> {
    let (by_summaries, from, to) = match case {
        "column-gauge" => (true, 0, ROWS),
        "column-fold" => (false, 0, ROWS),
        "part-gauge" => (true, PART.0, PART.1),
        "part-fold" => (false, PART.0, PART.1),
        _ => return Ok(None),
    };
    let rows = random_rows(alloc)?;
    if ROWS as usize != rows.len() {
        return Ok(None);
    }
    let column = Column::build(alloc, &Values::Whole(Items::from_vec(rows)))?;
    let sum = if by_summaries {
        gauges(&column, from, to, size)
    } else {
        folds(&column, from, to, size)
    };
    Ok(Some(sum))
}

fn random_rows(alloc: Global) -> Result<Vec<Option<i64>>, NoMemory> {
    let mut rows = Vec::with_capacity(alloc, ROWS as usize)?;
    let mut seed = 88172645463325252u64;
    for _ in 0..ROWS {
        seed = shaken(seed);
        rows.push(Some((seed >> 47).cast_signed()))?;
    }
    Ok(rows)
}

/// The next number of a xorshift generator.
fn shaken(seed: u64) -> u64 {
    let a = seed ^ (seed << 13);
    let b = a ^ (a >> 7);
    b ^ (b << 17)
}

fn sum_of(gauge: Gauge) -> u64 {
    match gauge.0 {
        Some(parts) => halves_of(parts.sum)
            .low
            .wrapping_add(parts.max)
            .cast_unsigned(),
        None => 0,
    }
}

fn gauges(column: &Column, from: u32, to: u32, rounds: u64) -> u64 {
    let mut sum = 0u64;
    for _ in 0..rounds {
        sum = sum.wrapping_add(sum_of(column.gauge(from, to)));
    }
    sum
}

/// That a gauge was taken says that the fold stays within its reach.
fn folds(column: &Column, from: u32, to: u32, rounds: u64) -> u64 {
    let mut sum = sum_of(column.gauge(from, to));
    for _ in 0..rounds {
        sum = sum.wrapping_add(sum_of(column.fold_block::<Gauge>(from, to)));
    }
    sum
}
