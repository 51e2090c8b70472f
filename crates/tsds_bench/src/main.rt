//! Pieces of the store that are timed from outside, one for each case: `tsds_bench CASE SIZE`. What is printed is a sum over
//! the answers, so that no work is left out.
#![tactic(auto)]

mod aggs;
mod blocks;
mod bulk_rows;
mod bulks;
mod columns;
mod documents;
mod fold_rows;
mod hostile;
mod indices;
mod questions;
mod samples;
mod segments;
mod templates;
mod time_print;
mod time_read;
mod time_table;

use anyhow::{Result, bail};
use std::alloc::Global;
use std::env;

/// The sum of a case over packed numbers.
fn packed(alloc: Global, case: &str, size: u64) -> Result<u64> {
    let sum = match columns::run(alloc, case, size)? {
        Some(sum) => Some(sum),
        None => blocks::run(alloc, case, size)?,
    };
    match sum {
        Some(sum) => Ok(sum),
        None => bail!("no such case"),
    }
}

/// The sum of a case, by the part of its name that says what is timed.
fn sum_of(alloc: Global, case: &str, size: u64) -> Result<u64> {
    let Some((what, rest)) = case.split_once('-') else {
        bail!("no such case");
    };
    match what {
        "agg" => aggs::run(alloc, rest, size),
        "fold" => fold_rows::run(alloc, rest, size),
        "template" => templates::run(alloc, rest.parse()?, size),
        "documents" => documents::run(alloc, rest, size),
        "bulk" => bulks::run(alloc, rest, size),
        "hostile" => hostile::run(alloc, rest, size),
        "index" => indices::run(alloc, rest, size),
        "segment" => segments::run(alloc, rest, size),
        "page" | "match" => questions::run(alloc, case, size),
        _ => packed(alloc, case, size),
    }
}

fn main(rt: HostRuntime) -> Result<()> {
    let words: Vec<String> = env::args(&rt)?.collect(rt.alloc())?;
    let (Some(case), Some(size)) = (words.get(1), words.get(2)) else {
        bail!("the words are CASE SIZE");
    };
    let size: u64 = size.as_str().parse()?;
    match case.as_str() {
        "time-print" => time_print::run(&rt, size)?,
        "time-read" => time_read::run(&rt, rt.alloc(), size)?,
        "time-table" => time_table::run(&rt)?,
        case => {
            let sum = sum_of(rt.alloc(), case, size)?;
            println!(rt; "{case} {size} {sum}")?;
        }
    }
    Ok(())
}
