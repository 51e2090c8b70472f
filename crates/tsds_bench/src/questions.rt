//! Queries and pages over 1,000,000 rows of 100 series, SIZE times: `page-pass` goes over the times and keys of the rows, `page-ten`
//! offers all to a page of ten without a sort, `page-sorted` to one by falling values of the gauge, and `page-deep` to one of 10,000 by
//! these; `match-term` tries a query for one host. With SIZE 0 the rows are made, and nothing else.

use crate::samples::{rows_of, schema_of};
use anyhow::{Result, bail};
use hits_page::{Pager, read_sort};
use json_walk::read_line;
use row_cells::{Row, Schema};
use search_filter::{matches, read_query};
use std::alloc::Global;

/// How many rows each series has.
const EACH: u32 = 10_000;

/// A sum over times and the first bytes of keys, which reads each row and its key once.
fn pass(rows: &[Row]) -> u64 {
    let mut sum = 0u64;
    for row in rows {
        let first = row.key.bytes().first().copied().unwrap_or(0);
        sum = sum
            .wrapping_add(row.time.cast_unsigned())
            .wrapping_add(u64::from(first));
    }
    sum
}

/// How many rows were offered, and how many are on a page of so many.
fn page(alloc: Global, schema: &Schema, rows: &[Row], sort: &str, size: u64) -> Result<u64> {
    let sort = read_sort(alloc, &read_line(alloc, sort.as_bytes())?, schema)?;
    let mut pager = Pager::new(alloc, sort, 0, size)?;
    for row in rows {
        pager.offer(alloc, 0, 0, schema, row)?;
    }
    let page = pager.finish(alloc)?;
    Ok(page.total.wrapping_add(page.rows.len() as u64))
}

/// How many rows match.
fn found(alloc: Global, schema: &Schema, rows: &[Row], query: &str) -> Result<u64> {
    let query = read_query(alloc, &read_line(alloc, query.as_bytes())?, schema, 0)?;
    let mut found = 0u64;
    for row in rows {
        found = found.wrapping_add(u64::from(matches(&query, schema, row)));
    }
    Ok(found)
}

fn asked(alloc: Global, schema: &Schema, rows: &[Row], case: &str) -> Result<u64> {
    match case {
        "page-pass" => Ok(pass(rows)),
        "page-ten" => page(alloc, schema, rows, "[]", 10),
        "page-sorted" => page(alloc, schema, rows, r#"{"cpu":"desc"}"#, 10),
        "page-deep" => page(alloc, schema, rows, r#"{"cpu":"desc"}"#, 10_000),
        "match-term" => found(alloc, schema, rows, r#"{"term":{"host":"h07"}}"#),
        _ => bail!("no such case"),
    }
}

/// A sum over what a case gives, so many times.
pub fn run(alloc: Global, case: &str, rounds: u64) -> Result<u64> {
    let schema = schema_of(alloc)?;
    let rows = rows_of(alloc, &schema, EACH)?;
    let mut sum = 0u64;
    for _ in 0..rounds {
        sum = sum.wrapping_add(asked(alloc, &schema, rows.as_slice(), case)?);
    }
    Ok(sum)
}
