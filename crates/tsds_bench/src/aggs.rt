//! Aggregations over 1,000,000 rows of 100 series, SIZE times: `agg-hour` offers all to buckets of an hour with least, greatest and sum
//! of the gauge, `agg-host` to buckets of hosts with the same, and `agg-both` to buckets of an hour in those of hosts.
use crate::samples::{rows_of, schema_of};
use anyhow::{Result, bail};
use histogram_aggs::{Agg, AggState, read_aggs};
use json_walk::read_line;
use reply_json::{Out, print};
use row_cells::{Row, Schema};
use std::alloc::Global;
use time_text::is_instant;

/// How many rows each series has.
const EACH: u32 = 10_000;

const HOUR: &str =
    r#"{"t":{"date_histogram":{"field":"@timestamp","fixed_interval":"1h"},"aggs":{"a":{"min":{"field":"cpu"}},"b":{"max":{"field":"cpu"}},"c":{"sum":{"field":"cpu"}}}}}"#;

const HOST: &str =
    r#"{"h":{"terms":{"field":"host","size":100},"aggs":{"a":{"min":{"field":"cpu"}},"b":{"max":{"field":"cpu"}},"c":{"sum":{"field":"cpu"}}}}}"#;

const BOTH: &str =
    r#"{"h":{"terms":{"field":"host","size":100},"aggs":{"t":{"date_histogram":{"field":"@timestamp","fixed_interval":"1h"},"aggs":{"a":{"min":{"field":"cpu"}},"b":{"max":{"field":"cpu"}},"c":{"sum":{"field":"cpu"}}}}}}}"#;

fn aggs_of(alloc: Global, schema: &Schema, body: &str) -> Result<Vec<Agg>> {
    let body = read_line(alloc, body.as_bytes())?;
    if 1_000 < schema.fields.len() {
        bail!("too many fields");
    }
    let aggs = read_aggs(alloc, &body, schema)?;
    Ok(aggs)
}

fn reply_of(alloc: Global, schema: &Schema, rows: &[Row], body: &str) -> Result<Out> {
    let aggs = aggs_of(alloc, schema, body)?;
    let mut state = AggState::new(alloc, aggs, schema)?;
    for row in rows {
        if is_instant(row.time) {
            state.add_row(alloc, 0, schema, row)?;
        }
    }
    let out = state.finish(alloc, schema)?;
    Ok(out)
}

/// How many bytes the reply has.
fn reply_size(alloc: Global, schema: &Schema, rows: &[Row], body: &str) -> Result<u64> {
    let out = reply_of(alloc, schema, rows, body)?;
    let mut text = Vec::new(alloc);
    print(&out, &mut text)?;
    Ok(text.len() as u64)
}

fn asked(alloc: Global, schema: &Schema, rows: &[Row], case: &str) -> Result<u64> {
    match case {
        "hour" => reply_size(alloc, schema, rows, HOUR),
        "host" => reply_size(alloc, schema, rows, HOST),
        "both" => reply_size(alloc, schema, rows, BOTH),
        _ => bail!("no such case"),
    }
}

/// A sum over what a case gives, so many times.
pub fn run(alloc: Global, case: &str, rounds: u64) -> Result<u64> {
    let schema = schema_of(alloc)?;
    let rows = rows_of(alloc, &schema, EACH)?;
    let mut sum = 0u64;
    for _ in 0..rounds {
        sum = sum.wrapping_add(asked(alloc, &schema, rows.as_slice(), case)?);
    }
    Ok(sum)
}
