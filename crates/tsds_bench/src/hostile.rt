//! A line of about SIZE bytes that would be dear where the path of each leaf is looked at anew, typed against 1,000 fields whose
//! paths share 500 bytes: `hostile-members` has one name of half the line over short members, `hostile-nothings` such a name over
//! an array of empty objects, and `hostile-elements` an array of numbers at a path that begins as the fields' do. It is typed twice,
//! once by a mapping that isn't strict and takes it, and once by one that is strict and tells the first path.
ghost use Rattle.ts_mapping.specs.Schemas.{IsTemplateSchema};

use anyhow::{Result, bail};
use json_walk::read_line;
use row_cells::Schema;
use sample_rows::schema_of;
use serde_json::Value;
use std::alloc::Global;
use synthetic_source::{DocError, type_doc};

const HEAD: &str =
    r#"{"index_patterns":"m*","data_stream":{},"template":{"settings":{"mode":"time_series"},
"mappings":{"properties":{"host":{"type":"keyword","time_series_dimension":true}"#;

/// How many bytes all paths share.
const FRONT: u64 = 500;

fn push_many(text: &mut String, piece: &str, number: u64) -> Result<()> {
    for _ in 0..number {
        text.push_str(piece)?;
    }
    Ok(())
}

/// A body with `host` and 998 numbers whose names share their front.
fn template_of(alloc: Global) -> Result<String> {
    let mut text = String::from_str(alloc, HEAD)?;
    for field in 2..1_000u64 {
        text.push_str(",\"")?;
        push_many(&mut text, "x", FRONT)?;
        let rest = format!(in alloc; "{field}\":{{\"type\":\"long\"}}")?;
        text.push_str(rest.as_str())?;
    }
    text.push_str("}}}}")?;
    Ok(text)
}

/// Short members, each of another name.
fn push_members(alloc: Global, text: &mut String, number: u64) -> Result<()> {
    text.push_str("{\"a\":0")?;
    for member in 0..number {
        let pair = format!(in alloc; ",\"{member}\":0")?;
        text.push_str(pair.as_str())?;
    }
    text.push_str("}")?;
    Ok(())
}

/// A line by the name of its case.
fn line_of(alloc: Global, case: &str, size: u64) -> Result<String> {
    let half = size / 2;
    let mut text = String::from_str(alloc, "{\"@timestamp\":0,\"")?;
    match case {
        "members" => {
            push_many(&mut text, "x", half)?;
            text.push_str("\":")?;
            push_members(alloc, &mut text, half / 9)?;
        }
        "nothings" => {
            push_many(&mut text, "x", half)?;
            text.push_str("\":[{}")?;
            push_many(&mut text, ",{}", half / 3)?;
            text.push_str("]")?;
        }
        "elements" => {
            push_many(&mut text, "x", FRONT)?;
            text.push_str("y\":[0")?;
            push_many(&mut text, ",0", half)?;
            text.push_str("]")?;
        }
        _ => bail!("no such case"),
    }
    text.push_str("}")?;
    Ok(text)
}

/// The number of cells, or the length of the path that has the fault.
fn typed(alloc: Global, schema: &Schema, strict: bool, document: &Value) -> Result<u64>
    requires { IsTemplateSchema schema.now }
{
    match type_doc(alloc, schema, strict, document) {
        Ok(typed) => Ok(typed.cells.as_slice().len() as u64),
        Err(DocError::Refused { path, .. }) => Ok(path.as_bytes().len() as u64),
        Err(DocError::NoMemory) => bail!("out of memory"),
    }
}

pub fn run(alloc: Global, case: &str, size: u64) -> Result<u64> {
    let body = read_line(alloc, template_of(alloc)?.as_bytes())?;
    let schema = schema_of(alloc, &body)?;
    let text = line_of(alloc, case, size)?;
    let document = read_line(alloc, text.as_bytes())?;
    let taken = typed(alloc, &schema, false, &document)?;
    let told = typed(alloc, &schema, true, &document)?;
    Ok(taken.wrapping_add(told))
}
