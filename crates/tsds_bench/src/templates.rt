//! Reads the template of a body of many fields, SIZE times; the body is parsed once.
use anyhow::Result;
use edge_face::Text;
use json_walk::read_line;
use std::alloc::Global;
use ts_mapping::read_template;

const HEAD: &str =
    r#"{"index_patterns":"m*","data_stream":{},"template":{"settings":{"mode":"time_series"},
"mappings":{"properties":{"host":{"type":"keyword","time_series_dimension":true}"#;

/// A body with `host` and the fields of these numbers.
fn body_text(alloc: Global, fields: u64) -> Result<String> {
    let mut text = String::from_str(alloc, HEAD)?;
    for field in 2..fields {
        let property = format!(in alloc;
            ",\"field.{field}\":{{\"type\":\"long\",\"time_series_metric\":\"gauge\"}}"
        )?;
        text.push_str(property.as_str())?;
    }
    text.push_str("}}}}")?;
    Ok(text)
}

/// The number of fields of all templates that were read.
pub fn run(alloc: Global, fields: u64, size: u64) -> Result<u64> {
    let text = body_text(alloc, fields)?;
    let body = read_line(alloc, text.as_bytes())?;
    let name = Text::new(alloc, "t")?;
    let mut sum: u64 = 0;
    for _ in 0..size {
        let template = read_template(alloc, &name, &body)?;
        sum = sum.wrapping_add(template.schema.fields.len() as u64);
    }
    Ok(sum)
}
