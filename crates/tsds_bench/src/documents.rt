//! Documents of four members beside their time, SIZE in all, of 10,000 texts over and over: `documents-made` makes the texts
//! alone, `documents-read` reads each besides, `documents-typed` types it too, and so on to `documents-keyed`, `documents-routed`,
//! `documents-rebuilt` and `documents-printed`.
ghost use Rattle.std.specs.Prelude.{◌≡◌, false};
ghost use Rattle.ts_mapping.specs.Schemas.{IsTemplateSchema};

use crate::samples::{SERIES, schema_of, text_of};
use anyhow::{Result, bail};
use json_walk::read_line;
use reply_json::print;
use row_cells::{Row, Schema};
use series_id::series_key;
use shard_route::shard_of;
use std::alloc::Global;
use synthetic_source::{rebuild, type_doc};

const TEXTS: u32 = 10_000;

const SHARDS: u32 = 4;

/// What is done with a document, after all that stands before.
#[derive(Clone, Copy, PartialEq, Eq)]
enum Stage {
    Made,
    Read,
    Typed,
    Keyed,
    Routed,
    Rebuilt,
    Printed,
}

fn stage_of(case: &str) -> Option<Stage> {
    match case {
        "made" => Some(Stage::Made),
        "read" => Some(Stage::Read),
        "typed" => Some(Stage::Typed),
        "keyed" => Some(Stage::Keyed),
        "routed" => Some(Stage::Routed),
        "rebuilt" => Some(Stage::Rebuilt),
        "printed" => Some(Stage::Printed),
        _ => None,
    }
}

/// Texts of the documents of all series, turn by turn.
fn texts(alloc: Global) -> Result<Vec<String>> {
    let mut texts = Vec::new(alloc);
    for place in 0..TEXTS {
        texts.push(text_of(alloc, place % SERIES, place / SERIES)?)?;
    }
    Ok(texts)
}

/// A number of what the last stage gives.
fn taken(alloc: Global, schema: &Schema, stage: Stage, text: &str) -> Result<u64>
    requires template { IsTemplateSchema schema.now }
    requires raw { schema.now.folded ≡ false }
{
    if stage == Stage::Made {
        return Ok(text.len() as u64);
    }
    let document = read_line(alloc, text.as_bytes())?;
    if stage == Stage::Read {
        return Ok(1);
    }
    let typed = type_doc(alloc, schema, true, &document)?;
    if stage == Stage::Typed {
        return Ok(typed.time.cast_unsigned());
    }
    let key = series_key(alloc, schema, typed.cells.as_slice())?;
    if stage == Stage::Keyed {
        return Ok(key.bytes().len() as u64);
    }
    let shard = shard_of(&key, schema, SHARDS);
    if stage == Stage::Routed {
        return Ok(u64::from(shard));
    }
    let row = Row {
        key,
        time: typed.time,
        count: 1,
        cells: typed.cells,
    };
    let out = rebuild(alloc, schema, &row)?;
    if stage == Stage::Rebuilt {
        return Ok(2);
    }
    let mut printed = Vec::with_capacity(alloc, text.len())?;
    print(&out, &mut printed)?;
    Ok(printed.len() as u64)
}

/// A sum over the documents, each taken up to the stage that the case names.
pub fn run(alloc: Global, case: &str, size: u64) -> Result<u64> {
    let Some(stage) = stage_of(case) else {
        bail!("no such case");
    };
    let schema = schema_of(alloc)?;
    let texts = texts(alloc)?;
    let mut sum = 0u64;
    for _ in 0..size / u64::from(TEXTS) {
        for text in &texts {
            sum = sum.wrapping_add(taken(alloc, &schema, stage, text.as_str())?);
        }
    }
    Ok(sum)
}
