//! Documents as those of the generated script, and their rows: a counter, a gauge and a label in 100 series, with a row every
//! ten seconds.
ghost use Rattle.std.specs.Prelude.{◌≡◌, ◌≤◌, false, IfOk};
ghost use Rattle.row_cells.specs.Each.{Each};
ghost use Rattle.row_cells.specs.KeyedRows.{AreRowsOf, IsRowOf};
ghost use Rattle.ts_mapping.specs.Schemas.{IsTemplateSchema};

use anyhow::{Result, bail};
use json_walk::read_line;
use row_cells::{Row, Schema};
use sample_rows::{are_rows, row_of};
use std::alloc::Global;

pub const SERIES: u32 = 100;

/// 2024-01-01T00:00:00Z
pub const START: i64 = 1_704_067_200_000;

/// Milliseconds from one row of a series to the next.
pub const STEP: i64 = 10_000;

/// The most rows of a series.
pub const MOST: u32 = 100_000;

const TEMPLATE: &str =
    r#"{"index_patterns":["g"],"data_stream":{},"template":{"settings":{"index.mode":"time_series","index.routing_path":["host"],"index.number_of_shards":4,"index.look_ahead_time":"7d"},"mappings":{"properties":{"host":{"type":"keyword","time_series_dimension":true},"cpu":{"type":"long","time_series_metric":"gauge"},"bytes":{"type":"long","time_series_metric":"counter"},"zone":{"type":"keyword"}}}}}"#;

/// The schema of the generated script's template.
pub fn schema_of(alloc: Global) -> Result<Schema>
    ensures schema { IfOk result IsTemplateSchema }
    ensures raw { IfOk result (λ schema. schema.folded ≡ false) }
{
    let body = read_line(alloc, TEMPLATE.as_bytes())?;
    let schema = sample_rows::schema_of(alloc, &body)?;
    Ok(schema)
}

/// A number that looks like chance, one for each document.
fn chance_of(series: u32, turn: u32) -> u64 {
    let seed = u64::from(turn)
        .wrapping_mul(100)
        .wrapping_add(u64::from(series));
    let once = seed.wrapping_mul(6_364_136_223_846_793_005);
    let mixed = (once ^ (once >> 29)).wrapping_mul(1_442_695_040_888_963_407);
    mixed >> 33
}

/// The text of the document of a series and a turn.
pub fn text_of(alloc: Global, series: u32, turn: u32) -> Result<String> {
    let chance = chance_of(series, turn);
    let time = START.wrapping_add(i64::from(turn).wrapping_mul(STEP));
    let bytes = u64::from(turn)
        .wrapping_mul(1_000)
        .wrapping_add(chance % 1_000);
    let text = format!(in alloc;
        "{{\"@timestamp\":{time},\"host\":\"h{series:02}\",\"cpu\":{},\"bytes\":{bytes},\"zone\":\"z{}\"}}",
        chance % 101,
        series % 4
    )?;
    Ok(text)
}

/// The row of that document.
pub fn row_at(alloc: Global, schema: &Schema, series: u32, turn: u32) -> Result<Row>
    requires schema { IsTemplateSchema schema.now }
    requires raw { schema.now.folded ≡ false }
    ensures { IfOk result (IsRowOf schema.now) }
{
    let text = text_of(alloc, series, turn)?;
    let document = read_line(alloc, text.as_bytes())?;
    let row = row_of(alloc, schema, &document)?;
    Ok(row)
}

/// As many rows of each series as are asked, the latest first.
fn rows_in(alloc: Global, schema: &Schema, each: u32) -> Result<Vec<Row>>
    requires schema { IsTemplateSchema schema.now }
    requires raw { schema.now.folded ≡ false }
    requires most { each ≤ 100000 }
    ensures { IfOk result (λ rows. Each (IsRowOf schema.now) rows.items) }
{
    let mut rows = Vec::new(alloc);
    for place in 0..SERIES * each {
        let row = row_at(alloc, schema, place / each, each - 1 - place % each)?;
        rows.push(row)?;
    }
    Ok(rows)
}

/// As many rows of each series as are asked, at most `MOST`, in row order.
pub fn rows_of(alloc: Global, schema: &Schema, each: u32) -> Result<Vec<Row>>
    requires schema { IsTemplateSchema schema.now }
    requires raw { schema.now.folded ≡ false }
    ensures { IfOk result (λ rows. AreRowsOf schema.now rows.items) }
{
    let rows = rows_in(alloc, schema, each.min(MOST))?;
    if !are_rows(rows.as_slice()) {
        bail!("the rows are not in order");
    }
    Ok(rows)
}
