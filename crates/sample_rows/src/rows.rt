//! Rows of documents.
ghost use Rattle.std.specs.Prelude.{◌≡◌, ◌≤◌, ◌↔◌, false, IfOk, IsTrue};
ghost use Rattle.row_cells.specs.KeyedRows.{IsRowOf};
ghost use Rattle.row_cells.specs.Limits.{most_documents};
ghost use Rattle.row_cells.specs.RowLists.{AreInRowOrder, documents};
ghost use Rattle.ts_mapping.specs.Schemas.{IsTemplateSchema};

use anyhow::{Result, bail};
use row_cells::{Row, Schema, are_few, are_in_row_order, have_short_lists};
use serde_json::Value;
use series_id::series_key;
use std::alloc::Global;
use synthetic_source::{Typed, type_doc};

/// The row of a document, in a mapping that is strict.
pub fn row_of(alloc: Global, schema: &Schema, document: &Value) -> Result<Row>
    requires schema { IsTemplateSchema schema.now }
    requires raw { schema.now.folded ≡ false }
    ensures row { IfOk result (IsRowOf schema.now) }
    ensures counted { IfOk result (λ row. row.count ≡ 1) }
{
    let Typed { time, cells } = type_doc(alloc, schema, true, document)?;
    let key = series_key(alloc, schema, cells.as_slice())?;
    if !have_short_lists(cells.as_slice()) {
        bail!("a label has too many values");
    }
    Ok(Row {
        key,
        time,
        count: 1,
        cells,
    })
}

/// The rows stand in row order, and are few enough for an index.
pub fn are_rows(rows: &[Row]) -> bool
    ensures { IsTrue result ↔ AreInRowOrder rows.now × (documents rows.now ≤ most_documents) }
{
    are_in_row_order(rows) && are_few(rows)
}
