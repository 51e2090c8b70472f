//! Whether rows are those of an index.
ghost use Rattle.std.specs.Prelude.{◌↔◌, IfOk, IsTrue};
ghost use Rattle.row_cells.specs.Each.{Each};
ghost use Rattle.row_cells.specs.KeyedRows.{AreRowsOf, IsRowOf};
ghost use Rattle.row_cells.specs.Mapped.{AreCellsOf, IsMapped};
ghost use Rattle.series_id.specs.RowParts.{HasOwnKey, IsCounted};

use crate::keys::{KeyError, series_key};
use edge_face::NoMemory;
use row_cells::{
    MOST_DOCUMENTS, Row, Schema, are_few, are_in_row_order, fit_cells, have_short_lists,
};
use std::alloc::Global;
use time_text::is_instant;

/// The key of the row is that of its cells.
fn has_own_key(alloc: Global, schema: &Schema, row: &Row) -> Result<bool, NoMemory>
    requires mapped { IsMapped schema.now }
    requires cells { AreCellsOf schema.now row.now.cells }
    ensures { IfOk result (λ own. IsTrue own ↔ HasOwnKey schema.now row.now) }
{
    match series_key(alloc, schema, row.cells.as_slice()) {
        Ok(key) => Ok(row.key == key),
        Err(KeyError::NoMemory) => Err(NoMemory),
        Err(_) => Ok(false),
    }
}

/// The row counts documents as the schema asks, at an instant.
fn is_counted(schema: &Schema, row: &Row) -> bool
    ensures { IsTrue result ↔ IsCounted schema.now row.now }
{
    if row.count < 1 {
        return false;
    }
    if row.count > MOST_DOCUMENTS {
        return false;
    }
    if !schema.folded {
        if row.count != 1 {
            return false;
        }
    }
    is_instant(row.time)
}

/// The row may stand in an index of the schema.
pub fn is_row_of(alloc: Global, schema: &Schema, row: &Row) -> Result<bool, NoMemory>
    requires { IsMapped schema.now }
    ensures { IfOk result (λ one. IsTrue one ↔ IsRowOf schema.now row.now) }
{
    if !is_counted(schema, row) {
        return Ok(false);
    }
    let cells = row.cells.as_slice();
    let fields = schema.fields.as_slice();
    if !fit_cells(schema.folded, schema.rises, row.count, fields, cells) {
        return Ok(false);
    }
    if !have_short_lists(cells) {
        return Ok(false);
    }
    let own = has_own_key(alloc, schema, row)?;
    Ok(own)
}

fn are_each(alloc: Global, schema: &Schema, rows: &[Row]) -> Result<bool, NoMemory>
    requires { IsMapped schema.now }
    ensures { IfOk result (λ all. IsTrue all ↔ Each (IsRowOf schema.now) rows.now) }
{
    for row in rows {
        if !is_row_of(alloc, schema, row)? {
            return Ok(false);
        }
    }
    Ok(true)
}

/// The rows are those of an index of the schema, in row order.
pub fn are_rows_of(alloc: Global, schema: &Schema, rows: &[Row]) -> Result<bool, NoMemory>
    requires { IsMapped schema.now }
    ensures { IfOk result (λ are. IsTrue are ↔ AreRowsOf schema.now rows.now) }
{
    if !are_few(rows) {
        return Ok(false);
    }
    if !are_in_row_order(rows) {
        return Ok(false);
    }
    let each = are_each(alloc, schema, rows)?;
    Ok(each)
}
