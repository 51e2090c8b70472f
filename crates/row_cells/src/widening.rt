//! Rows beside the fields of a wider schema.
ghost use Rattle.std.specs.Prelude.{◌≡◌, IfOk, unwrap_or};
ghost use Rattle.std.specs.Option.{option_copied};
ghost use Rattle.row_cells.specs.Fitting.{Fits, FieldsAscend};
ghost use Rattle.row_cells.specs.Joining.{AllIn};
ghost use Rattle.row_cells.specs.Widening.{in_form_of, take_cell, walk_cells, widen_cells, widen_of_row};

use crate::copies::copy_cell;
use crate::rows::{Cell, Row};
use crate::schemas::{Field, Schema};
use edge_face::NoMemory;
use sqlite_items::Items;
use std::alloc::Global;

/// The cell at a field, if there is one, and the fields and cells that are left.
#[derive(Clone, Copy)]
struct Left<'a> {
    cell: Option<&'a Cell>,
    fields: &'a [Field],
    cells: &'a [Cell],
}

fn take_first<'a>(field: &Field, fields: &'a [Field], cells: &'a [Cell]) -> Left<'a>
    ensures cell { unwrap_or (option_copied result.cell) Cell.Absent ≡ (take_cell field.now.path fields.now cells.now).cell }
    ensures fields { result.fields.now ≡ (take_cell field.now.path fields.now cells.now).fields }
    ensures cells { result.cells.now ≡ (take_cell field.now.path fields.now cells.now).cells }
{
    match fields.split_first() {
        None => Left {
            cell: None,
            fields,
            cells,
        },
        Some((f, fs)) => match cells.split_first() {
            None => Left {
                cell: None,
                fields,
                cells,
            },
            Some((c, cs)) => {
                if f.path == field.path {
                    Left {
                        cell: Some(c),
                        fields: fs,
                        cells: cs,
                    }
                } else {
                    Left {
                        cell: None,
                        fields,
                        cells,
                    }
                }
            }
        },
    }
}

fn copy_or_absent(alloc: Global, cell: Option<&Cell>) -> Result<Cell, NoMemory>
    ensures { IfOk result (λ copy. copy ≡ unwrap_or (option_copied cell.entry) Cell.Absent) }
{
    match cell {
        None => Ok(Cell::Absent),
        Some(cell) => copy_cell(alloc, cell),
    }
}

pub fn walk(
    alloc: Global,
    fields: &[Field],
    cells: &[Cell],
    wide: &[Field],
) -> Result<Items<Cell>, NoMemory>
    ensures { IfOk result (λ widened. widened ≡ walk_cells fields.now cells.now wide.now) }
{
    let mut widened = Vec::with_capacity(alloc, wide.len())?;
    let mut fields = fields;
    let mut cells = cells;
    for field in wide {
        let left = take_first(field, fields, cells);
        widened.push(copy_or_absent(alloc, left.cell)?)?;
        fields = left.fields;
        cells = left.cells;
    }
    Ok(Items::from_vec(widened))
}

fn widen_all(
    alloc: Global,
    row: &Row,
    narrow: &Schema,
    wide: &Schema,
) -> Result<Items<Cell>, NoMemory>
    requires fits { Fits narrow.now row.now }
    requires narrow_ascends { FieldsAscend narrow.now.fields }
    requires wide_ascends { FieldsAscend wide.now.fields }
    requires within { AllIn narrow.now.fields wide.now.fields }
    ensures { IfOk result (λ cells. cells ≡ widen_cells narrow.now.fields row.now.cells wide.now.fields) }
{
    let cells = walk(
        alloc,
        narrow.fields.as_slice(),
        row.cells.as_slice(),
        wide.fields.as_slice(),
    )?;
    Ok(cells)
}

/// The row beside the fields of a wider schema, which has each field of its own: its cells stand at their
/// fields, and the others are absent.
pub fn widen(alloc: Global, row: &Row, narrow: &Schema, wide: &Schema) -> Result<Row, NoMemory>
    requires fits { Fits narrow.now row.now }
    requires narrow_ascends { FieldsAscend narrow.now.fields }
    requires wide_ascends { FieldsAscend wide.now.fields }
    requires within { AllIn narrow.now.fields wide.now.fields }
    ensures widened { IfOk result (λ widened. widened ≡ widen_of_row row.now narrow.now wide.now) }
    ensures fits { Fits (in_form_of narrow.now wide.now) (widen_of_row row.now narrow.now wide.now) }
{
    Ok(Row {
        key: row.key.copy(alloc)?,
        time: row.time,
        count: row.count,
        cells: widen_all(alloc, row, narrow, wide)?,
    })
}
