//! The fold of rows of one series.
ghost use Rattle.std.specs.Prelude.{◌≡◌, ◌+◌, ◌≤◌, IfOk, IsTrue, length, List};
ghost use Rattle.row_cells.specs.Merging.{last_cell, merge_cell, fold_cell};
ghost use Rattle.row_cells.specs.Merging.{AllHaveRoom, HaveRoom, fold_cells, fold_of_row, merge_cells, merge_of_rows};
ghost use Rattle.row_cells.specs.Limits.{most_documents};
ghost use Rattle.row_cells.specs.Fitting.{Fits, FitsEither, folded_form};
ghost use Rattle.row_cells.specs.declared.rows.Row.{Row};
ghost use Rattle.row_cells.specs.declared.schemas.Schema.{Schema};

use crate::copies::copy_cell;
use crate::measures::{gauge_cell, gauge_of, rise_cell, rising_of};
use crate::rows::{Cell, Row};
use crate::schemas::{Field, Role, Schema};
use edge_face::NoMemory;
use fold_law::Fold;
use sqlite_items::Items;
use std::alloc::Global;

fn copy_last(alloc: Global, earlier: &Cell, later: &Cell) -> Result<Cell, NoMemory>
    ensures { IfOk result (λ cell. cell ≡ last_cell earlier.now later.now) }
{
    match later {
        Cell::Absent => copy_cell(alloc, earlier),
        _ => copy_cell(alloc, later),
    }
}

pub fn merge_one(
    alloc: Global,
    rises: bool,
    role: Role,
    earlier: &Cell,
    later: &Cell,
) -> Result<Cell, NoMemory>
    requires { HaveRoom role earlier.now later.now }
    ensures { IfOk result (λ cell. cell ≡ merge_cell rises role earlier.now later.now) }
{
    match role {
        Role::Time | Role::Dimension => copy_cell(alloc, earlier),
        Role::Gauge => Ok(gauge_cell(gauge_of(earlier).merge(gauge_of(later)))),
        Role::Counter => {
            if rises {
                Ok(rise_cell(rising_of(earlier).merge(rising_of(later))))
            } else {
                copy_last(alloc, earlier, later)
            }
        }
        Role::Label => copy_last(alloc, earlier, later),
    }
}

fn fold_one(alloc: Global, rises: bool, role: Role, cell: &Cell) -> Result<Cell, NoMemory>
    ensures { IfOk result (λ folded. folded ≡ fold_cell rises role cell.now) }
{
    match role {
        Role::Gauge => Ok(gauge_cell(gauge_of(cell))),
        Role::Counter => {
            if rises {
                Ok(rise_cell(rising_of(cell)))
            } else {
                copy_cell(alloc, cell)
            }
        }
        _ => copy_cell(alloc, cell),
    }
}

fn merge_all(
    alloc: Global,
    rises: bool,
    fields: &[Field],
    earlier: &[Cell],
    later: &[Cell],
) -> Result<Items<Cell>, NoMemory>
    requires { AllHaveRoom fields.now earlier.now later.now }
    ensures { IfOk result (λ cells. cells ≡ merge_cells rises fields.now earlier.now later.now) }
{
    let mut cells = Vec::with_capacity(alloc, fields.len())?;
    for i in 0..fields.len() {
        cells.push(merge_one(alloc, rises, fields[i].role, &earlier[i], &later[i])?)?;
    }
    Ok(Items::from_vec(cells))
}

fn fold_each(
    alloc: Global,
    rises: bool,
    fields: &[Field],
    cells: &[Cell],
) -> Result<Items<Cell>, NoMemory>
    requires { length cells.now ≡ length fields.now }
    ensures { IfOk result (λ folded. folded ≡ fold_cells rises fields.now cells.now) }
{
    let mut folded = Vec::with_capacity(alloc, fields.len())?;
    for i in 0..fields.len() {
        folded.push(fold_one(alloc, rises, fields[i].role, &cells[i])?)?;
    }
    Ok(Items::from_vec(folded))
}

/// The fold of one row alone: its gauges become parts, and its counters rises where the schema keeps these.
pub fn fold_row(alloc: Global, schema: &Schema, row: &Row) -> Result<Row, NoMemory>
    requires { FitsEither schema.now row.now }
    ensures folded { IfOk result (λ folded. folded ≡ fold_of_row schema.now row.now) }
    ensures fits { Fits (folded_form schema.now) (fold_of_row schema.now row.now) }
{
    Ok(Row {
        key: row.key.copy(alloc)?,
        time: row.time,
        count: row.count,
        cells: fold_each(
            alloc,
            schema.rises,
            schema.fields.as_slice(),
            row.cells.as_slice(),
        )?,
    })
}

/// The fold of two rows of one series, of which `later` has the greater time: gauges are joined, counters keep
/// their rise or their last value, labels their last value. The row has the time of `earlier`, and fits the
/// folded form of the schema. A row may be a document or a fold.
pub fn merge_rows(
    alloc: Global,
    schema: &Schema,
    earlier: &Row,
    later: &Row,
) -> Result<Row, NoMemory>
    requires earlier_fits { FitsEither schema.now earlier.now }
    requires later_fits { FitsEither schema.now later.now }
    requires one_series { earlier.now.key ≡ later.now.key }
    requires few { earlier.now.count + later.now.count ≤ most_documents }
    ensures merged { IfOk result (λ row. row ≡ merge_of_rows schema.now earlier.now later.now) }
    ensures fits { Fits (folded_form schema.now) (merge_of_rows schema.now earlier.now later.now) }
{
    Ok(Row {
        key: earlier.key.copy(alloc)?,
        time: earlier.time,
        count: earlier.count + later.count,
        cells: merge_all(
            alloc,
            schema.rises,
            schema.fields.as_slice(),
            earlier.cells.as_slice(),
            later.cells.as_slice(),
        )?,
    })
}

/// The law by which the rows of a series fold in any grouping: folding them by short buckets and then by
/// longer ones gives the same as folding them at once.
pub fn merges_in_any_grouping()
    ensures grouped { (schema : Schema) (a b c : Row) →
        merge_of_rows schema (merge_of_rows schema a b) c ≡ merge_of_rows schema a (merge_of_rows schema b c) }
    ensures folded_before { (schema : Schema) (a b : Row) →
        merge_of_rows schema (fold_of_row schema a) b ≡ merge_of_rows schema a b }
    ensures folded_later { (schema : Schema) (a b : Row) →
        merge_of_rows schema a (fold_of_row schema b) ≡ merge_of_rows schema a b }
    ensures folded_after { (schema : Schema) (a b : Row) →
        fold_of_row schema (merge_of_rows schema a b) ≡ merge_of_rows schema a b }
    ensures folded_again { (schema : Schema) (a : Row) →
        fold_of_row schema (fold_of_row schema a) ≡ fold_of_row schema a }
{}
