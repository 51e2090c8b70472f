//! Folds of one field over the rows of a place, which stand in row order: the latest first.
ghost use Rattle.std.specs.Prelude.{◌≡◌, ◌<◌, length, true, IfOk, List};
ghost use Rattle.row_cells.specs.Each.{Each};
ghost use Rattle.row_cells.specs.Merging.{cell_of_parts, cell_of_rise};
ghost use Rattle.row_cells.specs.declared.rows.Row.{Row};
ghost use Rattle.downsample_fold.specs.Columns.{cell_of, column_of, earliest_cell, fold_column, latest_present};
ghost use Rattle.downsample_fold.specs.Room.{ColumnHasRoom};

use edge_face::NoMemory;
use fold_law::{Fold, Gauge, Rising};
use row_cells::{Cell, Role, Row, copy_cell, gauge_cell, gauge_of, rise_cell, rising_of};
use std::alloc::Global;

fn cell_at(row: &Row, place: usize) -> &Cell
    requires { place < length row.now.cells }
    ensures { result.now ≡ cell_of place row.now }
{
    &row.cells.as_slice()[place]
}

/// A gauge over all rows, joined from the earliest on.
fn join_gauges(rows: &[Row], place: usize) -> Gauge
    requires some { 0 < length rows.now }
    requires cells { Each (λ row. place < length row.cells) rows.now }
    requires room { ColumnHasRoom true Role.Gauge (column_of place rows.now) }
    ensures { cell_of_parts result.0 ≡ fold_column true Role.Gauge (column_of place rows.now) }
{
    let earliest = rows.len() - 1;
    let mut gauge = gauge_of(cell_at(&rows[earliest], place));
    for at in (0..earliest).rev() {
        gauge = gauge.merge(gauge_of(cell_at(&rows[at], place)));
    }
    gauge
}

/// The rise of a counter over all rows, joined from the earliest on.
fn join_rises(rows: &[Row], place: usize) -> Rising
    requires some { 0 < length rows.now }
    requires cells { Each (λ row. place < length row.cells) rows.now }
    requires room { ColumnHasRoom true Role.Counter (column_of place rows.now) }
    ensures { cell_of_rise result.0 ≡ fold_column true Role.Counter (column_of place rows.now) }
{
    let earliest = rows.len() - 1;
    let mut rising = rising_of(cell_at(&rows[earliest], place));
    for at in (0..earliest).rev() {
        rising = rising.merge(rising_of(cell_at(&rows[at], place)));
    }
    rising
}

/// A copy of the latest cell that is present.
fn copy_latest(alloc: Global, rows: &[Row], place: usize) -> Result<Cell, NoMemory>
    requires { Each (λ row. place < length row.cells) rows.now }
    ensures { IfOk result (λ cell. cell ≡ latest_present (column_of place rows.now)) }
{
    for row in rows {
        match cell_at(row, place) {
            Cell::Absent => {}
            cell => return copy_cell(alloc, cell),
        }
    }
    Ok(Cell::Absent)
}

/// A copy of the earliest row's cell.
fn copy_earliest(alloc: Global, rows: &[Row], place: usize) -> Result<Cell, NoMemory>
    requires some { 0 < length rows.now }
    requires cells { Each (λ row. place < length row.cells) rows.now }
    ensures { IfOk result (λ cell. cell ≡ earliest_cell (column_of place rows.now)) }
{
    copy_cell(alloc, cell_at(&rows[rows.len() - 1], place))
}

/// What is folded of the cells of all rows at one place among the fields.
pub fn fold_field(
    alloc: Global,
    rises: bool,
    role: Role,
    rows: &[Row],
    place: usize,
) -> Result<Cell, NoMemory>
    requires some { 0 < length rows.now }
    requires cells { Each (λ row. place < length row.cells) rows.now }
    requires room { ColumnHasRoom rises role (column_of place rows.now) }
    ensures { IfOk result (λ cell. cell ≡ fold_column rises role (column_of place rows.now)) }
{
    match role {
        Role::Time | Role::Dimension => copy_earliest(alloc, rows, place),
        Role::Gauge => Ok(gauge_cell(join_gauges(rows, place))),
        Role::Counter => {
            if rises {
                Ok(rise_cell(join_rises(rows, place)))
            } else {
                copy_latest(alloc, rows, place)
            }
        }
        Role::Label => copy_latest(alloc, rows, place),
    }
}
