//! Whether rows stand in row order, stand for few enough documents, and have short lists.
ghost use Rattle.std.specs.Prelude.{◌↔◌, ◌≤◌, IsTrue};
ghost use Rattle.row_cells.specs.Each.{Each};
ghost use Rattle.row_cells.specs.KeyedRows.{IsShortList};
ghost use Rattle.row_cells.specs.Limits.{most_documents};
ghost use Rattle.row_cells.specs.RowLists.{AreBehind, AreInRowOrder, documents};

use crate::limits::{LONGEST_LIST, MOST_DOCUMENTS};
use crate::order::row_order;
use crate::rows::{Cell, Row};
use std::cmp::Ordering;

/// No label has too many values.
pub fn have_short_lists(cells: &[Cell]) -> bool
    ensures { IsTrue result ↔ Each IsShortList cells.now }
{
    for cell in cells {
        match cell {
            Cell::Many(values) => {
                if values.len() > LONGEST_LIST {
                    return false;
                }
            }
            _ => {}
        }
    }
    true
}

fn are_behind(first: &Row, rows: &[Row]) -> bool
    ensures { IsTrue result ↔ AreBehind first.now rows.now }
{
    let mut before = first;
    for row in rows {
        match row_order(before, row) {
            Ordering::Less => before = row,
            _ => return false,
        }
    }
    true
}

/// The rows stand in row order, no two of one series and time.
pub fn are_in_row_order(rows: &[Row]) -> bool
    ensures { IsTrue result ↔ AreInRowOrder rows.now }
{
    match rows.split_first() {
        None => true,
        Some((first, behind)) => are_behind(first, behind),
    }
}

/// The rows stand for at most as many documents as an index may have.
pub fn are_few(rows: &[Row]) -> bool
    ensures { IsTrue result ↔ (documents rows.now ≤ most_documents) }
{
    let mut total = 0;
    for row in rows {
        if row.count > MOST_DOCUMENTS - total {
            return false;
        }
        total += row.count;
    }
    true
}
