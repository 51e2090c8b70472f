//! Rows put in row order.
ghost use Rattle.std.specs.Prelude.{◌≡◌, IfOk, OnOk};
ghost use Rattle.std.specs.List.Sorted.{IsSorted, IsStable};
ghost use Rattle.row_cells.specs.Order.{row_cmp};
ghost use Rattle.row_cells.specs.RowLists.{AreDistinct, in_row_order};

use edge_face::NoMemory;
use row_cells::{Row, are_in_row_order, row_order};
use std::alloc::AllocError;

fn sort(rows: &mut Vec<Row>) -> Result<(), AllocError>
    ensures sorted { OnOk result (IsSorted row_cmp rows.new.items) }
    ensures stable { IsStable row_cmp rows.old.items rows.new.items }
{
    rows.sort_by(|a, b| row_order(a, b))
}

/// Rows in row order. They mostly are so already: the newest lists come first, and in a series so do the latest rows.
pub fn in_order(rows: Vec<Row>) -> Result<Vec<Row>, NoMemory>
    requires { AreDistinct rows.items }
    ensures { IfOk result (λ ordered. ordered.items ≡ in_row_order rows.items) }
{
    if are_in_row_order(rows.as_slice()) {
        return Ok(rows);
    }
    let mut rows = rows;
    sort(&mut rows)?;
    Ok(rows)
}
