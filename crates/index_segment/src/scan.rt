//! Rows of a series, put together from columns.
ghost use Rattle.std.specs.Prelude.{◌≡◌, ◌^◌, ◌<◌, ◌++◌, length, map, IfOk, OnOk};
ghost use Rattle.column_block.specs.Ranges.{rows_between};
ghost use Rattle.index_segment.specs.Held.{series_rows};

use crate::forms::Form;
use crate::restore::restore_cells;
use column_block::{Column, Values};
use edge_face::NoMemory;
use row_cells::{Cell, Key, Row};
use sqlite_items::Items;
use std::alloc::Global;

/// The values of some rows of each column.
pub fn pull(
    alloc: Global,
    columns: &[Column],
    from: u32,
    to: u32,
) -> Result<Items<Values>, NoMemory>
    ensures { IfOk result (λ values. values ≡ map (rows_between from to) columns.now) }
{
    let mut pulled = Vec::with_capacity(alloc, columns.len())?;
    for column in columns {
        pulled.push(column.values(alloc, from, to)?)?;
    }
    Ok(Items::from_vec(pulled))
}

/// What is the same for all rows of a series: its key, the forms of the fields, and the cells that the key gives.
#[derive(Clone, Copy)]
pub struct Series<'a> {
    pub key: &'a Key,
    pub forms: &'a [Form],
    pub heads: &'a [Cell],
}

/// Pushes the rows of a series that have these times, counts of documents and columns.
pub fn push_rows(
    alloc: Global,
    series: Series,
    times: &[i64],
    counts: &[i64],
    columns: &[Values],
    into: &mut Vec<Row>,
) -> Result<(), NoMemory>
    requires same { length series.heads.now ≡ length series.forms.now }
    requires few { length series.forms.now < 2 ^ 60 }
    requires counted { length counts.now ≡ length times.now }
    ensures { OnOk result (into.new.items ≡ into.old.items ++ series_rows series.entry.key.now series.entry.forms.now series.entry.heads.now columns.now 0 times.now counts.now) }
{
    for place in 0..times.len() {
        let cells = restore_cells(alloc, series.forms, series.heads, columns, place)?;
        into.push(Row {
            key: series.key.copy(alloc)?,
            time: times[place],
            count: counts[place].unsigned_abs(),
            cells,
        })?;
    }
    Ok(())
}
