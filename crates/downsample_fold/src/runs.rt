//! The rows of one place among rows in row order, and the row that they fold to.
ghost use Rattle.std.specs.Prelude.{◌≡◌, ◌<◌, ◌≤◌, length, map, IfOk};
ghost use Rattle.std.specs.List.{prefix_len};
ghost use Rattle.time_text.specs.Bucket.{bucket_start};
ghost use Rattle.time_text.specs.Instant.{IsInstant};
ghost use Rattle.time_text.specs.Interval.{ms_of};
ghost use Rattle.row_cells.specs.Limits.{most_documents};
ghost use Rattle.row_cells.specs.Each.{Each};
ghost use Rattle.row_cells.specs.RowLists.{documents};
ghost use Rattle.downsample_fold.specs.Columns.{fold_columns};
ghost use Rattle.downsample_fold.specs.Direct.{fold_at};
ghost use Rattle.downsample_fold.specs.Places.{place_of, same_place};
ghost use Rattle.downsample_fold.specs.Room.{RowsHaveRoom};

use crate::columns::fold_field;
use edge_face::NoMemory;
use row_cells::{Cell, Field, Row, Schema};
use sqlite_items::Items;
use std::alloc::Global;
use time_text::Interval;

fn start_of(row: &Row, by: Interval) -> i64
    requires { IsInstant row.now.time }
    ensures { result ≡ bucket_start (ms_of by) row.now.time }
{
    by.start_of(row.time)
}

/// How many rows from the front on are of the series and the bucket of `first`.
pub fn run_length(rows: &[Row], first: &Row, by: Interval) -> usize
    requires rows { Each (λ row. IsInstant row.time) rows.now }
    requires first { IsInstant first.now.time }
    ensures { result ≡
        prefix_len (λ row. same_place (place_of (ms_of by) row) (place_of (ms_of by) first.now)) rows.now }
{
    let start = start_of(first, by);
    for (count, row) in rows.iter().enumerate() {
        if row.key != first.key || start_of(row, by) != start {
            return count;
        }
    }
    rows.len()
}

fn count_documents(rows: &[Row]) -> u64
    requires { documents rows.now ≤ most_documents }
    ensures { result ≡ documents rows.now }
{
    let mut count = 0;
    for row in rows {
        count += row.count;
    }
    count
}

fn fold_fields(
    alloc: Global,
    rises: bool,
    fields: &[Field],
    rows: &[Row],
) -> Result<Items<Cell>, NoMemory>
    requires some { 0 < length rows.now }
    requires cells { Each (λ row. length row.cells ≡ length fields.now) rows.now }
    requires room { RowsHaveRoom rises fields.now (map (λ row. row.cells) rows.now) }
    ensures { IfOk result (λ cells. cells ≡ fold_columns rises fields.now (map (λ row. row.cells) rows.now)) }
{
    let mut cells = Vec::with_capacity(alloc, fields.len())?;
    for place in 0..fields.len() {
        cells.push(fold_field(alloc, rises, fields[place].role, rows, place)?)?;
    }
    Ok(Items::from_vec(cells))
}

/// The row of the series and the bucket of `first`, of all its rows.
pub fn fold_run(
    alloc: Global,
    schema: &Schema,
    rows: &[Row],
    first: &Row,
    by: Interval,
) -> Result<Row, NoMemory>
    requires first { IsInstant first.now.time }
    requires some { 0 < length rows.now }
    requires few { documents rows.now ≤ most_documents }
    requires cells { Each (λ row. length row.cells ≡ length schema.now.fields) rows.now }
    requires room { RowsHaveRoom schema.now.rises schema.now.fields (map (λ row. row.cells) rows.now) }
    ensures { IfOk result (λ row. row ≡ fold_at schema.now (place_of (ms_of by) first.now) rows.now) }
{
    Ok(Row {
        key: first.key.copy(alloc)?,
        time: start_of(first, by),
        count: count_documents(rows),
        cells: fold_fields(alloc, schema.rises, schema.fields.as_slice(), rows)?,
    })
}
