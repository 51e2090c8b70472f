//! Rows of a series and a range of times, in lists and in segments.
ghost use Rattle.std.specs.Prelude.{◌≡◌, ◌++◌, OnOk};
ghost use Rattle.index_segment.specs.Looks.{is_within, rows_within};
ghost use Rattle.tsds_index.specs.Segments.{lists_in};
ghost use Rattle.tsds_index.specs.Spread.{newest_first};

use edge_face::NoMemory;
use index_segment::Segment;
use row_cells::{Key, Row, copy_row};
use std::alloc::Global;

/// Whether a row is of a series, at or behind one time and before another.
pub fn stands_within(row: &Row, key: &Key, from: i64, to: i64) -> bool
    ensures { result ≡ is_within key.now from to row.now }
{
    row.key == *key && from <= row.time && row.time < to
}

/// Copies rows to the end of others.
pub fn copy_rows(alloc: Global, rows: &[Row], into: &mut Vec<Row>) -> Result<(), NoMemory>
    ensures { OnOk result (into.new.items ≡ into.old.items ++ rows.now) }
{
    for row in rows {
        into.push(copy_row(alloc, row)?)?;
    }
    Ok(())
}

/// Adds the rows of a range, of segments, to the end of others: those of the newest segment first.
pub fn scan_sealed(
    alloc: Global,
    segments: &[Segment],
    key: &Key,
    from: i64,
    to: i64,
    into: &mut Vec<Row>,
) -> Result<(), NoMemory>
    ensures { OnOk result (into.new.items ≡ into.old.items ++ rows_within key.now from to (newest_first (lists_in segments.now))) }
{
    let mut left = segments;
    while let Some((segment, older)) = left.split_last() {
        let mut rows = segment.scan(alloc, key, from, to)?;
        into.append(&mut rows)?;
        left = older;
    }
    Ok(())
}
