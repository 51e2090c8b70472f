//! Keys of series, in lists and in segments.
ghost use Rattle.std.specs.Prelude.{◌≡◌, ◌≤◌, length, IfOk};
ghost use Rattle.std.specs.List.{slice_get};
ghost use Rattle.std.specs.Option.{option_copied};
ghost use Rattle.row_cells.specs.RowLists.{AreInRowOrder};
ghost use Rattle.index_segment.specs.Directory.{keys_of, row_keys};
ghost use Rattle.index_segment.specs.Looks.{first_behind, is_behind};
ghost use Rattle.tsds_index.specs.Nexts.{IsNext, first_key, lesser as lesser_of};
ghost use Rattle.tsds_index.specs.Segments.{lists_in};
ghost use Rattle.tsds_index.specs.Spread.{newest_first};

use edge_face::NoMemory;
use index_segment::Segment;
use row_cells::{Key, Row};
use sqlite_items::at;
use std::alloc::Global;
use std::cmp::Ordering;

/// Whether a key stands behind another, or behind none.
fn stands_behind(before: Option<&Key>, key: &Key) -> bool
    ensures { result ≡ is_behind (option_copied before.entry) key.now }
{
    match before {
        Some(before) => key.cmp(before).is_gt(),
        None => true,
    }
}

/// The place of the first row that has a key behind another.
fn place_behind(rows: &[Row], before: Option<&Key>) -> usize
    requires { AreInRowOrder rows.now }
    ensures { first_behind (option_copied before.entry) (row_keys rows.now) ≡ slice_get (row_keys rows.now) result }
{
    let mut low = 0;
    let mut high = rows.len();
    while low < high {
        let middle = low + (high - low) / 2;
        if stands_behind(before, &rows[middle].key) {
            high = middle;
        } else {
            low = middle + 1;
        }
    }
    low
}

/// The key of the first row that has one behind another.
pub fn key_behind<'a>(rows: &'a [Row], before: Option<&Key>) -> Option<&'a Key>
    requires { AreInRowOrder rows.now }
    ensures { option_copied result ≡ first_key (option_copied before.entry) rows.now }
{
    match at(rows, place_behind(rows, before)) {
        Some(row) => Some(&row.key),
        None => None,
    }
}

/// The number of the first series of a segment that has a key behind another.
fn series_behind(segment: &Segment, before: Option<&Key>) -> usize
    ensures { first_behind (option_copied before.entry) (keys_of segment.now.rows) ≡ slice_get (keys_of segment.now.rows) result }
{
    let _schema = segment.schema();
    let mut low = 0;
    let mut high = segment.series_count();
    while low < high {
        let middle = low + (high - low) / 2;
        if stands_behind(before, segment.key_at(middle)) {
            high = middle;
        } else {
            low = middle + 1;
        }
    }
    low
}

/// The first key of a segment behind another.
fn key_in<'a>(segment: &'a Segment, before: Option<&Key>) -> Option<&'a Key>
    ensures { option_copied result ≡ first_behind (option_copied before.entry) (keys_of segment.now.rows) }
{
    let series = series_behind(segment, before);
    if series < segment.series_count() {
        Some(segment.key_at(series))
    } else {
        None
    }
}

/// The lesser of two keys, where both are there.
pub fn lesser<'a>(one: Option<&'a Key>, other: Option<&'a Key>) -> Option<&'a Key>
    ensures { option_copied result ≡ lesser_of (option_copied one.entry) (option_copied other.entry) }
{
    match (one, other) {
        (None, other) => other,
        (Some(one), None) => Some(one),
        (Some(one), Some(other)) => match one.cmp(other) {
            Ordering::Greater => Some(other),
            _ => Some(one),
        },
    }
}

/// A copy of a key, where there is one.
pub fn copy_key(alloc: Global, key: Option<&Key>) -> Result<Option<Key>, NoMemory>
    ensures { IfOk result (λ copy. copy ≡ option_copied key.entry) }
{
    match key {
        Some(key) => Ok(Some(key.copy(alloc)?)),
        None => Ok(None),
    }
}

/// The least key of segments behind another.
pub fn next_sealed<'a>(segments: &'a [Segment], before: Option<&Key>) -> Option<&'a Key>
    ensures { IsNext (option_copied before.entry) (newest_first (lists_in segments.now)) (option_copied result) }
{
    let mut least = None;
    let mut left = segments;
    while let Some((segment, older)) = left.split_last() {
        let _schema = segment.schema();
        let next = key_in(segment, before);
        let lower = lesser(least, next);
        least = lower;
        left = older;
    }
    least
}
