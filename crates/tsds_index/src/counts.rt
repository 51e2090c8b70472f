//! How many rows of a series and a range of times there are, in lists and in segments.
ghost use Rattle.std.specs.Prelude.{◌≡◌, ◌+◌, ◌^◌, ◌≤◌, length, take, drop};
ghost use Rattle.row_cells.specs.Order.{row_cmp};
ghost use Rattle.row_cells.specs.RowLists.{AreInRowOrder};
ghost use Rattle.index_segment.specs.Looks.{rows_within};
ghost use Rattle.tsds_index.specs.Places.{place_row};
ghost use Rattle.tsds_index.specs.Ranges.{AllBehind, NoneBehind};
ghost use Rattle.tsds_index.specs.Segments.{lists_in};
ghost use Rattle.tsds_index.specs.Spread.{newest_first};

use index_segment::Segment;
use row_cells::{Key, Row};
use std::cmp::Ordering;

/// How a series and a time stand to a row.
fn order_to(row: &Row, key: &Key, time: i64) -> Ordering
    ensures { result ≡ row_cmp (place_row key.now time) row.now }
{
    key.cmp(&row.key).then(row.time.cmp(&time))
}

/// How many rows don't stand behind a series and a time.
fn place_up_to(rows: &[Row], key: &Key, time: i64) -> usize
    requires { AreInRowOrder rows.now }
    ensures within { result ≤ length rows.now }
    ensures before { NoneBehind (place_row key.now time) (take result rows.now) }
    ensures behind { AllBehind (place_row key.now time) (drop result rows.now) }
{
    let mut low = 0;
    let mut high = rows.len();
    while low < high {
        let middle = low + (high - low) / 2;
        match order_to(&rows[middle], key, time) {
            Ordering::Less => high = middle,
            _ => low = middle + 1,
        }
    }
    low
}

/// The rows of a range, which stand together. In a series the latest come first.
pub fn rows_between<'a>(rows: &'a [Row], key: &Key, from: i64, to: i64) -> &'a [Row]
    requires { AreInRowOrder rows.now }
    ensures { result.now ≡ rows_within key.now from to rows.now }
{
    let (_, rest) = rows.split_at(place_up_to(rows, key, to));
    let (within, _) = rest.split_at(place_up_to(rest, key, from));
    within
}

/// How many rows of a segment are of a range.
fn count_in(segment: &Segment, key: &Key, from: i64, to: i64) -> usize
    ensures { result ≡ length (rows_within key.now from to segment.now.rows) }
{
    let _schema = segment.schema();
    let Some(series) = segment.series(key) else {
        return 0;
    };
    let range = segment.range(series, from, to);
    range.last - range.first
}

/// How many rows of segments are of a range, and so many besides. No row is made.
pub fn count_sealed(total: u64, segments: &[Segment], key: &Key, from: i64, to: i64) -> u64
    requires { total + length (newest_first (lists_in segments.now)) ≤ 2 ^ 32 }
    ensures { result ≡ total + length (rows_within key.now from to (newest_first (lists_in segments.now))) }
{
    let mut count = total;
    let mut left = segments;
    while let Some((segment, older)) = left.split_last() {
        count += count_in(segment, key, from, to) as u64;
        left = older;
    }
    count
}
