//! Rows of a series and a time in segments.
ghost use Rattle.std.specs.Prelude.{◌≡◌, ◌<◌, position, length, IfOk, IfSome, IsNone};
ghost use Rattle.row_cells.specs.RowLists.{has_place};
ghost use Rattle.index_segment.specs.Looks.{is_at};
ghost use Rattle.tsds_index.specs.Answers.{row_at};
ghost use Rattle.tsds_index.specs.Segments.{lists_in};
ghost use Rattle.tsds_index.specs.Spread.{newest_first};

use edge_face::NoMemory;
use index_segment::{Segment, Steps};
use row_cells::{Key, Row};
use std::alloc::Global;
use std::marker::Brand;
use std::sync::ledger::{Blank, Ledger};

fn find_with<L: Ledger>(segment: &Segment, key: &Key, time: i64, blank: Blank) -> Option<u64>
    requires name { blank.name ≡ L.name }
    requires parts { blank.parts ≡ L.parts }
    requires some { 0 < blank.parts }
    ensures { result ≡ position (is_at key.now time) segment.now.rows }
{
    let mut steps = Steps::<L>::new(blank);
    segment.find(key, time, &mut steps)
}

/// The place of the row of a series and a time.
fn place_of(segment: &Segment, key: &Key, time: i64) -> Option<u64>
    ensures { result ≡ position (is_at key.now time) segment.now.rows }
{
    find_with::<Brand>(segment, key, time, Blank::new(1))
}

/// Whether a row of segments is of a series and a time.
pub fn has_sealed(segments: &[Segment], key: &Key, time: i64) -> bool
    ensures { result ≡ has_place key.now time (newest_first (lists_in segments.now)) }
{
    let mut left = segments;
    while let Some((segment, older)) = left.split_last() {
        match place_of(segment, key, time) {
            Some(_) => return true,
            None => left = older,
        }
    }
    false
}

/// The row of a series and a time, of segments.
pub fn find_sealed(
    alloc: Global,
    segments: &[Segment],
    key: &Key,
    time: i64,
) -> Result<Option<Row>, NoMemory>
    ensures { IfOk result (λ found. found ≡ row_at key.now time (newest_first (lists_in segments.now))) }
{
    let mut left = segments;
    while let Some((segment, older)) = left.split_last() {
        match place_of(segment, key, time) {
            Some(place) => return Ok(Some(segment.row_at(alloc, place as usize)?)),
            None => left = older,
        }
    }
    Ok(None)
}
