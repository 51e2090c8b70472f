//! Segments and rows of a buffer made one segment.
ghost use Rattle.std.specs.Prelude.{◌≡◌, ◌+◌, ◌-◌, ◌^◌, ◌≤◌, ◌++◌, ◌∷◌, [], length, reverse, take, IfOk, OnOk, OnErr};
ghost use Rattle.row_cells.specs.KeyedRows.{AreRowsOf};
ghost use Rattle.row_cells.specs.Limits.{most_documents};
ghost use Rattle.row_cells.specs.Mapped.{IsMapped};
ghost use Rattle.row_cells.specs.RowLists.{AreDistinct, documents, in_row_order};
ghost use Rattle.tsds_index.specs.Sealing.{is_joined as is_joined_to, joined_count};
ghost use Rattle.tsds_index.specs.Segments.{AreOfSchema, lists_in};
ghost use Rattle.tsds_index.specs.Spread.{newest_first};

use edge_face::NoMemory;
use index_segment::Segment;
use row_cells::{Row, Schema};
use std::alloc::Global;

/// Whether a segment is joined to newer rows: it has fewer than twice as many.
fn is_joined(older: usize, newer: usize) -> bool
    ensures { result ≡ is_joined_to older newer }
{
    older / 2 < newer
}

/// From which segment on they are joined to so many rows: each that has fewer than twice the rows behind it. So each
/// segment has at least twice the rows of the next one, and a row is written again once for each doubling at most.
pub fn place_to_join(segments: &[Segment], rows: usize) -> usize
    requires few { rows + length (newest_first (lists_in segments.now)) ≤ 2 ^ 32 }
    ensures within { result ≤ length segments.now }
    ensures rule { result ≡ length segments.now - joined_count rows (reverse (lists_in segments.now)) }
{
    let mut left = segments;
    let mut size = rows;
    while let Some((older, rest)) = left.split_last() {
        if !is_joined(older.len(), size) {
            return left.len();
        }
        size += older.len();
        left = rest;
    }
    0
}

/// One segment of rows and of segments, which have no series and time in common. The newest are joined first, as they
/// are the smallest.
pub fn joined(
    alloc: Global,
    schema: &Schema,
    segments: &[Segment],
    rows: &[Row],
) -> Result<Segment, NoMemory>
    requires mapped { IsMapped schema.now }
    requires rows { AreRowsOf schema.now rows.now }
    requires schemas { AreOfSchema schema.now segments.now }
    requires distinct { AreDistinct (rows.now ++ newest_first (lists_in segments.now)) }
    requires few { documents (rows.now ++ newest_first (lists_in segments.now)) ≤ most_documents }
    ensures { IfOk result (λ one. one ≡ record { schema = schema.now; rows = in_row_order (rows.now ++ newest_first (lists_in segments.now)) }) }
{
    let mut one = Segment::build(alloc, schema, rows)?;
    let mut left = segments;
    while let Some((older, rest)) = left.split_last() {
        one = one.merge(alloc, older)?;
        left = rest;
    }
    Ok(one)
}

/// Puts a segment in the place of those from a place on.
pub fn replace_from(
    segments: &mut Vec<Segment>,
    first: usize,
    segment: Segment,
) -> Result<(), NoMemory>
    requires { first ≤ length segments.old.items }
    ensures ok { OnOk result (segments.new.items ≡ take first segments.old.items ++ segment ∷ []) }
    ensures err { OnErr result (segments.new.items ≡ segments.old.items) }
{
    if first == segments.len() {
        match segments.push(segment) {
            Ok(()) => return Ok(()),
            Err(_) => return Err(NoMemory),
        }
    }
    segments[first] = segment;
    segments.truncate(first + 1);
    Ok(())
}
