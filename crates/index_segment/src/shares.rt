//! The series of two segments, each once.
ghost use Rattle.std.specs.Prelude.{◌≡◌, ◌+◌, ◌<◌, ◌≤◌, ◌++◌, [], ◌∷◌, unsigned_abs, pos, length, slice_index_or, IfOk, OnOk};
ghost use Rattle.row_cells.specs.Limits.{most_documents};
ghost use Rattle.index_segment.specs.Joining.{Goes, keys_of_joints, rows_of_joints, series_left};
ghost use Rattle.index_segment.specs.Directory.{starts_from};
ghost use Rattle.index_segment.specs.Merging.{counts_of, firsts, joined_series, joint_sizes, listed, seconds};
ghost use Rattle.index_segment.specs.Spelling.{counted};

use crate::directory::Directory;
use edge_face::NoMemory;
use row_cells::Key;
use sqlite_items::Items;
use std::alloc::Global;
use std::cmp::Ordering;

/// So many of a first list, and so many of a second.
#[derive(Clone, Copy, Debug)]
pub struct Counts {
    pub first: usize,
    pub second: usize,
}

/// The series of a segment: their keys, and how many rows each has.
#[derive(Clone, Copy)]
pub struct Listed<'a> {
    pub keys: &'a [Key],
    pub sizes: &'a [i64],
}

/// The series of two segments, each once, and how many rows each segment has of it.
#[derive(Debug, Drop)]
pub struct Joined {
    pub keys: Items<Key>,
    pub rows: Items<Counts>,
}

/// How many rows the series at a place has.
fn rows_at(series: Listed, place: usize) -> usize
    requires { place < length series.sizes.now }
    ensures { result ≡ unsigned_abs (slice_index_or series.entry.sizes.now place (pos 0)) }
{
    series.sizes[place].unsigned_abs() as usize
}

/// Appends a series with so many rows of each segment.
fn push_series(alloc: Global, key: &Key, rows: Counts, into: &mut Joined) -> Result<(), NoMemory>
    ensures keys { OnOk result (into.new.keys ≡ into.old.keys ++ key.now ∷ []) }
    ensures rows { OnOk result (into.new.rows ≡ into.old.rows ++ rows ∷ []) }
{
    into.keys.push(key.copy(alloc)?)?;
    into.rows.push(rows)?;
    Ok(())
}

/// Appends the next series of the first list, and gives the places behind it.
fn push_first(
    alloc: Global,
    first: Listed,
    from: Counts,
    into: &mut Joined,
) -> Result<Counts, NoMemory>
    requires there { from.first < length first.keys.now }
    requires same { length first.sizes.now ≡ length first.keys.now }
    ensures keys { OnOk result (into.new.keys ≡ into.old.keys ++ slice_index_or first.entry.keys.now from.first [] ∷ []) }
    ensures rows { OnOk result (into.new.rows ≡ into.old.rows ++ counts_of (unsigned_abs (slice_index_or first.entry.sizes.now from.first (pos 0))) 0 ∷ []) }
    ensures next { IfOk result (λ to. to ≡ counts_of (from.first + 1) from.second) }
{
    let rows = Counts {
        first: rows_at(first, from.first),
        second: 0,
    };
    push_series(alloc, &first.keys[from.first], rows, into)?;
    Ok(Counts {
        first: from.first + 1,
        second: from.second,
    })
}

/// Appends the next series of the second list, and gives the places behind it.
fn push_second(
    alloc: Global,
    second: Listed,
    from: Counts,
    into: &mut Joined,
) -> Result<Counts, NoMemory>
    requires there { from.second < length second.keys.now }
    requires same { length second.sizes.now ≡ length second.keys.now }
    ensures keys { OnOk result (into.new.keys ≡ into.old.keys ++ slice_index_or second.entry.keys.now from.second [] ∷ []) }
    ensures rows { OnOk result (into.new.rows ≡ into.old.rows ++ counts_of 0 (unsigned_abs (slice_index_or second.entry.sizes.now from.second (pos 0))) ∷ []) }
    ensures next { IfOk result (λ to. to ≡ counts_of from.first (from.second + 1)) }
{
    let rows = Counts {
        first: 0,
        second: rows_at(second, from.second),
    };
    push_series(alloc, &second.keys[from.second], rows, into)?;
    Ok(Counts {
        first: from.first,
        second: from.second + 1,
    })
}

/// Appends the next series of both lists, which is one, and gives the places behind it.
fn push_both(
    alloc: Global,
    first: Listed,
    second: Listed,
    from: Counts,
    into: &mut Joined,
) -> Result<Counts, NoMemory>
    requires there { from.first < length first.keys.now }
    requires beside { from.second < length second.keys.now }
    requires same { length first.sizes.now ≡ length first.keys.now }
    requires same_too { length second.sizes.now ≡ length second.keys.now }
    ensures keys { OnOk result (into.new.keys ≡ into.old.keys ++ slice_index_or first.entry.keys.now from.first [] ∷ []) }
    ensures rows { OnOk result (into.new.rows ≡ into.old.rows ++ counts_of (unsigned_abs (slice_index_or first.entry.sizes.now from.first (pos 0))) (unsigned_abs (slice_index_or second.entry.sizes.now from.second (pos 0))) ∷ []) }
    ensures next { IfOk result (λ to. to ≡ counts_of (from.first + 1) (from.second + 1)) }
{
    let rows = Counts {
        first: rows_at(first, from.first),
        second: rows_at(second, from.second),
    };
    push_series(alloc, &first.keys[from.first], rows, into)?;
    Ok(Counts {
        first: from.first + 1,
        second: from.second + 1,
    })
}

/// Appends the series that comes next, and gives the places behind it.
fn join_next(
    alloc: Global,
    first: Listed,
    second: Listed,
    from: Counts,
    into: &mut Joined,
) -> Result<Counts, NoMemory>
    requires some { from.first + from.second < length first.keys.now + length second.keys.now }
    requires first_within { from.first ≤ length first.keys.now }
    requires second_within { from.second ≤ length second.keys.now }
    requires same { length first.sizes.now ≡ length first.keys.now }
    requires same_too { length second.sizes.now ≡ length second.keys.now }
    ensures goes { IfOk result (λ to. Goes into.old into.new (series_left (listed first.entry.keys.now first.entry.sizes.now) (listed second.entry.keys.now second.entry.sizes.now) from) (series_left (listed first.entry.keys.now first.entry.sizes.now) (listed second.entry.keys.now second.entry.sizes.now) to)) }
    ensures rise { IfOk result (λ to. from.first + from.second < to.first + to.second) }
    ensures first_within { IfOk result (λ to. to.first ≤ length first.entry.keys.now) }
    ensures second_within { IfOk result (λ to. to.second ≤ length second.entry.keys.now) }
{
    if from.first == first.keys.len() {
        let next = push_second(alloc, second, from, into)?;
        return Ok(next);
    }
    if from.second == second.keys.len() {
        let next = push_first(alloc, first, from, into)?;
        return Ok(next);
    }
    match first.keys[from.first].cmp(&second.keys[from.second]) {
        Ordering::Less => {
            let next = push_first(alloc, first, from, into)?;
            Ok(next)
        }
        Ordering::Greater => {
            let next = push_second(alloc, second, from, into)?;
            Ok(next)
        }
        Ordering::Equal => {
            let next = push_both(alloc, first, second, from, into)?;
            Ok(next)
        }
    }
}

/// The series of two lists whose keys ascend.
pub fn join_series(alloc: Global, first: Listed, second: Listed) -> Result<Joined, NoMemory>
    requires same { length first.sizes.now ≡ length first.keys.now }
    requires same_too { length second.sizes.now ≡ length second.keys.now }
    ensures keys { IfOk result (λ joined. joined.keys ≡ keys_of_joints (joined_series (listed first.entry.keys.now first.entry.sizes.now) (listed second.entry.keys.now second.entry.sizes.now))) }
    ensures rows { IfOk result (λ joined. joined.rows ≡ rows_of_joints (joined_series (listed first.entry.keys.now first.entry.sizes.now) (listed second.entry.keys.now second.entry.sizes.now))) }
{
    let mut joined = Joined {
        keys: Items::new(alloc),
        rows: Items::new(alloc),
    };
    let mut from = Counts {
        first: 0,
        second: 0,
    };
    while from.first + from.second < first.keys.len() + second.keys.len() {
        from = join_next(alloc, first, second, from, &mut joined)?;
    }
    Ok(joined)
}

/// Where the rows of each series begin, and how many they are, of both segments.
pub fn directory_of_joined(alloc: Global, joined: Joined) -> Result<Directory, NoMemory>
    requires few { firsts joined.rows + seconds joined.rows ≤ most_documents }
    ensures keys { IfOk result (λ directory. directory.keys ≡ joined.keys) }
    ensures starts { IfOk result (λ directory. directory.starts ≡ starts_from 0 (joint_sizes joined.rows)) }
    ensures sizes { IfOk result (λ directory. directory.sizes ≡ counted (joint_sizes joined.rows)) }
{
    let Joined { keys, rows } = joined;
    let mut starts = Vec::with_capacity(alloc, rows.len() + 1)?;
    let mut sizes = Vec::with_capacity(alloc, rows.len())?;
    let mut start = 0;
    for counts in rows.as_slice() {
        let size = counts.first + counts.second;
        starts.push(start as u32)?;
        sizes.push(size as i64)?;
        start += size;
    }
    starts.push(start as u32)?;
    Ok(Directory {
        keys,
        starts: Items::from_vec(starts),
        sizes: Items::from_vec(sizes),
    })
}
