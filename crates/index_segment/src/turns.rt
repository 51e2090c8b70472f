//! Which of two segments the rows come from, one behind the other.
ghost use Rattle.std.specs.Prelude.{◌≡◌, ◌+◌, ◌<◌, ◌≤◌, ◌++◌, length, slice_get, IfOk, OnOk};
ghost use Rattle.std.specs.Option.{option_copied};
ghost use Rattle.index_segment.specs.Merging.{firsts, seconds, sides, sides_by_time, sides_of_series};
ghost use Rattle.index_segment.specs.Turns.{count_later, count_since};

use crate::shares::Counts;
use edge_face::NoMemory;
use sqlite_items::Items;
use std::alloc::Global;

/// How many times from the front on are later than a bound, or all where there is no bound.
fn later_than(bound: Option<&i64>, times: &[i64]) -> usize
    ensures count { result ≡ count_later (option_copied bound.entry) times.now }
    ensures within { result ≤ length times.now }
{
    let Some(bound) = bound else {
        return times.len();
    };
    for (place, time) in times.iter().enumerate() {
        if *time <= *bound {
            return place;
        }
    }
    times.len()
}

/// How many times from the front on are a bound or later, or all where there is no bound.
fn since(bound: Option<&i64>, times: &[i64]) -> usize
    ensures count { result ≡ count_since (option_copied bound.entry) times.now }
    ensures within { result ≤ length times.now }
{
    let Some(bound) = bound else {
        return times.len();
    };
    for (place, time) in times.iter().enumerate() {
        if *time < *bound {
            return place;
        }
    }
    times.len()
}

/// Appends where the rows of one series come from, by the times of both segments. Each entry is a run of rows of the
/// first segment and then one of the second, as long as they can be.
fn push_turns(first: &[i64], second: &[i64], into: &mut Vec<Counts>) -> Result<(), NoMemory>
    ensures { OnOk result (sides into.new.items ≡ sides into.old.items ++ sides_by_time first.now second.now) }
{
    let mut left = first;
    let mut right = second;
    while 0 < left.len() || 0 < right.len() {
        let (taken, behind) = left.split_at(later_than(right.first(), left));
        let (given, beyond) = right.split_at(since(behind.first(), right));
        into.push(Counts {
            first: taken.len(),
            second: given.len(),
        })?;
        left = behind;
        right = beyond;
    }
    Ok(())
}

/// Where the rows of all series come from: so many of the first segment and then so many of the second, and so on.
/// The series have these numbers of rows in each segment, and the times are those of all rows.
pub fn turns_of(
    alloc: Global,
    series: &[Counts],
    first: &[i64],
    second: &[i64],
) -> Result<Items<Counts>, NoMemory>
    requires first { firsts series.now ≤ length first.now }
    requires second { seconds series.now ≤ length second.now }
    ensures { IfOk result (λ turns. sides turns ≡ sides_of_series series.now first.now second.now) }
{
    let mut turns = Vec::new(alloc);
    let mut left = first;
    let mut right = second;
    for rows in series {
        let (here, behind) = left.split_at(rows.first);
        let (there, beyond) = right.split_at(rows.second);
        push_turns(here, there, &mut turns)?;
        left = behind;
        right = beyond;
    }
    Ok(Items::from_vec(turns))
}
