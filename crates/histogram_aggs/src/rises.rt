//! What is kept of a counter: its rise at each moment of each series that has one, since rows come in any order and what
//! a counter gains from one row to the next is known once no row between them can come any more.
ghost use Rattle.std.specs.Prelude.{◌≡◌, ℕ, ℤ, List, ◌++◌, [], ◌∷◌, Ok, None, Some, true, false, IfOk, OnOk};
ghost use Rattle.std.specs.BTreeMap.{get};
ghost use Rattle.std.specs.Cmp.Lexicographic.{slice_cmp};
ghost use Rattle.std.specs.Ordering.{nat_cmp};
ghost use Rattle.fold_law.specs.Rises.{join_present_rises, join_rises};
ghost use Rattle.downsample_fold.specs.Measures.{rising_in};
ghost use Rattle.histogram_aggs.specs.Metrics as metrics;
ghost use Rattle.histogram_aggs.specs.Metrics.{rise_of_series};
ghost use Rattle.histogram_aggs.specs.Rises.{RisesStand, SeriesStands, moment_cmp, rise_held, rise_in, rise_where};
ghost use Rattle.histogram_aggs.specs.Samples.{Sample};

use crate::series_keys::{KeyAt, SeriesKey};
use edge_face::NoMemory;
use fold_law::{Rise, climb};
use row_cells::{Cell, Row, rising_of};
use std::alloc::Global;
use std::collections::BTreeMap;

/// The window of the index that a row is of.
#[derive(Clone, Copy, Debug)]
pub struct Window {
    /// Its start, in milliseconds since 1970 began, in UTC.
    pub start: i64,
}

/// The rises of a series, each by the start of its window and its time.
pub type Series = BTreeMap<(i64, i64), Rise>;

/// The rises of several series.
pub type Rises = BTreeMap<SeriesKey, Series>;

fn both_rises(earlier: Rise, later: Rise) -> Result<Rise, NoMemory>
    ensures { IfOk result (λ both. both ≡ join_rises earlier later) }
{
    let Some(before) = earlier
        .increase
        .checked_add(climb(earlier.last, later.first))
    else {
        return Err(NoMemory);
    };
    let Some(increase) = before.checked_add(later.increase) else {
        return Err(NoMemory);
    };
    Ok(Rise {
        first: earlier.first,
        last: later.last,
        increase,
    })
}

/// The rise of a row.
fn row_rise(place: usize, row: &Row) -> Option<Rise>
    ensures { result ≡ (rising_in place row.now).0 }
{
    match row.cells.get(place) {
        Some(cell) => rising_of(cell).0,
        None => rising_of(&Cell::Absent).0,
    }
}

/// A rise, and behind it what is kept at its moment.
fn in_front(series: &Series, at: (i64, i64), rise: Rise) -> Result<Rise, NoMemory>
    ensures { IfOk result (λ both. Some both ≡ join_present_rises (Some rise) (get moment_cmp series.now at)) }
{
    match series.get(&at) {
        None => Ok(rise),
        Some(later) => both_rises(rise, *later),
    }
}

/// One rise more of a series. Of rows at one moment the one that comes later stands in front, as in row order.
fn put_rise(series: &mut Series, at: (i64, i64), rise: Rise) -> Result<(), NoMemory>
    ensures { OnOk result ((p : ℤ × ℤ) → get moment_cmp series.new p ≡ join_present_rises (rise_where at rise p) (get moment_cmp series.old p)) }
{
    let both = in_front(series, at, rise)?;
    let _ = series.insert(at, both)?;
    Ok(())
}

/// One rise more of a series, if there is some: whether there is.
fn put_known(rises: &mut Rises, key: &[u8], at: (i64, i64), rise: Rise) -> Result<bool, NoMemory>
    ensures known { result ≡ Ok true → (k : List ℕ) (p : ℤ × ℤ) →
        rise_held (get (slice_cmp nat_cmp) rises.new k) p ≡ join_present_rises (rise_in key.now at rise k p) (rise_held (get (slice_cmp nat_cmp) rises.old k) p) }
    ensures missing { result ≡ Ok false → (get (slice_cmp nat_cmp) rises.old key.now ≡ None)
        × ((k : List ℕ) → get (slice_cmp nat_cmp) rises.new k ≡ get (slice_cmp nat_cmp) rises.old k) }
{
    match rises.get_mut(KeyAt { bytes: key }) {
        None => Ok(false),
        Some(series) => {
            put_rise(series, at, rise)?;
            Ok(true)
        }
    }
}

/// The first rise of a series.
fn first_rise(alloc: Global, at: (i64, i64), rise: Rise) -> Result<Series, NoMemory>
    ensures { IfOk result (λ series. (p : ℤ × ℤ) → get moment_cmp series p ≡ rise_where at rise p) }
{
    let mut series = BTreeMap::new(alloc);
    let _ = series.insert(at, rise)?;
    Ok(series)
}

fn put_in(
    alloc: Global,
    rises: &mut Rises,
    key: &[u8],
    at: (i64, i64),
    rise: Rise,
) -> Result<(), NoMemory>
    ensures { OnOk result ((k : List ℕ) (p : ℤ × ℤ) →
        rise_held (get (slice_cmp nat_cmp) rises.new k) p ≡ join_present_rises (rise_in key.now at rise k p) (rise_held (get (slice_cmp nat_cmp) rises.old k) p)) }
{
    if put_known(rises, key, at, rise)? {
        return Ok(());
    }
    let series = first_rise(alloc, at, rise)?;
    let copied = SeriesKey::new(alloc, key)?;
    let _ = rises.insert(copied, series)?;
    Ok(())
}

/// Where a row stands in its series.
fn moment_of(window: &Window, row: &Row) -> (i64, i64)
    ensures { result ≡ (window.now.start, row.now.time) }
{
    let start = window.start;
    let time = row.time;
    (start, time)
}

/// One row more.
pub fn offer_rise(
    alloc: Global,
    rises: &mut Rises,
    place: usize,
    window: &Window,
    row: &Row,
) -> Result<(), NoMemory>
    ensures { OnOk result ((xs : List Sample) → RisesStand place rises.old xs
        → RisesStand place rises.new (xs ++ record { start = window.now.start; row = row.now } ∷ [])) }
{
    let Some(rise) = row_rise(place, row) else {
        return Ok(());
    };
    let at = moment_of(window, row);
    put_in(alloc, rises, row.key.bytes(), at, rise)?;
    Ok(())
}

/// Adds what is kept of other rows of a series, which stand behind those before. The other is used up.
fn merge_series(series: &mut Series, other: &mut Series) -> Result<(), NoMemory>
    ensures { OnOk result ((p : ℤ × ℤ) → get moment_cmp series.new p ≡ join_present_rises (get moment_cmp other.old p) (get moment_cmp series.old p)) }
{
    while let Some((at, rise)) = other.pop_first() {
        put_rise(series, at, rise)?;
    }
    Ok(())
}

/// What is kept of a series in both, where it was in the first.
fn join_series(had: Option<Series>, other: Series) -> Result<Series, NoMemory>
    ensures { IfOk result (λ series. (p : ℤ × ℤ) → get moment_cmp series p ≡ join_present_rises (rise_held (Some other) p) (rise_held had p)) }
{
    let Some(had) = had else {
        return Ok(other);
    };
    let mut series = had;
    let mut other = other;
    merge_series(&mut series, &mut other)?;
    Ok(series)
}

/// Adds what is kept of other rows, which stand behind those before. The others are used up.
pub fn merge_rises(rises: &mut Rises, others: &mut Rises) -> Result<(), NoMemory>
    ensures { OnOk result ((place : ℕ) (xs ys : List Sample) → RisesStand place rises.old xs → RisesStand place others.old ys
        → RisesStand place rises.new (xs ++ ys)) }
{
    while let Some((key, other)) = others.pop_first() {
        let had = rises.remove(&key);
        let series = join_series(had, other)?;
        let _ = rises.insert(key, series)?;
    }
    Ok(())
}

/// A rise and one behind it, where there is one before.
fn behind(all: Option<Rise>, next: Rise) -> Result<Rise, NoMemory>
    ensures { IfOk result (λ both. Some both ≡ join_present_rises all (Some next)) }
{
    match all {
        None => Ok(next),
        Some(before) => both_rises(before, next),
    }
}

/// The rise of a series. What is kept of it is used up.
fn rise_of(series: &mut Series) -> Result<Option<Rise>, NoMemory>
    ensures { IfOk result (λ rise. (place : ℕ) (key : List ℕ) (xs : List Sample) → SeriesStands place key (get moment_cmp series.old) xs
        → rise ≡ (rise_of_series place xs key).0) }
{
    // without effect: it only tells the proof that the map is in order, on which `pop_first` below depends
    let _ = series.len();
    let mut all = None;
    while let Some((_, rise)) = series.pop_first() {
        all = Some(behind(all, rise)?);
    }
    Ok(all)
}

fn increase_in(rise: Option<Rise>) -> i128
    ensures { result ≡ metrics.increase_in rise }
{
    match rise {
        None => 0,
        Some(rise) => rise.increase,
    }
}

/// The increases of all series together. What is kept of them is used up.
pub fn increase_of(rises: &mut Rises) -> Result<i128, NoMemory>
    ensures { IfOk result (λ sum. (place : ℕ) (xs : List Sample) → RisesStand place rises.old xs → sum ≡ metrics.increase_of place xs) }
{
    // without effect, as above
    let _ = rises.len();
    let mut sum: i128 = 0;
    while let Some((_, series)) = rises.pop_first() {
        let mut series = series;
        let Some(more) = sum.checked_add(increase_in(rise_of(&mut series)?)) else {
            return Err(NoMemory);
        };
        sum = more;
    }
    Ok(sum)
}
