//! Folds of the parts of columns' values, block by block.
ghost use Rattle.std.specs.Prelude.{◌≡◌, ℕ, ℤ, ◌*◌, ◌+◌, ◌<◌, ◌≤◌, ◌^◌, List, length, map, take, slice_range};
ghost use Rattle.fold_law.specs.Laws.{fold_of, reach_of_items};
ghost use Rattle.fold_law.specs.Gauges.{no_gauge, merge_gauges, gauge_of_one, reach_of_gauge};
ghost use Rattle.column_pack.specs.Summary.{IsSummary};
ghost use Rattle.column_block.specs.Presence.{present};
ghost use Rattle.row_cells.specs.Merging.{parts_of_value};

use crate::parts_column::PartsColumn;
use crate::six_lists::UNREAD;
use crate::whole::WholeColumn;
use column_pack::Summary;
use fold_law::{Fold, Gauge, Parts, fold_all};
use packed_lists::{BLOCK, leave};

/// A fold with some of a block's parts more.
fn fold_some<F: Fold<Item = Parts>>(folded: F, parts: &[Parts], from: usize, to: usize) -> F
    requires order { from ≤ to }
    requires within { to ≤ length parts.now }
    requires reach { F.reach folded + reach_of_items F.reach F.one (slice_range parts.now from to) ≤ 2 ^ 120 }
    ensures { result ≡ F.merge folded (fold_of F.none F.merge F.one (slice_range parts.now from to)) }
{
    folded.merge(fold_all(&parts[from..to]))
}

/// The parts of a number by itself.
fn parts_of_number(value: i64) -> Parts
    ensures { result ≡ parts_of_value value }
{
    Parts {
        min: value,
        max: value,
        sum: i128::from(value),
        count: 1,
    }
}

/// The gauge of the numbers of a block.
fn gauge_of_summary(summary: Summary) -> Gauge
    ensures { (vs : List ℤ) → 0 < length vs → IsSummary vs summary → result ≡ fold_of no_gauge merge_gauges gauge_of_one (map parts_of_value vs) }
{
    Gauge(Some(Parts {
        min: summary.min,
        max: summary.max,
        sum: summary.sum,
        count: i128::from(summary.n),
    }))
}

impl WholeColumn {
    /// Writes the parts of the numbers of a block to the front of `into`, and says how many they are.
    fn read_parts(&self, block: usize, into: &mut [Parts; 128]) -> usize
        requires { 128 * block < length (present self.now) }
        ensures count { result ≡ length (slice_range (map parts_of_value (present self.now)) (128 * block) (128 * block + 128)) }
        ensures few { result ≤ 128 }
        ensures parts { take result into.new ≡ slice_range (map parts_of_value (present self.now)) (128 * block) (128 * block + 128) }
    {
        let mut numbers = [0i64; BLOCK];
        let count = self.read_block(block, &mut numbers);
        for place in 0..count {
            into[place] = parts_of_number(numbers[place]);
        }
        count
    }

    /// A fold with some of a block's numbers more.
    fn fold_part<F: Fold<Item = Parts>>(&self, folded: F, block: usize, from: usize, to: usize) -> F
        requires order { from < to }
        requires inside { to ≤ 128 }
        requires within { 128 * block + to ≤ length (present self.now) }
        requires reach { F.reach folded + reach_of_items F.reach F.one (slice_range (map parts_of_value (present self.now)) (128 * block + from) (128 * block + to)) ≤ 2 ^ 120 }
        ensures { result ≡ F.merge folded (fold_of F.none F.merge F.one (slice_range (map parts_of_value (present self.now)) (128 * block + from) (128 * block + to))) }
    {
        let mut buffer = [UNREAD; BLOCK];
        let count = self.read_parts(block, &mut buffer);
        fold_some(folded, &buffer[..count], from, to)
    }

    /// The fold of the parts of the numbers from a place up to another, among those that are present.
    fn fold_numbers<F: Fold<Item = Parts>>(&self, from: usize, to: usize) -> F
        requires order { from ≤ to }
        requires within { to ≤ length (present self.now) }
        requires reach { reach_of_items F.reach F.one (slice_range (map parts_of_value (present self.now)) from to) ≤ 2 ^ 120 }
        ensures { result ≡ fold_of F.none F.merge F.one (slice_range (map parts_of_value (present self.now)) from to) }
    {
        let mut folded = F::none();
        let mut at = from;
        while at < to {
            let block = at / BLOCK;
            let first = BLOCK * block;
            let end = leave(first, to);
            folded = self.fold_part(folded, block, at - first, end - first);
            at = end;
        }
        folded
    }

    /// The fold of the parts of the numbers of the rows from a place up to another.
    pub fn fold_block<F: Fold<Item = Parts>>(&self, from: usize, to: usize) -> F
        requires order { from ≤ to }
        requires within { to ≤ length self.now }
        requires reach { reach_of_items F.reach F.one (map parts_of_value (present (slice_range self.now from to))) ≤ 2 ^ 120 }
        ensures { result ≡ fold_of F.none F.merge F.one (map parts_of_value (present (slice_range self.now from to))) }
    {
        let first = self.count_to(from);
        let last = self.count_to(to);
        self.fold_numbers(first, last)
    }

    /// The gauge of some of a block's numbers, which aren't listed where they are all.
    fn gauge_part(&self, block: usize, from: usize, to: usize) -> Gauge
        requires order { from < to }
        requires inside { to ≤ 128 }
        requires within { 128 * block + to ≤ length (present self.now) }
        requires reach { reach_of_items reach_of_gauge gauge_of_one (slice_range (map parts_of_value (present self.now)) (128 * block + from) (128 * block + to)) ≤ 2 ^ 120 }
        ensures { result ≡ fold_of no_gauge merge_gauges gauge_of_one (slice_range (map parts_of_value (present self.now)) (128 * block + from) (128 * block + to)) }
    {
        if to - from == BLOCK {
            gauge_of_summary(self.summary(block))
        } else {
            self.fold_part(Gauge::none(), block, from, to)
        }
    }

    /// The gauge of the numbers from a place up to another, among those that are present.
    fn gauge_numbers(&self, from: usize, to: usize) -> Gauge
        requires order { from ≤ to }
        requires within { to ≤ length (present self.now) }
        requires reach { reach_of_items reach_of_gauge gauge_of_one (slice_range (map parts_of_value (present self.now)) from to) ≤ 2 ^ 120 }
        ensures { result ≡ fold_of no_gauge merge_gauges gauge_of_one (slice_range (map parts_of_value (present self.now)) from to) }
    {
        let mut gauge = Gauge::none();
        let mut at = from;
        while at < to {
            let block = at / BLOCK;
            let first = BLOCK * block;
            let end = leave(first, to);
            gauge = gauge.merge(self.gauge_part(block, at - first, end - first));
            at = end;
        }
        gauge
    }

    /// The gauge of the same rows. A block that lies whole in the range is taken by its least, greatest and sum.
    pub fn gauge(&self, from: usize, to: usize) -> Gauge
        requires order { from ≤ to }
        requires within { to ≤ length self.now }
        ensures gauge { result ≡ fold_of no_gauge merge_gauges gauge_of_one (map parts_of_value (present (slice_range self.now from to))) }
        ensures reach { reach_of_items reach_of_gauge gauge_of_one (map parts_of_value (present (slice_range self.now from to))) ≤ 2 ^ 119 }
    {
        let first = self.count_to(from);
        let last = self.count_to(to);
        self.gauge_numbers(first, last)
    }
}

impl PartsColumn {
    /// A fold with some of a block's parts more.
    fn fold_part<F: Fold<Item = Parts>>(&self, folded: F, block: usize, from: usize, to: usize) -> F
        requires order { from < to }
        requires inside { to ≤ 128 }
        requires within { 128 * block + to ≤ length (present self.now) }
        requires reach { F.reach folded + reach_of_items F.reach F.one (slice_range (present self.now) (128 * block + from) (128 * block + to)) ≤ 2 ^ 120 }
        ensures { result ≡ F.merge folded (fold_of F.none F.merge F.one (slice_range (present self.now) (128 * block + from) (128 * block + to))) }
    {
        let mut buffer = [UNREAD; BLOCK];
        let count = self.read_block(block, &mut buffer);
        fold_some(folded, &buffer[..count], from, to)
    }

    /// The fold of the parts from a place up to another, among those that are present.
    fn fold_parts<F: Fold<Item = Parts>>(&self, from: usize, to: usize) -> F
        requires order { from ≤ to }
        requires within { to ≤ length (present self.now) }
        requires reach { reach_of_items F.reach F.one (slice_range (present self.now) from to) ≤ 2 ^ 120 }
        ensures { result ≡ fold_of F.none F.merge F.one (slice_range (present self.now) from to) }
    {
        let mut folded = F::none();
        let mut at = from;
        while at < to {
            let block = at / BLOCK;
            let first = BLOCK * block;
            let end = leave(first, to);
            folded = self.fold_part(folded, block, at - first, end - first);
            at = end;
        }
        folded
    }

    /// The fold of the parts of the rows from a place up to another.
    pub fn fold_block<F: Fold<Item = Parts>>(&self, from: usize, to: usize) -> F
        requires order { from ≤ to }
        requires within { to ≤ length self.now }
        requires reach { reach_of_items F.reach F.one (present (slice_range self.now from to)) ≤ 2 ^ 120 }
        ensures { result ≡ fold_of F.none F.merge F.one (present (slice_range self.now from to)) }
    {
        let first = self.count_to(from);
        let last = self.count_to(to);
        self.fold_parts(first, last)
    }

    /// The gauge of the same rows.
    pub fn gauge(&self, from: usize, to: usize) -> Gauge
        requires order { from ≤ to }
        requires within { to ≤ length self.now }
        ensures gauge { result ≡ fold_of no_gauge merge_gauges gauge_of_one (present (slice_range self.now from to)) }
        ensures reach { reach_of_items reach_of_gauge gauge_of_one (present (slice_range self.now from to)) ≤ 2 ^ 119 }
    {
        let first = self.count_to(from);
        let last = self.count_to(to);
        self.fold_parts::<Gauge>(first, last)
    }
}
