//! Folds of metric values: how the values of many documents become one, in any grouping of the list.
#![tactic(auto)]

mod counters;
mod measures;
mod pairs;
#[cfg(test)]
mod tests;

ghost use Rattle.std.specs.Prelude.{◌≡◌, ℕ, ◌+◌, ◌^◌, ◌≤◌, List, ◌++◌};
ghost use Rattle.fold_law.specs.Laws.{FoldLaws, fold_of, reach_of_items};

pub use counters::{Rise, Rising, climb};
pub use measures::{Count, Gauge, Parts};
pub use pairs::{Both, Last, PairItem};

/// A way to sum up a list of items, which stand in order of time.
///
/// `one` is the fold of a single item and `reach` is a bound on the size of the numbers inside. A fold is
/// safe to go on as long as reaches add up to at most 2^120, which leaves room in 128 bits.
pub trait Fold: Copy {
    type Item;

    ghost none: { Self };

    ghost one: { Self.Item → Self };

    ghost merge: { Self → Self → Self };

    ghost reach: { Self → ℕ };

    /// The fold of no items.
    fn none() -> Self
        ensures { result ≡ none };

    /// The fold with one item more, the latest.
    fn add(self, item: &Self::Item) -> Self
        requires { reach self + reach (one item.now) ≤ 2 ^ 120 }
        ensures { result ≡ merge self (one item.now) };

    /// The fold of the items of `self` and then those of `later`.
    fn merge(self, later: Self) -> Self
        requires { reach self + reach later ≤ 2 ^ 120 }
        ensures { result ≡ merge self later };

    ghost laws: { FoldLaws none merge reach };
}

/// Folds a list of items, the earliest first.
pub fn fold_all<F: Fold>(items: &[F::Item]) -> F
    requires { reach_of_items F.reach F.one items.now ≤ 2 ^ 120 }
    ensures folded { result ≡ fold_of F.none F.merge F.one items.now }
    ensures reached { F.reach result ≤ reach_of_items F.reach F.one items.now }
{
    let mut folded = F::none();
    for item in items {
        folded = folded.add(item);
    }
    folded
}

/// The law by which a list may be folded in any grouping: the fold of a joined list is the merge of the folds.
pub fn joined_folds<F: Fold>()
    ensures joined { (earlier later : List F.Item) →
        fold_of F.none F.merge F.one (earlier ++ later) ≡
        F.merge (fold_of F.none F.merge F.one earlier) (fold_of F.none F.merge F.one later) }
    ensures laws { FoldLaws F.none F.merge F.reach }
    ensures reached { (items : List F.Item) → F.reach (fold_of F.none F.merge F.one items) ≤ reach_of_items F.reach F.one items }
{}
