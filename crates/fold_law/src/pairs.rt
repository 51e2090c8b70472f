//! The last present value, and two folds at once.
ghost use Rattle.std.specs.Prelude.{◌≡◌, ℕ, ◌+◌};
ghost use Rattle.fold_law.specs.Lasts.{no_last, last_of_one, merge_lasts, reach_of_last};
ghost use Rattle.fold_law.specs.LastLaws.{last_laws};
ghost use Rattle.fold_law.specs.Pairs.{both_of, both_of_one, merge_boths, reach_of_both};
ghost use Rattle.fold_law.specs.PairLaws.{both_laws};

use crate::Fold;

/// The last value that is present.
#[derive(Clone, Copy, Debug, PartialEq, Eq)]
pub struct Last<V: Copy>(pub Option<V>);

impl<V: Copy> Fold for Last<V> {
    type Item = Option<V>;

    ghost none = { no_last };

    ghost one = { last_of_one };

    ghost merge = { merge_lasts };

    ghost reach = { reach_of_last };

    ghost laws = { last_laws };

    fn none() -> Last<V> {
        Last(None)
    }

    fn add(self, item: &Option<V>) -> Last<V> {
        self.merge(Last(*item))
    }

    fn merge(self, later: Last<V>) -> Last<V> {
        match later.0 {
            None => self,
            Some(_) => later,
        }
    }
}

/// Two folds over lists of pairs.
#[derive(Clone, Copy, Debug, PartialEq, Eq)]
pub struct Both<A: Fold, B: Fold> {
    pub a: A,
    pub b: B,
}

/// An item of each of two folds.
#[derive(Clone, Copy, Debug, PartialEq, Eq)]
pub struct PairItem<X, Y> {
    pub a: X,
    pub b: Y,
}

impl<A: Fold, B: Fold> Fold for Both<A, B> {
    type Item = PairItem<A::Item, B::Item>;

    ghost none = { both_of A.none B.none };

    ghost one = { both_of_one A.one B.one };

    ghost merge = { merge_boths A.merge B.merge };

    ghost reach = { reach_of_both A.reach B.reach };

    ghost laws = { both_laws A.laws B.laws };

    fn none() -> Both<A, B> {
        Both {
            a: A::none(),
            b: B::none(),
        }
    }

    fn add(self, item: &PairItem<A::Item, B::Item>) -> Both<A, B> {
        Both {
            a: self.a.add(&item.a),
            b: self.b.add(&item.b),
        }
    }

    fn merge(self, later: Both<A, B>) -> Both<A, B> {
        Both {
            a: self.a.merge(later.a),
            b: self.b.merge(later.b),
        }
    }
}
