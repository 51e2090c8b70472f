//! Counters, which rise until they begin again.
ghost use Rattle.std.specs.Prelude.{◌≡◌, ℕ, ◌+◌, ◌^◌, ◌≤◌};
ghost use Rattle.fold_law.specs.Rises.{climb_of, join_rises, reach_of_rise};
ghost use Rattle.fold_law.specs.Rises.{no_rise, rising_of_one, merge_risings, reach_of_rising};
ghost use Rattle.fold_law.specs.RiseLaws.{rising_laws};

use crate::Fold;

/// What a counter did over a time: its first and last value, and by how much it rose in all. One value v is
/// the rise v, v, 0.
#[derive(Clone, Copy, Debug, PartialEq, Eq)]
pub struct Rise {
    pub first: i64,
    pub last: i64,
    pub increase: i128,
}

/// The rise of a counter, or none where no value is present.
#[derive(Clone, Copy, Debug, PartialEq, Eq)]
pub struct Rising(pub Option<Rise>);

/// By how much a counter rose from one value to the next. Where it fell it began again at 0.
pub fn climb(from: i64, to: i64) -> i128
    ensures { result ≡ climb_of from to }
{
    if to < from {
        i128::from(to.max(0))
    } else {
        i128::from(to) - i128::from(from)
    }
}

fn join(earlier: Rise, later: Rise) -> Rise
    requires { reach_of_rise (Some earlier) + reach_of_rise (Some later) ≤ 2 ^ 120 }
    ensures { result ≡ join_rises earlier later }
{
    Rise {
        first: earlier.first,
        last: later.last,
        increase: earlier.increase + climb(earlier.last, later.first) + later.increase,
    }
}

impl Fold for Rising {
    type Item = Option<i64>;

    ghost none = { no_rise };

    ghost one = { rising_of_one };

    ghost merge = { merge_risings };

    ghost reach = { reach_of_rising };

    ghost laws = { rising_laws };

    fn none() -> Rising {
        Rising(None)
    }

    fn add(self, item: &Option<i64>) -> Rising {
        match *item {
            None => self,
            Some(value) => self.merge(Rising(Some(Rise {
                first: value,
                last: value,
                increase: 0,
            }))),
        }
    }

    fn merge(self, later: Rising) -> Rising {
        match (self.0, later.0) {
            (None, _) => later,
            (Some(_), None) => self,
            (Some(p), Some(q)) => Rising(Some(join(p, q))),
        }
    }
}
