//! Gauges and counts of documents.
ghost use Rattle.std.specs.Prelude.{◌≡◌, ℕ, ◌+◌, ◌^◌, ◌≤◌};
ghost use Rattle.fold_law.specs.Gauges.{no_gauge, gauge_of_one, merge_gauges, reach_of_gauge, join_parts, reach_of_parts};
ghost use Rattle.fold_law.specs.GaugeLaws.{gauge_laws};
ghost use Rattle.fold_law.specs.Gauges.{no_count, count_of_one, merge_counts, reach_of_count};
ghost use Rattle.fold_law.specs.GaugeLaws.{count_laws};

use crate::Fold;

/// Least, greatest, sum and number of the values of a gauge. One value v has the parts v, v, v, 1.
#[derive(Clone, Copy, Debug, PartialEq, Eq)]
pub struct Parts {
    pub min: i64,
    pub max: i64,
    pub sum: i128,
    pub count: i128,
}

/// The parts of a gauge's values, or none where no value is present.
#[derive(Clone, Copy, Debug, PartialEq, Eq)]
pub struct Gauge(pub Option<Parts>);

fn join(earlier: Parts, later: Parts) -> Parts
    requires { reach_of_parts (Some earlier) + reach_of_parts (Some later) ≤ 2 ^ 120 }
    ensures { result ≡ join_parts earlier later }
{
    Parts {
        min: earlier.min.min(later.min),
        max: earlier.max.max(later.max),
        sum: earlier.sum + later.sum,
        count: earlier.count + later.count,
    }
}

impl Fold for Gauge {
    type Item = Parts;

    ghost none = { no_gauge };

    ghost one = { gauge_of_one };

    ghost merge = { merge_gauges };

    ghost reach = { reach_of_gauge };

    ghost laws = { gauge_laws };

    fn none() -> Gauge {
        Gauge(None)
    }

    fn add(self, item: &Parts) -> Gauge {
        self.merge(Gauge(Some(*item)))
    }

    fn merge(self, later: Gauge) -> Gauge {
        match (self.0, later.0) {
            (None, _) => later,
            (Some(_), None) => self,
            (Some(p), Some(q)) => Gauge(Some(join(p, q))),
        }
    }
}

/// A number of documents.
#[derive(Clone, Copy, Debug, PartialEq, Eq)]
pub struct Count(pub u128);

impl Fold for Count {
    type Item = u64;

    ghost none = { no_count };

    ghost one = { count_of_one };

    ghost merge = { merge_counts };

    ghost reach = { reach_of_count };

    ghost laws = { count_laws };

    fn none() -> Count {
        Count(0)
    }

    fn add(self, item: &u64) -> Count {
        Count(self.0 + u128::from(*item))
    }

    fn merge(self, later: Count) -> Count {
        Count(self.0 + later.0)
    }
}
