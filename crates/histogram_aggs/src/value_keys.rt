//! Values as the keys of buckets.
use row_cells::Scalar;
use search_filter::value_order;
use std::cmp::Ordering;
use std::collections::btree_map::Comparable;
use std::marker::Model;

/// A value that a bucket is of. Numbers stand before truth values, and these before texts.
#[derive(Drop)]
pub struct ValueKey {
    value: Scalar,
}

impl Model for ValueKey {
    ghost use Rattle.row_cells.specs.declared.scalars.Scalar.{Scalar as scalar};

    ghost Value = { scalar };

    ghost view = { λ key. key.value };
}

impl ValueKey {
    ghost use Rattle.std.specs.Prelude.{◌≡◌};

    pub fn new(value: Scalar) -> ValueKey
        ensures { result ≡ value }
    {
        ValueKey { value }
    }

    pub fn value(&self) -> &Scalar
        ensures { result.now ≡ self.now }
    {
        &self.value
    }

    pub fn into_value(self) -> Scalar
        ensures { result ≡ self }
    {
        let ValueKey { value } = self;
        value
    }
}

impl PartialEq for ValueKey {
    ghost use Rattle.std.specs.Cmp;
    ghost use Rattle.std.specs.Ordering.{eq_by_cmp};
    ghost use Rattle.search_filter.specs.Values.{value_cmp};
    ghost use Rattle.search_filter.specs.ValueLaws.{value_cmp_total};

    ghost eq = { eq_by_cmp value_cmp };

    ghost laws = { Cmp.partial_equiv_from_equiv (Cmp.eq_by_cmp_equiv value_cmp_total) };

    fn eq(&self, other: &ValueKey) -> bool {
        value_order(self.value(), other.value()).is_eq()
    }
}

impl Eq for ValueKey {
    ghost use Rattle.std.specs.Cmp;
    ghost use Rattle.search_filter.specs.ValueLaws.{value_cmp_total};

    ghost laws = { Cmp.eq_by_cmp_equiv value_cmp_total };
}

impl PartialOrd for ValueKey {
    ghost use Rattle.std.specs.Prelude.{Some};
    ghost use Rattle.std.specs.Cmp;
    ghost use Rattle.search_filter.specs.Values.{value_cmp};
    ghost use Rattle.search_filter.specs.ValueLaws.{value_cmp_total};

    ghost partial_cmp = { λ x y. Some (value_cmp x y) };

    ghost laws = { Cmp.partial_order_from_total value_cmp_total };

    fn partial_cmp(&self, other: &ValueKey) -> Option<Ordering> {
        Some(self.cmp(other))
    }
}

impl Ord for ValueKey {
    ghost use Rattle.std.specs.Prelude.{refl};
    ghost use Rattle.search_filter.specs.Values.{value_cmp};
    ghost use Rattle.search_filter.specs.ValueLaws.{value_cmp_total};

    ghost cmp = { value_cmp };

    ghost total = { value_cmp_total };

    ghost matches_partial_cmp = { λ x y. refl };

    ghost matches_eq = { λ x y. refl };

    fn cmp(&self, other: &ValueKey) -> Ordering {
        value_order(self.value(), other.value())
    }
}

/// A value that a bucket is looked up by, where it lies in its row.
#[derive(Clone, Copy)]
pub struct ValueAt<'a> {
    pub value: &'a Scalar,
}

impl<'a> Comparable<ValueKey> for ValueAt<'a> {
    ghost use Rattle.std.specs.BTreeMap.Comparable.{le_lt_trans};
    ghost use Rattle.search_filter.specs.Values.{value_cmp};
    ghost use Rattle.search_filter.specs.ValueLaws.{value_cmp_total};

    ghost compare = { λ at key. value_cmp at.value.now key };

    ghost respects_cmp = { λ at x y. value_cmp_total.congr at.value.now x y };

    ghost below_greater = { λ at x y. le_lt_trans value_cmp_total at.value.now x y };

    fn compare(&self, key: &ValueKey) -> Ordering {
        value_order(self.value, key.value())
    }
}
