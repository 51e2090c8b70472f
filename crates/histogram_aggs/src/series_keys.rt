//! Keys of series, as the keys of what is kept of them.
use edge_face::{Bytes, NoMemory, bytes_order};
use std::alloc::Global;
use std::cmp::Ordering;
use std::collections::btree_map::Comparable;
use std::marker::Model;

/// The bytes of a series' key, by which what is kept of it is found.
#[derive(Drop)]
pub struct SeriesKey {
    bytes: Bytes,
}

impl Model for SeriesKey {
    ghost use Rattle.std.specs.Prelude.{List, ℕ};

    ghost Value = { List ℕ };

    ghost view = { λ key. key.bytes };
}

impl SeriesKey {
    ghost use Rattle.std.specs.Prelude.{◌≡◌, IfOk};

    pub fn new(alloc: Global, bytes: &[u8]) -> Result<SeriesKey, NoMemory>
        ensures { IfOk result (λ key. key ≡ bytes.now) }
    {
        Ok(SeriesKey {
            bytes: Bytes::new(alloc, bytes)?,
        })
    }

    fn bytes(&self) -> &[u8]
        ensures { result.now ≡ self.now }
    {
        self.bytes.as_slice()
    }
}

impl PartialEq for SeriesKey {
    ghost use Rattle.std.specs.Cmp;
    ghost use Rattle.std.specs.Cmp.Lexicographic.{nat_list_cmp_total, slice_cmp};
    ghost use Rattle.std.specs.Ordering.{eq_by_cmp, nat_cmp};

    ghost eq = { eq_by_cmp (slice_cmp nat_cmp) };

    ghost laws = { Cmp.partial_equiv_from_equiv (Cmp.eq_by_cmp_equiv nat_list_cmp_total) };

    fn eq(&self, other: &SeriesKey) -> bool {
        self.cmp(other).is_eq()
    }
}

impl Eq for SeriesKey {
    ghost use Rattle.std.specs.Cmp;
    ghost use Rattle.std.specs.Cmp.Lexicographic.{nat_list_cmp_total};

    ghost laws = { Cmp.eq_by_cmp_equiv nat_list_cmp_total };
}

impl PartialOrd for SeriesKey {
    ghost use Rattle.std.specs.Prelude.{Some};
    ghost use Rattle.std.specs.Cmp;
    ghost use Rattle.std.specs.Cmp.Lexicographic.{nat_list_cmp_total, slice_cmp};
    ghost use Rattle.std.specs.Ordering.{nat_cmp};

    ghost partial_cmp = { λ x y. Some (slice_cmp nat_cmp x y) };

    ghost laws = { Cmp.partial_order_from_total nat_list_cmp_total };

    fn partial_cmp(&self, other: &SeriesKey) -> Option<Ordering> {
        Some(self.cmp(other))
    }
}

impl Ord for SeriesKey {
    ghost use Rattle.std.specs.Prelude.{refl};
    ghost use Rattle.std.specs.Cmp.Lexicographic.{nat_list_cmp_total, slice_cmp};
    ghost use Rattle.std.specs.Ordering.{nat_cmp};

    ghost cmp = { slice_cmp nat_cmp };

    ghost total = { nat_list_cmp_total };

    ghost matches_partial_cmp = { λ x y. refl };

    ghost matches_eq = { λ x y. refl };

    fn cmp(&self, other: &SeriesKey) -> Ordering {
        bytes_order(self.bytes(), other.bytes())
    }
}

/// A series' key where it lies in a row, by which what is kept of the series is looked up.
#[derive(Clone, Copy)]
pub struct KeyAt<'a> {
    pub bytes: &'a [u8],
}

impl<'a> Comparable<SeriesKey> for KeyAt<'a> {
    ghost use Rattle.std.specs.BTreeMap.Comparable.{le_lt_trans};
    ghost use Rattle.std.specs.Cmp.Lexicographic.{nat_list_cmp_total, slice_cmp};
    ghost use Rattle.std.specs.Ordering.{nat_cmp};

    ghost compare = { λ at key. slice_cmp nat_cmp at.bytes.now key };

    ghost respects_cmp = { λ at x y. nat_list_cmp_total.congr at.bytes.now x y };

    ghost below_greater = { λ at x y. le_lt_trans nat_list_cmp_total at.bytes.now x y };

    fn compare(&self, key: &SeriesKey) -> Ordering {
        bytes_order(self.bytes, key.bytes())
    }
}
