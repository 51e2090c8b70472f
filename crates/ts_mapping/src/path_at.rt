//! Paths in the order of their bytes, where they lie.
ghost use Rattle.std.specs.Prelude.{nat_eq, Some, refl};
ghost use Rattle.std.specs.Ordering.{nat_cmp};
ghost use Rattle.std.specs.Cmp.Lexicographic.{pointwise, slice_cmp, nat_list_eq_equiv, nat_list_cmp_total, texts_ties, texts_po};
ghost use Rattle.std.specs.Cmp;

use edge_face::bytes_order;
use std::cmp::Ordering;
use std::marker::Model;

/// A path where it lies. Paths are compared by words of eight bytes.
#[derive(Drop)]
pub struct PathAt<'a> {
    bytes: &'a [u8],
}

impl<'a> Model for PathAt<'a> {
    ghost use Rattle.std.specs.Prelude.{List, ℕ};

    ghost Value = { List ℕ };

    ghost view = { λ p. p.bytes.now };
}

impl<'a> PathAt<'a> {
    ghost use Rattle.std.specs.Prelude.{◌≡◌};

    pub fn new(bytes: &'a [u8]) -> PathAt<'a>
        ensures { result ≡ bytes.now }
    {
        PathAt { bytes }
    }

    pub fn bytes(&self) -> &'a [u8]
        ensures { result.now ≡ self.now }
    {
        self.bytes
    }
}

impl<'a> PartialEq for PathAt<'a> {
    ghost eq = { pointwise nat_eq };

    ghost laws = { Cmp.partial_equiv_from_equiv nat_list_eq_equiv };

    fn eq(&self, other: &PathAt<'a>) -> bool {
        bytes_order(self.bytes(), other.bytes()).is_eq()
    }
}

impl<'a> Eq for PathAt<'a> {
    ghost laws = { nat_list_eq_equiv };
}

impl<'a> PartialOrd for PathAt<'a> {
    ghost partial_cmp = { λ x y. Some (slice_cmp nat_cmp x y) };

    ghost laws = { texts_po };

    fn partial_cmp(&self, other: &PathAt<'a>) -> Option<Ordering> {
        Some(self.cmp(other))
    }
}

impl<'a> Ord for PathAt<'a> {
    ghost cmp = { slice_cmp nat_cmp };

    ghost total = { nat_list_cmp_total };

    ghost matches_partial_cmp = { λ x y. refl };

    ghost matches_eq = { texts_ties };

    fn cmp(&self, other: &PathAt<'a>) -> Ordering {
        bytes_order(self.bytes(), other.bytes())
    }
}
