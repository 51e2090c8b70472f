//! The order of keys and rows.
ghost use Rattle.std.specs.Prelude.{◌≡◌, nat_eq, Some, refl};
ghost use Rattle.std.specs.Ordering.{nat_cmp};
ghost use Rattle.std.specs.Cmp;
ghost use Rattle.std.specs.Cmp.{IsTotalOrder};
ghost use Rattle.std.specs.Cmp.Lexicographic.{pointwise, slice_cmp, nat_list_eq_equiv, nat_list_cmp_total, texts_ties, texts_po};
ghost use Rattle.row_cells.specs.Order.{row_cmp};

use crate::keys::Key;
use crate::rows::Row;
use edge_face::bytes_order;
use std::cmp::Ordering;

impl PartialEq for Key {
    ghost eq = { pointwise nat_eq };

    ghost laws = { Cmp.partial_equiv_from_equiv nat_list_eq_equiv };

    fn eq(&self, other: &Key) -> bool {
        bytes_order(self.bytes(), other.bytes()).is_eq()
    }
}

impl Eq for Key {
    ghost laws = { nat_list_eq_equiv };
}

impl PartialOrd for Key {
    ghost partial_cmp = { λ x y. Some (slice_cmp nat_cmp x y) };

    ghost laws = { texts_po };

    fn partial_cmp(&self, other: &Key) -> Option<Ordering> {
        Some(self.cmp(other))
    }
}

impl Ord for Key {
    ghost cmp = { slice_cmp nat_cmp };

    ghost total = { nat_list_cmp_total };

    ghost matches_partial_cmp = { λ x y. refl };

    ghost matches_eq = { texts_ties };

    fn cmp(&self, other: &Key) -> Ordering {
        bytes_order(self.bytes(), other.bytes())
    }
}

/// Compares rows by key ascending, then by time descending, so that the latest row of a series comes first.
pub fn row_order(a: &Row, b: &Row) -> Ordering
    ensures is { result ≡ row_cmp a.now b.now }
    ensures total { IsTotalOrder row_cmp }
{
    a.key.cmp(&b.key).then(b.time.cmp(&a.time))
}
