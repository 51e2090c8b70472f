//! Bytes compared eight at a time.
ghost use Rattle.std.specs.Prelude.{◌≡◌, ◌<◌, IfSome, length};
ghost use Rattle.std.specs.Ordering.{nat_cmp, ordering_then};
ghost use Rattle.std.specs.Cmp.Lexicographic.{slice_cmp};

use std::cmp::Ordering;

/// How the first eight bytes of two texts compare, and what follows them.
#[derive(Clone, Copy)]
struct Pair<'a> {
    order: Ordering,
    left: &'a [u8],
    right: &'a [u8],
}

fn next_words<'a>(left: &'a [u8], right: &'a [u8]) -> Option<Pair<'a>>
    ensures compared { IfSome result (λ pair. slice_cmp nat_cmp left.now right.now ≡
        ordering_then pair.order (slice_cmp nat_cmp pair.left.now pair.right.now)) }
    ensures shorter { IfSome result (λ pair. length pair.left.now < length left.now) }
{
    let (a, left) = left.split_first_chunk::<8>()?;
    let (b, right) = right.split_first_chunk::<8>()?;
    Some(Pair {
        order: u64::from_be_bytes(*a).cmp(&u64::from_be_bytes(*b)),
        left,
        right,
    })
}

/// Compares two texts of bytes as `Ord` of slices does, by words of eight bytes.
pub fn bytes_order(left: &[u8], right: &[u8]) -> Ordering
    ensures { result ≡ slice_cmp nat_cmp left.now right.now }
{
    let mut left = left;
    let mut right = right;
    while let Some(pair) = next_words(left, right) {
        match pair.order {
            Ordering::Equal => {
                left = pair.left;
                right = pair.right;
            }
            order => return order,
        }
    }
    left.cmp(right)
}
