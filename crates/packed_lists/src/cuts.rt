//! Where numbers that fall pass a bound, by the first numbers of blocks and one unpacked block.
ghost use Rattle.std.specs.Prelude.{◌≡◌, ℕ, ℤ, pos, ◌≤ℤ◌, ◌<ℤ◌, ◌+◌, ◌-◌, ◌*◌, ◌^◌, ◌<◌, ◌≤◌, max, List, length, slice_index_or};
ghost use Rattle.packed_lists.specs.Decoded.{AreBlocksAt};
ghost use Rattle.packed_lists.specs.Falling.{IsEdge, IsBlockEdge};

use crate::steps::Steps;
use column_pack::first_known;
use std::sync::ledger::Ledger;

/// The first number of a block of a list.
fn first_of(bytes: &[u8], places: &[usize], block: usize) -> i64
    requires list { (vs : List ℤ) × AreBlocksAt bytes.now places.now vs }
    requires within { block < length places.now }
    ensures { (vs : List ℤ) → AreBlocksAt bytes.now places.now vs → result ≡ slice_index_or vs (128 * block) (pos 0) }
{
    first_known(&bytes[places[block]..])
}

/// Between two blocks, one whose first number isn't below the bound, where it isn't the first block, with the next
/// one below it, where it isn't the last. Each header that is read is a step.
pub fn block_edge<L: Ledger>(
    bytes: &[u8],
    places: &[usize],
    first: usize,
    last: usize,
    bound: i64,
    steps: &mut Steps<L>,
) -> usize
    requires list { (vs : List ℤ) × AreBlocksAt bytes.now places.now vs }
    requires order { first ≤ last }
    requires within { last < length places.now }
    ensures low { first ≤ result }
    ensures high { result ≤ last }
    ensures edge { (vs : List ℤ) → AreBlocksAt bytes.now places.now vs → IsBlockEdge vs first last result bound }
    ensures counted { steps.old ≤ steps.new }
    ensures cost { 2 ^ (steps.new - steps.old) ≤ max 1 (2 * (last - first)) }
{
    let mut low = first;
    let mut high = last;
    while low < high {
        let middle = high - (high - low) / 2;
        steps.tick();
        if first_of(bytes, places, middle) < bound {
            high = middle - 1;
        } else {
            low = middle;
        }
    }
    low
}

/// A place of numbers with one before it that isn't below the bound and one at it that is.
pub fn edge(numbers: &[i64], bound: i64) -> usize
    ensures { IsEdge numbers.now 0 (length numbers.now) result bound }
{
    let mut low = 0;
    let mut high = numbers.len();
    while low < high {
        let middle = low + (high - low) / 2;
        if numbers[middle] < bound {
            high = middle;
        } else {
            low = middle + 1;
        }
    }
    low
}
