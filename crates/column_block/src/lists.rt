//! Several lists of numbers, one behind the other.
ghost use Rattle.std.specs.Prelude.{◌≡◌, ℕ, ℤ, ◌+◌, ◌*◌, ◌<◌, ◌≤◌, ◌++◌, List, length, take, drop, slice_range, get_or, IfOk, IfSome, IsNone, OnOk};
ghost use Rattle.packed_lists.specs.Nums.{AreNums};
ghost use Rattle.packed_lists.specs.Decoded.{ArePlaced, AreBlocksAt};

use crate::kinds::Numbers;
use edge_face::NoMemory;
use packed_lists::put_numbers;
use sqlite_items::Items;
use std::alloc::Global;

/// Appends the blocks of some lists, and gives the places where those of each list begin.
pub fn put_lists(
    alloc: Global,
    lists: &[Numbers],
    into: &mut Vec<u8>,
) -> Result<Items<Items<usize>>, NoMemory>
    ensures spelled { OnOk result ((rest : List ℕ) × AreNums lists.now rest × (into.new.items ≡ into.old.items ++ rest)) }
    ensures placed { IfOk result (λ places. ArePlaced into.new.items places lists.now) }
{
    let mut places = Vec::new(alloc);
    for list in lists {
        places.push(Items::from_vec(put_numbers(alloc, list.as_slice(), into)?))?;
    }
    Ok(Items::from_vec(places))
}
