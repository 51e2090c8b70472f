//! Lists of whole numbers in packed blocks, one behind the other, behind other bytes.
ghost use Rattle.std.specs.Prelude.{◌≡◌, ℕ, ℤ, ◌+◌, ◌<◌, ◌≤◌, ◌^◌, ◌++◌, List, [], ◌∷◌, length, map, slice_index_or, All, IfOk};
ghost use Rattle.packed_lists.specs.Nums.{AreNums};

use crate::cursor::Cursor;
use crate::number_list::NumberList;
use edge_face::NoMemory;
use sqlite_items::Items;
use std::alloc::Global;
use std::marker::Model;

/// Lists of whole numbers in packed blocks behind some bytes, with the place of each block.
#[derive(Debug, Drop)]
pub struct PackedLists {
    bytes: Vec<u8>,
    /// How many bytes stand in front of the lists.
    front: usize,
    /// Where the blocks of each list begin.
    places: Vec<Items<usize>>,
    /// How many numbers each list has.
    lens: Vec<usize>,
}

impl Model for PackedLists {
    ghost use Rattle.std.specs.Prelude.{map, take};
    ghost use Rattle.packed_lists.specs.Decoded.{values_at};
    ghost use Rattle.packed_lists.specs.Lists.{AreHeld, Fronted};

    ghost Value = { Fronted };

    ghost view = { λ p. record { front = take p.front p.bytes.items; lists = map (values_at p.bytes.items) p.places.items } };

    ghost invariant = { λ p. AreHeld p.front p.bytes.items p.places.items p.lens.items (map (values_at p.bytes.items) p.places.items) };
}

/// Places that much further on.
fn move_places(alloc: Global, places: &[usize], by: usize) -> Result<Items<usize>, NoMemory>
    requires { All (λ at. at + by < 2 ^ 64) places.now }
    ensures { IfOk result (λ moved. moved ≡ map (λ at. at + by) places.now) }
{
    let mut moved = Vec::with_capacity(alloc, places.len())?;
    for at in places {
        moved.push(*at + by)?;
    }
    Ok(Items::from_vec(moved))
}

impl PackedLists {
    /// No lists behind some bytes.
    pub fn new(alloc: Global, front: Vec<u8>) -> PackedLists
        ensures front { result.front ≡ front.items }
        ensures lists { result.lists ≡ [] }
    {
        PackedLists {
            front: front.len(),
            bytes: front,
            places: Vec::new(alloc),
            lens: Vec::new(alloc),
        }
    }

    /// The lists with one more behind them.
    pub fn with(self, alloc: Global, list: NumberList) -> Result<PackedLists, NoMemory>
        ensures front { IfOk result (λ lists. lists.front ≡ self.front) }
        ensures lists { IfOk result (λ lists. lists.lists ≡ self.lists ++ list ∷ []) }
    {
        let PackedLists {
            mut bytes,
            front,
            mut places,
            mut lens,
        } = self;
        let NumberList {
            bytes: more,
            places: found,
            len,
        } = list;
        let by = bytes.len();
        bytes.extend_from_slice(more.as_slice())?;
        places.push(move_places(alloc, found.as_slice(), by)?)?;
        lens.push(len)?;
        Ok(PackedLists {
            bytes,
            front,
            places,
            lens,
        })
    }

    /// The bytes in front, and the blocks of all lists behind them.
    pub fn bytes(&self) -> &[u8]
        ensures { (rest : List ℕ) × AreNums self.now.lists rest × (result.now ≡ self.now.front ++ rest) }
    {
        self.bytes.as_slice()
    }

    /// The bytes in front of the lists.
    pub fn front(&self) -> &[u8]
        ensures { result.now ≡ self.now.front }
    {
        &self.bytes.as_slice()[..self.front]
    }

    /// How many lists there are.
    pub fn count(&self) -> usize
        ensures { result ≡ length self.now.lists }
    {
        self.lens.len()
    }

    /// How many numbers a list has.
    pub fn len(&self, list: usize) -> usize
        requires { list < length self.now.lists }
        ensures { result ≡ length (slice_index_or self.now.lists list []) }
    {
        self.lens.as_slice()[list]
    }

    /// A list, to be read.
    pub fn cursor(&self, list: usize) -> Cursor<'_>
        requires { list < length self.now.lists }
        ensures { result ≡ slice_index_or self.now.lists list [] }
    {
        Cursor::over(
            self.bytes.as_slice(),
            self.places.as_slice()[list].as_slice(),
            self.lens.as_slice()[list],
        )
    }
}
