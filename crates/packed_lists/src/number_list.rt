//! Lists of whole numbers in packed blocks.
ghost use Rattle.std.specs.Prelude.{◌≡◌, ℕ, ℤ, pos, ◌<◌, ◌≤◌, ◌++◌, List, length, take, slice_index_or, slice_range, IfOk, IfSome, IsNone};
ghost use Rattle.column_pack.specs.Summary.{total_of};
ghost use Rattle.packed_lists.specs.Nums.{IsNums};
ghost use Rattle.packed_lists.specs.Packing.{IsPacked};

use crate::blocks::{BLOCK, Found, find_numbers, put_numbers, put_range, summary_of};
use crate::cursor::Cursor;
use edge_face::NoMemory;
use std::alloc::Global;
use std::marker::Model;

/// A list of whole numbers in packed blocks of 128, the last one shorter, with the place of each block.
#[derive(Debug, Drop)]
pub struct NumberList {
    pub(crate) bytes: Vec<u8>,
    pub(crate) places: Vec<usize>,
    pub(crate) len: usize,
}

impl Model for NumberList {
    ghost use Rattle.std.specs.Prelude.{List, ℤ};
    ghost use Rattle.packed_lists.specs.Decoded.{values_at};
    ghost use Rattle.packed_lists.specs.Packing.{IsPacked};

    ghost Value = { List ℤ };

    ghost view = { λ list. values_at list.bytes.items list.places.items };

    ghost invariant = { λ list. IsPacked list.bytes.items list.places.items list.len (values_at list.bytes.items list.places.items) };
}

/// A list that bytes begin with, and how many bytes it takes.
#[derive(Debug, Drop)]
pub struct ReadNumbers {
    pub numbers: NumberList,
    pub used: usize,
}

impl NumberList {
    /// Packs numbers.
    pub fn build(alloc: Global, values: &[i64]) -> Result<NumberList, NoMemory>
        ensures { IfOk result (λ list. list ≡ values.now) }
    {
        let mut bytes = Vec::new(alloc);
        let places = put_numbers(alloc, values, &mut bytes)?;
        let len = values.len();
        Ok(NumberList { bytes, places, len })
    }

    /// The list of so many numbers that the bytes begin with, or `None` exactly where they begin with none.
    pub fn read(alloc: Global, count: usize, bytes: &[u8]) -> Result<Option<ReadNumbers>, NoMemory>
        ensures count { IfOk result (λ found. IfSome found (λ read. length read.numbers ≡ count)) }
        ensures used { IfOk result (λ found. IfSome found (λ read. read.used ≤ length bytes.now)) }
        ensures spelled { IfOk result (λ found. IfSome found (λ read. IsNums read.numbers (take read.used bytes.now))) }
        ensures none { IfOk result (λ found. IsNone found → (vs : List ℤ) (nums rest : List ℕ) → length vs ≡ count → IsNums vs nums → bytes.now ≡ nums ++ rest → ⊥) }
    {
        let found = find_numbers(alloc, bytes, 0, count)?;
        let Some(Found { places, end }) = found else {
            return Ok(None);
        };
        let numbers = NumberList {
            bytes: Vec::from_slice(alloc, &bytes[..end])?,
            places,
            len: count,
        };
        Ok(Some(ReadNumbers { numbers, used: end }))
    }

    pub fn from_parts(bytes: Vec<u8>, places: Vec<usize>, len: usize) -> NumberList
        requires { (vs : List ℤ) × IsPacked bytes.items places.items len vs }
        ensures { (vs : List ℤ) → IsPacked bytes.items places.items len vs → result ≡ vs }
    {
        NumberList { bytes, places, len }
    }

    /// The blocks of the list, one behind the other.
    pub fn bytes(&self) -> &[u8]
        ensures spelled { IsNums self.now result.now }
        ensures one { (nums : List ℕ) → IsNums self.now nums → result.now ≡ nums }
    {
        self.bytes.as_slice()
    }

    /// How many numbers there are.
    pub fn len(&self) -> usize
        ensures { result ≡ length self.now }
    {
        self.len
    }

    pub fn cursor(&self) -> Cursor<'_>
        ensures { result ≡ self.now }
    {
        Cursor::over(self.bytes.as_slice(), self.places.as_slice(), self.len)
    }

    /// The sum of all numbers, without a list of them.
    pub fn sum(&self) -> i128
        ensures { result ≡ total_of self.now }
    {
        let mut total: i128 = 0;
        for block in 0..self.len.div_ceil(BLOCK) {
            total += summary_of(self.bytes.as_slice(), self.places.as_slice(), block).sum;
        }
        total
    }

    /// The number at a place, by unpacking one block. A cursor is for whoever asks more than once.
    pub fn at(&self, place: usize) -> i64
        requires { place < length self.now }
        ensures { result ≡ slice_index_or self.now place (pos 0) }
    {
        let mut cursor = self.cursor();
        cursor.at(place)
    }

    /// The numbers from a place up to another, which isn't one of them. Those past the end aren't there.
    pub fn values(&self, alloc: Global, from: usize, to: usize) -> Result<Vec<i64>, NoMemory>
        ensures { IfOk result (λ numbers. numbers.items ≡ slice_range self.now from to) }
    {
        let to = to.min(self.len);
        let from = from.min(to);
        let mut numbers = Vec::with_capacity(alloc, to - from)?;
        put_range(
            self.bytes.as_slice(),
            self.places.as_slice(),
            from,
            to,
            &mut numbers,
        )?;
        Ok(numbers)
    }
}
