//! Packed lists of whole numbers, a list a row, behind other bytes.
ghost use Rattle.std.specs.Prelude.{◌≡◌, ℕ, ℤ, ◌<◌, ◌≤◌, ◌^◌, ◌++◌, List, [], ◌∷◌, length, take, drop, slice_range, All, IfOk, Err};
ghost use Rattle.packed_lists.specs.Lists.{joined};
ghost use Rattle.column_block.specs.Cutting.{IsShort, IsSize, total};
ghost use Rattle.packed_lists.specs.Found.{IsFound};
ghost use Rattle.packed_lists.specs.Nums.{AreNums, IsNums};
ghost use Rattle.row_cells.specs.Each.{Each};
ghost use Rattle.column_block.specs.Spelling.{lengths};

use crate::kinds::{ColumnError, Numbers};
use crate::rows::{are_sizes, cut_into, join, sizes_of, starts_of, sum_of};
use edge_face::NoMemory;
use packed_lists::{BLOCK, Found, find_numbers, put_numbers, put_range};
use sqlite_items::Items;
use std::alloc::Global;
use std::marker::Model;

/// Lists of whole numbers behind some bytes.
#[derive(Debug, Drop)]
pub struct ListRows {
    /// How many bytes stand in front.
    front: usize,
    rows: usize,
    bytes: Vec<u8>,
    /// Where the blocks of the lists' lengths begin.
    sizes: Vec<usize>,
    /// Where the blocks of all numbers begin.
    numbers: Vec<usize>,
    /// How many numbers the lists before each 128th have.
    starts: Vec<usize>,
}

impl Model for ListRows {
    ghost use Rattle.std.specs.Prelude.{take};
    ghost use Rattle.packed_lists.specs.Lists.{Fronted};
    ghost use Rattle.column_block.specs.Cutting.{AreRows, lists_at};

    ghost Value = { Fronted };

    ghost view = { λ c. record { front = take c.front c.bytes.items; lists = lists_at c.bytes.items c.sizes.items c.numbers.items } };

    ghost invariant = { λ c. AreRows c.front c.rows c.bytes.items c.sizes.items c.numbers.items c.starts.items (lists_at c.bytes.items c.sizes.items c.numbers.items) };
}

/// Lists that were read, and where they end.
#[derive(Debug, Drop)]
pub struct ReadRows {
    pub rows: ListRows,
    pub used: usize,
}

/// The lengths of lists, where their blocks begin, and where the last one ends.
#[derive(Debug, Drop)]
struct ReadSizes {
    sizes: Vec<i64>,
    places: Vec<usize>,
    end: usize,
}

/// The lengths of so many lists that stand in bytes from a place on.
fn read_sizes(
    alloc: Global,
    bytes: &[u8],
    from: usize,
    rows: usize,
) -> Result<ReadSizes, ColumnError>
    requires { from ≤ length bytes.now }
    ensures sizes { IfOk result (λ read. All IsSize read.sizes.items) }
    ensures rows { IfOk result (λ read. length read.sizes.items ≡ rows) }
    ensures found { IfOk result (λ read. IsFound bytes.now from read.end read.places.items read.sizes.items) }
    ensures bad { result ≡ Err ColumnError.BadColumn → (sizes : List ℤ) (nums rest : List ℕ) → length sizes ≡ rows → All IsSize sizes → IsNums sizes nums → drop from bytes.now ≡ nums ++ rest → ⊥ }
{
    let Ok(found) = find_numbers(alloc, bytes, from, rows) else {
        return Err(ColumnError::NoMemory);
    };
    let Some(found) = found else {
        return Err(ColumnError::BadColumn);
    };
    let Found { places, end } = found;
    let mut sizes = Vec::new(alloc);
    let Ok(()) = put_range(bytes, places.as_slice(), 0, rows, &mut sizes) else {
        return Err(ColumnError::NoMemory);
    };
    if !are_sizes(sizes.as_slice()) {
        return Err(ColumnError::BadColumn);
    }
    Ok(ReadSizes { sizes, places, end })
}

impl ListRows {
    /// Packs lists behind the bytes of `front`.
    pub fn build(alloc: Global, front: Vec<u8>, lists: &[Numbers]) -> Result<ListRows, NoMemory>
        requires short { Each IsShort lists.now }
        requires few { length lists.now < 2 ^ 32 }
        ensures front { IfOk result (λ rows. rows.front ≡ front.items) }
        ensures lists { IfOk result (λ rows. rows.lists ≡ lists.now) }
    {
        let before = front.len();
        let mut bytes = front;
        let lens = sizes_of(alloc, lists)?;
        let all = join(alloc, lists)?;
        let sizes = put_numbers(alloc, lens.as_slice(), &mut bytes)?;
        let numbers = put_numbers(alloc, all.as_slice(), &mut bytes)?;
        let starts = starts_of(alloc, lens.as_slice())?;
        Ok(ListRows {
            front: before,
            rows: lists.len(),
            bytes,
            sizes,
            numbers,
            starts,
        })
    }

    /// The lists of so many rows that stand in bytes from a place on.
    pub fn read(
        alloc: Global,
        bytes: &[u8],
        front: usize,
        rows: usize,
    ) -> Result<ReadRows, ColumnError>
        requires front { front ≤ length bytes.now }
        requires few { rows < 2 ^ 32 }
        ensures rows { IfOk result (λ read. length read.rows.lists ≡ rows) }
        ensures short { IfOk result (λ read. Each IsShort read.rows.lists) }
        ensures front { IfOk result (λ read. read.rows.front ≡ take front bytes.now) }
        ensures used { IfOk result (λ read. read.used ≤ length bytes.now) }
        ensures spelled { IfOk result (λ read. (nums : List ℕ) × AreNums (lengths read.rows.lists ∷ joined read.rows.lists ∷ []) nums × (take read.used bytes.now ≡ take front bytes.now ++ nums)) }
        ensures bad { result ≡ Err ColumnError.BadColumn → (lists : List (List ℤ)) (nums rest : List ℕ) → length lists ≡ rows → Each IsShort lists → AreNums (lengths lists ∷ joined lists ∷ []) nums → drop front bytes.now ≡ nums ++ rest → ⊥ }
    {
        let first = match read_sizes(alloc, bytes, front, rows) {
            Ok(first) => first,
            Err(error) => return Err(error),
        };
        let count = sum_of(first.sizes.as_slice());
        let Ok(found) = find_numbers(alloc, bytes, first.end, count) else {
            return Err(ColumnError::NoMemory);
        };
        let Some(second) = found else {
            return Err(ColumnError::BadColumn);
        };
        let Ok(starts) = starts_of(alloc, first.sizes.as_slice()) else {
            return Err(ColumnError::NoMemory);
        };
        let Ok(own) = Vec::from_slice(alloc, &bytes[..second.end]) else {
            return Err(ColumnError::NoMemory);
        };
        let used = second.end;
        let rows = ListRows {
            front,
            rows,
            bytes: own,
            sizes: first.places,
            numbers: second.places,
            starts,
        };
        Ok(ReadRows { rows, used })
    }

    pub fn bytes(&self) -> &[u8]
        ensures { (nums : List ℕ) × AreNums (lengths self.now.lists ∷ joined self.now.lists ∷ []) nums × (result.now ≡ self.now.front ++ nums) }
    {
        self.bytes.as_slice()
    }

    pub fn len(&self) -> usize
        ensures is { result ≡ length self.now.lists }
        ensures few { result < 2 ^ 32 }
        ensures short { Each IsShort self.now.lists }
    {
        self.rows
    }

    /// The lengths of the lists from a place up to another.
    fn sizes_between(&self, alloc: Global, from: usize, to: usize) -> Result<Vec<i64>, NoMemory>
        requires order { from ≤ to }
        requires within { to ≤ length self.now.lists }
        ensures { IfOk result (λ sizes. sizes.items ≡ slice_range (lengths self.now.lists) from to) }
    {
        let mut sizes = Vec::with_capacity(alloc, to - from)?;
        put_range(
            self.bytes.as_slice(),
            self.sizes.as_slice(),
            from,
            to,
            &mut sizes,
        )?;
        Ok(sizes)
    }

    /// How many numbers the lists before a place have.
    fn start_of(&self, alloc: Global, row: usize) -> Result<usize, NoMemory>
        requires { row ≤ length self.now.lists }
        ensures { IfOk result (λ start. start ≡ total (take row (lengths self.now.lists))) }
    {
        let block = row / BLOCK;
        let ahead = self.sizes_between(alloc, BLOCK * block, row)?;
        let start = self.starts.as_slice()[block];
        Ok(start + sum_of(ahead.as_slice()))
    }

    /// The numbers from a place up to another.
    fn numbers_between(&self, alloc: Global, from: usize, to: usize) -> Result<Vec<i64>, NoMemory>
        requires order { from ≤ to }
        requires within { to ≤ length (joined self.now.lists) }
        ensures { IfOk result (λ numbers. numbers.items ≡ slice_range (joined self.now.lists) from to) }
    {
        let mut numbers = Vec::with_capacity(alloc, to - from)?;
        put_range(
            self.bytes.as_slice(),
            self.numbers.as_slice(),
            from,
            to,
            &mut numbers,
        )?;
        Ok(numbers)
    }

    /// The lists of the rows from a place up to another.
    pub fn values(&self, alloc: Global, from: usize, to: usize) -> Result<Items<Numbers>, NoMemory>
        requires order { from ≤ to }
        requires within { to ≤ length self.now.lists }
        ensures { IfOk result (λ lists. lists ≡ slice_range self.now.lists from to) }
    {
        let _ = self.len();
        let first = self.start_of(alloc, from)?;
        let sizes = self.sizes_between(alloc, from, to)?;
        let last = first + sum_of(sizes.as_slice());
        let numbers = self.numbers_between(alloc, first, last)?;
        let lists = cut_into(alloc, sizes.as_slice(), numbers.as_slice())?;
        Ok(lists)
    }
}
