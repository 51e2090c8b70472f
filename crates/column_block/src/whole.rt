//! Columns of whole numbers.
ghost use Rattle.std.specs.Prelude.{◌≡◌, ℕ, ℤ, ◌*◌, ◌+◌, ◌<◌, ◌≤◌, ◌^◌, ◌++◌, List, Option, length, take, drop, slice_range, IfOk, Err, All, FitsSigned};
ghost use Rattle.std.specs.Int.{w64};
ghost use Rattle.column_pack.specs.Summary.{IsSummary};
ghost use Rattle.column_block.specs.Spelling.{Spells};
ghost use Rattle.column_block.specs.Presence.{present};

use crate::kinds::{ColumnError, Values};
use crate::presence::{
    count_before, count_between, count_rows, has_presence, present_of, put_presence, spread_over,
};
use column_pack::Summary;
use edge_face::NoMemory;
use packed_lists::{Found, find_numbers, put_numbers, put_range, read_block_of, summary_of};
use sqlite_items::Items;
use std::alloc::Global;
use std::marker::Model;

/// Whole numbers of some rows, which need not have one each.
#[derive(Debug, Drop)]
pub struct WholeColumn {
    rows: usize,
    /// Which rows have a number, and then the blocks of the numbers.
    bytes: Vec<u8>,
    /// Where each block begins.
    places: Vec<usize>,
    /// How many of the rows before each 128th have a number.
    counts: Vec<usize>,
}

impl Model for WholeColumn {
    ghost use Rattle.std.specs.Prelude.{List, Option, ℤ};
    ghost use Rattle.packed_lists.specs.Decoded.{values_at};
    ghost use Rattle.column_block.specs.Presence.{flags_in, spread};
    ghost use Rattle.column_block.specs.Held.{IsWhole};

    ghost Value = { List (Option ℤ) };

    ghost view = { λ c. spread (flags_in c.rows c.bytes.items) (values_at c.bytes.items c.places.items) };

    ghost invariant = { λ c. IsWhole c.rows c.bytes.items c.places.items c.counts.items (spread (flags_in c.rows c.bytes.items) (values_at c.bytes.items c.places.items)) };
}

/// A column that bytes begin with, and how many bytes it takes.
#[derive(Debug, Drop)]
pub struct ReadWhole {
    pub column: WholeColumn,
    pub used: usize,
}

impl WholeColumn {
    pub fn build(alloc: Global, rows: &[Option<i64>]) -> Result<WholeColumn, NoMemory>
        requires { length rows.now < 2 ^ 32 }
        ensures { IfOk result (λ column. column ≡ rows.now) }
    {
        let mut bytes = Vec::new(alloc);
        put_presence(rows, &mut bytes)?;
        let numbers = present_of(alloc, rows)?;
        let places = put_numbers(alloc, numbers.as_slice(), &mut bytes)?;
        let rows = rows.len();
        let counts = count_rows(alloc, bytes.as_slice(), rows)?;
        Ok(WholeColumn {
            rows,
            bytes,
            places,
            counts,
        })
    }

    /// The column of so many rows that the bytes begin with.
    pub fn read(alloc: Global, rows: usize, bytes: &[u8]) -> Result<ReadWhole, ColumnError>
        requires { rows < 2 ^ 32 }
        ensures rows { IfOk result (λ read. length read.column ≡ rows) }
        ensures used { IfOk result (λ read. read.used ≤ length bytes.now) }
        ensures spelled { IfOk result (λ read. Spells (Values.Whole read.column) (take read.used bytes.now)) }
        ensures bad { result ≡ Err ColumnError.BadColumn → (vs : List (Option ℤ)) (spelling rest : List ℕ) → length vs ≡ rows → Spells (Values.Whole vs) spelling → bytes.now ≡ spelling ++ rest → ⊥ }
    {
        if !has_presence(bytes, rows) {
            return Err(ColumnError::BadColumn);
        }
        let count = count_between(bytes, 0, rows);
        let Ok(found) = find_numbers(alloc, bytes, rows.div_ceil(8), count) else {
            return Err(ColumnError::NoMemory);
        };
        let Some(Found { places, end }) = found else {
            return Err(ColumnError::BadColumn);
        };
        let Ok(bytes) = Vec::from_slice(alloc, &bytes[..end]) else {
            return Err(ColumnError::NoMemory);
        };
        let Ok(counts) = count_rows(alloc, bytes.as_slice(), rows) else {
            return Err(ColumnError::NoMemory);
        };
        let column = WholeColumn {
            rows,
            bytes,
            places,
            counts,
        };
        Ok(ReadWhole { column, used: end })
    }

    pub fn bytes(&self) -> &[u8]
        ensures { Spells (Values.Whole self.now) result.now }
    {
        self.bytes.as_slice()
    }

    pub fn len(&self) -> usize
        ensures is { result ≡ length self.now }
        ensures few { result < 2 ^ 32 }
    {
        self.rows
    }

    /// How many of the rows before a place have a number.
    pub fn count_to(&self, row: usize) -> usize
        requires { row ≤ length self.now }
        ensures count { result ≡ length (present (take row self.now)) }
        ensures few { result < 2 ^ 32 }
        ensures fit { All (FitsSigned w64) (present self.now) }
    {
        count_before(
            self.bytes.as_slice(),
            self.counts.as_slice(),
            self.rows,
            row,
        )
    }

    /// The rows from a place up to another.
    pub fn values(
        &self,
        alloc: Global,
        from: usize,
        to: usize,
    ) -> Result<Items<Option<i64>>, NoMemory>
        requires order { from ≤ to }
        requires within { to ≤ length self.now }
        ensures { IfOk result (λ rows. rows ≡ slice_range self.now from to) }
    {
        let first = self.count_to(from);
        let last = self.count_to(to);
        let bytes = self.bytes.as_slice();
        let mut numbers = Vec::with_capacity(alloc, last - first)?;
        put_range(bytes, self.places.as_slice(), first, last, &mut numbers)?;
        let rows = spread_over(alloc, bytes, from, to, numbers.as_slice())?;
        Ok(rows)
    }

    /// Writes the numbers of a block to the front of `into`, and says how many they are: 128, or fewer in the last block.
    pub fn read_block(&self, block: usize, into: &mut [i64; 128]) -> usize
        requires { 128 * block < length (present self.now) }
        ensures count { result ≡ length (slice_range (present self.now) (128 * block) (128 * block + 128)) }
        ensures numbers { into.new ≡ slice_range (present self.now) (128 * block) (128 * block + 128) ++ drop result into.old }
        ensures fit { All (FitsSigned w64) (present self.now) }
    {
        read_block_of(self.bytes.as_slice(), self.places.as_slice(), block, into)
    }

    /// The least, the greatest and the sum of the numbers of a block, without a list of them.
    pub fn summary(&self, block: usize) -> Summary
        requires { 128 * block < length (present self.now) }
        ensures { IsSummary (slice_range (present self.now) (128 * block) (128 * block + 128)) result }
    {
        summary_of(self.bytes.as_slice(), self.places.as_slice(), block)
    }
}
