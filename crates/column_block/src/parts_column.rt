//! Columns of the parts of gauges.
ghost use Rattle.std.specs.Prelude.{◌≡◌, ℕ, ◌+◌, ◌*◌, ◌<◌, ◌≤◌, ◌^◌, ◌++◌, List, Option, length, take, slice_range, IfOk, Err};
ghost use Rattle.fold_law.specs.declared.measures.Parts.{Parts};
ghost use Rattle.column_block.specs.Presence.{present};
ghost use Rattle.row_cells.specs.Each.{Each};
ghost use Rattle.column_block.specs.Rules.{AreParts};
ghost use Rattle.column_block.specs.Spelling.{Spells};

use crate::kinds::{ColumnError, Values};
use crate::presence::{
    count_before, count_between, count_rows, has_presence, present_of, put_presence, spread_over,
};
use crate::six_lists::{FoundParts, are_kept, find_parts, put_parts, put_parts_range, read_parts};
use edge_face::NoMemory;
use fold_law::Parts;
use sqlite_items::Items;
use std::alloc::Global;
use std::marker::Model;

/// The parts of gauges of some rows, which need not have some each.
#[derive(Debug, Drop)]
pub struct PartsColumn {
    rows: usize,
    /// Which rows have parts, and then the blocks of six lists of numbers.
    bytes: Vec<u8>,
    /// Where each block of each list begins.
    places: Items<Items<usize>>,
    /// How many of the rows before each 128th have parts.
    counts: Vec<usize>,
}

impl Model for PartsColumn {
    ghost use Rattle.std.specs.Prelude.{List, Option};
    ghost use Rattle.fold_law.specs.declared.measures.Parts.{Parts};
    ghost use Rattle.column_block.specs.HeldParts.{IsPartsColumn, rows_held};

    ghost Value = { List (Option Parts) };

    ghost view = { λ c. rows_held c.rows c.bytes.items c.places };

    ghost invariant = { λ c. IsPartsColumn c.rows c.bytes.items c.places c.counts.items (rows_held c.rows c.bytes.items c.places) };
}

/// A column that bytes begin with, and how many bytes it takes.
#[derive(Debug, Drop)]
pub struct ReadParts {
    pub column: PartsColumn,
    pub used: usize,
}

impl PartsColumn {
    pub fn build(alloc: Global, rows: &[Option<Parts>]) -> Result<PartsColumn, NoMemory>
        requires rules { Each AreParts (present rows.now) }
        requires few { length rows.now < 2 ^ 32 }
        ensures { IfOk result (λ column. column ≡ rows.now) }
    {
        let mut bytes = Vec::new(alloc);
        put_presence(rows, &mut bytes)?;
        let parts = present_of(alloc, rows)?;
        let places = put_parts(alloc, parts.as_slice(), &mut bytes)?;
        let rows = rows.len();
        let counts = count_rows(alloc, bytes.as_slice(), rows)?;
        Ok(PartsColumn {
            rows,
            bytes,
            places,
            counts,
        })
    }

    /// The column of so many rows that the bytes begin with. `BadColumn` exactly where they begin with none.
    pub fn read(alloc: Global, rows: usize, bytes: &[u8]) -> Result<ReadParts, ColumnError>
        requires { rows < 2 ^ 32 }
        ensures rows { IfOk result (λ read. length read.column ≡ rows) }
        ensures rules { IfOk result (λ read. Each AreParts (present read.column)) }
        ensures used { IfOk result (λ read. read.used ≤ length bytes.now) }
        ensures spelled { IfOk result (λ read. Spells (Values.Parts read.column) (take read.used bytes.now)) }
        ensures bad { result ≡ Err ColumnError.BadColumn → (vs : List (Option Parts)) (spelling rest : List ℕ) → length vs ≡ rows → Each AreParts (present vs) → Spells (Values.Parts vs) spelling → bytes.now ≡ spelling ++ rest → ⊥ }
    {
        if !has_presence(bytes, rows) {
            return Err(ColumnError::BadColumn);
        }
        let count = count_between(bytes, 0, rows);
        let Ok(found) = find_parts(alloc, bytes, rows.div_ceil(8), count) else {
            return Err(ColumnError::NoMemory);
        };
        let Some(FoundParts { places, end }) = found else {
            return Err(ColumnError::BadColumn);
        };
        if !are_kept(&bytes[..end], places.as_slice(), count) {
            return Err(ColumnError::BadColumn);
        }
        let Ok(bytes) = Vec::from_slice(alloc, &bytes[..end]) else {
            return Err(ColumnError::NoMemory);
        };
        let Ok(counts) = count_rows(alloc, bytes.as_slice(), rows) else {
            return Err(ColumnError::NoMemory);
        };
        let column = PartsColumn {
            rows,
            bytes,
            places,
            counts,
        };
        Ok(ReadParts { column, used: end })
    }

    pub fn bytes(&self) -> &[u8]
        ensures { Spells (Values.Parts self.now) result.now }
    {
        self.bytes.as_slice()
    }

    pub fn len(&self) -> usize
        ensures is { result ≡ length self.now }
        ensures few { result < 2 ^ 32 }
    {
        self.rows
    }

    /// How many of the rows before a place have parts.
    pub fn count_to(&self, row: usize) -> usize
        requires { row ≤ length self.now }
        ensures count { result ≡ length (present (take row self.now)) }
        ensures few { result < 2 ^ 32 }
        ensures rules { Each AreParts (present self.now) }
    {
        count_before(
            self.bytes.as_slice(),
            self.counts.as_slice(),
            self.rows,
            row,
        )
    }

    /// The rows from a place up to another.
    pub fn values(
        &self,
        alloc: Global,
        from: usize,
        to: usize,
    ) -> Result<Items<Option<Parts>>, NoMemory>
        requires order { from ≤ to }
        requires within { to ≤ length self.now }
        ensures { IfOk result (λ rows. rows ≡ slice_range self.now from to) }
    {
        let first = self.count_to(from);
        let last = self.count_to(to);
        let bytes = self.bytes.as_slice();
        let mut parts = Vec::with_capacity(alloc, last - first)?;
        put_parts_range(bytes, self.places.as_slice(), first, last, &mut parts)?;
        let rows = spread_over(alloc, bytes, from, to, parts.as_slice())?;
        Ok(rows)
    }

    /// Writes the parts of a block to the front of `into`, and says how many they are: 128, or fewer in the last block.
    pub fn read_block(&self, block: usize, into: &mut [Parts; 128]) -> usize
        requires { 128 * block < length (present self.now) }
        ensures count { result ≡ length (slice_range (present self.now) (128 * block) (128 * block + 128)) }
        ensures few { result ≤ 128 }
        ensures parts { take result into.new ≡ slice_range (present self.now) (128 * block) (128 * block + 128) }
    {
        read_parts(self.bytes.as_slice(), self.places.as_slice(), block, into)
    }
}
