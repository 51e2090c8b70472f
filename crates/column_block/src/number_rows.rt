//! Columns of lists of whole numbers.
ghost use Rattle.std.specs.Prelude.{◌≡◌, ◌↔◌, ℕ, ℤ, ◌<◌, ◌≤◌, ◌^◌, ◌++◌, List, length, take, slice_range, IfOk, IsTrue, Err};
ghost use Rattle.row_cells.specs.Each.{Each};
ghost use Rattle.column_block.specs.Rules.{Ascend, AscendAfter, IsNumberRow};
ghost use Rattle.column_block.specs.Spelling.{Spells};

use crate::kinds::{ColumnError, Numbers, Values};
use crate::list_rows::ListRows;
use edge_face::NoMemory;
use sqlite_items::Items;
use std::alloc::Global;
use std::marker::Model;

/// Whether no number is below the one before, the first one's being `low`.
fn ascend_after(low: i64, numbers: &[i64]) -> bool
    ensures { IsTrue result ↔ AscendAfter low numbers.now }
{
    let mut last = low;
    for number in numbers {
        if *number < last {
            return false;
        }
        last = *number;
    }
    true
}

fn ascend(numbers: &[i64]) -> bool
    ensures { IsTrue result ↔ Ascend numbers.now }
{
    match numbers.split_first() {
        None => true,
        Some((first, rest)) => ascend_after(*first, rest),
    }
}

fn all_ascend(lists: &[Numbers]) -> bool
    ensures { IsTrue result ↔ Each Ascend lists.now }
{
    for list in lists {
        if !ascend(list.as_slice()) {
            return false;
        }
    }
    true
}

/// Ascending lists of whole numbers of some rows.
#[derive(Debug, Drop)]
pub struct NumberRows {
    rows: ListRows,
}

impl Model for NumberRows {
    ghost use Rattle.std.specs.Prelude.{◌≡◌, List, [], ℤ};
    ghost use Rattle.row_cells.specs.Each.{Each};
    ghost use Rattle.column_block.specs.Rules.{IsNumberRow};

    ghost Value = { List (List ℤ) };

    ghost view = { λ c. c.rows.lists };

    ghost invariant = { λ c. (c.rows.front ≡ []) × Each IsNumberRow c.rows.lists };
}

/// A column that bytes begin with, and how many bytes it takes.
#[derive(Debug, Drop)]
pub struct ReadLists {
    pub column: NumberRows,
    pub used: usize,
}

impl NumberRows {
    pub fn build(alloc: Global, lists: &[Numbers]) -> Result<NumberRows, NoMemory>
        requires rules { Each IsNumberRow lists.now }
        requires few { length lists.now < 2 ^ 32 }
        ensures { IfOk result (λ column. column ≡ lists.now) }
    {
        let front = Vec::new(alloc);
        let rows = ListRows::build(alloc, front, lists)?;
        Ok(NumberRows { rows })
    }

    /// The column of so many rows that the bytes begin with.
    pub fn read(alloc: Global, rows: usize, bytes: &[u8]) -> Result<ReadLists, ColumnError>
        requires { rows < 2 ^ 32 }
        ensures rows { IfOk result (λ read. length read.column ≡ rows) }
        ensures rules { IfOk result (λ read. Each IsNumberRow read.column) }
        ensures used { IfOk result (λ read. read.used ≤ length bytes.now) }
        ensures spelled { IfOk result (λ read. Spells (Values.Wholes read.column) (take read.used bytes.now)) }
        ensures bad { result ≡ Err ColumnError.BadColumn → (lists : List (List ℤ)) (spelling rest : List ℕ) → length lists ≡ rows → Each IsNumberRow lists → Spells (Values.Wholes lists) spelling → bytes.now ≡ spelling ++ rest → ⊥ }
    {
        let read = match ListRows::read(alloc, bytes, 0, rows) {
            Ok(read) => read,
            Err(error) => return Err(error),
        };
        let Ok(lists) = read.rows.values(alloc, 0, rows) else {
            return Err(ColumnError::NoMemory);
        };
        if !all_ascend(lists.as_slice()) {
            return Err(ColumnError::BadColumn);
        }
        let used = read.used;
        let column = NumberRows { rows: read.rows };
        Ok(ReadLists { column, used })
    }

    pub fn bytes(&self) -> &[u8]
        ensures { Spells (Values.Wholes self.now) result.now }
    {
        self.rows.bytes()
    }

    pub fn len(&self) -> usize
        ensures is { result ≡ length self.now }
        ensures few { result < 2 ^ 32 }
        ensures rules { Each IsNumberRow self.now }
    {
        self.rows.len()
    }

    /// The rows from a place up to another.
    pub fn values(&self, alloc: Global, from: usize, to: usize) -> Result<Items<Numbers>, NoMemory>
        requires order { from ≤ to }
        requires within { to ≤ length self.now }
        ensures { IfOk result (λ lists. lists ≡ slice_range self.now from to) }
    {
        let lists = self.rows.values(alloc, from, to)?;
        Ok(lists)
    }
}
