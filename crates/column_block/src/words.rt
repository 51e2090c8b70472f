//! Columns of lists of texts.
ghost use Rattle.std.specs.Prelude.{◌≡◌, ℕ, ◌<◌, ◌≤◌, ◌^◌, ◌++◌, List, length, take, slice_range, IfOk, Err};
ghost use Rattle.column_block.specs.Rules.{KeepsRules};
ghost use Rattle.column_block.specs.Spelling.{Spells};

use crate::kinds::{ColumnError, Texts, Values};
use crate::list_rows::ListRows;
use crate::ordinals::{all_places, are_ordinals, copy_rows};
use crate::table::{read_table, spell_table, table_of};
use edge_face::{NoMemory, Text};
use sqlite_items::Items;
use std::alloc::Global;
use std::marker::Model;

/// Lists of texts of some rows.
#[derive(Debug, Drop)]
pub struct TextRows {
    /// Each text once, ascending.
    texts: Vec<Text>,
    /// The places of the rows' texts, behind the bytes of the table.
    rows: ListRows,
}

impl Model for TextRows {
    ghost use Rattle.std.specs.Prelude.{List, ℕ};
    ghost use Rattle.packed_lists.specs.Lists.{Fronted};
    ghost use Rattle.column_block.specs.Worded.{AreWords, worded};

    ghost Value = { List (List (List ℕ)) };

    ghost view = { λ c. worded c.texts.items c.rows.lists };

    ghost invariant = { λ c. AreWords c.texts.items c.rows (worded c.texts.items c.rows.lists) };
}

/// A column that bytes begin with, and how many bytes it takes.
#[derive(Debug, Drop)]
pub struct ReadTexts {
    pub column: TextRows,
    pub used: usize,
}

impl TextRows {
    /// Packs lists of texts. Each row ascends strictly by bytes, and its texts are UTF-8 of at most 32,766 bytes.
    pub fn build(alloc: Global, lists: &[Texts]) -> Result<TextRows, NoMemory>
        requires rules { KeepsRules (Values.Words lists.now) }
        requires few { length lists.now < 2 ^ 32 }
        ensures { IfOk result (λ column. column ≡ lists.now) }
    {
        let texts = table_of(alloc, lists)?;
        let front = spell_table(alloc, texts.as_slice())?;
        let places = all_places(alloc, texts.as_slice(), lists)?;
        let rows = ListRows::build(alloc, front, places.as_slice())?;
        Ok(TextRows { texts, rows })
    }

    /// The column of so many rows that the bytes begin with. `BadColumn` exactly where they begin with none: where a text
    /// of the table isn't UTF-8, is too long, stands out of order or twice, or no row has it, or where a row's places aren't
    /// those of texts in order.
    pub fn read(alloc: Global, rows: usize, bytes: &[u8]) -> Result<ReadTexts, ColumnError>
        requires { rows < 2 ^ 32 }
        ensures rows { IfOk result (λ read. length read.column ≡ rows) }
        ensures rules { IfOk result (λ read. KeepsRules (Values.Words read.column)) }
        ensures used { IfOk result (λ read. read.used ≤ length bytes.now) }
        ensures spelled { IfOk result (λ read. Spells (Values.Words read.column) (take read.used bytes.now)) }
        ensures bad { result ≡ Err ColumnError.BadColumn → (lists : List (List (List ℕ))) (spelling rest : List ℕ) → length lists ≡ rows → KeepsRules (Values.Words lists) → Spells (Values.Words lists) spelling → bytes.now ≡ spelling ++ rest → ⊥ }
    {
        let table = match read_table(alloc, bytes) {
            Ok(table) => table,
            Err(error) => return Err(error),
        };
        let read = match ListRows::read(alloc, bytes, table.used, rows) {
            Ok(read) => read,
            Err(error) => return Err(error),
        };
        let Ok(places) = read.rows.values(alloc, 0, rows) else {
            return Err(ColumnError::NoMemory);
        };
        let Ok(are) = are_ordinals(alloc, places.as_slice(), table.texts.len()) else {
            return Err(ColumnError::NoMemory);
        };
        if !are {
            return Err(ColumnError::BadColumn);
        }
        let used = read.used;
        let column = TextRows {
            texts: table.texts,
            rows: read.rows,
        };
        Ok(ReadTexts { column, used })
    }

    /// The bytes of the column: the table, the lengths of the rows, and the places of all their texts.
    pub fn bytes(&self) -> &[u8]
        ensures { Spells (Values.Words self.now) result.now }
    {
        self.rows.bytes()
    }

    /// How many rows there are.
    pub fn len(&self) -> usize
        ensures is { result ≡ length self.now }
        ensures few { result < 2 ^ 32 }
        ensures rules { KeepsRules (Values.Words self.now) }
    {
        self.rows.len()
    }

    /// Copies of the texts of the rows from a place up to another.
    pub fn values(&self, alloc: Global, from: usize, to: usize) -> Result<Items<Texts>, NoMemory>
        requires order { from ≤ to }
        requires within { to ≤ length self.now }
        ensures { IfOk result (λ lists. lists ≡ slice_range self.now from to) }
    {
        let places = self.rows.values(alloc, from, to)?;
        let lists = copy_rows(alloc, self.texts.as_slice(), places.as_slice())?;
        Ok(lists)
    }
}
