//! Pieces that a segment's bytes begin with. Where they begin with none, the answer is free.
ghost use Rattle.std.specs.Prelude.{◌≡◌, ℕ, ℤ, List, ◌++◌, ◌^◌, ◌<◌, length, IfOk, IsSomeAnd};
ghost use Rattle.std.specs.Int.{w32, to_be_bytes};
ghost use Rattle.std.specs.List.{flat_map};
ghost use Rattle.row_cells.specs.Dimensions.{IsKey, text_bytes};
ghost use Rattle.row_cells.specs.Each.{Each};
ghost use Rattle.packed_lists.specs.Nums.{IsNums};
ghost use Rattle.column_block.specs.Rules.{IsColumnOf};
ghost use Rattle.column_block.specs.Spelling.{Spells};
ghost use Rattle.column_block.specs.declared.kinds.Values.{Values};
ghost use Rattle.index_segment.specs.Parts.{AreColumnsOf};
ghost use Rattle.index_segment.specs.Spelling.{AreColumns, mark};

use column_block::{Column, ColumnError, ColumnKind, one_value};
use edge_face::NoMemory;
use packed_lists::NumberList;
use row_cells::{Key, read_text};
use sqlite_items::Items;
use std::alloc::Global;

/// The mark that a segment begins with is gone from the front.
fn behind_mark(bytes: &[u8]) -> Option<&[u8]>
    ensures { (rest : List ℕ) → bytes.now ≡ mark ++ rest → IsSomeAnd result (λ left. left.now ≡ rest) }
{
    let (head, rest) = bytes.split_first_chunk::<4>()?;
    if *head == [84, 83, 83, 49] {
        Some(rest)
    } else {
        None
    }
}

/// A number of 32 bits, and what follows it.
#[derive(Clone, Copy)]
struct NumberAt<'a> {
    number: u32,
    rest: &'a [u8],
}

fn read_number(bytes: &[u8]) -> Option<NumberAt<'_>>
    ensures { (number : ℕ) (rest : List ℕ) → number < 2 ^ 32 → bytes.now ≡ to_be_bytes w32 number ++ rest →
        IsSomeAnd result (λ read. (read.number ≡ number) × (read.rest.now ≡ rest)) }
{
    let (head, rest) = bytes.split_first_chunk::<4>()?;
    Some(NumberAt {
        number: u32::from_be_bytes(*head),
        rest,
    })
}

/// How many rows and series there are, and what follows.
#[derive(Clone, Copy)]
pub struct HeadAt<'a> {
    pub rows: u32,
    pub series: u32,
    pub rest: &'a [u8],
}

/// The mark, how many rows and how many series there are.
pub fn read_head(bytes: &[u8]) -> Option<HeadAt<'_>>
    ensures { (rows series : ℕ) (rest : List ℕ) → rows < 2 ^ 32 → series < 2 ^ 32 →
        bytes.now ≡ mark ++ (to_be_bytes w32 rows ++ (to_be_bytes w32 series ++ rest)) →
        IsSomeAnd result (λ head. (head.rows ≡ rows) × (head.series ≡ series) × (head.rest.now ≡ rest)) }
{
    let left = behind_mark(bytes)?;
    let rows = read_number(left)?;
    let series = read_number(rows.rest)?;
    Some(HeadAt {
        rows: rows.number,
        series: series.number,
        rest: series.rest,
    })
}

/// Keys behind each other, and what follows them.
#[derive(Drop)]
pub struct KeysAt<'a> {
    pub keys: Items<Key>,
    pub rest: &'a [u8],
}

/// So many keys, each behind two bytes of its length.
pub fn read_keys(alloc: Global, count: u32, bytes: &[u8]) -> Result<Option<KeysAt<'_>>, NoMemory>
    ensures { IfOk result (λ found. (keys : List (List ℕ)) (rest : List ℕ) → Each IsKey keys → length keys ≡ count →
        bytes.now ≡ flat_map text_bytes keys ++ rest →
        IsSomeAnd found (λ read. (read.keys ≡ keys) × (read.rest.now ≡ rest))) }
{
    let mut keys = Vec::new(alloc);
    let mut rest = bytes;
    for number in 0..count {
        let Some(read) = read_text(rest) else {
            return Ok(None);
        };
        let Some(key) = Key::read(alloc, read.text)? else {
            return Ok(None);
        };
        keys.push(key)?;
        rest = read.rest;
    }
    Ok(Some(KeysAt {
        keys: Items::from_vec(keys),
        rest,
    }))
}

/// A list of numbers, and what follows it.
#[derive(Drop)]
pub struct NumbersAt<'a> {
    pub numbers: NumberList,
    pub rest: &'a [u8],
}

/// A list of so many numbers in packed blocks.
pub fn read_numbers(
    alloc: Global,
    count: u32,
    bytes: &[u8],
) -> Result<Option<NumbersAt<'_>>, NoMemory>
    ensures { IfOk result (λ found. (numbers : List ℤ) (spelling rest : List ℕ) → length numbers ≡ count →
        IsNums numbers spelling → bytes.now ≡ spelling ++ rest →
        IsSomeAnd found (λ read. (read.numbers ≡ numbers) × (read.rest.now ≡ rest))) }
{
    let found = NumberList::read(alloc, count as usize, bytes)?;
    let Some(read) = found else {
        return Ok(None);
    };
    let (_, rest) = bytes.split_at(read.used);
    Ok(Some(NumbersAt {
        numbers: read.numbers,
        rest,
    }))
}

/// A column, and what follows it.
#[derive(Drop)]
struct ColumnAt<'a> {
    column: Column,
    rest: &'a [u8],
}

fn read_column(
    alloc: Global,
    kind: ColumnKind,
    rows: u32,
    bytes: &[u8],
) -> Result<Option<ColumnAt<'_>>, NoMemory>
    ensures { IfOk result (λ found. (column : Values) (spelling rest : List ℕ) → IsColumnOf kind rows column →
        Spells column spelling → bytes.now ≡ spelling ++ rest →
        IsSomeAnd found (λ read. (read.column ≡ column) × (read.rest.now ≡ rest))) }
{
    one_value();
    match Column::read(alloc, kind, rows, bytes) {
        Ok(read) => {
            let (_, rest) = bytes.split_at(read.used as usize);
            Ok(Some(ColumnAt {
                column: read.column,
                rest,
            }))
        }
        Err(ColumnError::BadColumn) => Ok(None),
        Err(ColumnError::NoMemory) => Err(NoMemory),
    }
}

/// Columns of these kinds, which are all of the bytes.
pub fn read_columns(
    alloc: Global,
    kinds: &[ColumnKind],
    rows: u32,
    bytes: &[u8],
) -> Result<Option<Items<Column>>, NoMemory>
    ensures { IfOk result (λ found. (columns : List Values) → AreColumnsOf kinds.now rows columns →
        AreColumns columns bytes.now → IsSomeAnd found (λ read. read ≡ columns)) }
{
    let mut columns = Vec::with_capacity(alloc, kinds.len())?;
    let mut rest = bytes;
    for kind in kinds {
        let Some(read) = read_column(alloc, *kind, rows, rest)? else {
            return Ok(None);
        };
        columns.push(read.column)?;
        rest = read.rest;
    }
    if !rest.is_empty() {
        return Ok(None);
    }
    Ok(Some(Items::from_vec(columns)))
}
