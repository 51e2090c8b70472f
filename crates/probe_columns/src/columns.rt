//! Columns: read from their bytes, and their bytes changed.
ghost use Rattle.column_block.specs.Rules.{IsColumnOf};

use crate::blocks::put_numbers;
use column_block::{Column, ColumnError, ColumnKind, Numbers, ReadColumn, Texts, Values};
use edge_face::Text;
use fold_law::Parts;
use probe_case::{Reading, Sweep, Trial, part, turn};
use row_cells::MOST_DOCUMENTS;
use serde_json::Value;
use std::alloc::Global;

/// The kind of a case's column.
pub fn kind_of(case: &Value, trial: &mut Trial) -> Option<ColumnKind> {
    match trial.word_at(case, "kind") {
        "Whole" => Some(ColumnKind::Whole),
        "Parts" => Some(ColumnKind::Parts),
        "Wholes" => Some(ColumnKind::Wholes),
        "Words" => Some(ColumnKind::Words),
        _ => None,
    }
}

/// How many rows the column of a case has.
pub fn rows_of(case: &Value, trial: &mut Trial) -> Option<u32> {
    let rows = trial.number(case, "rows");
    if rows < 0 || rows as u64 > MOST_DOCUMENTS {
        return None;
    }
    Some(rows as u32)
}

fn put_wholes(rows: &[Option<i64>], trial: &mut Trial) {
    for row in rows {
        match row {
            Some(number) => trial.whole(*number),
            None => trial.null(),
        }
    }
}

fn put_parts(rows: &[Option<Parts>], trial: &mut Trial) {
    for row in rows {
        match row {
            Some(parts) => trial.parts(parts.min, parts.max, parts.sum, parts.count),
            None => trial.null(),
        }
    }
}

fn put_lists(rows: &[Numbers], trial: &mut Trial) {
    for row in rows {
        put_numbers(row.as_slice(), trial);
    }
}

fn put_words(row: &[Text], trial: &mut Trial) {
    trial.open("[");
    for text in row {
        trial.word(text.as_str());
    }
    trial.close("]");
}

fn put_labels(rows: &[Texts], trial: &mut Trial) {
    for row in rows {
        put_words(row.as_slice(), trial);
    }
}

/// The value of each row, or null.
fn put_values(values: &Values, trial: &mut Trial) {
    trial.open("[");
    match values {
        Values::Whole(rows) => put_wholes(rows.as_slice(), trial),
        Values::Parts(rows) => put_parts(rows.as_slice(), trial),
        Values::Wholes(rows) => put_lists(rows.as_slice(), trial),
        Values::Words(rows) => put_labels(rows.as_slice(), trial),
    }
    trial.close("]");
}

/// Whether these bytes are those of a column of so many rows, and of its values, packed again.
pub fn is_spelled(
    alloc: Global,
    kind: ColumnKind,
    column: &Column,
    rows: u32,
    bytes: &[u8],
) -> Option<bool>
    requires { IsColumnOf kind rows column.now }
{
    let Ok(values) = column.values(alloc, 0, rows) else {
        return None;
    };
    let again = Column::build(alloc, &values).ok()?;
    Some(column.bytes() == bytes && again.bytes() == bytes)
}

fn put_column(
    read: &ReadColumn,
    kind: ColumnKind,
    rows: u32,
    bytes: &[u8],
    trial: &mut Trial,
) -> Option<()>
    requires { IsColumnOf kind rows read.now.column }
{
    let values = read.column.values(trial.alloc, 0, rows).ok()?;
    let used = part(bytes, 0, read.used as usize);
    trial.need(is_spelled(trial.alloc, kind, &read.column, rows, used)?);
    trial.ok();
    trial.open("{");
    trial.name("used");
    trial.wide(i128::from(read.used));
    trial.name("values");
    put_values(&values, trial);
    trial.close("}}");
    Some(())
}

/// The column that bytes begin with: its length and its values.
pub fn read(case: &Value, trial: &mut Trial) -> Option<()> {
    let kind = kind_of(case, trial)?;
    let rows = rows_of(case, trial)?;
    let bytes = trial.bytes(case, "bytes");
    match Column::read(trial.alloc, kind, rows, bytes.as_slice()) {
        Ok(read) => put_column(&read, kind, rows, bytes.as_slice(), trial),
        Err(ColumnError::BadColumn) => {
            trial.refused("BadColumn");
            Some(())
        }
        Err(ColumnError::NoMemory) => None,
    }
}

/// What the column that was read from bytes is, which has to have so many of them, and be their spelling.
fn reading_of(
    alloc: Global,
    kind: ColumnKind,
    rows: u32,
    read: &ReadColumn,
    bytes: &[u8],
    least: usize,
) -> Reading
    requires { IsColumnOf kind rows read.now.column }
{
    let used = part(bytes, 0, read.used as usize);
    if used.len() < least {
        return Reading::Wrong;
    }
    Reading::of_taken(is_spelled(alloc, kind, &read.column, rows, used))
}

/// What bytes begin with: no column, or one that has so many bytes at least.
fn reading(alloc: Global, kind: ColumnKind, rows: u32, bytes: &[u8], least: usize) -> Reading {
    match Column::read(alloc, kind, rows, bytes) {
        Ok(read) => reading_of(alloc, kind, rows, &read, bytes, least),
        Err(ColumnError::BadColumn) => Reading::Refused,
        Err(ColumnError::NoMemory) => Reading::Wrong,
    }
}

/// Reads a column with each other value of a byte. No column ends before that byte, as there is one that doesn't.
fn sweep_byte(
    alloc: Global,
    kind: ColumnKind,
    rows: u32,
    bytes: &mut [u8],
    place: usize,
    sweep: &mut Sweep,
) {
    for _ in 0..255 {
        turn(bytes, place);
        sweep.note_change(reading(alloc, kind, rows, bytes, place.wrapping_add(1)));
    }
    turn(bytes, place);
}

fn swept(alloc: Global, kind: ColumnKind, rows: u32, bytes: &mut [u8]) -> Sweep {
    let mut sweep = Sweep::new();
    for place in 0..bytes.len() {
        sweep.note_front(reading(alloc, kind, rows, part(bytes, 0, place), 0));
        sweep_byte(alloc, kind, rows, bytes, place, &mut sweep);
    }
    sweep
}

/// A column is read, then with each byte changed to each other one, and each shorter front of it.
pub fn damage(case: &Value, trial: &mut Trial) -> Option<()> {
    let kind = kind_of(case, trial)?;
    let rows = rows_of(case, trial)?;
    let mut bytes = trial.bytes(case, "bytes");
    let itself = reading(trial.alloc, kind, rows, bytes.as_slice(), bytes.len());
    swept(trial.alloc, kind, rows, bytes.as_mut_slice()).put(itself, trial);
    Some(())
}
