//! Ranges of the rows of columns, and their gauges.
use crate::columns::{is_spelled, kind_of, rows_of};
use column_block::{Column, ColumnKind, Values};
use fold_law::{Gauge, Parts};
use json_walk::{has_no_other, whole};
use probe_case::{Checks, Trial, next_chance, optional_number, part};
use serde_json::Value;
use sqlite_items::Items;
use std::alloc::Global;

/// Ranges that are empty, lie in a block, cross blocks, and end past the last row.
pub const RANGES: [(u32, u32); 10] = [
    (0, 0),
    (5, 5),
    (3, 4),
    (0, 128),
    (100, 140),
    (127, 129),
    (1, 299),
    (128, 256),
    (290, 1000),
    (700, 1000),
];

fn is_gap(row: u64, gap: u64) -> bool {
    gap != 0 && row % gap == 0
}

/// Appends so many rows that look like chance, of which each so-manieth is null.
fn put_random(times: u64, gap: u64, into: &mut Vec<Option<i64>>) -> Option<()> {
    let mut seed = 88_172_645_463_325_252u64;
    for row in 0..times {
        seed = next_chance(seed);
        let value = if is_gap(row, gap) {
            None
        } else {
            Some(seed.cast_signed())
        };
        into.push(value).ok()?;
    }
    Some(())
}

/// Appends a number or null, or `{"random":300,"gap":3}`.
fn put_rows(element: &Value, into: &mut Vec<Option<i64>>) -> Option<()> {
    if element.is_null() {
        return into.push(None).ok();
    }
    if !has_no_other(element, &["random", "gap"]) {
        return into.push(Some(whole(element)?)).ok();
    }
    let gap = optional_number(element, "gap", 0)?.unsigned_abs();
    put_random(element.get("random")?.as_u64()?, gap, into)
}

/// Rows of whole numbers.
fn rows_in(alloc: Global, elements: &[Value]) -> Option<Vec<Option<i64>>> {
    let mut rows = Vec::new(alloc);
    for element in elements {
        put_rows(element, &mut rows)?;
    }
    Some(rows)
}

/// The column of rows of whole numbers.
fn column_of(alloc: Global, rows: &[Option<i64>]) -> Option<Column> {
    if rows.len() > 1_000_000 {
        return None;
    }
    let values = Values::Whole(Items::from_vec(rows.to_vec(alloc).ok()?));
    Column::build(alloc, &values).ok()
}

/// The bytes of a column of whole numbers.
pub fn build(case: &Value, trial: &mut Trial) -> Option<()> {
    let rows = rows_in(trial.alloc, trial.list(case, "values"))?;
    let column = column_of(trial.alloc, rows.as_slice())?;
    trial.ok_hex(column.bytes());
    Some(())
}

/// One gauge more, by plain sums.
fn joined(gauge: Gauge, part: &Parts) -> Gauge {
    match gauge.0 {
        None => Gauge(Some(*part)),
        Some(parts) => Gauge(Some(Parts {
            min: parts.min.min(part.min),
            max: parts.max.max(part.max),
            sum: parts.sum.wrapping_add(part.sum),
            count: parts.count.wrapping_add(part.count),
        })),
    }
}

fn parts_of(number: i64) -> Parts {
    Parts {
        min: number,
        max: number,
        sum: i128::from(number),
        count: 1,
    }
}

fn gauge_of_wholes(rows: &[Option<i64>]) -> Gauge {
    let mut gauge = Gauge(None);
    for row in rows {
        if let Some(number) = row {
            gauge = joined(gauge, &parts_of(*number));
        }
    }
    gauge
}

fn gauge_of_parts(rows: &[Option<Parts>]) -> Gauge {
    let mut gauge = Gauge(None);
    for row in rows {
        if let Some(parts) = row {
            gauge = joined(gauge, parts);
        }
    }
    gauge
}

/// What values add up to.
fn plain_gauge(values: &Values) -> Gauge {
    match values {
        Values::Whole(rows) => gauge_of_wholes(rows.as_slice()),
        Values::Parts(rows) => gauge_of_parts(rows.as_slice()),
        _ => Gauge(None),
    }
}

/// Whether a column folds over a range to what its values there add up to.
fn is_folded(alloc: Global, column: &Column, from: u32, to: u32) -> Option<bool> {
    let values = column.values(alloc, from, to).ok()?;
    let gauge = column.gauge(from, to);
    Some(gauge == plain_gauge(&values) && column.fold_block::<Gauge>(from, to) == gauge)
}

/// Whether the values of a range are the rows of the range.
fn are_rows(
    alloc: Global,
    column: &Column,
    rows: &[Option<i64>],
    from: u32,
    to: u32,
) -> Option<bool> {
    match column.values(alloc, from, to).ok()? {
        Values::Whole(values) => {
            Some(values.as_slice() == part(rows, from as usize, to as usize))
        }
        _ => Some(false),
    }
}

/// Whether ranges fold to what their values add up to.
fn check_folds(alloc: Global, column: &Column) -> Checks {
    let mut checks = Checks::new();
    for (from, to) in RANGES {
        checks.note(is_folded(alloc, column, from, to) == Some(true));
    }
    checks
}

/// Whether ranges have their rows and fold to what these add up to.
fn check_rows(alloc: Global, column: &Column, rows: &[Option<i64>]) -> Checks {
    let mut checks = Checks::new();
    for (from, to) in RANGES {
        let are_right = are_rows(alloc, column, rows, from, to) == Some(true);
        checks.note(are_right && is_folded(alloc, column, from, to) == Some(true));
    }
    checks
}

/// Whether a column is read from its own bytes, which are those of its values.
fn is_read(alloc: Global, column: &Column, count: u32) -> Option<bool> {
    let bytes = column.bytes();
    let Ok(read) = Column::read(alloc, ColumnKind::Whole, count, bytes) else {
        return None;
    };
    is_spelled(alloc, ColumnKind::Whole, &read.column, count, bytes)
}

/// A column of whole numbers, which is read again: how many ranges there are, and how many have other rows or folds.
pub fn of_rows(case: &Value, trial: &mut Trial) -> Option<()> {
    let rows = rows_in(trial.alloc, trial.list(case, "values"))?;
    let column = column_of(trial.alloc, rows.as_slice())?;
    let count = rows.len().min(1_000_000) as u32;
    trial.need(is_read(trial.alloc, &column, count)?);
    check_rows(trial.alloc, &column, rows.as_slice()).put("ranges", trial);
    Some(())
}

/// A column that bytes begin with: how many ranges there are, and how many have another fold than their values.
pub fn of_column(case: &Value, trial: &mut Trial) -> Option<()> {
    let kind = kind_of(case, trial)?;
    let rows = rows_of(case, trial)?;
    let bytes = trial.bytes(case, "bytes");
    let read = Column::read(trial.alloc, kind, rows, bytes.as_slice()).ok()?;
    check_folds(trial.alloc, &read.column).put("ranges", trial);
    Some(())
}
