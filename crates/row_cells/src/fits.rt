//! Whether cells fit the fields of a schema.
ghost use Rattle.std.specs.Prelude.{◌≡◌, ◌↔◌, ℕ, pos, ◌≤ℤ◌, ◌+◌, ◌<◌, ◌≤◌, length, IsTrue};
ghost use Rattle.row_cells.specs.Limits.{most_documents};
ghost use Rattle.row_cells.specs.Fitting.{AreValues, AreValuesAfter, CellFits, CellsFit, CounterFits, DimensionFits, FoldedGaugeFits, GaugeFits, IsAggregate, IsNumberOf, IsValueOf, LabelFits, MayFollow, PartsFit, PlainCounterFits, RawGaugeFits, RiseFits, RisenCounterFits, TimeFits};

use crate::limits::LONGEST_WORD;
use crate::rows::Cell;
use crate::scalars::Scalar;
use crate::schemas::{Field, FieldType, Role};
use edge_face::bytes_order;
use fold_law::{Parts, Rise};
use std::cmp::Ordering;
use time_text::is_instant;

/// A number lies between two others.
fn is_between(low: i64, high: i64, number: i64) -> bool
    ensures { IsTrue result ↔ ((low ≤ℤ number) × (number ≤ℤ high)) }
{
    if number < low {
        return false;
    }
    number <= high
}

/// A number is in the range of a type.
fn is_number_of(kind: FieldType, number: i64) -> bool
    ensures { IsTrue result ↔ IsNumberOf kind number }
{
    match kind {
        FieldType::Date => is_instant(number),
        FieldType::Long => true,
        FieldType::Integer => is_between(-2_147_483_648, 2_147_483_647, number),
        FieldType::Short => is_between(-32_768, 32_767, number),
        FieldType::Byte => is_between(-128, 127, number),
        FieldType::Aggregate => true,
        FieldType::Keyword => false,
        FieldType::Boolean => false,
    }
}

fn is_word_of(kind: FieldType, text: &str) -> bool
    ensures { IsTrue result ↔ IsValueOf kind (Scalar.Word text.now) }
{
    match kind {
        FieldType::Keyword => text.len() <= LONGEST_WORD,
        _ => false,
    }
}

fn is_whole_of(kind: FieldType, number: i64) -> bool
    ensures { IsTrue result ↔ IsValueOf kind (Scalar.Whole number) }
{
    match kind {
        FieldType::Aggregate => false,
        _ => is_number_of(kind, number),
    }
}

/// A value is one of a type.
fn is_value_of(kind: FieldType, value: &Scalar) -> bool
    ensures { IsTrue result ↔ IsValueOf kind value.now }
{
    match value {
        Scalar::Whole(number) => is_whole_of(kind, *number),
        Scalar::Word(text) => is_word_of(kind, text.as_str()),
        Scalar::Flag(flag) => match kind {
            FieldType::Boolean => true,
            _ => false,
        },
    }
}

fn fits_time(cell: &Cell) -> bool
    ensures { IsTrue result ↔ TimeFits cell.now }
{
    match cell {
        Cell::Absent => true,
        _ => false,
    }
}

fn fits_dimension(kind: FieldType, cell: &Cell) -> bool
    ensures { IsTrue result ↔ DimensionFits kind cell.now }
{
    match cell {
        Cell::Absent => true,
        Cell::One(value) => is_value_of(kind, value),
        _ => false,
    }
}

fn is_aggregate(parts: &Parts) -> bool
    ensures { IsTrue result ↔ IsAggregate parts.now }
{
    let parts = *parts;
    if parts.count < 1 || parts.count > 9_223_372_036_854_775_807 {
        return false;
    }
    -9_223_372_036_854_775_808 <= parts.sum && parts.sum <= 9_223_372_036_854_775_807
}

fn fits_raw_gauge(kind: FieldType, cell: &Cell) -> bool
    ensures { IsTrue result ↔ RawGaugeFits kind cell.now }
{
    match cell {
        Cell::Absent => true,
        Cell::One(Scalar::Whole(number)) => is_whole_of(kind, *number),
        Cell::Gauge(parts) => match kind {
            FieldType::Aggregate => is_aggregate(parts),
            _ => false,
        },
        _ => false,
    }
}

/// Parts are those of a gauge over so many documents.
fn are_parts(kind: FieldType, documents: u64, parts: &Parts) -> bool
    requires { documents ≤ most_documents }
    ensures { IsTrue result ↔ PartsFit kind documents parts.now }
{
    let parts = *parts;
    if !is_number_of(kind, parts.min) {
        return false;
    }
    if !is_number_of(kind, parts.max) {
        return false;
    }
    if parts.sum.unsigned_abs() > u128::from(documents) * 9_223_372_036_854_775_808 {
        return false;
    }
    if parts.count < 1 {
        return false;
    }
    parts.count <= i128::from(documents) * 9_223_372_036_854_775_807
}

fn fits_folded_gauge(kind: FieldType, documents: u64, cell: &Cell) -> bool
    requires { documents ≤ most_documents }
    ensures { IsTrue result ↔ FoldedGaugeFits kind documents cell.now }
{
    match cell {
        Cell::Absent => true,
        Cell::Gauge(parts) => are_parts(kind, documents, parts),
        _ => false,
    }
}

fn fits_gauge(folded: bool, kind: FieldType, documents: u64, cell: &Cell) -> bool
    requires { documents ≤ most_documents }
    ensures { IsTrue result ↔ GaugeFits folded kind documents cell.now }
{
    if folded {
        fits_folded_gauge(kind, documents, cell)
    } else {
        fits_raw_gauge(kind, cell)
    }
}

/// A rise is one over so many documents.
fn is_rise(kind: FieldType, documents: u64, rise: &Rise) -> bool
    requires some { 1 ≤ documents }
    requires few { documents ≤ most_documents }
    ensures { IsTrue result ↔ RiseFits kind documents rise.now }
{
    let rise = *rise;
    if !is_number_of(kind, rise.first) {
        return false;
    }
    if !is_number_of(kind, rise.last) {
        return false;
    }
    if rise.increase < 0 {
        return false;
    }
    if rise.increase > i128::from(documents - 1) * 18_446_744_073_709_551_616 {
        return false;
    }
    if documents == 1 {
        rise.first == rise.last
    } else {
        true
    }
}

fn fits_plain_counter(kind: FieldType, cell: &Cell) -> bool
    ensures { IsTrue result ↔ PlainCounterFits kind cell.now }
{
    match cell {
        Cell::Absent => true,
        Cell::One(Scalar::Whole(number)) => is_whole_of(kind, *number),
        _ => false,
    }
}

fn fits_risen_counter(kind: FieldType, documents: u64, cell: &Cell) -> bool
    requires some { 1 ≤ documents }
    requires few { documents ≤ most_documents }
    ensures { IsTrue result ↔ RisenCounterFits kind documents cell.now }
{
    match cell {
        Cell::Absent => true,
        Cell::Rise(rise) => is_rise(kind, documents, rise),
        _ => false,
    }
}

fn fits_counter(folded: bool, rises: bool, kind: FieldType, documents: u64, cell: &Cell) -> bool
    requires some { 1 ≤ documents }
    requires few { documents ≤ most_documents }
    ensures { IsTrue result ↔ CounterFits folded rises kind documents cell.now }
{
    if folded {
        if rises {
            fits_risen_counter(kind, documents, cell)
        } else {
            fits_plain_counter(kind, cell)
        }
    } else {
        fits_plain_counter(kind, cell)
    }
}

/// One value may follow another in a label.
fn may_follow(before: &Scalar, value: &Scalar) -> bool
    ensures { IsTrue result ↔ MayFollow before.now value.now }
{
    match before {
        Scalar::Word(a) => match value {
            Scalar::Word(b) => match bytes_order(a.as_bytes(), b.as_bytes()) {
                Ordering::Less => true,
                _ => false,
            },
            _ => false,
        },
        Scalar::Whole(a) => match value {
            Scalar::Whole(b) => *a <= *b,
            _ => false,
        },
        Scalar::Flag(a) => match value {
            Scalar::Flag(b) => { if *a { *b } else { true } }
            _ => false,
        },
    }
}

/// The values of a label, behind its first.
fn are_values_after(kind: FieldType, first: &Scalar, values: &[Scalar]) -> bool
    ensures { IsTrue result ↔ AreValuesAfter kind first.now values.now }
{
    let mut before = first;
    for value in values {
        if !may_follow(before, value) {
            return false;
        }
        if !is_value_of(kind, value) {
            return false;
        }
        before = value;
    }
    true
}

fn are_values(kind: FieldType, values: &[Scalar]) -> bool
    ensures { IsTrue result ↔ AreValues kind values.now }
{
    match values.split_first() {
        None => false,
        Some((first, behind)) => {
            if !is_value_of(kind, first) {
                return false;
            }
            are_values_after(kind, first, behind)
        }
    }
}

fn fits_label(kind: FieldType, cell: &Cell) -> bool
    ensures { IsTrue result ↔ LabelFits kind cell.now }
{
    match cell {
        Cell::Absent => true,
        Cell::Many(values) => are_values(kind, values.as_slice()),
        _ => false,
    }
}

/// A cell fits a field of a type and a role, over so many documents.
fn fits_cell(folded: bool, rises: bool, field: &Field, documents: u64, cell: &Cell) -> bool
    requires some { 1 ≤ documents }
    requires few { documents ≤ most_documents }
    ensures { IsTrue result ↔ CellFits folded rises field.now.kind field.now.role documents cell.now }
{
    let kind = field.kind;
    match field.role {
        Role::Time => fits_time(cell),
        Role::Dimension => fits_dimension(kind, cell),
        Role::Gauge => fits_gauge(folded, kind, documents, cell),
        Role::Counter => fits_counter(folded, rises, kind, documents, cell),
        Role::Label => fits_label(kind, cell),
    }
}

/// There is a cell for each field, which fits it.
pub fn fit_cells(
    folded: bool,
    rises: bool,
    documents: u64,
    fields: &[Field],
    cells: &[Cell],
) -> bool
    requires some { 1 ≤ documents }
    requires few { documents ≤ most_documents }
    ensures { IsTrue result ↔ CellsFit folded rises documents fields.now cells.now }
{
    if fields.len() != cells.len() {
        return false;
    }
    for place in 0..fields.len() {
        if !fits_cell(folded, rises, &fields[place], documents, &cells[place]) {
            return false;
        }
    }
    true
}
