//! The cells of rows from the values of columns.
ghost use Rattle.std.specs.Prelude.{◌≡◌, ◌+◌, ◌^◌, ◌<◌, length, map, IfOk};
ghost use Rattle.std.specs.List.{slice_get};
ghost use Rattle.index_segment.specs.Cells as spec;
ghost use Rattle.index_segment.specs.Cells.{cell_of_whole, flag_in, rise_from, some_values};
ghost use Rattle.index_segment.specs.Columns as kept;
ghost use Rattle.index_segment.specs.Columns.{cell_from, cells_from};
ghost use Rattle.row_cells.specs.declared.scalars.Scalar.TheVariants as scalar;

use crate::forms::{Form, width_of};
use column_block::{Numbers, Values, join_halves};
use edge_face::{NoMemory, Text};
use fold_law::{Gauge, Parts, Rise, Rising};
use row_cells::{Cell, Scalar, copy_cell, gauge_cell, rise_cell};
use sqlite_items::Items;
use std::alloc::Global;

/// What a column of whole numbers has at a row, where the column at the place is one.
fn whole_at(columns: &[Values], at: usize, row: usize) -> Option<i64>
    ensures { result ≡ kept.whole_at (slice_get columns.now at) row }
{
    match columns.get(at) {
        Some(Values::Whole(numbers)) => match numbers.get(row) {
            Some(number) => *number,
            None => None,
        },
        _ => None,
    }
}

fn parts_at(columns: &[Values], at: usize, row: usize) -> Option<Parts>
    ensures { result ≡ kept.parts_at (slice_get columns.now at) row }
{
    match columns.get(at) {
        Some(Values::Parts(parts)) => match parts.get(row) {
            Some(parts) => *parts,
            None => None,
        },
        _ => None,
    }
}

fn numbers_at(columns: &[Values], at: usize, row: usize) -> &[i64]
    ensures { result.now ≡ kept.numbers_at (slice_get columns.now at) row }
{
    match columns.get(at) {
        Some(Values::Wholes(lists)) => match lists.get(row) {
            Some(numbers) => numbers.as_slice(),
            None => &[],
        },
        _ => &[],
    }
}

fn texts_at(columns: &[Values], at: usize, row: usize) -> &[Text]
    ensures { result.now ≡ kept.texts_at (slice_get columns.now at) row }
{
    match columns.get(at) {
        Some(Values::Words(lists)) => match lists.get(row) {
            Some(texts) => texts.as_slice(),
            None => &[],
        },
        _ => &[],
    }
}

fn values_of_numbers(alloc: Global, numbers: &[i64]) -> Result<Items<Scalar>, NoMemory>
    ensures { IfOk result (λ values. values ≡ map scalar.Whole numbers.now) }
{
    let mut values = Vec::with_capacity(alloc, numbers.len())?;
    for number in numbers {
        values.push(Scalar::Whole(*number))?;
    }
    Ok(Items::from_vec(values))
}

fn values_of_flags(alloc: Global, numbers: &[i64]) -> Result<Items<Scalar>, NoMemory>
    ensures { IfOk result (λ values. values ≡ map flag_in numbers.now) }
{
    let mut values = Vec::with_capacity(alloc, numbers.len())?;
    for number in numbers {
        values.push(Scalar::Flag(*number != 0))?;
    }
    Ok(Items::from_vec(values))
}

fn values_of_texts(alloc: Global, texts: &[Text]) -> Result<Items<Scalar>, NoMemory>
    ensures { IfOk result (λ values. values ≡ map scalar.Word texts.now) }
{
    let mut values = Vec::with_capacity(alloc, texts.len())?;
    for text in texts {
        values.push(Scalar::Word(text.copy(alloc)?))?;
    }
    Ok(Items::from_vec(values))
}

fn cell_of_values(values: Items<Scalar>) -> Cell
    ensures { result ≡ some_values values }
{
    if values.is_empty() {
        Cell::Absent
    } else {
        Cell::Many(values)
    }
}

fn cell_of_number(number: Option<i64>) -> Cell
    ensures { result ≡ cell_of_whole number }
{
    match number {
        Some(number) => Cell::One(Scalar::Whole(number)),
        None => Cell::Absent,
    }
}

fn rise_of(
    first: Option<i64>,
    last: Option<i64>,
    high: Option<i64>,
    low: Option<i64>,
) -> Option<Rise>
    ensures { result ≡ rise_from first last high low }
{
    let first = first?;
    let last = last?;
    let high = high?;
    let low = low?;
    Some(Rise {
        first,
        last,
        increase: join_halves(high, low),
    })
}

fn rise_at(columns: &[Values], at: usize, row: usize) -> Cell
    requires { at + 3 < 2 ^ 64 }
    ensures { result ≡ cell_from Form.Rise Cell.Absent columns.now at row }
{
    let rise = rise_of(
        whole_at(columns, at, row),
        whole_at(columns, at + 1, row),
        whole_at(columns, at + 2, row),
        whole_at(columns, at + 3, row),
    );
    rise_cell(Rising(rise))
}

/// The cell of a row in a field whose columns begin at a place. `head` is what the key gives.
fn restore_cell(
    alloc: Global,
    form: Form,
    head: &Cell,
    columns: &[Values],
    at: usize,
    row: usize,
) -> Result<Cell, NoMemory>
    requires { at + 3 < 2 ^ 64 }
    ensures { IfOk result (λ cell. cell ≡ cell_from form head.now columns.now at row) }
{
    match form {
        Form::Bare => {
            let cell = copy_cell(alloc, head)?;
            Ok(cell)
        }
        Form::Whole => Ok(cell_of_number(whole_at(columns, at, row))),
        Form::Parts => Ok(gauge_cell(Gauge(parts_at(columns, at, row)))),
        Form::Rise => Ok(rise_at(columns, at, row)),
        Form::Numbers => Ok(cell_of_values(values_of_numbers(
            alloc,
            numbers_at(columns, at, row),
        )?)),
        Form::Flags => Ok(cell_of_values(values_of_flags(alloc, numbers_at(columns, at, row))?)),
        Form::Words => Ok(cell_of_values(values_of_texts(alloc, texts_at(columns, at, row))?)),
    }
}

/// The cells of a row of columns. `heads` has what the key gives, a cell for each field.
pub fn restore_cells(
    alloc: Global,
    forms: &[Form],
    heads: &[Cell],
    columns: &[Values],
    row: usize,
) -> Result<Items<Cell>, NoMemory>
    requires same { length heads.now ≡ length forms.now }
    requires few { length forms.now < 2 ^ 60 }
    ensures { IfOk result (λ cells. cells ≡ cells_from forms.now heads.now columns.now 0 row) }
{
    let mut cells = Vec::with_capacity(alloc, forms.len())?;
    let mut at = 0;
    for place in 0..forms.len() {
        cells.push(restore_cell(alloc, forms[place], &heads[place], columns, at, row)?)?;
        at += width_of(forms[place]);
    }
    Ok(Items::from_vec(cells))
}
