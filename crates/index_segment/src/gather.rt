//! The columns of rows: what each row has at a field, gathered.
ghost use Rattle.std.specs.Prelude.{◌≡◌, map, IfOk};
ghost use Rattle.column_block.specs.Spelling as spelling;
ghost use Rattle.index_segment.specs.Cells as spec;
ghost use Rattle.index_segment.specs.Cells.{number_of, numbers_in, parts_in, texts_in};
ghost use Rattle.index_segment.specs.Columns as columns;
ghost use Rattle.index_segment.specs.Columns.{cell_or_absent};
ghost use Rattle.std.specs.Option.{option_copied};

use column_block::{Numbers, Texts, Values, halves_of};
use edge_face::{NoMemory, Text};
use fold_law::Parts;
use row_cells::{Cell, Row, Scalar};
use sqlite_items::Items;
use std::alloc::Global;

/// Which number of a cell a column of whole numbers has.
#[derive(Clone, Copy, Debug, PartialEq, Eq)]
pub enum Number {
    /// The cell's single value.
    Value,
    /// The first value of a rise.
    First,
    /// The last value of a rise.
    Last,
    /// The higher half of a rise's increase.
    High,
    /// The lower half of a rise's increase.
    Low,
}

fn whole_in(cell: &Cell) -> Option<i64>
    ensures { result ≡ spec.whole_in cell.now }
{
    match cell {
        Cell::One(Scalar::Whole(value)) => Some(*value),
        _ => None,
    }
}

fn number_in(number: Number, cell: Option<&Cell>) -> Option<i64>
    ensures { result ≡ number_of number (cell_or_absent (option_copied cell.entry)) }
{
    let Some(cell) = cell else {
        return None;
    };
    match cell {
        Cell::Rise(rise) => match number {
            Number::Value => None,
            Number::First => Some(rise.first),
            Number::Last => Some(rise.last),
            Number::High => Some(halves_of(rise.increase).high),
            Number::Low => Some(halves_of(rise.increase).low),
        },
        _ => match number {
            Number::Value => whole_in(cell),
            _ => None,
        },
    }
}

fn part_in(cell: Option<&Cell>) -> Option<Parts>
    ensures { result ≡ parts_in (cell_or_absent (option_copied cell.entry)) }
{
    match cell {
        Some(Cell::Gauge(parts)) => Some(*parts),
        _ => None,
    }
}

fn value_in(value: &Scalar) -> i64
    ensures { result ≡ spec.number_in value.now }
{
    match value {
        Scalar::Whole(number) => *number,
        Scalar::Flag(flag) => { if *flag { 1 } else { 0 } }
        Scalar::Word(_) => 0,
    }
}

fn values_in(alloc: Global, values: &[Scalar]) -> Result<Numbers, NoMemory>
    ensures { IfOk result (λ numbers. numbers ≡ map spec.number_in values.now) }
{
    let mut numbers = Vec::with_capacity(alloc, values.len())?;
    for value in values {
        numbers.push(value_in(value))?;
    }
    Ok(Numbers::new(numbers))
}

fn list_in(alloc: Global, cell: Option<&Cell>) -> Result<Numbers, NoMemory>
    ensures { IfOk result (λ numbers. numbers ≡ numbers_in (cell_or_absent (option_copied cell.entry))) }
{
    match cell {
        Some(Cell::Many(values)) => {
            let numbers = values_in(alloc, values.as_slice())?;
            Ok(numbers)
        }
        _ => Ok(Numbers::new(Vec::new(alloc))),
    }
}

fn text_in(alloc: Global, value: &Scalar) -> Result<Text, NoMemory>
    ensures { IfOk result (λ text. text ≡ spec.text_in value.now) }
{
    match value {
        Scalar::Word(text) => {
            let copy = text.copy(alloc)?;
            Ok(copy)
        }
        _ => {
            let none = Text::new(alloc, "")?;
            Ok(none)
        }
    }
}

fn words_in(alloc: Global, values: &[Scalar]) -> Result<Texts, NoMemory>
    ensures { IfOk result (λ texts. texts ≡ map spec.text_in values.now) }
{
    let mut texts = Vec::with_capacity(alloc, values.len())?;
    for value in values {
        texts.push(text_in(alloc, value)?)?;
    }
    Ok(Texts::new(texts))
}

fn row_texts(alloc: Global, cell: Option<&Cell>) -> Result<Texts, NoMemory>
    ensures { IfOk result (λ texts. texts ≡ texts_in (cell_or_absent (option_copied cell.entry))) }
{
    match cell {
        Some(Cell::Many(values)) => {
            let texts = words_in(alloc, values.as_slice())?;
            Ok(texts)
        }
        _ => Ok(Texts::new(Vec::new(alloc))),
    }
}

/// What a row has at the place of a field.
fn cell_at(row: &Row, place: usize) -> Option<&Cell>
    ensures { cell_or_absent (option_copied result) ≡ columns.cell_at place row.now }
{
    row.cells.get(place)
}

/// A number of each row's cell at a place.
pub fn gather_numbers(
    alloc: Global,
    number: Number,
    rows: &[Row],
    place: usize,
) -> Result<Values, NoMemory>
    ensures { IfOk result (λ values. values ≡ Values.Whole (map (number_of number) (map (columns.cell_at place) rows.now))) }
{
    let mut numbers = Vec::with_capacity(alloc, rows.len())?;
    for row in rows {
        numbers.push(number_in(number, cell_at(row, place)))?;
    }
    Ok(Values::Whole(Items::from_vec(numbers)))
}

/// The parts of each row's cell at a place.
pub fn gather_parts(alloc: Global, rows: &[Row], place: usize) -> Result<Values, NoMemory>
    ensures { IfOk result (λ values. values ≡ Values.Parts (map parts_in (map (columns.cell_at place) rows.now))) }
{
    let mut parts = Vec::with_capacity(alloc, rows.len())?;
    for row in rows {
        parts.push(part_in(cell_at(row, place)))?;
    }
    Ok(Values::Parts(Items::from_vec(parts)))
}

/// The numbers of each row's label at a place, with truth values as 0 and 1.
pub fn gather_lists(alloc: Global, rows: &[Row], place: usize) -> Result<Values, NoMemory>
    ensures { IfOk result (λ values. values ≡ Values.Wholes (map numbers_in (map (columns.cell_at place) rows.now))) }
{
    let mut lists = Vec::with_capacity(alloc, rows.len())?;
    for row in rows {
        lists.push(list_in(alloc, cell_at(row, place))?)?;
    }
    Ok(Values::Wholes(Items::from_vec(lists)))
}

/// The texts of each row's label at a place.
pub fn gather_texts(alloc: Global, rows: &[Row], place: usize) -> Result<Values, NoMemory>
    ensures { IfOk result (λ values. values ≡ Values.Words (map texts_in (map (columns.cell_at place) rows.now))) }
{
    let mut lists = Vec::with_capacity(alloc, rows.len())?;
    for row in rows {
        lists.push(row_texts(alloc, cell_at(row, place))?)?;
    }
    Ok(Values::Words(Items::from_vec(lists)))
}
