//! The columns of rows.
ghost use Rattle.std.specs.Prelude.{◌≡◌, ◌^◌, ◌<◌, ◌≤◌, ◌++◌, [], ◌∷◌, map, IfOk, OnOk};
ghost use Rattle.column_block.specs.Rules.{KeepsRules, rows_of};
ghost use Rattle.row_cells.specs.Limits.{most_documents};
ghost use Rattle.index_segment.specs.Columns as spec;
ghost use Rattle.index_segment.specs.Columns.{ArePackable, cell_at, columns_from, columns_of_cells};
ghost use Rattle.row_cells.specs.RowLists.{documents};
ghost use Rattle.index_segment.specs.Spelling as lists;

use crate::forms::Form;
use crate::gather::{Number, gather_lists, gather_numbers, gather_parts, gather_texts};
use column_block::{Column, Values};
use edge_face::NoMemory;
use packed_lists::NumberList;
use row_cells::Row;
use sqlite_items::Items;
use std::alloc::Global;

fn push_column(alloc: Global, values: Values, into: &mut Vec<Column>) -> Result<(), NoMemory>
    requires rules { KeepsRules values }
    requires few { rows_of values < 2 ^ 32 }
    ensures { OnOk result (into.new.items ≡ into.old.items ++ values ∷ []) }
{
    into.push(Column::build(alloc, &values)?)?;
    Ok(())
}

fn push_rise(
    alloc: Global,
    rows: &[Row],
    place: usize,
    into: &mut Vec<Column>,
) -> Result<(), NoMemory>
    requires { ArePackable (columns_of_cells Form.Rise (map (cell_at place) rows.now)) }
    ensures { OnOk result (into.new.items ≡ into.old.items ++ columns_of_cells Form.Rise (map (cell_at place) rows.now)) }
{
    let first = gather_numbers(alloc, Number::First, rows, place)?;
    push_column(alloc, first, into)?;
    let last = gather_numbers(alloc, Number::Last, rows, place)?;
    push_column(alloc, last, into)?;
    let high = gather_numbers(alloc, Number::High, rows, place)?;
    push_column(alloc, high, into)?;
    let low = gather_numbers(alloc, Number::Low, rows, place)?;
    push_column(alloc, low, into)?;
    Ok(())
}

/// Appends the columns of the field at a place.
fn push_field(
    alloc: Global,
    form: Form,
    rows: &[Row],
    place: usize,
    into: &mut Vec<Column>,
) -> Result<(), NoMemory>
    requires { ArePackable (columns_of_cells form (map (cell_at place) rows.now)) }
    ensures { OnOk result (into.new.items ≡ into.old.items ++ columns_of_cells form (map (cell_at place) rows.now)) }
{
    match form {
        Form::Bare => Ok(()),
        Form::Whole => {
            let numbers = gather_numbers(alloc, Number::Value, rows, place)?;
            push_column(alloc, numbers, into)?;
            Ok(())
        }
        Form::Parts => {
            let parts = gather_parts(alloc, rows, place)?;
            push_column(alloc, parts, into)?;
            Ok(())
        }
        Form::Rise => {
            push_rise(alloc, rows, place, into)?;
            Ok(())
        }
        Form::Numbers | Form::Flags => {
            let lists = gather_lists(alloc, rows, place)?;
            push_column(alloc, lists, into)?;
            Ok(())
        }
        Form::Words => {
            let texts = gather_texts(alloc, rows, place)?;
            push_column(alloc, texts, into)?;
            Ok(())
        }
    }
}

/// The columns of rows, in the order of the fields, whose forms are these.
pub fn pack_columns(alloc: Global, forms: &[Form], rows: &[Row]) -> Result<Items<Column>, NoMemory>
    requires { ArePackable (columns_from 0 forms.now rows.now) }
    ensures { IfOk result (λ columns. columns ≡ columns_from 0 forms.now rows.now) }
{
    let mut columns = Vec::new(alloc);
    for place in 0..forms.len() {
        push_field(alloc, forms[place], rows, place, &mut columns)?;
    }
    Ok(Items::from_vec(columns))
}

/// The times of rows.
pub fn pack_times(alloc: Global, rows: &[Row]) -> Result<NumberList, NoMemory>
    ensures { IfOk result (λ times. times ≡ lists.times_of rows.now) }
{
    let mut times = Vec::with_capacity(alloc, rows.len())?;
    for row in rows {
        times.push(row.time)?;
    }
    let list = NumberList::build(alloc, times.as_slice())?;
    Ok(list)
}

/// How many documents each row counts.
pub fn pack_counts(alloc: Global, rows: &[Row]) -> Result<NumberList, NoMemory>
    requires { documents rows.now ≤ most_documents }
    ensures { IfOk result (λ counts. counts ≡ lists.counts_of rows.now) }
{
    let mut counts = Vec::with_capacity(alloc, rows.len())?;
    for row in rows {
        counts.push(row.count as i64)?;
    }
    let list = NumberList::build(alloc, counts.as_slice())?;
    Ok(list)
}
