//! Rows that were offered, and the values by which they are sorted.
ghost use Rattle.std.specs.Prelude.{◌≡◌, ◌++◌, IfOk};
ghost use Rattle.hits_page.specs.Hits as spec;
ghost use Rattle.search_filter.specs.Seen.{seen};

use crate::sort_keys::SortKey;
use edge_face::NoMemory;
use row_cells::{Row, Scalar, Schema, copy_scalar};
use search_filter::{Held, held_at};
use sqlite_items::Items;
use std::alloc::Global;

/// A row of a page.
#[derive(Debug, Drop)]
pub struct Picked {
    /// The number that it was offered with.
    pub index: u32,
    pub row: Row,
    /// Its value by each sort key, where it has one.
    pub sort: Items<Option<Scalar>>,
}

/// A row as it was offered, with the start of its index's window.
#[derive(Debug, Drop)]
pub struct Hit {
    pub start: i64,
    pub picked: Picked,
}

/// A row with what it is offered with. It fits the schema.
#[derive(Clone, Copy)]
pub struct Offer<'a> {
    pub index: u32,
    pub start: i64,
    pub schema: &'a Schema,
    pub row: &'a Row,
}

/// How many rows were offered, and those of the page in order.
#[derive(Debug, Drop)]
pub struct Page {
    pub total: u64,
    pub rows: Items<Picked>,
}

fn first_value(alloc: Global, held: Held<'_>) -> Result<Option<Scalar>, NoMemory>
    ensures { IfOk result (λ value. value ≡ spec.first_of (seen held.entry)) }
{
    match held {
        Held::Nothing => Ok(None),
        Held::Number(number) => Ok(Some(Scalar::Whole(number))),
        Held::One(value) => Ok(Some(copy_scalar(alloc, value)?)),
        Held::Many(values) => match values.first() {
            None => Ok(None),
            Some(value) => Ok(Some(copy_scalar(alloc, value)?)),
        },
    }
}

/// The value of a row by each key.
pub fn sort_values(
    alloc: Global,
    keys: &[SortKey],
    schema: &Schema,
    row: &Row,
) -> Result<Items<Option<Scalar>>, NoMemory>
    ensures { IfOk result (λ values. values ≡ spec.sort_values keys.now schema.now.fields row.now) }
{
    let mut values = Items::new(alloc);
    for key in keys {
        let value = first_value(alloc, held_at(schema, row, key.field))?;
        values.push(value)?;
    }
    Ok(values)
}
