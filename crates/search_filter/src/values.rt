//! The values of rows at fields, and their order.
ghost use Rattle.std.specs.Prelude.{◌≡◌};
ghost use Rattle.std.specs.Cmp.{IsTotalOrder};
ghost use Rattle.std.specs.declared.cmp.Ordering.TheVariants.{Equal};
ghost use Rattle.row_cells.specs.declared.scalars.Scalar.{Scalar};
ghost use Rattle.search_filter.specs.Seen.{cell_seen, seen};
ghost use Rattle.search_filter.specs.Values.{number_of, rank_of, value_cmp, values_at, word_of};

use edge_face::bytes_order;
use row_cells::{Cell, Role, Row, Scalar, Schema};
use std::cmp::Ordering;

/// The values that a row has at a field, without a copy of them.
#[derive(Clone, Copy)]
pub enum Held<'a> {
    Nothing,
    /// A whole number, or an instant in milliseconds.
    Number(i64),
    One(&'a Scalar),
    /// The values of a label, in ascending order.
    Many(&'a [Scalar]),
}

fn in_cell(cell: Option<&Cell>) -> Held<'_>
    ensures { seen result ≡ cell_seen cell.entry }
{
    match cell {
        None | Some(Cell::Absent) => Held::Nothing,
        Some(Cell::One(value)) => Held::One(value),
        Some(Cell::Many(values)) => Held::Many(values.as_slice()),
        Some(Cell::Gauge(parts)) => Held::Number(parts.max),
        Some(Cell::Rise(rise)) => Held::Number(rise.last),
    }
}

/// The values of a row at the field of a place: its time for `@timestamp`, the greatest value of a gauge, the last of
/// a counter. At a place where the schema has no field there is none.
pub fn held_at<'a>(schema: &Schema, row: &'a Row, field: u32) -> Held<'a>
    ensures { seen result ≡ values_at schema.now.fields field row.now }
{
    match schema.fields.get(field as usize) {
        None => Held::Nothing,
        Some(mapped) => match mapped.role {
            Role::Time => Held::Number(row.time),
            Role::Dimension | Role::Gauge | Role::Counter | Role::Label => {
                in_cell(row.cells.get(field as usize))
            }
        },
    }
}

fn rank(value: &Scalar) -> u8
    ensures { result ≡ rank_of value.now }
{
    match value {
        Scalar::Whole(_) => 0,
        Scalar::Flag(_) => 1,
        Scalar::Word(_) => 2,
    }
}

fn number(value: &Scalar) -> i64
    ensures { result ≡ number_of value.now }
{
    match value {
        Scalar::Whole(number) => *number,
        Scalar::Flag(true) => 1,
        Scalar::Flag(false) | Scalar::Word(_) => 0,
    }
}

fn word(value: &Scalar) -> &[u8]
    ensures { result.now ≡ word_of value.now }
{
    match value {
        Scalar::Word(text) => text.as_bytes(),
        Scalar::Whole(_) | Scalar::Flag(_) => &[],
    }
}

/// The order of the values of a type: numbers and instants as they are, false before true, texts by bytes. Values of
/// two types stand numbers first, then truth values, then texts.
pub fn value_order(left: &Scalar, right: &Scalar) -> Ordering
    ensures { result ≡ value_cmp left.now right.now }
{
    match rank(left).cmp(&rank(right)) {
        Ordering::Less => Ordering::Less,
        Ordering::Greater => Ordering::Greater,
        Ordering::Equal => match number(left).cmp(&number(right)) {
            Ordering::Less => Ordering::Less,
            Ordering::Greater => Ordering::Greater,
            Ordering::Equal => bytes_order(word(left), word(right)),
        },
    }
}

/// A law without effect: the order of values is total, and tells values apart.
pub fn values_are_ordered()
    ensures total { IsTotalOrder value_cmp }
    ensures tells { (a b : Scalar) → value_cmp a b ≡ Equal → a ≡ b }
{}
