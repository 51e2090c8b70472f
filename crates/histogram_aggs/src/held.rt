//! The values of a row at a field, and which of them stand there before.
ghost use Rattle.std.specs.Prelude.{◌≡◌};
ghost use Rattle.std.specs.Option.{option_copied};
ghost use Rattle.downsample_fold.specs.Columns.{cell_of};
ghost use Rattle.search_filter.specs.Seen.{seen};
ghost use Rattle.search_filter.specs.Values.{values_of};
ghost use Rattle.histogram_aggs.specs.Repeats.{IsTop, greater_of, has_value};
ghost use Rattle.histogram_aggs.specs.Samples.{values_by};

use row_cells::{Cell, Role, Row, Scalar};
use search_filter::{Held, value_order};
use std::cmp::Ordering;

fn held_in(cell: &Cell) -> Held<'_>
    ensures { seen result ≡ values_of cell.now }
{
    match cell {
        Cell::Absent => Held::Nothing,
        Cell::One(value) => Held::One(value),
        Cell::Many(values) => Held::Many(values.as_slice()),
        Cell::Gauge(parts) => Held::Number(parts.max),
        Cell::Rise(rise) => Held::Number(rise.last),
    }
}

fn cell_held(place: usize, row: &Row) -> Held<'_>
    ensures { seen result ≡ values_of (cell_of place row.now) }
{
    match row.cells.get(place) {
        Some(cell) => held_in(cell),
        None => Held::Nothing,
    }
}

/// The values of a row at a field of that role and place.
pub fn held_of(role: Role, place: usize, row: &Row) -> Held<'_>
    ensures { seen result ≡ values_by role row.now.time (cell_of place row.now) }
{
    match role {
        Role::Time => Held::Number(row.time),
        Role::Dimension | Role::Gauge | Role::Counter | Role::Label => cell_held(place, row),
    }
}

fn is_among(values: &[Scalar], value: &Scalar) -> bool
    ensures { result ≡ has_value values.now value.now }
{
    values.iter().any(|other| value_order(other, value).is_eq())
}

/// Whether a value is one of those before it, of which `top` is a greatest. Lists in rows ascend, and there `top` tells.
#[tactic(auto, using(crate::proofs::ValueSteps::none_above))]
pub fn is_repeated(before: &[Scalar], top: Option<&Scalar>, value: &Scalar) -> bool
    requires { IsTop (option_copied top) before.now }
    ensures { result ≡ has_value before.now value.now }
{
    let Some(top) = top else {
        return false;
    };
    match value_order(top, value) {
        Ordering::Less => false,
        Ordering::Equal => true,
        Ordering::Greater => is_among(before, value),
    }
}

/// The greater of a value and a greatest one, if there is one.
pub fn greater<'a>(top: Option<&'a Scalar>, value: &'a Scalar) -> &'a Scalar
    ensures { result.now ≡ greater_of (option_copied top.entry) value.now }
{
    let Some(top) = top else {
        return value;
    };
    match value_order(top, value) {
        Ordering::Less => value,
        Ordering::Equal | Ordering::Greater => top,
    }
}
