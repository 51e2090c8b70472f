//! Metrics over rows, added up in any grouping.
ghost use Rattle.std.specs.Prelude.{◌≡◌, ◌+◌, ◌≤◌, ◌^◌, ◌↔◌, ◌+ℤ◌, [], ◌∷◌, map, IfOk, IsTrue};
ghost use Rattle.fold_law.specs.Gauges.{merge_gauges, reach_of_gauge};
ghost use Rattle.search_filter.specs.Values as spec;
ghost use Rattle.histogram_aggs.specs.Tallies.{both_tallies, either_greatest, either_least, of_numbers, tally_by};

use crate::aggs::AggKind;
use edge_face::NoMemory;
use fold_law::{Fold, Gauge};
use row_cells::{Cell, Role, Scalar, gauge_of};

/// A metric over some rows.
#[derive(Clone, Copy, Debug)]
pub enum Tally {
    /// Of a gauge: all its parts.
    Measured(Gauge),
    Least(Option<i64>),
    Greatest(Option<i64>),
    Total(i128),
    /// How many values there are.
    Number(u64),
}

/// How far a gauge's numbers reach.
fn reach_of(gauge: Gauge) -> u128
    ensures { result ≡ reach_of_gauge gauge }
{
    match gauge.0 {
        None => 0,
        Some(parts) => parts.sum.unsigned_abs().max(parts.count.unsigned_abs()),
    }
}

/// Whether the parts of two gauges leave room in 128 bits, as those of any rows of a store do.
fn have_room(a: Gauge, b: Gauge) -> bool
    ensures { IsTrue result ↔ (reach_of_gauge a + reach_of_gauge b ≤ 2 ^ 120) }
{
    let room: u128 = 1_329_227_995_784_915_872_903_807_060_280_344_576;
    let first = reach_of(a);
    first <= room && reach_of(b) <= room - first
}

fn least_of(a: Option<i64>, b: Option<i64>) -> Option<i64>
    ensures { result ≡ either_least a b }
{
    match (a, b) {
        (None, _) => b,
        (Some(_), None) => a,
        (Some(v), Some(w)) => Some(v.min(w)),
    }
}

fn greatest_of(a: Option<i64>, b: Option<i64>) -> Option<i64>
    ensures { result ≡ either_greatest a b }
{
    match (a, b) {
        (None, _) => b,
        (Some(_), None) => a,
        (Some(v), Some(w)) => Some(v.max(w)),
    }
}

fn both_gauges(a: Gauge, b: Gauge) -> Result<Gauge, NoMemory>
    ensures { IfOk result (λ g. g ≡ merge_gauges a b) }
{
    if have_room(a, b) {
        Ok(a.merge(b))
    } else {
        Err(NoMemory)
    }
}

fn both_totals(a: i128, b: i128) -> Result<i128, NoMemory>
    ensures { IfOk result (λ sum. sum ≡ a +ℤ b) }
{
    match a.checked_add(b) {
        Some(sum) => Ok(sum),
        None => Err(NoMemory),
    }
}

fn both_numbers(a: u64, b: u64) -> Result<u64, NoMemory>
    ensures { IfOk result (λ sum. sum ≡ a + b) }
{
    match a.checked_add(b) {
        Some(sum) => Ok(sum),
        None => Err(NoMemory),
    }
}

impl Tally {
    /// The metric of a kind over the rows of both, which are of one kind and field.
    pub fn with(self, other: Tally) -> Result<Tally, NoMemory>
        ensures { IfOk result (λ both. both ≡ both_tallies self other) }
    {
        match (self, other) {
            (Tally::Measured(a), Tally::Measured(b)) => Ok(Tally::Measured(both_gauges(a, b)?)),
            (Tally::Least(a), Tally::Least(b)) => Ok(Tally::Least(least_of(a, b))),
            (Tally::Greatest(a), Tally::Greatest(b)) => Ok(Tally::Greatest(greatest_of(a, b))),
            (Tally::Total(a), Tally::Total(b)) => Ok(Tally::Total(both_totals(a, b)?)),
            (Tally::Number(a), Tally::Number(b)) => Ok(Tally::Number(both_numbers(a, b)?)),
            _ => Ok(self),
        }
    }
}

/// The metric of a kind over no values.
pub fn of_none(kind: AggKind) -> Tally
    ensures { result ≡ of_numbers kind [] }
{
    match kind {
        AggKind::Min => Tally::Least(None),
        AggKind::Max => Tally::Greatest(None),
        AggKind::Sum => Tally::Total(0),
        AggKind::ValueCount
        | AggKind::Increase
        | AggKind::Terms { .. }
        | AggKind::DateHistogram { .. } => Tally::Number(0),
    }
}

fn of_one(kind: AggKind, value: i64) -> Tally
    ensures { result ≡ of_numbers kind (value ∷ []) }
{
    match kind {
        AggKind::Min => Tally::Least(Some(value)),
        AggKind::Max => Tally::Greatest(Some(value)),
        AggKind::Sum => Tally::Total(i128::from(value)),
        AggKind::ValueCount
        | AggKind::Increase
        | AggKind::Terms { .. }
        | AggKind::DateHistogram { .. } => Tally::Number(1),
    }
}

fn number_of(value: &Scalar) -> i64
    ensures { result ≡ spec.number_of value.now }
{
    match value {
        Scalar::Whole(number) => *number,
        Scalar::Flag(true) => 1,
        Scalar::Flag(false) | Scalar::Word(_) => 0,
    }
}

fn of_value(kind: AggKind, value: &Scalar) -> Tally
    ensures { result ≡ of_numbers kind (spec.number_of value.now ∷ []) }
{
    of_one(kind, number_of(value))
}

fn of_values(kind: AggKind, values: &[Scalar]) -> Result<Tally, NoMemory>
    ensures { IfOk result (λ tally. tally ≡ of_numbers kind (map spec.number_of values.now)) }
{
    let mut tally = of_none(kind);
    for value in values {
        tally = tally.with(of_value(kind, value))?;
    }
    Ok(tally)
}

fn of_cell(kind: AggKind, cell: &Cell) -> Result<Tally, NoMemory>
    ensures { IfOk result (λ tally. tally ≡ of_numbers kind (map spec.number_of (spec.values_of cell.now))) }
{
    match cell {
        Cell::Absent => Ok(of_none(kind)),
        Cell::One(value) => Ok(of_value(kind, value)),
        Cell::Many(values) => of_values(kind, values.as_slice()),
        Cell::Gauge(parts) => Ok(of_one(kind, parts.max)),
        Cell::Rise(rise) => Ok(of_one(kind, rise.last)),
    }
}

/// The metric of a kind over a row of that time and with that cell at the field.
pub fn tally_of(kind: AggKind, role: Role, time: i64, cell: &Cell) -> Result<Tally, NoMemory>
    ensures { IfOk result (λ tally. tally ≡ tally_by kind role time cell.now) }
{
    match role {
        Role::Gauge => Ok(Tally::Measured(gauge_of(cell))),
        Role::Time => Ok(of_one(kind, time)),
        Role::Dimension | Role::Counter | Role::Label => of_cell(kind, cell),
    }
}
