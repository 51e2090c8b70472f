//! Which rows a query takes. Nothing here takes memory.
ghost use Rattle.std.specs.Prelude.{◌≡◌, map, nat_le};
ghost use Rattle.std.specs.List.{list_all, list_any};
ghost use Rattle.std.specs.Option.{option_copied};
ghost use Rattle.search_filter.specs.Matching as spec;
ghost use Rattle.search_filter.specs.Matching.{count_true, is_true, matches_row};
ghost use Rattle.search_filter.specs.Seen.{seen};
ghost use Rattle.search_filter.specs.Values.{values_at};

use crate::query::{Bound, Query};
use crate::value_set::ValueSet;
use crate::values::{Held, held_at, value_order};
use row_cells::{Row, Scalar, Schema};
use std::cmp::Ordering;

fn is_any_one_of(several: &[Scalar], values: &ValueSet) -> bool
    ensures { result ≡ list_any (spec.is_one_of values.now) several.now }
{
    for value in several {
        if values.has(value) {
            return true;
        }
    }
    false
}

fn has_one_of(held: Held<'_>, values: &ValueSet) -> bool
    ensures { result ≡ list_any (spec.is_one_of values.now) (seen held.entry) }
{
    match held {
        Held::Nothing => false,
        Held::Number(number) => values.has(&Scalar::Whole(number)),
        Held::One(value) => values.has(value),
        Held::Many(several) => is_any_one_of(several, values),
    }
}

fn is_above(value: &Scalar, low: Option<&Bound>) -> bool
    ensures { result ≡ spec.is_above (option_copied low.entry) value.now }
{
    match low {
        None => true,
        Some(bound) => match value_order(value, &bound.value) {
            Ordering::Less => false,
            Ordering::Equal => bound.inclusive,
            Ordering::Greater => true,
        },
    }
}

fn is_below(value: &Scalar, high: Option<&Bound>) -> bool
    ensures { result ≡ spec.is_below (option_copied high.entry) value.now }
{
    match high {
        None => true,
        Some(bound) => match value_order(value, &bound.value) {
            Ordering::Less => true,
            Ordering::Equal => bound.inclusive,
            Ordering::Greater => false,
        },
    }
}

fn is_within(value: &Scalar, low: &Option<Bound>, high: &Option<Bound>) -> bool
    ensures { result ≡ spec.is_within low.now high.now value.now }
{
    is_above(value, low.as_ref()) && is_below(value, high.as_ref())
}

fn is_any_within(several: &[Scalar], low: &Option<Bound>, high: &Option<Bound>) -> bool
    ensures { result ≡ list_any (spec.is_within low.now high.now) several.now }
{
    for value in several {
        if is_within(value, low, high) {
            return true;
        }
    }
    false
}

fn has_within(held: Held<'_>, low: &Option<Bound>, high: &Option<Bound>) -> bool
    ensures { result ≡ list_any (spec.is_within low.now high.now) (seen held.entry) }
{
    match held {
        Held::Nothing => false,
        Held::Number(number) => is_within(&Scalar::Whole(number), low, high),
        Held::One(value) => is_within(value, low, high),
        Held::Many(several) => is_any_within(several, low, high),
    }
}

fn is_some_value(held: Held<'_>) -> bool
    ensures { result ≡ spec.is_some_value (seen held.entry) }
{
    match held {
        Held::Nothing => false,
        Held::Number(_) | Held::One(_) => true,
        Held::Many(values) => 0 < values.len(),
    }
}

fn has_any(schema: &Schema, row: &Row, fields: &[u32]) -> bool
    ensures { result ≡ list_any (spec.has_value schema.now.fields row.now) fields.now }
{
    for field in fields {
        if is_some_value(held_at(schema, row, *field)) {
            return true;
        }
    }
    false
}

/// Whether a row matches a query that was read with a schema of the same fields. It may be one document or the fold of
/// several.
#[cycle(matching)]
pub fn matches(query: &Query, schema: &Schema, row: &Row) -> bool
    ensures { result ≡ matches_row query.now schema.now row.now }
{
    match query {
        Query::All => true,
        Query::Nothing => false,
        Query::Has { fields } => has_any(schema, row, fields.as_slice()),
        Query::OneOf { field, values } => has_one_of(held_at(schema, row, *field), values),
        Query::Between { field, low, high } => has_within(held_at(schema, row, *field), low, high),
        Query::Bool {
            must,
            should,
            must_not,
            least,
        } => {
            if !do_all_match(must.as_slice(), schema, row) {
                return false;
            }
            if does_any_match(must_not.as_slice(), schema, row) {
                return false;
            }
            do_enough_match(should.as_slice(), schema, row, *least)
        }
    }
}

#[cycle(matching)]
fn do_all_match(queries: &[Query], schema: &Schema, row: &Row) -> bool
    ensures { result ≡ list_all is_true (map (λ q. matches_row q schema.now row.now) queries.now) }
{
    for query in queries {
        if !matches(query, schema, row) {
            return false;
        }
    }
    true
}

#[cycle(matching)]
fn does_any_match(queries: &[Query], schema: &Schema, row: &Row) -> bool
    ensures { result ≡ list_any is_true (map (λ q. matches_row q schema.now row.now) queries.now) }
{
    for query in queries {
        if matches(query, schema, row) {
            return true;
        }
    }
    false
}

/// Whether so many of the queries match. Those behind the last one that is needed aren't tried.
#[cycle(matching)]
fn do_enough_match(queries: &[Query], schema: &Schema, row: &Row, least: u64) -> bool
    ensures { result ≡ nat_le least (count_true (map (λ q. matches_row q schema.now row.now) queries.now)) }
{
    let mut wanted = least;
    for query in queries {
        if wanted == 0 {
            return true;
        }
        if matches(query, schema, row) {
            wanted -= 1;
        }
    }
    wanted == 0
}
