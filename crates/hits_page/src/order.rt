//! The order of hits.
ghost use Rattle.std.specs.Prelude.{◌≡◌};
ghost use Rattle.std.specs.Option.{option_copied};
ghost use Rattle.std.specs.Ordering.{is_lt};
ghost use Rattle.hits_page.specs.Hits as spec;
ghost use Rattle.hits_page.specs.Hits.{head_of, hit_cmp, place_cmp, place_of, present_cmp, sort_cmp, tail_of};
ghost use Rattle.search_filter.specs.Seen.{seen};

use crate::hits::{Hit, Offer};
use crate::sort_keys::SortKey;
use row_cells::{Row, Scalar, Schema, row_order};
use search_filter::{Held, held_at, value_order};
use std::cmp::Ordering;

/// The first of some values that may be absent, and those behind it.
#[derive(Clone, Copy)]
struct Front<'a> {
    first: Option<&'a Scalar>,
    rest: &'a [Option<Scalar>],
}

fn split(values: &[Option<Scalar>]) -> Front<'_>
    ensures first { option_copied result.first ≡ head_of values.now }
    ensures rest { result.rest.now ≡ tail_of values.now }
{
    match values {
        [] => Front {
            first: None,
            rest: values,
        },
        [first, rest @ ..] => Front {
            first: first.as_ref(),
            rest,
        },
    }
}

/// Two values by one key: what is absent stands last.
fn compare_values(rising: bool, left: Option<&Scalar>, right: Option<&Scalar>) -> Ordering
    ensures { result ≡ present_cmp rising (option_copied left.entry) (option_copied right.entry) }
{
    match left {
        None => match right {
            None => Ordering::Equal,
            Some(_) => Ordering::Greater,
        },
        Some(left) => match right {
            None => Ordering::Less,
            Some(right) => {
                if rising {
                    value_order(left, right)
                } else {
                    value_order(right, left)
                }
            }
        },
    }
}

fn compare_sorts(keys: &[SortKey], left: &[Option<Scalar>], right: &[Option<Scalar>]) -> Ordering
    ensures { result ≡ sort_cmp keys.now left.now right.now }
{
    let Some((key, keys)) = keys.split_first() else {
        return Ordering::Equal;
    };
    let left = split(left);
    let right = split(right);
    match compare_values(key.rising, left.first, right.first) {
        Ordering::Less => Ordering::Less,
        Ordering::Greater => Ordering::Greater,
        Ordering::Equal => compare_sorts(keys, left.rest, right.rest),
    }
}

/// The first of the values that a row has, and another value.
fn compare_held(rising: bool, held: Held<'_>, other: Option<&Scalar>) -> Ordering
    ensures { result ≡ present_cmp rising (spec.first_of (seen held.entry)) (option_copied other.entry) }
{
    match held {
        Held::Nothing => compare_values(rising, None, other),
        Held::Number(number) => compare_values(rising, Some(&Scalar::Whole(number)), other),
        Held::One(value) => compare_values(rising, Some(value), other),
        Held::Many(values) => compare_values(rising, values.first(), other),
    }
}

/// The values of a row as they lie in it, and those of a hit.
fn compare_row(keys: &[SortKey], schema: &Schema, row: &Row, other: &[Option<Scalar>]) -> Ordering
    ensures { result ≡ sort_cmp keys.now (spec.sort_values keys.now schema.now.fields row.now) other.now }
{
    let Some((key, keys)) = keys.split_first() else {
        return Ordering::Equal;
    };
    let other = split(other);
    match compare_held(key.rising, held_at(schema, row, key.field), other.first) {
        Ordering::Less => Ordering::Less,
        Ordering::Greater => Ordering::Greater,
        Ordering::Equal => compare_row(keys, schema, row, other.rest),
    }
}

/// A row and a hit that no value tells apart.
fn compare_ties(row: &Row, start: i64, other: &Hit) -> Ordering
    ensures { result ≡ spec.tie_cmp row.now start other.now }
{
    row_order(row, &other.picked.row).then(other.start.cmp(&start))
}

/// Whether a row stands before a hit. No value is copied for it.
fn is_before(keys: &[SortKey], offer: Offer<'_>, hit: &Hit) -> bool
    ensures { result ≡ is_lt (place_cmp keys.now (spec.offered_place keys.now offer.entry) (place_of hit.now)) }
{
    match compare_row(keys, offer.schema, offer.row, hit.picked.sort.as_slice()) {
        Ordering::Less => true,
        Ordering::Greater => false,
        Ordering::Equal => compare_ties(offer.row, offer.start, hit).is_lt(),
    }
}

/// Whether a row isn't among the first ones: none is wanted, or so many hits stand in order in front and it isn't before the last of
/// these.
pub fn is_past(
    keys: &[SortKey],
    offer: Offer<'_>,
    hits: &[Hit],
    limit: usize,
    has_mark: bool,
) -> bool
    ensures { result ≡ spec.is_past keys.now (spec.offered_place keys.now offer.entry) limit has_mark hits.now }
{
    if limit == 0 {
        return true;
    }
    if !has_mark {
        return false;
    }
    match hits.get(limit - 1) {
        None => false,
        Some(mark) => !is_before(keys, offer, mark),
    }
}

/// The order of hits.
pub fn hit_order(keys: &[SortKey], left: &Hit, right: &Hit) -> Ordering
    ensures { result ≡ hit_cmp keys.now left.now right.now }
{
    match compare_sorts(
        keys,
        left.picked.sort.as_slice(),
        right.picked.sort.as_slice(),
    ) {
        Ordering::Less => Ordering::Less,
        Ordering::Greater => Ordering::Greater,
        Ordering::Equal => compare_ties(&left.picked.row, left.start, right),
    }
}
