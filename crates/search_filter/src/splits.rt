//! Queries in two parts: a range of times, and what the key of a row tells.
ghost use Rattle.std.specs.Prelude.{◌≡◌, IfOk, OnOk, Some, [], map};
ghost use Rattle.std.specs.List.{list_all};
ghost use Rattle.search_filter.specs.Splitting as spec;
ghost use Rattle.search_filter.specs.Splitting.{split_of};

use crate::query::{Bound, Query};
use crate::tellers::{Teller, is_presence_told, teller_at};
use crate::value_set::ValueSet;
use edge_face::{LAST_INSTANT, NoMemory};
use row_cells::{Scalar, Schema, copy_scalar};
use sqlite_items::Items;
use std::alloc::Global;

/// A query in two parts: it takes the rows of a range of times that the rest takes.
#[derive(Debug, Drop)]
pub struct Split {
    /// The millisecond that the range begins with, from 0 to the one behind all instants.
    pub from: i64,
    /// The millisecond that the range ends before, likewise. It may be the earlier one, and then no row is taken.
    pub to: i64,
    /// What is asked of a row's key.
    pub rest: Query,
}

/// Queries that all have to match: the range that is in each one's, and the rest of each.
#[derive(Drop)]
pub struct Joined {
    from: i64,
    to: i64,
    rests: Items<Query>,
}

/// The millisecond behind all instants.
const END_OF_TIME: i64 = LAST_INSTANT + 1;

/// Where a range begins or ends that has a millisecond, or the next one, as a bound.
fn cut_time(next: bool, time: i64) -> i64
    ensures { result ≡ spec.cut_time (spec.time_or_next next time) }
{
    if next {
        time.min(LAST_INSTANT).max(-1) + 1
    } else {
        time.min(END_OF_TIME).max(0)
    }
}

fn end_at(next: bool, value: &Scalar) -> Option<i64>
    ensures { result ≡ spec.end_at next value.now }
{
    match value {
        Scalar::Whole(time) => Some(cut_time(next, *time)),
        Scalar::Flag(_) | Scalar::Word(_) => None,
    }
}

fn begin_of(low: &Option<Bound>) -> Option<i64>
    ensures { result ≡ spec.begin_of low.now }
{
    match low {
        None => Some(0),
        Some(bound) => end_at(!bound.inclusive, &bound.value),
    }
}

fn end_of(high: &Option<Bound>) -> Option<i64>
    ensures { result ≡ spec.end_of high.now }
{
    match high {
        None => Some(END_OF_TIME),
        Some(bound) => end_at(bound.inclusive, &bound.value),
    }
}

fn timeless(query: Query) -> Split
    ensures { result ≡ spec.timeless query }
{
    Split {
        from: 0,
        to: END_OF_TIME,
        rest: query,
    }
}

fn timed(from: Option<i64>, to: Option<i64>) -> Option<Split>
    ensures { result ≡ spec.timed from to }
{
    match from {
        None => None,
        Some(from) => match to {
            None => None,
            Some(to) => Some(Split {
                from,
                to,
                rest: Query::All,
            }),
        },
    }
}

fn timed_one(values: &[Scalar]) -> Option<Split>
    ensures { result ≡ spec.timed_one values.now }
{
    match values {
        [value] => timed(end_at(false, value), end_at(true, value)),
        _ => None,
    }
}

fn copy_bound(alloc: Global, bound: &Option<Bound>) -> Result<Option<Bound>, NoMemory>
    ensures { IfOk result (λ copy. copy ≡ bound.now) }
{
    match bound {
        None => Ok(None),
        Some(bound) => Ok(Some(Bound {
            value: copy_scalar(alloc, &bound.value)?,
            inclusive: bound.inclusive,
        })),
    }
}

fn are_told(schema: &Schema, fields: &[u32]) -> bool
    ensures { result ≡ list_all (λ place. spec.is_presence_told (spec.teller_at schema.now.fields place)) fields.now }
{
    for field in fields {
        if !is_presence_told(schema, *field) {
            return false;
        }
    }
    true
}

fn split_has(alloc: Global, schema: &Schema, fields: &[u32]) -> Result<Option<Split>, NoMemory>
    ensures { IfOk result (λ split. split ≡ split_of schema.now (Query.Has fields.now)) }
{
    if !are_told(schema, fields) {
        return Ok(None);
    }
    Ok(Some(timeless(Query::Has {
        fields: Items::from_slice(alloc, fields)?,
    })))
}

fn split_one_of(
    alloc: Global,
    schema: &Schema,
    field: u32,
    values: &ValueSet,
) -> Result<Option<Split>, NoMemory>
    ensures { IfOk result (λ split. split ≡ split_of schema.now (Query.OneOf field values.now)) }
{
    match teller_at(schema, field) {
        Teller::Time => Ok(timed_one(values.as_slice())),
        Teller::Key => Ok(Some(timeless(Query::OneOf {
            field,
            values: values.copy(alloc)?,
        }))),
        Teller::Cell => Ok(None),
    }
}

fn split_between(
    alloc: Global,
    schema: &Schema,
    field: u32,
    low: &Option<Bound>,
    high: &Option<Bound>,
) -> Result<Option<Split>, NoMemory>
    ensures { IfOk result (λ split. split ≡ split_of schema.now (Query.Between field low.now high.now)) }
{
    match teller_at(schema, field) {
        Teller::Time => Ok(timed(begin_of(low), end_of(high))),
        Teller::Key => Ok(Some(timeless(Query::Between {
            field,
            low: copy_bound(alloc, low)?,
            high: copy_bound(alloc, high)?,
        }))),
        Teller::Cell => Ok(None),
    }
}

impl Joined {
    fn new(alloc: Global) -> Joined
        ensures { Some result ≡ spec.join_all [] }
    {
        Joined {
            from: 0,
            to: END_OF_TIME,
            rests: Items::new(alloc),
        }
    }

    /// Joins one query more.
    fn join(&mut self, split: Split) -> Result<(), NoMemory>
        ensures { OnOk result (self.new ≡ spec.joined_behind self.old split) }
    {
        let Split { from, to, rest } = split;
        self.rests.push(rest)?;
        self.from = self.from.max(from);
        self.to = self.to.min(to);
        Ok(())
    }

    /// What the queries ask for, where none asks for times.
    fn into_rests(self) -> Option<Items<Query>>
        ensures { result ≡ spec.rests_of self }
    {
        let Joined { from, to, rests } = self;
        if from <= 0 && END_OF_TIME <= to {
            Some(rests)
        } else {
            None
        }
    }
}

fn rests_if(joined: Option<Joined>) -> Option<Items<Query>>
    ensures { result ≡ spec.rests_if joined }
{
    match joined {
        None => None,
        Some(joined) => joined.into_rests(),
    }
}

fn split_bool(
    least: u64,
    must: Option<Joined>,
    should: Option<Items<Query>>,
    must_not: Option<Items<Query>>,
) -> Option<Split>
    ensures { result ≡ spec.split_bool least must should must_not }
{
    let Joined { from, to, rests } = must?;
    let should = should?;
    let must_not = must_not?;
    Some(Split {
        from,
        to,
        rest: Query::Bool {
            must: rests,
            should,
            must_not,
            least,
        },
    })
}

/// Splits a query that was read with a schema of the same fields into a range of times and a rest that a row's key tells, so that
/// the rest may be asked of the head of a series in place of its rows. None where the query asks for a metric or a label, or for a
/// time in another way than by bounds that all rows have to meet.
#[cycle(splitting)]
pub fn split_query(alloc: Global, query: &Query, schema: &Schema) -> Result<Option<Split>, NoMemory>
    ensures { IfOk result (λ split. split ≡ split_of schema.now query.now) }
{
    match query {
        Query::All => Ok(Some(timeless(Query::All))),
        Query::Nothing => Ok(Some(timeless(Query::Nothing))),
        Query::Has { fields } => split_has(alloc, schema, fields.as_slice()),
        Query::OneOf { field, values } => split_one_of(alloc, schema, *field, values),
        Query::Between { field, low, high } => split_between(alloc, schema, *field, low, high),
        Query::Bool {
            must,
            should,
            must_not,
            least,
        } => {
            let must = join_all(alloc, must.as_slice(), schema)?;
            let should = join_all(alloc, should.as_slice(), schema)?;
            let must_not = join_all(alloc, must_not.as_slice(), schema)?;
            Ok(split_bool(*least, must, rests_if(should), rests_if(must_not)))
        }
    }
}

/// Splits queries that all have to match.
#[cycle(splitting)]
fn join_all(alloc: Global, queries: &[Query], schema: &Schema) -> Result<Option<Joined>, NoMemory>
    ensures { IfOk result (λ joined. joined ≡ spec.join_all (map (split_of schema.now) queries.now)) }
{
    let mut joined = Joined::new(alloc);
    for query in queries {
        match split_query(alloc, query, schema)? {
            None => return Ok(None),
            Some(split) => joined.join(split)?,
        }
    }
    Ok(Some(joined))
}
