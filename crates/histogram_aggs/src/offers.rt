//! Rows offered one by one to what aggregations have.
ghost use Rattle.std.specs.Prelude.{◌≡◌, ◌+◌, ℕ, ℤ, List, ◌++◌, [], ◌∷◌, IfOk, OnOk, Ok, Some, None, true, false};
ghost use Rattle.std.specs.BTreeMap.{get};
ghost use Rattle.std.specs.Ordering.{int_cmp};
ghost use Rattle.row_cells.specs.declared.scalars.Scalar.{Scalar};
ghost use Rattle.search_filter.specs.Seen.{seen as seen_held};
ghost use Rattle.search_filter.specs.Values.{value_cmp};
ghost use Rattle.time_text.specs.Bucket.{bucket_start};
ghost use Rattle.time_text.specs.Instant.{IsInstant};
ghost use Rattle.time_text.specs.Interval.{ms_of};
ghost use Rattle.row_cells.specs.declared.schemas.Field.{Field};
ghost use Rattle.histogram_aggs.specs.declared.aggs.AggKind.{AggKind};
ghost use Rattle.histogram_aggs.specs.Answers.{field_of};
ghost use Rattle.histogram_aggs.specs.Samples.{Sample};
ghost use Rattle.histogram_aggs.specs.Seen.{seen};
ghost use Rattle.histogram_aggs.specs.Stands.{BucketStands, FieldStands, IncreaseStands, MarksStand, MetricStands, OneStands, Stands, TimesStand, with_each};
ghost use Rattle.histogram_aggs.specs.Tallies.{tally_by};
ghost use Rattle.downsample_fold.specs.Columns.{cell_of};

use crate::aggs::{Agg, AggKind};
use crate::held::{greater, held_of, is_repeated};
use crate::rises::{Rises, Window, offer_rise};
use crate::starts::Start;
use crate::state::{Bucket, Node, make_level};
use crate::tallies::{Tally, tally_of};
use crate::value_keys::{ValueAt, ValueKey};
use crate::wrongs::field_at;
use edge_face::NoMemory;
use row_cells::{Cell, Field, Role, Row, Scalar, copy_scalar};
use search_filter::Held;
use std::alloc::Global;
use std::collections::BTreeMap;
use time_text::Interval;

fn more_documents(documents: u64, row: &Row) -> Result<u64, NoMemory>
    ensures { IfOk result (λ sum. sum ≡ documents + row.now.count) }
{
    match documents.checked_add(row.count) {
        Some(sum) => Ok(sum),
        None => Err(NoMemory),
    }
}

/// The start of the bucket that a row is in.
fn start_of(row: &Row, by: Interval) -> Start
    requires { IsInstant row.now.time }
    ensures { result ≡ bucket_start (ms_of by) row.now.time }
{
    let time = row.time;
    Start::of(time, by)
}

fn cell_tally(kind: AggKind, role: Role, row: &Row, cell: &Cell) -> Result<Tally, NoMemory>
    ensures { IfOk result (λ tally. tally ≡ tally_by kind role row.now.time cell.now) }
{
    let tally = tally_of(kind, role, row.time, cell)?;
    Ok(tally)
}

/// The metric of one row.
fn row_tally(kind: AggKind, role: Role, place: usize, row: &Row) -> Result<Tally, NoMemory>
    ensures { IfOk result (λ tally. tally ≡ tally_by kind role row.now.time (cell_of place row.now)) }
{
    match row.cells.get(place) {
        Some(cell) => cell_tally(kind, role, row, cell),
        None => cell_tally(kind, role, row, &Cell::Absent),
    }
}

/// One row more for each aggregation of a level: whatever rows it stood for, it now stands for them and this one.
#[cycle(offer)]
pub fn offer_level(
    alloc: Global,
    aggs: &[Agg],
    fields: &[Field],
    nodes: &mut Vec<Node>,
    window: &Window,
    row: &Row,
) -> Result<(), NoMemory>
    requires { IsInstant row.now.time }
    ensures { OnOk result ((xs : List Sample) → Stands fields.now (seen aggs.now) nodes.old.items xs
        → Stands fields.now (seen aggs.now) nodes.new.items (xs ++ record { start = window.now.start; row = row.now } ∷ [])) }
{
    for i in 0..aggs.len().min(nodes.len()) {
        offer_one(alloc, &aggs[i], fields, &mut nodes[i], window, row)?;
    }
    Ok(())
}

#[cycle(offer)]
fn offer_one(
    alloc: Global,
    agg: &Agg,
    fields: &[Field],
    node: &mut Node,
    window: &Window,
    row: &Row,
) -> Result<(), NoMemory>
    requires { IsInstant row.now.time }
    ensures { OnOk result ((xs : List Sample) → OneStands fields.now agg.now node.old xs
        → OneStands fields.now agg.now node.new (xs ++ record { start = window.now.start; row = row.now } ∷ [])) }
{
    match node {
        Node::Unmapped => Ok(()),
        Node::Metric(tally) => {
            *tally = offer_metric(agg.kind, agg.field, fields, *tally, row)?;
            Ok(())
        }
        Node::Times(buckets) => match agg.kind {
            AggKind::DateHistogram { interval, .. } => {
                offer_time(
                    alloc,
                    agg.subs.as_slice(),
                    fields,
                    interval,
                    buckets,
                    window,
                    row,
                )?;
                Ok(())
            }
            _ => Ok(()),
        },
        Node::Values(buckets) => match agg.kind {
            AggKind::Terms { .. } => {
                offer_terms(
                    alloc,
                    agg.subs.as_slice(),
                    fields,
                    agg.field,
                    buckets,
                    window,
                    row,
                )?;
                Ok(())
            }
            _ => Ok(()),
        },
        Node::Rises(rises) => {
            offer_increase(alloc, agg.field, rises, window, row)?;
            Ok(())
        }
    }
}

fn offer_increase(
    alloc: Global,
    place: Option<u32>,
    rises: &mut Rises,
    window: &Window,
    row: &Row,
) -> Result<(), NoMemory>
    ensures { OnOk result ((kind : AggKind) (fields : List Field) (xs : List Sample) → IncreaseStands kind (field_of fields place) rises.old xs
        → IncreaseStands kind (field_of fields place) rises.new (xs ++ record { start = window.now.start; row = row.now } ∷ [])) }
{
    let Some(at) = place else {
        return Ok(());
    };
    offer_rise(alloc, rises, at as usize, window, row)?;
    Ok(())
}

fn offer_metric(
    kind: AggKind,
    place: Option<u32>,
    fields: &[Field],
    tally: Tally,
    row: &Row,
) -> Result<Tally, NoMemory>
    ensures { IfOk result (λ both. (start : ℤ) (xs : List Sample) → MetricStands kind (field_of fields.now place) tally xs
        → MetricStands kind (field_of fields.now place) both (xs ++ record { start = start; row = row.now } ∷ [])) }
{
    let Some(at) = place else {
        return Ok(tally);
    };
    let Some(field) = field_at(fields, place) else {
        return Ok(tally);
    };
    let one = row_tally(kind, field.role, at as usize, row)?;
    let both = tally.with(one)?;
    Ok(both)
}

/// One row more in its bucket, if there is one: whether there is.
#[cycle(offer)]
fn offer_known(
    alloc: Global,
    below: &[Agg],
    fields: &[Field],
    by: Interval,
    buckets: &mut BTreeMap<Start, Bucket>,
    window: &Window,
    row: &Row,
) -> Result<bool, NoMemory>
    requires { IsInstant row.now.time }
    ensures known { result ≡ Ok true → (xs : List Sample) → TimesStand (Stands fields.now (seen below.now)) (ms_of by) buckets.old xs
        → TimesStand (Stands fields.now (seen below.now)) (ms_of by) buckets.new (xs ++ record { start = window.now.start; row = row.now } ∷ []) }
    ensures missing { result ≡ Ok false → (get int_cmp buckets.old (bucket_start (ms_of by) row.now.time) ≡ None) × ((t : ℤ) → get int_cmp buckets.new t ≡ get int_cmp buckets.old t) }
{
    let at = start_of(row, by);
    match buckets.get_mut(&at) {
        None => Ok(false),
        Some(bucket) => {
            offer_bucket(alloc, below, fields, bucket, window, row)?;
            Ok(true)
        }
    }
}

/// A bucket of one row.
#[cycle(offer)]
fn first_bucket(
    alloc: Global,
    below: &[Agg],
    fields: &[Field],
    window: &Window,
    row: &Row,
) -> Result<Bucket, NoMemory>
    requires { IsInstant row.now.time }
    ensures { IfOk result (λ bucket. BucketStands (Stands fields.now (seen below.now)) bucket (record { start = window.now.start; row = row.now } ∷ [])) }
{
    let mut bucket = Bucket {
        documents: 0,
        below: make_level(alloc, below, fields)?,
    };
    offer_bucket(alloc, below, fields, &mut bucket, window, row)?;
    Ok(bucket)
}

#[cycle(offer)]
fn offer_time(
    alloc: Global,
    below: &[Agg],
    fields: &[Field],
    by: Interval,
    buckets: &mut BTreeMap<Start, Bucket>,
    window: &Window,
    row: &Row,
) -> Result<(), NoMemory>
    requires { IsInstant row.now.time }
    ensures { OnOk result ((xs : List Sample) → TimesStand (Stands fields.now (seen below.now)) (ms_of by) buckets.old xs
        → TimesStand (Stands fields.now (seen below.now)) (ms_of by) buckets.new (xs ++ record { start = window.now.start; row = row.now } ∷ [])) }
{
    if offer_known(alloc, below, fields, by, buckets, window, row)? {
        return Ok(());
    }
    let bucket = first_bucket(alloc, below, fields, window, row)?;
    let at = start_of(row, by);
    let _ = buckets.insert(at, bucket)?;
    Ok(())
}

/// One row more in the bucket of a value, if there is one: whether there is.
#[cycle(offer)]
fn offer_known_value(
    alloc: Global,
    below: &[Agg],
    fields: &[Field],
    buckets: &mut BTreeMap<ValueKey, Bucket>,
    value: &Scalar,
    window: &Window,
    row: &Row,
) -> Result<bool, NoMemory>
    requires { IsInstant row.now.time }
    ensures known { result ≡ Ok true → (of_value : Scalar → List Sample) → MarksStand value_cmp (Stands fields.now (seen below.now)) buckets.old of_value
        → MarksStand value_cmp (Stands fields.now (seen below.now)) buckets.new (with_each (value.now ∷ []) (record { start = window.now.start; row = row.now }) of_value) }
    ensures missing { result ≡ Ok false → (get value_cmp buckets.old value.now ≡ None) × ((v : Scalar) → get value_cmp buckets.new v ≡ get value_cmp buckets.old v) }
{
    match buckets.get_mut(ValueAt { value }) {
        None => Ok(false),
        Some(bucket) => {
            offer_bucket(alloc, below, fields, bucket, window, row)?;
            Ok(true)
        }
    }
}

#[cycle(offer)]
fn offer_value(
    alloc: Global,
    below: &[Agg],
    fields: &[Field],
    buckets: &mut BTreeMap<ValueKey, Bucket>,
    value: &Scalar,
    window: &Window,
    row: &Row,
) -> Result<(), NoMemory>
    requires { IsInstant row.now.time }
    ensures { OnOk result ((of_value : Scalar → List Sample) → MarksStand value_cmp (Stands fields.now (seen below.now)) buckets.old of_value
        → MarksStand value_cmp (Stands fields.now (seen below.now)) buckets.new (with_each (value.now ∷ []) (record { start = window.now.start; row = row.now }) of_value)) }
{
    if offer_known_value(alloc, below, fields, buckets, value, window, row)? {
        return Ok(());
    }
    let bucket = first_bucket(alloc, below, fields, window, row)?;
    let key = ValueKey::new(copy_scalar(alloc, value)?);
    let _ = buckets.insert(key, bucket)?;
    Ok(())
}

/// One row more in the bucket of each of its values, once where a value stands there more than once.
#[cycle(offer)]
fn offer_list(
    alloc: Global,
    below: &[Agg],
    fields: &[Field],
    buckets: &mut BTreeMap<ValueKey, Bucket>,
    values: &[Scalar],
    window: &Window,
    row: &Row,
) -> Result<(), NoMemory>
    requires { IsInstant row.now.time }
    ensures { OnOk result ((of_value : Scalar → List Sample) → MarksStand value_cmp (Stands fields.now (seen below.now)) buckets.old of_value
        → MarksStand value_cmp (Stands fields.now (seen below.now)) buckets.new (with_each values.now (record { start = window.now.start; row = row.now }) of_value)) }
{
    let mut top = None;
    for at in 0..values.len() {
        let value = &values[at];
        if is_repeated(&values[..at], top, value) {
            continue;
        }
        offer_value(alloc, below, fields, buckets, value, window, row)?;
        top = Some(greater(top, value));
    }
    Ok(())
}

#[cycle(offer)]
fn offer_held(
    alloc: Global,
    below: &[Agg],
    fields: &[Field],
    buckets: &mut BTreeMap<ValueKey, Bucket>,
    held: Held<'_>,
    window: &Window,
    row: &Row,
) -> Result<(), NoMemory>
    requires { IsInstant row.now.time }
    ensures { OnOk result ((of_value : Scalar → List Sample) → MarksStand value_cmp (Stands fields.now (seen below.now)) buckets.old of_value
        → MarksStand value_cmp (Stands fields.now (seen below.now)) buckets.new (with_each (seen_held held.entry) (record { start = window.now.start; row = row.now }) of_value)) }
{
    match held {
        Held::Nothing => Ok(()),
        Held::Number(number) => {
            let value = Scalar::Whole(number);
            offer_value(alloc, below, fields, buckets, &value, window, row)
        }
        Held::One(value) => offer_value(alloc, below, fields, buckets, value, window, row),
        Held::Many(values) => offer_list(alloc, below, fields, buckets, values, window, row),
    }
}

#[cycle(offer)]
fn offer_terms(
    alloc: Global,
    below: &[Agg],
    fields: &[Field],
    place: Option<u32>,
    buckets: &mut BTreeMap<ValueKey, Bucket>,
    window: &Window,
    row: &Row,
) -> Result<(), NoMemory>
    requires { IsInstant row.now.time }
    ensures { OnOk result ((xs : List Sample) → FieldStands (Stands fields.now (seen below.now)) (field_of fields.now place) buckets.old xs
        → FieldStands (Stands fields.now (seen below.now)) (field_of fields.now place) buckets.new (xs ++ record { start = window.now.start; row = row.now } ∷ [])) }
{
    let Some(at) = place else {
        return Ok(());
    };
    let Some(field) = field_at(fields, place) else {
        return Ok(());
    };
    let held = held_of(field.role, at as usize, row);
    offer_held(alloc, below, fields, buckets, held, window, row)?;
    Ok(())
}

#[cycle(offer)]
fn offer_bucket(
    alloc: Global,
    below: &[Agg],
    fields: &[Field],
    bucket: &mut Bucket,
    window: &Window,
    row: &Row,
) -> Result<(), NoMemory>
    requires { IsInstant row.now.time }
    ensures { OnOk result ((xs : List Sample) → BucketStands (Stands fields.now (seen below.now)) bucket.old xs
        → BucketStands (Stands fields.now (seen below.now)) bucket.new (xs ++ record { start = window.now.start; row = row.now } ∷ [])) }
{
    bucket.documents = more_documents(bucket.documents, row)?;
    offer_level(alloc, below, fields, &mut bucket.below, window, row)?;
    Ok(())
}
