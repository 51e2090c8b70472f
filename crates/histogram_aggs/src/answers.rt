//! Answers of what was kept of rows. What is told is used up, so that texts of keys are moved and not copied.
ghost use Rattle.std.specs.Prelude.{◌≡◌, ◌+◌, ◌+ℤ◌, ◌<ℤ◌, ℤ, pos, suc, List, [], map, take, drop, reverse, sum_by, Some, IfOk, IfErr, IfSome, IfNone, OnOk, Ok};
ghost use Rattle.std.specs.BTreeMap.{IsOrdered, get, keys};
ghost use Rattle.std.specs.Ordering.{int_cmp};
ghost use Rattle.row_cells.specs.declared.scalars.Scalar.{Scalar};
ghost use Rattle.row_cells.specs.Each.{Each};
ghost use Rattle.time_text.specs.Interval.{ms_of};
ghost use Rattle.histogram_aggs.specs.declared.state.Bucket.{out-Bucket};
ghost use Rattle.histogram_aggs.specs.Answers.{Placed, agg_all, bucket_count, bucket_of, histogram_answer, results_of, start_members, terms_answer, value_members};
ghost use Rattle.histogram_aggs.specs.Buckets.{starts_between, starts_from};
ghost use Rattle.histogram_aggs.specs.Samples.{Sample};
ghost use Rattle.histogram_aggs.specs.Seen.{seen};
ghost use Rattle.histogram_aggs.specs.Stands.{BucketStands, IsBucketOf, MarksStand, OneStands, Stands, TimesStand, ValuesStand};
ghost use Rattle.histogram_aggs.specs.Told.{AreBucketsTold, AreTold, IsBucketTold, IsEntryOf, IsRefusedBy, IsStop, IsTold, StandBehind, answer_one as answer_of_one, buckets_of, of_least, results_below};

use crate::aggs::{Agg, AggKind};
use crate::errors::AggError;
use crate::limits::MOST_BUCKETS;
use crate::metrics::{increase_told, metric_told, unmapped_out};
use crate::ordering::{Shown, in_order};
use crate::pieces::{
    histogram_out, members_for, outs_for, put_documents, put_named, put_out, start_key, terms_out,
    value_key,
};
use crate::starts::Start;
use crate::state::{Bucket, Node, make_level};
use crate::value_keys::ValueKey;
use crate::wrongs::field_at;
use edge_face::NoMemory;
use reply_json::{Member, Members, Out};
use row_cells::Field;
use std::alloc::Global;
use std::collections::BTreeMap;
use time_text::Interval;

/// One bucket more, if there is room.
fn take_room(room: &mut u64) -> Result<(), AggError>
    ensures ok { OnOk result (room.new + 1 ≡ room.old) }
    ensures err { IfErr result (IsStop room.old 1) }
{
    match room.checked_sub(1) {
        Some(left) => {
            *room = left;
            Ok(())
        }
        None => Err(AggError::TooManyBuckets),
    }
}

/// The answers of all aggregations, by name.
#[tactic(auto, using(crate::proofs::FinishSteps::all_told, crate::proofs::FinishSteps::all_stopped))]
pub fn finish_level(
    alloc: Global,
    aggs: &[Agg],
    fields: &[Field],
    nodes: &mut Vec<Node>,
) -> Result<Out, AggError>
    ensures ok { IfOk result (λ out. (xs : List Sample) → Stands fields.now (seen aggs.now) nodes.old.items xs
        → agg_all (seen aggs.now) fields.now xs ≡ Ok out) }
    ensures err { IfErr result (λ e. (xs : List Sample) → Stands fields.now (seen aggs.now) nodes.old.items xs
        → IsRefusedBy (agg_all (seen aggs.now) fields.now xs) e) }
{
    let mut room = MOST_BUCKETS;
    let mut members = members_for(alloc, aggs.len())?;
    answer_level(alloc, aggs, fields, nodes, &mut members, &mut room)?;
    Ok(Members::of(members).object())
}

/// The answers of a level, behind other members.
#[cycle(answer)]
pub fn answer_level(
    alloc: Global,
    aggs: &[Agg],
    fields: &[Field],
    nodes: &mut Vec<Node>,
    members: &mut Vec<Member>,
    room: &mut u64,
) -> Result<(), AggError>
    ensures ok { OnOk result ((xs : List Sample) → Stands fields.now (seen aggs.now) nodes.old.items xs
        → AreTold (results_of (seen aggs.now) fields.now xs) room.old room.new members.old.items members.new.items) }
    ensures err { IfErr result (λ e. (xs : List Sample) → Stands fields.now (seen aggs.now) nodes.old.items xs
        → IsStop room.old (results_of (seen aggs.now) fields.now xs).buckets e) }
{
    for i in 0..aggs.len().min(nodes.len()) {
        let agg = &aggs[i];
        let value = answer_one(alloc, agg, fields, &mut nodes[i], room)?;
        put_named(alloc, members, &agg.name, value)?;
    }
    Ok(())
}

#[cycle(answer)]
fn answer_one(
    alloc: Global,
    agg: &Agg,
    fields: &[Field],
    node: &mut Node,
    room: &mut u64,
) -> Result<Out, AggError>
    ensures ok { IfOk result (λ out. (xs : List Sample) → OneStands fields.now agg.now node.old xs
        → IsTold (answer_of_one fields.now agg.now xs) room.old room.new out) }
    ensures err { IfErr result (λ e. (xs : List Sample) → OneStands fields.now agg.now node.old xs
        → IsStop room.old (answer_of_one fields.now agg.now xs).buckets e) }
{
    match node {
        Node::Unmapped => Ok(unmapped_out(alloc, agg.kind)?),
        Node::Metric(tally) => {
            let out = metric_told(alloc, agg.kind, field_at(fields, agg.field), *tally)?;
            Ok(out)
        }
        Node::Times(buckets) => match agg.kind {
            AggKind::DateHistogram {
                interval,
                min_doc_count,
            } => {
                let subs = agg.subs.as_slice();
                answer_times(alloc, subs, fields, interval, min_doc_count, buckets, room)
            }
            _ => Err(AggError::NoMemory),
        },
        Node::Values(buckets) => match agg.kind {
            AggKind::Terms { size, by_key } => {
                let subs = agg.subs.as_slice();
                answer_values(alloc, subs, fields, size, by_key, buckets, room)
            }
            _ => Err(AggError::NoMemory),
        },
        Node::Rises(rises) => {
            let out = increase_told(alloc, rises)?;
            Ok(out)
        }
    }
}

/// A bucket, behind the members of its key.
#[cycle(answer)]
fn answer_bucket(
    alloc: Global,
    key: Vec<Member>,
    below: &[Agg],
    fields: &[Field],
    bucket: &mut Bucket,
    room: &mut u64,
) -> Result<Out, AggError>
    ensures ok { IfOk result (λ out. (xs : List Sample) → BucketStands (Stands fields.now (seen below.now)) bucket.old xs
        → IsBucketTold (results_below fields.now below.now) key.items xs room.old room.new out) }
    ensures err { IfErr result (λ e. (xs : List Sample) → BucketStands (Stands fields.now (seen below.now)) bucket.old xs
        → IsStop room.old (bucket_count (bucket_of (results_below fields.now below.now) xs)) e) }
{
    take_room(room)?;
    let mut members = key;
    put_documents(&mut members, bucket.documents)?;
    answer_level(alloc, below, fields, &mut bucket.below, &mut members, room)?;
    Ok(Members::of(members).object())
}

// ---- buckets of time

/// The bucket of a start, which may be one of no rows.
fn bucket_at(
    alloc: Global,
    below: &[Agg],
    fields: &[Field],
    at: &Start,
    buckets: &mut BTreeMap<Start, Bucket>,
) -> Result<Bucket, NoMemory>
    ensures bucket { IfOk result (λ bucket. (xs : List Sample) → IsBucketOf (Stands fields.now (seen below.now)) (get int_cmp buckets.old at.now) xs
        → BucketStands (Stands fields.now (seen below.now)) bucket xs) }
    ensures others { (t : ℤ) → at.now <ℤ t → get int_cmp buckets.new t ≡ get int_cmp buckets.old t }
{
    match buckets.remove(at) {
        Some(bucket) => Ok(bucket),
        None => {
            let below = make_level(alloc, below, fields)?;
            Ok(Bucket {
                documents: 0,
                below,
            })
        }
    }
}

#[cycle(answer)]
fn answer_start(
    alloc: Global,
    below: &[Agg],
    fields: &[Field],
    at: &Start,
    buckets: &mut BTreeMap<Start, Bucket>,
    room: &mut u64,
) -> Result<Out, AggError>
    ensures ok { IfOk result (λ out. (xs : List Sample) → IsBucketOf (Stands fields.now (seen below.now)) (get int_cmp buckets.old at.now) xs
        → IsBucketTold (results_below fields.now below.now) (start_members at.now) xs room.old room.new out) }
    ensures err { IfErr result (λ e. (xs : List Sample) → IsBucketOf (Stands fields.now (seen below.now)) (get int_cmp buckets.old at.now) xs
        → IsStop room.old (bucket_count (bucket_of (results_below fields.now below.now) xs)) e) }
    ensures others { (t : ℤ) → at.now <ℤ t → get int_cmp buckets.new t ≡ get int_cmp buckets.old t }
{
    let mut bucket = bucket_at(alloc, below, fields, at, buckets)?;
    let key = start_key(alloc, at)?;
    answer_bucket(alloc, key, below, fields, &mut bucket, room)
}

/// So many buckets behind a start, whether they have rows or not.
#[cycle(answer)]
fn answer_behind(
    alloc: Global,
    below: &[Agg],
    fields: &[Field],
    by: Interval,
    start: &Start,
    number: u64,
    buckets: &mut BTreeMap<Start, Bucket>,
    outs: &mut Vec<Out>,
    room: &mut u64,
) -> Result<(), AggError>
    ensures ok { OnOk result ((of_start : ℤ → List Sample) → StandBehind (Stands fields.now (seen below.now)) start.now buckets.old of_start
        → AreBucketsTold (results_below fields.now below.now) start_members of_start (starts_from (start.now +ℤ pos (ms_of by)) (ms_of by) number) room.old room.new outs.old.items outs.new.items) }
    ensures err { IfErr result (λ e. (of_start : ℤ → List Sample) → StandBehind (Stands fields.now (seen below.now)) start.now buckets.old of_start
        → IsStop room.old (buckets_of (results_below fields.now below.now) of_start (starts_from (start.now +ℤ pos (ms_of by)) (ms_of by) number)) e) }
{
    let mut at = start.copy();
    for _done in 0..number {
        at = at.next(by)?;
        let out = answer_start(alloc, below, fields, &at, buckets, room)?;
        put_out(outs, out)?;
    }
    Ok(())
}

/// The first start, and how many others there are up to the last one.
fn ends(buckets: &BTreeMap<Start, Bucket>, by: Interval) -> Option<(Start, u64)>
    ensures some { IfSome result (λ e. starts_between (ms_of by) (keys buckets.now) ≡ starts_from e.0 (ms_of by) (suc e.1)) }
    ensures none { IfNone result (keys buckets.now ≡ []) }
{
    let (first, _) = buckets.first_key_value()?;
    let (last, _) = buckets.last_key_value()?;
    Some((first.copy(), first.gaps(last, by)))
}

/// All buckets from the first to the last.
#[cycle(answer)]
fn answer_all(
    alloc: Global,
    below: &[Agg],
    fields: &[Field],
    by: Interval,
    buckets: &mut BTreeMap<Start, Bucket>,
    outs: &mut Vec<Out>,
    room: &mut u64,
) -> Result<(), AggError>
    ensures ok { OnOk result ((of_start : ℤ → List Sample) → MarksStand int_cmp (Stands fields.now (seen below.now)) buckets.old of_start
        → AreBucketsTold (results_below fields.now below.now) start_members of_start (starts_between (ms_of by) (keys buckets.old)) room.old room.new outs.old.items outs.new.items) }
    ensures err { IfErr result (λ e. (of_start : ℤ → List Sample) → MarksStand int_cmp (Stands fields.now (seen below.now)) buckets.old of_start
        → IsStop room.old (buckets_of (results_below fields.now below.now) of_start (starts_between (ms_of by) (keys buckets.old))) e) }
{
    let Some((first, others)) = ends(buckets, by) else {
        return Ok(());
    };
    let out = answer_start(alloc, below, fields, &first, buckets, room)?;
    put_out(outs, out)?;
    answer_behind(
        alloc, below, fields, by, &first, others, buckets, outs, room,
    )
}

/// The buckets of rows that stand for so many documents.
#[cycle(answer)]
fn answer_filled(
    alloc: Global,
    below: &[Agg],
    fields: &[Field],
    least: u64,
    buckets: &mut BTreeMap<Start, Bucket>,
    outs: &mut Vec<Out>,
    room: &mut u64,
) -> Result<(), AggError>
    requires { IsOrdered int_cmp buckets.old }
    ensures ok { OnOk result ((of_start : ℤ → List Sample) → MarksStand int_cmp (Stands fields.now (seen below.now)) buckets.old of_start
        → AreBucketsTold (results_below fields.now below.now) start_members of_start (of_least least of_start (keys buckets.old)) room.old room.new outs.old.items outs.new.items) }
    ensures err { IfErr result (λ e. (of_start : ℤ → List Sample) → MarksStand int_cmp (Stands fields.now (seen below.now)) buckets.old of_start
        → IsStop room.old (buckets_of (results_below fields.now below.now) of_start (of_least least of_start (keys buckets.old))) e) }
{
    while let Some((start, bucket)) = buckets.pop_first() {
        if bucket.documents < least {
            continue;
        }
        let mut bucket = bucket;
        let key = start_key(alloc, &start)?;
        let out = answer_bucket(alloc, key, below, fields, &mut bucket, room)?;
        put_out(outs, out)?;
    }
    Ok(())
}

#[cycle(answer)]
fn answer_times(
    alloc: Global,
    below: &[Agg],
    fields: &[Field],
    by: Interval,
    least: u64,
    buckets: &mut BTreeMap<Start, Bucket>,
    room: &mut u64,
) -> Result<Out, AggError>
    ensures ok { IfOk result (λ out. (f : Placed) (xs : List Sample) → TimesStand (Stands fields.now (seen below.now)) (ms_of by) buckets.old xs
        → IsTold (histogram_answer (results_below fields.now below.now) (ms_of by) least (Some f) xs) room.old room.new out) }
    ensures err { IfErr result (λ e. (f : Placed) (xs : List Sample) → TimesStand (Stands fields.now (seen below.now)) (ms_of by) buckets.old xs
        → IsStop room.old (histogram_answer (results_below fields.now below.now) (ms_of by) least (Some f) xs).buckets e) }
{
    let mut outs = outs_for(alloc, buckets.len().min(*room as usize))?;
    if least == 0 {
        answer_all(alloc, below, fields, by, buckets, &mut outs, room)?;
    } else {
        answer_filled(alloc, below, fields, least, buckets, &mut outs, room)?;
    }
    Ok(histogram_out(alloc, outs)?)
}

// ---- buckets of values

/// The first so many buckets, which are taken off.
#[cycle(answer)]
fn answer_kept(
    alloc: Global,
    below: &[Agg],
    fields: &[Field],
    size: u64,
    shown: &mut Shown,
    outs: &mut Vec<Out>,
    room: &mut u64,
) -> Result<(), AggError>
    ensures ok { OnOk result ((of_value : Scalar → List Sample) → Each (IsEntryOf (Stands fields.now (seen below.now)) of_value) shown.old.items
        → AreBucketsTold (results_below fields.now below.now) value_members of_value (take size (map (λ e. e.0) (reverse shown.old.items))) room.old room.new outs.old.items outs.new.items) }
    ensures err { IfErr result (λ e. (of_value : Scalar → List Sample) → Each (IsEntryOf (Stands fields.now (seen below.now)) of_value) shown.old.items
        → IsStop room.old (buckets_of (results_below fields.now below.now) of_value (take size (map (λ e. e.0) (reverse shown.old.items)))) e) }
    ensures rest { OnOk result (reverse shown.new.items ≡ drop size (reverse shown.old.items)) }
{
    let mut left = size;
    while 0 < left {
        let Some((value, bucket)) = shown.pop() else {
            return Ok(());
        };
        let mut bucket = bucket;
        let key = value_key(alloc, value.into_value())?;
        let out = answer_bucket(alloc, key, below, fields, &mut bucket, room)?;
        put_out(outs, out)?;
        left -= 1;
    }
    Ok(())
}

/// The documents of buckets that are cut off.
fn other_documents(cut: &[(ValueKey, Bucket)]) -> Result<i128, NoMemory>
    ensures { IfOk result (λ sum. sum ≡ pos (sum_by (λ e. (out-Bucket e.1).documents) cut.now)) }
{
    let mut sum: i128 = 0;
    for at in 0..cut.len() {
        sum = more_documents(sum, cut[at].1.documents)?;
    }
    Ok(sum)
}

fn more_documents(sum: i128, documents: u64) -> Result<i128, NoMemory>
    ensures { IfOk result (λ more. more ≡ sum +ℤ pos documents) }
{
    match sum.checked_add(i128::from(documents)) {
        Some(more) => Ok(more),
        None => Err(NoMemory),
    }
}

#[cycle(answer)]
fn answer_values(
    alloc: Global,
    below: &[Agg],
    fields: &[Field],
    size: u64,
    by_key: Option<bool>,
    buckets: &mut BTreeMap<ValueKey, Bucket>,
    room: &mut u64,
) -> Result<Out, AggError>
    ensures ok { IfOk result (λ out. (f : Placed) (xs : List Sample) → ValuesStand (Stands fields.now (seen below.now)) f.field.role f.place buckets.old xs
        → IsTold (terms_answer (results_below fields.now below.now) size by_key (Some f) xs) room.old room.new out) }
    ensures err { IfErr result (λ e. (f : Placed) (xs : List Sample) → ValuesStand (Stands fields.now (seen below.now)) f.field.role f.place buckets.old xs
        → IsStop room.old (terms_answer (results_below fields.now below.now) size by_key (Some f) xs).buckets e) }
{
    let kept = buckets.len().min(size as usize);
    let mut outs = outs_for(alloc, kept.min(*room as usize))?;
    let mut shown = in_order(alloc, by_key, buckets)?;
    answer_kept(alloc, below, fields, size, &mut shown, &mut outs, room)?;
    let other = other_documents(shown.as_slice())?;
    Ok(terms_out(alloc, other, outs)?)
}
