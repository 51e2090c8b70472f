//! What was kept of two lists of rows, together.
ghost use Rattle.std.specs.Prelude.{◌≡◌, ◌+◌, ℤ, List, ◌++◌, IfOk, OnOk, Some};
ghost use Rattle.std.specs.Ordering.{int_cmp};
ghost use Rattle.row_cells.specs.declared.scalars.Scalar.{Scalar};
ghost use Rattle.row_cells.specs.declared.schemas.Field.{Field};
ghost use Rattle.search_filter.specs.Values.{value_cmp};
ghost use Rattle.histogram_aggs.specs.Samples.{Sample};
ghost use Rattle.histogram_aggs.specs.Seen.{seen};
ghost use Rattle.histogram_aggs.specs.Stands.{BucketStands, IsBucketOf, MarksStand, OneStands, Stands};

use crate::aggs::Agg;
use crate::rises::merge_rises;
use crate::starts::Start;
use crate::state::{Bucket, Node};
use crate::value_keys::ValueKey;
use edge_face::NoMemory;
use std::collections::BTreeMap;

/// The documents of both.
fn both_documents(a: u64, b: u64) -> Result<u64, NoMemory>
    ensures { IfOk result (λ sum. sum ≡ a + b) }
{
    match a.checked_add(b) {
        Some(sum) => Ok(sum),
        None => Err(NoMemory),
    }
}

/// Adds what each aggregation of a level has of other rows, which stand behind those before. The other level is used up.
#[cycle(merge)]
pub fn merge_level(
    aggs: &[Agg],
    nodes: &mut Vec<Node>,
    others: &mut Vec<Node>,
) -> Result<(), NoMemory>
    ensures { OnOk result ((fields : List Field) (xs ys : List Sample) → Stands fields (seen aggs.now) nodes.old.items xs
        → Stands fields (seen aggs.now) others.old.items ys → Stands fields (seen aggs.now) nodes.new.items (xs ++ ys)) }
{
    for i in 0..aggs.len().min(nodes.len()).min(others.len()) {
        merge_one(&aggs[i], &mut nodes[i], &mut others[i])?;
    }
    Ok(())
}

/// Adds what one aggregation has of other rows. Want of memory stands for nodes of two kinds, which no aggregation has.
#[cycle(merge)]
fn merge_one(agg: &Agg, node: &mut Node, other: &mut Node) -> Result<(), NoMemory>
    ensures { OnOk result ((fields : List Field) (xs ys : List Sample) → OneStands fields agg.now node.old xs
        → OneStands fields agg.now other.old ys → OneStands fields agg.now node.new (xs ++ ys)) }
{
    match node {
        Node::Unmapped => Ok(()),
        Node::Metric(tally) => match other {
            Node::Metric(more) => {
                *tally = tally.with(*more)?;
                Ok(())
            }
            _ => Err(NoMemory),
        },
        Node::Times(buckets) => match other {
            Node::Times(more) => {
                merge_times(agg.subs.as_slice(), buckets, more)?;
                Ok(())
            }
            _ => Err(NoMemory),
        },
        Node::Values(buckets) => match other {
            Node::Values(more) => {
                merge_values(agg.subs.as_slice(), buckets, more)?;
                Ok(())
            }
            _ => Err(NoMemory),
        },
        Node::Rises(rises) => match other {
            Node::Rises(more) => {
                merge_rises(rises, more)?;
                Ok(())
            }
            _ => Err(NoMemory),
        },
    }
}

#[cycle(merge)]
fn merge_bucket(below: &[Agg], bucket: &mut Bucket, other: &mut Bucket) -> Result<(), NoMemory>
    ensures { OnOk result ((fields : List Field) (xs ys : List Sample) → BucketStands (Stands fields (seen below.now)) bucket.old xs
        → BucketStands (Stands fields (seen below.now)) other.old ys → BucketStands (Stands fields (seen below.now)) bucket.new (xs ++ ys)) }
{
    bucket.documents = both_documents(bucket.documents, other.documents)?;
    merge_level(below, &mut bucket.below, &mut other.below)?;
    Ok(())
}

/// The bucket of the rows of both, where there was one.
#[cycle(merge)]
fn join_buckets(below: &[Agg], had: Option<Bucket>, other: Bucket) -> Result<Bucket, NoMemory>
    ensures { IfOk result (λ bucket. (fields : List Field) (xs ys : List Sample) → IsBucketOf (Stands fields (seen below.now)) had xs
        → IsBucketOf (Stands fields (seen below.now)) (Some other) ys → IsBucketOf (Stands fields (seen below.now)) (Some bucket) (xs ++ ys)) }
{
    let Some(had) = had else {
        return Ok(other);
    };
    let mut bucket = had;
    let mut other = other;
    merge_bucket(below, &mut bucket, &mut other)?;
    Ok(bucket)
}

/// Adds each of other buckets of time to that of its start. The others are used up.
#[cycle(merge)]
fn merge_times(
    below: &[Agg],
    buckets: &mut BTreeMap<Start, Bucket>,
    others: &mut BTreeMap<Start, Bucket>,
) -> Result<(), NoMemory>
    ensures { OnOk result ((fields : List Field) (xs ys : ℤ → List Sample) → MarksStand int_cmp (Stands fields (seen below.now)) buckets.old xs
        → MarksStand int_cmp (Stands fields (seen below.now)) others.old ys → MarksStand int_cmp (Stands fields (seen below.now)) buckets.new (λ t. xs t ++ ys t)) }
{
    while let Some((start, other)) = others.pop_first() {
        let had = buckets.remove(&start);
        let bucket = join_buckets(below, had, other)?;
        let _ = buckets.insert(start, bucket)?;
    }
    Ok(())
}

/// Adds each of other buckets of values to that of its value. The others are used up.
#[cycle(merge)]
fn merge_values(
    below: &[Agg],
    buckets: &mut BTreeMap<ValueKey, Bucket>,
    others: &mut BTreeMap<ValueKey, Bucket>,
) -> Result<(), NoMemory>
    ensures { OnOk result ((fields : List Field) (xs ys : Scalar → List Sample) → MarksStand value_cmp (Stands fields (seen below.now)) buckets.old xs
        → MarksStand value_cmp (Stands fields (seen below.now)) others.old ys → MarksStand value_cmp (Stands fields (seen below.now)) buckets.new (λ v. xs v ++ ys v)) }
{
    while let Some((value, other)) = others.pop_first() {
        let had = buckets.remove(&value);
        let bucket = join_buckets(below, had, other)?;
        let _ = buckets.insert(value, bucket)?;
    }
    Ok(())
}
