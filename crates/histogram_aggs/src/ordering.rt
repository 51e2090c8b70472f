//! Buckets of values in the order that is asked for.
ghost use Rattle.std.specs.Prelude.{◌≡◌, IfOk, map, reverse};
ghost use Rattle.std.specs.BTreeMap.{IsOrdered};
ghost use Rattle.search_filter.specs.Values.{value_cmp};
ghost use Rattle.histogram_aggs.specs.Told.{by_documents, entries_asked, entry_of};

use crate::state::Bucket;
use crate::value_keys::ValueKey;
use edge_face::NoMemory;
use std::alloc::Global;
use std::cmp::Reverse;
use std::collections::BTreeMap;

/// Buckets with their values, the first to be shown at the end.
pub type Shown = Vec<(ValueKey, Bucket)>;

/// By rising values.
fn rising(alloc: Global, buckets: &mut BTreeMap<ValueKey, Bucket>) -> Result<Shown, NoMemory>
    ensures { IfOk result (λ shown. shown.items ≡ reverse buckets.old.entries) }
{
    let mut shown = Vec::new(alloc);
    while let Some(entry) = buckets.pop_last() {
        shown.push(entry)?;
    }
    Ok(shown)
}

/// By falling values.
#[tactic(auto, using(crate::proofs::OrderSteps::twice_reversed))]
fn falling(alloc: Global, buckets: &mut BTreeMap<ValueKey, Bucket>) -> Result<Shown, NoMemory>
    ensures { IfOk result (λ shown. shown.items ≡ reverse (reverse buckets.old.entries)) }
{
    let mut shown = Vec::new(alloc);
    while let Some(entry) = buckets.pop_first() {
        shown.push(entry)?;
    }
    Ok(shown)
}

/// Buckets by falling documents and then by rising values.
type Ranked = BTreeMap<(Reverse<u64>, ValueKey), Bucket>;

fn ranked(alloc: Global, buckets: &mut BTreeMap<ValueKey, Bucket>) -> Result<Ranked, NoMemory>
    requires { IsOrdered value_cmp buckets.old }
    ensures { IfOk result (λ ranks. map entry_of ranks.entries ≡ by_documents buckets.old.entries) }
{
    let mut ranks = BTreeMap::new(alloc);
    while let Some((key, bucket)) = buckets.pop_last() {
        let rank = (Reverse(bucket.documents), key);
        let _ = ranks.insert(rank, bucket)?;
    }
    Ok(ranks)
}

fn by_rank(alloc: Global, mut ranks: Ranked) -> Result<Shown, NoMemory>
    ensures { IfOk result (λ shown. shown.items ≡ reverse (map entry_of ranks.entries)) }
{
    let mut shown = Vec::new(alloc);
    while let Some(((_, key), bucket)) = ranks.pop_last() {
        shown.push((key, bucket))?;
    }
    Ok(shown)
}

/// The buckets in the order that is asked for: by falling documents, or by rising or falling values.
pub fn in_order(
    alloc: Global,
    by_key: Option<bool>,
    buckets: &mut BTreeMap<ValueKey, Bucket>,
) -> Result<Shown, NoMemory>
    requires { IsOrdered value_cmp buckets.old }
    ensures { IfOk result (λ shown. shown.items ≡ reverse (entries_asked by_key buckets.old.entries)) }
{
    match by_key {
        Some(true) => rising(alloc, buckets),
        Some(false) => falling(alloc, buckets),
        None => {
            let ranks = ranked(alloc, buckets)?;
            by_rank(alloc, ranks)
        }
    }
}
