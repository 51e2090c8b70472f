//! Whether segments are the shards of an index.
ghost use Rattle.std.specs.Prelude.{◌≡◌, ◌↔◌, ◌≤◌, true, length};
ghost use Rattle.row_cells.specs.Limits.{most_documents};
ghost use Rattle.row_cells.specs.RowLists.{documents};
ghost use Rattle.tsds_index.specs.Answers.{AreRoutedFrom, IsRestorable, restored};
ghost use Rattle.tsds_index.specs.Limits.{most_shards};
ghost use Rattle.tsds_index.specs.Segments.{lists_in};
ghost use Rattle.tsds_index.specs.Sound.{AreOfShard, IsRouted};
ghost use Rattle.tsds_index.specs.Spread.{all_rows};

use crate::index::TsdsIndex;
use index_segment::Segment;
use row_cells::{MOST_DOCUMENTS, Schema};
use shard_route::shard_of;

/// Shards that an index may have.
const MOST_SHARDS: usize = 64;

/// Whether each series of a segment goes to a shard, of so many.
fn is_of_shard(segment: &Segment, schema: &Schema, shards: u32, shard: u32) -> bool
    requires some { 1 ≤ shards }
    requires routed { IsRouted schema.now }
    ensures { (result ≡ true) ↔ AreOfShard schema.now shards shard segment.now.rows }
{
    let _schema = segment.schema();
    for series in 0..segment.series_count() {
        if shard_of(segment.key_at(series), schema, shards) != shard {
            return false;
        }
    }
    true
}

/// Whether each segment has the series of its shard alone.
fn are_routed(segments: &[Segment], schema: &Schema) -> bool
    requires some { 1 ≤ length segments.now }
    requires few { length segments.now ≤ most_shards }
    requires routed { IsRouted schema.now }
    ensures { (result ≡ true) ↔ AreRoutedFrom schema.now (length segments.now) 0 (lists_in segments.now) }
{
    let shards = segments.len() as u32;
    let mut shard = 0;
    let mut left = segments;
    while let Some((segment, rest)) = left.split_first() {
        if !is_of_shard(segment, schema, shards, shard) {
            return false;
        }
        shard += 1;
        left = rest;
    }
    true
}

/// Whether the rows of segments stand for few enough documents.
fn are_few(segments: &[Segment]) -> bool
    ensures { (result ≡ true) ↔ (documents (all_rows (restored (lists_in segments.now))) ≤ most_documents) }
{
    let mut total = 0;
    let mut left = segments;
    while let Some((segment, rest)) = left.split_first() {
        let _schema = segment.schema();
        total += segment.documents();
        if total > MOST_DOCUMENTS {
            return false;
        }
        left = rest;
    }
    true
}

impl TsdsIndex {
    /// Whether an index can be restored of segments of a schema: they are 1 to 64, each has the series of the shard of its
    /// number alone, and together they have at most `MOST_DOCUMENTS` documents. Each key is looked at once.
    pub fn is_restorable(schema: &Schema, shards: &[Segment]) -> bool
        requires { IsRouted schema.now }
        ensures { (result ≡ true) ↔ IsRestorable schema.now shards.now }
    {
        if shards.is_empty() || shards.len() > MOST_SHARDS {
            return false;
        }
        are_few(shards) && are_routed(shards, schema)
    }
}
