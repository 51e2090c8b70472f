//! Shards of segments that were kept.
ghost use Rattle.std.specs.Prelude.{◌≡◌, ◌≤◌, ◌∷◌, [], length, map, IfOk};
ghost use Rattle.row_cells.specs.Each.{Each};
ghost use Rattle.row_cells.specs.KeyedRows.{AreRowsOf};
ghost use Rattle.row_cells.specs.Limits.{most_documents};
ghost use Rattle.tsds_index.specs.Answers.{restored};
ghost use Rattle.tsds_index.specs.Segments.{lists_in};
ghost use Rattle.tsds_index.specs.Spread.{all_rows};

use crate::buffer::Buffer;
use crate::shard::Shard;
use edge_face::NoMemory;
use index_segment::Segment;
use std::alloc::Global;

/// The rows of segments are those of an index of their schema.
pub fn are_known(segments: &[Segment])
    ensures { Each (λ segment. AreRowsOf segment.schema segment.rows) segments.now }
{
    let mut left = segments;
    while let Some((segment, rest)) = left.split_first() {
        let _schema = segment.schema();
        left = rest;
    }
}

/// How many rows segments have.
pub fn count_rows(segments: &[Segment]) -> u64
    requires { length (all_rows (restored (lists_in segments.now))) ≤ most_documents }
    ensures { result ≡ length (all_rows (restored (lists_in segments.now))) }
{
    let mut total = 0;
    let mut left = segments;
    while let Some((segment, rest)) = left.split_first() {
        total += segment.len() as u64;
        left = rest;
    }
    total
}

fn one_shard(alloc: Global, segment: Segment) -> Result<Shard, NoMemory>
    ensures sealed { IfOk result (λ shard. shard.sealed.items ≡ segment ∷ []) }
    ensures buffer { IfOk result (λ shard. shard.buffer ≡ []) }
{
    let mut sealed = Vec::with_capacity(alloc, 1)?;
    sealed.push(segment)?;
    Ok(Shard {
        sealed,
        buffer: Buffer::new(alloc),
    })
}

/// Shards of segments, one for each.
pub fn restore_shards(alloc: Global, segments: Vec<Segment>) -> Result<Vec<Shard>, NoMemory>
    ensures sealed { IfOk result (λ made. map (λ shard. shard.sealed.items) made.items ≡ map (λ segment. segment ∷ []) segments.items) }
    ensures buffers { IfOk result (λ made. Each (λ shard. shard.buffer ≡ []) made.items) }
{
    let mut made = Vec::with_capacity(alloc, segments.len())?;
    for segment in segments {
        let shard = one_shard(alloc, segment)?;
        made.push(shard)?;
    }
    Ok(made)
}
