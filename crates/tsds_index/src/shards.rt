//! Shards beside each other.
ghost use Rattle.std.specs.Prelude.{◌≡◌, ◌+◌, ◌<◌, ◌≤◌, ◌∷◌, [], false, length, replicate, IfOk, OnOk, OnErr};
ghost use Rattle.row_cells.specs.Each.{Each};
ghost use Rattle.row_cells.specs.KeyedRows.{IsRowOf};
ghost use Rattle.row_cells.specs.Limits.{most_documents};
ghost use Rattle.row_cells.specs.RowLists.{documents, has_place, in_row_order, insert_row};
ghost use Rattle.tsds_index.specs.Kept.{AreSealed, AreShards};
ghost use Rattle.std.specs.Option.{option_copied};
ghost use Rattle.tsds_index.specs.Nexts.{IsNext};
ghost use Rattle.tsds_index.specs.Sealing.{put_at};
ghost use Rattle.tsds_index.specs.Shards.{parts_of};
ghost use Rattle.tsds_index.specs.Sound.{shard_for};
ghost use Rattle.tsds_index.specs.Spread.{all_rows, no_part};

use crate::series::lesser;
use crate::shard::Shard;
use edge_face::NoMemory;
use row_cells::{Key, Row, Schema};
use std::alloc::Global;

/// So many shards without rows.
pub fn empty_shards(alloc: Global, shards: u32) -> Result<Vec<Shard>, NoMemory>
    ensures parts { IfOk result (λ made. parts_of made.items ≡ replicate shards no_part) }
    ensures unsealed { IfOk result (λ made. Each (λ shard. shard.sealed.items ≡ []) made.items) }
{
    let mut made = Vec::with_capacity(alloc, shards as usize)?;
    let mut left = shards;
    while left > 0 {
        let shard = Shard::new(alloc);
        made.push(shard)?;
        left -= 1;
    }
    Ok(made)
}

/// Puts a row of a series into its shard.
pub fn put_in(
    alloc: Global,
    schema: &Schema,
    shards: &mut Vec<Shard>,
    shard: usize,
    row: Row,
) -> Result<(), NoMemory>
    requires shards { AreShards schema.now shards.old.items }
    requires row { IsRowOf schema.now row }
    requires shard { shard ≡ shard_for schema.now (length shards.old.items) row.key }
    requires within { shard < length shards.old.items }
    requires free { has_place row.key row.time (all_rows (parts_of shards.old.items)) ≡ false }
    requires few { documents (all_rows (parts_of shards.old.items)) + row.count ≤ most_documents }
    ensures shards { AreShards schema.now shards.new.items }
    ensures as_many { length shards.new.items ≡ length shards.old.items }
    ensures ok { OnOk result (in_row_order (all_rows (parts_of shards.new.items)) ≡ insert_row row (in_row_order (all_rows (parts_of shards.old.items)))) }
    ensures err { OnErr result (in_row_order (all_rows (parts_of shards.new.items)) ≡ in_row_order (all_rows (parts_of shards.old.items))) }
    ensures part { OnOk result (parts_of shards.new.items ≡ put_at shard row (parts_of shards.old.items)) }
{
    let one = &mut shards[shard];
    one.put(alloc, schema, row)?;
    Ok(())
}

/// Makes each shard one segment.
pub fn seal_all(alloc: Global, schema: &Schema, shards: &mut Vec<Shard>) -> Result<(), NoMemory>
    requires { AreShards schema.now shards.old.items }
    ensures shards { AreShards schema.now shards.new.items }
    ensures as_many { length shards.new.items ≡ length shards.old.items }
    ensures rows { in_row_order (all_rows (parts_of shards.new.items)) ≡ in_row_order (all_rows (parts_of shards.old.items)) }
    ensures sealed { OnOk result (AreSealed shards.new.items) }
{
    for place in 0..shards.len() {
        let one = &mut shards[place];
        one.seal(alloc, schema)?;
    }
    Ok(())
}

/// The least key of a series behind another.
pub fn next_of<'a>(shards: &'a [Shard], before: Option<&Key>) -> Option<&'a Key>
    ensures { IsNext (option_copied before.entry) (all_rows (parts_of shards.now)) (option_copied result) }
{
    let mut least = None;
    let mut left = shards;
    while let Some((shard, rest)) = left.split_first() {
        let next = shard.key_behind(before);
        let lower = lesser(least, next);
        least = lower;
        left = rest;
    }
    least
}
