//! Sealed shards of an index, and an index of sealed shards.
ghost use Rattle.std.specs.Prelude.{◌≡◌, ◌<◌, ◌≤◌, length, IfOk, OnOk};
ghost use Rattle.row_cells.specs.Limits.{most_documents};
ghost use Rattle.row_cells.specs.RowLists.{documents, in_row_order};
ghost use Rattle.index_segment.specs.Spelling.{IsSegmentOf};
ghost use Rattle.tsds_index.specs.Answers.{AreRoutedFrom, IsSealed, Keeps, restored};
ghost use Rattle.tsds_index.specs.Limits.{most_shards};
ghost use Rattle.tsds_index.specs.Segments.{AreOfSchema, lists_in};
ghost use Rattle.tsds_index.specs.Spread.{all_rows, part_at, rows_in, rows_of};
ghost use Rattle.tsds_index.specs.Sound.{IsRouted};

use crate::index::TsdsIndex;
use crate::restoring::{are_known, count_rows, restore_shards};
use crate::shards::seal_all;
use edge_face::{Bytes, NoMemory};
use index_segment::Segment;
use row_cells::Schema;
use std::alloc::Global;

impl TsdsIndex {
    /// Makes each shard one segment and an empty buffer. The rows stay, also where there is no memory, which is the only
    /// error.
    pub fn seal(&mut self, alloc: Global) -> Result<(), NoMemory>
        ensures kept { Keeps self.old self.new }
        ensures rows { rows_of self.new ≡ rows_of self.old }
        ensures sealed { OnOk result (IsSealed self.new) }
    {
        seal_all(alloc, &self.schema, &mut self.shards)?;
        Ok(())
    }

    /// The segments of a shard, the oldest first. The shard is below their number.
    pub fn segments(&self, shard: u32) -> &[Segment]
        requires { shard < length self.now.parts }
        ensures rows { lists_in result.now ≡ (part_at self.now shard).sealed }
        ensures schemas { AreOfSchema self.now.schema result.now }
    {
        let one = &self.shards[shard as usize];
        one.sealed.as_slice()
    }

    /// How many rows wait in the write buffer of a shard. The shard is below their number.
    pub fn buffered(&self, shard: u32) -> u64
        requires { shard < length self.now.parts }
        ensures { result ≡ length (part_at self.now shard).buffer }
    {
        let one = &self.shards[shard as usize];
        one.buffer.rows().len() as u64
    }

    /// The bytes of one segment with the rows of a shard. The shard is below their number. The only error is a want of
    /// memory.
    pub fn shard_bytes(&self, alloc: Global, shard: u32) -> Result<Bytes, NoMemory>
        requires { shard < length self.now.parts }
        ensures { IfOk result (λ bytes. IsSegmentOf self.now.schema (in_row_order (rows_in (part_at self.now shard))) bytes) }
    {
        let one = &self.shards[shard as usize];
        let bytes = one.bytes(alloc, &self.schema)?;
        Ok(bytes)
    }

    /// An index of segments, one for each shard: 1 to 64 of the schema, each with the series of its shard alone. The only
    /// error is a want of memory.
    pub fn restore(
        alloc: Global,
        schema: Schema,
        shards: Vec<Segment>,
    ) -> Result<TsdsIndex, NoMemory>
        requires schema { IsRouted schema }
        requires some { 1 ≤ length shards.items }
        requires few_shards { length shards.items ≤ most_shards }
        requires schemas { AreOfSchema schema shards.items }
        requires routed { AreRoutedFrom schema (length shards.items) 0 (lists_in shards.items) }
        requires few { documents (all_rows (restored (lists_in shards.items))) ≤ most_documents }
        ensures { IfOk result (λ index. index ≡ record { schema = schema; parts = restored (lists_in shards.items) }) }
    {
        are_known(shards.as_slice());
        let rows = count_rows(shards.as_slice());
        let made = restore_shards(alloc, shards)?;
        Ok(TsdsIndex {
            schema,
            shards: made,
            rows,
        })
    }
}
