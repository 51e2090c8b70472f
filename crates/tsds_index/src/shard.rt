//! A shard: sealed segments, and a write buffer.
ghost use Rattle.std.specs.Prelude.{◌≡◌, ◌+◌, ◌^◌, ◌≤◌, ◌<◌, ◌++◌, [], false, length, take, drop, IfOk, IsTrue, OnOk, OnErr};
ghost use Rattle.fold_law.specs.Gauges.{reach_of_gauge};
ghost use Rattle.fold_law.specs.Laws.{reach_of_items};
ghost use Rattle.row_cells.specs.Each.{Each};
ghost use Rattle.row_cells.specs.KeyedRows.{AreRowsOf, IsRowOf};
ghost use Rattle.row_cells.specs.Limits.{most_documents};
ghost use Rattle.row_cells.specs.Mapped.{IsMapped};
ghost use Rattle.row_cells.specs.RowLists.{AreDistinct, documents, has_place, in_row_order, insert_row};
ghost use Rattle.index_segment.specs.Looks.{IsGaugeAt, gauge_at, gauge_of, rows_within};
ghost use Rattle.index_segment.specs.Spelling.{IsSegmentOf};
ghost use Rattle.tsds_index.specs.Answers.{row_at};
ghost use Rattle.std.specs.Option.{option_copied};
ghost use Rattle.tsds_index.specs.Nexts.{IsNext};
ghost use Rattle.tsds_index.specs.Limits.{longest_buffer};
ghost use Rattle.tsds_index.specs.Sealing.{sealed_at, with_room, with_row};
ghost use Rattle.tsds_index.specs.Spread.{newest_first, rows_in};

use crate::buffer::{Buffer, LONGEST_BUFFER};
use crate::counts::{count_sealed, rows_between};
use crate::gauges::{with_rows, with_sealed};
use crate::looks::{find_sealed, has_sealed};
use crate::scans::{copy_rows, scan_sealed};
use crate::sealing::{joined, place_to_join, replace_from};
use crate::series::{key_behind, lesser, next_sealed};
use edge_face::{Bytes, NoMemory};
use fold_law::{Fold, Gauge};
use index_segment::Segment;
use row_cells::{Key, Row, Schema, copy_row};
use std::alloc::Global;

/// The rows of the series that go to a shard.
#[derive(Debug, Drop)]
pub struct Shard {
    /// The oldest first.
    pub(crate) sealed: Vec<Segment>,
    pub(crate) buffer: Buffer,
}

impl Shard {
    ghost use Rattle.tsds_index.specs.Shards.{IsShard, part_of};

    /// A shard without rows.
    pub fn new(alloc: Global) -> Shard
        ensures segments { result.sealed.items ≡ [] }
        ensures rows { result.buffer ≡ [] }
    {
        Shard {
            sealed: Vec::new(alloc),
            buffer: Buffer::new(alloc),
        }
    }

    /// Whether a sealed row is of a series and a time.
    fn has_sealed(&self, key: &Key, time: i64) -> bool
        ensures { result ≡ has_place key.now time (newest_first (part_of self.now).sealed) }
    {
        has_sealed(self.sealed.as_slice(), key, time)
    }

    /// Whether a row is of a series and a time.
    pub fn has(&self, key: &Key, time: i64) -> bool
        ensures { result ≡ has_place key.now time (rows_in (part_of self.now)) }
    {
        match self.buffer.find(key, time) {
            Some(_) => true,
            None => self.has_sealed(key, time),
        }
    }

    /// A copy of the row of a series and a time.
    pub fn get(&self, alloc: Global, key: &Key, time: i64) -> Result<Option<Row>, NoMemory>
        ensures { IfOk result (λ found. found ≡ row_at key.now time (rows_in (part_of self.now))) }
    {
        match self.buffer.find(key, time) {
            Some(row) => Ok(Some(copy_row(alloc, row)?)),
            None => {
                let found = find_sealed(alloc, self.sealed.as_slice(), key, time)?;
                Ok(found)
            }
        }
    }

    /// Copies of the rows of a series from a time up to another, which isn't in it, list by list.
    pub fn rows_within(
        &self,
        alloc: Global,
        key: &Key,
        from: i64,
        to: i64,
    ) -> Result<Vec<Row>, NoMemory>
        ensures { IfOk result (λ rows. rows.items ≡ rows_within key.now from to (rows_in (part_of self.now))) }
    {
        let mut rows = Vec::new(alloc);
        let waiting = rows_between(self.buffer.rows(), key, from, to);
        copy_rows(alloc, waiting, &mut rows)?;
        scan_sealed(alloc, self.sealed.as_slice(), key, from, to, &mut rows)?;
        Ok(rows)
    }

    /// The gauge of the rows of a series from a time up to another, which isn't in it.
    pub fn gauge(&self, key: &Key, field: u32, from: i64, to: i64) -> Gauge
        requires fields { Each (λ segment. IsGaugeAt segment.schema.fields field) self.now.sealed.items }
        requires room { reach_of_items reach_of_gauge (gauge_at field) (rows_in (part_of self.now)) ≤ 2 ^ 120 }
        ensures { result ≡ gauge_of field (rows_within key.now from to (rows_in (part_of self.now))) }
    {
        let rows = rows_between(self.buffer.rows(), key, from, to);
        let waiting = with_rows(Gauge::none(), rows, key, field, from, to);
        with_sealed(waiting, self.sealed.as_slice(), key, field, from, to)
    }

    /// How many rows of a series there are from a time up to another, which isn't in it.
    pub fn row_count(&self, key: &Key, from: i64, to: i64) -> u64
        requires { length (rows_in (part_of self.now)) ≤ most_documents }
        ensures { result ≡ length (rows_within key.now from to (rows_in (part_of self.now))) }
    {
        let waiting = rows_between(self.buffer.rows(), key, from, to);
        count_sealed(waiting.len() as u64, self.sealed.as_slice(), key, from, to)
    }

    /// The least key of a series behind another.
    pub fn key_behind(&self, before: Option<&Key>) -> Option<&Key>
        ensures { IsNext (option_copied before.entry) (rows_in (part_of self.now)) (option_copied result) }
    {
        let waiting = key_behind(self.buffer.rows(), before);
        let sealed = next_sealed(self.sealed.as_slice(), before);
        lesser(waiting, sealed)
    }

    /// Whether all rows are in one segment.
    fn is_sealed(&self) -> bool
        ensures one { IsTrue result → length self.now.sealed.items ≡ 1 }
        ensures empty { IsTrue result → self.now.buffer ≡ [] }
    {
        self.sealed.len() == 1 && self.buffer.rows().is_empty()
    }

    /// The bytes of one segment with all rows.
    pub fn bytes(&self, alloc: Global, schema: &Schema) -> Result<Bytes, NoMemory>
        requires mapped { IsMapped schema.now }
        requires shard { IsShard schema.now self.now }
        ensures { IfOk result (λ bytes. IsSegmentOf schema.now (in_row_order (rows_in (part_of self.now))) bytes) }
    {
        if self.is_sealed() {
            let bytes = self.sealed[0].bytes(alloc)?;
            return Ok(bytes);
        }
        let segment = joined(alloc, schema, self.sealed.as_slice(), self.buffer.rows())?;
        let bytes = segment.bytes(alloc)?;
        Ok(bytes)
    }

    /// Makes one segment of those from a place on and the buffer.
    pub fn seal_from(
        &mut self,
        alloc: Global,
        schema: &Schema,
        first: usize,
    ) -> Result<(), NoMemory>
        requires mapped { IsMapped schema.now }
        requires shard { IsShard schema.now self.old }
        requires within { first ≤ length self.old.sealed.items }
        ensures rows { in_row_order (rows_in (part_of self.new)) ≡ in_row_order (rows_in (part_of self.old)) }
        ensures shard { IsShard schema.now self.new }
        ensures part { OnOk result (part_of self.new ≡ sealed_at first (part_of self.old)) }
        ensures one { OnOk result (length self.new.sealed.items ≡ first + 1) }
        ensures empty { OnOk result (self.new.buffer ≡ []) }
    {
        let (_, newer) = self.sealed.as_slice().split_at(first);
        let segment = joined(alloc, schema, newer, self.buffer.rows())?;
        replace_from(&mut self.sealed, first, segment)?;
        self.buffer.clear(alloc);
        Ok(())
    }

    /// Seals a full buffer, with the newest segments that aren't much larger.
    fn make_room(&mut self, alloc: Global, schema: &Schema) -> Result<(), NoMemory>
        requires mapped { IsMapped schema.now }
        requires shard { IsShard schema.now self.old }
        ensures rows { in_row_order (rows_in (part_of self.new)) ≡ in_row_order (rows_in (part_of self.old)) }
        ensures shard { IsShard schema.now self.new }
        ensures part { OnOk result (part_of self.new ≡ with_room (part_of self.old)) }
        ensures room { OnOk result (length self.new.buffer < longest_buffer) }
    {
        if !self.buffer.is_full() {
            return Ok(());
        }
        let first = place_to_join(self.sealed.as_slice(), LONGEST_BUFFER);
        self.seal_from(alloc, schema, first)?;
        Ok(())
    }

    /// Puts a row. A full buffer is sealed before.
    pub fn put(&mut self, alloc: Global, schema: &Schema, row: Row) -> Result<(), NoMemory>
        requires mapped { IsMapped schema.now }
        requires shard { IsShard schema.now self.old }
        requires row { IsRowOf schema.now row }
        requires free { has_place row.key row.time (rows_in (part_of self.old)) ≡ false }
        requires few { documents (rows_in (part_of self.old)) + row.count ≤ most_documents }
        ensures ok { OnOk result (in_row_order (rows_in (part_of self.new)) ≡ insert_row row (in_row_order (rows_in (part_of self.old)))) }
        ensures err { OnErr result (in_row_order (rows_in (part_of self.new)) ≡ in_row_order (rows_in (part_of self.old))) }
        ensures part { OnOk result (part_of self.new ≡ with_row row (part_of self.old)) }
        ensures shard { IsShard schema.now self.new }
    {
        self.make_room(alloc, schema)?;
        self.buffer.put(row)?;
        Ok(())
    }

    /// Makes all rows one segment, where they aren't one yet.
    pub fn seal(&mut self, alloc: Global, schema: &Schema) -> Result<(), NoMemory>
        requires mapped { IsMapped schema.now }
        requires shard { IsShard schema.now self.old }
        ensures rows { in_row_order (rows_in (part_of self.new)) ≡ in_row_order (rows_in (part_of self.old)) }
        ensures shard { IsShard schema.now self.new }
        ensures one { OnOk result (length self.new.sealed.items ≡ 1) }
        ensures empty { OnOk result (self.new.buffer ≡ []) }
    {
        if self.is_sealed() {
            return Ok(());
        }
        self.seal_from(alloc, schema, 0)?;
        Ok(())
    }
}
