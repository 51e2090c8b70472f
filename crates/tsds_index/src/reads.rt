//! What an index answers of its rows.
ghost use Rattle.std.specs.Prelude.{◌≡◌, length, IfOk};
ghost use Rattle.std.specs.Option.{option_copied};
ghost use Rattle.row_cells.specs.KeyedRows.{AreRowsOf};
ghost use Rattle.index_segment.specs.Directory.{keys_of};
ghost use Rattle.index_segment.specs.Looks.{IsGaugeAt, first_behind, gauge_of, rows_within};
ghost use Rattle.tsds_index.specs.Answers.{row_at};
ghost use Rattle.tsds_index.specs.Spread.{rows_of};

use crate::index::TsdsIndex;
use crate::ordering::in_order;
use crate::series::copy_key;
use crate::shards::next_of;
use edge_face::NoMemory;
use fold_law::Gauge;
use row_cells::{Key, Row};
use std::alloc::Global;

impl TsdsIndex {
    /// A copy of the row of a series and a time in milliseconds since 1970, or None exactly where there is none. The only
    /// error is a want of memory.
    pub fn get(&self, alloc: Global, key: &Key, time: i64) -> Result<Option<Row>, NoMemory>
        ensures { IfOk result (λ found. found ≡ row_at key.now time (rows_of self.now)) }
    {
        let shard = &self.shards[self.shard_at(key)];
        let found = shard.get(alloc, key, time)?;
        Ok(found)
    }

    /// The rows of a series from a time up to another, which isn't in it, in row order, so the latest come first. Times
    /// are milliseconds since 1970. The only error is a want of memory.
    pub fn read_series(
        &self,
        alloc: Global,
        key: &Key,
        from: i64,
        to: i64,
    ) -> Result<Vec<Row>, NoMemory>
        ensures is { IfOk result (λ rows. rows.items ≡ rows_within key.now from to (rows_of self.now)) }
        ensures rows { IfOk result (λ rows. AreRowsOf self.now.schema rows.items) }
    {
        let shard = &self.shards[self.shard_at(key)];
        let rows = shard.rows_within(alloc, key, from, to)?;
        let rows = in_order(rows)?;
        Ok(rows)
    }

    /// How many rows a series has from a time up to another, which isn't in it, in milliseconds since 1970. They are looked
    /// up by halves; no row is made, and no memory is taken.
    pub fn row_count(&self, key: &Key, from: i64, to: i64) -> u64
        ensures { result ≡ length (rows_within key.now from to (rows_of self.now)) }
    {
        let shard = &self.shards[self.shard_at(key)];
        shard.row_count(key, from, to)
    }

    /// The gauge of a series' rows from a time up to another, which isn't in it, in milliseconds since 1970. `field` is
    /// the place of a gauge among the schema's fields, from 0 on. The gauge of no values where there are none. Sealed rows
    /// are folded as they are packed: no row is made, and no memory is taken.
    pub fn gauge(&self, key: &Key, field: u32, from: i64, to: i64) -> Gauge
        requires { IsGaugeAt self.now.schema.fields field }
        ensures { result ≡ gauge_of field (rows_within key.now from to (rows_of self.now)) }
    {
        let shard = &self.shards[self.shard_at(key)];
        shard.gauge(key, field, from, to)
    }

    /// The first key of a series behind another, without a copy.
    pub(crate) fn key_behind(&self, before: Option<&Key>) -> Option<&Key>
        ensures { option_copied result ≡ first_behind (option_copied before.entry) (keys_of (rows_of self.now)) }
    {
        next_of(self.shards.as_slice(), before)
    }

    /// The first key of a series behind a key in byte order, whether or not there is such a series; the first of all where
    /// none is given. None where no key is behind it. The only error is a want of memory.
    pub fn series_after(&self, alloc: Global, key: Option<&Key>) -> Result<Option<Key>, NoMemory>
        ensures { IfOk result (λ next. next ≡ first_behind (option_copied key.entry) (keys_of (rows_of self.now))) }
    {
        let next = copy_key(alloc, self.key_behind(key))?;
        Ok(next)
    }
}
