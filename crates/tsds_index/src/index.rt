//! An index: its rows, spread over shards.
ghost use Rattle.std.specs.Prelude.{◌≡◌, ◌↔◌, ◌+◌, ◌<◌, ◌≤◌, ◌∷◌, [], true, false, length, replicate, IfErr, IfOk, OnOk, OnErr};
ghost use Rattle.row_cells.specs.KeyedRows.{AreRowsOf, IsRowOf};
ghost use Rattle.row_cells.specs.Limits.{most_documents};
ghost use Rattle.row_cells.specs.RowLists.{documents, has_place, insert_row};
ghost use Rattle.index_segment.specs.Directory.{keys_of};
ghost use Rattle.tsds_index.specs.Answers.{IsPut, IsRefusal, Keeps};
ghost use Rattle.tsds_index.specs.Limits.{most_shards};
ghost use Rattle.tsds_index.specs.Sealing.{parts_with};
ghost use Rattle.tsds_index.specs.Sound.{IsRouted, IsSpread, shard_for};
ghost use Rattle.tsds_index.specs.Spread.{no_part, rows_of};

use crate::refusal::PutError;
use crate::shard::Shard;
use crate::shards::{empty_shards, put_in};
use edge_face::NoMemory;
use row_cells::{Key, MOST_DOCUMENTS, Row, Schema, copy_row};
use shard_route::shard_of;
use std::alloc::Global;
use std::marker::Model;

/// The rows of an index, no two of one series and time. Each series has its shard; there the rows are in sealed segments,
/// the newest of them in a write buffer.
#[derive(Debug, Drop)]
pub struct TsdsIndex {
    pub(crate) schema: Schema,
    pub(crate) shards: Vec<Shard>,
    /// How many rows there are.
    pub(crate) rows: u64,
}

impl Model for TsdsIndex {
    ghost use Rattle.tsds_index.specs.Spread.{Spread};

    ghost Value = { Spread };

    ghost use Rattle.tsds_index.specs.Kept.{IsKept, spread_of};

    ghost view = { λ x. spread_of x.schema x.shards.items };

    ghost invariant = { λ x. IsKept x.schema x.shards.items x.rows };
}

impl TsdsIndex {
    /// An index without rows, of 1 to 64 shards. The schema is one of a template.
    pub fn new(alloc: Global, schema: Schema, shards: u32) -> Result<TsdsIndex, NoMemory>
        requires schema { IsRouted schema }
        requires some { 1 ≤ shards }
        requires few { shards ≤ most_shards }
        ensures made { IfOk result (λ index. index ≡ record { schema = schema; parts = replicate shards no_part }) }
        ensures empty { IfOk result (λ index. rows_of index ≡ []) }
    {
        let made = empty_shards(alloc, shards)?;
        Ok(TsdsIndex {
            schema,
            shards: made,
            rows: 0,
        })
    }

    /// The schema of the rows.
    pub fn schema(&self) -> &Schema
        ensures { result.now ≡ self.now.schema }
    {
        &self.schema
    }

    /// What is known of each index.
    pub fn holds(&self)
        ensures spread { IsSpread self.now }
        ensures rows { AreRowsOf self.now.schema (rows_of self.now) }
        ensures series { length (keys_of (rows_of self.now)) ≤ most_documents }
    {
        let _rows = self.rows;
    }

    /// How many rows there are.
    pub fn len(&self) -> u64
        ensures { result ≡ length (rows_of self.now) }
    {
        self.rows
    }

    /// How many shards there are: 1 to 64.
    pub fn shard_count(&self) -> u32
        ensures { result ≡ length self.now.parts }
    {
        self.shards.len() as u32
    }

    /// The shard of a series.
    pub(crate) fn shard_at(&self, key: &Key) -> usize
        ensures is { result ≡ shard_for self.now.schema (length self.now.parts) key.now }
        ensures within { result < length self.now.parts }
    {
        shard_of(key, &self.schema, self.shards.len() as u32) as usize
    }

    fn has(&self, key: &Key, time: i64) -> bool
        ensures { result ≡ has_place key.now time (rows_of self.now) }
    {
        let shard = self.shard_at(key);
        self.shards[shard].has(key, time)
    }

    /// Puts a row in a free place.
    fn add(&mut self, alloc: Global, row: &Row) -> Result<(), NoMemory>
        requires row { IsRowOf self.old.schema row.now }
        requires free { has_place row.now.key row.now.time (rows_of self.old) ≡ false }
        requires few { documents (rows_of self.old) + row.now.count ≤ most_documents }
        requires room { length (rows_of self.old) < most_documents }
        ensures kept { Keeps self.old self.new }
        ensures put { OnOk result (rows_of self.new ≡ insert_row row.now (rows_of self.old)) }
        ensures parts { OnOk result (self.new.parts ≡ parts_with row.now self.old) }
        ensures refused { OnErr result (rows_of self.new ≡ rows_of self.old) }
    {
        let shard = self.shard_at(&row.key);
        let row = copy_row(alloc, row)?;
        put_in(alloc, &self.schema, &mut self.shards, shard, row)?;
        self.rows += 1;
        Ok(())
    }

    /// Puts a row. The answer is `Duplicate` exactly where a row of its series and time was put, and else `Full` exactly
    /// where `MOST_DOCUMENTS` rows are there; both leave all as it is. No refusal changes the rows. The row goes to the write buffer of its shard; a
    /// full one is sealed before, together with the newest segments that have fewer than twice the rows behind them.
    pub fn put(&mut self, alloc: Global, row: &Row) -> Result<(), PutError>
        requires row { IsRowOf self.old.schema row.now }
        requires few { self.old.schema.folded ≡ true → documents (rows_of self.old) + row.now.count ≤ most_documents }
        ensures kept { Keeps self.old self.new }
        ensures put { OnOk result (IsPut row.now self.old self.new) }
        ensures parts { OnOk result (self.new.parts ≡ parts_with row.now self.old) }
        ensures refused { IfErr result (λ error. IsRefusal row.now (rows_of self.old) error) }
        ensures same { OnErr result (rows_of self.new ≡ rows_of self.old) }
        ensures untouched { IfErr result (λ error. (error ≡ PutError.NoMemory → ⊥) → self.new ≡ self.old) }
    {
        self.holds();
        if self.has(&row.key, row.time) {
            return Err(PutError::Duplicate);
        }
        if self.len() >= MOST_DOCUMENTS {
            return Err(PutError::Full);
        }
        match self.add(alloc, row) {
            Ok(()) => Ok(()),
            Err(NoMemory) => Err(PutError::NoMemory),
        }
    }
}
