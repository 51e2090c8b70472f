//! What a segment lends of its rows: its series and where they stand, times, counts of documents, and rows by place.
ghost use Rattle.std.specs.Prelude.{◌≡◌, ℕ, pos, ◌+◌, ◌-◌, ◌<◌, ◌≤◌, ◌++◌, List, [], length, slice_index, slice_index_or, slice_range, Some, IfOk, IfSome, IsNone, OnOk};
ghost use Rattle.std.specs.List.{slice_get};

use crate::forms::{columns_before, forms_of};
use crate::lookup::place_of;
use crate::scan::{Series, pull, push_rows};
use crate::segment::{Range, Segment, between_starts};
use column_block::Column;
use edge_face::NoMemory;
use row_cells::{Cell, Key, Row, Schema, heads_of};
use sqlite_items::Items;
use std::alloc::Global;

/// The last of some places that ascend which isn't behind a place. The first isn't behind it, and the last is.
fn last_start(starts: &[u32], place: usize) -> usize
    requires some { 1 < length starts.now }
    requires first { slice_index starts.now 0 ≤ place }
    requires last { place < slice_index starts.now (length starts.now - 1) }
    ensures within { result + 1 < length starts.now }
    ensures before { slice_index starts.now result ≤ place }
    ensures behind { place < slice_index starts.now (result + 1) }
{
    let mut low = 0;
    let mut high = starts.len() - 1;
    while low + 1 < high {
        let middle = low + (high - low) / 2;
        if starts[middle] as usize <= place {
            low = middle;
        } else {
            high = middle;
        }
    }
    low
}

fn columns_between(columns: &[Column], first: usize, last: usize) -> &[Column]
    requires order { first ≤ last }
    requires within { last ≤ length columns.now }
    ensures { result.now ≡ slice_range columns.now first last }
{
    &columns[first..last]
}

impl Segment {
    ghost use Rattle.index_segment.specs.Columns.{columns_at};
    ghost use Rattle.index_segment.specs.Directory.{keys_of, row_keys, sizes_of, total};
    ghost use Rattle.index_segment.specs.Held.{Held};
    ghost use Rattle.index_segment.specs.Looks.{IsRange};
    ghost use Rattle.index_segment.specs.Order.{NoneIs, Stands};
    ghost use Rattle.index_segment.specs.Spelling.{counts_of, times_of};
    ghost use Rattle.row_cells.specs.Heads.{heads_in};
    ghost use Rattle.row_cells.specs.KeyedRows.{AreRowsOf};
    ghost use Rattle.row_cells.specs.Mapped.{IsMapped};
    ghost use Rattle.row_cells.specs.RowLists.{documents};

    /// The schema of the rows. Whatever made the segment, the rows are those of an index of it.
    pub fn schema(&self) -> &Schema
        ensures is { result.now ≡ self.now.schema }
        ensures mapped { IsMapped self.now.schema }
        ensures rows { AreRowsOf self.now.schema self.now.rows }
    {
        &self.schema
    }

    /// How many rows there are.
    pub fn len(&self) -> usize
        ensures { result ≡ length self.now.rows }
    {
        self.times.len()
    }

    /// How many documents the rows stand for.
    pub fn documents(&self) -> u64
        ensures { result ≡ documents self.now.rows }
    {
        self.counts.sum().unsigned_abs() as u64
    }

    /// How many series there are.
    pub fn series_count(&self) -> usize
        ensures { result ≡ length (keys_of self.now.rows) }
    {
        self.keys.as_slice().len()
    }

    /// The key of a series, by its number in byte order from 0 on.
    pub fn key_at(&self, series: usize) -> &Key
        requires { series < length (keys_of self.now.rows) }
        ensures { result.now ≡ slice_index_or (keys_of self.now.rows) series [] }
    {
        &self.keys.as_slice()[series]
    }

    /// The number of the series with a key, or `None` exactly where there is none.
    pub fn series(&self, key: &Key) -> Option<usize>
        ensures some { IfSome result (λ series. slice_get (keys_of self.now.rows) series ≡ Some key.now) }
        ensures none { IsNone result → NoneIs (keys_of self.now.rows) key.now }
    {
        place_of(self.keys.as_slice(), key)
    }

    /// Where the rows of a series stand. They are some, and no other rows have their key.
    pub fn series_rows(&self, series: usize) -> Range
        requires { series < length (keys_of self.now.rows) }
        ensures first { result.first ≡ total series (sizes_of self.now.rows) }
        ensures last { result.last ≡ total (series + 1) (sizes_of self.now.rows) }
        ensures some { result.first < result.last }
        ensures stands { Stands (row_keys self.now.rows) (slice_index_or (keys_of self.now.rows) series []) result.first result.last }
    {
        between_starts(self.starts.as_slice(), series)
    }

    /// The time of the first row of a series, which is its latest, in milliseconds since 1970.
    pub fn latest(&self, series: usize) -> i64
        requires { series < length (keys_of self.now.rows) }
        ensures { result ≡ slice_index_or (times_of self.now.rows) (total series (sizes_of self.now.rows)) (pos 0) }
    {
        let rows = self.series_rows(series);
        self.times.at(rows.first)
    }

    /// The time of the last row of a series, which is its earliest, in milliseconds since 1970.
    pub fn earliest(&self, series: usize) -> i64
        requires { series < length (keys_of self.now.rows) }
        ensures { result ≡ slice_index_or (times_of self.now.rows) (total (series + 1) (sizes_of self.now.rows) - 1) (pos 0) }
    {
        let rows = self.series_rows(series);
        self.times.at(rows.last - 1)
    }

    /// Where the rows of a series from a time up to another, which isn't in it, stand. Times are milliseconds since
    /// 1970, and the latest row comes first.
    pub fn range(&self, series: usize, from: i64, to: i64) -> Range
        requires { series < length (keys_of self.now.rows) }
        ensures is { IsRange (slice_index_or (keys_of self.now.rows) series []) from to self.now.rows result.first result.last }
        ensures low { total series (sizes_of self.now.rows) ≤ result.first }
        ensures high { result.last ≤ total (series + 1) (sizes_of self.now.rows) }
    {
        let rows = self.series_rows(series);
        let mut times = self.times.cursor();
        let first = times.cut(rows.first, rows.last, to);
        let last = times.cut(first, rows.last, from);
        Range { first, last }
    }

    /// The times of the rows from a place up to another, in milliseconds since 1970.
    pub fn times(&self, alloc: Global, from: usize, to: usize) -> Result<Vec<i64>, NoMemory>
        ensures { IfOk result (λ times. times.items ≡ slice_range (times_of self.now.rows) from to) }
    {
        self.times.values(alloc, from, to)
    }

    /// How many documents each row from a place up to another stands for.
    pub fn counts(&self, alloc: Global, from: usize, to: usize) -> Result<Vec<i64>, NoMemory>
        ensures { IfOk result (λ counts. counts.items ≡ slice_range (counts_of self.now.rows) from to) }
    {
        self.counts.values(alloc, from, to)
    }

    /// The number of the series that the row at a place is of.
    pub fn series_at(&self, place: usize) -> usize
        requires { place < length self.now.rows }
        ensures within { result < length (keys_of self.now.rows) }
        ensures before { total result (sizes_of self.now.rows) ≤ place }
        ensures behind { place < total (result + 1) (sizes_of self.now.rows) }
    {
        last_start(self.starts.as_slice(), place)
    }

    /// The cells that the key of a series gives: those of its dimensions, and an absent one for each other field.
    pub fn heads(&self, alloc: Global, series: usize) -> Result<Items<Cell>, NoMemory>
        requires { series < length (keys_of self.now.rows) }
        ensures { IfOk result (λ heads. heads ≡ heads_in self.now.schema.fields (slice_index_or (keys_of self.now.rows) series [])) }
    {
        heads_of(
            alloc,
            self.schema.fields.as_slice(),
            self.key_at(series).bytes(),
        )
    }

    /// Pushes the rows from a place up to another, which are of one series.
    pub(crate) fn push_piece(
        &self,
        alloc: Global,
        series: usize,
        from: usize,
        to: usize,
        into: &mut Vec<Row>,
    ) -> Result<(), NoMemory>
        requires there { series < length (keys_of self.now.rows) }
        requires first { total series (sizes_of self.now.rows) ≤ from }
        requires order { from ≤ to }
        requires last { to ≤ total (series + 1) (sizes_of self.now.rows) }
        ensures { OnOk result (into.new.items ≡ into.old.items ++ slice_range self.now.rows from to) }
    {
        let forms = forms_of(alloc, &self.schema)?;
        let heads = self.heads(alloc, series)?;
        let times = self.times(alloc, from, to)?;
        let counts = self.counts(alloc, from, to)?;
        let columns = pull(alloc, self.columns.as_slice(), from as u32, to as u32)?;
        let series = Series {
            key: self.key_at(series),
            forms: forms.as_slice(),
            heads: heads.as_slice(),
        };
        push_rows(
            alloc,
            series,
            times.as_slice(),
            counts.as_slice(),
            columns.as_slice(),
            into,
        )
    }

    /// The rows from a place up to another. The only error is a want of memory.
    pub fn rows(&self, alloc: Global, from: usize, to: usize) -> Result<Vec<Row>, NoMemory>
        requires order { from ≤ to }
        requires within { to ≤ length self.now.rows }
        ensures { IfOk result (λ rows. rows.items ≡ slice_range self.now.rows from to) }
    {
        let mut rows = Vec::with_capacity(alloc, to - from)?;
        let mut at = from;
        while at < to {
            let series = self.series_at(at);
            let end = self.series_rows(series).last.min(to);
            self.push_piece(alloc, series, at, end, &mut rows)?;
            at = end;
        }
        Ok(rows)
    }

    /// The row at a place. The only error is a want of memory.
    pub fn row_at(&self, alloc: Global, place: usize) -> Result<Row, NoMemory>
        requires { place < length self.now.rows }
        ensures { IfOk result (λ row. slice_get self.now.rows place ≡ Some row) }
    {
        let mut rows = self.rows(alloc, place, self.len().min(place + 1))?;
        match rows.pop() {
            Some(row) => Ok(row),
            // There is exactly one.
            None => Err(NoMemory),
        }
    }

    /// The columns of a field, by its place among the schema's fields from 0 on: none for a time or a dimension, four
    /// for what a rising counter keeps when it is folded, and else one.
    pub fn columns_of(&self, field: u32) -> &[Column]
        requires { field < length self.now.schema.fields }
        ensures { result.now ≡ columns_at self.now.schema self.now.rows field }
    {
        let first = columns_before(&self.schema, field as usize);
        let last = columns_before(&self.schema, field as usize + 1);
        columns_between(self.columns.as_slice(), first, last)
    }
}
