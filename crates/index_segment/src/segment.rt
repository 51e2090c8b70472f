//! Sealed rows of a shard.
ghost use Rattle.std.specs.Prelude.{◌≡◌, ℕ, ◌+◌, ◌-◌, ◌*◌, ◌^◌, ◌<◌, ◌≤◌, ◌++◌, List, length, drop, position, [], slice_range, IfOk, IfSome, IsNone, Err, slice_index};
ghost use Rattle.std.specs.Int.{div_ceil};
ghost use Rattle.std.specs.Option.{option_copied};
ghost use Rattle.row_cells.specs.Mapped.{IsMapped};

use crate::build::{pack_columns, pack_counts, pack_times};
use crate::directory::{Directory, directory_of};
use crate::forms::{columns_before, forms_of};
use crate::lookup::place_behind;
use crate::read::{are_same, rows_in};
use crate::write::{put_columns, put_front};
use column_block::{Column, one_spelling};
use edge_face::{Bytes, NoMemory};
use fold_law::Gauge;
use packed_lists::{NumberList, Steps};
use row_cells::{Key, Row, Schema, copy_schema};
use sqlite_items::{Items, at};
use std::alloc::Global;
use std::marker::Model;
use std::sync::ledger::Ledger;
use thiserror::Error;

/// Places of rows, of which the last isn't one.
#[derive(Clone, Copy, Debug)]
pub struct Range {
    pub first: usize,
    pub last: usize,
}

/// From where a series begins up to where the next one does.
pub fn between_starts(starts: &[u32], series: usize) -> Range
    requires there { series + 1 < length starts.now }
    requires few { length starts.now < 2 ^ 33 }
    ensures first { result.first ≡ slice_index starts.now series }
    ensures last { result.last ≡ slice_index starts.now (series + 1) }
{
    Range {
        first: starts[series] as usize,
        last: starts[series + 1] as usize,
    }
}

/// Rows of one shard in row order, as packed columns. A series' key is kept once, beside how many rows stand
/// before it; times, counts of documents and the values of each field are columns.
#[derive(Debug, Drop)]
pub struct Segment {
    pub(crate) schema: Schema,
    pub(crate) keys: Items<Key>,
    /// How many rows stand before each series, and before the end.
    pub(crate) starts: Items<u32>,
    pub(crate) sizes: NumberList,
    pub(crate) times: NumberList,
    pub(crate) counts: NumberList,
    pub(crate) columns: Items<Column>,
}

impl Model for Segment {
    ghost use Rattle.index_segment.specs.Held.{Held, Packs, rows_held};

    ghost Value = { Held };

    ghost view = { λ s. record { schema = s.schema; rows = rows_held s.schema s.keys s.sizes s.times s.counts s.columns } };

    ghost invariant = { λ s. Packs s.schema (rows_held s.schema s.keys s.sizes s.times s.counts s.columns) s.keys s.starts s.sizes s.times s.counts s.columns };
}

/// Why no segment is read.
#[derive(Clone, Copy, Debug, PartialEq, Eq, Error)]
pub enum SegmentError {
    /// The bytes are no segment of the schema.
    #[error("no segment")]
    BadSegment,
    #[error("out of memory")]
    NoMemory,
}

impl Segment {
    ghost use Rattle.index_segment.specs.Held.{Held, Packs};
    ghost use Rattle.row_cells.specs.declared.rows.Row.{Row as SpecRow};
    ghost use Rattle.index_segment.specs.Directory.{keys_of, row_keys};
    ghost use Rattle.index_segment.specs.Looks.{IsGaugeAt, IsRange, first_behind, gauge_of, is_at, rows_within};
    ghost use Rattle.index_segment.specs.Order.{NoneIs, Stands};
    ghost use Rattle.row_cells.specs.KeyedRows.{AreRowsOf};
    ghost use Rattle.index_segment.specs.Spelling.{IsSegmentOf, IsFront, AreColumns};

    /// Packs rows of the schema in row order, no two of one series and time: at most `MOST_DOCUMENTS` documents, and at most
    /// `LONGEST_LIST` values in a label. The rows may be none. The only error is a want of memory.
    pub fn build(alloc: Global, schema: &Schema, rows: &[Row]) -> Result<Segment, NoMemory>
        requires mapped { IsMapped schema.now }
        requires rows { AreRowsOf schema.now rows.now }
        ensures { IfOk result (λ segment. segment ≡ record { schema = schema.now; rows = rows.now }) }
    {
        let forms = forms_of(alloc, schema)?;
        let directory = directory_of(alloc, rows)?;
        let sizes = NumberList::build(alloc, directory.sizes.as_slice())?;
        let times = pack_times(alloc, rows)?;
        let counts = pack_counts(alloc, rows)?;
        let columns = pack_columns(alloc, forms.as_slice(), rows)?;
        let schema = copy_schema(alloc, schema)?;
        let Directory {
            keys,
            starts,
            sizes: _,
        } = directory;
        Ok(Segment {
            schema,
            keys,
            starts,
            sizes,
            times,
            counts,
            columns,
        })
    }

    /// A segment, or None where the bytes are none.
    fn read_whole(alloc: Global, schema: &Schema, bytes: &[u8]) -> Result<Option<Segment>, NoMemory>
        requires mapped { IsMapped schema.now }
        ensures some { IfOk result (λ found. IfSome found (λ segment. (segment.schema ≡ schema.now) × IsSegmentOf schema.now segment.rows bytes.now)) }
        ensures none { IfOk result (λ found. IsNone found → (rows : List SpecRow) → IsSegmentOf schema.now rows bytes.now → ⊥) }
    {
        one_spelling();
        let Some(rows) = rows_in(alloc, schema, bytes)? else {
            return Ok(None);
        };
        let segment = Segment::build(alloc, schema, rows.as_slice())?;
        let spelled = segment.bytes(alloc)?;
        if !are_same(spelled.as_slice(), bytes) {
            return Ok(None);
        }
        Ok(Some(segment))
    }

    /// Reads all of the bytes as a segment of the schema. The answer is `BadSegment` only where they are none, and
    /// `NoMemory` says nothing of them. The rows are made, and spelled again, so that only the one spelling is taken.
    pub fn read(alloc: Global, schema: &Schema, bytes: &[u8]) -> Result<Segment, SegmentError>
        requires mapped { IsMapped schema.now }
        ensures read { IfOk result (λ segment. (segment.schema ≡ schema.now) × IsSegmentOf schema.now segment.rows bytes.now) }
        ensures bad { result ≡ Err SegmentError.BadSegment → (rows : List SpecRow) → IsSegmentOf schema.now rows bytes.now → ⊥ }
    {
        match Segment::read_whole(alloc, schema, bytes) {
            Ok(Some(segment)) => Ok(segment),
            Ok(None) => Err(SegmentError::BadSegment),
            Err(NoMemory) => Err(SegmentError::NoMemory),
        }
    }

    /// The bytes of the segment: the one spelling of its rows. The only error is a want of memory.
    pub fn bytes(&self, alloc: Global) -> Result<Bytes, NoMemory>
        ensures { IfOk result (λ bytes. IsSegmentOf self.now.schema self.now.rows bytes) }
    {
        let mut bytes = Vec::new(alloc);
        put_front(
            self.keys.as_slice(),
            &self.sizes,
            &self.times,
            &self.counts,
            &mut bytes,
        )?;
        put_columns(self.columns.as_slice(), &mut bytes)?;
        Ok(Bytes::from_vec(bytes))
    }

    /// The first key of a series behind a key in byte order, whether or not the segment has that key; the first of all
    /// where none is given. None where no key is behind it. The only error is a want of memory, for the copy.
    pub fn series_after(&self, alloc: Global, key: Option<&Key>) -> Result<Option<Key>, NoMemory>
        ensures { IfOk result (λ next. next ≡ first_behind (option_copied key.entry) (keys_of self.now.rows)) }
    {
        let keys = self.keys.as_slice();
        match at(keys, place_behind(keys, key)) {
            Some(next) => Ok(Some(next.copy(alloc)?)),
            None => Ok(None),
        }
    }

    /// The rows of the series with a key.
    fn rows_of_key(&self, key: &Key) -> Option<Range>
        ensures some { IfSome result (λ range. Stands (row_keys self.now.rows) key.now range.first range.last) }
        ensures none { IsNone result → NoneIs (row_keys self.now.rows) key.now }
    {
        let series = self.series(key)?;
        Some(self.series_rows(series))
    }

    /// The rows of the series with a key from a time up to another, which isn't in it.
    fn range_of_key(&self, key: &Key, from: i64, to: i64) -> Option<Range>
        ensures some { IfSome result (λ range. IsRange key.now from to self.now.rows range.first range.last) }
        ensures none { IsNone result → rows_within key.now from to self.now.rows ≡ [] }
    {
        let series = self.series(key)?;
        Some(self.range(series, from, to))
    }

    /// The rows of a series from a time up to another, which isn't in it, in row order, so the latest come first. Times
    /// are milliseconds since 1970. No rows where the segment has no such series. The only error is a want of memory.
    pub fn scan(&self, alloc: Global, key: &Key, from: i64, to: i64) -> Result<Vec<Row>, NoMemory>
        ensures { IfOk result (λ rows. rows.items ≡ rows_within key.now from to self.now.rows) }
    {
        let Some(series) = self.series(key) else {
            return Ok(Vec::new(alloc));
        };
        let range = self.range(series, from, to);
        let mut rows = Vec::with_capacity(alloc, range.last - range.first)?;
        self.push_piece(alloc, series, range.first, range.last, &mut rows)?;
        Ok(rows)
    }

    /// The gauge of the rows from a place up to another. `field` is the place of a gauge among the schema's fields, from 0
    /// on. The gauge of no values where there are none. The packed blocks are folded; no row is made, and no memory is
    /// taken.
    pub fn gauge_between(&self, field: u32, from: usize, to: usize) -> Gauge
        requires gauge { IsGaugeAt self.now.schema.fields field }
        requires order { from ≤ to }
        requires within { to ≤ length self.now.rows }
        ensures { result ≡ gauge_of field (slice_range self.now.rows from to) }
    {
        let place = columns_before(&self.schema, field as usize);
        match at(self.columns.as_slice(), place) {
            Some(column) => column.gauge(from as u32, to as u32),
            None => Gauge(None),
        }
    }

    /// The gauge of a series' rows from a time up to another, which isn't in it, in milliseconds since 1970. `field` is
    /// the place of a gauge among the schema's fields, from 0 on. The gauge of no values where there are none. The
    /// packed blocks are folded; no row is made, and no memory is taken.
    pub fn gauge(&self, key: &Key, field: u32, from: i64, to: i64) -> Gauge
        requires { IsGaugeAt self.now.schema.fields field }
        ensures { result ≡ gauge_of field (rows_within key.now from to self.now.rows) }
    {
        let Some(range) = self.range_of_key(key, from, to) else {
            return Gauge(None);
        };
        self.gauge_between(field, range.first, range.last)
    }

    /// The place among the segment's rows, from 0 on, of the row of a series and a time in milliseconds since 1970, or
    /// None exactly where there is none. Each block of times of which the header or the numbers are read is a step: they
    /// are at most as many as the number of blocks has binary digits, and one.
    pub fn find<L: Ledger>(&self, key: &Key, time: i64, steps: &mut Steps<L>) -> Option<u64>
        ensures found { result ≡ position (is_at key.now time) self.now.rows }
        ensures cost { let blocks = div_ceil (length self.now.rows) 128 in
            1 ≤ blocks → 2 ^ (steps.new - steps.old) ≤ 4 * blocks }
        ensures counted { steps.old ≤ steps.new }
    {
        let series = self.rows_of_key(key)?;
        let mut times = self.times.cursor();
        let place = times.cut_at(series.first, series.last, time, steps);
        if place == series.first {
            return None;
        }
        let last = place - 1;
        // The cut left the block of this row unpacked, so nothing more is read.
        if times.at(last) == time {
            Some(last as u64)
        } else {
            None
        }
    }

    /// The columns, in the order of the fields. Joined, their bytes are what stands in the segment's bytes behind
    /// the counts of documents.
    pub fn columns(&self) -> &[Column]
        ensures behind { (bytes front : List ℕ) → IsSegmentOf self.now.schema self.now.rows bytes → IsFront self.now.rows front → AreColumns result.now (drop (length front) bytes) }
        ensures split { (bytes : List ℕ) → IsSegmentOf self.now.schema self.now.rows bytes →
            (front back : List ℕ) × IsFront self.now.rows front × AreColumns result.now back × (bytes ≡ front ++ back) }
    {
        self.columns.as_slice()
    }
}
