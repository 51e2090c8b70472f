//! Columns of any kind.
ghost use Rattle.std.specs.Prelude.{◌≡◌, ℕ, ◌^◌, ◌<◌, ◌≤◌, ◌++◌, List, length, min, take, IfOk, Err};
ghost use Rattle.fold_law.specs.Laws.{fold_of, reach_of_items};
ghost use Rattle.fold_law.specs.Gauges.{no_gauge, merge_gauges, gauge_of_one, reach_of_gauge};
ghost use Rattle.column_block.specs.Columned.{values_in};
ghost use Rattle.column_block.specs.Rules.{KeepsRules, IsColumnOf, rows_of};
ghost use Rattle.column_block.specs.Spelling.{Spells};
ghost use Rattle.column_block.specs.Ranges.{rows_between, parts_of};
ghost use Rattle.column_block.specs.declared.kinds.Values.{Values};

use crate::kinds::{ColumnError, ColumnKind, Values};
use crate::number_rows::NumberRows;
use crate::parts_column::PartsColumn;
use crate::whole::WholeColumn;
use crate::words::TextRows;
use edge_face::NoMemory;
use fold_law::{Fold, Gauge, Parts};
use std::alloc::Global;
use std::marker::Model;

/// The packed form of each kind of column.
#[derive(Debug, Drop)]
enum Packed {
    Whole(WholeColumn),
    Parts(PartsColumn),
    Wholes(NumberRows),
    Words(TextRows),
}

/// A column: the values of its rows, packed.
#[derive(Debug, Drop)]
pub struct Column {
    packed: Packed,
}

impl Model for Column {
    ghost use Rattle.column_block.specs.declared.kinds.Values.{Values};
    ghost use Rattle.column_block.specs.Columned.{values_in};

    ghost Value = { Values };

    ghost view = { λ column. values_in column.packed };
}

/// A column that bytes begin with, and how many bytes it takes.
#[derive(Debug, Drop)]
pub struct ReadColumn {
    pub column: Column,
    pub used: u64,
}

/// A range of rows that are there.
#[derive(Clone, Copy, Debug)]
struct Range {
    from: usize,
    to: usize,
}

/// The rows of a range that are among so many.
fn clamp(from: u32, to: u32, len: usize) -> Range
    ensures order { result.from ≤ result.to }
    ensures within { result.to ≤ len }
    ensures from { result.from ≡ min from (min to len) }
    ensures to { result.to ≡ min to len }
{
    let to = (to as usize).min(len);
    let from = (from as usize).min(to);
    Range { from, to }
}

/// Packs values of a kind.
fn pack(alloc: Global, values: &Values) -> Result<Packed, NoMemory>
    requires rules { KeepsRules values.now }
    requires rows { rows_of values.now < 2 ^ 32 }
    ensures { IfOk result (λ packed. values_in packed ≡ values.now) }
{
    match values {
        Values::Whole(rows) => Ok(Packed::Whole(WholeColumn::build(alloc, rows.as_slice())?)),
        Values::Parts(rows) => Ok(Packed::Parts(PartsColumn::build(alloc, rows.as_slice())?)),
        Values::Wholes(rows) => Ok(Packed::Wholes(NumberRows::build(alloc, rows.as_slice())?)),
        Values::Words(rows) => Ok(Packed::Words(TextRows::build(alloc, rows.as_slice())?)),
    }
}

/// The packed form that bytes begin with, and how many bytes it takes.
#[derive(Debug, Drop)]
struct ReadPacked {
    packed: Packed,
    used: usize,
}

/// Reads the packed form of a kind.
fn unpack(
    alloc: Global,
    kind: ColumnKind,
    rows: usize,
    bytes: &[u8],
) -> Result<ReadPacked, ColumnError>
    requires { rows < 2 ^ 32 }
    ensures column { IfOk result (λ read. IsColumnOf kind rows (values_in read.packed)) }
    ensures used { IfOk result (λ read. read.used ≤ length bytes.now) }
    ensures spelled { IfOk result (λ read. Spells (values_in read.packed) (take read.used bytes.now)) }
    ensures bad { result ≡ Err ColumnError.BadColumn → (vs : Values) (spelling rest : List ℕ) → IsColumnOf kind rows vs → Spells vs spelling → bytes.now ≡ spelling ++ rest → ⊥ }
{
    match kind {
        ColumnKind::Whole => match WholeColumn::read(alloc, rows, bytes) {
            Ok(read) => Ok(ReadPacked {
                packed: Packed::Whole(read.column),
                used: read.used,
            }),
            Err(error) => Err(error),
        },
        ColumnKind::Parts => match PartsColumn::read(alloc, rows, bytes) {
            Ok(read) => Ok(ReadPacked {
                packed: Packed::Parts(read.column),
                used: read.used,
            }),
            Err(error) => Err(error),
        },
        ColumnKind::Wholes => match NumberRows::read(alloc, rows, bytes) {
            Ok(read) => Ok(ReadPacked {
                packed: Packed::Wholes(read.column),
                used: read.used,
            }),
            Err(error) => Err(error),
        },
        ColumnKind::Words => match TextRows::read(alloc, rows, bytes) {
            Ok(read) => Ok(ReadPacked {
                packed: Packed::Words(read.column),
                used: read.used,
            }),
            Err(error) => Err(error),
        },
    }
}

/// The bytes of a packed form.
fn bytes_of(packed: &Packed) -> &[u8]
    ensures { Spells (values_in packed.now) result.now }
{
    match packed {
        Packed::Whole(column) => column.bytes(),
        Packed::Parts(column) => column.bytes(),
        Packed::Wholes(column) => column.bytes(),
        Packed::Words(column) => column.bytes(),
    }
}

/// The number of rows of a packed form.
fn len_of(packed: &Packed) -> usize
    ensures { result ≡ rows_of (values_in packed.now) }
{
    match packed {
        Packed::Whole(column) => column.len(),
        Packed::Parts(column) => column.len(),
        Packed::Wholes(column) => column.len(),
        Packed::Words(column) => column.len(),
    }
}

/// The values of some rows that are there.
fn values_of(packed: &Packed, alloc: Global, range: Range) -> Result<Values, NoMemory>
    requires order { range.from ≤ range.to }
    requires within { range.to ≤ rows_of (values_in packed.now) }
    ensures { IfOk result (λ values. values ≡ rows_between range.from range.to (values_in packed.now)) }
{
    let Range { from, to } = range;
    match packed {
        Packed::Whole(column) => Ok(Values::Whole(column.values(alloc, from, to)?)),
        Packed::Parts(column) => Ok(Values::Parts(column.values(alloc, from, to)?)),
        Packed::Wholes(column) => Ok(Values::Wholes(column.values(alloc, from, to)?)),
        Packed::Words(column) => Ok(Values::Words(column.values(alloc, from, to)?)),
    }
}

/// The fold of the parts of some rows that are there.
fn fold_of_rows<F: Fold<Item = Parts>>(packed: &Packed, range: Range) -> F
    requires order { range.from ≤ range.to }
    requires within { range.to ≤ rows_of (values_in packed.now) }
    requires reach { reach_of_items F.reach F.one (parts_of (rows_between range.from range.to (values_in packed.now))) ≤ 2 ^ 120 }
    ensures { result ≡ fold_of F.none F.merge F.one (parts_of (rows_between range.from range.to (values_in packed.now))) }
{
    match packed {
        Packed::Whole(column) => column.fold_block(range.from, range.to),
        Packed::Parts(column) => column.fold_block(range.from, range.to),
        Packed::Wholes(_) => F::none(),
        Packed::Words(_) => F::none(),
    }
}

/// The gauge of some rows that are there.
fn gauge_of_rows(packed: &Packed, range: Range) -> Gauge
    requires order { range.from ≤ range.to }
    requires within { range.to ≤ rows_of (values_in packed.now) }
    ensures gauge { result ≡ fold_of no_gauge merge_gauges gauge_of_one (parts_of (rows_between range.from range.to (values_in packed.now))) }
    ensures reach { reach_of_items reach_of_gauge gauge_of_one (parts_of (rows_between range.from range.to (values_in packed.now))) ≤ 2 ^ 119 }
{
    match packed {
        Packed::Whole(column) => column.gauge(range.from, range.to),
        Packed::Parts(column) => column.gauge(range.from, range.to),
        Packed::Wholes(_) => Gauge::none(),
        Packed::Words(_) => Gauge::none(),
    }
}

impl Column {
    /// Packs the values of some rows.
    pub fn build(alloc: Global, values: &Values) -> Result<Column, NoMemory>
        requires rules { KeepsRules values.now }
        requires rows { rows_of values.now < 2 ^ 32 }
        ensures { IfOk result (λ column. column ≡ values.now) }
    {
        let packed = pack(alloc, values)?;
        Ok(Column { packed })
    }

    /// The column of a kind and so many rows that the bytes begin with. `BadColumn` exactly where they begin with none.
    pub fn read(
        alloc: Global,
        kind: ColumnKind,
        rows: u32,
        bytes: &[u8],
    ) -> Result<ReadColumn, ColumnError>
        ensures column { IfOk result (λ read. IsColumnOf kind rows read.column) }
        ensures used { IfOk result (λ read. read.used ≤ length bytes.now) }
        ensures spelled { IfOk result (λ read. Spells read.column (take read.used bytes.now)) }
        ensures bad { result ≡ Err ColumnError.BadColumn → (vs : Values) (spelling rest : List ℕ) → IsColumnOf kind rows vs → Spells vs spelling → bytes.now ≡ spelling ++ rest → ⊥ }
    {
        match unpack(alloc, kind, rows as usize, bytes) {
            Ok(ReadPacked { packed, used }) => {
                let column = Column { packed };
                let used = used as u64;
                Ok(ReadColumn { column, used })
            }
            Err(error) => Err(error),
        }
    }

    /// The bytes of the column: the one spelling of its values.
    pub fn bytes(&self) -> &[u8]
        ensures spelled { Spells self.now result.now }
        ensures one { (spelling : List ℕ) → Spells self.now spelling → result.now ≡ spelling }
    {
        bytes_of(&self.packed)
    }

    /// The values of the rows from a place up to another, which isn't one of them. Rows past the last aren't there.
    pub fn values(&self, alloc: Global, from: u32, to: u32) -> Result<Values, NoMemory>
        ensures { IfOk result (λ values. values ≡ rows_between from to self.now) }
    {
        let range = clamp(from, to, len_of(&self.packed));
        let values = values_of(&self.packed, alloc, range)?;
        Ok(values)
    }

    /// The fold of the parts of the present values of the rows from a place up to another. Lists have no parts.
    pub fn fold_block<F: Fold<Item = Parts>>(&self, from: u32, to: u32) -> F
        requires { reach_of_items F.reach F.one (parts_of (rows_between from to self.now)) ≤ 2 ^ 120 }
        ensures { result ≡ fold_of F.none F.merge F.one (parts_of (rows_between from to self.now)) }
    {
        let range = clamp(from, to, len_of(&self.packed));
        fold_of_rows(&self.packed, range)
    }

    /// The gauge of the same rows: what `fold_block` answers, but blocks that lie whole in the range are taken by their
    /// least, greatest and sum, without a list of their values.
    pub fn gauge(&self, from: u32, to: u32) -> Gauge
        ensures gauge { result ≡ fold_of no_gauge merge_gauges gauge_of_one (parts_of (rows_between from to self.now)) }
        ensures reach { reach_of_items reach_of_gauge gauge_of_one (parts_of (rows_between from to self.now)) ≤ 2 ^ 119 }
    {
        let range = clamp(from, to, len_of(&self.packed));
        gauge_of_rows(&self.packed, range)
    }
}
