//! Documents to rows.
ghost use Rattle.std.specs.Prelude.{◌≡◌, Bool, [], ◌∷◌, length, map, Some, false, IsSome, IfOk, IfErr, IfSome, OnOk, Ok};
ghost use Rattle.serde_json.specs.Data.{object};
ghost use Rattle.serde_json.specs.View.{view, members_view};
ghost use Rattle.row_cells.specs.Fitting.{CellsFit};
ghost use Rattle.time_text.specs.Instant.{IsInstant};
ghost use Rattle.json_walk.specs.Lent.{value_of};
ghost use Rattle.ts_mapping.specs.Schemas.{AreTemplateFields, IsTemplateSchema};
ghost use Rattle.synthetic_source.specs.Document.{IsFaultOf, document_cells, document_of};
ghost use Rattle.synthetic_source.specs.Faults.{HasNoFault, IsCellFault, IsFault, IsTimeFault, time_in, time_of};
ghost use Rattle.synthetic_source.specs.Flat.{IsSoundRow};
ghost use Rattle.synthetic_source.specs.Gathered.{AreTimed, slot_leaves};
ghost use Rattle.synthetic_source.specs.Times.{AllLent, IsFirstOf, IsRefusal, IsTimeFaultIn, lent_leaves};
ghost use Rattle.synthetic_source.specs.Outcomes.{IsDecided, IsOutcome, IsSettled, IsWithin};
ghost use Rattle.synthetic_source.specs.Rows.{IsTyped, cells_of};
ghost use Rattle.synthetic_source.specs.Walked.{seen_fault, seen_walk};
ghost use Rattle.synthetic_source.specs.Strays.{seen_stray};

use crate::errors::{DocError, DocKind};
use crate::flat::{Flat, read_flat};
use crate::reading::{Cells, read_cells};
use crate::strays::LeastFault;
use crate::walking::{Walk, walk_document};
use edge_face::{NoMemory, Text};
use json_walk::{Leaf, leaves_at};
use row_cells::{Cell, Field, FieldType, Scalar, Schema};
use serde_json::{Map, Value};
use sqlite_items::Items;
use std::alloc::Global;
use std::str::from_utf8;
use ts_mapping::read_scalar;

/// A document by the fields of a schema: its time in milliseconds since 1970 began, in UTC, and a cell for each field. The cell
/// of `@timestamp` is absent.
#[derive(Debug, Drop)]
pub struct Typed {
    pub time: i64,
    pub cells: Items<Cell>,
}

const TIMESTAMP: &str = "@timestamp";

fn refused(alloc: Global, kind: DocKind, path: &str) -> DocError
    ensures { IsRefusal kind path.now result }
{
    match Text::new(alloc, path) {
        Ok(path) => DocError::Refused { kind, path },
        Err(_) => DocError::NoMemory,
    }
}

// The time that a leaf is.
fn time_of_leaf(alloc: Global, leaf: &Value) -> Result<i64, DocError>
    ensures ok { IfOk result (λ time. time_in (view leaf.now ∷ []) ≡ Some time) }
    ensures fits { IfOk result IsInstant }
    ensures refused { IfErr result (IsTimeFaultIn (view leaf.now ∷ [])) }
{
    let Ok(read) = read_scalar(alloc, FieldType::Date, leaf) else {
        return Err(DocError::NoMemory);
    };
    match read {
        Some(Scalar::Whole(time)) => Ok(time),
        _ => Err(refused(alloc, DocKind::BadTime, TIMESTAMP)),
    }
}

// The time of the leaves at `@timestamp`.
#[tactic(auto, using(crate::proofs::Times::two_bad))]
fn time_of_leaves(alloc: Global, found: &[Leaf<'_>]) -> Result<i64, DocError>
    requires { AllLent found.now }
    ensures ok { IfOk result (λ time. time_in (lent_leaves found.now) ≡ Some time) }
    ensures fits { IfOk result IsInstant }
    ensures refused { IfErr result (IsTimeFaultIn (lent_leaves found.now)) }
{
    match found {
        [] => Err(refused(alloc, DocKind::NoTime, TIMESTAMP)),
        [leaf] => match leaf.value() {
            Some(value) => time_of_leaf(alloc, value),
            None => Err(refused(alloc, DocKind::NoTime, TIMESTAMP)),
        },
        _ => Err(refused(alloc, DocKind::BadTime, TIMESTAMP)),
    }
}

/// The time of a document: its one leaf at `@timestamp`, an instant. `NoTime` where there is no leaf, `BadTime` where there are
/// more or it is no instant, both at the path `@timestamp`.
#[tactic(auto, using(crate::proofs::Times::lent_all, crate::proofs::Times::lent_same), unfolding(crate::specs::Faults::time_of, crate::specs::Faults::time_fault))]
pub fn read_time(alloc: Global, doc: &Value) -> Result<i64, DocError>
    ensures ok { IfOk result (λ time. time_of (view doc.now) ≡ Some time) }
    ensures fits { IfOk result IsInstant }
    ensures refused { IfErr result (IsTimeFault (view doc.now)) }
{
    let Ok(found) = leaves_at(alloc, doc, TIMESTAMP, &[]) else {
        return Err(DocError::NoMemory);
    };
    let time = time_of_leaves(alloc, found.as_slice())?;
    Ok(time)
}

/// A fault where no field is.
#[derive(Clone, Copy)]
pub struct Stray<'f> {
    pub kind: DocKind,
    pub path: &'f str,
}

// The path of a fault is a text, since names are.
fn lend_fault(least: &Option<LeastFault>) -> Result<Option<Stray<'_>>, NoMemory>
    ensures { IfOk result (λ stray. seen_stray stray ≡ seen_fault least.now) }
{
    match least {
        None => Ok(None),
        Some(fault) => match from_utf8(fault.path.as_slice()) {
            Ok(path) => Ok(Some(Stray {
                kind: fault.kind,
                path,
            })),
            Err(_) => Err(NoMemory),
        },
    }
}

// The first of the faults of a field and where no field is.
fn first_fault(alloc: Global, kind: DocKind, path: &str, stray: Option<Stray<'_>>) -> DocError
    ensures { IsFirstOf kind path.now stray.entry result }
{
    match stray {
        None => refused(alloc, kind, path),
        Some(stray) => {
            if stray.path < path {
                return refused(alloc, stray.kind, stray.path);
            }
            refused(alloc, kind, path)
        }
    }
}

// The cells, or the first fault of a document but for its time's.
#[derive(Drop)]
enum Outcome {
    Row(Items<Cell>),
    Fault(DocError),
}

fn decide(alloc: Global, fields: &[Field], cells: Cells, stray: Option<Stray<'_>>) -> Outcome
    requires { IsWithin fields.now cells }
    ensures { IsDecided fields.now cells stray.entry result }
{
    match cells {
        Cells::FaultAt(at, kind) => {
            let path = fields[at].path.as_str();
            Outcome::Fault(first_fault(alloc, kind, path, stray))
        }
        Cells::All(cells) => match stray {
            None => Outcome::Row(cells),
            Some(stray) => Outcome::Fault(refused(alloc, stray.kind, stray.path)),
        },
    }
}

fn settle(alloc: Global, fields: &[Field], walk: &Walk<'_>) -> Result<Outcome, NoMemory>
    requires fields { AreTemplateFields fields.now }
    requires long { length walk.now.slots.items ≡ length fields.now }
    requires timed { AreTimed fields.now (map slot_leaves walk.now.slots.items) }
    ensures { IfOk result (IsSettled fields.now (seen_walk walk.now)) }
{
    let stray = lend_fault(&walk.strays.least)?;
    let cells = read_cells(alloc, fields, walk.slots.as_slice())?;
    Ok(decide(alloc, fields, cells, stray))
}

fn outcome_of(
    alloc: Global,
    schema: &Schema,
    strict: bool,
    doc: &Value,
) -> Result<Outcome, NoMemory>
    requires schema { IsTemplateSchema schema.now }
    requires timed { IsSome (time_of (view doc.now)) }
    ensures { IfOk result (IsOutcome schema.now strict (view doc.now)) }
{
    let fields = schema.fields.as_slice();
    let walk = walk_document(alloc, strict, fields, doc)?;
    let outcome = settle(alloc, fields, &walk)?;
    Ok(outcome)
}

// The row of an object's members, where they are flat and have a time.
#[tactic(auto, using(crate::proofs::FlatDocuments::timed_row))]
fn row_of_members(
    alloc: Global,
    schema: &Schema,
    _strict: bool,
    members: &Map<String, Value>,
) -> Result<Option<Typed>, NoMemory>
    requires { IsTemplateSchema schema.now }
    ensures { IfOk result (λ row. IfSome row (IsSoundRow schema.now _strict (object (members_view members.now.entries)))) }
{
    let fields = schema.fields.as_slice();
    match read_flat(alloc, fields, members)? {
        None => Ok(None),
        Some(flat) => Ok(timed(flat)),
    }
}

// The row of a document, where it is flat and has a time: it has no fault then, whether mappings are strict or not.
fn flat_row(
    alloc: Global,
    schema: &Schema,
    strict: bool,
    doc: &Value,
) -> Result<Option<Typed>, NoMemory>
    requires { IsTemplateSchema schema.now }
    ensures { IfOk result (λ row. IfSome row (IsSoundRow schema.now strict (view doc.now))) }
{
    match doc {
        Value::Object(members) => row_of_members(alloc, schema, strict, members),
        _ => Ok(None),
    }
}

// What was read of a document, where it has a time.
fn timed(flat: Flat) -> Option<Typed>
    ensures { IfSome result (λ typed. (flat.time ≡ Some typed.time) × (flat.cells ≡ typed.cells)) }
{
    let Flat { time, cells } = flat;
    match time {
        None => None,
        Some(time) => Some(Typed { time, cells }),
    }
}

fn cells_alone(typed: Typed) -> Items<Cell>
    ensures { result ≡ typed.cells }
{
    let Typed { time: _, cells } = typed;
    cells
}

fn walk_cells(
    alloc: Global,
    schema: &Schema,
    strict: bool,
    doc: &Value,
) -> Result<Items<Cell>, DocError>
    requires schema { IsTemplateSchema schema.now }
    requires timed { IsSome (time_of (view doc.now)) }
    ensures sound { OnOk result (HasNoFault schema.now strict (view doc.now)) }
    ensures cells { IfOk result (λ cells. cells ≡ cells_of schema.now (view doc.now)) }
    ensures fits { IfOk result (λ cells. CellsFit false schema.now.rises 1 schema.now.fields cells) }
    ensures refused { IfErr result (IsCellFault schema.now strict (view doc.now)) }
{
    let Ok(outcome) = outcome_of(alloc, schema, strict, doc) else {
        return Err(DocError::NoMemory);
    };
    match outcome {
        Outcome::Row(cells) => Ok(cells),
        Outcome::Fault(fault) => Err(fault),
    }
}

fn decide_cells(
    alloc: Global,
    schema: &Schema,
    strict: bool,
    doc: &Value,
) -> Result<Items<Cell>, DocError>
    requires schema { IsTemplateSchema schema.now }
    requires timed { IsSome (time_of (view doc.now)) }
    ensures sound { OnOk result (HasNoFault schema.now strict (view doc.now)) }
    ensures cells { IfOk result (λ cells. cells ≡ cells_of schema.now (view doc.now)) }
    ensures fits { IfOk result (λ cells. CellsFit false schema.now.rises 1 schema.now.fields cells) }
    ensures refused { IfErr result (IsCellFault schema.now strict (view doc.now)) }
{
    let Ok(row) = flat_row(alloc, schema, strict, doc) else {
        return Err(DocError::NoMemory);
    };
    match row {
        Some(typed) => Ok(cells_alone(typed)),
        None => walk_cells(alloc, schema, strict, doc),
    }
}

/// The cells of a document, whose time was read before: for each field of a schema one, as in `type_doc`, or the fault at the
/// first path in byte order that has one.
#[tactic(auto, using(crate::proofs::Decided::cells_are, crate::proofs::Decided::cell_fault_is))]
pub fn type_cells(
    alloc: Global,
    schema: &Schema,
    strict: bool,
    doc: &Value,
) -> Result<Items<Cell>, DocError>
    requires schema { IsTemplateSchema schema.now }
    requires timed { IsSome (time_of (view doc.now)) }
    ensures cells { IfOk result (λ cells. document_cells schema.now strict (view doc.now) ≡ Ok cells) }
    ensures fault { IfErr result (IsFaultOf (document_cells schema.now strict (view doc.now))) }
    ensures fits { IfOk result (λ cells. CellsFit false schema.now.rises 1 schema.now.fields cells) }
{
    match decide_cells(alloc, schema, strict, doc) {
        Ok(cells) => Ok(cells),
        Err(fault) => Err(fault),
    }
}

fn walk_doc(alloc: Global, schema: &Schema, strict: bool, doc: &Value) -> Result<Typed, DocError>
    requires { IsTemplateSchema schema.now }
    ensures ok { IfOk result (IsTyped schema.now strict (view doc.now)) }
    ensures fits { IfOk result (λ typed. IsInstant typed.time × CellsFit false schema.now.rises 1 schema.now.fields typed.cells) }
    ensures refused { IfErr result (IsFault schema.now strict (view doc.now)) }
{
    let time = read_time(alloc, doc)?;
    let Ok(outcome) = outcome_of(alloc, schema, strict, doc) else {
        return Err(DocError::NoMemory);
    };
    match outcome {
        Outcome::Row(cells) => Ok(Typed { time, cells }),
        Outcome::Fault(fault) => Err(fault),
    }
}

fn decide_doc(alloc: Global, schema: &Schema, strict: bool, doc: &Value) -> Result<Typed, DocError>
    requires { IsTemplateSchema schema.now }
    ensures ok { IfOk result (IsTyped schema.now strict (view doc.now)) }
    ensures fits { IfOk result (λ typed. IsInstant typed.time × CellsFit false schema.now.rises 1 schema.now.fields typed.cells) }
    ensures refused { IfErr result (IsFault schema.now strict (view doc.now)) }
{
    let Ok(row) = flat_row(alloc, schema, strict, doc) else {
        return Err(DocError::NoMemory);
    };
    match row {
        Some(typed) => Ok(typed),
        None => walk_doc(alloc, schema, strict, doc),
    }
}

/// A document by the fields of a schema: its time, and a cell for each field. Values of labels are in order, texts among them
/// once.
///
/// It is refused where the time is at fault as `read_time` says, and else at the first path in byte order that has a fault:
/// `Unmapped`, `NotLeaf`, `WrongType`, `ManyValues` or `BadAggregate`. `strict` tells whether a leaf where no field is is a
/// fault.
#[tactic(auto, using(crate::proofs::Decided::typed_is, crate::proofs::Decided::fault_is))]
pub fn type_doc(
    alloc: Global,
    schema: &Schema,
    strict: bool,
    doc: &Value,
) -> Result<Typed, DocError>
    requires { IsTemplateSchema schema.now }
    ensures row { IfOk result (λ typed. document_of schema.now strict (view doc.now) ≡ Ok typed) }
    ensures fault { IfErr result (IsFaultOf (document_of schema.now strict (view doc.now))) }
    ensures ok { IfOk result (IsTyped schema.now strict (view doc.now)) }
    ensures fits { IfOk result (λ typed. IsInstant typed.time × CellsFit false schema.now.rises 1 schema.now.fields typed.cells) }
    ensures refused { IfErr result (IsFault schema.now strict (view doc.now)) }
{
    match decide_doc(alloc, schema, strict, doc) {
        Ok(typed) => Ok(typed),
        Err(fault) => Err(fault),
    }
}
