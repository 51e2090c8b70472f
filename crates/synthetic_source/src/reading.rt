// Leaves of a field as its cell.
ghost use Rattle.std.specs.Prelude.{◌≡◌, ◌<◌, [], ◌∷◌, ◌++◌, length, map, not, true, false, Some, IfOk, OnOk};
ghost use Rattle.serde_json.specs.View.{view};
ghost use Rattle.row_cells.specs.declared.schemas.FieldType.TheVariants.{Aggregate};
ghost use Rattle.row_cells.specs.declared.schemas.Role.{Role};
ghost use Rattle.row_cells.specs.declared.schemas.Role.TheVariants.{Label};
ghost use Rattle.ts_mapping.specs.Roles.{is_aggregate as aggregate, may_have};
ghost use Rattle.ts_mapping.specs.Schemas.{AreTemplateFields};
ghost use Rattle.synthetic_source.specs.Faults.{is_read as has_reading, mapped_fault, takes_one};
ghost use Rattle.synthetic_source.specs.Gathered.{AreReadAs, AreTimed, IsReadAs, IsTimed, seen_leaves, slot_leaves};
ghost use Rattle.synthetic_source.specs.Rows.{readings_of};
ghost use Rattle.synthetic_source.specs.Readings.{AllValues, AreReadings, IsOneRead, any_unread, wrong_kind as wrong};

use crate::errors::DocKind;
use crate::gathering::{Slot, is_aggregate};
use crate::ordering::in_order;
use edge_face::NoMemory;
use row_cells::{Cell, Field, FieldType, Role, Scalar};
use serde_json::Value;
use sqlite_items::Items;
use std::alloc::Global;
use ts_mapping::{read_aggregate, read_scalar};

/// What the leaves of a field are.
#[derive(Drop)]
pub enum Read {
    Fault(DocKind),
    Good(Cell),
}

/// What the leaves of all fields are: the first fault with its field's place, or the cells.
#[derive(Drop)]
pub enum Cells {
    FaultAt(usize, DocKind),
    All(Items<Cell>),
}

fn wrong_kind(kind: FieldType) -> DocKind
    ensures { result ≡ wrong kind }
{
    if is_aggregate(kind) {
        DocKind::BadAggregate
    } else {
        DocKind::WrongType
    }
}

fn read_parts(leaf: &Value) -> Read
    ensures { IsOneRead Aggregate (view leaf.now) result }
{
    match read_aggregate(leaf) {
        Some(parts) => Read::Good(Cell::Gauge(parts)),
        None => Read::Fault(DocKind::BadAggregate),
    }
}

fn read_value(alloc: Global, kind: FieldType, leaf: &Value) -> Result<Read, NoMemory>
    requires { aggregate kind ≡ false }
    ensures { IfOk result (IsOneRead kind (view leaf.now)) }
{
    match read_scalar(alloc, kind, leaf)? {
        Some(value) => Ok(Read::Good(Cell::One(value))),
        None => Ok(Read::Fault(DocKind::WrongType)),
    }
}

fn read_one(alloc: Global, kind: FieldType, leaf: &Value) -> Result<Read, NoMemory>
    ensures { IfOk result (IsOneRead kind (view leaf.now)) }
{
    match kind {
        FieldType::Aggregate => Ok(read_parts(leaf)),
        _ => read_value(alloc, kind, leaf),
    }
}

// Adds the reading of a leaf, where it has one.
#[tactic(auto, using(crate::proofs::Values::all_push))]
fn push_reading(
    alloc: Global,
    kind: FieldType,
    leaf: &Value,
    values: &mut Vec<Scalar>,
) -> Result<bool, NoMemory>
    requires plain { aggregate kind ≡ false }
    requires values { AllValues kind values.old.items }
    ensures read { IfOk result (λ read. read ≡ has_reading kind (view leaf.now)) }
    ensures value { OnOk result (values.new.items ≡ values.old.items ++ readings_of kind (view leaf.now ∷ [])) }
    ensures fit { OnOk result (AllValues kind values.new.items) }
{
    match read_scalar(alloc, kind, leaf)? {
        None => Ok(false),
        Some(value) => {
            values.push(value)?;
            Ok(true)
        }
    }
}

// Adds the readings of leaves, and tells whether each has one.
fn push_readings(
    alloc: Global,
    kind: FieldType,
    leaves: &[&Value],
    values: &mut Vec<Scalar>,
) -> Result<bool, NoMemory>
    requires plain { aggregate kind ≡ false }
    requires values { AllValues kind values.old.items }
    ensures read { IfOk result (λ read. read ≡ not (any_unread kind (seen_leaves leaves.now))) }
    ensures value { IfOk result (λ read. read ≡ true → values.new.items ≡ values.old.items ++ readings_of kind (seen_leaves leaves.now)) }
    ensures fit { OnOk result (AllValues kind values.new.items) }
{
    for leaf in leaves {
        if !push_reading(alloc, kind, leaf, values)? {
            return Ok(false);
        }
    }
    Ok(true)
}

// The readings of the leaves, where each has one.
fn read_all(
    alloc: Global,
    kind: FieldType,
    first: &Value,
    more: &[&Value],
) -> Result<Option<Vec<Scalar>>, NoMemory>
    requires { aggregate kind ≡ false }
    ensures { IfOk result (AreReadings kind (view first.now ∷ seen_leaves more.now)) }
{
    let mut values = Vec::with_capacity(alloc, 1)?;
    if !push_reading(alloc, kind, first, &mut values)? {
        return Ok(None);
    }
    if !push_readings(alloc, kind, more, &mut values)? {
        return Ok(None);
    }
    Ok(Some(values))
}

#[tactic(auto, using(crate::proofs::Values::ordered_fits))]
fn read_list(
    alloc: Global,
    kind: FieldType,
    first: &Value,
    more: &[&Value],
) -> Result<Read, NoMemory>
    requires { aggregate kind ≡ false }
    ensures { IfOk result (IsReadAs kind Label (view first.now ∷ seen_leaves more.now)) }
{
    match read_all(alloc, kind, first, more)? {
        None => Ok(Read::Fault(DocKind::WrongType)),
        Some(values) => {
            let values = in_order(alloc, kind, values)?;
            Ok(Read::Good(Cell::Many(values)))
        }
    }
}

fn is_read(alloc: Global, kind: FieldType, leaf: &Value) -> Result<bool, NoMemory>
    ensures { IfOk result (λ read. read ≡ has_reading kind (view leaf.now)) }
{
    match kind {
        FieldType::Aggregate => Ok(read_aggregate(leaf).is_some()),
        _ => Ok(read_scalar(alloc, kind, leaf)?.is_some()),
    }
}

fn are_read(alloc: Global, kind: FieldType, leaves: &[&Value]) -> Result<bool, NoMemory>
    ensures { IfOk result (λ read. read ≡ not (any_unread kind (seen_leaves leaves.now))) }
{
    for leaf in leaves {
        if !is_read(alloc, kind, leaf)? {
            return Ok(false);
        }
    }
    Ok(true)
}

// What two or more leaves are where one is taken: a fault.
fn fault_of_many(
    alloc: Global,
    kind: FieldType,
    first: &Value,
    more: &[&Value],
) -> Result<DocKind, NoMemory>
    requires { 0 < length more.now }
    ensures { IfOk result (λ fault. (role : Role) → takes_one role ≡ true → mapped_fault kind role (view first.now ∷ seen_leaves more.now) ≡ Some fault) }
{
    if !is_read(alloc, kind, first)? {
        return Ok(wrong_kind(kind));
    }
    if !are_read(alloc, kind, more)? {
        return Ok(wrong_kind(kind));
    }
    Ok(DocKind::ManyValues)
}

#[tactic(auto, using(crate::proofs::Cells::one_as))]
fn read_taken(
    alloc: Global,
    kind: FieldType,
    role: Role,
    first: &Value,
    more: &[&Value],
) -> Result<Read, NoMemory>
    requires role { may_have kind role ≡ true }
    requires taken { takes_one role ≡ true }
    ensures { IfOk result (IsReadAs kind role (view first.now ∷ seen_leaves more.now)) }
{
    if more.is_empty() {
        let read = read_one(alloc, kind, first)?;
        return Ok(read);
    }
    let fault = fault_of_many(alloc, kind, first, more)?;
    Ok(Read::Fault(fault))
}

#[tactic(auto, using(crate::proofs::Cells::absent_time))]
fn read_leaves(
    alloc: Global,
    kind: FieldType,
    role: Role,
    first: &Value,
    more: &[&Value],
) -> Result<Read, NoMemory>
    requires role { may_have kind role ≡ true }
    requires timed { IsTimed kind role (view first.now ∷ seen_leaves more.now) }
    ensures { IfOk result (IsReadAs kind role (view first.now ∷ seen_leaves more.now)) }
{
    match role {
        Role::Time => Ok(Read::Good(Cell::Absent)),
        Role::Label => read_list(alloc, kind, first, more),
        Role::Dimension => read_taken(alloc, kind, role, first, more),
        Role::Gauge => read_taken(alloc, kind, role, first, more),
        Role::Counter => read_taken(alloc, kind, role, first, more),
    }
}

fn read_cell(alloc: Global, field: &Field, slot: &Slot<'_>) -> Result<Read, NoMemory>
    requires role { may_have field.now.kind field.now.role ≡ true }
    requires timed { IsTimed field.now.kind field.now.role (slot_leaves slot.now) }
    ensures { IfOk result (IsReadAs field.now.kind field.now.role (slot_leaves slot.now)) }
{
    match slot.first {
        None => Ok(Read::Good(Cell::Absent)),
        Some(first) => {
            let read = read_leaves(alloc, field.kind, field.role, first, slot.more.as_slice())?;
            Ok(read)
        }
    }
}

/// The cells of all fields, or the first fault in the order of the fields. The time was read before.
pub fn read_cells(alloc: Global, fields: &[Field], slots: &[Slot<'_>]) -> Result<Cells, NoMemory>
    requires fields { AreTemplateFields fields.now }
    requires long { length slots.now ≡ length fields.now }
    requires timed { AreTimed fields.now (map slot_leaves slots.now) }
    ensures { IfOk result (AreReadAs fields.now (map slot_leaves slots.now)) }
{
    let mut cells = Vec::with_capacity(alloc, fields.len())?;
    for i in 0..fields.len() {
        let read = read_cell(alloc, &fields[i], &slots[i])?;
        match read {
            Read::Fault(kind) => return Ok(Cells::FaultAt(i, kind)),
            Read::Good(cell) => cells.push(cell)?,
        }
    }
    Ok(Cells::All(Items::from_vec(cells)))
}
