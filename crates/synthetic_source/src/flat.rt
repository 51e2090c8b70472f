// Flat documents: objects whose members are single values at fields, in the order of the fields. Most documents are, and one walk over
// fields and members together makes their rows, with no list of leaves and no path.
ghost use Rattle.std.specs.Prelude.{◌≡◌, [], ◌∷◌, ◌++◌, None, Some, IfOk, IfSome, OnOk};
ghost use Rattle.serde_json.specs.View.{view, members_view};
ghost use Rattle.row_cells.specs.Fitting.{IsValueOf};
ghost use Rattle.ts_mapping.specs.Readings.{reading_of};
ghost use Rattle.synthetic_source.specs.Flat as spec;
ghost use Rattle.synthetic_source.specs.Flat.{AreFlat, IsAhead, members_ahead, value_cell};

use edge_face::NoMemory;
use row_cells::{Cell, Field, FieldType, Role, Scalar};
use serde_json::{Map, Value};
use sqlite_items::Items;
use std::alloc::Global;
use std::collections::btree_map::Iter;
use ts_mapping::read_scalar;

/// What was read of a flat document: its time, where a field is the time, and a cell for each field.
#[derive(Drop)]
pub struct Flat {
    pub time: Option<i64>,
    pub cells: Items<Cell>,
}

/// A member of a document.
type Member<'d> = (&'d String, &'d Value);

fn next_member<'d>(behind: &mut Iter<'d, String, Value>) -> Option<Member<'d>>
    ensures { members_ahead result behind.new ≡ members_view behind.old }
{
    behind.next()
}

// The leaf of a path, if the next member is that.
fn leaf_at<'d>(path: &[u8], next: Option<Member<'d>>) -> Option<&'d Value>
    ensures { IfSome result (λ leaf. IsAhead path.now (view leaf.now) next.entry) }
{
    match next {
        Some((name, leaf)) if name.as_bytes() == path => Some(leaf),
        _ => None,
    }
}

// The reading of a leaf that is a single value.
fn read_single(alloc: Global, kind: FieldType, leaf: &Value) -> Result<Option<Scalar>, NoMemory>
    ensures { IfOk result (λ read. IfSome read (λ v. (reading_of kind (view leaf.now) ≡ Some v) × IsValueOf kind v)) }
{
    match kind {
        FieldType::Aggregate => Ok(None),
        _ => read_scalar(alloc, kind, leaf),
    }
}

fn time_after(role: Role, value: &Scalar, before: Option<i64>) -> Option<i64>
    ensures { result ≡ spec.time_after role value.now before }
{
    match (role, value) {
        (Role::Time, Scalar::Whole(time)) => Some(*time),
        _ => before,
    }
}

fn push_value(
    alloc: Global,
    role: Role,
    value: Scalar,
    cells: &mut Vec<Cell>,
) -> Result<(), NoMemory>
    ensures { OnOk result (cells.new.items ≡ cells.old.items ++ value_cell role value ∷ []) }
{
    match role {
        Role::Time => cells.push(Cell::Absent)?,
        Role::Dimension | Role::Gauge | Role::Counter => cells.push(Cell::One(value))?,
        Role::Label => {
            let mut values = Vec::with_capacity(alloc, 1)?;
            values.push(value)?;
            cells.push(Cell::Many(Items::from_vec(values)))?;
        }
    }
    Ok(())
}

/// What a document's members are where it is flat, or None.
pub fn read_flat(
    alloc: Global,
    fields: &[Field],
    members: &Map<String, Value>,
) -> Result<Option<Flat>, NoMemory>
    ensures { IfOk result (λ read. IfSome read (λ flat.
        AreFlat fields.now (members_view members.now.entries) None flat.time flat.cells)) }
{
    let mut cells = Vec::with_capacity(alloc, fields.len())?;
    let mut time = None;
    let mut behind = members.iter();
    let mut next = next_member(&mut behind);
    for field in fields {
        match leaf_at(field.path.as_bytes(), next) {
            None => cells.push(Cell::Absent)?,
            Some(leaf) => match read_single(alloc, field.kind, leaf)? {
                None => return Ok(None),
                Some(value) => {
                    time = time_after(field.role, &value, time);
                    push_value(alloc, field.role, value, &mut cells)?;
                    next = next_member(&mut behind);
                }
            },
        }
    }
    match next {
        None => Ok(Some(Flat {
            time,
            cells: Items::from_vec(cells),
        })),
        Some(_) => Ok(None),
    }
}
