// The leaves of fields.
ghost use Rattle.std.specs.Prelude.{◌≡◌, [], ◌∷◌, ◌++◌, IfOk, OnOk, length, map};
ghost use Rattle.std.specs.Cmp.Lexicographic.{slice_cmp};
ghost use Rattle.std.specs.Ordering.{nat_cmp};
ghost use Rattle.row_cells.specs.Fitting.{FieldsAscend};
ghost use Rattle.serde_json.specs.View.{view};
ghost use Rattle.ts_mapping.specs.Roles as roles;
ghost use Rattle.synthetic_source.specs.Gathered.{by_field, place_of, slot_leaves};

use edge_face::{NoMemory, bytes_order};
use row_cells::{Field, FieldType};
use serde_json::Value;
use std::alloc::Global;
use std::cmp::Ordering;

/// The leaves of a field. Most fields have one, which takes no memory.
#[derive(Drop)]
pub struct Slot<'d> {
    pub first: Option<&'d Value>,
    pub more: Vec<&'d Value>,
}

pub fn is_aggregate(kind: FieldType) -> bool
    ensures { result ≡ roles.is_aggregate kind }
{
    match kind {
        FieldType::Aggregate => true,
        _ => false,
    }
}

/// The place of the field of a path. A document mostly has its leaves in the order of the fields, so the place after the one
/// before is looked at first.
pub fn find_field(fields: &[Field], path: &[u8], guess: usize) -> Option<usize>
    requires { FieldsAscend fields.now }
    ensures { result ≡ place_of path.now fields.now }
{
    if guess < fields.len() && fields[guess].path.as_bytes() == path {
        return Some(guess);
    }
    search_field(fields, path)
}

fn compare_path(field: &Field, path: &[u8]) -> Ordering
    ensures { result ≡ slice_cmp nat_cmp field.now.path path.now }
{
    bytes_order(field.path.as_bytes(), path)
}

/// The place of the field of a path.
pub fn search_field(fields: &[Field], path: &[u8]) -> Option<usize>
    requires { FieldsAscend fields.now }
    ensures { result ≡ place_of path.now fields.now }
{
    let mut low = 0;
    let mut high = fields.len();
    'search: while low < high {
        let middle = low + (high - low) / 2;
        match compare_path(&fields[middle], path) {
            Ordering::Less => low = middle + 1,
            Ordering::Equal => return Some(middle),
            Ordering::Greater => high = middle,
        }
    }
    None
}

pub fn put_leaf<'d>(slot: &mut Slot<'d>, leaf: &'d Value) -> Result<(), NoMemory>
    ensures { OnOk result (slot_leaves slot.new ≡ slot_leaves slot.old ++ view leaf.now ∷ []) }
{
    match slot.first {
        None => {
            slot.first = Some(leaf);
            slot.more.clear();
        }
        Some(_) => slot.more.push(leaf)?,
    }
    Ok(())
}

pub fn empty_slots<'d>(alloc: Global, fields: &[Field]) -> Result<Vec<Slot<'d>>, NoMemory>
    ensures leaves { IfOk result (λ slots. map slot_leaves slots.items ≡ by_field fields.now []) }
    ensures long { IfOk result (λ slots. length slots.items ≡ length fields.now) }
{
    let mut slots = Vec::with_capacity(alloc, fields.len())?;
    for _field in fields {
        slots.push(Slot {
            first: None,
            more: Vec::new(alloc),
        })?;
    }
    Ok(slots)
}
