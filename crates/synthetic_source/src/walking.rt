// One walk of a document: each leaf goes to its field, and of the leaves where no field is the least path that has a fault stays.
//
// The place is one list of bytes, a dot and a name for each level, which grows on the way down and shrinks on the way back. So a
// walk takes no more memory than the longest path of the document.
ghost use Rattle.std.specs.Prelude.{◌≡◌, ◌<◌, ◌∷◌, ◌++◌, IfOk, OnOk, length, Some, None};
ghost use Rattle.std.specs.Cmp.Lexicographic.{slice_cmp};
ghost use Rattle.std.specs.List.{slice_index_or};
ghost use Rattle.std.specs.Ordering.{nat_cmp};
ghost use Rattle.row_cells.specs.Fitting.{FieldsAscend};
ghost use Rattle.row_cells.specs.declared.schemas.Field.{Field};
ghost use Rattle.ts_mapping.specs.Roles as roles;
ghost use Rattle.ts_mapping.specs.Schemas.{AreTemplateFields};
ghost use Rattle.serde_json.specs.View.{view, items_view, members_view};
ghost use Rattle.json_walk.specs.Listed.{listed, listed_items, listed_members, placed};
ghost use Rattle.json_walk.specs.Path.{is_stop as stops_here};
ghost use Rattle.synthetic_source.specs.Faults.{stops_of};
ghost use Rattle.synthetic_source.specs.Fronts.{IsKnown, path_at};
ghost use Rattle.synthetic_source.specs.Walked.{after, here_of, nothing_held, seen_walk, with_entry};

use crate::errors::DocKind;
use crate::gathering::{Slot, empty_slots, find_field, is_aggregate, put_leaf, search_field};
use crate::strays::{Strays, enter, leave, note_stray};
use edge_face::NoMemory;
use row_cells::Field;
use serde_json::{Map, Value};
use std::alloc::Global;
use std::cmp::Ordering;

/// The leaves of each field, and the least path with a fault where no field is.
#[derive(Drop)]
pub struct Walk<'d> {
    pub slots: Vec<Slot<'d>>,
    pub strays: Strays,
    // The place of the field behind the one that had the last leaf.
    pub next: usize,
}

// Whether an object at the path is taken whole.
fn is_stop_at(fields: &[Field], place: &[u8]) -> bool
    requires { FieldsAscend fields.now }
    ensures { result ≡ stops_here (stops_of fields.now) (here_of place.now) }
{
    match place.split_first() {
        None => false,
        Some((_, path)) => has_aggregate(fields, path),
    }
}

fn has_aggregate(fields: &[Field], path: &[u8]) -> bool
    requires { FieldsAscend fields.now }
    ensures { result ≡ stops_here (stops_of fields.now) (Some path.now) }
{
    match search_field(fields, path) {
        None => false,
        Some(at) => is_aggregate_at(fields, at),
    }
}

fn is_aggregate_at(fields: &[Field], at: usize) -> bool
    requires { at < length fields.now }
    ensures { (d : Field) → result ≡ roles.is_aggregate (slice_index_or fields.now at d).kind }
{
    is_aggregate(fields[at].kind)
}

fn put_at<'d>(
    alloc: Global,
    strict: bool,
    fields: &[Field],
    value: &'d Value,
    path: &[u8],
    walk: &mut Walk<'d>,
) -> Result<(), NoMemory>
    requires ascend { FieldsAscend fields.now }
    requires fields { AreTemplateFields fields.now }
    requires long { length walk.old.slots.items ≡ length fields.now }
    requires known { IsKnown strict fields.now path.now walk.old.strays }
    ensures held { OnOk result (seen_walk walk.new ≡ with_entry strict fields.now (seen_walk walk.old) path.now (view value.now)) }
    ensures long { length walk.new.slots.items ≡ length walk.old.slots.items }
    ensures known { OnOk result (IsKnown strict fields.now path.now walk.new.strays) }
{
    if walk.strays.is_told {
        return Ok(());
    }
    match find_field(fields, path, walk.next) {
        None => note_stray(alloc, strict, fields, path, &mut walk.strays),
        Some(at) => {
            put_leaf(&mut walk.slots[at], value)?;
            walk.next = at.wrapping_add(1);
            Ok(())
        }
    }
}

fn put<'d>(
    alloc: Global,
    strict: bool,
    fields: &[Field],
    value: &'d Value,
    place: &[u8],
    walk: &mut Walk<'d>,
) -> Result<(), NoMemory>
    requires ascend { FieldsAscend fields.now }
    requires fields { AreTemplateFields fields.now }
    requires long { length walk.old.slots.items ≡ length fields.now }
    requires known { IsKnown strict fields.now (path_at place.now) walk.old.strays }
    ensures held { OnOk result (seen_walk walk.new ≡ after strict fields.now (seen_walk walk.old) (placed (here_of place.now) (view value.now))) }
    ensures long { length walk.new.slots.items ≡ length walk.old.slots.items }
    ensures known { OnOk result (IsKnown strict fields.now (path_at place.now) walk.new.strays) }
{
    match place.split_first() {
        None => Ok(()),
        Some((_, path)) => put_at(alloc, strict, fields, value, path, walk),
    }
}

#[cycle(walk)]
fn walk_value<'d>(
    alloc: Global,
    strict: bool,
    fields: &[Field],
    value: &'d Value,
    place: &mut Vec<u8>,
    walk: &mut Walk<'d>,
) -> Result<(), NoMemory>
    requires ascend { FieldsAscend fields.now }
    requires fields { AreTemplateFields fields.now }
    requires long { length walk.old.slots.items ≡ length fields.now }
    requires known { IsKnown strict fields.now (path_at place.old.items) walk.old.strays }
    ensures place { OnOk result (place.new.items ≡ place.old.items) }
    ensures held { OnOk result (seen_walk walk.new
        ≡ after strict fields.now (seen_walk walk.old) (listed (stops_of fields.now) (here_of place.old.items) (view value.now))) }
    ensures long { length walk.new.slots.items ≡ length walk.old.slots.items }
    ensures known { OnOk result (IsKnown strict fields.now (path_at place.new.items) walk.new.strays) }
{
    match value {
        Value::Null => Ok(()),
        Value::Bool(_) | Value::Number(_) | Value::String(_) => {
            put(alloc, strict, fields, value, place.as_slice(), walk)
        }
        Value::Array(items) => walk_items(alloc, strict, fields, items, place, walk),
        Value::Object(members) => {
            if is_stop_at(fields, place.as_slice()) {
                if members.is_empty() {
                    return Ok(());
                }
                return put(alloc, strict, fields, value, place.as_slice(), walk);
            }
            walk_members(alloc, strict, fields, members, place, walk)
        }
    }
}

#[cycle(walk)]
fn walk_items<'d>(
    alloc: Global,
    strict: bool,
    fields: &[Field],
    items: &'d Vec<Value>,
    place: &mut Vec<u8>,
    walk: &mut Walk<'d>,
) -> Result<(), NoMemory>
    requires ascend { FieldsAscend fields.now }
    requires fields { AreTemplateFields fields.now }
    requires long { length walk.old.slots.items ≡ length fields.now }
    requires known { IsKnown strict fields.now (path_at place.old.items) walk.old.strays }
    ensures place { OnOk result (place.new.items ≡ place.old.items) }
    ensures held { OnOk result (seen_walk walk.new
        ≡ after strict fields.now (seen_walk walk.old) (listed_items (stops_of fields.now) (here_of place.old.items) (items_view items.now.items))) }
    ensures long { length walk.new.slots.items ≡ length walk.old.slots.items }
    ensures known { OnOk result (IsKnown strict fields.now (path_at place.new.items) walk.new.strays) }
{
    for item in items {
        walk_value(alloc, strict, fields, item, place, walk)?;
    }
    Ok(())
}

#[cycle(walk)]
fn walk_members<'d>(
    alloc: Global,
    strict: bool,
    fields: &[Field],
    members: &'d Map<String, Value>,
    place: &mut Vec<u8>,
    walk: &mut Walk<'d>,
) -> Result<(), NoMemory>
    requires ascend { FieldsAscend fields.now }
    requires fields { AreTemplateFields fields.now }
    requires long { length walk.old.slots.items ≡ length fields.now }
    requires known { IsKnown strict fields.now (path_at place.old.items) walk.old.strays }
    ensures place { OnOk result (place.new.items ≡ place.old.items) }
    ensures held { OnOk result (seen_walk walk.new
        ≡ after strict fields.now (seen_walk walk.old) (listed_members (stops_of fields.now) (here_of place.old.items) (members_view members.now.entries))) }
    ensures long { length walk.new.slots.items ≡ length walk.old.slots.items }
    ensures known { OnOk result (IsKnown strict fields.now (path_at place.new.items) walk.new.strays) }
{
    let length = place.as_slice().len();
    for (name, member) in members.iter() {
        enter(name.as_str(), place, strict, fields, &mut walk.strays)?;
        walk_value(alloc, strict, fields, member, place, walk)?;
        leave(place, length, &mut walk.strays);
    }
    Ok(())
}

// How many bytes of a path find room at once.
const USUAL_PATH: usize = 32;

/// Walks a document once.
pub fn walk_document<'d>(
    alloc: Global,
    strict: bool,
    fields: &[Field],
    doc: &'d Value,
) -> Result<Walk<'d>, NoMemory>
    requires ascend { FieldsAscend fields.now }
    requires fields { AreTemplateFields fields.now }
    ensures long { IfOk result (λ w. length w.slots.items ≡ length fields.now) }
    ensures held { IfOk result (λ w. seen_walk w ≡ after strict fields.now (nothing_held fields.now) (listed (stops_of fields.now) None (view doc.now))) }
{
    let slots = empty_slots(alloc, fields)?;
    let mut walk = Walk {
        slots,
        strays: Strays::new(),
        next: 0,
    };
    let mut place = Vec::with_capacity(alloc, USUAL_PATH)?;
    walk_value(alloc, strict, fields, doc, &mut place, &mut walk)?;
    Ok(walk)
}
