//! The form of all properties of a body, looked at in one walk.
//!
//! Where the path of a property is longer than a field's may be, the walk doesn't go on: all that is at fault inside stands
//! behind the property itself, which is at fault for its path. So no path that is compared or copied is long.
ghost use Rattle.std.specs.Prelude.{◌≡◌, IsSome, OnOk, bytes_eq};
ghost use Rattle.serde_json.specs.View.{members_view, view};
ghost use Rattle.ts_mapping.specs.Least.{all_faults, least_with};
ghost use Rattle.ts_mapping.specs.Properties as spec;
ghost use Rattle.ts_mapping.specs.Shapes.{property_faults};
ghost use Rattle.ts_mapping.specs.Walks.{text_at};

use crate::body::mappings;
use crate::least::Least;
use crate::sent_settings::text_of;
use crate::shapes::check_property;
use crate::trees::member;
use edge_face::NoMemory;
use json_walk::Place;
use row_cells::LONGEST_PATH;
use serde_json::{Map, Value};
use std::alloc::Global;

#[cycle(check)]
fn check_at(
    alloc: Global,
    value: &Value,
    place: &mut Place,
    path: &mut Place,
    least: &mut Least,
) -> Result<(), NoMemory>
    requires place { IsSome place.old }
    requires path { IsSome path.old }
    ensures place { OnOk result (place.new ≡ place.old) }
    ensures path { OnOk result (path.new ≡ path.old) }
    ensures least { OnOk result (least.new
        ≡ least_with least.old (all_faults property_faults (spec.property_at (text_at place.old) (text_at path.old) (view value.now)))) }
{
    if text_of(path).len() > LONGEST_PATH {
        return least.note(alloc, text_of(place));
    }
    check_property(alloc, value, text_of(place), text_of(path), least)?;
    match value {
        Value::Object(members) => check_inside(alloc, members, place, path, least),
        Value::Null | Value::Bool(_) | Value::Number(_) | Value::String(_) | Value::Array(_) => {
            Ok(())
        }
    }
}

#[cycle(check)]
fn check_inside(
    alloc: Global,
    members: &Map<String, Value>,
    place: &mut Place,
    path: &mut Place,
    least: &mut Least,
) -> Result<(), NoMemory>
    requires place { IsSome place.old }
    requires path { IsSome path.old }
    ensures place { OnOk result (place.new ≡ place.old) }
    ensures path { OnOk result (path.new ≡ path.old) }
    ensures least { OnOk result (least.new
        ≡ least_with least.old (all_faults property_faults (spec.inside (text_at place.old) (text_at path.old) (members_view members.now.entries)))) }
{
    for (name, member) in members.iter() {
        if name.as_str() == "properties" {
            place.enter(name.as_str())?;
            check_list(alloc, member, place, path, least)?;
            place.leave(name.as_str());
        }
    }
    Ok(())
}

#[cycle(check)]
fn check_list(
    alloc: Global,
    value: &Value,
    place: &mut Place,
    path: &mut Place,
    least: &mut Least,
) -> Result<(), NoMemory>
    requires { IsSome place.old }
    ensures place { OnOk result (place.new ≡ place.old) }
    ensures path { OnOk result (path.new ≡ path.old) }
    ensures least { OnOk result (least.new
        ≡ least_with least.old (all_faults property_faults (spec.listed (text_at place.old) path.old (view value.now)))) }
{
    match value {
        Value::Object(members) => check_members(alloc, members, place, path, least),
        Value::Null | Value::Bool(_) | Value::Number(_) | Value::String(_) | Value::Array(_) => {
            Ok(())
        }
    }
}

#[cycle(check)]
fn check_members(
    alloc: Global,
    members: &Map<String, Value>,
    place: &mut Place,
    path: &mut Place,
    least: &mut Least,
) -> Result<(), NoMemory>
    requires { IsSome place.old }
    ensures place { OnOk result (place.new ≡ place.old) }
    ensures path { OnOk result (path.new ≡ path.old) }
    ensures least { OnOk result (least.new
        ≡ least_with least.old (all_faults property_faults (spec.listed_members (text_at place.old) path.old (members_view members.now.entries)))) }
{
    for (name, member) in members.iter() {
        place.enter(name.as_str())?;
        path.enter(name.as_str())?;
        check_at(alloc, member, place, path, least)?;
        path.leave(name.as_str());
        place.leave(name.as_str());
    }
    Ok(())
}

/// Tells the properties of a body that are ill-formed.
#[tactic(auto, unfolding(crate::specs::Properties::properties_of))]
pub fn check_properties(alloc: Global, body: &Value, least: &mut Least) -> Result<(), NoMemory>
    ensures { OnOk result (least.new ≡ least_with least.old (all_faults property_faults (spec.properties_of (view body.now)))) }
{
    let mut place = Place::root(alloc)?;
    place.enter("template.mappings.properties")?;
    let mut path = Place::root(alloc)?;
    match member(mappings(body), "properties") {
        None => Ok(()),
        Some(value) => check_list(alloc, value, &mut place, &mut path, least),
    }
}
