//! The properties of a template's mappings that are fields, gathered in one walk.
ghost use Rattle.std.specs.Prelude.{◌≡◌, ◌++◌, IfOk, IsSome, None, OnOk, codes};
ghost use Rattle.serde_json.specs.View.{members_view, view};
ghost use Rattle.ts_mapping.specs.Faults.{leaves_of};
ghost use Rattle.ts_mapping.specs.Properties.{leaves_in, listed};
ghost use Rattle.ts_mapping.specs.Seen.{properties_seen};
ghost use Rattle.ts_mapping.specs.Walks as spec;
ghost use Rattle.ts_mapping.specs.Walks.{text_at};

use crate::body::mappings;
use crate::sent_settings::text_of;
use crate::trees::{has_member, member};
use edge_face::{NoMemory, Text};
use json_walk::Place;
use serde_json::{Map, Value};
use std::alloc::Global;

/// A property as it was sent.
#[derive(Drop)]
pub struct PropertyAt<'a> {
    /// The names that lead to it, joined by dots.
    pub path: Text,
    pub value: &'a Value,
}

/// Adds a property that is a field.
fn put<'a>(
    alloc: Global,
    value: &'a Value,
    path: &Place,
    found: &mut Vec<PropertyAt<'a>>,
) -> Result<(), NoMemory>
    ensures { OnOk result (properties_seen found.new.items
        ≡ properties_seen found.old.items ++ spec.field_here (text_at path.now) (view value.now)) }
{
    if has_member(value, "properties") {
        return Ok(());
    }
    let path = Text::new(alloc, text_of(path))?;
    match found.push(PropertyAt { path, value }) {
        Ok(()) => Ok(()),
        Err(_) => Err(NoMemory),
    }
}

#[cycle(walk)]
fn walk<'a>(
    alloc: Global,
    value: &'a Value,
    path: &mut Place,
    found: &mut Vec<PropertyAt<'a>>,
) -> Result<(), NoMemory>
    requires { IsSome path.old }
    ensures path { OnOk result (path.new ≡ path.old) }
    ensures found { OnOk result (properties_seen found.new.items
        ≡ properties_seen found.old.items ++ spec.fields_at (text_at path.old) (view value.now)) }
{
    put(alloc, value, path, found)?;
    match value {
        Value::Object(members) => walk_inside(alloc, members, path, found),
        Value::Null | Value::Bool(_) | Value::Number(_) | Value::String(_) | Value::Array(_) => {
            Ok(())
        }
    }
}

#[cycle(walk)]
fn walk_inside<'a>(
    alloc: Global,
    members: &'a Map<String, Value>,
    path: &mut Place,
    found: &mut Vec<PropertyAt<'a>>,
) -> Result<(), NoMemory>
    requires { IsSome path.old }
    ensures path { OnOk result (path.new ≡ path.old) }
    ensures found { OnOk result (properties_seen found.new.items
        ≡ properties_seen found.old.items ++ spec.fields_inside (text_at path.old) (members_view members.now.entries)) }
{
    for (name, member) in members.iter() {
        if name.as_str() == "properties" {
            walk_list(alloc, member, path, found)?;
        }
    }
    Ok(())
}

#[cycle(walk)]
fn walk_list<'a>(
    alloc: Global,
    value: &'a Value,
    path: &mut Place,
    found: &mut Vec<PropertyAt<'a>>,
) -> Result<(), NoMemory>
    ensures path { OnOk result (path.new ≡ path.old) }
    ensures found { OnOk result (properties_seen found.new.items
        ≡ properties_seen found.old.items ++ spec.fields_listed path.old (view value.now)) }
{
    match value {
        Value::Object(members) => walk_members(alloc, members, path, found),
        Value::Null | Value::Bool(_) | Value::Number(_) | Value::String(_) | Value::Array(_) => {
            Ok(())
        }
    }
}

#[cycle(walk)]
fn walk_members<'a>(
    alloc: Global,
    members: &'a Map<String, Value>,
    path: &mut Place,
    found: &mut Vec<PropertyAt<'a>>,
) -> Result<(), NoMemory>
    ensures path { OnOk result (path.new ≡ path.old) }
    ensures found { OnOk result (properties_seen found.new.items
        ≡ properties_seen found.old.items ++ spec.fields_among path.old (members_view members.now.entries)) }
{
    for (name, member) in members.iter() {
        path.enter(name.as_str())?;
        walk(alloc, member, path, found)?;
        path.leave(name.as_str());
    }
    Ok(())
}

/// The properties of a member `properties` that are fields.
fn fields_below<'a>(alloc: Global, value: &'a Value) -> Result<Vec<PropertyAt<'a>>, NoMemory>
    ensures { IfOk result (λ found. properties_seen found.items ≡ leaves_in (listed (codes "template.mappings.properties") None (view value.now))) }
{
    let mut found = Vec::new(alloc);
    let mut path = Place::root(alloc)?;
    walk_list(alloc, value, &mut path, &mut found)?;
    Ok(found)
}

/// The properties of a body that are fields.
#[tactic(auto, unfolding(crate::specs::Faults::leaves_of, crate::specs::Properties::properties_of))]
pub fn fields_sent<'a>(alloc: Global, body: &'a Value) -> Result<Vec<PropertyAt<'a>>, NoMemory>
    ensures { IfOk result (λ found. properties_seen found.items ≡ leaves_of (view body.now)) }
{
    match member(mappings(body), "properties") {
        None => Ok(Vec::new(alloc)),
        Some(value) => fields_below(alloc, value),
    }
}
