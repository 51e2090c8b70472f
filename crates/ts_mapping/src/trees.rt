//! What single values of a body say.
ghost use Rattle.std.specs.Prelude.{◌≡◌, ◌++◌, IfOk, OnOk, map, None, Some, is_some};
ghost use Rattle.serde_json.specs.View.{items_view, members_view, view};
ghost use Rattle.serde_json.specs.Data.{array};
ghost use Rattle.serde_json.specs.Find.{get};
ghost use Rattle.json_walk.specs.Path.{below};
ghost use Rattle.json_walk.specs.Shapes.{is_object as is_tree_object, texts_of};
ghost use Rattle.ts_mapping.specs.Least.{fault_unless, least_with};
ghost use Rattle.ts_mapping.specs.Seen.{bytes_of, seen};
ghost use Rattle.ts_mapping.specs.Trees as spec;
ghost use Rattle.ts_mapping.specs.Trees.{has_to_be, may_be, member_of, unknown_in, unknown_members};
ghost use Rattle.ts_mapping.specs.Paths.{is_among as is_in_list};

use crate::least::{Least, under_place};
use edge_face::{NoMemory, Text};
use json_walk::is_object;
use serde_json::{Map, Value};
use sqlite_items::Items;
use std::alloc::Global;

/// Whether a member that may be absent is a truth value.
pub fn may_be_flag(value: Option<&Value>) -> bool
    ensures { result ≡ may_be spec.is_flag (seen value.entry) }
{
    match value {
        None | Some(Value::Bool(_)) => true,
        Some(_) => false,
    }
}

fn is_empty(items: &[Value]) -> bool
    ensures { result ≡ spec.is_empty_list (array (items_view items.now)) }
{
    match items {
        [] => true,
        [_, ..] => false,
    }
}

/// Whether a member that may be absent is a list without elements.
pub fn may_be_empty_list(value: Option<&Value>) -> bool
    ensures { result ≡ may_be spec.is_empty_list (seen value.entry) }
{
    match value {
        None => true,
        Some(Value::Array(items)) => is_empty(items.as_slice()),
        Some(_) => false,
    }
}

/// Whether the value is this text.
pub fn is_text(value: &Value, text: &str) -> bool
    ensures { result ≡ spec.is_text text.now (view value.now) }
{
    match value {
        Value::String(held) => held.as_str() == text,
        Value::Null | Value::Bool(_) | Value::Number(_) | Value::Array(_) | Value::Object(_) => {
            false
        }
    }
}

/// Whether a member is there, and is this text.
pub fn has_to_be_text(value: Option<&Value>, text: &str) -> bool
    ensures { result ≡ has_to_be (spec.is_text text.now) (seen value.entry) }
{
    match value {
        None => false,
        Some(value) => is_text(value, text),
    }
}

/// Whether a member that may be absent is this text.
pub fn may_be_text(value: Option<&Value>, text: &str) -> bool
    ensures { result ≡ may_be (spec.is_text text.now) (seen value.entry) }
{
    match value {
        None => true,
        Some(value) => is_text(value, text),
    }
}

/// Whether a member is there, and is an object.
pub fn has_to_be_object(value: Option<&Value>) -> bool
    ensures { result ≡ has_to_be is_tree_object (seen value.entry) }
{
    match value {
        None => false,
        Some(value) => is_object(value),
    }
}

/// Whether a member that may be absent is an object.
pub fn may_be_object(value: Option<&Value>) -> bool
    ensures { result ≡ may_be is_tree_object (seen value.entry) }
{
    match value {
        None => true,
        Some(value) => is_object(value),
    }
}

/// Whether a value has a member of that name.
pub fn has_member(value: &Value, name: &str) -> bool
    ensures { result ≡ is_some (get name.now (view value.now)) }
{
    match value.get(name) {
        None => false,
        Some(_) => true,
    }
}

/// A member of a value that may be absent itself.
pub fn member<'a>(value: Option<&'a Value>, name: &str) -> Option<&'a Value>
    ensures { seen result ≡ member_of name.now (seen value.entry) }
{
    match value {
        None => None,
        Some(value) => value.get(name),
    }
}

/// The texts of a value that is a text or a list of texts.
pub fn texts(alloc: Global, value: &Value) -> Result<Option<Items<Text>>, NoMemory>
    ensures { IfOk result (λ texts. texts ≡ texts_of (view value.now)) }
{
    match json_walk::texts(alloc, value)? {
        None => Ok(None),
        Some(texts) => Ok(Some(Items::from_vec(texts))),
    }
}

/// Whether a text is one of a list.
pub fn is_among(text: &str, texts: &[Text]) -> bool
    ensures { result ≡ is_in_list text.now texts.now }
{
    texts.iter().any(|other| text == other.as_str())
}

fn is_known(name: &str, known: &[&str]) -> bool
    ensures { result ≡ is_in_list name.now (map (λ n. n.now) known.now) }
{
    for other in known {
        if name == *other {
            return true;
        }
    }
    false
}

/// The path of a member: its name, or behind the path of the value that has it.
pub fn below_path(alloc: Global, here: Option<&str>, name: &str) -> Result<Text, NoMemory>
    ensures { IfOk result (λ t. t ≡ below (bytes_of here.entry) name.now) }
{
    match here {
        None => Text::new(alloc, name),
        Some(place) => under_place(alloc, place, name),
    }
}

fn check_members(
    alloc: Global,
    members: &Map<String, Value>,
    known: &[&str],
    here: Option<&str>,
    least: &mut Least,
) -> Result<(), NoMemory>
    ensures { OnOk result (least.new
        ≡ least_with least.old (unknown_members (map (λ n. n.now) known.now) (bytes_of here.entry) (members_view members.now.entries))) }
{
    for (name, _) in members.iter() {
        if !is_known(name.as_str(), known) {
            let path = below_path(alloc, here, name.as_str())?;
            least.note(alloc, path.as_str())?;
        }
    }
    Ok(())
}

/// Tells the places of the members that have none of these names.
pub fn check_names(
    alloc: Global,
    value: &Value,
    known: &[&str],
    here: Option<&str>,
    least: &mut Least,
) -> Result<(), NoMemory>
    ensures { OnOk result (least.new
        ≡ least_with least.old (unknown_in (map (λ n. n.now) known.now) (bytes_of here.entry) (view value.now))) }
{
    match value {
        Value::Object(members) => check_members(alloc, members, known, here, least),
        Value::Null | Value::Bool(_) | Value::Number(_) | Value::String(_) | Value::Array(_) => {
            Ok(())
        }
    }
}
