//! What single values are.
ghost use Rattle.std.specs.Prelude.{◌≡◌, IfOk, bytes_eq, map, option_map};
ghost use Rattle.std.specs.List.{list_any};
ghost use Rattle.serde_json.specs.View.{items_view, members_view, view};
ghost use Rattle.json_walk.specs.Shapes as spec;
ghost use Rattle.json_walk.specs.Shapes.{are_among, has_no_other as has_no_other_member, seen_member, texts_in, texts_of, whole_of};

use edge_face::{NoMemory, Text};
use serde_json::{Map, Value};
use std::alloc::Global;

/// Whether the value is an object.
pub fn is_object(value: &Value) -> bool
    ensures { result ≡ spec.is_object (view value.now) }
{
    match value {
        Value::Object(_) => true,
        Value::Null | Value::Bool(_) | Value::Number(_) | Value::String(_) | Value::Array(_) => {
            false
        }
    }
}

fn single_member(members: &Map<String, Value>) -> Option<(&str, &Value)>
    ensures { option_map seen_member result ≡ spec.single_member (members_view members.now.entries) }
{
    let mut members = members.iter();
    let (name, value) = members.next()?;
    match members.next() {
        None => Some((name.as_str(), value)),
        Some(_) => None,
    }
}

/// The one member of an object that has one alone, by name and value.
pub fn only_member(value: &Value) -> Option<(&str, &Value)>
    ensures { option_map seen_member result ≡ spec.only_member (view value.now) }
{
    match value {
        Value::Object(members) => single_member(members),
        Value::Null | Value::Bool(_) | Value::Number(_) | Value::String(_) | Value::Array(_) => {
            None
        }
    }
}

fn is_one_of(name: &str, names: &[&str]) -> bool
    ensures { result ≡ list_any (λ n. bytes_eq n name.now) (map (λ n. n.now) names.now) }
{
    for other in names {
        if *other == name {
            return true;
        }
    }
    false
}

fn have_no_other(members: &Map<String, Value>, names: &[&str]) -> bool
    ensures { result ≡ are_among (map (λ n. n.now) names.now) (members_view members.now.entries) }
{
    for (name, _) in members.iter() {
        if !is_one_of(name.as_str(), names) {
            return false;
        }
    }
    true
}

/// Whether the value is an object that has no member but with these names; it may lack some of them.
pub fn has_no_other(value: &Value, names: &[&str]) -> bool
    ensures { result ≡ has_no_other_member (map (λ n. n.now) names.now) (view value.now) }
{
    match value {
        Value::Object(members) => have_no_other(members, names),
        Value::Null | Value::Bool(_) | Value::Number(_) | Value::String(_) | Value::Array(_) => {
            false
        }
    }
}

fn texts_among(alloc: Global, items: &[Value]) -> Result<Option<Vec<Text>>, NoMemory>
    ensures { IfOk result (λ found. option_map (λ texts. texts.items) found ≡ texts_in (items_view items.now)) }
{
    let mut texts = Vec::new(alloc);
    for item in items {
        match item {
            Value::String(text) => texts.push(Text::new(alloc, text.as_str())?)?,
            _ => return Ok(None),
        }
    }
    Ok(Some(texts))
}

/// The texts of a value that is a text or a list of texts.
pub fn texts(alloc: Global, value: &Value) -> Result<Option<Vec<Text>>, NoMemory>
    ensures { IfOk result (λ found. option_map (λ texts. texts.items) found ≡ texts_of (view value.now)) }
{
    match value {
        Value::String(text) => {
            let mut texts = Vec::new(alloc);
            texts.push(Text::new(alloc, text.as_str())?)?;
            Ok(Some(texts))
        }
        Value::Array(items) => texts_among(alloc, items.as_slice()),
        Value::Null | Value::Bool(_) | Value::Number(_) | Value::Object(_) => Ok(None),
    }
}

/// The whole number of signed 64 bits that the value is, as `serde_json` tells whole numbers: `1.0`
/// and `-0` are none.
pub fn whole(value: &Value) -> Option<i64>
    ensures { result ≡ whole_of (view value.now) }
{
    value.as_i64()
}

/// The whole number that the value is, where it is from the least to the greatest of these.
pub fn whole_between(value: &Value, least: i64, greatest: i64) -> Option<i64>
    ensures { result ≡ spec.whole_between least greatest (view value.now) }
{
    match whole(value) {
        Some(number) if least <= number && number <= greatest => Some(number),
        _ => None,
    }
}
