//! Walks over the settings of a body, flattened by dots.
//!
//! The place of a walk is one text, so a walk takes no more memory than its longest path. Below a path that is longer than that
//! of each setting all are unknown. The least of their paths is put together from its end, so that the front that they share is
//! neither copied nor compared for each.
ghost use Rattle.std.specs.Prelude.{◌≡◌, ◌≤◌, ◌++◌, length, IfOk, IsTrue, OnOk, None, Some};
ghost use Rattle.serde_json.specs.View.{members_view, view};
ghost use Rattle.ts_mapping.specs.Least.{all_faults, least, least_with};
ghost use Rattle.ts_mapping.specs.Limits.{longest_setting};
ghost use Rattle.ts_mapping.specs.Seen.{settings_seen};
ghost use Rattle.ts_mapping.specs.Settings as spec;
ghost use Rattle.ts_mapping.specs.Walks.{known_settings, setting_paths, text_at};

use crate::least::{Least, under_place};
use crate::limits::LONGEST_SETTING;
use crate::settings::{PLACE, SettingAt, is_known};
use crate::trees::member;
use edge_face::{NoMemory, Text};
use json_walk::Place;
use serde_json::{Map, Value};
use std::alloc::Global;

fn put<'a>(
    alloc: Global,
    value: &'a Value,
    place: &Place,
    found: &mut Vec<SettingAt<'a>>,
) -> Result<(), NoMemory>
    ensures { OnOk result (settings_seen found.new.items
        ≡ settings_seen found.old.items ++ known_settings (spec.setting_at place.now (view value.now))) }
{
    let Some(path) = place.path() else {
        return Ok(());
    };
    if !is_known(path) {
        return Ok(());
    }
    let path = Text::new(alloc, path)?;
    match found.push(SettingAt { path, value }) {
        Ok(()) => Ok(()),
        Err(_) => Err(NoMemory),
    }
}

#[cycle(flatten)]
fn flatten<'a>(
    alloc: Global,
    value: &'a Value,
    place: &mut Place,
    found: &mut Vec<SettingAt<'a>>,
) -> Result<(), NoMemory>
    ensures place { OnOk result (place.new ≡ place.old) }
    ensures found { OnOk result (settings_seen found.new.items
        ≡ settings_seen found.old.items ++ known_settings (spec.flat place.old (view value.now))) }
{
    match value {
        Value::Object(members) => flatten_members(alloc, members, place, found),
        Value::Null | Value::Bool(_) | Value::Number(_) | Value::String(_) | Value::Array(_) => {
            put(alloc, value, place, found)
        }
    }
}

#[cycle(flatten)]
fn flatten_members<'a>(
    alloc: Global,
    members: &'a Map<String, Value>,
    place: &mut Place,
    found: &mut Vec<SettingAt<'a>>,
) -> Result<(), NoMemory>
    ensures place { OnOk result (place.new ≡ place.old) }
    ensures found { OnOk result (settings_seen found.new.items
        ≡ settings_seen found.old.items ++ known_settings (spec.flat_members place.old (members_view members.now.entries))) }
{
    for (name, member) in members.iter() {
        place.enter(name.as_str())?;
        flatten(alloc, member, place, found)?;
        place.leave(name.as_str());
    }
    Ok(())
}

/// The settings of a body that have the name of one, in the order of a walk.
#[tactic(auto, unfolding(crate::specs::Settings::settings_of))]
pub fn settings<'a>(alloc: Global, body: &'a Value) -> Result<Vec<SettingAt<'a>>, NoMemory>
    ensures { IfOk result (λ found. settings_seen found.items ≡ known_settings (spec.settings_of (view body.now))) }
{
    let mut found = Vec::new(alloc);
    let mut place = Place::root(alloc)?;
    if let Some(value) = member(body.get("template"), "settings") {
        flatten(alloc, value, &mut place, &mut found)?;
    }
    Ok(found)
}

/// The least path of the settings of a value, which has the name, where there are any.
#[cycle(least)]
fn least_at(alloc: Global, name: &str, value: &Value) -> Result<Option<Text>, NoMemory>
    ensures { IfOk result (λ path. path ≡ least (setting_paths (spec.flat (Some name.now) (view value.now)))) }
{
    match value {
        Value::Object(members) => match least_among(alloc, members)? {
            None => Ok(None),
            Some(rest) => Ok(Some(under_place(alloc, name, rest.as_str())?)),
        },
        Value::Null | Value::Bool(_) | Value::Number(_) | Value::String(_) | Value::Array(_) => {
            Ok(Some(Text::new(alloc, name)?))
        }
    }
}

#[cycle(least)]
fn least_among(alloc: Global, members: &Map<String, Value>) -> Result<Option<Text>, NoMemory>
    ensures { IfOk result (λ path. path ≡ least (setting_paths (spec.flat_members None (members_view members.now.entries)))) }
{
    let mut least = Least::new();
    for (name, member) in members.iter() {
        if let Some(path) = least_at(alloc, name.as_str(), member)? {
            least.put(path);
        }
    }
    Ok(least.into_path())
}

/// Tells the least of the settings below a path that is as long as the longest of a setting: all of them are unknown.
fn note_below(
    alloc: Global,
    members: &Map<String, Value>,
    path: &str,
    least: &mut Least,
) -> Result<(), NoMemory>
    requires { longest_setting ≤ length path.now }
    ensures { OnOk result (least.new
        ≡ least_with least.old (all_faults spec.unknown_setting (spec.flat_members (Some path.now) (members_view members.now.entries)))) }
{
    let Some(rest) = least_among(alloc, members)? else {
        return Ok(());
    };
    let path = under_place(alloc, path, rest.as_str())?;
    least.note_under(alloc, false, PLACE, path.as_str())
}

/// Tells a setting that is unknown.
fn note_unknown(
    alloc: Global,
    _value: &Value,
    place: &Place,
    least: &mut Least,
) -> Result<(), NoMemory>
    ensures { OnOk result (least.new
        ≡ least_with least.old (all_faults spec.unknown_setting (spec.setting_at place.now (view _value.now)))) }
{
    let Some(path) = place.path() else {
        return Ok(());
    };
    least.note_under(alloc, is_known(path), PLACE, path)
}

/// The text of a place.
pub fn text_of(place: &Place) -> &str
    ensures { result.now ≡ text_at place.now }
{
    match place.path() {
        None => "",
        Some(path) => path,
    }
}

#[cycle(check)]
fn check_value(
    alloc: Global,
    value: &Value,
    place: &mut Place,
    least: &mut Least,
) -> Result<(), NoMemory>
    ensures place { OnOk result (place.new ≡ place.old) }
    ensures least { OnOk result (least.new
        ≡ least_with least.old (all_faults spec.unknown_setting (spec.flat place.old (view value.now)))) }
{
    match value {
        Value::Object(members) => {
            if text_of(place).len() >= LONGEST_SETTING {
                return note_below(alloc, members, text_of(place), least);
            }
            check_members(alloc, members, place, least)
        }
        Value::Null | Value::Bool(_) | Value::Number(_) | Value::String(_) | Value::Array(_) => {
            note_unknown(alloc, value, place, least)
        }
    }
}

#[cycle(check)]
fn check_members(
    alloc: Global,
    members: &Map<String, Value>,
    place: &mut Place,
    least: &mut Least,
) -> Result<(), NoMemory>
    ensures place { OnOk result (place.new ≡ place.old) }
    ensures least { OnOk result (least.new
        ≡ least_with least.old (all_faults spec.unknown_setting (spec.flat_members place.old (members_view members.now.entries)))) }
{
    for (name, member) in members.iter() {
        place.enter(name.as_str())?;
        check_value(alloc, member, place, least)?;
        place.leave(name.as_str());
    }
    Ok(())
}

/// Tells the settings of a body that are unknown.
#[tactic(auto, unfolding(crate::specs::Settings::settings_of))]
pub fn check_known(alloc: Global, body: &Value, least: &mut Least) -> Result<(), NoMemory>
    ensures { OnOk result (least.new ≡ least_with least.old (all_faults spec.unknown_setting (spec.settings_of (view body.now)))) }
{
    let mut place = Place::root(alloc)?;
    match member(body.get("template"), "settings") {
        None => Ok(()),
        Some(value) => check_value(alloc, value, &mut place, least),
    }
}
