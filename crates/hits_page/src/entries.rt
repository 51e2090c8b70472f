//! The entries of a sort, as they are sent.
ghost use Rattle.std.specs.Prelude.{◌≡◌, IfOk, Some, nat_le};
ghost use Rattle.serde_json.specs.View.{items_view, view};
ghost use Rattle.search_filter.specs.Reading.{count_items};
ghost use Rattle.hits_page.specs.Limits.{most_entries};
ghost use Rattle.hits_page.specs.Sorts as spec;

use crate::limits::MOST_ENTRIES;
use edge_face::{NoMemory, Text};
use json_walk::only_member;
use serde_json::Value;
use sqlite_items::Items;
use std::alloc::Global;

/// A path to sort by, and whether values rise.
#[derive(Drop)]
pub struct Entry {
    pub path: Text,
    pub rising: bool,
}

fn direction_named(text: &str) -> Option<bool>
    ensures { result ≡ spec.direction_named text.now }
{
    if text == "asc" {
        Some(true)
    } else if text == "desc" {
        Some(false)
    } else {
        None
    }
}

fn text_direction(value: &Value) -> Option<bool>
    ensures { result ≡ spec.text_direction (view value.now) }
{
    match value {
        Value::String(text) => direction_named(text.as_str()),
        Value::Null | Value::Bool(_) | Value::Number(_) | Value::Array(_) | Value::Object(_) => {
            None
        }
    }
}

fn direction_of(value: &Value) -> Option<bool>
    ensures { result ≡ spec.direction_of (view value.now) }
{
    match only_member(value) {
        None => text_direction(value),
        Some((name, inner)) => {
            if name == "order" {
                text_direction(inner)
            } else {
                None
            }
        }
    }
}

fn new_entry(alloc: Global, path: &str, rising: bool) -> Result<Option<Entry>, NoMemory>
    ensures { IfOk result (λ e. e ≡ Some (record { path = path.now; rising = rising })) }
{
    let path = Text::new(alloc, path)?;
    Ok(Some(Entry { path, rising }))
}

fn entry_of(alloc: Global, value: &Value) -> Result<Option<Entry>, NoMemory>
    ensures { IfOk result (λ e. e ≡ spec.entry_of (view value.now)) }
{
    match value {
        Value::String(path) => new_entry(alloc, path.as_str(), true),
        Value::Object(_) => {
            let Some((path, direction)) = only_member(value) else {
                return Ok(None);
            };
            match direction_of(direction) {
                None => Ok(None),
                Some(rising) => new_entry(alloc, path, rising),
            }
        }
        Value::Null | Value::Bool(_) | Value::Number(_) | Value::Array(_) => Ok(None),
    }
}

fn entries_in(alloc: Global, items: &[Value]) -> Result<Option<Items<Entry>>, NoMemory>
    ensures { IfOk result (λ es. es ≡ spec.entries_in (items_view items.now)) }
{
    let mut entries = Items::new(alloc);
    for item in items {
        let Some(entry) = entry_of(alloc, item)? else {
            return Ok(None);
        };
        entries.push(entry)?;
    }
    Ok(Some(entries))
}

#[tactic(auto, using(crate::proofs::Counted::items_counted))]
fn are_few(items: &[Value]) -> bool
    ensures { result ≡ nat_le (count_items (items_view items.now)) most_entries }
{
    items.len() <= MOST_ENTRIES
}

/// The entries of a sort, or None where it has no shape of one.
pub fn entries_of(alloc: Global, value: &Value) -> Result<Option<Items<Entry>>, NoMemory>
    ensures { IfOk result (λ es. es ≡ spec.entries_of (view value.now)) }
{
    if let Value::Array(items) = value {
        if are_few(items.as_slice()) {
            return entries_in(alloc, items.as_slice());
        }
        return Ok(None);
    }
    match entry_of(alloc, value)? {
        None => Ok(None),
        Some(entry) => {
            let mut entries = Items::new(alloc);
            entries.push(entry)?;
            Ok(Some(entries))
        }
    }
}
