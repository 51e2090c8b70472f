//! Walks over all leaves of a tree.
ghost use Rattle.std.specs.Prelude.{◌≡◌, [], OnOk, IfOk, bytes_eq};
ghost use Rattle.std.specs.Cmp.Lexicographic.{slice_cmp};
ghost use Rattle.std.specs.List.{list_any};
ghost use Rattle.std.specs.List.Sorted.{IsStrictlySortedBy};
ghost use Rattle.std.specs.Ordering.{nat_cmp};
ghost use Rattle.serde_json.specs.View.{view, items_view, members_view};
ghost use Rattle.json_walk.specs.Listed.{listed, listed_items, listed_members};
ghost use Rattle.json_walk.specs.Path.{is_stop as stops_here};
ghost use Rattle.json_walk.specs.Paths.{AreLeafPaths, with_path, with_paths};

use crate::place::Place;
use edge_face::{NoMemory, Text};
use serde_json::{Map, Value};
use std::alloc::Global;
use std::collections::BTreeSet;

pub(crate) fn is_among(path: &[u8], stops: &[Text]) -> bool
    ensures { result ≡ list_any (λ s. bytes_eq s path.now) stops.now }
{
    stops.iter().any(|stop| stop.as_bytes() == path)
}

fn is_stop(stops: &[Text], place: &Place) -> bool
    ensures { result ≡ stops_here stops.now place.now }
{
    match place.path() {
        None => false,
        Some(path) => is_among(path.as_bytes(), stops),
    }
}

// Puts the path of a leaf to the paths, where it has one.
fn note(alloc: Global, place: &Place, paths: &mut BTreeSet<Text>) -> Result<(), NoMemory>
    ensures { OnOk result (paths.new.keys ≡ with_path paths.old.keys place.now) }
{
    let Some(path) = place.path() else {
        return Ok(());
    };
    let path = Text::new(alloc, path)?;
    let _ = paths.insert(path)?;
    Ok(())
}

#[cycle(walk)]
fn walk(
    alloc: Global,
    value: &Value,
    stops: &[Text],
    place: &mut Place,
    paths: &mut BTreeSet<Text>,
) -> Result<(), NoMemory>
    ensures place { OnOk result (place.new ≡ place.old) }
    ensures paths { OnOk result (paths.new.keys
        ≡ with_paths paths.old.keys (listed stops.now place.old (view value.now))) }
{
    match value {
        Value::Null => Ok(()),
        Value::Bool(_) | Value::Number(_) | Value::String(_) => note(alloc, place, paths),
        Value::Array(items) => walk_items(alloc, items, stops, place, paths),
        Value::Object(members) => {
            if is_stop(stops, place) {
                if members.is_empty() {
                    return Ok(());
                }
                return note(alloc, place, paths);
            }
            walk_members(alloc, members, stops, place, paths)
        }
    }
}

#[cycle(walk)]
fn walk_items(
    alloc: Global,
    items: &Vec<Value>,
    stops: &[Text],
    place: &mut Place,
    paths: &mut BTreeSet<Text>,
) -> Result<(), NoMemory>
    ensures place { OnOk result (place.new ≡ place.old) }
    ensures paths { OnOk result (paths.new.keys
        ≡ with_paths paths.old.keys (listed_items stops.now place.old (items_view items.now.items))) }
{
    for item in items {
        walk(alloc, item, stops, place, paths)?;
    }
    Ok(())
}

#[cycle(walk)]
fn walk_members(
    alloc: Global,
    members: &Map<String, Value>,
    stops: &[Text],
    place: &mut Place,
    paths: &mut BTreeSet<Text>,
) -> Result<(), NoMemory>
    ensures place { OnOk result (place.new ≡ place.old) }
    ensures paths { OnOk result (paths.new.keys
        ≡ with_paths paths.old.keys (listed_members stops.now place.old (members_view members.now.entries))) }
{
    for (name, member) in members.iter() {
        place.enter(name.as_str())?;
        walk(alloc, member, stops, place, paths)?;
        place.leave(name.as_str());
    }
    Ok(())
}

fn in_order(alloc: Global, sorted: BTreeSet<Text>) -> Result<Vec<Text>, NoMemory>
    ensures keys { IfOk result (λ ps. ps.items ≡ sorted.keys) }
    ensures ascending { IfOk result (λ ps. IsStrictlySortedBy (slice_cmp nat_cmp) ps.items) }
{
    let mut paths = Vec::with_capacity(alloc, sorted.len())?;
    for path in sorted {
        paths.push(path)?;
    }
    Ok(paths)
}

/// The paths of a document's leaves, ascending by bytes, and each once. Each is a text of its own, so for a document from
/// outside they may take more memory than the document: a layer that only looks at places walks with a [`Place`] instead.
pub fn paths(alloc: Global, doc: &Value, stops: &[Text]) -> Result<Vec<Text>, NoMemory>
    ensures { IfOk result (λ ps. AreLeafPaths stops.now (view doc.now) ps.items) }
{
    let mut sorted = BTreeSet::new(alloc);
    let mut place = Place::root(alloc)?;
    walk(alloc, doc, stops, &mut place, &mut sorted)?;
    let paths = in_order(alloc, sorted)?;
    Ok(paths)
}
