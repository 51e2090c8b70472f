ghost use Rattle.std.specs.Prelude.{◌≡◌, [], ◌++◌, IfOk, MatchOption, OnOk, Some, None, map, option_map};
ghost use Rattle.serde_json.specs.View.{view, items_view, members_view};
ghost use Rattle.json_walk.specs.Leaves.{at, at_items, at_members, leaf, leaves_of};
ghost use Rattle.json_walk.specs.Lent.{bytes_of, value_of, lent, rest_path};
ghost use Rattle.json_walk.specs.Path.{behind_name, below, is_stop as stops_here, text, whole};

use crate::walk::is_among;
use edge_face::{NoMemory, Text};
use serde_json::{Map, Value};
use smallvec::SmallVec;
use std::alloc::Global;

/// A leaf that a document lends. One that a document gave has a value.
#[derive(Clone, Copy, Default)]
pub struct Leaf<'a> {
    value: Option<&'a Value>,
}

impl<'a> Leaf<'a> {
    pub fn value(&self) -> Option<&'a Value>
        ensures { option_map (λ v. view v.now) result ≡ value_of self.now }
    {
        self.value
    }
}

/// The leaves of one path, which lie in the list itself where they are four at most.
pub type Found<'a> = SmallVec<Leaf<'a>, 4>;

// What is left of a path behind a name: nothing, or what follows a dot.
#[tactic(auto, using(crate::specs::PathLaws::behind_short))]
fn behind<'p>(name: &[u8], path: &'p [u8]) -> Option<Option<&'p [u8]>>
    ensures { option_map rest_path result ≡ behind_name name.now path.now }
{
    if path.len() < name.len() {
        return None;
    }
    let (front, back) = path.split_at(name.len());
    if name != front {
        return None;
    }
    behind_dot(back)
}

fn behind_dot(path: &[u8]) -> Option<Option<&[u8]>>
    ensures { option_map rest_path result ≡ behind_name [] path.now }
{
    let Some((first, rest)) = path.split_first() else {
        return Some(None);
    };
    if *first == b'.' {
        Some(Some(rest))
    } else {
        None
    }
}

fn lend<'a>(value: &'a Value, rest: Option<&[u8]>, found: &mut Found<'a>) -> Result<(), NoMemory>
    ensures { OnOk result (lent found.new.items
        ≡ lent found.old.items ++ map Some (leaf (view value.now) (rest_path rest.entry))) }
{
    if rest.is_some() {
        return Ok(());
    }
    found.push(Leaf { value: Some(value) })?;
    Ok(())
}

// A member on the path: where it stands, and what is left of the path there.
#[derive(Clone, Copy)]
struct Step<'p> {
    place: &'p [u8],
    rest: Option<&'p [u8]>,
}

// The step from a value that stands `here` to its member of that name, if the path goes there.
fn step_to<'p>(name: &[u8], path: &'p [u8], here: Option<&[u8]>, left: &'p [u8]) -> Option<Step<'p>>
    requires { path.now ≡ whole (bytes_of here) (text left.now) }
    ensures { MatchOption result (behind_name name.now left.now ≡ None) (λ s.
        (behind_name name.now left.now ≡ Some (rest_path s.rest))
        × (s.place.now ≡ below (bytes_of here.entry) name.now)
        × (path.now ≡ whole (Some (below (bytes_of here.entry) name.now)) (rest_path s.rest))) }
{
    match behind(name, left) {
        None => None,
        Some(None) => Some(Step {
            place: path,
            rest: None,
        }),
        Some(Some(rest)) => Some(Step {
            place: &path[..path.len() - rest.len() - 1],
            rest: Some(rest),
        }),
    }
}

fn is_stop(stops: &[Text], here: Option<&[u8]>) -> bool
    ensures { result ≡ stops_here stops.now (bytes_of here.entry) }
{
    match here {
        None => false,
        Some(place) => is_among(place, stops),
    }
}

#[cycle(gather)]
fn gather<'a>(
    value: &'a Value,
    path: &[u8],
    here: Option<&[u8]>,
    rest: Option<&[u8]>,
    stops: &[Text],
    found: &mut Found<'a>,
) -> Result<(), NoMemory>
    requires { path.now ≡ whole (bytes_of here) (rest_path rest) }
    ensures { OnOk result (lent found.new.items ≡ lent found.old.items
        ++ map Some (at stops.now (bytes_of here.entry) (view value.now) (rest_path rest.entry))) }
{
    match value {
        Value::Null => Ok(()),
        Value::Bool(_) | Value::Number(_) | Value::String(_) => lend(value, rest, found),
        Value::Array(items) => gather_items(items, path, here, rest, stops, found),
        Value::Object(members) => {
            if is_stop(stops, here) {
                if members.is_empty() {
                    return Ok(());
                }
                return lend(value, rest, found);
            }
            gather_members(members, path, here, rest, stops, found)
        }
    }
}

#[cycle(gather)]
fn gather_items<'a>(
    items: &'a Vec<Value>,
    path: &[u8],
    here: Option<&[u8]>,
    rest: Option<&[u8]>,
    stops: &[Text],
    found: &mut Found<'a>,
) -> Result<(), NoMemory>
    requires { path.now ≡ whole (bytes_of here) (rest_path rest) }
    ensures { OnOk result (lent found.new.items ≡ lent found.old.items
        ++ map Some (at_items stops.now (bytes_of here.entry) (items_view items.now.items) (rest_path rest.entry))) }
{
    for item in items {
        gather(item, path, here, rest, stops, found)?;
    }
    Ok(())
}

#[cycle(gather)]
fn gather_members<'a>(
    members: &'a Map<String, Value>,
    path: &[u8],
    here: Option<&[u8]>,
    rest: Option<&[u8]>,
    stops: &[Text],
    found: &mut Found<'a>,
) -> Result<(), NoMemory>
    requires { path.now ≡ whole (bytes_of here) (rest_path rest) }
    ensures { OnOk result (lent found.new.items ≡ lent found.old.items
        ++ map Some (at_members stops.now (bytes_of here.entry) (members_view members.now.entries) (rest_path rest.entry))) }
{
    let left = match rest {
        Some(left) => left,
        None => return Ok(()),
    };
    for (name, member) in members.iter() {
        if let Some(next) = step_to(name.as_bytes(), path, here, left) {
            gather(member, path, Some(next.place), next.rest, stops, found)?;
        }
    }
    Ok(())
}

/// The leaves of a document at a path, which is member names joined by dots.
pub fn leaves_at<'a>(
    alloc: Global,
    doc: &'a Value,
    path: &str,
    stops: &[Text],
) -> Result<Found<'a>, NoMemory>
    ensures { IfOk result (λ found. lent found.items ≡ map Some (leaves_of stops.now (view doc.now) path.now)) }
{
    let mut found = SmallVec::new(alloc);
    let path = path.as_bytes();
    gather(doc, path, None, Some(path), stops, &mut found)?;
    Ok(found)
}
