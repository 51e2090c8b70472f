//! Action lines: what is asked of the next line, and of which stream.
ghost use Rattle.std.specs.Prelude.{◌≡◌, ◌++◌, IfOk, IfSome, IsTrue, bytes_eq};
ghost use Rattle.std.specs.Option.{option_map};
ghost use Rattle.std.specs.Str.{IsUtf8};
ghost use Rattle.serde_json.specs.View.{view};
ghost use Rattle.index_names.specs.Names as names;
ghost use Rattle.bulk_json.specs.Usual.{usual_line, usual_asked, named_line, named_asked, named_front, named_end};
ghost use Rattle.bulk_json.specs.Actions.{action_name, action_in as action_in_tree, takes_source, stream_in as stream_in_tree, asked_in as asked_in_tree, asked_of};

use edge_face::{NoMemory, Text};
use index_names::is_stream_name;
use json_walk::{NotJson, has_names, read_line};
use serde_json::Value;
use std::alloc::Global;

/// What is to be done with a document.
#[derive(Clone, Copy, Debug, PartialEq, Eq)]
pub enum Action {
    Create,
    Index,
    Update,
    Delete,
}

/// An action, and the stream that it is asked of.
#[derive(Debug, Drop)]
pub struct Asked {
    pub action: Action,
    pub stream: Text,
}

impl Action {
    /// The name of the member that an action line has.
    pub fn name(self) -> &'static str
        ensures { result.now ≡ action_name self }
    {
        match self {
            Action::Create => "create",
            Action::Index => "index",
            Action::Update => "update",
            Action::Delete => "delete",
        }
    }

    /// Whether the next line is its source.
    pub fn takes_source(self) -> bool
        ensures { result ≡ takes_source self }
    {
        match self {
            Action::Delete => false,
            Action::Create | Action::Index | Action::Update => true,
        }
    }
}

fn action_in(tree: &Value) -> Option<Action>
    ensures { result ≡ action_in_tree (view tree.now) }
{
    if has_names(tree, &["create"]) {
        Some(Action::Create)
    } else if has_names(tree, &["index"]) {
        Some(Action::Index)
    } else if has_names(tree, &["update"]) {
        Some(Action::Update)
    } else if has_names(tree, &["delete"]) {
        Some(Action::Delete)
    } else {
        None
    }
}

/// The stream that an action's value names, or else the path.
#[tactic(auto, unfolding(crate::specs::Actions::stream_in))]
fn stream_in<'a>(path: Option<&'a str>, inner: &'a Value) -> Option<&'a str>
    ensures { option_map (λ s. s.now) result ≡ stream_in_tree (option_map (λ s. s.now) path.entry) (view inner.now) }
{
    if has_names(inner, &[]) {
        return path;
    }
    if !has_names(inner, &["_index"]) {
        return None;
    }
    match inner.get("_index").and_then(Value::as_str) {
        Some(name) if is_stream_name(name.as_bytes()) => Some(name),
        _ => None,
    }
}

fn asked_in(alloc: Global, path: Option<&str>, tree: &Value) -> Result<Option<Asked>, NoMemory>
    ensures { IfOk result (λ found. found ≡ asked_in_tree (option_map (λ s. s.now) path.entry) (view tree.now)) }
{
    let Some(action) = action_in(tree) else {
        return Ok(None);
    };
    let Some(inner) = tree.get(action.name()) else {
        return Ok(None);
    };
    let Some(stream) = stream_in(path, inner) else {
        return Ok(None);
    };
    Ok(Some(Asked {
        action,
        stream: Text::new(alloc, stream)?,
    }))
}

// Whether a line is the one that most clients send for a new document.
fn is_usual(line: &[u8]) -> bool
    ensures { result ≡ bytes_eq line.now usual_line }
{
    line == b"{\"create\":{}}".as_slice()
}

// What that line asks: a new document of the path's stream.
fn usual_action(alloc: Global, path: Option<&str>) -> Result<Option<Asked>, NoMemory>
    ensures { IfOk result (λ found. found ≡ usual_asked (option_map (λ s. s.now) path.entry)) }
{
    match path {
        None => Ok(None),
        Some(stream) => Ok(Some(Asked {
            action: Action::Create,
            stream: Text::new(alloc, stream)?,
        })),
    }
}

// What stands before and after the name in the line that names a stream.
const NAMED_FRONT: &[u8] = b"{\"create\":{\"_index\":\"";

const NAMED_END: &[u8] = b"\"}}";

// What stands between the front and the end of the usual line that names a stream.
fn between(line: &[u8]) -> Option<&[u8]>
    ensures { IfSome result (λ name. line.now ≡ named_line name.now) }
{
    let behind = line.strip_prefix(NAMED_FRONT)?;
    let name = behind.strip_suffix(NAMED_END)?;
    Some(name)
}

// The stream that the usual line names; none also where another reading has to tell.
fn named_stream(line: &[u8]) -> Option<&str>
    ensures line { IfSome result (λ name. line.now ≡ named_line name.now) }
    ensures name { IfSome result (λ name. IsTrue (names.is_stream_name name.now)) }
    ensures utf8 { IfSome result (λ name. IsUtf8 name.now) }
{
    let name = between(line)?;
    if !is_stream_name(name) {
        return None;
    }
    match str::from_utf8(name) {
        Ok(name) => Some(name),
        Err(_) => None,
    }
}

/// The action that a line is, or none. The usual lines are told by their bytes.
pub fn read_action(
    alloc: Global,
    path: Option<&str>,
    line: &[u8],
) -> Result<Option<Asked>, NoMemory>
    ensures { IfOk result (λ found. found ≡ asked_of (option_map (λ s. s.now) path.entry) line.now) }
{
    if is_usual(line) {
        let asked = usual_action(alloc, path)?;
        return Ok(asked);
    }
    if let Some(stream) = named_stream(line) {
        return Ok(Some(Asked {
            action: Action::Create,
            stream: Text::new(alloc, stream)?,
        }));
    }
    match read_line(alloc, line) {
        Ok(tree) => asked_in(alloc, path, &tree),
        Err(NotJson::Bad) => Ok(None),
        Err(NotJson::NoMemory) => Err(NoMemory),
    }
}
