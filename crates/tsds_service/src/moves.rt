//! The body that asks for moves of members.
ghost use Rattle.std.specs.Prelude.{◌≡◌, IfOk, option_and_then};
ghost use Rattle.std.specs.Option.{option_map};
ghost use Rattle.serde_json.specs.Find.{as_str, get};
ghost use Rattle.serde_json.specs.View.{items_view, view};
ghost use Rattle.tsds_service.specs.Bodies as spec;

use crate::limits::MOST_MOVES;
use edge_face::{NoMemory, Text};
use json_walk::{has_names, only_member};
use serde_json::Value;
use std::alloc::Global;
use stream_catalog::Move;

/// The stream and the index of a move.
#[derive(Drop)]
struct MoveNames {
    stream: Text,
    index: Text,
}

fn text_at<'a>(value: &'a Value, name: &str) -> Option<&'a str>
    ensures { option_map (λ text. text.now) result ≡ option_and_then as_str (get name.now (view value.now)) }
{
    value.get(name)?.as_str()
}

fn names_in(alloc: Global, value: &Value) -> Result<Option<MoveNames>, NoMemory>
    ensures { IfOk result (λ names. names ≡ spec.names_of_move (view value.now)) }
{
    if !has_names(value, &["data_stream", "index"]) {
        return Ok(None);
    }
    let Some(stream) = text_at(value, "data_stream") else {
        return Ok(None);
    };
    let Some(index) = text_at(value, "index") else {
        return Ok(None);
    };
    let stream = Text::new(alloc, stream)?;
    let index = Text::new(alloc, index)?;
    Ok(Some(MoveNames { stream, index }))
}

fn removal(names: MoveNames) -> Move
    ensures { result ≡ spec.removal names }
{
    let MoveNames { stream, index } = names;
    Move::Remove { stream, index }
}

fn addition(names: MoveNames) -> Move
    ensures { result ≡ spec.addition names }
{
    let MoveNames { stream, index } = names;
    Move::Add { stream, index }
}

fn move_named(alloc: Global, name: &str, value: &Value) -> Result<Option<Move>, NoMemory>
    ensures { IfOk result (λ found. found ≡ spec.move_named (name.now, view value.now)) }
{
    if name == "remove_backing_index" {
        return match names_in(alloc, value)? {
            Some(names) => Ok(Some(removal(names))),
            None => Ok(None),
        };
    }
    if name == "add_backing_index" {
        return match names_in(alloc, value)? {
            Some(names) => Ok(Some(addition(names))),
            None => Ok(None),
        };
    }
    Ok(None)
}

fn move_in(alloc: Global, value: &Value) -> Result<Option<Move>, NoMemory>
    ensures { IfOk result (λ found. found ≡ spec.move_of (view value.now)) }
{
    let Some((name, member)) = only_member(value) else {
        return Ok(None);
    };
    let found = move_named(alloc, name, member)?;
    Ok(found)
}

fn moves_among(alloc: Global, items: &[Value]) -> Result<Option<Vec<Move>>, NoMemory>
    ensures { IfOk result (λ found. option_map (λ moves. moves.items) found ≡ spec.moves_in (items_view items.now)) }
{
    let mut moves = Vec::new(alloc);
    for item in items {
        match move_in(alloc, item)? {
            Some(asked) => moves.push(asked)?,
            None => return Ok(None),
        }
    }
    Ok(Some(moves))
}

fn moves_listed(alloc: Global, value: &Value) -> Result<Option<Vec<Move>>, NoMemory>
    ensures { IfOk result (λ found. option_map (λ moves. moves.items) found ≡ spec.moves_listed (view value.now)) }
{
    match value {
        Value::Array(items) => {
            let moves = moves_among(alloc, items.as_slice())?;
            Ok(moves)
        }
        Value::Null | Value::Bool(_) | Value::Number(_) | Value::String(_) | Value::Object(_) => {
            Ok(None)
        }
    }
}

fn few_moves(moves: Vec<Move>) -> Option<Vec<Move>>
    ensures { option_map (λ moves. moves.items) result ≡ spec.few_moves moves.items }
{
    if 1 <= moves.len() && moves.len() <= MOST_MOVES {
        Some(moves)
    } else {
        None
    }
}

/// The moves that a body asks for, one or more and no more than the limit, where it asks for any.
pub(crate) fn moves_of(alloc: Global, body: &Value) -> Result<Option<Vec<Move>>, NoMemory>
    ensures { IfOk result (λ found. option_map (λ moves. moves.items) found ≡ spec.moves_of (view body.now)) }
{
    if !has_names(body, &["actions"]) {
        return Ok(None);
    }
    let Some(listed) = body.get("actions") else {
        return Ok(None);
    };
    match moves_listed(alloc, listed)? {
        Some(moves) => Ok(few_moves(moves)),
        None => Ok(None),
    }
}
