//! Bytes that are put together from pieces.
use crate::arguments::optional_number;
use crate::lists::{numbers_in, put_blocks};
use json_walk::{has_no_other, only_member, whole};
use serde_json::Value;
use std::alloc::Global;

/// Appends a text, in which each `$` is a number.
fn put_numbered(text: &str, number: i64, into: &mut Vec<u8>) -> Option<()> {
    for byte in text.as_bytes() {
        if *byte == b'$' {
            into.extend_from_slice(itoa::Buffer::new().format(number).as_bytes())
                .ok()?;
        } else {
            into.push(*byte).ok()?;
        }
    }
    Some(())
}

/// Appends a text so many times, in which each `$` is a number that goes on by a step.
fn put_times(piece: &Value, into: &mut Vec<u8>) -> Option<()> {
    if !has_no_other(piece, &["times", "text", "from", "step"]) {
        return None;
    }
    let text = piece.get("text")?.as_str()?;
    let times = whole(piece.get("times")?)?;
    let step = optional_number(piece, "step", 1)?;
    let mut turn = optional_number(piece, "from", 0)?;
    for _ in 0..times {
        put_numbered(text, turn, into)?;
        turn = turn.wrapping_add(step);
    }
    Some(())
}

fn put_hex(alloc: Global, digits: &str, into: &mut Vec<u8>) -> Option<()> {
    let bytes = hex::decode(alloc, digits).ok()?;
    into.extend_from_slice(bytes.as_slice()).ok()
}

fn put_packed(alloc: Global, numbers: &[Value], into: &mut Vec<u8>) -> Option<()> {
    put_blocks(numbers_in(alloc, numbers)?.as_slice(), into)
}

/// Appends what an object stands for: bytes as `{"hex":"ff"}`, packed numbers as `{"block":[1,2]}`, or a text many times
/// as `{"times":3,"text":"a$"}`.
fn put_made(alloc: Global, piece: &Value, into: &mut Vec<u8>) -> Option<()> {
    match only_member(piece) {
        Some(("hex", digits)) => put_hex(alloc, digits.as_str()?, into),
        Some(("block", numbers)) => put_packed(alloc, numbers.as_array()?.as_slice(), into),
        _ => put_times(piece, into),
    }
}

/// Appends a piece: a text, or what an object stands for.
fn put_piece(alloc: Global, piece: &Value, into: &mut Vec<u8>) -> Option<()> {
    match piece.as_str() {
        Some(text) => into.extend_from_slice(text.as_bytes()).ok(),
        None => put_made(alloc, piece, into),
    }
}

fn put_pieces(alloc: Global, pieces: &[Value], into: &mut Vec<u8>) -> Option<()> {
    for piece in pieces {
        put_piece(alloc, piece, into)?;
    }
    Some(())
}

/// The bytes of a piece, or of a list of pieces.
pub fn bytes_of(alloc: Global, value: &Value) -> Option<Vec<u8>> {
    let mut bytes = Vec::new(alloc);
    match value.as_array() {
        Some(pieces) => put_pieces(alloc, pieces.as_slice(), &mut bytes)?,
        None => put_piece(alloc, value, &mut bytes)?,
    }
    Some(bytes)
}
