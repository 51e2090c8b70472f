//! Printed replies.
use edge_face::Text;
use probe_case::Trial;
use reply_json::{Member, Out, error_reply};
use serde_json::Value;
use sqlite_items::Items;
use std::alloc::Global;

/// The last trees that were made, so many of them, in the order in which they were made.
fn last_of(alloc: Global, made: &mut Vec<Out>, size: u64) -> Option<Vec<Out>> {
    let mut last = Vec::new(alloc);
    for _ in 0..size {
        last.push(made.pop()?).ok()?;
    }
    last.reverse();
    Some(last)
}

fn member_of(alloc: Global, made: &mut Vec<Out>, name: &Value) -> Option<Member> {
    Member::new(alloc, name.as_str()?, made.pop()?).ok()
}

/// An object of the last trees, under these names.
fn object_of(alloc: Global, made: &mut Vec<Out>, names: &[Value]) -> Option<Out> {
    let mut members = Vec::new(alloc);
    for name in names.iter().rev() {
        members.push(member_of(alloc, made, name)?).ok()?;
    }
    members.reverse();
    Some(Out::Object(Items::from_vec(members)))
}

/// A number, as `{"number":"12"}`.
fn number_of(step: &Value) -> Option<Out> {
    Some(Out::Num(step.get("number")?.as_str()?.parse::<i128>().ok()?))
}

/// A tree that is no list and no object: null, a flag, a word or a number.
fn plain(alloc: Global, step: &Value) -> Option<Out> {
    match step {
        Value::Null => Some(Out::Null),
        Value::Bool(flag) => Some(Out::Flag(*flag)),
        Value::String(word) => Out::word(alloc, word.as_str()).ok(),
        _ => number_of(step),
    }
}

/// The next tree: `{"list":2}` takes the last two, `{"object":["a"]}` the last one as its member.
fn next(alloc: Global, made: &mut Vec<Out>, step: &Value) -> Option<Out> {
    if let Some(size) = step.get("list") {
        return Some(Out::list(last_of(alloc, made, size.as_u64()?)?));
    }
    match step.get("object") {
        Some(names) => object_of(alloc, made, names.as_array()?.as_slice()),
        None => plain(alloc, step),
    }
}

/// The tree that the steps make.
fn made_by(alloc: Global, steps: &[Value]) -> Option<Out> {
    let mut made = Vec::new(alloc);
    for step in steps {
        let out = next(alloc, &mut made, step)?;
        made.push(out).ok()?;
    }
    made.pop()
}

fn text_of(alloc: Global, out: &Out) -> Option<Vec<u8>> {
    let mut text = Vec::new(alloc);
    reply_json::print(out, &mut text).ok()?;
    Some(text)
}

fn put_word(text: &[u8], trial: &mut Trial) {
    match str::from_utf8(text) {
        Ok(text) => trial.word(text),
        Err(_) => trial.give_up(),
    }
}

/// The text of a tree, as a word.
fn put_text(out: &Out, trial: &mut Trial) {
    match text_of(trial.alloc, out) {
        Some(text) => put_word(text.as_slice(), trial),
        None => trial.give_up(),
    }
}

/// The text of the tree that the steps make.
pub fn printed(case: &Value, trial: &mut Trial) {
    match made_by(trial.alloc, trial.list(case, "steps")) {
        Some(out) => put_text(&out, trial),
        None => trial.give_up(),
    }
}

/// A type of error that replies name.
fn type_at(case: &Value, trial: &mut Trial) -> &'static str {
    match trial.word_at(case, "type") {
        "index_not_found_exception" => "index_not_found_exception",
        "illegal_argument_exception" => "illegal_argument_exception",
        _ => no_type(trial),
    }
}

fn no_type(trial: &mut Trial) -> &'static str {
    trial.give_up();
    ""
}

fn status_at(case: &Value, trial: &mut Trial) -> u16 {
    let status = trial.number(case, "status");
    if 0 <= status && status <= 999 {
        status as u16
    } else {
        trial.give_up();
        0
    }
}

/// The text of an error's reply.
pub fn error(case: &Value, trial: &mut Trial) {
    let status = status_at(case, trial);
    let kind = type_at(case, trial);
    let reason = trial.text(case, "reason");
    let reply = match Text::new(trial.alloc, reason.as_str()) {
        Ok(reason) => error_reply(trial.alloc, status, kind, reason),
        Err(error) => Err(error),
    };
    match reply {
        Ok(reply) => put_text(&reply, trial),
        Err(_) => trial.give_up(),
    }
}
