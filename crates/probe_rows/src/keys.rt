//! Keys of series, ids of documents, and shards.
ghost use Rattle.std.specs.Prelude.{IfSome};
ghost use Rattle.time_text.specs.Instant.{IsInstant};

use crate::rows::{document_of, schema_at};
use probe_case::{Reading, Sweep, Trial};
use row_cells::Key;
use serde_json::Value;
use series_id::{KeyError, Named, id_text, read_id, series_key};
use std::alloc::Global;
use synthetic_source::type_doc;
use time_text::is_instant;

fn put_long(bytes: u64, trial: &mut Trial) {
    trial.err("KeyTooLong");
    trial.name("bytes");
    trial.wide(i128::from(bytes));
    trial.close("}");
}

/// The key of a document's series.
pub fn key(case: &Value, trial: &mut Trial) -> Option<()> {
    let schema = schema_at(trial.alloc, case, "template")?;
    let document = document_of(trial.alloc, case)?;
    let typed = type_doc(trial.alloc, &schema, true, &document).ok()?;
    match series_key(trial.alloc, &schema, typed.cells.as_slice()) {
        Ok(key) => trial.ok_hex(key.bytes()),
        Err(KeyError::NoRouting) => trial.refused("NoRouting"),
        Err(KeyError::KeyTooLong { bytes }) => put_long(u64::from(bytes), trial),
        Err(KeyError::NoMemory) => return None,
    }
    Some(())
}

/// Whether bytes are a key.
pub fn is_key(case: &Value, trial: &mut Trial) -> Option<()> {
    let bytes = trial.bytes(case, "bytes");
    let key = Key::read(trial.alloc, bytes.as_slice()).ok()?;
    trial.ok_flag(key.is_some());
    Some(())
}

/// The key of a case.
pub fn key_at(case: &Value, name: &str, trial: &mut Trial) -> Option<Key> {
    let bytes = trial.bytes(case, name);
    Key::read(trial.alloc, bytes.as_slice()).ok()?
}

fn time_at(case: &Value, trial: &mut Trial) -> Option<i64>
    ensures { IfSome result IsInstant }
{
    let time = trial.number(case, "time");
    if is_instant(time) { Some(time) } else { None }
}

/// The id of a key and a time.
pub fn id(case: &Value, trial: &mut Trial) -> Option<()> {
    let time = time_at(case, trial)?;
    let key = key_at(case, "key", trial)?;
    let text = id_text(trial.alloc, &key, time).ok()?;
    trial.ok_word(text.as_str());
    Some(())
}

fn put_named(named: &Named, trial: &mut Trial) {
    trial.ok();
    trial.open("{");
    trial.name("key");
    trial.hex(named.key.bytes());
    trial.name("time");
    trial.whole(named.time);
    trial.close("}}");
}

/// Key and time of an id, or null.
pub fn read(case: &Value, trial: &mut Trial) -> Option<()> {
    let text = trial.text(case, "text");
    match read_id(trial.alloc, text.as_str()).ok()? {
        Some(named) => put_named(&named, trial),
        None => trial.ok_null(),
    }
    Some(())
}

fn changed_letter(letter: char, is_here: bool) -> char {
    if !is_here {
        letter
    } else if letter == 'A' {
        'B'
    } else {
        'A'
    }
}

/// A text in which the letter at a place is another one.
fn changed(alloc: Global, text: &str, place: usize) -> Option<String> {
    let mut changed = String::new(alloc);
    for (at, letter) in text.chars().enumerate() {
        changed.push(changed_letter(letter, at == place)).ok()?;
    }
    Some(changed)
}

/// Whether the id of a key and a time is a text.
fn is_written(alloc: Global, named: &Named, text: &str) -> Option<bool> {
    if !is_instant(named.time) {
        return None;
    }
    let written = id_text(alloc, &named.key, named.time).ok()?;
    Some(written.as_str() == text)
}

/// What a text is read as: no id, or one that is written as this text.
fn reading_of(alloc: Global, text: &str) -> Option<Reading> {
    match read_id(alloc, text).ok()? {
        Some(named) => Some(Reading::of_taken(is_written(alloc, &named, text))),
        None => Some(Reading::Refused),
    }
}

/// What a text with another letter at a place is read as.
fn changed_reading(alloc: Global, text: &str, place: usize) -> Option<Reading> {
    let changed = changed(alloc, text, place)?;
    reading_of(alloc, changed.as_str())
}

fn swept(alloc: Global, text: &str) -> Option<Sweep> {
    let mut sweep = Sweep::new();
    for place in 0..text.len() {
        sweep.note_change(changed_reading(alloc, text, place)?);
    }
    Some(sweep)
}

/// An id is read, and then with each letter changed to another one.
pub fn changed_ids(case: &Value, trial: &mut Trial) -> Option<()> {
    let text = trial.text(case, "text");
    let itself = reading_of(trial.alloc, text.as_str())?;
    swept(trial.alloc, text.as_str())?.put(itself, trial);
    Some(())
}

/// The shard of a key among so many.
pub fn shard(case: &Value, trial: &mut Trial) -> Option<()> {
    let schema = schema_at(trial.alloc, case, "template")?;
    let key = key_at(case, "key", trial)?;
    let shards = trial.number(case, "shards");
    if shards < 1 || shards > 64 {
        return None;
    }
    trial.ok_whole(i64::from(shard_route::shard_of(&key, &schema, shards as u32)));
    Some(())
}
