//! Keepers of tables.
ghost use Rattle.std.specs.Prelude.{IsSome, IsTrue};

use edge_face::{Bytes, Change, KeepError, Keeper, MemoryKeeper, SteadyKeeper, Text};
use probe_case::{Trial, is_set};
use serde_json::Value;
use std::alloc::Global;
use std::collections::BTreeMap;

fn put_error(error: KeepError, trial: &mut Trial) {
    match error {
        KeepError::Failed => trial.word("Failed"),
        KeepError::NoMemory => trial.give_up(),
    }
}

fn put_done(done: Result<(), KeepError>, trial: &mut Trial) {
    match done {
        Ok(()) => trial.null(),
        Err(error) => put_error(error, trial),
    }
}

/// Opens the keeper, and a second time where that failed: whether it is open.
fn open<K: Keeper>(keeper: &mut K, trial: &mut Trial) -> bool
    ensures { IsTrue result → IsSome (K.path keeper.new) }
{
    if keeper.open(trial.alloc, "store").is_ok() {
        trial.word("open");
        return true;
    }
    trial.word("Failed");
    keeper.open(trial.alloc, "store").is_ok()
}

fn put_texts(texts: &[Text], trial: &mut Trial) {
    trial.open("[");
    for text in texts {
        trial.word(text.as_str());
    }
    trial.close("]");
}

fn keys<K: Keeper>(keeper: &mut K, trial: &mut Trial)
    requires { IsSome (K.path keeper.old) }
    ensures { IsSome (K.path keeper.new) }
{
    match keeper.keys(trial.alloc) {
        Ok(keys) => put_texts(keys.as_slice(), trial),
        Err(error) => put_error(error, trial),
    }
}

fn get<K: Keeper>(keeper: &mut K, key: &Text, trial: &mut Trial)
    requires { IsSome (K.path keeper.old) }
    ensures { IsSome (K.path keeper.new) }
{
    match keeper.get(trial.alloc, key) {
        Ok(Some(bytes)) => trial.shown(bytes.as_slice()),
        Ok(None) => trial.null(),
        Err(error) => put_error(error, trial),
    }
}

/// Puts bytes at a key and removes another key, at once.
fn replace<K: Keeper>(keeper: &mut K, key: Text, bytes: Bytes, gone: Text, trial: &mut Trial)
    requires { IsSome (K.path keeper.old) }
    ensures { IsSome (K.path keeper.new) }
{
    if key == gone {
        trial.give_up();
        return;
    }
    let changes = [Change::Put { key, bytes }, Change::Remove { key: gone }];
    put_done(keeper.replace(trial.alloc, &changes), trial);
}

fn text_at(case: &Value, name: &str, trial: &mut Trial) -> Text {
    match Text::new(trial.alloc, trial.word_at(case, name)) {
        Ok(text) => text,
        Err(_) => {
            trial.give_up();
            Text::fixed("")
        }
    }
}

fn replace_at<K: Keeper>(keeper: &mut K, step: &Value, trial: &mut Trial)
    requires { IsSome (K.path keeper.old) }
    ensures { IsSome (K.path keeper.new) }
{
    let key = text_at(step, "put", trial);
    let gone = text_at(step, "remove", trial);
    let bytes = Bytes::from_vec(trial.bytes(step, "bytes"));
    replace(keeper, key, bytes, gone, trial);
}

/// `"keys"`, `{"get":"k"}`, or `{"put":"k","bytes":"b","remove":"l"}`.
fn step<K: Keeper>(keeper: &mut K, step: &Value, trial: &mut Trial)
    requires { IsSome (K.path keeper.old) }
    ensures { IsSome (K.path keeper.new) }
{
    if step.get("get").is_some() {
        let key = text_at(step, "get", trial);
        get(keeper, &key, trial);
    } else if step.get("put").is_some() {
        replace_at(keeper, step, trial);
    } else {
        keys(keeper, trial);
    }
}

fn steps<K: Keeper>(keeper: &mut K, steps: &[Value], trial: &mut Trial)
    requires { IsSome (K.path keeper.old) }
{
    for one in steps {
        step(keeper, one, trial);
    }
}

fn keep_by<K: Keeper>(keeper: &mut K, list: &[Value], trial: &mut Trial) {
    trial.ok();
    trial.open("[");
    if open(keeper, trial) {
        steps(keeper, list, trial);
    }
    trial.close("]}");
}

fn entries_of(alloc: Global, elements: &[Value]) -> Option<BTreeMap<Text, Bytes>> {
    let mut entries = BTreeMap::new(alloc);
    for element in elements {
        let key = Text::new(alloc, element.as_str()?).ok()?;
        let bytes = Bytes::from_vec(Vec::from_slice(alloc, b"bytes").ok()?);
        entries.insert(key, bytes).ok()?;
    }
    Some(entries)
}

/// Opens a keeper of these keys, with `bytes` at each, and makes the steps; calls with certain numbers fail.
pub fn keep(case: &Value, trial: &mut Trial) {
    let fails = trial.counts(case, "fails");
    let list = trial.list(case, "steps");
    let Some(entries) = entries_of(trial.alloc, trial.list(case, "keys")) else {
        trial.give_up();
        return;
    };
    if is_set(case, "steady") {
        keep_by(&mut SteadyKeeper::new(entries), list, trial);
    } else {
        keep_by(&mut MemoryKeeper::new(entries, fails), list, trial);
    }
}
