//! Whole scripts on a machine with a record, over a keeper in memory.
ghost use Rattle.std.specs.Prelude.{IsSome, IsTrue};

use crate::poor::PoorKeeper;
use crate::register::Register;
use crate::slow::{SlowSink, sink_of, source_of};
use edge_face::{Bytes, Keeper, Text};
use probe_case::Trial;
use serde_json::Value;
use std::alloc::Global;
use std::collections::BTreeMap;
use tsds_cli::{DONE, run};

fn open<K: Keeper>(keeper: &mut K, alloc: Global) -> bool
    ensures { IsTrue result → IsSome (K.path keeper.new) }
{
    keeper.open(alloc, "store").is_ok()
}

/// Runs the script, and writes the status and what the sink was given.
fn put_run<K: Keeper>(case: &Value, keeper: &mut K, sink: &mut SlowSink, trial: &mut Trial)
    requires { IsSome (K.path keeper.old) }
    ensures { IsSome (K.path keeper.new) }
{
    let script = trial.bytes(case, "script");
    let fails = trial.counts(case, "source_fails");
    let mut machine = Register::new(trial.alloc);
    let mut source = source_of(case, script, fails);
    let status = match run(trial.alloc, &mut machine, keeper, &mut source, sink) {
        Ok(()) => DONE,
        Err(error) => error.status(),
    };
    trial.name("status");
    trial.whole(i64::from(status));
    trial.name("written");
    trial.shown(sink.inner.given());
}

/// The record, none where there is none. A call that fails is made once more.
fn record<K: Keeper>(keeper: &mut K, alloc: Global) -> Option<Bytes>
    requires { IsSome (K.path keeper.old) }
{
    match keeper.get(alloc, &Text::fixed("last")) {
        Ok(found) => found,
        Err(_) => keeper.get(alloc, &Text::fixed("last")).ok()?,
    }
}

fn put_record<K: Keeper>(keeper: &mut K, trial: &mut Trial)
    requires { IsSome (K.path keeper.old) }
{
    trial.name("record");
    match record(keeper, trial.alloc) {
        Some(bytes) => trial.shown(bytes.as_slice()),
        None => trial.null(),
    }
}

fn put_all<K: Keeper>(case: &Value, keeper: &mut K, sink: &mut SlowSink, trial: &mut Trial) {
    if !open(keeper, trial.alloc) {
        trial.give_up();
        return;
    }
    trial.open("{");
    put_run(case, keeper, sink, trial);
    put_record(keeper, trial);
    trial.close("}");
}

/// Runs a script on the machine that keeps the last body sent and a record of it. Calls of the source, the sink and the keeper with
/// certain numbers fail, and for changes with certain numbers the keeper has no memory. The keeper's first call opens it.
pub fn run_recorded(case: &Value, trial: &mut Trial) {
    let sink_fails = trial.counts(case, "sink_fails");
    let fails = trial.counts(case, "keeper_fails");
    let lacks = trial.counts(case, "keeper_lacks");
    let Some(sink) = sink_of(case, sink_fails, trial.alloc) else {
        trial.give_up();
        return;
    };
    let mut sink = sink;
    let mut keeper = PoorKeeper::new(BTreeMap::new(trial.alloc), fails, lacks);
    put_all(case, &mut keeper, &mut sink, trial);
}
