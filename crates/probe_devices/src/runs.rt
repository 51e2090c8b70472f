//! Whole scripts over devices in memory.
use crate::slow::{sink_of, source_of};
use probe_case::{Trial, has, list_or_none, number_or};
use serde_json::Value;
use std::alloc::Global;
use tsds_cli::top;

/// The status of a run, and what it wrote.
#[derive(Drop)]
struct Ran {
    status: u8,
    written: Vec<u8>,
}

fn default_words(alloc: Global) -> Option<Vec<String>> {
    let program = String::from_str(alloc, "tsds").ok()?;
    let mut words = Vec::new(alloc);
    words.push(program).ok()?;
    words.push(String::from_str(alloc, "run").ok()?).ok()?;
    Some(words)
}

fn listed_words(alloc: Global, elements: &[Value]) -> Option<Vec<String>> {
    let mut words = Vec::new(alloc);
    for element in elements {
        words
            .push(String::from_str(alloc, element.as_str()?).ok()?)
            .ok()?;
    }
    Some(words)
}

/// The words of the command line, `tsds run` unless the case says otherwise.
fn words_of(case: &Value, alloc: Global) -> Option<Vec<String>> {
    if has(case, "words") {
        listed_words(alloc, list_or_none(case, "words"))
    } else {
        default_words(alloc)
    }
}

fn made_run(
    case: &Value,
    script: Vec<u8>,
    source_fails: Vec<u64>,
    sink_fails: Vec<u64>,
    alloc: Global,
) -> Option<Ran> {
    let words = words_of(case, alloc)?;
    let mut sink = sink_of(case, sink_fails, alloc)?;
    let mut source = source_of(case, script, source_fails);
    let status = top(alloc, words.as_slice(), &mut source, &mut sink);
    let written = sink.inner.given().to_vec(alloc).ok()?;
    Some(Ran { status, written })
}

fn put_run(ran: &Ran, trial: &mut Trial) {
    trial.open("{");
    trial.name("status");
    trial.whole(i64::from(ran.status));
    trial.name("written");
    trial.shown(ran.written.as_slice());
    trial.close("}");
}

/// Runs a script. Calls of the source and the sink with certain numbers fail.
pub fn run(case: &Value, trial: &mut Trial) {
    let script = trial.bytes(case, "script");
    let source_fails = trial.counts(case, "source_fails");
    let sink_fails = trial.counts(case, "sink_fails");
    match made_run(case, script, source_fails, sink_fails, trial.alloc) {
        Some(ran) => put_run(&ran, trial),
        None => trial.give_up(),
    }
}

/// How often runs ended with each status, and how often one wrote what is no first part of the replies.
#[derive(Clone, Copy)]
struct Ends {
    done: usize,
    read: usize,
    write: usize,
    wrong: usize,
}

/// One more by a status.
fn counted(ends: &mut Ends, status: u8) {
    let count = match status {
        0 => &mut ends.done,
        4 => &mut ends.read,
        7 => &mut ends.write,
        _ => &mut ends.wrong,
    };
    *count = count.wrapping_add(1);
}

fn count_run(ends: &mut Ends, ran: &Option<Ran>, replies: &[u8], trial: &mut Trial) {
    match ran {
        Some(ran) if replies.starts_with(ran.written.as_slice()) => counted(ends, ran.status),
        Some(_) => counted(ends, 1),
        None => trial.give_up(),
    }
}

/// A list of one number, or of none.
fn one_or_none(number: u64, is_there: bool, alloc: Global) -> Vec<u64> {
    let mut numbers = Vec::new(alloc);
    if is_there && numbers.push(number).is_err() {
        numbers.clear();
    }
    numbers
}

/// Runs the script with one call of the source or of the sink failing.
fn run_failing(
    case: &Value,
    call: u64,
    is_source: bool,
    replies: &[u8],
    ends: &mut Ends,
    trial: &mut Trial,
) {
    let script = trial.bytes(case, "script");
    let source_fails = one_or_none(call, is_source, trial.alloc);
    let sink_fails = one_or_none(call, !is_source, trial.alloc);
    let ran = made_run(case, script, source_fails, sink_fails, trial.alloc);
    count_run(ends, &ran, replies, trial);
}

/// The runs of all calls, or of each so-manieth.
fn run_all_failing(case: &Value, replies: &[u8], trial: &mut Trial) -> Ends {
    let mut ends = Ends {
        done: 0,
        read: 0,
        write: 0,
        wrong: 0,
    };
    let calls = number_or(case, "calls", 0).unsigned_abs();
    let step = number_or(case, "step", 1).unsigned_abs().max(1);
    for turn in 0..calls.div_ceil(step) {
        let call = turn.wrapping_mul(step).wrapping_add(1);
        run_failing(case, call, true, replies, &mut ends, trial);
        run_failing(case, call, false, replies, &mut ends, trial);
    }
    ends
}

fn put_ends(ends: Ends, trial: &mut Trial) {
    trial.open("{");
    trial.count_at("done", ends.done);
    trial.count_at("read_faults", ends.read);
    trial.count_at("write_faults", ends.write);
    trial.count_at("wrong", ends.wrong);
    trial.close("}");
}

/// Runs a script, while each of the first calls of the source, or each so-manieth, fails in turn, and then each of the sink.
pub fn run_with_faults(case: &Value, trial: &mut Trial) {
    let script = trial.bytes(case, "script");
    let alloc = trial.alloc;
    match made_run(case, script, Vec::new(alloc), Vec::new(alloc), alloc) {
        Some(whole) => {
            let ends = run_all_failing(case, whole.written.as_slice(), trial);
            put_ends(ends, trial);
        }
        None => trial.give_up(),
    }
}
