//! Bytes that are put into sinks.
use crate::slow::{SlowSink, sink_of};
use edge_face::{NullSink, Sink, put_all};
use probe_case::{Trial, is_set};
use serde_json::Value;

fn put_piece<K: Sink>(sink: &mut K, piece: &str, trial: &mut Trial) {
    match put_all(sink, piece.as_bytes()) {
        Ok(()) => trial.null(),
        Err(failed) => trial.wide(i128::from(failed.gone)),
    }
}

/// For each piece null where it went whole, or how many bytes of it went.
fn put_pieces<K: Sink>(sink: &mut K, pieces: &[Value], trial: &mut Trial) {
    trial.open("{");
    trial.name("gone");
    trial.open("[");
    for piece in pieces {
        put_piece(sink, trial.word_of(piece), trial);
    }
    trial.close("]");
}

fn put_into(sink: &mut SlowSink, pieces: &[Value], trial: &mut Trial) {
    put_pieces(sink, pieces, trial);
    trial.name("given");
    trial.shown(sink.inner.given());
    trial.close("}");
}

fn put_into_null(pieces: &[Value], trial: &mut Trial) {
    put_pieces(&mut NullSink::new(), pieces, trial);
    trial.close("}");
}

/// Puts pieces into a sink: how many bytes went of each that didn't go whole, and what the sink was given.
pub fn put(case: &Value, trial: &mut Trial) {
    let fails = trial.counts(case, "sink_fails");
    let pieces = trial.list(case, "pieces");
    if is_set(case, "steady") {
        put_into_null(pieces, trial);
        return;
    }
    match sink_of(case, fails, trial.alloc) {
        Some(sink) => {
            let mut sink = sink;
            put_into(&mut sink, pieces, trial);
        }
        None => trial.give_up(),
    }
}
