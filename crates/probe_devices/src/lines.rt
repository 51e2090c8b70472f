//! Lines of sources.
ghost use Rattle.std.specs.Prelude.{◌≡◌, false};
ghost use Rattle.edge_face.specs.Waiting.{KnowsEnd};

use crate::slow::source_of;
use edge_face::{Bytes, LineError, LineReader, Source, SteadySource};
use probe_case::{Trial, is_set};
use serde_json::Value;

fn put_long(bytes: u64, trial: &mut Trial) {
    match format!(in trial.alloc; "TooLong {bytes}") {
        Ok(text) => trial.word(text.as_str()),
        Err(_) => trial.give_up(),
    }
}

fn put_error(error: &LineError, trial: &mut Trial) {
    match error {
        LineError::Read => trial.word("Read"),
        LineError::TooLong { bytes } => put_long(*bytes, trial),
        LineError::NoMemory => trial.give_up(),
    }
}

/// Writes the next line, and whether there is one and it is no refusal; the answer of a call that gave none is its end.
fn put_next<S: Source>(
    reader: &mut LineReader,
    source: &mut S,
    trial: &mut Trial,
) -> Option<Option<LineError>>
    requires { KnowsEnd reader.old.ended (S.left source.old) }
    ensures { KnowsEnd reader.new.ended (S.left source.new) }
{
    match reader.next_line(trial.alloc, source) {
        Ok(Some(line)) => {
            trial.shown(line.as_slice());
            None
        }
        Ok(None) => Some(None),
        Err(error) => Some(Some(error)),
    }
}

/// Writes the lines up to the end or a refusal, which is the answer.
fn put_lines<S: Source>(
    reader: &mut LineReader,
    source: &mut S,
    trial: &mut Trial,
) -> Option<LineError>
    requires { KnowsEnd reader.old.ended (S.left source.old) }
    ensures { KnowsEnd reader.new.ended (S.left source.new) }
{
    'lines: for _ in 0..1_000 {
        if let Some(end) = put_next(reader, source, trial) {
            return end;
        }
    }
    None
}

fn put_end(end: &Option<LineError>, trial: &mut Trial) {
    match end {
        Some(error) => put_error(error, trial),
        None => trial.null(),
    }
}

/// Writes the lines, what they end with, and the answer of the call after that.
fn put_all_lines<S: Source>(reader: &mut LineReader, source: &mut S, trial: &mut Trial)
    requires { KnowsEnd reader.old.ended (S.left source.old) }
{
    trial.open("{");
    trial.name("lines");
    trial.open("[");
    let end = put_lines(reader, source, trial);
    trial.close("]");
    trial.name("end");
    put_end(&end, trial);
    trial.name("again");
    let again = reader.next_line(trial.alloc, source);
    put_end(&again.err(), trial);
    trial.close("}");
}

fn put_source<S: Source>(source: &mut S, trial: &mut Trial) {
    match LineReader::new(trial.alloc) {
        Ok(reader) => {
            let mut reader = reader;
            put_all_lines(&mut reader, source, trial);
        }
        Err(_) => trial.give_up(),
    }
}

/// The lines of a source up to its end or a refusal, and the answer of the call after that.
pub fn lines(case: &Value, trial: &mut Trial) {
    let bytes = trial.bytes(case, "bytes");
    if is_set(case, "steady") {
        put_source(&mut SteadySource::new(Bytes::from_vec(bytes)), trial);
    } else {
        let fails = trial.counts(case, "source_fails");
        put_source(&mut source_of(case, bytes, fails), trial);
    }
}
