//! Bulk bodies.
use bulk_json::{BulkError, BulkLines, Item, read_bulk};
use edge_face::Text;
use probe_case::Trial;
use serde_json::Value;

/// Action, stream and source of an item.
fn put_item(item: &Item, trial: &mut Trial) {
    trial.open("[");
    trial.word(item.action.name());
    trial.word(item.stream.as_str());
    if let Some(source) = &item.source {
        trial.shown(source.as_slice());
    }
    trial.close("]");
}

fn put_items(items: &[Item], trial: &mut Trial) {
    trial.ok();
    trial.open("[");
    for item in items {
        put_item(item, trial);
    }
    trial.close("]}");
}

fn put_refusal(kind: &str, line: u64, trial: &mut Trial) {
    trial.err(kind);
    trial.name("line");
    trial.wide(i128::from(line));
    trial.close("}");
}

fn put_fault(error: BulkError, trial: &mut Trial) {
    match error {
        BulkError::BadAction { line } => put_refusal("BadAction", line, trial),
        BulkError::MissingSource { line } => put_refusal("MissingSource", line, trial),
        BulkError::Empty => trial.refused("Empty"),
        BulkError::NoMemory => trial.give_up(),
    }
}

/// The stream that the path names, if the case has one.
fn stream_of(case: &Value, trial: &mut Trial) -> Option<Text> {
    let stream = Text::new(trial.alloc, trial.optional_word(case, "stream")?);
    trial.need(stream.is_ok());
    stream.ok()
}

/// The items of a bulk body.
pub fn bulk(case: &Value, trial: &mut Trial) {
    let stream = stream_of(case, trial);
    let body = trial.bytes(case, "body");
    match read_bulk(trial.alloc, stream.as_ref(), body.as_slice()) {
        Ok(items) => put_items(items.as_slice(), trial),
        Err(error) => put_fault(error, trial),
    }
}

/// The fault that is ahead of a bulk body's lines, or null.
pub fn ahead(case: &Value, trial: &mut Trial) {
    let stream = trial.optional_word(case, "stream");
    let body = trial.bytes(case, "body");
    match BulkLines::new(stream, body.as_slice()).fault_ahead(trial.alloc) {
        Ok(Some(error)) => put_fault(error, trial),
        Ok(None) => trial.ok_null(),
        Err(_) => trial.give_up(),
    }
}
