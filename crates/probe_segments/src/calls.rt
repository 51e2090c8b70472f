//! Which function makes the call of a case.
ghost use Rattle.row_cells.specs.Mapped.{IsMapped};

use crate::segments::{bytes_at, schema_of};
use crate::{joins, looks, merges, places, series, sweeps};
use index_segment::{Segment, SegmentError};
use probe_case::Trial;
use row_cells::Schema;
use serde_json::Value;

fn of_keys(call: &str, segment: &Segment, case: &Value, trial: &mut Trial) -> Option<bool> {
    match call {
        "series_after" => looks::series_after(segment, case, trial)?,
        "scan" => looks::scan(segment, case, trial)?,
        "find" => looks::find(segment, case, trial)?,
        "find_all" => looks::find_all(segment, trial)?,
        "gauge" => looks::gauge(segment, case, trial)?,
        _ => return Some(false),
    }
    Some(true)
}

fn of_series(call: &str, segment: &Segment, case: &Value, trial: &mut Trial) -> Option<bool> {
    match call {
        "segment_bytes" => series::bytes(segment, trial)?,
        "directory" => series::directory(segment, trial)?,
        "series" => series::number(segment, case, trial)?,
        "range" => series::range(segment, case, trial)?,
        "segment_fold" => series::fold(segment, case, trial)?,
        _ => return Some(false),
    }
    Some(true)
}

fn of_places(call: &str, segment: &Segment, case: &Value, trial: &mut Trial) -> Option<bool> {
    match call {
        "times" => places::times(segment, case, trial)?,
        "rows" => places::rows(segment, case, trial)?,
        "row_at" => places::row(segment, case, trial)?,
        "gauge_between" => places::gauge(segment, case, trial)?,
        "columns" => places::columns(segment, trial),
        _ => return Some(false),
    }
    Some(true)
}

fn is_made(made: Option<bool>, trial: &mut Trial) -> bool {
    trial.need(made.is_some());
    made.unwrap_or(true)
}

/// Makes a call on a segment.
fn on_segment(call: &str, segment: &Segment, case: &Value, trial: &mut Trial) -> bool {
    let made = of_keys(call, segment, case, trial);
    if is_made(made, trial) {
        return true;
    }
    let made = of_series(call, segment, case, trial);
    if is_made(made, trial) {
        return true;
    }
    let made = of_places(call, segment, case, trial);
    is_made(made, trial)
}

/// Makes a call on the segment that bytes are, or says that they are none.
fn on_bytes(call: &str, schema: &Schema, bytes: &[u8], case: &Value, trial: &mut Trial) -> bool
    requires { IsMapped schema.now }
{
    match Segment::read(trial.alloc, schema, bytes) {
        Ok(segment) => on_segment(call, &segment, case, trial),
        Err(SegmentError::BadSegment) => {
            trial.refused("BadSegment");
            true
        }
        Err(SegmentError::NoMemory) => false,
    }
}

/// Makes a call on the segment of a case, which is read from its bytes, or from those of the segment of its documents.
fn on_case(call: &str, case: &Value, trial: &mut Trial) -> Option<bool> {
    let schema = schema_of(trial.alloc, case)?;
    let bytes = bytes_at(trial.alloc, case)?;
    Some(on_bytes(call, &schema, bytes.as_slice(), case, trial))
}

/// Makes the call of a case, if it is one of these, and writes its answer. It is asked last, since the segment of the case is
/// read before most of the calls are looked at.
pub fn answer_segments(call: &str, case: &Value, trial: &mut Trial) -> bool {
    match call {
        "merge" => merges::merge(case, trial).is_some(),
        "merge_all" => joins::merge_all(case, trial).is_some(),
        "damaged_segment" => sweeps::damage(case, trial).is_some(),
        _ => on_case(call, case, trial) == Some(true),
    }
}
