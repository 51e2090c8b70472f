//! Segments whose bytes are changed and cut.
ghost use Rattle.row_cells.specs.Mapped.{IsMapped};

use crate::segments::schema_of;
use index_segment::{Segment, SegmentError};
use probe_case::{Reading, Sweep, Trial, part, turn};
use row_cells::Schema;
use serde_json::Value;
use std::alloc::Global;

/// Whether a segment is spelled as bytes.
fn is_spelled(alloc: Global, segment: &Segment, bytes: &[u8]) -> Option<bool> {
    let spelled = segment.bytes(alloc).ok()?;
    Some(spelled.as_slice() == bytes)
}

fn reading(alloc: Global, schema: &Schema, bytes: &[u8]) -> Reading
    requires { IsMapped schema.now }
{
    match Segment::read(alloc, schema, bytes) {
        Ok(segment) => Reading::of_taken(is_spelled(alloc, &segment, bytes)),
        Err(SegmentError::BadSegment) => Reading::Refused,
        Err(SegmentError::NoMemory) => Reading::Wrong,
    }
}

/// Reads a segment with each other value of a byte.
fn sweep_byte(alloc: Global, schema: &Schema, bytes: &mut [u8], place: usize, sweep: &mut Sweep)
    requires { IsMapped schema.now }
{
    for _ in 0..255 {
        turn(bytes, place);
        sweep.note_change(reading(alloc, schema, bytes));
    }
    turn(bytes, place);
}

fn swept(alloc: Global, schema: &Schema, bytes: &mut [u8]) -> Sweep
    requires { IsMapped schema.now }
{
    let mut sweep = Sweep::new();
    for place in 0..bytes.len() {
        sweep.note_front(reading(alloc, schema, part(bytes, 0, place)));
        sweep_byte(alloc, schema, bytes, place, &mut sweep);
    }
    sweep
}

/// A segment is read, then with each byte changed to each other one, and each shorter front of it.
pub fn damage(case: &Value, trial: &mut Trial) -> Option<()> {
    let schema = schema_of(trial.alloc, case)?;
    let mut bytes = trial.bytes(case, "bytes");
    let itself = reading(trial.alloc, &schema, bytes.as_slice());
    swept(trial.alloc, &schema, bytes.as_mut_slice()).put(itself, trial);
    Some(())
}
