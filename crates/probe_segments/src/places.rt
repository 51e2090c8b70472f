//! Rows by their places, and columns.
ghost use Rattle.std.specs.Prelude.{◌≤◌, IfSome, length};

use crate::looks::{gauge_field, put_gauge};
use column_block::Column;
use index_segment::{Range, Segment};
use probe_case::Trial;
use probe_rows::{ok_rows, put_row};
use serde_json::Value;

/// A number of the case that has no sign.
pub fn place_at(case: &Value, name: &str) -> Option<usize> {
    Some(case.get(name)?.as_u64()? as usize)
}

/// The places from one up to another, of rows that there are.
fn range_at(segment: &Segment, case: &Value) -> Option<Range>
    ensures order { IfSome result (λ range. range.first ≤ range.last) }
    ensures within { IfSome result (λ range. range.last ≤ length segment.now.rows) }
{
    let first = place_at(case, "from")?;
    let last = place_at(case, "to")?;
    if first <= last && last <= segment.len() {
        Some(Range { first, last })
    } else {
        None
    }
}

fn put_numbers(numbers: &[i64], trial: &mut Trial) {
    trial.open("[");
    for number in numbers {
        trial.whole(*number);
    }
    trial.close("]");
}

/// The times of some rows, and how many documents each stands for, from a place up to another, whether or not there are such rows.
pub fn times(segment: &Segment, case: &Value, trial: &mut Trial) -> Option<()> {
    let from = place_at(case, "from")?;
    let to = place_at(case, "to")?;
    trial.ok();
    trial.open("{");
    trial.name("times");
    put_numbers(segment.times(trial.alloc, from, to).ok()?.as_slice(), trial);
    trial.name("counts");
    put_numbers(
        segment.counts(trial.alloc, from, to).ok()?.as_slice(),
        trial,
    );
    trial.close("}}");
    Some(())
}

/// The rows from a place up to another.
pub fn rows(segment: &Segment, case: &Value, trial: &mut Trial) -> Option<()> {
    let range = range_at(segment, case)?;
    let rows = segment.rows(trial.alloc, range.first, range.last).ok()?;
    ok_rows(segment.schema(), rows.as_slice(), trial);
    Some(())
}

/// The row at a place, and the number of its series.
pub fn row(segment: &Segment, case: &Value, trial: &mut Trial) -> Option<()> {
    let place = place_at(case, "place")?;
    if place >= segment.len() {
        return None;
    }
    trial.ok();
    trial.open("{");
    trial.count_at("series", segment.series_at(place));
    trial.name("row");
    let row = segment.row_at(trial.alloc, place).ok()?;
    put_row(segment.schema(), &row, trial);
    trial.close("}}");
    Some(())
}

/// What a gauge adds up to over the rows from a place up to another.
pub fn gauge(segment: &Segment, case: &Value, trial: &mut Trial) -> Option<()> {
    let range = range_at(segment, case)?;
    let field = gauge_field(segment, case)?;
    put_gauge(segment.gauge_between(field, range.first, range.last), trial);
    Some(())
}

fn put_columns(columns: &[Column], trial: &mut Trial) {
    trial.open("[");
    for column in columns {
        trial.hex(column.bytes());
    }
    trial.close("]");
}

/// The columns of the field at a place, if there is one.
fn put_field(segment: &Segment, field: u32, trial: &mut Trial) {
    if (field as usize) < segment.schema().fields.len() {
        put_columns(segment.columns_of(field), trial);
    }
}

/// The bytes of all columns, and of those of each of the first fields.
pub fn columns(segment: &Segment, trial: &mut Trial) {
    trial.ok();
    trial.open("{");
    trial.name("all");
    put_columns(segment.columns(), trial);
    trial.name("fields");
    trial.open("[");
    for field in 0..1_000u32 {
        put_field(segment, field, trial);
    }
    trial.close("]}}");
}
