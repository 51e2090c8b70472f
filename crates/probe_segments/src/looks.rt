//! Look-ups by key and time.
ghost use Rattle.std.specs.Prelude.{◌≡◌, ◌<◌, IfSome};
ghost use Rattle.index_segment.specs.Looks.{IsGaugeAt};

use fold_law::Gauge;
use index_segment::{Segment, Steps};
use probe_case::{Checks, Trial, has};
use probe_rows::{key_at, put_parts, put_row};
use row_cells::{Key, Row, Schema};
use sample_rows::is_gauge_at;
use serde_json::Value;
use std::marker::Brand;
use std::sync::ledger::{Blank, Ledger};

/// The first key behind a key, or of all, or null.
pub fn series_after(segment: &Segment, case: &Value, trial: &mut Trial) -> Option<()> {
    let key = if has(case, "key") {
        Some(key_at(case, "key", trial)?)
    } else {
        None
    };
    put_key(segment, key.as_ref(), trial)
}

fn put_key(segment: &Segment, key: Option<&Key>, trial: &mut Trial) -> Option<()> {
    match segment.series_after(trial.alloc, key).ok()? {
        Some(next) => trial.ok_hex(next.bytes()),
        None => trial.ok_null(),
    }
    Some(())
}

/// Whether each time is before the one in front of it.
fn are_falling(rows: &[Row]) -> bool {
    let mut before = i64::MAX;
    for row in rows {
        if row.time >= before {
            return false;
        }
        before = row.time;
    }
    true
}

fn put_if_any(schema: &Schema, row: Option<&Row>, trial: &mut Trial) {
    match row {
        Some(row) => put_row(schema, row, trial),
        None => trial.null(),
    }
}

/// How many rows there are, whether their times fall, and the first and the last of them.
fn put_scanned(schema: &Schema, rows: &[Row], trial: &mut Trial) {
    trial.ok();
    trial.open("{");
    trial.count_at("rows", rows.len());
    trial.flag_at("falling", are_falling(rows));
    trial.name("latest");
    put_if_any(schema, rows.first(), trial);
    trial.name("earliest");
    put_if_any(schema, rows.last(), trial);
    trial.close("}}");
}

fn scan_key(segment: &Segment, key: &Key, case: &Value, trial: &mut Trial) -> Option<()> {
    let from = trial.number(case, "from");
    let to = trial.number(case, "to");
    let rows = segment.scan(trial.alloc, key, from, to).ok()?;
    put_scanned(segment.schema(), rows.as_slice(), trial);
    Some(())
}

/// The rows of a series and a range of times.
pub fn scan(segment: &Segment, case: &Value, trial: &mut Trial) -> Option<()> {
    let key = key_at(case, "key", trial)?;
    scan_key(segment, &key, case, trial)
}

fn find_with<L: Ledger>(segment: &Segment, key: &Key, time: i64, blank: Blank) -> Option<u64>
    requires name { blank.name ≡ L.name }
    requires parts { blank.parts ≡ L.parts }
    requires some { 0 < blank.parts }
{
    let mut steps = Steps::<L>::new(blank);
    segment.find(key, time, &mut steps)
}

/// The place of the row of a series and a time.
fn place_of(segment: &Segment, key: &Key, time: i64) -> Option<u64> {
    find_with::<Brand>(segment, key, time, Blank::new(1))
}

fn put_place(place: Option<u64>, trial: &mut Trial) {
    match place {
        Some(place) => trial.wide(i128::from(place)),
        None => trial.null(),
    }
}

fn put_places(segment: &Segment, key: &Key, times: &[i64], trial: &mut Trial) {
    trial.ok();
    trial.open("[");
    for time in times {
        put_place(place_of(segment, key, *time), trial);
    }
    trial.close("]}");
}

/// The places of the rows of a series and some times, or null.
pub fn find(segment: &Segment, case: &Value, trial: &mut Trial) -> Option<()> {
    let times = trial.numbers(case, "times");
    let key = key_at(case, "key", trial)?;
    put_places(segment, &key, times.as_slice(), trial);
    Some(())
}

/// Whether the row at a place is found there, and none a moment later.
fn is_found(segment: &Segment, place: usize, time: i64) -> bool {
    if place >= segment.len() {
        return false;
    }
    let key = segment.key_at(segment.series_at(place));
    place_of(segment, key, time) == Some(place as u64)
        && place_of(segment, key, time.wrapping_add(1)).is_none()
}

fn check_places(segment: &Segment, times: &[i64]) -> Checks {
    let mut checks = Checks::new();
    for (place, time) in times.iter().enumerate() {
        checks.note(is_found(segment, place, *time));
    }
    checks
}

/// Each row is looked up, of which none has another one a moment later: how many there are, and how many aren't found at their places.
pub fn find_all(segment: &Segment, trial: &mut Trial) -> Option<()> {
    let times = segment.times(trial.alloc, 0, segment.len()).ok()?;
    check_places(segment, times.as_slice()).put("rows", trial);
    Some(())
}

/// The place of a field of the case, which is a gauge.
pub fn gauge_field(segment: &Segment, case: &Value) -> Option<u32>
    ensures { IfSome result (IsGaugeAt segment.now.schema.fields) }
{
    let place = case.get("field")?.as_u64()?;
    if place > 1_000 {
        return None;
    }
    let field = place as u32;
    if is_gauge_at(segment.schema().fields.as_slice(), field) {
        Some(field)
    } else {
        None
    }
}

/// What values add up to, or null.
pub fn put_gauge(gauge: Gauge, trial: &mut Trial) {
    trial.ok();
    match gauge.0 {
        Some(parts) => put_parts(&parts, trial),
        None => trial.null(),
    }
    trial.close("}");
}

/// What a gauge adds up to over a series and a range of times.
pub fn gauge(segment: &Segment, case: &Value, trial: &mut Trial) -> Option<()> {
    let field = gauge_field(segment, case)?;
    let key = key_at(case, "key", trial)?;
    let from = trial.number(case, "from");
    let to = trial.number(case, "to");
    put_gauge(segment.gauge(&key, field, from, to), trial);
    Some(())
}
