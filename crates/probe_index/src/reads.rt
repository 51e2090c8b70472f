//! What an index of a case answers.
ghost use Rattle.std.specs.Prelude.{◌<◌, length, IfSome};
ghost use Rattle.index_segment.specs.Looks.{IsGaugeAt};

use fold_law::Gauge;
use probe_case::{Checks, Trial, has};
use probe_rows::{interval_at, key_at, ok_rows, put_parts, put_row};
use row_cells::{Key, Row};
use sample_rows::is_gauge_at;
use serde_json::Value;
use tsds_index::TsdsIndex;

/// How many rows each segment of a shard has, the oldest first, and how many wait in its buffer.
fn put_shard(index: &TsdsIndex, shard: u32, trial: &mut Trial)
    requires { shard < length index.now.parts }
{
    trial.open("[");
    for segment in index.segments(shard) {
        trial.count(segment.len());
    }
    trial.wide(i128::from(index.buffered(shard)));
    trial.close("]");
}

/// How many rows, series and places that weren't free there are, and the rows of each shard that has some.
pub fn state(index: &TsdsIndex, doubles: usize, trial: &mut Trial) {
    trial.ok();
    trial.open("{");
    trial.name("rows");
    trial.wide(i128::from(index.len()));
    trial.name("series");
    trial.wide(i128::from(index.series_count()));
    trial.count_at("doubles", doubles);
    trial.name("shards");
    trial.open("[");
    for shard in 0..index.shard_count() {
        put_shard(index, shard, trial);
    }
    trial.close("]}}");
}

/// The keys of all series, one after the other.
pub fn keys(index: &TsdsIndex, trial: &mut Trial) {
    trial.ok();
    trial.open("[");
    let mut walk = index.walk();
    while let Some(key) = walk.next() {
        trial.hex(key.bytes());
    }
    trial.close("]}");
}

/// The first key behind a key, or of all, or null.
pub fn key_after(index: &TsdsIndex, case: &Value, trial: &mut Trial) -> Option<()> {
    let key = if has(case, "key") {
        Some(key_at(case, "key", trial)?)
    } else {
        None
    };
    match index.series_after(trial.alloc, key.as_ref()).ok()? {
        Some(next) => trial.ok_hex(next.bytes()),
        None => trial.ok_null(),
    }
    Some(())
}

/// The row of a series and a time, or null.
pub fn row(index: &TsdsIndex, case: &Value, trial: &mut Trial) -> Option<()> {
    let time = trial.number(case, "time");
    let key = key_at(case, "key", trial)?;
    let found = index.get(trial.alloc, &key, time).ok()?;
    trial.ok();
    match &found {
        Some(row) => put_row(index.schema(), row, trial),
        None => trial.null(),
    }
    trial.close("}");
    Some(())
}

/// The rows of a series and a range of times.
pub fn rows(index: &TsdsIndex, case: &Value, trial: &mut Trial) -> Option<()> {
    let from = trial.number(case, "from");
    let to = trial.number(case, "to");
    let key = key_at(case, "key", trial)?;
    let rows = index.read_series(trial.alloc, &key, from, to).ok()?;
    ok_rows(index.schema(), rows.as_slice(), trial);
    Some(())
}

/// How many rows a series and a range of times have.
pub fn count(index: &TsdsIndex, case: &Value, trial: &mut Trial) -> Option<()> {
    let from = trial.number(case, "from");
    let to = trial.number(case, "to");
    let key = key_at(case, "key", trial)?;
    trial.ok();
    trial.wide(i128::from(index.row_count(&key, from, to)));
    trial.close("}");
    Some(())
}

/// The folds of a series and a range of times.
pub fn folds(index: &TsdsIndex, case: &Value, trial: &mut Trial) -> Option<()> {
    let from = trial.number(case, "from");
    let to = trial.number(case, "to");
    let by = interval_at(case, "by")?;
    let key = key_at(case, "key", trial)?;
    let rows = index.fold_series(trial.alloc, &key, from, to, by).ok()?;
    ok_rows(index.schema(), rows.as_slice(), trial);
    Some(())
}

/// The place of a field of the case, which is a gauge.
fn gauge_field(index: &TsdsIndex, case: &Value) -> Option<u32>
    ensures { IfSome result (IsGaugeAt index.now.schema.fields) }
{
    let place = case.get("field")?.as_u64()?;
    if place > 1_000 {
        return None;
    }
    let field = place as u32;
    if is_gauge_at(index.schema().fields.as_slice(), field) {
        Some(field)
    } else {
        None
    }
}

fn put_gauge(gauge: Gauge, trial: &mut Trial) {
    trial.ok();
    match gauge.0 {
        Some(parts) => put_parts(&parts, trial),
        None => trial.null(),
    }
    trial.close("}");
}

/// What a gauge adds up to over a series and a range of times.
pub fn gauge(index: &TsdsIndex, case: &Value, trial: &mut Trial) -> Option<()> {
    let field = gauge_field(index, case)?;
    let key = key_at(case, "key", trial)?;
    let from = trial.number(case, "from");
    let to = trial.number(case, "to");
    put_gauge(index.gauge(&key, field, from, to), trial);
    Some(())
}

/// Whether a row is found, and none a moment later.
fn is_found(index: &TsdsIndex, key: &Key, row: &Row, trial: &Trial) -> Option<bool> {
    let found = index.get(trial.alloc, key, row.time).ok()?;
    let later = index.get(trial.alloc, key, row.time.wrapping_add(1)).ok()?;
    Some(matches!(&found, Some(found) if found.time == row.time) && later.is_none())
}

/// Each row of a series is looked up, of which none has another one a moment later: how many there are, and how many aren't found.
pub fn found(index: &TsdsIndex, case: &Value, trial: &mut Trial) -> Option<()> {
    let key = key_at(case, "key", trial)?;
    let rows = index.read_series(trial.alloc, &key, 0, i64::MAX).ok()?;
    let mut checks = Checks::new();
    for row in rows.as_slice() {
        checks.note(is_found(index, &key, row, trial)?);
    }
    checks.put("rows", trial);
    Some(())
}
