//! Bytes, and series by their numbers.
ghost use Rattle.std.specs.Prelude.{◌<◌, IfSome, length};
ghost use Rattle.index_segment.specs.Directory.{keys_of};

use crate::places::place_at;
use index_segment::{Range, Segment};
use probe_case::Trial;
use probe_rows::{interval_at, key_at, ok_rows, put_cells};
use serde_json::Value;

/// The bytes of a segment.
pub fn bytes(segment: &Segment, trial: &mut Trial) -> Option<()> {
    let bytes = segment.bytes(trial.alloc).ok()?;
    trial.ok_hex(bytes.as_slice());
    Some(())
}

fn put_range(range: Range, trial: &mut Trial) {
    trial.open("[");
    trial.count(range.first);
    trial.count(range.last);
    trial.close("]");
}

/// A series: its key, the places of its rows, its latest and earliest time, and the cells of its dimensions.
fn put_series(segment: &Segment, series: usize, trial: &mut Trial) -> Option<()>
    requires { series < length (keys_of segment.now.rows) }
{
    trial.open("{");
    trial.name("key");
    trial.hex(segment.key_at(series).bytes());
    trial.name("rows");
    put_range(segment.series_rows(series), trial);
    trial.name("latest");
    trial.whole(segment.latest(series));
    trial.name("earliest");
    trial.whole(segment.earliest(series));
    trial.name("heads");
    let heads = segment.heads(trial.alloc, series).ok()?;
    put_cells(segment.schema().fields.as_slice(), heads.as_slice(), trial);
    trial.close("}");
    Some(())
}

/// How many rows and documents there are, and each series.
pub fn directory(segment: &Segment, trial: &mut Trial) -> Option<()> {
    trial.ok();
    trial.open("{");
    trial.count_at("rows", segment.len());
    trial.name("documents");
    trial.wide(i128::from(segment.documents()));
    trial.name("series");
    trial.open("[");
    for series in 0..segment.series_count() {
        put_series(segment, series, trial)?;
    }
    trial.close("]}}");
    Some(())
}

/// The number of the series of a key, or null.
pub fn number(segment: &Segment, case: &Value, trial: &mut Trial) -> Option<()> {
    let key = key_at(case, "key", trial)?;
    trial.ok();
    match segment.series(&key) {
        Some(series) => trial.count(series),
        None => trial.null(),
    }
    trial.close("}");
    Some(())
}

/// The number of a series that there is.
fn series_at(segment: &Segment, case: &Value) -> Option<usize>
    ensures { IfSome result (λ series. series < length (keys_of segment.now.rows)) }
{
    let series = place_at(case, "series")?;
    if series < segment.series_count() {
        Some(series)
    } else {
        None
    }
}

/// The places of a series' rows in a range of times.
pub fn range(segment: &Segment, case: &Value, trial: &mut Trial) -> Option<()> {
    let series = series_at(segment, case)?;
    let from = trial.number(case, "from");
    let to = trial.number(case, "to");
    trial.ok();
    put_range(segment.range(series, from, to), trial);
    trial.close("}");
    Some(())
}

/// The rows of a series and a range of times, folded by an interval.
pub fn fold(segment: &Segment, case: &Value, trial: &mut Trial) -> Option<()> {
    let series = series_at(segment, case)?;
    let by = interval_at(case, "by")?;
    let from = trial.number(case, "from");
    let to = trial.number(case, "to");
    let folded = segment.fold_series(trial.alloc, series, from, to, by).ok()?;
    ok_rows(segment.schema(), folded.as_slice(), trial);
    Some(())
}
