//! Aggregations of bodies, and what metrics answer.
ghost use Rattle.std.specs.Prelude.{◌≡◌, IfSome, true};
ghost use Rattle.histogram_aggs.specs.Tallies.{is_measure};

use fold_law::{Gauge, Parts};
use histogram_aggs::{Agg, AggError, AggKind, metric_out, read_aggs};
use json_walk::whole;
use probe_case::Trial;
use probe_rows::schema_at;
use reply_json::{Out, print};
use serde_json::Value;
use time_text::Interval;

/// How many buckets are shown, and by which order of keys.
fn put_terms(size: u64, by_key: Option<bool>, trial: &mut Trial) {
    trial.word("terms");
    trial.wide(i128::from(size));
    match by_key {
        Some(rising) => trial.flag(rising),
        None => trial.null(),
    }
}

/// How long a bucket is, and how many documents it has at least.
fn put_histogram(interval: Interval, least: u64, trial: &mut Trial) {
    trial.word("date_histogram");
    trial.whole(interval.ms());
    trial.wide(i128::from(least));
}

fn put_kind(kind: &AggKind, trial: &mut Trial) {
    match kind {
        AggKind::Min => trial.word("min"),
        AggKind::Max => trial.word("max"),
        AggKind::Sum => trial.word("sum"),
        AggKind::ValueCount => trial.word("value_count"),
        AggKind::Increase => trial.word("increase"),
        AggKind::Terms { size, by_key } => put_terms(*size, *by_key, trial),
        AggKind::DateHistogram {
            interval,
            min_doc_count,
        } => put_histogram(*interval, *min_doc_count, trial),
    }
}

fn put_names(aggs: &[Agg], trial: &mut Trial) {
    trial.open("[");
    for agg in aggs {
        trial.word(agg.name.as_str());
    }
    trial.close("]");
}

fn put_field(field: Option<u32>, trial: &mut Trial) {
    match field {
        Some(place) => trial.whole(i64::from(place)),
        None => trial.null(),
    }
}

/// An aggregation: its name, the place of its field, the names of those below it, and its kind.
fn put_agg(agg: &Agg, trial: &mut Trial) {
    trial.open("[");
    trial.word(agg.name.as_str());
    put_field(agg.field, trial);
    put_names(agg.subs.as_slice(), trial);
    put_kind(&agg.kind, trial);
    trial.close("]");
}

fn put_aggs(aggs: &[Agg], trial: &mut Trial) {
    trial.ok();
    trial.open("[");
    for agg in aggs {
        put_agg(agg, trial);
    }
    trial.close("]}");
}

pub fn put_error(error: AggError, trial: &mut Trial) {
    match error {
        AggError::Shape => trial.refused("Shape"),
        AggError::WrongField { path, kind } => {
            trial.err("WrongField");
            trial.name("path");
            trial.word(path.as_str());
            trial.name("kind");
            trial.word(kind.as_str());
            trial.close("}");
        }
        AggError::TooManyBuckets => trial.refused("TooManyBuckets"),
        AggError::NoMemory => trial.give_up(),
    }
}

/// The aggregations of a body, or why there are none.
pub fn read(case: &Value, trial: &mut Trial) -> Option<()> {
    let schema = schema_at(trial.alloc, case, "template")?;
    if schema.fields.len() > 1_000 {
        return None;
    }
    match read_aggs(trial.alloc, case.get("aggs")?, &schema) {
        Ok(aggs) => put_aggs(aggs.as_slice(), trial),
        Err(error) => put_error(error, trial),
    }
    Some(())
}

fn metric_named(name: &str) -> Option<AggKind>
    ensures { IfSome result (λ kind. is_measure kind ≡ true) }
{
    match name {
        "min" => Some(AggKind::Min),
        "max" => Some(AggKind::Max),
        "sum" => Some(AggKind::Sum),
        "value_count" => Some(AggKind::ValueCount),
        _ => None,
    }
}

/// The gauge of least, greatest, sum and number of values, or of no values.
fn gauge_of(element: &Value) -> Option<Gauge> {
    if element.is_null() {
        return Some(Gauge(None));
    }
    let [min, max, sum, count] = element.as_array()?.as_slice().first_chunk::<4>()?;
    Some(Gauge(Some(Parts {
        min: whole(min)?,
        max: whole(max)?,
        sum: i128::from(whole(sum)?),
        count: i128::from(whole(count)?),
    })))
}

fn put_out(out: &Out, trial: &mut Trial) -> Option<()> {
    let mut text = Vec::new(trial.alloc);
    print(out, &mut text).ok()?;
    trial.ok();
    trial.json(text.as_slice());
    trial.close("}");
    Some(())
}

/// What a metric answers of rows with a gauge.
pub fn metric(case: &Value, trial: &mut Trial) -> Option<()> {
    let kind = metric_named(trial.word_at(case, "kind"))?;
    let gauge = gauge_of(case.get("gauge")?)?;
    match metric_out(trial.alloc, &kind, &gauge) {
        Ok(out) => put_out(&out, trial),
        Err(_) => None,
    }
}
