//! What an aggregation says of itself: its kind, and the field that it asks.
ghost use Rattle.std.specs.Prelude.{◌≡◌, ◌<◌, ◌^◌, length};
ghost use Rattle.serde_json.specs.View.{view};
ghost use Rattle.histogram_aggs.specs.Kinds.{metric_named};
ghost use Rattle.histogram_aggs.specs.Reading as spec;
ghost use Rattle.histogram_aggs.specs.SeenParts.{seen_value};

use crate::aggs::AggKind;
use crate::limits::MOST_BUCKETS;
use json_walk::{has_no_other, only_member, whole_between};
use row_cells::Field;
use serde_json::Value;
use time_text::Interval;

/// The kind of an aggregation, and the place of its field, if there is one of that path.
#[derive(Clone, Copy)]
pub struct Said {
    pub kind: AggKind,
    pub field: Option<u32>,
}

/// How many buckets of values are shown where a body doesn't say it.
const USUAL_SIZE: u64 = 10;

fn size_in(value: Option<&Value>) -> Option<u64>
    ensures { result ≡ spec.size_in (seen_value value.entry) }
{
    match value {
        None => Some(USUAL_SIZE),
        Some(value) => {
            let size = whole_between(value, 1, MOST_BUCKETS as i64)?;
            Some(size.unsigned_abs())
        }
    }
}

fn least_in(value: Option<&Value>) -> Option<u64>
    ensures { result ≡ spec.least_in (seen_value value.entry) }
{
    match value {
        None => Some(0),
        Some(value) => {
            let least = whole_between(value, 0, 9_223_372_036_854_775_807)?;
            Some(least.unsigned_abs())
        }
    }
}

fn order_named(name: &str, way: &str) -> Option<Option<bool>>
    ensures { result ≡ spec.order_named name.now way.now }
{
    if name == "_count" {
        if way == "desc" { Some(None) } else { None }
    } else if name == "_key" {
        if way == "asc" {
            Some(Some(true))
        } else if way == "desc" {
            Some(Some(false))
        } else {
            None
        }
    } else {
        None
    }
}

fn order_in(value: Option<&Value>) -> Option<Option<bool>>
    ensures { result ≡ spec.order_in (seen_value value.entry) }
{
    let Some(value) = value else {
        return Some(None);
    };
    let (name, way) = only_member(value)?;
    let way = way.as_str()?;
    order_named(name, way)
}

#[tactic(auto, unfolding(crate::specs::Reading::terms_in))]
fn terms_in(value: &Value) -> Option<AggKind>
    ensures { result ≡ spec.terms_in (view value.now) }
{
    if !has_no_other(value, &["field", "order", "size"]) {
        return None;
    }
    let size = size_in(value.get("size"))?;
    let by_key = order_in(value.get("order"))?;
    Some(AggKind::Terms { size, by_key })
}

fn interval_at(value: Option<&Value>) -> Option<Interval>
    ensures { result ≡ spec.interval_at (seen_value value.entry) }
{
    let text = value?.as_str()?;
    match Interval::read(text) {
        Ok(interval) => Some(interval),
        Err(_) => None,
    }
}

#[tactic(auto, unfolding(crate::specs::Reading::histogram_in))]
fn histogram_in(value: &Value) -> Option<AggKind>
    ensures { result ≡ spec.histogram_in (view value.now) }
{
    if !has_no_other(value, &["field", "fixed_interval", "min_doc_count"]) {
        return None;
    }
    let interval = interval_at(value.get("fixed_interval"))?;
    let min_doc_count = least_in(value.get("min_doc_count"))?;
    Some(AggKind::DateHistogram {
        interval,
        min_doc_count,
    })
}

fn metric_of(name: &str) -> Option<AggKind>
    ensures { result ≡ metric_named name.now }
{
    if name == "min" {
        Some(AggKind::Min)
    } else if name == "max" {
        Some(AggKind::Max)
    } else if name == "sum" {
        Some(AggKind::Sum)
    } else if name == "value_count" {
        Some(AggKind::ValueCount)
    } else if name == "increase" {
        Some(AggKind::Increase)
    } else {
        None
    }
}

#[tactic(auto, unfolding(crate::specs::Reading::metric_in))]
fn metric_in(name: &str, value: &Value) -> Option<AggKind>
    ensures { result ≡ spec.metric_in name.now (view value.now) }
{
    if has_no_other(value, &["field"]) {
        metric_of(name)
    } else {
        None
    }
}

#[tactic(auto, unfolding(crate::specs::Reading::kind_in))]
fn kind_in(name: &str, value: &Value) -> Option<AggKind>
    ensures { result ≡ spec.kind_in name.now (view value.now) }
{
    if name == "terms" {
        terms_in(value)
    } else if name == "date_histogram" {
        histogram_in(value)
    } else {
        metric_in(name, value)
    }
}

fn place_of(fields: &[Field], path: &str) -> Option<u32>
    requires { length fields.now < 2 ^ 32 }
    ensures { result ≡ spec.place_from 0 fields.now path.now }
{
    for at in 0..fields.len() {
        if fields[at].path.as_str() == path {
            return Some(at as u32);
        }
    }
    None
}

/// What the member of an aggregation of that name says, if it is one of a kind.
#[tactic(auto, unfolding(crate::specs::Reading::said_by))]
pub fn said_by(fields: &[Field], name: &str, value: &Value) -> Option<Said>
    requires { length fields.now < 2 ^ 32 }
    ensures { result ≡ spec.said_by fields.now name.now (view value.now) }
{
    let kind = kind_in(name, value)?;
    let path = value.get("field")?.as_str()?;
    Some(Said {
        kind,
        field: place_of(fields, path),
    })
}
