//! The form of single properties.
ghost use Rattle.std.specs.Prelude.{◌≡◌, ◌++◌, IfOk, OnOk, Some, is_some};
ghost use Rattle.serde_json.specs.View.{view};
ghost use Rattle.ts_mapping.specs.Least.{fault_unless, least, least_with};
ghost use Rattle.ts_mapping.specs.Seen.{seen, settings_seen};
ghost use Rattle.ts_mapping.specs.Shapes as spec;
ghost use Rattle.ts_mapping.specs.Settings.{settings_of};
ghost use Rattle.ts_mapping.specs.Walks.{known_settings};

use crate::body::{check_body, check_template};
use crate::fields::kind_of;
use crate::least::Least;
use crate::levels::check_properties;
use crate::paths::is_field_path;
use crate::settings::{SettingAt, check_settings};
use crate::trees::{
    check_names, has_member, has_to_be_text, is_among, may_be_flag, may_be_object, may_be_text,
    texts,
};
use edge_face::{NoMemory, Text};
use json_walk::is_object;
use row_cells::FieldType;
use serde_json::Value;
use std::alloc::Global;

/// Tells what is ill-formed in a level of properties.
#[tactic(auto, using(crate::proofs::LeastLemmas::least_with_append), unfolding(crate::specs::Shapes::level_faults))]
fn check_level(alloc: Global, value: &Value, place: &str, least: &mut Least) -> Result<(), NoMemory>
    ensures { OnOk result (least.new ≡ least_with least.old (spec.level_faults place.now (view value.now))) }
{
    check_names(alloc, value, &["properties", "type"], Some(place), least)?;
    let kind = may_be_text(value.get("type"), "object");
    least.note_under(alloc, kind, place, "type")?;
    let properties = may_be_object(value.get("properties"));
    least.note_under(alloc, properties, place, "properties")
}

fn are_all_metrics(names: &[Text]) -> bool
    ensures { result ≡ spec.are_all_metrics (Some names.now) }
{
    names.len() == 4
        && is_among("max", names)
        && is_among("min", names)
        && is_among("sum", names)
        && is_among("value_count", names)
}

/// Whether `metrics` stands in an aggregate with all four metrics, or not at all in another type.
fn metrics_formed(alloc: Global, aggregate: bool, metrics: Option<&Value>) -> Result<bool, NoMemory>
    ensures { IfOk result (λ formed. formed ≡ spec.metrics_formed aggregate (seen metrics.entry)) }
{
    let Some(metrics) = metrics else {
        return Ok(!aggregate);
    };
    if !aggregate {
        return Ok(false);
    }
    match texts(alloc, metrics)? {
        None => Ok(false),
        Some(names) => Ok(are_all_metrics(names.as_slice())),
    }
}

/// Whether `default_metric` stands in an aggregate and is `max`, or not at all in another type.
fn default_formed(aggregate: bool, metric: Option<&Value>) -> bool
    ensures { result ≡ spec.default_formed aggregate (seen metric.entry) }
{
    if aggregate {
        has_to_be_text(metric, "max")
    } else {
        metric.is_none()
    }
}

fn is_aggregate_type(kind: Option<FieldType>) -> bool
    ensures { result ≡ spec.is_aggregate_type kind }
{
    match kind {
        None => false,
        Some(FieldType::Aggregate) => true,
        Some(_) => false,
    }
}

#[tactic(auto, using(crate::proofs::LeastLemmas::least_with_append), unfolding(crate::specs::Shapes::member_faults))]
fn check_members(
    alloc: Global,
    value: &Value,
    place: &str,
    least: &mut Least,
) -> Result<(), NoMemory>
    ensures { OnOk result (least.new ≡ least_with least.old (spec.member_faults place.now (view value.now))) }
{
    let known = &[
        "default_metric",
        "meta",
        "metrics",
        "time_series_dimension",
        "time_series_metric",
        "type",
    ];
    check_names(alloc, value, known, Some(place), least)?;
    let kind = has_member(value, "type");
    least.note_under(alloc, kind, place, "type")?;
    let dimension = may_be_flag(value.get("time_series_dimension"));
    least.note_under(alloc, dimension, place, "time_series_dimension")
}

#[tactic(auto, using(crate::proofs::LeastLemmas::least_with_append), unfolding(crate::specs::Shapes::aggregate_faults))]
fn check_aggregate(
    alloc: Global,
    value: &Value,
    place: &str,
    least: &mut Least,
) -> Result<(), NoMemory>
    ensures { OnOk result (least.new ≡ least_with least.old (spec.aggregate_faults place.now (view value.now))) }
{
    let aggregate = is_aggregate_type(kind_of(value));
    let metrics = metrics_formed(alloc, aggregate, value.get("metrics"))?;
    least.note_under(alloc, metrics, place, "metrics")?;
    let metric = default_formed(aggregate, value.get("default_metric"));
    least.note_under(alloc, metric, place, "default_metric")
}

/// Tells what is ill-formed in a field.
#[tactic(auto, using(crate::proofs::LeastLemmas::least_with_append))]
fn check_field(alloc: Global, value: &Value, place: &str, least: &mut Least) -> Result<(), NoMemory>
    ensures { OnOk result (least.new ≡ least_with least.old (spec.field_faults place.now (view value.now))) }
{
    check_members(alloc, value, place, least)?;
    check_aggregate(alloc, value, place, least)
}

/// Tells what is ill-formed in the value of a property.
fn check_value(alloc: Global, value: &Value, place: &str, least: &mut Least) -> Result<(), NoMemory>
    ensures { OnOk result (least.new ≡ least_with least.old (spec.value_faults place.now (view value.now))) }
{
    if !is_object(value) {
        return least.note(alloc, place);
    }
    if has_member(value, "properties") {
        check_level(alloc, value, place, least)
    } else {
        check_field(alloc, value, place, least)
    }
}

/// Tells what is ill-formed in a property.
#[tactic(auto, using(crate::proofs::LeastLemmas::least_with_append), unfolding(crate::specs::Shapes::property_faults))]
pub fn check_property(
    alloc: Global,
    value: &Value,
    place: &str,
    path: &str,
    least: &mut Least,
) -> Result<(), NoMemory>
    ensures { OnOk result (least.new
        ≡ least_with least.old (spec.property_faults (record { place = place.now; property = record { path = path.now; value = view value.now } }))) }
{
    let sound = is_field_path(path);
    least.note_unless(alloc, sound, place)?;
    check_value(alloc, value, place, least)
}

/// The least place of a body that is ill-formed. The settings are those of the body that have the name of one.
#[tactic(auto, using(crate::proofs::LeastLemmas::least_with_append), unfolding(crate::specs::Shapes::shape_faults))]
pub fn shape_fault(
    alloc: Global,
    body: &Value,
    settings: &[SettingAt<'_>],
) -> Result<Option<Text>, NoMemory>
    requires { settings_seen settings.now ≡ known_settings (settings_of (view body.now)) }
    ensures { IfOk result (λ path. path ≡ least (spec.shape_faults (view body.now))) }
{
    let mut least = Least::new();
    check_body(alloc, body, &mut least)?;
    check_template(alloc, body, &mut least)?;
    check_settings(alloc, body, settings, &mut least)?;
    check_properties(alloc, body, &mut least)?;
    Ok(least.into_path())
}
