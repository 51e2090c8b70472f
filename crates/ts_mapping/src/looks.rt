//! Looks at the single fields of a template.
ghost use Rattle.std.specs.Prelude.{◌≡◌, ◌++◌, IfOk, is_some, option_and_then};
ghost use Rattle.serde_json.specs.View.{view};
ghost use Rattle.ts_mapping.specs.Faults as spec;
ghost use Rattle.ts_mapping.specs.Least.{all_faults, least};
ghost use Rattle.ts_mapping.specs.Looks.{passes as passes_test};
ghost use Rattle.ts_mapping.specs.Seen.{properties_seen, property_of, seen};

use crate::fields::{
    TIMESTAMP, has_time, is_date, is_dimension, kind_of, metric_named, metric_of, role_of,
};
use crate::least::Least;
use crate::path_set::PathSet;
use crate::properties::PropertyAt;
use edge_face::{NoMemory, Text};
use row_cells::FieldType;
use serde_json::Value;
use std::alloc::Global;

/// What a look demands of each property.
#[derive(Clone, Copy)]
pub enum Demand {
    /// Its type is one of fields.
    IsTyped,
    /// At `@timestamp` it is a date without a role.
    MayBeTime,
    /// It may have the role that it asks for.
    HasRole,
}

fn is_date_type(kind: Option<FieldType>) -> bool
    ensures { result ≡ spec.is_date_type kind }
{
    match kind {
        None => false,
        Some(kind) => is_date(kind),
    }
}

fn names_metric(metric: Option<&Value>) -> bool
    ensures { result ≡ spec.names_metric (seen metric.entry) }
{
    match metric {
        None => false,
        Some(metric) => metric_named(metric).is_some(),
    }
}

fn is_time(value: &Value) -> bool
    ensures { result ≡ spec.is_time (view value.now) }
{
    is_date_type(kind_of(value)) && !is_dimension(value) && !names_metric(metric_of(value))
}

fn may_be_time(property: &PropertyAt<'_>) -> bool
    ensures { result ≡ spec.may_be_time (property_of property.now) }
{
    property.path.as_str() != TIMESTAMP || is_time(property.value)
}

fn has_role(property: &PropertyAt<'_>) -> bool
    ensures { result ≡ spec.has_role (property_of property.now) }
{
    match kind_of(property.value) {
        None => false,
        Some(kind) => role_of(kind, property).is_some(),
    }
}

fn passes(demand: Demand, property: &PropertyAt<'_>) -> bool
    ensures { result ≡ passes_test demand (property_of property.now) }
{
    match demand {
        Demand::IsTyped => kind_of(property.value).is_some(),
        Demand::MayBeTime => may_be_time(property),
        Demand::HasRole => has_role(property),
    }
}

/// The least path of the properties that fail a demand.
pub fn failing(
    alloc: Global,
    demand: Demand,
    properties: &[PropertyAt<'_>],
) -> Result<Option<Text>, NoMemory>
    ensures { IfOk result (λ path. path ≡ least (all_faults (spec.fails (passes_test demand)) (properties_seen properties.now))) }
{
    let mut least = Least::new();
    for property in properties {
        let passed = passes(demand, property);
        least.note_unless(alloc, passed, property.path.as_str())?;
    }
    Ok(least.into_path())
}

/// How many fields the properties are, with `@timestamp`.
pub fn number_of_fields(properties: &[PropertyAt<'_>]) -> usize
    ensures { result ≡ spec.number_of_fields (properties_seen properties.now) }
{
    if has_time(properties) {
        properties.len()
    } else {
        properties.len() + 1
    }
}
