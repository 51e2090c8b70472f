//! The fields that properties are.
ghost use Rattle.std.specs.Prelude.{◌≡◌, ◌++◌, IfOk, OnOk, [], option_map, option_and_then, Some};
ghost use Rattle.serde_json.specs.View.{view};
ghost use Rattle.row_cells.specs.declared.schemas.Field.{Field as FieldData};
ghost use Rattle.ts_mapping.specs.Seen.{properties_seen, property_of, seen};
ghost use Rattle.ts_mapping.specs.Sorted.{field_if, fields_in};
ghost use Rattle.ts_mapping.specs.Fields as spec;
ghost use Rattle.ts_mapping.specs.Roles as roles;

use crate::properties::PropertyAt;
use crate::trees::is_text;
use edge_face::{NoMemory, Text};
use row_cells::{Field, FieldType, Role};
use serde_json::Value;
use sqlite_items::Items;
use std::alloc::Global;
use std::collections::BTreeMap;

/// The field that every template has.
pub const TIMESTAMP: &str = "@timestamp";

/// The type and the role of a field.
#[derive(Clone, Copy)]
pub struct Typed {
    pub kind: FieldType,
    pub role: Role,
}

fn kind_named(name: &str) -> Option<FieldType>
    ensures { result ≡ spec.kind_named name.now }
{
    if name == "date" {
        Some(FieldType::Date)
    } else if name == "keyword" {
        Some(FieldType::Keyword)
    } else if name == "long" {
        Some(FieldType::Long)
    } else if name == "integer" {
        Some(FieldType::Integer)
    } else if name == "short" {
        Some(FieldType::Short)
    } else if name == "byte" {
        Some(FieldType::Byte)
    } else if name == "boolean" {
        Some(FieldType::Boolean)
    } else if name == "aggregate_metric_double" {
        Some(FieldType::Aggregate)
    } else {
        None
    }
}

/// The type of a property.
#[tactic(auto, unfolding(crate::specs::Fields::kind_of))]
pub fn kind_of(value: &Value) -> Option<FieldType>
    ensures { result ≡ spec.kind_of (view value.now) }
{
    let name = value.get("type")?.as_str()?;
    kind_named(name)
}

/// Whether a property is to be a dimension.
#[tactic(auto, unfolding(crate::specs::Fields::is_dimension))]
pub fn is_dimension(value: &Value) -> bool
    ensures { result ≡ spec.is_dimension (view value.now) }
{
    match value.get("time_series_dimension").and_then(Value::as_bool) {
        None => false,
        Some(flag) => flag,
    }
}

/// What `time_series_metric` says.
pub fn metric_of(value: &Value) -> Option<&Value>
    ensures { seen result ≡ spec.metric_of (view value.now) }
{
    value.get("time_series_metric")
}

/// The role that a value of `time_series_metric` names.
pub fn metric_named(metric: &Value) -> Option<Role>
    ensures { result ≡ spec.metric_named (view metric.now) }
{
    if is_text(metric, "gauge") {
        Some(Role::Gauge)
    } else if is_text(metric, "counter") {
        Some(Role::Counter)
    } else {
        None
    }
}

pub fn is_date(kind: FieldType) -> bool
    ensures { result ≡ roles.is_date kind }
{
    match kind {
        FieldType::Date => true,
        FieldType::Keyword
        | FieldType::Long
        | FieldType::Integer
        | FieldType::Short
        | FieldType::Byte
        | FieldType::Boolean
        | FieldType::Aggregate => false,
    }
}

fn is_aggregate(kind: FieldType) -> bool
    ensures { result ≡ roles.is_aggregate kind }
{
    match kind {
        FieldType::Aggregate => true,
        FieldType::Date
        | FieldType::Keyword
        | FieldType::Long
        | FieldType::Integer
        | FieldType::Short
        | FieldType::Byte
        | FieldType::Boolean => false,
    }
}

fn is_whole(kind: FieldType) -> bool
    ensures { result ≡ roles.is_whole kind }
{
    match kind {
        FieldType::Long | FieldType::Integer | FieldType::Short | FieldType::Byte => true,
        FieldType::Date | FieldType::Keyword | FieldType::Boolean | FieldType::Aggregate => false,
    }
}

fn may_be_dimension(kind: FieldType) -> bool
    ensures { result ≡ roles.may_be_dimension kind }
{
    match kind {
        FieldType::Keyword
        | FieldType::Long
        | FieldType::Integer
        | FieldType::Short
        | FieldType::Byte
        | FieldType::Boolean => true,
        FieldType::Date | FieldType::Aggregate => false,
    }
}

/// Whether a field of the type may have the role.
pub fn may_have(kind: FieldType, role: Role) -> bool
    ensures { result ≡ roles.may_have kind role }
{
    match role {
        Role::Time => is_date(kind),
        Role::Dimension => may_be_dimension(kind),
        Role::Gauge => is_whole(kind) || is_aggregate(kind),
        Role::Counter => is_whole(kind),
        Role::Label => !is_aggregate(kind),
    }
}

fn role_if_had(kind: FieldType, role: Role) -> Option<Role>
    ensures { result ≡ spec.role_if_had kind role }
{
    if may_have(kind, role) {
        Some(role)
    } else {
        None
    }
}

/// The role of a property without `time_series_metric`.
fn plain_role(kind: FieldType, dimension: bool) -> Option<Role>
    ensures { result ≡ spec.plain_role kind dimension }
{
    if dimension {
        role_if_had(kind, Role::Dimension)
    } else if is_aggregate(kind) {
        Some(Role::Gauge)
    } else {
        Some(Role::Label)
    }
}

fn role_by(kind: FieldType, dimension: bool, metric: Option<&Value>) -> Option<Role>
    ensures { result ≡ spec.role_by kind dimension (seen metric.entry) }
{
    let Some(metric) = metric else {
        return plain_role(kind, dimension);
    };
    if dimension {
        return None;
    }
    let role = metric_named(metric)?;
    role_if_had(kind, role)
}

fn time_role(kind: FieldType, dimension: bool, metric: Option<&Value>) -> Option<Role>
    ensures { result ≡ spec.time_role kind dimension (seen metric.entry) }
{
    if metric.is_none() && is_date(kind) && !dimension {
        Some(Role::Time)
    } else {
        None
    }
}

/// The role of a property of a type, if it may have the one that it asks for.
#[tactic(auto, unfolding(crate::specs::Fields::role_of))]
pub fn role_of(kind: FieldType, property: &PropertyAt<'_>) -> Option<Role>
    ensures { result ≡ spec.role_of kind (property_of property.now) }
{
    let dimension = is_dimension(property.value);
    let metric = metric_of(property.value);
    if property.path.as_str() == TIMESTAMP {
        time_role(kind, dimension, metric)
    } else {
        role_by(kind, dimension, metric)
    }
}

/// The type and the role of a property.
#[tactic(auto, unfolding(crate::specs::Fields::field_of))]
fn typed_of(property: &PropertyAt<'_>) -> Option<Typed>
    ensures { field_if property.now.path result ≡ spec.field_of (property_of property.now) }
{
    let kind = kind_of(property.value)?;
    let role = role_of(kind, property)?;
    Some(Typed { kind, role })
}

/// Whether `@timestamp` is mapped.
pub fn has_time(properties: &[PropertyAt<'_>]) -> bool
    ensures { result ≡ spec.has_time (properties_seen properties.now) }
{
    for property in properties {
        if TIMESTAMP == property.path.as_str() {
            return true;
        }
    }
    false
}

type Sorted = BTreeMap<Text, Typed>;

#[tactic(auto, using(crate::proofs::SortedLemmas::put_in))]
fn put(alloc: Global, path: &str, typed: Typed, sorted: &mut Sorted) -> Result<(), NoMemory>
    ensures { OnOk result (fields_in sorted.new.entries
        ≡ spec.put_field (record { path = path.now; kind = typed.kind; role = typed.role }) (fields_in sorted.old.entries)) }
{
    let path = Text::new(alloc, path)?;
    let _ = sorted.insert(path, typed)?;
    Ok(())
}

/// The field of the time, where the properties have none.
fn with_time(alloc: Global, properties: &[PropertyAt<'_>]) -> Result<Sorted, NoMemory>
    ensures { IfOk result (λ s. fields_in s.entries ≡ spec.added_time (properties_seen properties.now)) }
{
    let mut sorted = BTreeMap::new(alloc);
    if has_time(properties) {
        return Ok(sorted);
    }
    let time = Typed {
        kind: FieldType::Date,
        role: Role::Time,
    };
    put(alloc, TIMESTAMP, time, &mut sorted)?;
    Ok(sorted)
}

#[tactic(auto, unfolding(crate::specs::Fields::fields_of))]
fn sorted(alloc: Global, properties: &[PropertyAt<'_>]) -> Result<Sorted, NoMemory>
    ensures { IfOk result (λ s. fields_in s.entries ≡ spec.fields_of (properties_seen properties.now)) }
{
    let mut sorted = with_time(alloc, properties)?;
    for property in properties {
        if let Some(typed) = typed_of(property) {
            put(alloc, property.path.as_str(), typed, &mut sorted)?;
        }
    }
    Ok(sorted)
}

fn in_order(alloc: Global, sorted: Sorted) -> Result<Vec<Field>, NoMemory>
    ensures { IfOk result (λ fields. fields.items ≡ fields_in sorted.entries) }
{
    let mut fields = Vec::with_capacity(alloc, sorted.len())?;
    for (path, typed) in sorted {
        fields.push(Field {
            path,
            kind: typed.kind,
            role: typed.role,
        })?;
    }
    Ok(fields)
}

/// The fields that properties are, with `@timestamp`, ascending by path.
pub fn fields(alloc: Global, properties: &[PropertyAt<'_>]) -> Result<Items<Field>, NoMemory>
    ensures { IfOk result (λ fields. fields ≡ spec.fields_of (properties_seen properties.now)) }
{
    let sorted = sorted(alloc, properties)?;
    let fields = in_order(alloc, sorted)?;
    Ok(Items::from_vec(fields))
}
