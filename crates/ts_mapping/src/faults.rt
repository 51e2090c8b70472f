//! The first fault of a body.
ghost use Rattle.std.specs.Prelude.{◌≡◌, ◌++◌, IfOk, Some, is_some, option_map};
ghost use Rattle.serde_json.specs.View.{view};
ghost use Rattle.ts_mapping.specs.Faults as spec;
ghost use Rattle.ts_mapping.specs.Looks as looks;
ghost use Rattle.ts_mapping.specs.Seen.{properties_seen, settings_seen};
ghost use Rattle.ts_mapping.specs.Settings.{value_of as value_at};
ghost use Rattle.ts_mapping.specs.declared.settings.Key.TheVariants.{Shards};

use crate::body::mappings;
use crate::clashes::clash;
use crate::kinds::MapKind;
use crate::limits::MOST_FIELDS;
use crate::looks::{Demand, failing, number_of_fields};
use crate::properties::PropertyAt;
use crate::routing::{bad_entry, has_dimension};
use crate::settings::{Key, SettingAt, shards_of, value_of};
use crate::trees::member;
use edge_face::{NoMemory, Text};
use row_cells::Field;
use serde_json::Value;
use std::alloc::Global;

/// A kind of fault, and the least path that has it.
#[derive(Drop)]
pub struct Fault {
    pub kind: MapKind,
    pub path: Text,
}

/// The number of shards that some settings give, 1 where they give none.
pub fn shards(settings: &[SettingAt<'_>]) -> Option<u32>
    ensures { result ≡ spec.given_shards (value_at Shards (settings_seen settings.now)) }
{
    match value_of(Key::Shards, settings) {
        None => Some(1),
        Some(value) => shards_of(value),
    }
}

fn strictness(value: &Value) -> Option<bool>
    ensures { result ≡ spec.strictness (view value.now) }
{
    match value {
        Value::Bool(flag) => { if *flag { None } else { Some(false) } }
        Value::String(text) => {
            if text.as_str() == "strict" {
                Some(true)
            } else {
                None
            }
        }
        Value::Null | Value::Number(_) | Value::Array(_) | Value::Object(_) => None,
    }
}

/// Whether a path that isn't mapped is refused: where nothing is said, and by `"strict"`, but not by `false`.
#[tactic(auto, unfolding(crate::specs::Faults::strict_of))]
pub fn strict(body: &Value) -> Option<bool>
    ensures { result ≡ spec.strict_of (view body.now) }
{
    match member(mappings(body), "dynamic") {
        None => Some(true),
        Some(value) => strictness(value),
    }
}

/// A fault of a kind without a path of the body.
fn named(alloc: Global, kind: MapKind, path: &str) -> Result<Option<Fault>, NoMemory>
    ensures { IfOk result (λ fault. fault ≡ Some (record { kind = kind; path = path.now })) }
{
    let path = Text::new(alloc, path)?;
    Ok(Some(Fault { kind, path }))
}

/// What the looks at the number of shards, at `dynamic`, and at the types and the number of the fields find first.
#[tactic(auto, unfolding(crate::specs::Faults::type_faults, crate::specs::Faults::count_faults))]
pub fn type_fault(
    alloc: Global,
    shards: Option<u32>,
    strict: Option<bool>,
    properties: &[PropertyAt<'_>],
) -> Result<Option<Fault>, NoMemory>
    ensures { IfOk result (λ fault. fault ≡ spec.first_of (looks.type_looks shards strict (properties_seen properties.now))) }
{
    if shards.is_none() {
        return named(alloc, MapKind::BadShards, "number_of_shards");
    }
    if strict.is_none() {
        return named(alloc, MapKind::BadDynamic, "dynamic");
    }
    if let Some(path) = failing(alloc, Demand::IsTyped, properties)? {
        return Ok(Some(Fault {
            kind: MapKind::UnknownType,
            path,
        }));
    }
    if number_of_fields(properties) > MOST_FIELDS {
        return named(alloc, MapKind::TooManyFields, "");
    }
    Ok(None)
}

/// What the looks at roles find first.
#[tactic(auto, unfolding(crate::specs::Faults::timestamp_faults, crate::specs::Faults::role_faults))]
fn role_fault(alloc: Global, properties: &[PropertyAt<'_>]) -> Result<Option<Fault>, NoMemory>
    ensures { IfOk result (λ fault. fault ≡ spec.first_of (looks.field_looks (properties_seen properties.now))) }
{
    if let Some(path) = clash(alloc, properties)? {
        return Ok(Some(Fault {
            kind: MapKind::PathClash,
            path,
        }));
    }
    if let Some(path) = failing(alloc, Demand::MayBeTime, properties)? {
        return Ok(Some(Fault {
            kind: MapKind::BadTimestamp,
            path,
        }));
    }
    match failing(alloc, Demand::HasRole, properties)? {
        None => Ok(None),
        Some(path) => Ok(Some(Fault {
            kind: MapKind::BadRole,
            path,
        })),
    }
}

/// What the looks at dimensions and routing find first.
#[tactic(auto, unfolding(crate::specs::Faults::dimension_faults))]
fn routing_fault(
    alloc: Global,
    fields: &[Field],
    entries: Option<&[Text]>,
) -> Result<Option<Fault>, NoMemory>
    ensures { IfOk result (λ fault. fault ≡ spec.first_of (looks.routing_looks fields.now (option_map (λ es. es.now) entries.entry))) }
{
    if !has_dimension(fields) {
        return named(alloc, MapKind::NoDimension, "");
    }
    match bad_entry(alloc, fields, entries)? {
        None => Ok(None),
        Some(path) => Ok(Some(Fault {
            kind: MapKind::BadRouting,
            path,
        })),
    }
}

/// What the looks at paths, roles and routing find first.
pub fn later_fault(
    alloc: Global,
    properties: &[PropertyAt<'_>],
    fields: &[Field],
    entries: Option<&[Text]>,
) -> Result<Option<Fault>, NoMemory>
    ensures { IfOk result (λ fault. fault ≡ spec.first_of
        (looks.field_looks (properties_seen properties.now) ++ looks.routing_looks fields.now (option_map (λ es. es.now) entries.entry))) }
{
    if let Some(fault) = role_fault(alloc, properties)? {
        return Ok(Some(fault));
    }
    routing_fault(alloc, fields, entries)
}
