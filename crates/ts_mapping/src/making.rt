//! A body, read as a template or as its first fault.
ghost use Rattle.std.specs.Prelude.{◌≡◌, ◌≤◌, ◌++◌, ℕ, None, Some, [], IfOk, is_some, length, option_map, unwrap_or};
ghost use Rattle.serde_json.specs.View.{view};
ghost use Rattle.ts_mapping.specs.Faults.{entries_of, first_of, leaves_of};
ghost use Rattle.ts_mapping.specs.Looks.{early_looks};
ghost use Rattle.ts_mapping.specs.Fields.{fields_of};
ghost use Rattle.ts_mapping.specs.Least.{least};
ghost use Rattle.ts_mapping.specs.Limits.{most_fields};
ghost use Rattle.ts_mapping.specs.Outcomes.{IsReadAs};
ghost use Rattle.ts_mapping.specs.Seen.{properties_seen, settings_seen};
ghost use Rattle.ts_mapping.specs.Settings.{settings_of};
ghost use Rattle.ts_mapping.specs.Shapes.{patterns_of, shape_faults};
ghost use Rattle.ts_mapping.specs.Templates as spec;

use crate::body::{patterns, priority};
use crate::faults::{Fault, later_fault, shards, strict};
use crate::fields::fields;
use crate::gathering::{Gathered, gather};
use crate::limits::{USUAL_LOOK_AHEAD, USUAL_LOOK_BACK};
use crate::properties::PropertyAt;
use crate::routing::{entries, routing};
use crate::settings::{Key, SettingAt, look_of, value_of};
use crate::templates::Template;
use edge_face::{NoMemory, Text};
use row_cells::{Field, Schema};
use serde_json::Value;
use sqlite_items::Items;
use std::alloc::Global;

/// What a body was read as.
#[derive(Drop)]
pub enum Outcome {
    Made(Template),
    Faulty(Fault),
}

/// A time that a setting gives to look back or ahead, or the usual one.
fn look_at(key: Key, usual: i64, settings: &[SettingAt<'_>]) -> i64
    ensures { result ≡ spec.look_at key usual (settings_seen settings.now) }
{
    match value_of(key, settings).and_then(look_of) {
        None => usual,
        Some(look) => look,
    }
}

fn slice_of(entries: &Option<Items<Text>>) -> Option<&[Text]>
    ensures { option_map (λ es. es.now) result ≡ entries.now }
{
    match entries {
        None => None,
        Some(entries) => Some(entries.as_slice()),
    }
}

/// The schema of some fields.
fn schema(alloc: Global, fields: Items<Field>, entries: Option<&[Text]>) -> Result<Schema, NoMemory>
    requires { length fields ≤ most_fields }
    ensures { IfOk result (λ schema. schema ≡ spec.schema_with fields (option_map (λ es. es.now) entries.entry)) }
{
    let routing = routing(alloc, fields.as_slice(), entries)?;
    Ok(Schema {
        fields,
        routing: Items::from_vec(routing),
        folded: false,
        rises: true,
    })
}

/// The patterns of a body, none where they are ill-formed.
fn patterns_or_none(alloc: Global, body: &Value) -> Result<Items<Text>, NoMemory>
    ensures { IfOk result (λ found. found ≡ unwrap_or (patterns_of (view body.now)) []) }
{
    match patterns(alloc, body)? {
        None => Ok(Items::new(alloc)),
        Some(patterns) => Ok(patterns),
    }
}

/// The template of a body, with its settings and its schema.
#[tactic(auto, unfolding(crate::specs::Templates::template_of, crate::specs::Faults::shards_in))]
fn make(
    alloc: Global,
    name: &Text,
    body: &Value,
    settings: &[SettingAt<'_>],
    schema: Schema,
) -> Result<Template, NoMemory>
    requires settings { settings_seen settings.now ≡ settings_of (view body.now) }
    requires schema { schema ≡ spec.schema_of (view body.now) }
    ensures { IfOk result (λ t. t ≡ spec.template_of name.now (view body.now)) }
{
    Ok(Template {
        name: name.copy(alloc)?,
        patterns: patterns_or_none(alloc, body)?,
        priority: priority(body).unwrap_or(0),
        strict: strict(body).unwrap_or(true),
        shards: shards(settings).unwrap_or(1),
        look_back: look_at(Key::LookBack, USUAL_LOOK_BACK, settings),
        look_ahead: look_at(Key::LookAhead, USUAL_LOOK_AHEAD, settings),
        schema,
    })
}

/// The template of what a body sent, or the fault that the late looks find first.
#[tactic(auto, unfolding(crate::specs::Faults::entries_of, crate::specs::Templates::schema_of))]
fn read_sent(
    alloc: Global,
    name: &Text,
    body: &Value,
    settings: &[SettingAt<'_>],
    leaves: &[PropertyAt<'_>],
) -> Result<Outcome, NoMemory>
    requires settings { settings_seen settings.now ≡ settings_of (view body.now) }
    requires leaves { properties_seen leaves.now ≡ leaves_of (view body.now) }
    requires shape { least (shape_faults (view body.now)) ≡ None }
    requires early { first_of (early_looks (view body.now)) ≡ None }
    ensures { IfOk result (IsReadAs name.now (view body.now)) }
{
    let fields = fields(alloc, leaves)?;
    let entries = entries(alloc, settings)?;
    if let Some(fault) = later_fault(alloc, leaves, fields.as_slice(), slice_of(&entries))? {
        return Ok(Outcome::Faulty(fault));
    }
    let schema = schema(alloc, fields, slice_of(&entries))?;
    let template = make(alloc, name, body, settings, schema)?;
    Ok(Outcome::Made(template))
}

/// Reads a body as a template of that name, or as its first fault.
pub fn read_body(alloc: Global, name: &Text, body: &Value) -> Result<Outcome, NoMemory>
    ensures { IfOk result (IsReadAs name.now (view body.now)) }
{
    match gather(alloc, body)? {
        Gathered::Refused(fault) => Ok(Outcome::Faulty(fault)),
        Gathered::Sent(settings, leaves) => read_sent(alloc, name, body, &settings, &leaves),
    }
}
