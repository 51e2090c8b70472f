//! The members of a body, of its `template` and of the `mappings`.
ghost use Rattle.std.specs.Prelude.{◌≡◌, ◌++◌, IfOk, OnOk, map, option_map};
ghost use Rattle.std.specs.List.{list_all};
ghost use Rattle.serde_json.specs.View.{view};
ghost use Rattle.index_names.specs.Patterns.{is_pattern as is_pattern_of};
ghost use Rattle.ts_mapping.specs.Least.{fault_unless, least_with};
ghost use Rattle.ts_mapping.specs.Seen.{seen};
ghost use Rattle.ts_mapping.specs.Properties.{mappings_of as mappings_in};
ghost use Rattle.ts_mapping.specs.Shapes as spec;

use crate::least::Least;
use crate::limits::{GREATEST_PRIORITY, MOST_PATTERNS};
use crate::trees::{
    check_names, has_to_be_object, may_be_empty_list, may_be_object, member, texts,
};
use edge_face::{NoMemory, Text};
use index_names::is_pattern;
use json_walk::is_object;
use serde_json::Value;
use sqlite_items::Items;
use std::alloc::Global;

pub fn are_patterns(patterns: &[Text]) -> bool
    ensures { result ≡ list_all is_pattern_of patterns.now }
{
    patterns
        .iter()
        .all(|pattern| is_pattern(pattern.as_bytes()))
}

/// The patterns of a body, if they are 1 to 16.
#[tactic(auto, unfolding(crate::specs::Shapes::patterns_of))]
pub fn patterns(alloc: Global, body: &Value) -> Result<Option<Items<Text>>, NoMemory>
    ensures { IfOk result (λ found. found ≡ spec.patterns_of (view body.now)) }
{
    let Some(value) = body.get("index_patterns") else {
        return Ok(None);
    };
    let Some(patterns) = texts(alloc, value)? else {
        return Ok(None);
    };
    let number = patterns.len();
    if 1 <= number && number <= MOST_PATTERNS && are_patterns(patterns.as_slice()) {
        Ok(Some(patterns))
    } else {
        Ok(None)
    }
}

/// The priority of a body, 0 where it has none.
#[tactic(auto, unfolding(crate::specs::Shapes::priority_of))]
pub fn priority(body: &Value) -> Option<u32>
    ensures { result ≡ spec.priority_of (view body.now) }
{
    let Some(value) = body.get("priority") else {
        return Some(0);
    };
    let number = value.as_u64()?;
    if number <= GREATEST_PRIORITY {
        Some(number as u32)
    } else {
        None
    }
}

#[tactic(auto, using(crate::proofs::LeastLemmas::least_with_append), unfolding(crate::specs::Shapes::names_faults))]
fn check_body_names(alloc: Global, body: &Value, least: &mut Least) -> Result<(), NoMemory>
    ensures { OnOk result (least.new ≡ least_with least.old (spec.names_faults (view body.now))) }
{
    least.note_unless(alloc, is_object(body), "")?;
    let known = &[
        "_meta",
        "composed_of",
        "data_stream",
        "index_patterns",
        "priority",
        "template",
        "version",
    ];
    check_names(alloc, body, known, None, least)
}

#[tactic(auto, using(crate::proofs::LeastLemmas::least_with_append), unfolding(crate::specs::Shapes::stream_faults))]
fn check_stream(alloc: Global, body: &Value, least: &mut Least) -> Result<(), NoMemory>
    ensures { OnOk result (least.new ≡ least_with least.old (spec.stream_faults (view body.now))) }
{
    let patterns = patterns(alloc, body)?;
    least.note_unless(alloc, patterns.is_some(), "index_patterns")?;
    let stream = has_to_be_object(body.get("data_stream"));
    least.note_unless(alloc, stream, "data_stream")
}

#[tactic(auto, using(crate::proofs::LeastLemmas::least_with_append), unfolding(crate::specs::Shapes::choice_faults))]
fn check_choices(alloc: Global, body: &Value, least: &mut Least) -> Result<(), NoMemory>
    ensures { OnOk result (least.new ≡ least_with least.old (spec.choice_faults (view body.now))) }
{
    least.note_unless(alloc, priority(body).is_some(), "priority")?;
    let components = may_be_empty_list(body.get("composed_of"));
    least.note_unless(alloc, components, "composed_of")
}

/// Tells what of the members of the body is ill-formed, but for what is inside `template`.
#[tactic(auto, using(crate::proofs::LeastLemmas::least_with_append))]
pub fn check_body(alloc: Global, body: &Value, least: &mut Least) -> Result<(), NoMemory>
    ensures { OnOk result (least.new ≡ least_with least.old (spec.body_faults (view body.now))) }
{
    check_body_names(alloc, body, least)?;
    check_stream(alloc, body, least)?;
    check_choices(alloc, body, least)
}

/// The member `mappings` of a body's template.
pub fn mappings(body: &Value) -> Option<&Value>
    ensures { seen result ≡ mappings_in (view body.now) }
{
    member(body.get("template"), "mappings")
}

/// Tells the members of a value that have none of these names, if there is the value.
fn check_names_at(
    alloc: Global,
    value: Option<&Value>,
    known: &[&str],
    place: &str,
    least: &mut Least,
) -> Result<(), NoMemory>
    ensures { OnOk result (least.new
        ≡ least_with least.old (spec.unknown_at (map (λ n. n.now) known.now) place.now (seen value.entry))) }
{
    match value {
        None => Ok(()),
        Some(value) => check_names(alloc, value, known, Some(place), least),
    }
}

#[tactic(auto, using(crate::proofs::LeastLemmas::least_with_append), unfolding(crate::specs::Shapes::template_member_faults))]
fn check_template_members(alloc: Global, body: &Value, least: &mut Least) -> Result<(), NoMemory>
    ensures { OnOk result (least.new ≡ least_with least.old (spec.template_member_faults (view body.now))) }
{
    let template = body.get("template");
    least.note_unless(alloc, has_to_be_object(template), "template")?;
    check_names_at(
        alloc,
        template,
        &["mappings", "settings"],
        "template",
        least,
    )?;
    let settings = has_to_be_object(member(template, "settings"));
    least.note_unless(alloc, settings, "template.settings")
}

#[tactic(auto, using(crate::proofs::LeastLemmas::least_with_append), unfolding(crate::specs::Shapes::mappings_faults))]
fn check_mappings(alloc: Global, body: &Value, least: &mut Least) -> Result<(), NoMemory>
    ensures { OnOk result (least.new ≡ least_with least.old (spec.mappings_faults (view body.now))) }
{
    let mappings = mappings(body);
    least.note_unless(alloc, may_be_object(mappings), "template.mappings")?;
    let known = &["dynamic", "properties"];
    check_names_at(alloc, mappings, known, "template.mappings", least)?;
    let properties = may_be_object(member(mappings, "properties"));
    least.note_unless(alloc, properties, "template.mappings.properties")
}

/// Tells what of the members of `template` and of `mappings` is ill-formed, but for settings and properties.
#[tactic(auto, using(crate::proofs::LeastLemmas::least_with_append))]
pub fn check_template(alloc: Global, body: &Value, least: &mut Least) -> Result<(), NoMemory>
    ensures { OnOk result (least.new ≡ least_with least.old (spec.template_faults (view body.now))) }
{
    check_template_members(alloc, body, least)?;
    check_mappings(alloc, body, least)
}
