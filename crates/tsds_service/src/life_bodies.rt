//! The body that is a lifecycle.
ghost use Rattle.std.specs.Prelude.{◌≡◌, IfOk, Some};
ghost use Rattle.std.specs.Option.{option_map};
ghost use Rattle.lifecycle_swap.specs.Bodies as spec;
ghost use Rattle.serde_json.specs.View.{items_view, view};

use crate::bodies::interval_in;
use edge_face::NoMemory;
use json_walk::{has_names, has_no_other};
use lifecycle_swap::{Lifecycle, Round};
use serde_json::Value;
use sqlite_items::Items;
use std::alloc::Global;
use time_text::Interval;

fn round_in(value: &Value) -> Option<Round>
    ensures { result ≡ spec.round_of (view value.now) }
{
    if !has_names(value, &["after", "fixed_interval"]) {
        return None;
    }
    let after = interval_in(value.get("after")?)?;
    let by = interval_in(value.get("fixed_interval")?)?;
    Some(Round { after, by })
}

fn rounds_among(alloc: Global, items: &[Value]) -> Result<Option<Vec<Round>>, NoMemory>
    ensures { IfOk result (λ found. option_map (λ rounds. rounds.items) found ≡ spec.rounds_in (items_view items.now)) }
{
    let mut rounds = Vec::new(alloc);
    for item in items {
        match round_in(item) {
            Some(round) => rounds.push(round)?,
            None => return Ok(None),
        }
    }
    Ok(Some(rounds))
}

fn rounds_in(alloc: Global, value: &Value) -> Result<Option<Vec<Round>>, NoMemory>
    ensures { IfOk result (λ found. option_map (λ rounds. rounds.items) found ≡ spec.rounds_of (view value.now)) }
{
    match value {
        Value::Array(items) => {
            let rounds = rounds_among(alloc, items.as_slice())?;
            Ok(rounds)
        }
        Value::Null | Value::Bool(_) | Value::Number(_) | Value::String(_) | Value::Object(_) => {
            Ok(None)
        }
    }
}

fn rounds_if_any(alloc: Global, value: Option<&Value>) -> Result<Option<Vec<Round>>, NoMemory>
    ensures { IfOk result (λ found. option_map (λ rounds. rounds.items) found ≡ spec.rounds_if_any (option_map (λ v. view v.now) value.entry)) }
{
    match value {
        Some(value) => {
            let rounds = rounds_in(alloc, value)?;
            Ok(rounds)
        }
        None => Ok(Some(Vec::new(alloc))),
    }
}

fn retention_in(value: Option<&Value>) -> Option<Option<Interval>>
    ensures { result ≡ spec.retention_in (option_map (λ v. view v.now) value.entry) }
{
    match value {
        Some(value) => match interval_in(value) {
            Some(retention) => Some(Some(retention)),
            None => None,
        },
        None => Some(None),
    }
}

fn life_with(retention: Option<Interval>, rounds: Vec<Round>) -> Option<Lifecycle>
    ensures { result ≡ spec.life_with (Some retention) (Some rounds.items) }
{
    let life = Lifecycle {
        retention,
        rounds: Items::from_vec(rounds),
    };
    if life.is_sound() { Some(life) } else { None }
}

/// The lifecycle that a body is, if it is one.
#[tactic(auto, unfolding(lifecycle_swap::specs::Bodies::lifecycle_of))]
pub(crate) fn lifecycle_of(alloc: Global, body: &Value) -> Result<Option<Lifecycle>, NoMemory>
    ensures { IfOk result (λ life. life ≡ spec.lifecycle_of (view body.now)) }
{
    if !has_no_other(body, &["data_retention", "downsampling"]) {
        return Ok(None);
    }
    let Some(retention) = retention_in(body.get("data_retention")) else {
        return Ok(None);
    };
    match rounds_if_any(alloc, body.get("downsampling"))? {
        Some(rounds) => Ok(life_with(retention, rounds)),
        None => Ok(None),
    }
}
