//! The aggregations of a body.
ghost use Rattle.std.specs.Prelude.{◌≡◌, ◌≢◌, ◌<◌, ◌^◌, length, option_map, IfOk, IfErr, OnOk, Ok, Err, Option, Some, None};
ghost use Rattle.std.specs.List.{list_any};
ghost use Rattle.serde_json.specs.View.{view, members_view};
ghost use Rattle.histogram_aggs.specs.Reading as spec;
ghost use Rattle.histogram_aggs.specs.Asks.{Asks};
ghost use Rattle.histogram_aggs.specs.Kinds as kinds;
ghost use Rattle.histogram_aggs.specs.Reading.{aggs_of, asks_at, asks_in, held_in, one_at};
ghost use Rattle.histogram_aggs.specs.Seen.{seen, seen_before};
ghost use Rattle.histogram_aggs.specs.SeenParts.{seen_held, seen_one};

use crate::aggs::{Agg, AggKind};
use crate::errors::AggError;
use crate::saying::{Said, said_by};
use crate::wrongs::least_wrong;
use edge_face::{NoMemory, Text};
use row_cells::{Field, Schema};
use serde_json::{Map, Value};
use sqlite_items::Items;
use std::alloc::Global;

/// What is read of the members of an aggregation so far.
#[derive(Drop)]
pub struct Gathered {
    pub said: Option<Said>,
    pub below: Option<Items<Agg>>,
}

/// An aggregation without its name.
#[derive(Drop)]
pub struct Nameless {
    pub said: Said,
    pub below: Items<Agg>,
}

fn is_mark(byte: u8) -> bool
    ensures { result ≡ spec.is_mark byte }
{
    byte == b'[' || byte == b']' || byte == b'>'
}

fn has_mark(name: &[u8]) -> bool
    ensures { result ≡ list_any spec.is_mark name.now }
{
    for byte in name {
        if is_mark(*byte) {
            return true;
        }
    }
    false
}

fn is_name(name: &str) -> bool
    ensures { result ≡ spec.is_name name.now }
{
    let bytes = name.as_bytes();
    match bytes.split_first() {
        None => false,
        Some(_) => !has_mark(bytes),
    }
}

fn is_below(name: &str) -> bool
    ensures { result ≡ spec.is_below name.now }
{
    name == "aggs" || name == "aggregations"
}

fn has_buckets(kind: AggKind) -> bool
    ensures { result ≡ kinds.has_buckets kind }
{
    match kind {
        AggKind::Min | AggKind::Max | AggKind::Sum | AggKind::ValueCount | AggKind::Increase =>
            false,
        AggKind::Terms { .. } | AggKind::DateHistogram { .. } => true,
    }
}

fn without_name(alloc: Global, gathered: Gathered) -> Option<Nameless>
    ensures { option_map seen_one result ≡ spec.one_of (seen_held gathered) }
{
    let Gathered { said, below } = gathered;
    let said = said?;
    match below {
        None => Some(Nameless {
            said,
            below: Items::new(alloc),
        }),
        Some(below) => {
            if has_buckets(said.kind) {
                Some(Nameless { said, below })
            } else {
                None
            }
        }
    }
}

fn with_said(gathered: Gathered, said: Option<Said>) -> Option<Gathered>
    ensures { option_map seen_held result ≡ spec.with_said (seen_held gathered) said }
{
    let said = said?;
    let Gathered {
        said: before,
        below,
    } = gathered;
    match before {
        None => Some(Gathered {
            said: Some(said),
            below,
        }),
        Some(_) => None,
    }
}

fn with_below(gathered: Gathered, below: Items<Agg>) -> Option<Gathered>
    ensures { option_map seen_held result ≡ spec.with_below (seen_held gathered) (Some (seen below)) }
{
    let Gathered {
        said,
        below: before,
    } = gathered;
    match before {
        None => Some(Gathered {
            said,
            below: Some(below),
        }),
        Some(_) => None,
    }
}

/// An aggregation more, of that name.
#[tactic(auto, using(crate::proofs::ReadingSteps::named_step))]
fn push_named(alloc: Global, aggs: &mut Vec<Agg>, name: &str, one: Nameless) -> Result<(), NoMemory>
    ensures { OnOk result ((others : Option Asks) → option_map (seen_before aggs.new.items) others
        ≡ option_map (seen_before aggs.old.items) (spec.named_in_front name.now (Some (seen_one one)) others)) }
{
    let Nameless { said, below } = one;
    let agg = Agg {
        name: Text::new(alloc, name)?,
        kind: said.kind,
        field: said.field,
        subs: below,
    };
    aggs.push(agg)?;
    Ok(())
}

#[cycle(read)]
fn read_level(alloc: Global, value: &Value, fields: &[Field]) -> Result<Option<Vec<Agg>>, NoMemory>
    requires { length fields.now < 2 ^ 32 }
    ensures { IfOk result (λ found. option_map (λ aggs. seen aggs.items) found ≡ asks_at fields.now (view value.now)) }
{
    match value {
        Value::Null | Value::Bool(_) | Value::Number(_) | Value::String(_) | Value::Array(_) => {
            Ok(None)
        }
        Value::Object(members) => read_named(alloc, members, fields),
    }
}

#[cycle(read)]
fn read_named(
    alloc: Global,
    members: &Map<String, Value>,
    fields: &[Field],
) -> Result<Option<Vec<Agg>>, NoMemory>
    requires { length fields.now < 2 ^ 32 }
    ensures { IfOk result (λ found. option_map (λ aggs. seen aggs.items) found ≡ asks_in fields.now (members_view members.now.entries)) }
{
    let mut aggs = Vec::new(alloc);
    for (name, value) in members.iter() {
        if !is_name(name.as_str()) {
            return Ok(None);
        }
        let Some(one) = read_one(alloc, value, fields)? else {
            return Ok(None);
        };
        push_named(alloc, &mut aggs, name.as_str(), one)?;
    }
    Ok(Some(aggs))
}

#[cycle(read)]
fn read_one(alloc: Global, value: &Value, fields: &[Field]) -> Result<Option<Nameless>, NoMemory>
    requires { length fields.now < 2 ^ 32 }
    ensures { IfOk result (λ found. option_map seen_one found ≡ one_at fields.now (view value.now)) }
{
    match value {
        Value::Null | Value::Bool(_) | Value::Number(_) | Value::String(_) | Value::Array(_) => {
            Ok(None)
        }
        Value::Object(members) => {
            let found = read_members(alloc, members, fields)?;
            match found {
                None => Ok(None),
                Some(gathered) => Ok(without_name(alloc, gathered)),
            }
        }
    }
}

#[cycle(read)]
fn read_members(
    alloc: Global,
    members: &Map<String, Value>,
    fields: &[Field],
) -> Result<Option<Gathered>, NoMemory>
    requires { length fields.now < 2 ^ 32 }
    ensures { IfOk result (λ found. option_map seen_held found
        ≡ held_in fields.now (record { said = None; below = None }) (members_view members.now.entries)) }
{
    let mut held = Gathered {
        said: None,
        below: None,
    };
    for (name, value) in members.iter() {
        let next = if is_below(name.as_str()) {
            let Some(below) = read_level(alloc, value, fields)? else {
                return Ok(None);
            };
            with_below(held, Items::from_vec(below))
        } else {
            with_said(held, said_by(fields, name.as_str(), value))
        };
        match next {
            None => return Ok(None),
            Some(next) => held = next,
        }
    }
    Ok(Some(held))
}

/// Reads the aggregations of a body: an object from names to objects of one kind, which asks a `field`, and where the
/// kind has buckets may ask those of each bucket under `aggs` or `aggregations`. They stand in byte order of names.
///
/// A body that isn't so is `Shape`; else a kind that may not ask its field is `WrongField`, of several the one of least
/// path in byte order, and then of least kind. A path that no field has is asked without values.
pub fn read_aggs(alloc: Global, body: &Value, schema: &Schema) -> Result<Vec<Agg>, AggError>
    requires { length schema.now.fields < 2 ^ 32 }
    ensures aggs { IfOk result (λ aggs. aggs_of schema.now.fields (view body.now) ≡ Ok (seen aggs.items)) }
    ensures refused { IfErr result (λ e. e ≢ AggError.NoMemory → aggs_of schema.now.fields (view body.now) ≡ Err e) }
{
    let fields = schema.fields.as_slice();
    let Some(aggs) = read_level(alloc, body, fields)? else {
        return Err(AggError::Shape);
    };
    match least_wrong(aggs.as_slice(), fields) {
        None => Ok(aggs),
        Some(wrong) => Err(AggError::WrongField {
            path: wrong.path.copy(alloc)?,
            kind: Text::fixed(wrong.kind),
        }),
    }
}
