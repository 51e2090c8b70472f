//! Queries that have no query inside.
ghost use Rattle.std.specs.Prelude.{◌≡◌, IfOk, OnOk};
ghost use Rattle.serde_json.specs.Data.{object};
ghost use Rattle.serde_json.specs.View.{members_view, view};
ghost use Rattle.json_walk.specs.Shapes.{only_member as only_member_of};
ghost use Rattle.time_text.specs.Instant.{IsInstant};
ghost use Rattle.search_filter.specs.Faults.{worst_with};
ghost use Rattle.search_filter.specs.Reading as spec;

use crate::faults::Faults;
use crate::places::{Reader, places_below};
use crate::query::Query;
use crate::ranges::read_range;
use crate::terms::{read_term, read_terms};
use edge_face::NoMemory;
use json_walk::{has_names, only_member};
use serde_json::Value;

/// Reads what stands under `match_all`.
fn read_all(value: &Value, faults: &mut Faults) -> Query
    ensures query { result ≡ (spec.all_of (view value.now)).value }
    ensures faults { faults.new ≡ worst_with faults.old (spec.all_of (view value.now)).faults }
{
    if has_names(value, &[]) {
        Query::All
    } else {
        faults.note_shape();
        Query::Nothing
    }
}

fn exists_at(reader: Reader<'_>, value: &Value, faults: &mut Faults) -> Result<Query, NoMemory>
    ensures query { IfOk result (λ q. q ≡ (spec.exists_at reader.entry.fields.now (view value.now)).value) }
    ensures faults { OnOk result (faults.new ≡ worst_with faults.old (spec.exists_at reader.entry.fields.now (view value.now)).faults) }
{
    match value {
        Value::String(path) => Ok(Query::Has {
            fields: places_below(reader, path.as_str())?,
        }),
        Value::Null | Value::Bool(_) | Value::Number(_) | Value::Array(_) | Value::Object(_) => {
            faults.note_shape();
            Ok(Query::Nothing)
        }
    }
}

/// Reads what stands under `exists`.
fn read_exists(reader: Reader<'_>, value: &Value, faults: &mut Faults) -> Result<Query, NoMemory>
    ensures query { IfOk result (λ q. q ≡ (spec.exists_of reader.entry.fields.now (only_member_of (view value.now))).value) }
    ensures faults { OnOk result (faults.new ≡ worst_with faults.old (spec.exists_of reader.entry.fields.now (only_member_of (view value.now))).faults) }
{
    match only_member(value) {
        Some((name, named)) if name == "field" => exists_at(reader, named, faults),
        _ => {
            faults.note_shape();
            Ok(Query::Nothing)
        }
    }
}

/// Reads a query by its name, where it has no query inside.
pub fn read_leaf(
    reader: Reader<'_>,
    name: &str,
    value: &Value,
    faults: &mut Faults,
) -> Result<Query, NoMemory>
    requires { IsInstant reader.present }
    ensures query { IfOk result (λ q. q ≡ (spec.leaf_of reader.entry.present reader.entry.fields.now name.now (view value.now)).value) }
    ensures faults { OnOk result (faults.new ≡ worst_with faults.old (spec.leaf_of reader.entry.present reader.entry.fields.now name.now (view value.now)).faults) }
{
    if name == "match_all" {
        Ok(read_all(value, faults))
    } else if name == "term" {
        read_term(reader, value, faults)
    } else if name == "terms" {
        read_terms(reader, value, faults)
    } else if name == "range" {
        read_range(reader, value, faults)
    } else if name == "exists" {
        read_exists(reader, value, faults)
    } else {
        faults.note_shape();
        Ok(Query::Nothing)
    }
}
