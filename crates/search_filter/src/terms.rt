//! Queries that name values.
ghost use Rattle.std.specs.Prelude.{◌≡◌, ◌≢◌, ◌++◌, IfOk, OnOk, Some, nat_le};
ghost use Rattle.serde_json.specs.View.{items_view, view};
ghost use Rattle.json_walk.specs.Shapes.{only_member as only_member_of};
ghost use Rattle.search_filter.specs.Faults.{worst_with};
ghost use Rattle.search_filter.specs.Limits.{most_terms};
ghost use Rattle.search_filter.specs.Reading as spec;
ghost use Rattle.search_filter.specs.Seen.{data_seen};

use crate::faults::Faults;
use crate::limits::MOST_TERMS;
use crate::places::{Placed, Reader, find};
use crate::query::Query;
use crate::value_set::ValueSet;
use edge_face::NoMemory;
use json_walk::only_member;
use row_cells::{FieldType, Scalar};
use serde_json::Value;
use ts_mapping::read_scalar;

/// As which type the values of a field are read.
pub fn kind_asked(kind: FieldType) -> FieldType
    ensures is { result ≡ spec.kind_asked kind }
    ensures single { result ≢ FieldType.Aggregate }
{
    match kind {
        FieldType::Date => FieldType::Date,
        FieldType::Keyword => FieldType::Keyword,
        FieldType::Boolean => FieldType::Boolean,
        FieldType::Long
        | FieldType::Integer
        | FieldType::Short
        | FieldType::Byte
        | FieldType::Aggregate => FieldType::Long,
    }
}

/// Puts a value of the field to the others, or tells that it is none.
fn put_value(
    reader: Reader<'_>,
    kind: FieldType,
    path: &str,
    value: &Value,
    values: &mut Vec<Scalar>,
    faults: &mut Faults,
) -> Result<(), NoMemory>
    ensures values { OnOk result (values.new.items ≡ values.old.items ++ (spec.value_in kind path.now (view value.now)).value) }
    ensures faults { OnOk result (faults.new ≡ worst_with faults.old (spec.value_in kind path.now (view value.now)).faults) }
{
    match read_scalar(reader.alloc, kind_asked(kind), value)? {
        Some(scalar) => values.push(scalar)?,
        None => faults.note_value(reader.alloc, path)?,
    }
    Ok(())
}

#[tactic(auto, using(crate::specs::FaultLaws::worst_joined))]
fn put_values(
    reader: Reader<'_>,
    kind: FieldType,
    path: &str,
    items: &[Value],
    values: &mut Vec<Scalar>,
    faults: &mut Faults,
) -> Result<(), NoMemory>
    ensures values { OnOk result (values.new.items ≡ values.old.items ++ (spec.values_in kind path.now (items_view items.now)).value) }
    ensures faults { OnOk result (faults.new ≡ worst_with faults.old (spec.values_in kind path.now (items_view items.now)).faults) }
{
    for item in items {
        put_value(reader, kind, path, item, values, faults)?;
    }
    Ok(())
}

/// The value that `term` names: the member's own, or that of an object with `value` alone.
fn term_value(value: &Value) -> Option<&Value>
    ensures { data_seen result ≡ spec.term_value (view value.now) }
{
    match value {
        Value::Object(_) => match only_member(value) {
            Some((name, inner)) if name == "value" => Some(inner),
            _ => None,
        },
        Value::Null | Value::Bool(_) | Value::Number(_) | Value::String(_) | Value::Array(_) => {
            Some(value)
        }
    }
}

fn term_at(
    reader: Reader<'_>,
    path: &str,
    placed: Option<Placed>,
    value: &Value,
    faults: &mut Faults,
) -> Result<Query, NoMemory>
    ensures query { IfOk result (λ q. q ≡ (spec.term_at path.now placed (Some (view value.now))).value) }
    ensures faults { OnOk result (faults.new ≡ worst_with faults.old (spec.term_at path.now placed (Some (view value.now))).faults) }
{
    let Some(placed) = placed else {
        return Ok(Query::Nothing);
    };
    let mut values = Vec::new(reader.alloc);
    put_value(reader, placed.kind, path, value, &mut values, faults)?;
    Ok(Query::OneOf {
        field: placed.field,
        values: ValueSet::new(values)?,
    })
}

/// Reads what stands under `term`.
pub fn read_term(reader: Reader<'_>, value: &Value, faults: &mut Faults) -> Result<Query, NoMemory>
    ensures query { IfOk result (λ q. q ≡ (spec.term_of reader.entry.fields.now (only_member_of (view value.now))).value) }
    ensures faults { OnOk result (faults.new ≡ worst_with faults.old (spec.term_of reader.entry.fields.now (only_member_of (view value.now))).faults) }
{
    let Some((path, named)) = only_member(value) else {
        faults.note_shape();
        return Ok(Query::Nothing);
    };
    let Some(term) = term_value(named) else {
        faults.note_shape();
        return Ok(Query::Nothing);
    };
    let placed = find(reader, path)?;
    term_at(reader, path, placed, term, faults)
}

fn terms_at(
    reader: Reader<'_>,
    path: &str,
    placed: Option<Placed>,
    items: &[Value],
    faults: &mut Faults,
) -> Result<Query, NoMemory>
    ensures query { IfOk result (λ q. q ≡ (spec.terms_at path.now placed (items_view items.now)).value) }
    ensures faults { OnOk result (faults.new ≡ worst_with faults.old (spec.terms_at path.now placed (items_view items.now)).faults) }
{
    let Some(placed) = placed else {
        return Ok(Query::Nothing);
    };
    let mut values = Vec::new(reader.alloc);
    put_values(reader, placed.kind, path, items, &mut values, faults)?;
    Ok(Query::OneOf {
        field: placed.field,
        values: ValueSet::new(values)?,
    })
}

#[tactic(auto, using(crate::proofs::Grouped::items_counted))]
fn are_few(items: &[Value]) -> bool
    ensures { result ≡ nat_le (spec.count_items (items_view items.now)) most_terms }
{
    items.len() <= MOST_TERMS
}

fn terms_in(
    reader: Reader<'_>,
    path: &str,
    value: &Value,
    faults: &mut Faults,
) -> Result<Query, NoMemory>
    ensures query { IfOk result (λ q. q ≡ (spec.terms_in reader.entry.fields.now path.now (view value.now)).value) }
    ensures faults { OnOk result (faults.new ≡ worst_with faults.old (spec.terms_in reader.entry.fields.now path.now (view value.now)).faults) }
{
    match value {
        Value::Array(items) if are_few(items.as_slice()) => {
            let placed = find(reader, path)?;
            terms_at(reader, path, placed, items.as_slice(), faults)
        }
        Value::Null
        | Value::Bool(_)
        | Value::Number(_)
        | Value::String(_)
        | Value::Array(_)
        | Value::Object(_) => {
            faults.note_shape();
            Ok(Query::Nothing)
        }
    }
}

/// Reads what stands under `terms`.
pub fn read_terms(reader: Reader<'_>, value: &Value, faults: &mut Faults) -> Result<Query, NoMemory>
    ensures query { IfOk result (λ q. q ≡ (spec.terms_of reader.entry.fields.now (only_member_of (view value.now))).value) }
    ensures faults { OnOk result (faults.new ≡ worst_with faults.old (spec.terms_of reader.entry.fields.now (only_member_of (view value.now))).faults) }
{
    let Some((path, named)) = only_member(value) else {
        faults.note_shape();
        return Ok(Query::Nothing);
    };
    terms_in(reader, path, named, faults)
}
