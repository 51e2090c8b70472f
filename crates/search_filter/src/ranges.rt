//! Queries that name the ends of a range.
ghost use Rattle.std.specs.Prelude.{◌≡◌, IfOk, OnOk, Some, ℤ, option_map};
ghost use Rattle.serde_json.specs.Find.{get};
ghost use Rattle.serde_json.specs.View.{view};
ghost use Rattle.json_walk.specs.Shapes.{only_member as only_member_of};
ghost use Rattle.time_text.specs.Instant.{IsInstant};
ghost use Rattle.search_filter.specs.Faults.{worst_with};
ghost use Rattle.search_filter.specs.Reading as spec;
ghost use Rattle.search_filter.specs.Seen.{data_seen, end_seen};

use crate::faults::Faults;
use crate::places::{Placed, Reader, find};
use crate::query::{Bound, Query};
use crate::terms::kind_asked;
use edge_face::NoMemory;
use json_walk::{has_no_other, only_member};
use row_cells::{FieldType, Scalar};
use serde_json::Value;
use time_text::read_moment_expr;
use ts_mapping::read_scalar;

/// An end as it is sent.
#[derive(Clone, Copy)]
pub struct End<'a> {
    pub value: &'a Value,
    pub inclusive: bool,
}

fn has(value: &Value, name: &str) -> bool
    ensures { result ≡ spec.has name.now (view value.now) }
{
    match value.get(name) {
        None => false,
        Some(_) => true,
    }
}

/// Whether the value has one of the four ends, not two on one side, and no other member.
fn is_range(value: &Value) -> bool
    ensures { result ≡ spec.is_range (view value.now) }
{
    has_no_other(value, &["gte", "gt", "lte", "lt"])
        && !(has(value, "gte") && has(value, "gt"))
        && !(has(value, "lte") && has(value, "lt"))
        && (has(value, "gte") || has(value, "gt") || has(value, "lte") || has(value, "lt"))
}

fn end_sent<'a>(value: &'a Value, within: &str, without: &str) -> Option<End<'a>>
    ensures { option_map end_seen result ≡ spec.end_sent (get within.now (view value.now)) (get without.now (view value.now)) }
{
    if let Some(value) = value.get(within) {
        return Some(End {
            value,
            inclusive: true,
        });
    }
    match value.get(without) {
        None => None,
        Some(value) => Some(End {
            value,
            inclusive: false,
        }),
    }
}

fn moment_in(present: i64, value: &Value) -> Option<i64>
    requires { IsInstant present }
    ensures { result ≡ spec.moment_in present (view value.now) }
{
    match value {
        Value::Number(number) => number.as_i64(),
        Value::String(text) => match read_moment_expr(text.as_str(), present) {
            Ok(moment) => Some(moment),
            Err(_) => None,
        },
        Value::Null | Value::Bool(_) | Value::Array(_) | Value::Object(_) => None,
    }
}

fn end_value(reader: Reader<'_>, kind: FieldType, value: &Value) -> Result<Option<Scalar>, NoMemory>
    requires { IsInstant reader.present }
    ensures { IfOk result (λ read. read ≡ spec.end_value reader.entry.present kind (view value.now)) }
{
    match kind {
        FieldType::Date => Ok(moment_in(reader.present, value).map(Scalar::Whole)),
        FieldType::Keyword
        | FieldType::Boolean
        | FieldType::Long
        | FieldType::Integer
        | FieldType::Short
        | FieldType::Byte
        | FieldType::Aggregate => read_scalar(reader.alloc, kind_asked(kind), value),
    }
}

fn read_bound(
    reader: Reader<'_>,
    kind: FieldType,
    path: &str,
    end: Option<End<'_>>,
    faults: &mut Faults,
) -> Result<Option<Bound>, NoMemory>
    requires { IsInstant reader.present }
    ensures bound { IfOk result (λ b. b ≡ (spec.bound_in reader.entry.present kind path.now (option_map end_seen end.entry)).value) }
    ensures faults { OnOk result (faults.new ≡ worst_with faults.old (spec.bound_in reader.entry.present kind path.now (option_map end_seen end.entry)).faults) }
{
    let Some(end) = end else {
        return Ok(None);
    };
    match end_value(reader, kind, end.value)? {
        Some(value) => Ok(Some(Bound {
            value,
            inclusive: end.inclusive,
        })),
        None => {
            faults.note_value(reader.alloc, path)?;
            Ok(None)
        }
    }
}

#[tactic(auto, using(crate::specs::FaultLaws::worst_joined))]
fn range_at(
    reader: Reader<'_>,
    path: &str,
    placed: Option<Placed>,
    value: &Value,
    faults: &mut Faults,
) -> Result<Query, NoMemory>
    requires { IsInstant reader.present }
    ensures query { IfOk result (λ q. q ≡ (spec.range_at reader.entry.present path.now placed (view value.now)).value) }
    ensures faults { OnOk result (faults.new ≡ worst_with faults.old (spec.range_at reader.entry.present path.now placed (view value.now)).faults) }
{
    let Some(placed) = placed else {
        return Ok(Query::Nothing);
    };
    let low = end_sent(value, "gte", "gt");
    let low = read_bound(reader, placed.kind, path, low, faults)?;
    let high = end_sent(value, "lte", "lt");
    let high = read_bound(reader, placed.kind, path, high, faults)?;
    Ok(Query::Between {
        field: placed.field,
        low,
        high,
    })
}

/// Reads what stands under `range`.
pub fn read_range(reader: Reader<'_>, value: &Value, faults: &mut Faults) -> Result<Query, NoMemory>
    requires { IsInstant reader.present }
    ensures query { IfOk result (λ q. q ≡ (spec.range_of reader.entry.present reader.entry.fields.now (only_member_of (view value.now))).value) }
    ensures faults { OnOk result (faults.new ≡ worst_with faults.old (spec.range_of reader.entry.present reader.entry.fields.now (only_member_of (view value.now))).faults) }
{
    let Some((path, named)) = only_member(value) else {
        faults.note_shape();
        return Ok(Query::Nothing);
    };
    if !is_range(named) {
        faults.note_shape();
        return Ok(Query::Nothing);
    }
    let placed = find(reader, path)?;
    range_at(reader, path, placed, named, faults)
}
