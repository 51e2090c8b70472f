//! Fields that a kind may not ask.
ghost use Rattle.std.specs.Prelude.{◌≡◌, None, option_map};
ghost use Rattle.histogram_aggs.specs.Kinds as kinds;
ghost use Rattle.histogram_aggs.specs.Reading as spec;
ghost use Rattle.histogram_aggs.specs.Reading.{least_with, lesser, listed, wrong_at, wrong_cmp, wrongs_of};
ghost use Rattle.histogram_aggs.specs.Seen.{seen};
ghost use Rattle.histogram_aggs.specs.SeenWrongs.{seen_wrong};

use crate::aggs::{Agg, AggKind};
use edge_face::{Text, bytes_order};
use row_cells::{Field, FieldType, Role};
use std::cmp::Ordering;

/// A field, by its path, and the kind that may not ask it.
#[derive(Clone, Copy)]
pub struct Wrong<'a> {
    pub path: &'a Text,
    pub kind: &'static str,
}

/// The name of a kind.
pub fn kind_name(kind: AggKind) -> &'static str
    ensures { result.now ≡ kinds.kind_name kind }
{
    match kind {
        AggKind::Min => "min",
        AggKind::Max => "max",
        AggKind::Sum => "sum",
        AggKind::ValueCount => "value_count",
        AggKind::Increase => "increase",
        AggKind::Terms { .. } => "terms",
        AggKind::DateHistogram { .. } => "date_histogram",
    }
}

fn is_whole(kind: FieldType) -> bool
    ensures { result ≡ kinds.is_whole kind }
{
    match kind {
        FieldType::Long | FieldType::Integer | FieldType::Short | FieldType::Byte => true,
        FieldType::Date | FieldType::Keyword | FieldType::Boolean | FieldType::Aggregate => false,
    }
}

fn is_number(kind: FieldType) -> bool
    ensures { result ≡ kinds.is_number kind }
{
    match kind {
        FieldType::Date
        | FieldType::Long
        | FieldType::Integer
        | FieldType::Short
        | FieldType::Byte => true,
        FieldType::Keyword | FieldType::Boolean | FieldType::Aggregate => false,
    }
}

fn is_key(kind: FieldType) -> bool
    ensures { result ≡ kinds.is_key kind }
{
    match kind {
        FieldType::Keyword
        | FieldType::Boolean
        | FieldType::Long
        | FieldType::Integer
        | FieldType::Short
        | FieldType::Byte => true,
        FieldType::Date | FieldType::Aggregate => false,
    }
}

fn has_ends(kind: FieldType, role: Role) -> bool
    ensures { result ≡ kinds.has_ends kind role }
{
    match role {
        Role::Time | Role::Gauge | Role::Counter => true,
        Role::Dimension | Role::Label => is_number(kind),
    }
}

fn has_sum(kind: FieldType, role: Role) -> bool
    ensures { result ≡ kinds.has_sum kind role }
{
    match role {
        Role::Gauge => true,
        Role::Dimension => is_whole(kind),
        Role::Time | Role::Counter | Role::Label => false,
    }
}

fn has_keys(kind: FieldType, role: Role) -> bool
    ensures { result ≡ kinds.has_keys kind role }
{
    match role {
        Role::Dimension => true,
        Role::Label => is_key(kind),
        Role::Time | Role::Gauge | Role::Counter => false,
    }
}

fn is_counter(role: Role) -> bool
    ensures { result ≡ kinds.is_counter role }
{
    match role {
        Role::Counter => true,
        Role::Time | Role::Dimension | Role::Gauge | Role::Label => false,
    }
}

fn is_time(role: Role) -> bool
    ensures { result ≡ kinds.is_time role }
{
    match role {
        Role::Time => true,
        Role::Dimension | Role::Gauge | Role::Counter | Role::Label => false,
    }
}

fn supports(kind: AggKind, field: &Field) -> bool
    ensures { result ≡ kinds.supports kind field.now }
{
    match kind {
        AggKind::Min | AggKind::Max => has_ends(field.kind, field.role),
        AggKind::Sum => has_sum(field.kind, field.role),
        AggKind::ValueCount => true,
        AggKind::Increase => is_counter(field.role),
        AggKind::Terms { .. } => has_keys(field.kind, field.role),
        AggKind::DateHistogram { .. } => is_time(field.role),
    }
}

/// The field that an aggregation asks, if there is one at the place.
pub fn field_at(fields: &[Field], place: Option<u32>) -> Option<&Field>
    ensures { option_map (λ f. f.now) result ≡ spec.field_at fields.now place }
{
    fields.get(place? as usize)
}

fn order(left: Wrong<'_>, right: Wrong<'_>) -> Ordering
    ensures { result ≡ wrong_cmp (seen_wrong left.entry) (seen_wrong right.entry) }
{
    match bytes_order(left.path.as_bytes(), right.path.as_bytes()) {
        Ordering::Less => Ordering::Less,
        Ordering::Greater => Ordering::Greater,
        Ordering::Equal => left.kind.cmp(right.kind),
    }
}

fn lesser_of<'a>(held: Option<Wrong<'a>>, wrong: Wrong<'a>) -> Option<Wrong<'a>>
    ensures { option_map seen_wrong result ≡ lesser (option_map seen_wrong held.entry) (seen_wrong wrong.entry) }
{
    let Some(other) = held else {
        return Some(wrong);
    };
    match order(wrong, other) {
        Ordering::Less => Some(wrong),
        Ordering::Equal | Ordering::Greater => Some(other),
    }
}

fn noted<'a>(held: Option<Wrong<'a>>, wrong: Option<Wrong<'a>>) -> Option<Wrong<'a>>
    ensures { option_map seen_wrong result ≡ least_with (option_map seen_wrong held.entry) (listed (option_map seen_wrong wrong.entry)) }
{
    match wrong {
        None => held,
        Some(wrong) => lesser_of(held, wrong),
    }
}

fn wrong_of(kind: AggKind, field: Option<&Field>) -> Option<Wrong<'_>>
    ensures { option_map seen_wrong result ≡ wrong_at kind (option_map (λ f. f.now) field.entry) }
{
    let field = field?;
    if supports(kind, field) {
        return None;
    }
    Some(Wrong {
        path: &field.path,
        kind: kind_name(kind),
    })
}

#[tactic(auto, using(crate::proofs::ReadingSteps::least_with_append))]
fn least_below<'a>(aggs: &[Agg], fields: &'a [Field], held: Option<Wrong<'a>>) -> Option<Wrong<'a>>
    ensures { option_map seen_wrong result ≡ least_with (option_map seen_wrong held.entry) (wrongs_of fields.now (seen aggs.now)) }
{
    let mut least = held;
    for agg in aggs {
        least = noted(least, wrong_of(agg.kind, field_at(fields, agg.field)));
        least = least_below(agg.subs.as_slice(), fields, least);
    }
    least
}

/// Of the fields at all levels that their kinds may not ask the one of least path, and then of least kind.
pub fn least_wrong<'a>(aggs: &[Agg], fields: &'a [Field]) -> Option<Wrong<'a>>
    ensures { option_map seen_wrong result ≡ least_with None (wrongs_of fields.now (seen aggs.now)) }
{
    least_below(aggs, fields, None)
}
