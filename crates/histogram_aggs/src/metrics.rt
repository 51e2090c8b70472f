//! What metrics answer.
ghost use Rattle.std.specs.Prelude.{◌≡◌, ℕ, List, true, false, Some, None, IfOk};
ghost use Rattle.std.specs.Option.{option_copied};
ghost use Rattle.row_cells.specs.declared.schemas.FieldType.TheVariants.{Date};
ghost use Rattle.row_cells.specs.declared.schemas.Role.TheVariants.{Gauge as GaugeRole};
ghost use Rattle.histogram_aggs.specs.Answers as answers;
ghost use Rattle.histogram_aggs.specs.Answers.{Placed, Results, answer_of};
ghost use Rattle.histogram_aggs.specs.Metrics as metrics;
ghost use Rattle.histogram_aggs.specs.Metrics.{gauge_all};
ghost use Rattle.histogram_aggs.specs.Rises.{RisesStand};
ghost use Rattle.histogram_aggs.specs.Samples.{Sample};
ghost use Rattle.histogram_aggs.specs.Stands.{MetricStands};
ghost use Rattle.histogram_aggs.specs.Tallies as tallies;
ghost use Rattle.histogram_aggs.specs.Tallies.{is_date, is_measure};

use crate::aggs::AggKind;
use crate::pieces::{histogram_out, instant_word, terms_out};
use crate::rises::{Rises, increase_of};
use crate::tallies::Tally;
use edge_face::NoMemory;
use fold_law::{Gauge, Parts};
use reply_json::{Member, Members, Out};
use row_cells::{Field, FieldType};
use std::alloc::Global;
use time_text::is_instant;

fn sum_of(parts: Option<Parts>) -> i128
    ensures { result ≡ metrics.sum_of_parts parts }
{
    match parts {
        None => 0,
        Some(parts) => parts.sum,
    }
}

fn count_of(parts: Option<Parts>) -> i128
    ensures { result ≡ metrics.count_of_parts parts }
{
    match parts {
        None => 0,
        Some(parts) => parts.count,
    }
}

fn gauge_metric(kind: AggKind, parts: Option<Parts>) -> Option<i128>
    ensures { result ≡ metrics.gauge_metric kind parts }
{
    match kind {
        AggKind::Min => Some(i128::from(parts?.min)),
        AggKind::Max => Some(i128::from(parts?.max)),
        AggKind::Sum => Some(sum_of(parts)),
        AggKind::ValueCount
        | AggKind::Increase
        | AggKind::Terms { .. }
        | AggKind::DateHistogram { .. } => Some(count_of(parts)),
    }
}

/// What a metric tells, if it has a value.
pub fn told(kind: AggKind, tally: Tally) -> Option<i128>
    ensures { result ≡ tallies.told kind tally }
{
    match tally {
        Tally::Measured(gauge) => gauge_metric(kind, gauge.0),
        Tally::Least(value) | Tally::Greatest(value) => Some(i128::from(value?)),
        Tally::Total(total) => Some(total),
        Tally::Number(number) => Some(i128::from(number)),
    }
}

/// `{"value":N}`, or `null` where there is none.
fn plain_value(alloc: Global, value: Option<i128>) -> Result<Out, NoMemory>
    ensures { IfOk result (λ out. out ≡ answers.metric_tree None value) }
{
    let shown = match value {
        None => Out::Null,
        Some(number) => Out::Num(number),
    };
    let members = Members::with_capacity(alloc, 1)?.with("value", shown)?;
    Ok(members.object())
}

/// `{"value":N,"value_as_string":..}` of a date, or `null` where there is none. Rows have no dates but instants.
fn dated_value(alloc: Global, value: Option<i128>) -> Result<Out, NoMemory>
    ensures { IfOk result (λ out. out ≡ answers.metric_tree (Some Date) value) }
{
    let Some(number) = value else {
        return plain_value(alloc, None);
    };
    let Ok(time) = i64::try_from(number) else {
        return Err(NoMemory);
    };
    if !is_instant(time) {
        return Err(NoMemory);
    }
    let word = instant_word(alloc, time)?;
    let members = Members::with_capacity(alloc, 2)?
        .with("value", Out::Num(number))?
        .with("value_as_string", word)?;
    Ok(members.object())
}

/// Whether a metric of a field is a date.
fn is_dated(kind: AggKind, field: FieldType) -> bool
    ensures { result ≡ tallies.is_dated kind field }
{
    match (kind, field) {
        (AggKind::Min | AggKind::Max, FieldType::Date) => true,
        _ => false,
    }
}

#[tactic(auto, using(crate::specs::MetricLaws::tree_by_date))]
fn shown_value(
    alloc: Global,
    kind: AggKind,
    field: FieldType,
    value: Option<i128>,
) -> Result<Out, NoMemory>
    ensures { IfOk result (λ out. out ≡ answers.metric_tree (answers.type_shown kind field) value) }
{
    if is_dated(kind, field) {
        dated_value(alloc, value)
    } else {
        plain_value(alloc, value)
    }
}

/// What a metric on a field answers.
pub fn metric_told(
    alloc: Global,
    kind: AggKind,
    field: Option<&Field>,
    tally: Tally,
) -> Result<Out, NoMemory>
    ensures { IfOk result (λ out. (f : Placed) (xs : List Sample) → option_copied field.entry ≡ Some f.field → MetricStands kind (Some f) tally xs
        → out ≡ (answers.metric_answer kind (Some f) xs).tree) }
{
    let Some(field) = field else {
        return Err(NoMemory);
    };
    shown_value(alloc, kind, field.kind, told(kind, tally))
}

/// What an increase answers. What is kept of the counter is used up.
pub fn increase_told(alloc: Global, rises: &mut Rises) -> Result<Out, NoMemory>
    ensures { IfOk result (λ out. (place : ℕ) (xs : List Sample) → RisesStand place rises.old xs
        → out ≡ answers.metric_tree None (Some (metrics.increase_of place xs))) }
{
    let increase = increase_of(rises)?;
    let out = plain_value(alloc, Some(increase))?;
    Ok(out)
}

/// What an aggregation on no field answers.
pub fn unmapped_out(alloc: Global, kind: AggKind) -> Result<Out, NoMemory>
    ensures { IfOk result (λ out. (below : List Sample → Results) (xs : List Sample) → out ≡ (answer_of below kind None xs).tree) }
{
    match kind {
        AggKind::Min | AggKind::Max => plain_value(alloc, None),
        AggKind::Sum | AggKind::ValueCount | AggKind::Increase => plain_value(alloc, Some(0)),
        AggKind::Terms { .. } => terms_out(alloc, 0, Vec::new(alloc)),
        AggKind::DateHistogram { .. } => histogram_out(alloc, Vec::new(alloc)),
    }
}

/// What a metric on a gauge answers of all rows whose gauge this is, as `{"value":N}`.
#[tactic(auto, using(crate::specs::MetricLaws::metric_of_gauge))]
pub fn metric_out(alloc: Global, kind: &AggKind, gauge: &Gauge) -> Result<Out, NoMemory>
    requires { is_measure kind.now ≡ true }
    ensures value { IfOk result (λ out. out ≡ answers.metric_tree None (metrics.gauge_metric kind.now (gauge.now).0)) }
    ensures answers { IfOk result (λ out. (below : List Sample → Results) (f : Placed) (xs : List Sample) → is_date f.field.kind ≡ false
        → f.field.role ≡ GaugeRole → gauge_all f.place xs ≡ gauge.now → out ≡ (answer_of below kind.now (Some f) xs).tree) }
{
    let out = plain_value(alloc, gauge_metric(*kind, gauge.0))?;
    Ok(out)
}
