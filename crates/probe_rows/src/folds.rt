//! Rows folded by intervals, in one round and in two.
ghost use Rattle.std.specs.Prelude.{◌≡◌, ◌≤◌, false, IfSome};
ghost use Rattle.row_cells.specs.Fitting.{Fits, folded_form};
ghost use Rattle.row_cells.specs.KeyedRows.{AreRowsOf};
ghost use Rattle.row_cells.specs.RowLists.{AllFit, AreInRowOrder, documents};
ghost use Rattle.row_cells.specs.Limits.{most_documents};
ghost use Rattle.ts_mapping.specs.Schemas.{IsTemplateSchema};

use crate::documents::ascending_text;
use crate::rows::{case_rows, schema_at};
use crate::shown::ok_rows;
use downsample_fold::{IntervalError, check_interval, fold_all};
use probe_case::{Trial, has};
use row_cells::{Row, Schema, copy_schema};
use serde_json::Value;
use std::alloc::Global;
use synthetic_source::rebuild;
use time_text::Interval;

/// The interval of a case.
pub fn interval_at(case: &Value, name: &str) -> Option<Interval> {
    Interval::read(case.get(name)?.as_str()?).ok()
}

/// The interval of a case, if it has one.
pub fn interval_if_any(case: &Value, name: &str) -> Option<Option<Interval>> {
    if has(case, name) {
        return Some(Some(interval_at(case, name)?));
    }
    Some(None)
}

/// The schema of the folds of rows of a schema.
fn folded_schema(alloc: Global, schema: &Schema) -> Option<Schema>
    requires { IsTemplateSchema schema.now }
    ensures form { IfSome result (λ folded. folded ≡ folded_form schema.now) }
    ensures schema { IfSome result IsTemplateSchema }
{
    match copy_schema(alloc, schema) {
        Ok(copy) => Some(as_folded(copy)),
        Err(_) => None,
    }
}

fn as_folded(schema: Schema) -> Schema
    ensures { result ≡ folded_form schema }
{
    Schema {
        folded: true,
        ..schema
    }
}

/// Rows of a schema fit it.
fn all_fit(schema: &Schema, rows: &[Row])
    requires { AreRowsOf schema.now rows.now }
    ensures { AllFit schema.now rows.now }
{}

fn fold_once(alloc: Global, schema: &Schema, rows: &[Row], by: Interval) -> Option<Vec<Row>>
    requires { AreRowsOf schema.now rows.now }
    ensures fit { IfSome result (λ rows. AllFit (folded_form schema.now) rows.items) }
    ensures in_order { IfSome result (λ rows. AreInRowOrder rows.items) }
    ensures few { IfSome result (λ rows. documents rows.items ≤ most_documents) }
{
    all_fit(schema, rows);
    match fold_all(alloc, schema, rows, by) {
        Ok(folded) => Some(folded),
        Err(_) => None,
    }
}

fn fold_again(alloc: Global, folded: &Schema, once: &[Row], by: Interval) -> Option<Vec<Row>>
    requires fit { AllFit folded.now once.now }
    requires in_order { AreInRowOrder once.now }
    requires few { documents once.now ≤ most_documents }
    ensures { IfSome result (λ rows. AllFit (folded_form folded.now) rows.items) }
{
    match fold_all(alloc, folded, once, by) {
        Ok(twice) => Some(twice),
        Err(_) => None,
    }
}

/// The rows of a case's documents folded by one interval.
fn folded_once(alloc: Global, schema: &Schema, case: &Value) -> Option<Vec<Row>>
    requires schema { IsTemplateSchema schema.now }
    requires raw { schema.now.folded ≡ false }
    ensures fit { IfSome result (λ rows. AllFit (folded_form schema.now) rows.items) }
    ensures in_order { IfSome result (λ rows. AreInRowOrder rows.items) }
    ensures few { IfSome result (λ rows. documents rows.items ≤ most_documents) }
{
    let by = interval_at(case, "by")?;
    let rows = case_rows(alloc, schema, case)?;
    fold_once(alloc, schema, rows.as_slice(), by)
}

/// The rows of a case's documents folded by one interval, and then by another one if the case has it.
fn folded_rows(alloc: Global, schema: &Schema, folded: &Schema, case: &Value) -> Option<Vec<Row>>
    requires schema { IsTemplateSchema schema.now }
    requires raw { schema.now.folded ≡ false }
    requires form { folded.now ≡ folded_form schema.now }
    ensures { IfSome result (λ rows. AllFit folded.now rows.items) }
{
    let once = folded_once(alloc, schema, case)?;
    if !has(case, "then") {
        return Some(once);
    }
    fold_again(alloc, folded, once.as_slice(), interval_at(case, "then")?)
}

/// Folded rows.
pub fn as_rows(case: &Value, trial: &mut Trial) -> Option<()> {
    let schema = schema_at(trial.alloc, case, "template")?;
    let folded = folded_schema(trial.alloc, &schema)?;
    let rows = folded_rows(trial.alloc, &schema, &folded, case)?;
    ok_rows(&folded, rows.as_slice(), trial);
    Some(())
}

fn put_document(schema: &Schema, row: &Row, trial: &mut Trial) -> Option<()>
    requires schema { IsTemplateSchema schema.now }
    requires fits { Fits schema.now row.now }
{
    let out = rebuild(trial.alloc, schema, row).ok()?;
    let text = ascending_text(trial.alloc, &out)?;
    trial.json(text.as_slice());
    Some(())
}

/// The documents of rows.
fn put_documents(schema: &Schema, rows: &[Row], trial: &mut Trial) -> Option<()>
    requires schema { IsTemplateSchema schema.now }
    requires fit { AllFit schema.now rows.now }
{
    trial.ok();
    trial.open("[");
    for row in rows {
        put_document(schema, row, trial)?;
    }
    trial.close("]}");
    Some(())
}

/// Folded rows as documents.
pub fn as_documents(case: &Value, trial: &mut Trial) -> Option<()> {
    let schema = schema_at(trial.alloc, case, "template")?;
    let folded = folded_schema(trial.alloc, &schema)?;
    let rows = folded_rows(trial.alloc, &schema, &folded, case)?;
    put_documents(&folded, rows.as_slice(), trial)
}

fn put_refusal(kind: &str, had: i64, asked: i64, trial: &mut Trial) {
    trial.err(kind);
    trial.name("ms");
    trial.open("[");
    trial.whole(had);
    trial.whole(asked);
    trial.close("]}");
}

/// Whether rows that were folded by one interval, or weren't, may be folded by another.
pub fn check(case: &Value, trial: &mut Trial) -> Option<()> {
    let asked = interval_at(case, "asked")?;
    match check_interval(interval_if_any(case, "had")?, asked) {
        Ok(()) => trial.ok_null(),
        Err(IntervalError::NotGreater { had, asked }) => put_refusal(
            "NotGreater",
            had,
            asked,
            trial,
        ),
        Err(IntervalError::NotMultiple { had, asked }) => put_refusal(
            "NotMultiple",
            had,
            asked,
            trial,
        ),
    }
    Some(())
}
