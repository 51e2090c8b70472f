//! What aggregations answer of rows: raw or folded ones, of one index or of two, in one state or in two that are merged.
ghost use Rattle.std.specs.Prelude.{◌≡◌, ◌≤◌, false, IfSome};
ghost use Rattle.row_cells.specs.Fitting.{folded_form};
ghost use Rattle.row_cells.specs.KeyedRows.{AreRowsOf};
ghost use Rattle.row_cells.specs.Limits.{most_documents};
ghost use Rattle.row_cells.specs.RowLists.{AllFit, AreInRowOrder, documents};
ghost use Rattle.ts_mapping.specs.Schemas.{IsTemplateSchema};

use crate::aggs::put_error;
use downsample_fold::fold_all;
use edge_face::NoMemory;
use histogram_aggs::{AggError, AggState, read_aggs};
use json_walk::has_no_other;
use memchr::memmem;
use probe_case::{Trial, has, part};
use probe_rows::{case_rows, interval_at, schema_at};
use reply_json::{Out, print};
use row_cells::{Row, Schema, copy_schema};
use search_filter::{Query, matches, read_query};
use serde_json::Value;
use std::alloc::Global;
use time_text::{Interval, is_instant};

// ---- rows

fn folded_schema(alloc: Global, schema: &Schema) -> Option<Schema>
    ensures { IfSome result (λ folded. folded ≡ folded_form schema.now) }
{
    match copy_schema(alloc, schema) {
        Ok(copy) => Some(Schema {
            folded: true,
            ..copy
        }),
        Err(_) => None,
    }
}

fn folded(alloc: Global, schema: &Schema, rows: &[Row], by: Interval) -> Option<Vec<Row>>
    requires fit { AllFit schema.now rows.now }
    requires in_order { AreInRowOrder rows.now }
    requires few { documents rows.now ≤ most_documents }
    ensures fit { IfSome result (λ folds. AllFit (folded_form schema.now) folds.items) }
    ensures in_order { IfSome result (λ folds. AreInRowOrder folds.items) }
    ensures few { IfSome result (λ folds. documents folds.items ≤ most_documents) }
{
    match fold_all(alloc, schema, rows, by) {
        Ok(folds) => Some(folds),
        Err(_) => None,
    }
}

/// Rows of a schema fit it.
fn all_fit(schema: &Schema, rows: &[Row])
    requires { AreRowsOf schema.now rows.now }
    ensures { AllFit schema.now rows.now }
{}

/// The rows of the documents of an index, folded by one interval.
fn folds_of(alloc: Global, schema: &Schema, index: &Value) -> Option<Vec<Row>>
    requires schema { IsTemplateSchema schema.now }
    requires raw { schema.now.folded ≡ false }
    ensures fit { IfSome result (λ folds. AllFit (folded_form schema.now) folds.items) }
    ensures in_order { IfSome result (λ folds. AreInRowOrder folds.items) }
    ensures few { IfSome result (λ folds. documents folds.items ≤ most_documents) }
{
    let by = interval_at(index, "by")?;
    let rows = case_rows(alloc, schema, index)?;
    all_fit(schema, rows.as_slice());
    folded(alloc, schema, rows.as_slice(), by)
}

/// Those rows folded by another interval.
fn folds_of_folds(alloc: Global, schema: &Schema, index: &Value) -> Option<Vec<Row>>
    requires schema { IsTemplateSchema schema.now }
    requires raw { schema.now.folded ≡ false }
{
    let then = interval_at(index, "then")?;
    let form = folded_schema(alloc, schema)?;
    let folds = folds_of(alloc, schema, index)?;
    folded(alloc, &form, folds.as_slice(), then)
}

/// The rows of an index: of its documents, folded as often as it says.
fn index_rows(alloc: Global, schema: &Schema, index: &Value) -> Option<Vec<Row>>
    requires schema { IsTemplateSchema schema.now }
    requires raw { schema.now.folded ≡ false }
{
    if has(index, "then") {
        folds_of_folds(alloc, schema, index)
    } else if has(index, "by") {
        folds_of(alloc, schema, index)
    } else {
        case_rows(alloc, schema, index)
    }
}

/// The rows of the other index, if a case has one.
fn more_rows(alloc: Global, schema: &Schema, case: &Value) -> Option<Vec<Row>>
    requires schema { IsTemplateSchema schema.now }
    requires raw { schema.now.folded ≡ false }
{
    let Some(more) = case.get("more") else {
        return Some(Vec::new(alloc));
    };
    if !has_no_other(more, &["documents", "lines", "by", "then"]) {
        return None;
    }
    index_rows(alloc, schema, more)
}

/// The rows of a case, index by index.
fn both_rows(alloc: Global, schema: &Schema, case: &Value) -> Option<Vec<Row>>
    requires schema { IsTemplateSchema schema.now }
    requires raw { schema.now.folded ≡ false }
{
    let mut rows = index_rows(alloc, schema, case)?;
    let mut more = more_rows(alloc, schema, case)?;
    match rows.append(&mut more) {
        Ok(()) => Some(rows),
        Err(_) => None,
    }
}

// ---- states

/// What is asked: aggregations of the rows that a query takes.
#[derive(Clone, Copy)]
struct Asked<'a> {
    schema: &'a Schema,
    query: &'a Query,
    aggs: &'a Value,
    /// Where the windows of rows begin, row by row.
    starts: &'a [i64],
}

/// Where the window of a row begins, which a case needn't say.
fn start_at(starts: &[i64], place: usize) -> i64 {
    match starts.get(place) {
        Some(start) => *start,
        None => 0,
    }
}

fn offer(
    alloc: Global,
    state: &mut AggState,
    asked: Asked<'_>,
    start: i64,
    row: &Row,
) -> Result<(), NoMemory> {
    if is_instant(row.time) && matches(asked.query, asked.schema, row) {
        state.add_row(alloc, start, asked.schema, row)?;
    }
    Ok(())
}

/// The state of aggregations without rows.
fn new_state(alloc: Global, asked: Asked<'_>) -> Result<AggState, AggError> {
    if 1_000 < asked.schema.fields.len() {
        return Err(AggError::NoMemory);
    }
    let aggs = read_aggs(alloc, asked.aggs, asked.schema)?;
    let state = AggState::new(alloc, aggs, asked.schema)?;
    Ok(state)
}

fn state_of(
    alloc: Global,
    asked: Asked<'_>,
    rows: &[Row],
    starts: &[i64],
) -> Result<AggState, AggError> {
    let mut state = new_state(alloc, asked)?;
    for i in 0..rows.len() {
        offer(alloc, &mut state, asked, start_at(starts, i), &rows[i])?;
    }
    Ok(state)
}

/// The state of the rows before a place, and that of the rows behind it, merged.
fn merged(alloc: Global, asked: Asked<'_>, rows: &[Row], cut: usize) -> Result<AggState, AggError> {
    let front = part(asked.starts, 0, cut);
    let behind = part(asked.starts, cut, asked.starts.len());
    let mut state = state_of(alloc, asked, part(rows, 0, cut), front)?;
    let rest = state_of(alloc, asked, part(rows, cut, rows.len()), behind)?;
    state.merge(rest)?;
    Ok(state)
}

fn reply_of(
    alloc: Global,
    asked: Asked<'_>,
    rows: &[Row],
    cut: Option<usize>,
) -> Result<Out, AggError> {
    let state = match cut {
        Some(cut) => merged(alloc, asked, rows, cut)?,
        None => state_of(alloc, asked, rows, asked.starts)?,
    };
    state.finish(alloc, asked.schema)
}

// ---- answers

/// How many buckets a reply has, of which each says its documents, and how many bytes.
fn put_size(text: &[u8], trial: &mut Trial) {
    let counts = memmem::find_iter(text, b"\"doc_count\":".as_slice());
    trial.open("{");
    trial.count_at("buckets", counts.count());
    trial.count_at("bytes", text.len());
    trial.close("}");
}

fn put_shown(text: &[u8], shown: Option<&str>, trial: &mut Trial) {
    trial.ok();
    match shown {
        None => trial.json(text),
        Some("text") => trial.shown(text),
        Some("size") => put_size(text, trial),
        Some(_) => trial.give_up(),
    }
    trial.close("}");
}

fn put_reply(out: &Out, case: &Value, trial: &mut Trial) {
    let mut text = Vec::new(trial.alloc);
    trial.need(print(out, &mut text).is_ok());
    let shown = trial.optional_word(case, "shown");
    put_shown(text.as_slice(), shown, trial);
}

/// The place where the rows of a case are cut, if they are.
fn cut_of(case: &Value, trial: &mut Trial) -> Option<usize> {
    if !has(case, "cut") {
        return None;
    }
    Some(trial.number(case, "cut").unsigned_abs().min(1_000_000) as usize)
}

/// The starts of windows that a case says.
fn starts_of(case: &Value, trial: &mut Trial) -> Vec<i64> {
    if !has(case, "starts") {
        return Vec::new(trial.alloc);
    }
    trial.numbers(case, "starts")
}

/// The query of a case, which takes all rows where there is none.
fn query_of(schema: &Schema, case: &Value, trial: &mut Trial) -> Option<Query> {
    let Some(body) = case.get("query") else {
        return Some(Query::All);
    };
    match read_query(trial.alloc, body, schema, 0) {
        Ok(query) => Some(query),
        Err(_) => None,
    }
}

fn ask(schema: &Schema, rows: &[Row], case: &Value, trial: &mut Trial) -> Option<()> {
    let aggs = case.get("aggs")?;
    let query = query_of(schema, case, trial)?;
    let starts = starts_of(case, trial);
    let asked = Asked {
        schema,
        query: &query,
        aggs,
        starts: starts.as_slice(),
    };
    let cut = cut_of(case, trial);
    match reply_of(trial.alloc, asked, rows, cut) {
        Ok(out) => put_reply(&out, case, trial),
        Err(error) => put_error(error, trial),
    }
    Some(())
}

/// What the aggregations of a case answer of its rows, or why they don't.
pub fn reply(case: &Value, trial: &mut Trial) -> Option<()> {
    let schema = schema_at(trial.alloc, case, "template")?;
    let rows = both_rows(trial.alloc, &schema, case)?;
    ask(&schema, rows.as_slice(), case, trial)
}
