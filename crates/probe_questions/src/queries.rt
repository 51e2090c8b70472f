//! Queries, and the rows that they take.
ghost use Rattle.std.specs.Prelude.{IfSome};
ghost use Rattle.time_text.specs.Instant.{IsInstant};

use probe_case::Trial;
use probe_rows::{all_rows, schema_at};
use row_cells::{Row, Schema};
use search_filter::{Query, QueryError, Split, matches, read_query, split_query};
use serde_json::Value;
use time_text::is_instant;

/// The present moment of a case, 0 unless it says otherwise.
fn now_of(case: &Value, trial: &mut Trial) -> Option<i64>
    ensures { IfSome result IsInstant }
{
    let now = trial.number_or(case, "now", 0);
    if is_instant(now) { Some(now) } else { None }
}

/// Whether each row matches.
fn put_flags(query: &Query, schema: &Schema, rows: &[Row], trial: &mut Trial) {
    trial.open("[");
    for row in rows {
        trial.flag(matches(query, schema, row));
    }
    trial.close("]");
}

fn put_matches(query: &Query, schema: &Schema, rows: &[Row], trial: &mut Trial) {
    trial.ok();
    put_flags(query, schema, rows, trial);
    trial.close("}");
}

/// The range of times, and whether the rest takes each row.
fn put_parts(split: &Split, schema: &Schema, rows: &[Row], trial: &mut Trial) {
    trial.open("[");
    trial.whole(split.from);
    trial.whole(split.to);
    put_flags(&split.rest, schema, rows, trial);
    trial.close("]");
}

fn put_split(query: &Query, schema: &Schema, rows: &[Row], trial: &mut Trial) {
    trial.ok();
    match split_query(trial.alloc, query, schema) {
        Ok(Some(split)) => put_parts(&split, schema, rows, trial),
        Ok(None) => trial.null(),
        Err(_) => trial.give_up(),
    }
    trial.close("}");
}

fn put_error(error: QueryError, trial: &mut Trial) {
    match error {
        QueryError::Shape => trial.refused("Shape"),
        QueryError::WrongValue { path } => {
            trial.err("WrongValue");
            trial.name("path");
            trial.word(path.as_str());
            trial.close("}");
        }
        QueryError::NoMemory => trial.give_up(),
    }
}

fn ask(schema: &Schema, rows: &[Row], case: &Value, trial: &mut Trial) -> Option<()> {
    let now = now_of(case, trial)?;
    match read_query(trial.alloc, case.get("query")?, schema, now) {
        Ok(query) => put_matches(&query, schema, rows, trial),
        Err(error) => put_error(error, trial),
    }
    Some(())
}

/// Whether the row of each document matches a query, or why there is no such query.
pub fn matching(case: &Value, trial: &mut Trial) -> Option<()> {
    let schema = schema_at(trial.alloc, case, "template")?;
    let rows = all_rows(trial.alloc, &schema, trial.list(case, "documents"))?;
    ask(&schema, rows.as_slice(), case, trial)
}

fn ask_split(schema: &Schema, rows: &[Row], case: &Value, trial: &mut Trial) -> Option<()> {
    let now = now_of(case, trial)?;
    match read_query(trial.alloc, case.get("query")?, schema, now) {
        Ok(query) => put_split(&query, schema, rows, trial),
        Err(error) => put_error(error, trial),
    }
    Some(())
}

/// The parts of a query that splits, of which the rest is told by the documents that it takes; null where it doesn't split.
pub fn splitting(case: &Value, trial: &mut Trial) -> Option<()> {
    let schema = schema_at(trial.alloc, case, "template")?;
    let rows = all_rows(trial.alloc, &schema, trial.list(case, "documents"))?;
    ask_split(&schema, rows.as_slice(), case, trial)
}
