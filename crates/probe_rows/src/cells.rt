//! Cells of rows, and what rows may stand in an index.
use crate::rows::{all_rows, case_rows, row_of, schema_at};
use crate::shown::ok_row;
use edge_face::bytes_order;
use probe_case::{Trial, is_set, optional_number, part};
use row_cells::{
    Cell, MOST_DOCUMENTS, Row, Schema, are_few, are_in_row_order, copy_row, fit_cells, head_row,
    row_order,
};
use serde_json::Value;
use series_id::are_rows_of;
use std::alloc::Global;
use std::cmp::Ordering;

/// The copy of a document's row.
pub fn copied(case: &Value, trial: &mut Trial) -> Option<()> {
    let schema = schema_at(trial.alloc, case, "template")?;
    let row = row_of(trial.alloc, &schema, trial.list(case, "documents").first()?)?;
    ok_row(&schema, &copy_row(trial.alloc, &row).ok()?, trial);
    Some(())
}

/// The row of a document's dimensions alone.
pub fn head(case: &Value, trial: &mut Trial) -> Option<()> {
    let schema = schema_at(trial.alloc, case, "template")?;
    let row = row_of(trial.alloc, &schema, trial.list(case, "documents").first()?)?;
    ok_row(
        &schema,
        &head_row(trial.alloc, &schema, &row.key).ok()?,
        trial,
    );
    Some(())
}

/// Whether documents' rows may stand in an index of their schema, and in one of another, which may rise or be folded.
pub fn are_rows(case: &Value, trial: &mut Trial) -> Option<()> {
    let schema = schema_at(trial.alloc, case, "template")?;
    let mut other = schema_at(trial.alloc, case, "other")?;
    let rows = case_rows(trial.alloc, &schema, case)?;
    other.folded = is_set(case, "folded");
    trial.ok_flag(are_rows_of(trial.alloc, &other, rows.as_slice()).ok()?);
    Some(())
}

/// A sign for an order.
fn sign_of(order: Ordering) -> &'static str {
    match order {
        Ordering::Less => "<",
        Ordering::Equal => "=",
        Ordering::Greater => ">",
    }
}

/// A sign for each text, of how a text stands to it.
fn signs_of(alloc: Global, left: &str, texts: &[&str]) -> Option<String> {
    let mut signs = String::new(alloc);
    for right in texts {
        signs
            .push_str(sign_of(bytes_order(left.as_bytes(), right.as_bytes())))
            .ok()?;
    }
    Some(signs)
}

/// How each text stands to each.
pub fn orders(case: &Value, trial: &mut Trial) -> Option<()> {
    let texts = trial.words(case, "texts");
    trial.ok();
    trial.open("[");
    for left in &texts {
        trial.word(signs_of(trial.alloc, left, texts.as_slice())?.as_str());
    }
    trial.close("]}");
    Some(())
}

/// A sign for each row, of how a row stands to it.
fn row_signs_of(alloc: Global, left: &Row, rows: &[Row]) -> Option<String> {
    let mut signs = String::new(alloc);
    for right in rows {
        signs.push_str(sign_of(row_order(left, right))).ok()?;
    }
    Some(signs)
}

fn put_row_orders(rows: &[Row], trial: &mut Trial) -> Option<()> {
    trial.ok();
    trial.open("{");
    trial.flag_at("in_order", are_in_row_order(rows));
    trial.flag_at("few", are_few(rows));
    trial.name("signs");
    trial.open("[");
    for left in rows {
        trial.word(row_signs_of(trial.alloc, left, rows)?.as_str());
    }
    trial.close("]}}");
    Some(())
}

/// How each row of documents stands to each, and whether all stand in row order and are few.
pub fn row_orders(case: &Value, trial: &mut Trial) -> Option<()> {
    let schema = schema_at(trial.alloc, case, "template")?;
    let rows = all_rows(trial.alloc, &schema, trial.list(case, "documents"))?;
    put_row_orders(rows.as_slice(), trial)
}

fn put_fit(case: &Value, schema: &Schema, cells: &[Cell], trial: &mut Trial) -> Option<()> {
    let documents = trial.number(case, "count");
    if documents < 1 || documents as u64 > MOST_DOCUMENTS {
        return None;
    }
    let (folded, rises) = (is_set(case, "folded"), is_set(case, "rises"));
    let fields = schema.fields.as_slice();
    trial.ok_flag(fit_cells(folded, rises, documents as u64, fields, cells));
    Some(())
}

/// Whether a document's cells, or so many of the first, fit the fields of a form.
pub fn fit(case: &Value, trial: &mut Trial) -> Option<()> {
    let schema = schema_at(trial.alloc, case, "template")?;
    let row = row_of(trial.alloc, &schema, trial.list(case, "documents").first()?)?;
    let first = optional_number(case, "first", i64::MAX)?.unsigned_abs() as usize;
    put_fit(case, &schema, part(row.cells.as_slice(), 0, first), trial)
}
