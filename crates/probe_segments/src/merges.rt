//! Segments as one.
ghost use Rattle.std.specs.Prelude.{◌≡◌, false, IsTrue};
ghost use Rattle.probe_segments.specs.Apart.{IsApart, IsApartFromAll};
ghost use Rattle.row_cells.specs.KeyedRows.{AreRowsOf};
ghost use Rattle.row_cells.specs.RowLists.{AreApart};
ghost use Rattle.ts_mapping.specs.Schemas.{IsTemplateSchema};

use crate::segments::{built, spelled_documents};
use edge_face::Bytes;
use index_segment::Segment;
use probe_case::Trial;
use probe_rows::{rows_at, schema_at};
use row_cells::{MOST_DOCUMENTS, Row, Schema, row_order};
use serde_json::Value;
use std::alloc::Global;
use std::cmp::Ordering;

/// Whether two rows aren't of one series and time.
fn is_apart(row: &Row, other: &Row) -> bool
    ensures { IsTrue result → IsApart row.now other.now }
{
    match row_order(row, other) {
        Ordering::Equal => false,
        Ordering::Less => true,
        Ordering::Greater => true,
    }
}

fn is_apart_from_all(row: &Row, others: &[Row]) -> bool
    ensures { IsTrue result → IsApartFromAll others.now row.now }
{
    for other in others {
        if !is_apart(row, other) {
            return false;
        }
    }
    true
}

/// Whether no rows of two lists are of one series and time.
pub fn are_apart(rows: &[Row], others: &[Row]) -> bool
    ensures { IsTrue result → AreApart rows.now others.now }
{
    for row in rows {
        if !is_apart_from_all(row, others) {
            return false;
        }
    }
    true
}

/// The bytes of one segment of two.
fn merged(alloc: Global, first: &Segment, second: &Segment) -> Option<Bytes>
    requires schema { second.now.schema ≡ first.now.schema }
    requires apart { AreApart first.now.rows second.now.rows }
{
    match first.documents().checked_add(second.documents()) {
        Some(all) if all <= MOST_DOCUMENTS => {}
        _ => return None,
    }
    match first.merge(alloc, second) {
        Ok(segment) => segment.bytes(alloc).ok(),
        Err(_) => None,
    }
}

/// The bytes of one segment of a segment and that of rows.
fn merged_with(alloc: Global, schema: &Schema, first: &Segment, others: &[Row]) -> Option<Bytes>
    requires schema { IsTemplateSchema schema.now }
    requires others { AreRowsOf schema.now others.now }
    requires of { first.now.schema ≡ schema.now }
    requires apart { AreApart first.now.rows others.now }
{
    match built(alloc, schema, others) {
        Some(second) => merged(alloc, first, &second),
        None => None,
    }
}

/// The bytes of one segment of those of two lists of rows.
fn merged_rows(alloc: Global, schema: &Schema, rows: &[Row], others: &[Row]) -> Option<Bytes>
    requires schema { IsTemplateSchema schema.now }
    requires rows { AreRowsOf schema.now rows.now }
    requires others { AreRowsOf schema.now others.now }
{
    if !are_apart(rows, others) {
        return None;
    }
    match built(alloc, schema, rows) {
        Some(first) => merged_with(alloc, schema, &first, others),
        None => None,
    }
}

/// The bytes of one segment of rows and those of a case's second documents.
fn merged_second(alloc: Global, schema: &Schema, first: &[Row], case: &Value) -> Option<Bytes>
    requires schema { IsTemplateSchema schema.now }
    requires raw { schema.now.folded ≡ false }
    requires rows { AreRowsOf schema.now first.now }
{
    match rows_at(alloc, schema, case, "second", "second_lines") {
        Some(second) => merged_rows(alloc, schema, first, second.as_slice()),
        None => None,
    }
}

fn merged_case(alloc: Global, schema: &Schema, case: &Value) -> Option<Bytes>
    requires schema { IsTemplateSchema schema.now }
    requires raw { schema.now.folded ≡ false }
{
    match rows_at(alloc, schema, case, "first", "first_lines") {
        Some(first) => merged_second(alloc, schema, first.as_slice(), case),
        None => None,
    }
}

/// How many bytes the segment of two has, and whether they are those of the segment of all documents.
fn put_merged(merged: &[u8], wanted: &[u8], trial: &mut Trial) {
    trial.ok();
    trial.open("{");
    trial.count_at("bytes", merged.len());
    trial.flag_at("same", merged == wanted);
    trial.close("}}");
}

/// Says of merged bytes what there is to say beside the segment of all documents of a case.
pub fn compare(schema: &Schema, merged: &[u8], case: &Value, trial: &mut Trial) -> Option<()>
    requires schema { IsTemplateSchema schema.now }
    requires raw { schema.now.folded ≡ false }
{
    let wanted = spelled_documents(trial.alloc, schema, case)?;
    put_merged(merged, wanted.as_slice(), trial);
    Some(())
}

/// Two segments as one, which is that of all their rows.
pub fn merge(case: &Value, trial: &mut Trial) -> Option<()> {
    let schema = schema_at(trial.alloc, case, "template")?;
    let merged = merged_case(trial.alloc, &schema, case)?;
    compare(&schema, merged.as_slice(), case, trial)
}
