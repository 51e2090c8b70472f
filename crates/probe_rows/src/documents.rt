//! Documents: typed, and rebuilt from their rows.
ghost use Rattle.std.specs.Prelude.{◌≡◌, IsSome, false};
ghost use Rattle.row_cells.specs.Fitting.{CellsFit, Fits};
ghost use Rattle.serde_json.specs.View.{view};
ghost use Rattle.synthetic_source.specs.Faults.{time_of};
ghost use Rattle.time_text.specs.Instant.{IsInstant};
ghost use Rattle.ts_mapping.specs.Schemas.{IsTemplateSchema};

use crate::rows::{document_of, keyed_row, schema_at};
use crate::shown::put_cells;
use crate::templates::put_refusal;
use json_walk::read_line;
use probe_case::{Trial, is_set};
use reply_json::Out;
use row_cells::{Cell, Row, Schema};
use serde_json::Value;
use std::alloc::Global;
use synthetic_source::{DocError, Typed, rebuild, rebuild_value, type_cells, type_doc};

/// The text of a tree, if it is that of a document whose members ascend.
pub fn ascending_text(alloc: Global, out: &Out) -> Option<Vec<u8>> {
    let mut text = Vec::new(alloc);
    reply_json::print(out, &mut text).ok()?;
    let again = read_line(alloc, text.as_slice())
        .ok()?
        .to_string(alloc)
        .ok()?;
    if text.as_slice() == again.as_bytes() {
        Some(text)
    } else {
        None
    }
}

/// The text that a row is rebuilt as, by both ways of rebuilding.
fn rebuilt(alloc: Global, schema: &Schema, row: &Row) -> Option<Vec<u8>>
    requires template { IsTemplateSchema schema.now }
    requires raw { schema.now.folded ≡ false }
    requires fits { Fits schema.now row.now }
{
    let text = ascending_text(alloc, &rebuild(alloc, schema, row).ok()?)?;
    let value = rebuild_value(alloc, schema, row)
        .ok()?
        .to_string(alloc)
        .ok()?;
    if text.as_slice() == value.as_bytes() {
        Some(text)
    } else {
        None
    }
}

fn put_refused(error: DocError, trial: &mut Trial) -> Option<()> {
    match error {
        DocError::Refused { kind, path } => {
            let kind = format!(in trial.alloc; "{kind:?}").ok()?;
            put_refusal(kind.as_str(), path.as_str(), trial);
            Some(())
        }
        DocError::NoMemory => None,
    }
}

fn put_rebuilt(schema: &Schema, typed: Typed, trial: &mut Trial) -> Option<()>
    requires template { IsTemplateSchema schema.now }
    requires raw { schema.now.folded ≡ false }
    requires instant { IsInstant typed.time }
    requires cells { CellsFit false schema.now.rises 1 schema.now.fields typed.cells }
{
    let row = keyed_row(trial.alloc, schema, typed)?;
    let text = rebuilt(trial.alloc, schema, &row)?;
    trial.ok();
    trial.json(text.as_slice());
    trial.close("}");
    Some(())
}

/// What a document is rebuilt as, or why it is refused.
pub fn round(case: &Value, trial: &mut Trial) -> Option<()> {
    let schema = schema_at(trial.alloc, case, "template")?;
    let document = document_of(trial.alloc, case)?;
    match type_doc(trial.alloc, &schema, !is_set(case, "lenient"), &document) {
        Ok(typed) => put_rebuilt(&schema, typed, trial),
        Err(error) => put_refused(error, trial),
    }
}

/// The cells of a document that has a time, or why it is refused.
pub fn cells(case: &Value, trial: &mut Trial) -> Option<()> {
    let schema = schema_at(trial.alloc, case, "template")?;
    let document = document_of(trial.alloc, case)?;
    match synthetic_source::read_time(trial.alloc, &document) {
        Ok(_) => put_typed(&schema, &document, case, trial),
        Err(error) => put_refused(error, trial),
    }
}

fn put_typed(schema: &Schema, document: &Value, case: &Value, trial: &mut Trial) -> Option<()>
    requires schema { IsTemplateSchema schema.now }
    requires timed { IsSome (time_of (view document.now)) }
{
    match type_cells(trial.alloc, schema, !is_set(case, "lenient"), document) {
        Ok(cells) => ok_cells(schema, cells.as_slice(), trial),
        Err(error) => put_refused(error, trial)?,
    }
    Some(())
}

fn ok_cells(schema: &Schema, cells: &[Cell], trial: &mut Trial) {
    trial.ok();
    put_cells(schema.fields.as_slice(), cells, trial);
    trial.close("}");
}

/// The time of a document, or why it has none.
pub fn time(case: &Value, trial: &mut Trial) -> Option<()> {
    let document = trial.tree_at(case, "document", "line");
    match synthetic_source::read_time(trial.alloc, &document) {
        Ok(time) => trial.ok_whole(time),
        Err(error) => put_refused(error, trial)?,
    }
    Some(())
}
