//! Rows of a series, folded and merged.
ghost use Rattle.std.specs.Prelude.{◌≡◌, false, IfSome};
ghost use Rattle.row_cells.specs.Fitting.{Fits, FitsEither, folded_form};
ghost use Rattle.ts_mapping.specs.Schemas.{IsTemplateSchema};

use crate::rows::{row_of, schema_at};
use crate::shown::ok_row;
use probe_case::Trial;
use row_cells::{Row, Schema, fold_row, merge_rows};
use serde_json::Value;
use std::alloc::Global;

/// One row of two of a series, or None where they aren't.
fn merged(alloc: Global, schema: &Schema, earlier: &Row, later: &Row) -> Option<Row>
    requires earlier_fits { FitsEither schema.now earlier.now }
    requires later_fits { FitsEither schema.now later.now }
    ensures { IfSome result (Fits (folded_form schema.now)) }
{
    if earlier.key != later.key {
        return None;
    }
    if earlier.count > 1_000 || later.count > 1_000 {
        return None;
    }
    match merge_rows(alloc, schema, earlier, later) {
        Ok(row) => Some(row),
        Err(_) => None,
    }
}

/// The rows of two documents of a series as one.
fn pair(alloc: Global, schema: &Schema, earlier: &Value, later: &Value) -> Option<Row>
    requires schema { IsTemplateSchema schema.now }
    requires raw { schema.now.folded ≡ false }
    ensures { IfSome result (Fits (folded_form schema.now)) }
{
    let earlier = row_of(alloc, schema, earlier)?;
    let later = row_of(alloc, schema, later)?;
    merged(alloc, schema, &earlier, &later)
}

/// Four rows by pairs.
fn pairs(alloc: Global, schema: &Schema, documents: &[Value; 4]) -> Option<Row>
    requires schema { IsTemplateSchema schema.now }
    requires raw { schema.now.folded ≡ false }
    ensures { IfSome result (Fits (folded_form schema.now)) }
{
    let [a, b, c, d] = documents;
    let earlier = pair(alloc, schema, a, b)?;
    let later = pair(alloc, schema, c, d)?;
    merged(alloc, schema, &earlier, &later)
}

fn folded(alloc: Global, schema: &Schema, document: &Value) -> Option<Row>
    requires schema { IsTemplateSchema schema.now }
    requires raw { schema.now.folded ≡ false }
{
    let row = row_of(alloc, schema, document)?;
    fold_row(alloc, schema, &row).ok()
}

fn one_of(alloc: Global, schema: &Schema, documents: &[Value]) -> Option<Row>
    requires schema { IsTemplateSchema schema.now }
    requires raw { schema.now.folded ≡ false }
{
    match documents {
        [a] => folded(alloc, schema, a),
        [a, b] => pair(alloc, schema, a, b),
        _ => pairs(alloc, schema, documents.first_chunk::<4>()?),
    }
}

/// The fold of one row, or two rows or four rows merged, the earliest first; four by pairs.
pub fn merge(case: &Value, trial: &mut Trial) -> Option<()> {
    let schema = schema_at(trial.alloc, case, "template")?;
    let row = one_of(trial.alloc, &schema, trial.list(case, "documents"))?;
    ok_row(&schema, &row, trial);
    Some(())
}
