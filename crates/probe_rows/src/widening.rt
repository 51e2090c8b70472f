//! Schemas together, and rows in them.
ghost use Rattle.std.specs.Prelude.{◌≡◌, false, IfSome};
ghost use Rattle.row_cells.specs.Fitting.{FieldsAscend};
ghost use Rattle.row_cells.specs.Joining.{AllIn, FieldsAgree};
ghost use Rattle.ts_mapping.specs.Schemas.{IsTemplateSchema};

use crate::fields::agree;
use crate::rows::{row_of, schema_at};
use crate::shown::{put_row, put_schema};
use probe_case::Trial;
use row_cells::{Row, Schema, join_schemas, widen};
use serde_json::Value;
use std::alloc::Global;

fn put_wide(joined: &Schema, wide: &Row, trial: &mut Trial) {
    trial.ok();
    trial.open("{");
    trial.name("schema");
    put_schema(joined, trial);
    trial.name("row");
    put_row(joined, wide, trial);
    trial.close("}}");
}

/// The fields of two schemas together.
fn joined_of(alloc: Global, schema: &Schema, other: &Schema) -> Option<Schema>
    requires schema { IsTemplateSchema schema.now }
    requires other { IsTemplateSchema other.now }
    requires agree { FieldsAgree schema.now.fields other.now.fields }
    ensures within { IfSome result (λ joined. AllIn schema.now.fields joined.fields) }
    ensures ascending { IfSome result (λ joined. FieldsAscend joined.fields) }
{
    match join_schemas(alloc, schema, other) {
        Ok(joined) => Some(joined),
        Err(_) => None,
    }
}

fn put_joined(schema: &Schema, other: &Schema, document: &Value, trial: &mut Trial) -> Option<()>
    requires schema { IsTemplateSchema schema.now }
    requires other { IsTemplateSchema other.now }
    requires raw { schema.now.folded ≡ false }
    requires agree { FieldsAgree schema.now.fields other.now.fields }
{
    let row = row_of(trial.alloc, schema, document)?;
    let joined = joined_of(trial.alloc, schema, other)?;
    let wide = widen(trial.alloc, &row, schema, &joined).ok()?;
    put_wide(&joined, &wide, trial);
    Some(())
}

/// A document's row in the schema of its template and another one together. Fields that differ at one path give `"differ"`.
pub fn widened(case: &Value, trial: &mut Trial) -> Option<()> {
    let schema = schema_at(trial.alloc, case, "template")?;
    let other = schema_at(trial.alloc, case, "other")?;
    let document = trial.list(case, "documents").first()?;
    if agree(schema.fields.as_slice(), other.fields.as_slice()) {
        return put_joined(&schema, &other, document, trial);
    }
    trial.ok_word("differ");
    Some(())
}
