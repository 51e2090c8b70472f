//! Schemas of templates.
ghost use Rattle.std.specs.Prelude.{◌≡◌, false, IfOk};
ghost use Rattle.row_cells.specs.Fitting.{folded_form};
ghost use Rattle.ts_mapping.specs.Schemas.{IsTemplateSchema};

use anyhow::Result;
use edge_face::Text;
use row_cells::{Schema, copy_schema};
use serde_json::Value;
use std::alloc::Global;
use ts_mapping::{Template, read_template};

/// The schema of the template of a body.
pub fn schema_of(alloc: Global, body: &Value) -> Result<Schema>
    ensures schema { IfOk result IsTemplateSchema }
    ensures raw { IfOk result (λ schema. schema.folded ≡ false) }
{
    let name = Text::new(alloc, "t")?;
    let Template { schema, .. } = read_template(alloc, &name, body)?;
    Ok(schema)
}

/// The schema of the folds of rows of a schema.
pub fn folded_schema(alloc: Global, schema: &Schema) -> Result<Schema>
    requires { IsTemplateSchema schema.now }
    ensures form { IfOk result (λ folded. folded ≡ folded_form schema.now) }
    ensures schema { IfOk result IsTemplateSchema }
{
    let mut folded = copy_schema(alloc, schema)?;
    folded.folded = true;
    Ok(folded)
}
