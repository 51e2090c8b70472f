//! Rows of a case: documents typed by the schema of a template.
ghost use Rattle.std.specs.Prelude.{◌≡◌, false, IfSome};
ghost use Rattle.row_cells.specs.Fitting.{CellsFit, Fits};
ghost use Rattle.row_cells.specs.KeyedRows.{AreRowsOf};
ghost use Rattle.time_text.specs.Instant.{IsInstant};
ghost use Rattle.ts_mapping.specs.Schemas.{IsTemplateSchema};

use edge_face::Text;
use json_walk::read_line;
use probe_case::{bytes_of, optional_list};
use row_cells::{Row, Schema};
use serde_json::Value;
use series_id::{are_rows_of, series_key};
use std::alloc::Global;
use synthetic_source::{Typed, type_doc};
use ts_mapping::read_template;

/// The schema of the template that a member of a case is.
pub fn schema_at(alloc: Global, case: &Value, name: &str) -> Option<Schema>
    ensures schema { IfSome result IsTemplateSchema }
    ensures raw { IfSome result (λ schema. schema.folded ≡ false) }
{
    match read_template(alloc, &Text::fixed("t"), case.get(name)?) {
        Ok(template) => Some(template.schema),
        Err(_) => None,
    }
}

/// The row of a typed document, unless it has no key.
pub fn keyed_row(alloc: Global, schema: &Schema, typed: Typed) -> Option<Row>
    requires schema { IsTemplateSchema schema.now }
    requires raw { schema.now.folded ≡ false }
    requires instant { IsInstant typed.time }
    requires cells { CellsFit false schema.now.rises 1 schema.now.fields typed.cells }
    ensures { IfSome result (Fits schema.now) }
{
    match series_key(alloc, schema, typed.cells.as_slice()) {
        Ok(key) => Some(Row {
            key,
            time: typed.time,
            count: 1,
            cells: typed.cells,
        }),
        Err(_) => None,
    }
}

/// The row of a document, in a mapping that is strict.
pub fn row_of(alloc: Global, schema: &Schema, document: &Value) -> Option<Row>
    requires schema { IsTemplateSchema schema.now }
    requires raw { schema.now.folded ≡ false }
    ensures row { IfSome result (Fits schema.now) }
{
    match type_doc(alloc, schema, true, document) {
        Ok(typed) => keyed_row(alloc, schema, typed),
        Err(_) => None,
    }
}

/// The rows of documents, in whatever order they come.
pub fn all_rows(alloc: Global, schema: &Schema, documents: &[Value]) -> Option<Vec<Row>>
    requires schema { IsTemplateSchema schema.now }
    requires raw { schema.now.folded ≡ false }
{
    let mut rows = Vec::new(alloc);
    for document in documents {
        rows.push(row_of(alloc, schema, document)?).ok()?;
    }
    Some(rows)
}

/// The rows of documents, which come in row order.
pub fn rows_of(alloc: Global, schema: &Schema, documents: &[Value]) -> Option<Vec<Row>>
    requires schema { IsTemplateSchema schema.now }
    requires raw { schema.now.folded ≡ false }
    ensures rows { IfSome result (λ rows. AreRowsOf schema.now rows.items) }
{
    let rows = all_rows(alloc, schema, documents)?;
    match are_rows_of(alloc, schema, rows.as_slice()) {
        Ok(true) => Some(rows),
        _ => None,
    }
}

/// The documents of the lines of a text.
fn documents_in(alloc: Global, text: &[u8]) -> Option<Vec<Value>> {
    let mut documents = Vec::new(alloc);
    for line in text.split(|byte| *byte == b'\n') {
        if !line.is_empty() {
            documents.push(read_line(alloc, line).ok()?).ok()?;
        }
    }
    Some(documents)
}

/// The one document of a case, as a tree or as its text.
pub fn document_of(alloc: Global, case: &Value) -> Option<Value> {
    match case.get("lines") {
        Some(lines) => read_line(alloc, bytes_of(alloc, lines)?.as_slice()).ok(),
        None => optional_list(case, "documents")?.first()?.clone().ok(),
    }
}

fn rows_in_lines(alloc: Global, schema: &Schema, lines: &Value) -> Option<Vec<Row>>
    requires schema { IsTemplateSchema schema.now }
    requires raw { schema.now.folded ≡ false }
    ensures rows { IfSome result (λ rows. AreRowsOf schema.now rows.items) }
{
    let text = bytes_of(alloc, lines)?;
    let documents = documents_in(alloc, text.as_slice())?;
    rows_of(alloc, schema, documents.as_slice())
}

/// The rows of documents that a case lists under a name, or has as the lines of a text under another.
pub fn rows_at(
    alloc: Global,
    schema: &Schema,
    case: &Value,
    name: &str,
    lines: &str,
) -> Option<Vec<Row>>
    requires schema { IsTemplateSchema schema.now }
    requires raw { schema.now.folded ≡ false }
    ensures rows { IfSome result (λ rows. AreRowsOf schema.now rows.items) }
{
    match case.get(lines) {
        Some(lines) => rows_in_lines(alloc, schema, lines),
        None => rows_of(alloc, schema, optional_list(case, name)?),
    }
}

/// The rows of a case's documents.
pub fn case_rows(alloc: Global, schema: &Schema, case: &Value) -> Option<Vec<Row>>
    requires schema { IsTemplateSchema schema.now }
    requires raw { schema.now.folded ≡ false }
    ensures rows { IfSome result (λ rows. AreRowsOf schema.now rows.items) }
{
    rows_at(alloc, schema, case, "documents", "lines")
}
