//! Any number of segments as one.
ghost use Rattle.std.specs.Prelude.{◌≡◌, ◌+◌, ◌≤◌, false, IsTrue};
ghost use Rattle.row_cells.specs.KeyedRows.{AreRowsOf};
ghost use Rattle.row_cells.specs.Limits.{most_documents};
ghost use Rattle.row_cells.specs.RowLists.{AreApart, documents};
ghost use Rattle.ts_mapping.specs.Schemas.{IsTemplateSchema};

use crate::merges::{are_apart, compare};
use crate::segments::built;
use edge_face::Bytes;
use index_segment::Segment;
use probe_case::Trial;
use probe_rows::{rows_at, schema_at};
use row_cells::{MOST_DOCUMENTS, Row, Schema};
use serde_json::Value;
use std::alloc::Global;

/// Whether one segment may stand for the documents of three.
fn are_few(first: &Segment, second: &Segment, third: &Segment) -> bool
    ensures { IsTrue result → documents first.now.rows + documents second.now.rows + documents third.now.rows ≤ most_documents }
{
    let Some(two) = first.documents().checked_add(second.documents()) else {
        return false;
    };
    match two.checked_add(third.documents()) {
        Some(all) => all <= MOST_DOCUMENTS,
        None => false,
    }
}

/// The bytes of one segment of three.
fn joined(
    alloc: Global,
    schema: &Schema,
    first: Segment,
    second: Segment,
    third: Segment,
) -> Option<Bytes>
    requires schema { IsTemplateSchema schema.now }
    requires first_of { first.schema ≡ schema.now }
    requires second_of { second.schema ≡ schema.now }
    requires third_of { third.schema ≡ schema.now }
    requires first_second { AreApart first.rows second.rows }
    requires first_third { AreApart first.rows third.rows }
    requires second_third { AreApart second.rows third.rows }
{
    if !are_few(&first, &second, &third) {
        return None;
    }
    let parts = [first, second, third];
    let segment = Segment::merge_all(alloc, schema, &parts).ok()?;
    segment.bytes(alloc).ok()
}

/// The bytes of one segment of those of three lists of rows.
fn joined_rows(
    alloc: Global,
    schema: &Schema,
    first: &[Row],
    second: &[Row],
    third: &[Row],
) -> Option<Bytes>
    requires schema { IsTemplateSchema schema.now }
    requires first { AreRowsOf schema.now first.now }
    requires second { AreRowsOf schema.now second.now }
    requires third { AreRowsOf schema.now third.now }
{
    if !are_apart(first, second) || !are_apart(first, third) || !are_apart(second, third) {
        return None;
    }
    let one = built(alloc, schema, first)?;
    let two = built(alloc, schema, second)?;
    let three = built(alloc, schema, third)?;
    joined(alloc, schema, one, two, three)
}

fn joined_case(alloc: Global, schema: &Schema, case: &Value) -> Option<Bytes>
    requires schema { IsTemplateSchema schema.now }
    requires raw { schema.now.folded ≡ false }
{
    let first = rows_at(alloc, schema, case, "first", "first_lines")?;
    let second = rows_at(alloc, schema, case, "second", "second_lines")?;
    let third = rows_at(alloc, schema, case, "third", "third_lines")?;
    joined_rows(
        alloc,
        schema,
        first.as_slice(),
        second.as_slice(),
        third.as_slice(),
    )
}

/// Three segments as one, which is that of all their rows.
pub fn merge_all(case: &Value, trial: &mut Trial) -> Option<()> {
    let schema = schema_at(trial.alloc, case, "template")?;
    let merged = joined_case(trial.alloc, &schema, case)?;
    compare(&schema, merged.as_slice(), case, trial)
}
