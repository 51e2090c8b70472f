//! Segments read from bytes.
ghost use Rattle.std.specs.Prelude.{◌≡◌, List, IfOk, IfSome, IsSomeAnd, Some};
ghost use Rattle.std.specs.Str.{bytes_eq};
ghost use Rattle.row_cells.specs.Mapped.{IsMapped};
ghost use Rattle.row_cells.specs.declared.rows.Row.{Row};
ghost use Rattle.row_cells.specs.KeyedRows.{AreRowsOf};
ghost use Rattle.index_segment.specs.Spelling.{IsSegmentOf};

use crate::forms::forms_of;
use crate::parse::read_parts;
use crate::remake::make_rows;
use edge_face::{NoMemory, bytes_order};
use row_cells::{Row, Schema};
use series_id::are_rows_of;
use std::alloc::Global;

/// Two texts have the same bytes.
pub fn are_same(left: &[u8], right: &[u8]) -> bool
    ensures { result ≡ bytes_eq left.now right.now }
{
    bytes_order(left, right).is_eq()
}

/// Rows of a segment. If the bytes are a segment, they are its rows.
pub fn rows_in(alloc: Global, schema: &Schema, bytes: &[u8]) -> Result<Option<Vec<Row>>, NoMemory>
    requires mapped { IsMapped schema.now }
    ensures rows { IfOk result (λ found. IfSome found (λ made. AreRowsOf schema.now made.items)) }
    ensures all { IfOk result (λ found. (rows : List Row) → IsSegmentOf schema.now rows bytes.now →
        IsSomeAnd found (λ made. made.items ≡ rows)) }
{
    let forms = forms_of(alloc, schema)?;
    let Some(parsed) = read_parts(alloc, schema, forms.as_slice(), bytes)? else {
        return Ok(None);
    };
    let Some(rows) = make_rows(alloc, schema, forms.as_slice(), &parsed)? else {
        return Ok(None);
    };
    if !are_rows_of(alloc, schema, rows.as_slice())? {
        return Ok(None);
    }
    Ok(Some(rows))
}
