//! The rows of a segment's parts. Where they are the parts of no rows, the answer is free.
ghost use Rattle.std.specs.Prelude.{◌≡◌, ℕ, pos, List, suc, ◌++◌, ◌+◌, ◌<◌, ◌≤◌, Some, length, slice_range, IfOk, IfSome, IsSomeAnd};
ghost use Rattle.row_cells.specs.Mapped.{IsMapped};
ghost use Rattle.row_cells.specs.declared.rows.Row.{Row};
ghost use Rattle.row_cells.specs.Limits.{most_documents};
ghost use Rattle.index_segment.specs.Directory.{sizes_of, total};
ghost use Rattle.index_segment.specs.Forms as spec;
ghost use Rattle.index_segment.specs.Parts.{HaveParts};
ghost use Rattle.row_cells.specs.KeyedRows.{AreRowsOf};

use crate::forms::Form;
use crate::parse::Parsed;
use crate::scan::{Series, pull, push_rows};
use edge_face::NoMemory;
use row_cells::{MOST_DOCUMENTS, Row, Schema, heads_of};
use sqlite_items::at;
use std::alloc::Global;

/// Where a series that begins at a row ends.
fn end_of(start: usize, size: i64, rows: usize) -> Option<usize>
    requires there { start ≤ rows }
    ensures within { IfSome result (λ end. (start ≤ end) × (end ≤ rows)) }
    ensures all { (n : ℕ) → size ≡ pos n → start + n ≤ rows → result ≡ Some (start + n) }
{
    if size < 0 {
        return None;
    }
    let count = size.unsigned_abs() as usize;
    if count > rows - start {
        return None;
    }
    Some(start + count)
}

/// Pushes the rows of a series, of which the first stands at a place. The answer is where the next one begins.
fn push_series(
    alloc: Global,
    schema: &Schema,
    forms: &[Form],
    parsed: &Parsed,
    series: usize,
    start: usize,
    into: &mut Vec<Row>,
) -> Result<Option<usize>, NoMemory>
    requires forms { forms.now ≡ spec.forms_of schema.now }
    requires there { series < length parsed.now.keys }
    requires start { start ≤ length parsed.now.times }
    requires few { length parsed.now.times ≤ most_documents }
    ensures next { IfOk result (λ found. IfSome found (λ next. next ≤ length parsed.now.times)) }
    ensures rows { IfOk result (λ found. (rows : List Row) → IsMapped schema.now → AreRowsOf schema.now rows →
        HaveParts schema.now rows parsed.now.keys parsed.now.sizes parsed.now.times parsed.now.counts parsed.now.columns →
        start ≡ total series (sizes_of rows) →
        IsSomeAnd found (λ next. (next ≡ total (suc series) (sizes_of rows)) × (into.new.items ≡ into.old.items ++ slice_range rows start next))) }
{
    if series >= parsed.sizes.len() {
        return Ok(None);
    }
    let Some(end) = end_of(start, parsed.sizes.at(series), parsed.times.len()) else {
        return Ok(None);
    };
    let Some(key) = at(parsed.keys.as_slice(), series) else {
        return Ok(None);
    };
    let heads = heads_of(alloc, schema.fields.as_slice(), key.bytes())?;
    let times = parsed.times.values(alloc, start, end)?;
    let counts = parsed.counts.values(alloc, start, end)?;
    if counts.as_slice().len() != times.as_slice().len() {
        return Ok(None);
    }
    let columns = pull(alloc, parsed.columns.as_slice(), start as u32, end as u32)?;
    let head = Series {
        key,
        forms,
        heads: heads.as_slice(),
    };
    push_rows(
        alloc,
        head,
        times.as_slice(),
        counts.as_slice(),
        columns.as_slice(),
        into,
    )?;
    Ok(Some(end))
}

/// The rows of the parts.
pub fn make_rows(
    alloc: Global,
    schema: &Schema,
    forms: &[Form],
    parsed: &Parsed,
) -> Result<Option<Vec<Row>>, NoMemory>
    requires forms { forms.now ≡ spec.forms_of schema.now }
    ensures { IfOk result (λ found. (rows : List Row) → IsMapped schema.now → AreRowsOf schema.now rows →
        HaveParts schema.now rows parsed.now.keys parsed.now.sizes parsed.now.times parsed.now.counts parsed.now.columns →
        IsSomeAnd found (λ made. made.items ≡ rows)) }
{
    // Each row counts a document.
    if parsed.times.len() as u64 > MOST_DOCUMENTS {
        return Ok(None);
    }
    let mut made = Vec::new(alloc);
    let mut start = 0;
    for series in 0..parsed.keys.as_slice().len() {
        let Some(next) = push_series(alloc, schema, forms, parsed, series, start, &mut made)? else {
            return Ok(None);
        };
        start = next;
    }
    Ok(Some(made))
}
