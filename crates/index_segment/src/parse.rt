//! The rows that bytes of a segment stand for. Where the bytes are no segment, the answer is free.
ghost use Rattle.std.specs.Prelude.{◌≡◌, List, ◌++◌, IfOk, OnOk, IsSomeAnd};
ghost use Rattle.row_cells.specs.Mapped.{IsMapped};
ghost use Rattle.row_cells.specs.declared.rows.Row.{Row};
ghost use Rattle.index_segment.specs.Forms as spec;
ghost use Rattle.index_segment.specs.Parts as kept;
ghost use Rattle.index_segment.specs.Parts.{HaveParts, form_kinds};
ghost use Rattle.index_segment.specs.Spelling.{IsSegmentOf};

use crate::forms::Form;
use crate::pieces::{read_columns, read_head, read_keys, read_numbers};
use column_block::{Column, ColumnKind};
use edge_face::NoMemory;
use packed_lists::NumberList;
use row_cells::{Key, Row, Schema};
use sqlite_items::Items;
use std::alloc::Global;

/// The parts of a segment, as its bytes have them.
#[derive(Drop)]
pub struct Parsed {
    pub keys: Items<Key>,
    pub sizes: NumberList,
    pub times: NumberList,
    pub counts: NumberList,
    pub columns: Items<Column>,
}

fn push_kinds(form: Form, into: &mut Vec<ColumnKind>) -> Result<(), NoMemory>
    ensures { OnOk result (into.new.items ≡ into.old.items ++ form_kinds form) }
{
    match form {
        Form::Bare => {}
        Form::Whole => into.push(ColumnKind::Whole)?,
        Form::Parts => into.push(ColumnKind::Parts)?,
        Form::Rise => {
            into.push(ColumnKind::Whole)?;
            into.push(ColumnKind::Whole)?;
            into.push(ColumnKind::Whole)?;
            into.push(ColumnKind::Whole)?;
        }
        Form::Numbers => into.push(ColumnKind::Wholes)?,
        Form::Flags => into.push(ColumnKind::Wholes)?,
        Form::Words => into.push(ColumnKind::Words)?,
    }
    Ok(())
}

/// The kinds of the columns of fields with these forms.
fn kinds_of(alloc: Global, forms: &[Form]) -> Result<Items<ColumnKind>, NoMemory>
    ensures { IfOk result (λ kinds. kinds ≡ kept.kinds_of forms.now) }
{
    let mut kinds = Vec::new(alloc);
    for form in forms {
        push_kinds(*form, &mut kinds)?;
    }
    Ok(Items::from_vec(kinds))
}

/// Reads the parts of a segment with fields of these forms.
pub fn read_parts(
    alloc: Global,
    schema: &Schema,
    forms: &[Form],
    bytes: &[u8],
) -> Result<Option<Parsed>, NoMemory>
    requires mapped { IsMapped schema.now }
    requires forms { forms.now ≡ spec.forms_of schema.now }
    ensures { IfOk result (λ found. (rows : List Row) → IsSegmentOf schema.now rows bytes.now →
        IsSomeAnd found (λ p. HaveParts schema.now rows p.keys p.sizes p.times p.counts p.columns)) }
{
    let Some(head) = read_head(bytes) else {
        return Ok(None);
    };
    let Some(keys) = read_keys(alloc, head.series, head.rest)? else {
        return Ok(None);
    };
    let Some(sizes) = read_numbers(alloc, head.series, keys.rest)? else {
        return Ok(None);
    };
    let Some(times) = read_numbers(alloc, head.rows, sizes.rest)? else {
        return Ok(None);
    };
    let Some(counts) = read_numbers(alloc, head.rows, times.rest)? else {
        return Ok(None);
    };
    let kinds = kinds_of(alloc, forms)?;
    let Some(columns) = read_columns(alloc, kinds.as_slice(), head.rows, counts.rest)? else {
        return Ok(None);
    };
    Ok(Some(Parsed {
        keys: keys.keys,
        sizes: sizes.numbers,
        times: times.numbers,
        counts: counts.numbers,
        columns,
    }))
}
