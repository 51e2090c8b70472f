//! The head of a series: the cells of its dimensions, as its key spells them.
ghost use Rattle.std.specs.Prelude.{◌≡◌, IfOk};
ghost use Rattle.row_cells.specs.Fitting.{Fits};
ghost use Rattle.row_cells.specs.Heads.{IsHeadOf, dimension_at, dimension_seen, entry_at, head_row_of, heads_in, scalar_of};
ghost use Rattle.row_cells.specs.Mapped.{IsMapped};
ghost use Rattle.row_cells.specs.Texts.{Reads};

use crate::entries::{Entry, EntryValue, read_entry};
use crate::keys::Key;
use crate::rows::{Cell, Row};
use crate::scalars::Scalar;
use crate::schemas::{Field, Schema};
use edge_face::{NoMemory, Text};
use sqlite_items::Items;
use std::alloc::Global;

/// The value of an entry, with a copy of its text.
fn owned(alloc: Global, value: EntryValue<'_>) -> Result<Scalar, NoMemory>
    ensures { IfOk result (λ copy. copy ≡ scalar_of value.entry) }
{
    match value {
        EntryValue::Whole(number) => Ok(Scalar::Whole(number)),
        EntryValue::Flag(flag) => Ok(Scalar::Flag(flag)),
        EntryValue::Word(text) => Ok(Scalar::Word(Text::new(alloc, text)?)),
    }
}

/// What is left of a key, and the entry that it begins with, which is read once.
#[derive(Clone, Copy)]
struct Left<'a> {
    bytes: &'a [u8],
    first: Option<Entry<'a>>,
}

fn left_at(bytes: &[u8]) -> Left<'_>
    ensures bytes { result.bytes.now ≡ bytes.now }
    ensures first { Reads (λ entry. (dimension_seen entry, entry.rest.now)) result.first (dimension_at bytes.now) }
{
    Left {
        bytes,
        first: read_entry(bytes),
    }
}

/// The first entry that is left, where it is of this path.
#[tactic(auto, unfolding(crate::specs::Heads::entry_at))]
fn entry_of<'a>(path: &[u8], left: Left<'a>) -> Option<Entry<'a>>
    requires { Reads (λ entry. (dimension_seen entry, entry.rest.now)) left.first (dimension_at left.bytes.now) }
    ensures { Reads (λ entry. (scalar_of entry.value, entry.rest.now)) result (entry_at path.now left.entry.bytes.now) }
{
    let entry = left.first?;
    if entry.path != path {
        return None;
    }
    Some(entry)
}

/// A cell for each field, in one walk over fields and bytes, which reads each entry once. Where the fields ascend and each
/// path of the key is among them, it is what the dimension of the field's path has in the key, or none. At a path that is
/// no field's the walk stays, and all cells from there on are absent.
pub fn heads_of(alloc: Global, fields: &[Field], key: &[u8]) -> Result<Items<Cell>, NoMemory>
    ensures { IfOk result (λ heads. heads ≡ heads_in fields.now key.now) }
{
    let mut heads = Vec::with_capacity(alloc, fields.len())?;
    let mut left = left_at(key);
    for field in fields {
        match entry_of(field.path.as_bytes(), left) {
            Some(entry) => {
                heads.push(Cell::One(owned(alloc, entry.value)?))?;
                left = left_at(entry.rest);
            }
            None => heads.push(Cell::Absent)?,
        }
    }
    Ok(Items::from_vec(heads))
}

/// One row with the head of a series: its dimensions, and nothing else. Of the key of a row that fits, it fits as a document.
pub fn head_row(alloc: Global, schema: &Schema, key: &Key) -> Result<Row, NoMemory>
    ensures is { IfOk result (λ head. head ≡ head_row_of schema.now key.now) }
    ensures fits { (row : Row) → IsMapped schema.now → Fits schema.now row → row.key ≡ key.now →
        IfOk result (λ head. IsHeadOf schema.now row head) }
{
    let cells = heads_of(alloc, schema.fields.as_slice(), key.bytes())?;
    Ok(Row {
        key: key.copy(alloc)?,
        time: 0,
        count: 1,
        cells,
    })
}
