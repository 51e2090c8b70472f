//! What a body is read with, and the places of the fields that it names.
ghost use Rattle.std.specs.Prelude.{◌≡◌, IfOk, suc};
ghost use Rattle.search_filter.specs.Reading as spec;

use edge_face::NoMemory;
use row_cells::{Field, FieldType};
use sqlite_items::Items;
use std::alloc::Global;

/// What a body is read with.
#[derive(Clone, Copy)]
pub struct Reader<'a> {
    pub alloc: Global,
    pub fields: &'a [Field],
    /// The present moment, an instant.
    pub present: i64,
}

/// A mapped field, by its place in the schema.
#[derive(Clone, Copy)]
pub struct Placed {
    pub field: u32,
    pub kind: FieldType,
}

/// The place behind another one. More fields than places of 32 bits are taken as want of memory.
fn next_place(at: u32) -> Result<u32, NoMemory>
    ensures { IfOk result (λ next. next ≡ suc at) }
{
    match at.checked_add(1) {
        Some(next) => Ok(next),
        None => Err(NoMemory),
    }
}

/// The field of a path.
pub fn find(reader: Reader<'_>, path: &str) -> Result<Option<Placed>, NoMemory>
    ensures { IfOk result (λ found. found ≡ spec.field_named path.now reader.entry.fields.now) }
{
    let mut at = 0;
    for field in reader.fields {
        if field.path.as_str() == path {
            return Ok(Some(Placed {
                field: at,
                kind: field.kind,
            }));
        }
        at = next_place(at)?;
    }
    Ok(None)
}

fn is_at_or_below(path: &[u8], other: &[u8]) -> bool
    ensures { result ≡ spec.is_at_or_below path.now other.now }
{
    if other.len() < path.len() {
        return false;
    }
    let (front, rest) = other.split_at(path.len());
    front == path && is_end_or_dot(rest)
}

fn is_end_or_dot(rest: &[u8]) -> bool
    ensures { result ≡ spec.is_end_or_dot rest.now }
{
    match rest {
        [] => true,
        [first, ..] => *first == b'.',
    }
}

/// The places of the fields at a path and below it.
pub fn places_below(reader: Reader<'_>, path: &str) -> Result<Items<u32>, NoMemory>
    ensures { IfOk result (λ places. places ≡ spec.places_from 0 path.now reader.entry.fields.now) }
{
    let mut places = Items::new(reader.alloc);
    let mut at = 0;
    for field in reader.fields {
        if is_at_or_below(path.as_bytes(), field.path.as_bytes()) {
            places.push(at)?;
        }
        at = next_place(at)?;
    }
    Ok(places)
}
