//! How bytes spell the dimensions of a series.
ghost use Rattle.std.specs.Prelude.{◌≡◌, ℕ, List, [], ◌++◌, ◌↔◌};
ghost use Rattle.std.specs.Prelude.{IsTrue, IfSome, IsNone};
ghost use Rattle.row_cells.specs.Dimensions.{AreDimensions, Dimension, IsDimension, IsKey, SpellDimensionsAfter};
ghost use Rattle.row_cells.specs.Dimensions.{key_bytes, dimension_bytes};

use crate::entries::{Entry, read_entry};
use crate::limits::{LONGEST_KEY, LONGEST_PATH};
use edge_face::bytes_order;
use std::cmp::Ordering;

/// The entry that bytes begin with, where its path is one of a dimension.
fn read_dimension(bytes: &[u8]) -> Option<Entry<'_>>
    ensures some { IfSome result (λ entry.
        (dimension : Dimension) × IsDimension dimension × (dimension.path ≡ entry.path.now)
        × (bytes.now ≡ dimension_bytes dimension ++ entry.rest.now)) }
    ensures none { IsNone result →
        (dimension : Dimension) (rest : List ℕ) → IsDimension dimension →
        bytes.now ≡ dimension_bytes dimension ++ rest → ⊥ }
{
    let entry = read_entry(bytes)?;
    if entry.path.is_empty() || entry.path.len() > LONGEST_PATH {
        return None;
    }
    match str::from_utf8(entry.path) {
        Ok(_) => Some(entry),
        Err(_) => None,
    }
}

fn are_dimensions(bytes: &[u8]) -> bool
    ensures { IsTrue result ↔ SpellDimensionsAfter [] bytes.now }
{
    let mut below: &[u8] = &[];
    let mut rest = bytes;
    while !rest.is_empty() {
        let Some(entry) = read_dimension(rest) else {
            return false;
        };
        match bytes_order(below, entry.path) {
            Ordering::Less => {
                below = entry.path;
                rest = entry.rest;
            }
            _ => return false,
        }
    }
    true
}

/// The bytes are a key of a series.
pub fn is_key(bytes: &[u8]) -> bool
    ensures { IsTrue result ↔ IsKey bytes.now }
{
    !bytes.is_empty() && bytes.len() <= LONGEST_KEY && are_dimensions(bytes)
}

/// The law that a key tells its dimensions: two lists of dimensions with equal keys are equal.
pub fn keys_tell_dimensions()
    ensures { (a b : List Dimension) → AreDimensions a → AreDimensions b → key_bytes a ≡ key_bytes b → a ≡ b }
{}
