//! Keys of series.
ghost use Rattle.std.specs.Prelude.{◌≡◌, List, IfOk, IfErr};
ghost use Rattle.std.specs.List.{slice_get};
ghost use Rattle.row_cells.specs.Dimensions.{IsKey};
ghost use Rattle.row_cells.specs.Fitting.{dimensions_of};
ghost use Rattle.row_cells.specs.declared.rows.Cell.{Cell};
ghost use Rattle.row_cells.specs.declared.schemas.Schema.{Schema};
ghost use Rattle.row_cells.specs.Mapped.{AreCellsOf, HaveKey, IsMapped, any_present, is_present, series_bytes};
ghost use Rattle.series_id.specs.Keys.{IsKeyCause, IsKeyFault, keyed};

use crate::spelling::spell;
use edge_face::Bytes;
use row_cells::{Cell, Key, LONGEST_KEY, Schema};
use std::alloc::Global;
use thiserror::Error;

/// Why cells have no key.
#[derive(Debug, Drop, Error)]
pub enum KeyError {
    #[error("none of the routing fields is present")]
    NoRouting,
    /// The key would have so many bytes, which are over 4,096.
    #[error("the key has {bytes} bytes")]
    KeyTooLong { bytes: u64 },
    #[error("out of memory")]
    NoMemory,
}

fn is_present_at(cells: &[Cell], place: usize) -> bool
    ensures { result ≡ is_present (slice_get cells.now place) }
{
    match cells.get(place) {
        None => false,
        Some(Cell::Absent) => false,
        Some(_) => true,
    }
}

fn is_any_present(cells: &[Cell], places: &[u32]) -> bool
    ensures { result ≡ any_present places.now cells.now }
{
    for place in places {
        if is_present_at(cells, *place as usize) {
            return true;
        }
    }
    false
}

/// The key, or its fault.
fn key_of(alloc: Global, schema: &Schema, cells: &[Cell]) -> Result<Key, KeyError>
    requires schema { IsMapped schema.now }
    requires cells { AreCellsOf schema.now cells.now }
    ensures key { IfOk result (λ key. (key ≡ series_bytes schema.now cells.now) × IsKey key) }
    ensures have { IfOk result (λ key. HaveKey schema.now cells.now) }
    ensures fault { IfErr result (IsKeyFault schema.now cells.now) }
{
    if !is_any_present(cells, schema.routing.as_slice()) {
        return Err(KeyError::NoRouting);
    }
    let Ok(bytes) = spell(alloc, schema.fields.as_slice(), cells) else {
        return Err(KeyError::NoMemory);
    };
    if bytes.len() > LONGEST_KEY {
        return Err(KeyError::KeyTooLong {
            bytes: bytes.len() as u64,
        });
    }
    Ok(Key::from_bytes(Bytes::from_vec(bytes)))
}

/// The key of the series of cells that fit a schema. It is refused as `NoRouting` where no routing field is
/// present, and else as `KeyTooLong` where it would have over 4,096 bytes.
pub fn series_key(alloc: Global, schema: &Schema, cells: &[Cell]) -> Result<Key, KeyError>
    requires schema { IsMapped schema.now }
    requires cells { AreCellsOf schema.now cells.now }
    ensures keyed { IfOk result (λ key. keyed schema.now cells.now ≡ Ok key) }
    ensures refused { IfErr result (IsKeyCause (keyed schema.now cells.now)) }
    ensures key { IfOk result (λ key. (key ≡ series_bytes schema.now cells.now) × IsKey key) }
    ensures have { IfOk result (λ key. HaveKey schema.now cells.now) }
    ensures fault { IfErr result (IsKeyFault schema.now cells.now) }
{
    match key_of(alloc, schema, cells) {
        Ok(key) => Ok(key),
        Err(error) => Err(error),
    }
}

/// The law that a key tells its dimensions: cells of one schema with equal keys have equal dimensions.
pub fn keys_tell_cells()
    ensures { (schema : Schema) (a b : List Cell) → IsMapped schema → AreCellsOf schema a → AreCellsOf schema b →
        series_bytes schema a ≡ series_bytes schema b →
        dimensions_of schema.fields a ≡ dimensions_of schema.fields b }
{}
