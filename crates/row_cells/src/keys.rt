//! Keys of series.
ghost use Rattle.std.specs.Prelude.{◌≡◌, IfOk, IfSome, IsNone};

use crate::spelling::is_key;
use edge_face::{Bytes, NoMemory};
use std::alloc::Global;
use std::marker::Model;

/// The key of a series: the bytes of its dimensions. Keys are ordered by bytes.
#[derive(Debug, Drop)]
pub struct Key {
    bytes: Bytes,
}

impl Model for Key {
    ghost use Rattle.std.specs.Prelude.{List, ℕ};
    ghost use Rattle.row_cells.specs.Dimensions.{IsKey};

    ghost Value = { List ℕ };

    ghost view = { λ key. key.bytes };

    ghost invariant = { λ key. IsKey key.bytes };
}

impl Key {
    ghost use Rattle.row_cells.specs.Dimensions.{IsKey};

    /// The key of these bytes, or None exactly where they are no key: at most `LONGEST_KEY` bytes that spell one or
    /// more dimensions, with paths of 1 to `LONGEST_PATH` bytes of UTF-8 that ascend strictly, and texts of UTF-8.
    pub fn read(alloc: Global, bytes: &[u8]) -> Result<Option<Key>, NoMemory>
        ensures some { IfOk result (λ found. IfSome found (λ key. (key ≡ bytes.now) × IsKey bytes.now)) }
        ensures none { IfOk result (λ found. IsNone found → IsKey bytes.now → ⊥) }
    {
        if !is_key(bytes) {
            return Ok(None);
        }
        let bytes = Bytes::new(alloc, bytes)?;
        Ok(Some(Key { bytes }))
    }

    /// The key of bytes that are known to be one.
    pub fn from_bytes(bytes: Bytes) -> Key
        requires { IsKey bytes }
        ensures { result ≡ bytes }
    {
        Key { bytes }
    }

    pub fn bytes(&self) -> &[u8]
        ensures is { result.now ≡ self.now }
        ensures key { IsKey self.now }
    {
        self.bytes.as_slice()
    }

    pub fn copy(&self, alloc: Global) -> Result<Key, NoMemory>
        ensures { IfOk result (λ key. key ≡ self.now) }
    {
        Ok(Key {
            bytes: self.bytes.copy(alloc)?,
        })
    }
}
