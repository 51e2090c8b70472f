//! From the bytes of a block to its values.

ghost use Rattle.std.specs.Prelude.{◌≡◌, ℕ, ℤ, ◌<◌, ◌≤◌, ◌++◌, List, length, take, drop, slice_index, IfOk, Ok, OnErr};
ghost use Rattle.column_pack.specs.Block.{Block, IsBlock, layout};
ghost use Rattle.column_pack.specs.Parts.{IsSound};
ghost use Rattle.column_pack.specs.Spread.{IsRead};

use crate::parts::Header;
use crate::reading::{parse, unpack_residuals};
use crate::sound::{Spread, counted_of, is_sound, spread_of};
use crate::values::write_values;
use thiserror::Error;

/// The bytes are the canonical block of no list of 1 to 128 values.
#[derive(Clone, Copy, Debug, PartialEq, Eq, Error)]
#[error("no canonical block")]
pub struct BadBlock;

/// Writes the values of a block to the front of `into`, and says how many they are. `BadBlock` leaves `into` as it was.
pub fn unpack_block(bytes: &[u8], into: &mut [i64; 128]) -> Result<usize, BadBlock>
    ensures ok { IfOk result (λ n. (n ≤ 128) × IsBlock (take n into.new) bytes.now × (drop n into.new ≡ drop n into.old)) }
    ensures bad { OnErr result ((vs : List ℤ) → IsBlock vs bytes.now → ⊥) }
    ensures values { (vs : List ℤ) → IsBlock vs bytes.now → (result ≡ Ok (length vs)) × (into.new ≡ vs ++ drop (length vs) into.old) }
    ensures kept { OnErr result (into.new ≡ into.old) }
{
    let mut residuals = [0u64; 128];
    match read_block(bytes, &mut residuals) {
        Ok(fields) => {
            write_values(&fields.header, &residuals[..fields.count], into);
            Ok(fields.count)
        }
        Err(bad) => Err(bad),
    }
}

/// The fields of a block that was looked at, and what is known of the residuals that count.
#[derive(Clone, Copy, Debug)]
pub struct Fields {
    pub header: Header,
    pub count: usize,
    pub spread: Spread,
}

/// The fields of a canonical block, whose residuals go to `residuals`.
pub fn read_block(bytes: &[u8], residuals: &mut [u64; 128]) -> Result<Fields, BadBlock>
    requires zero { (k : ℕ) → slice_index residuals.old k ≡ 0 }
    ensures ok { IfOk result (λ f. IsRead bytes.now f residuals.new) }
    ensures bad { OnErr result ((b : Block) → IsSound b → bytes.now ≡ layout b → ⊥) }
{
    let Some((header, count)) = parse(bytes) else {
        return Err(BadBlock);
    };
    unpack_residuals(&bytes[27..], header.width, count, residuals);
    let held = &residuals[..count];
    let spread = spread_of(counted_of(header.kind, held), header.width);
    if is_sound(&header, held, &spread) {
        Ok(Fields {
            header,
            count,
            spread,
        })
    } else {
        Err(BadBlock)
    }
}
