//! Laws of blocks, and the length of a block that other bytes follow.

ghost use Rattle.std.specs.Prelude.{◌≡◌, ◌≢◌, ◌↔◌, ℕ, ℤ, pos, ◌+ℤ◌, ◌-ℤ◌, ◌+◌, ◌*◌, ◌/◌, ◌%◌, ◌^◌, ◌<◌, ◌≤◌, ◌++◌, List, All, length, slice_index, slice_index_or, IsNone, Some};
ghost use Rattle.std.specs.Int.{bit_at, cast_signed, w64};
ghost use Rattle.column_pack.specs.Block.{Block, IsBlock, IsBlockOf};
ghost use Rattle.column_pack.specs.Digits.{bytes_for, stream};

use crate::parts::Kind;

/// A list has one block.
pub fn one_block()
    ensures { (vs : List ℤ) (a b : List ℕ) → IsBlock vs a → IsBlock vs b → a ≡ b }
{}

/// No bytes are the block of two lists.
pub fn one_list()
    ensures { (vs ws : List ℤ) (bytes : List ℕ) → IsBlock vs bytes → IsBlock ws bytes → vs ≡ ws }
{}

/// A block begins with the number of its values, and has 27 bytes and those that its residuals fill.
pub fn block_size()
    ensures count { (vs : List ℤ) (bytes : List ℕ) → IsBlock vs bytes → slice_index bytes 0 ≡ length vs }
    ensures size { (vs : List ℤ) (bytes : List ℕ) → IsBlock vs bytes → length bytes ≡ 27 + bytes_for (length vs * slice_index bytes 26) }
{}

/// The values of a block are its whole-number sums, whatever bits they have: in a plain block the offset plus the factor
/// times the residual; in the others the first value, and from each value to the next the offset plus the factor times the
/// residual, added where values rise and taken away where they fall.
pub fn whole_sums()
    ensures plain { (vs : List ℤ) (b : Block) → IsBlockOf vs b → b.kind ≡ Kind.Plain → (i : ℕ) → i < length vs → slice_index_or vs i (pos 0) ≡ cast_signed w64 b.offset +ℤ pos (b.factor * slice_index b.residuals i) }
    ensures first { (vs : List ℤ) (b : Block) → IsBlockOf vs b → b.kind ≢ Kind.Plain → slice_index_or vs 0 (pos 0) ≡ cast_signed w64 b.first }
    ensures rising { (vs : List ℤ) (b : Block) → IsBlockOf vs b → b.kind ≡ Kind.Rising → (i : ℕ) → i + 1 < length vs → slice_index_or vs (i + 1) (pos 0) ≡ slice_index_or vs i (pos 0) +ℤ pos (b.offset + b.factor * slice_index b.residuals (i + 1)) }
    ensures falling { (vs : List ℤ) (b : Block) → IsBlockOf vs b → b.kind ≡ Kind.Falling → (i : ℕ) → i + 1 < length vs → slice_index_or vs (i + 1) (pos 0) ≡ slice_index_or vs i (pos 0) -ℤ pos (b.offset + b.factor * slice_index b.residuals (i + 1)) }
{}

/// Bit k of a stream, low bits of each byte first, is bit k mod width of residual k div width, and 0 behind the residuals.
pub fn stream_bits()
    ensures residuals { (width : ℕ) (rs : List ℕ) (k : ℕ) → All (λ r. r < 2 ^ width) rs → k < length rs * width → bit_at (slice_index (stream width rs) (k / 8)) (k % 8) ≡ bit_at (slice_index rs (k / width)) (k % width) }
    ensures spare { (width : ℕ) (rs : List ℕ) (k : ℕ) → All (λ r. r < 2 ^ width) rs → length rs * width ≤ k → k < 8 * bytes_for (length rs * width) → bit_at (slice_index (stream width rs) (k / 8)) (k % 8) ≡ 0 }
{}

/// The length of the block that bytes begin with, by its number of values and its width alone. `None` where there are
/// fewer than 27 bytes. Whether a block stands there is for `unpack_block` to say.
pub fn block_len(bytes: &[u8]) -> Option<usize>
    ensures none { IsNone result ↔ (length bytes.now < 27) }
    ensures some { (vs : List ℤ) (block rest : List ℕ) → IsBlock vs block → bytes.now ≡ block ++ rest → result ≡ Some (length block) }
{
    if bytes.len() < 27 {
        return None;
    }
    Some(27 + (bytes[0] as usize * bytes[26] as usize).div_ceil(8))
}
