//! The fields and the residuals that the bytes of a block have.

ghost use Rattle.std.specs.Prelude.{◌≡◌, ◌↔◌, ℕ, ◌+◌, ◌*◌, ◌^◌, ◌<◌, ◌≤◌, length, take, drop, slice_index, All, IsTrue, IfSome, IfNone};
ghost use Rattle.std.specs.Int.{from_be_bytes, w64};
ghost use Rattle.column_pack.specs.Block.{Block, layout, Fits, kind_code};
ghost use Rattle.column_pack.specs.declared.parts.Kind.{Kind};
ghost use Rattle.column_pack.specs.Digits.{number, digits, bytes_for};
ghost use Rattle.column_pack.specs.Parts.{IsReading};

use crate::bits::{read_residuals, read_words};
use crate::parts::{Header, Kind};

/// Reads residuals, which are all 0 where they have no bits.
pub fn unpack_residuals(stream: &[u8], width: u32, count: usize, residuals: &mut [u64; 128])
    requires few { length stream.now ≤ 1024 }
    requires width { width ≤ 64 }
    requires count { count ≤ 128 }
    requires zero { (k : ℕ) → slice_index residuals.old k ≡ 0 }
    ensures { take count residuals.new ≡ digits (2 ^ width) count (number 256 stream.now) }
{
    if width != 0 {
        let mut words = [0u64; 130];
        read_words(stream, &mut words);
        read_residuals(&words, count, width, residuals);
    }
}

fn kind_of_code(code: u8) -> Option<Kind>
    ensures some { IfSome result (λ kind. code ≡ kind_code kind) }
    ensures none { IfNone result ((kind : Kind) → code ≡ kind_code kind → ⊥) }
{
    match code {
        0 => Some(Kind::Plain),
        1 => Some(Kind::Rising),
        2 => Some(Kind::Falling),
        _ => None,
    }
}

/// The fields of a block and the number of its values, where its bytes are as many as they say and no spare bit is set.
pub fn parse(bytes: &[u8]) -> Option<(Header, usize)>
    ensures some { IfSome result (λ x. IsReading bytes.now x.0 x.1) }
    ensures none { IfNone result ((b : Block) → Fits b → All (λ r. r < 2 ^ b.width) b.residuals → bytes.now ≡ layout b → ⊥) }
{
    if bytes.len() < 27 {
        return None;
    }
    let Some(kind) = kind_of_code(bytes[1]) else {
        return None;
    };
    let count = bytes[0] as usize;
    let width = bytes[26] as u32;
    if count == 0 {
        return None;
    }
    if 128 < count {
        return None;
    }
    if 64 < width {
        return None;
    }
    let bits = count * width as usize;
    if bytes.len() != 27 + bits.div_ceil(8) {
        return None;
    }
    if has_spare(&bytes[27..], bits) {
        return None;
    }
    let header = Header {
        kind,
        first: word_at(bytes, 2),
        offset: word_at(bytes, 10),
        factor: word_at(bytes, 18),
        width,
    };
    Some((header, count))
}

pub fn word_at(bytes: &[u8], at: usize) -> u64
    requires { at + 8 ≤ length bytes.now }
    ensures { result ≡ from_be_bytes w64 (take 8 (drop at bytes.now)) }
{
    if let Some((word, _)) = bytes[at..].split_first_chunk::<8>() {
        u64::from_be_bytes(*word)
    } else {
        unreachable!()
    }
}

/// Whether bytes have a bit set behind so many bits.
pub fn has_spare(bytes: &[u8], bits: usize) -> bool
    requires { length bytes.now ≡ bytes_for bits }
    ensures { IsTrue result ↔ (2 ^ bits ≤ number 256 bytes.now) }
{
    let used = bits % 8;
    if used == 0 {
        return false;
    }
    bytes[bytes.len() - 1] >> used != 0
}
