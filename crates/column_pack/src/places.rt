//! Signed numbers by how far they are above the least one, and back.

ghost use Rattle.std.specs.Prelude.{◌≡◌, ℕ, ◌≤◌, length, map, take, All, FitsSigned};
ghost use Rattle.std.specs.Int.{w64};
ghost use Rattle.column_pack.specs.Block.{height, below_top, turned, place};

use crate::parts::Kind;

const HALF: u64 = 1 << 63;

/// The height of the number that 64 bits are in two's complement, and back.
pub fn turn(bits: u64) -> u64
    ensures { result ≡ turned bits }
{
    bits.wrapping_add(HALF)
}

pub fn height_of(value: i64) -> u64
    ensures height { result ≡ height value }
    ensures signed { FitsSigned w64 value }
{
    turn(value.cast_unsigned())
}

/// The value that stands at a place of a block of a kind.
pub fn value_at(kind: Kind, at: u64) -> i64
    ensures { place kind result ≡ at }
{
    let height = match kind {
        Kind::Plain | Kind::Rising => at,
        Kind::Falling => u64::MAX - at,
    };
    turn(height).cast_signed()
}

pub fn heights_of(values: &[i64], heights: &mut [u64; 128])
    requires { length values.now ≤ 128 }
    ensures heights { take (length values.now) heights.new ≡ map height values.now }
    ensures signed { All (FitsSigned w64) values.now }
{
    for i in 0..values.len() {
        heights[i] = height_of(values[i]);
    }
}

/// The heights of values that fall become how far they are below the greatest number.
pub fn flip(places: &mut [u64; 128])
    ensures { places.new ≡ map below_top places.old }
{
    for i in 0..128 {
        places[i] = u64::MAX - places[i];
    }
}
