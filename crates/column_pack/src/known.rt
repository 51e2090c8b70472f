//! Blocks that are known to be blocks: their values, the first of them, and what is known of all.

ghost use Rattle.std.specs.Prelude.{◌≡◌, ℕ, ℤ, pos, ◌+◌, ◌*◌, ◌%◌, ◌^◌, ◌<◌, ◌≤◌, ◌++◌, List, length, take, drop, slice_index, slice_index_or};
ghost use Rattle.column_pack.specs.Block.{Block, kind_code};
ghost use Rattle.column_pack.specs.Digits.{number};
ghost use Rattle.column_pack.specs.Parts.{block_with};
ghost use Rattle.column_pack.specs.Spread.{IsMeasure};
ghost use Rattle.column_pack.specs.Summary.{IsSummary};
ghost use Rattle.std.specs.Prelude.{All};
ghost use Rattle.column_pack.specs.Known.{BeginsWith, Leads};
ghost use Rattle.column_pack.specs.declared.parts.Kind.{Kind};

use crate::bits::last_word;
use crate::parts::{Header, Kind};
use crate::places::{turn, value_at};
use crate::reading::{unpack_residuals, word_at};
use crate::scan::{greatest, total};
use crate::sound::counted_of;
use crate::summary::{Measure, Summary, summary_of};
use crate::values::write_values;

/// Writes the values of the block that bytes begin with to the front of `into`, and says how many they are.
pub fn unpack_known(bytes: &[u8], into: &mut [i64; 128]) -> usize
    requires { (vs : List ℤ) × BeginsWith vs bytes.now }
    ensures { (vs : List ℤ) → BeginsWith vs bytes.now → (result ≡ length vs) × (into.new ≡ vs ++ drop (length vs) into.old) }
{
    let header = header_known(bytes);
    let mut residuals = [0u64; 128];
    let count = residuals_known(bytes, &mut residuals);
    write_values(&header, &residuals[..count], into);
    count
}

fn kind_known(code: u8) -> Kind
    ensures { (kind : Kind) → code ≡ kind_code kind → result ≡ kind }
{
    match code {
        0 => Kind::Plain,
        1 => Kind::Rising,
        _ => Kind::Falling,
    }
}

/// The fields of the block that bytes begin with.
fn header_known(bytes: &[u8]) -> Header
    requires { (b : Block) × Leads b bytes.now }
    ensures { (b : Block) → Leads b bytes.now → block_with result b.residuals ≡ b }
{
    Header {
        kind: kind_known(bytes[1]),
        first: word_at(bytes, 2),
        offset: word_at(bytes, 10),
        factor: word_at(bytes, 18),
        width: bytes[26] as u32,
    }
}

/// The residuals of the block that bytes begin with, and how many they are.
fn residuals_known(bytes: &[u8], residuals: &mut [u64; 128]) -> usize
    requires block { (b : Block) × Leads b bytes.now }
    requires zero { (k : ℕ) → slice_index residuals.old k ≡ 0 }
    ensures count { (b : Block) → Leads b bytes.now → result ≡ length b.residuals }
    ensures residuals { (b : Block) → Leads b bytes.now → take result residuals.new ≡ b.residuals }
{
    let count = bytes[0] as usize;
    let width = bytes[26] as u32;
    let len = (count * width as usize).div_ceil(8);
    unpack_residuals(&bytes[27..27 + len], width, count, residuals);
    count
}

/// The first value of the block that bytes begin with, from its fields and at most eight bytes behind them.
pub fn first_known(bytes: &[u8]) -> i64
    requires { (vs : List ℤ) × BeginsWith vs bytes.now }
    ensures { (vs : List ℤ) → BeginsWith vs bytes.now → result ≡ slice_index_or vs 0 (pos 0) }
{
    let header = header_known(bytes);
    match header.kind {
        Kind::Plain => {
            let above = header.factor * first_residual(bytes);
            value_at(Kind::Plain, turn(header.offset) + above)
        }
        Kind::Rising => header.first.cast_signed(),
        Kind::Falling => header.first.cast_signed(),
    }
}

/// The number that the first eight bytes are, or all where they are fewer.
fn word_ahead(bytes: &[u8]) -> u64
    ensures { number 256 bytes.now ≡ result + 2 ^ 64 * number 256 (drop 8 bytes.now) }
{
    if let Some((word, _)) = bytes.split_first_chunk::<8>() {
        u64::from_le_bytes(*word)
    } else {
        last_word(bytes)
    }
}

fn first_residual(bytes: &[u8]) -> u64
    requires { (b : Block) × Leads b bytes.now }
    ensures { (b : Block) → Leads b bytes.now → result ≡ slice_index b.residuals 0 }
{
    let word = word_ahead(&bytes[27..]);
    (word as u128 % (1u128 << bytes[26])) as u64
}

/// The number, the least, the greatest and the sum of the values of the block that bytes begin with.
pub fn summary_known(bytes: &[u8]) -> Summary
    requires { (vs : List ℤ) × BeginsWith vs bytes.now }
    ensures { (vs : List ℤ) → BeginsWith vs bytes.now → IsSummary vs result }
{
    let header = header_known(bytes);
    let mut residuals = [0u64; 128];
    let count = residuals_known(bytes, &mut residuals);
    let held = &residuals[..count];
    let measure = measure_of(counted_of(header.kind, held), header.width);
    summary_of(&header, held, &measure)
}

fn measure_of(residuals: &[u64], width: u32) -> Measure
    requires few { length residuals.now ≤ 128 }
    requires below { All (λ r. r < 2 ^ width) residuals.now }
    ensures { IsMeasure residuals.now result }
{
    if width == 0 {
        return Measure {
            greatest: 0,
            total: 0,
        };
    }
    Measure {
        greatest: greatest(residuals),
        total: total(residuals),
    }
}
