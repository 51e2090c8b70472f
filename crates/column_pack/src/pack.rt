//! From values to the bytes of their block.

ghost use Rattle.std.specs.Prelude.{◌≡◌, ◌≢◌, ℕ, ◌+◌, ◌-◌, ◌*◌, ◌/◌, ◌^◌, ◌<◌, ◌≤◌, ◌++◌, List, [], false, length, map, take, drop, slice_index, All, Contains, OnOk, OnErr};
ghost use Rattle.column_pack.specs.Block.{IsBlock, IsBlockOf, IsCanonical, layout, Fits, walk, rises, falls, start_of, places_of, front};
ghost use Rattle.column_pack.specs.Digits.{number, digits, greatest_of};
ghost use Rattle.column_pack.specs.Factor.{IsGreatestFactor};
ghost use Rattle.column_pack.specs.Parts.{block_with, IsReduced};

use crate::bits::write_words;
use crate::parts::{Header, Kind};
use crate::places::{flip, heights_of, turn};
use crate::scan::{common_divisor, greatest, least, turns, width_of};
use edge_face::NoMemory;

/// Appends the canonical block of 1 to 128 values.
pub fn pack_block(values: &[i64], into: &mut Vec<u8>) -> Result<(), NoMemory>
    requires some { 0 < length values.now }
    requires few { length values.now ≤ 128 }
    ensures ok { OnOk result ((block : _) × IsBlock values.now block × (into.new.items ≡ into.old.items ++ block)) }
    ensures only { OnOk result ((block : List ℕ) → IsBlock values.now block → into.new.items ≡ into.old.items ++ block) }
    ensures err { OnErr result (into.new.items ≡ into.old.items) }
{
    let mut buffer = [0u64; 128];
    let residuals = &mut buffer[..values.len()];
    let header = describe(values, residuals);
    append(&header, residuals, into)
}

/// What is left of some numbers above the least one, in units of the greatest factor.
#[derive(Clone, Copy, Debug)]
struct Reduced {
    least: u64,
    factor: u64,
}

fn reduce(numbers: &[u64], into: &mut [u64]) -> Reduced
    requires some { 0 < length numbers.now }
    requires same { length into.old ≡ length numbers.now }
    ensures { IsReduced numbers.now result.least result.factor into.new }
{
    let least = least(numbers);
    subtract(numbers, least, into);
    // Equal numbers are the usual case, and need no divisor.
    if greatest(into) == 0 {
        return Reduced { least, factor: 1 };
    }
    let divisor = common_divisor(into);
    if 1 < divisor {
        divide(into, divisor);
        Reduced {
            least,
            factor: divisor,
        }
    } else {
        Reduced { least, factor: 1 }
    }
}

fn subtract(numbers: &[u64], low: u64, into: &mut [u64])
    requires same { length into.old ≡ length numbers.now }
    requires low { All (λ x. low ≤ x) numbers.now }
    ensures { into.new ≡ map (λ x. x - low) numbers.now }
{
    for i in 0..numbers.len() {
        into[i] = numbers[i] - low;
    }
}

fn divide(numbers: &mut [u64], by: u64)
    requires { 0 < by }
    ensures { numbers.new ≡ map (λ x. x / by) numbers.old }
{
    for i in 0..numbers.len() {
        numbers[i] /= by;
    }
}

/// The steps from each place to the next.
fn steps_between(places: &[u64], steps: &mut [u64])
    requires some { 0 < length places.now }
    requires same { length steps.old + 1 ≡ length places.now }
    requires rising { falls places.now ≡ false }
    ensures { walk (slice_index places.now 0) steps.new ≡ places.now }
{
    for i in 0..steps.len() {
        steps[i] = places[i + 1] - places[i];
    }
}

/// The fields and the residuals of the block of some values.
fn describe(values: &[i64], residuals: &mut [u64]) -> Header
    requires some { 0 < length values.now }
    requires few { length values.now ≤ 128 }
    requires same { length residuals.old ≡ length values.now }
    requires zero { (k : ℕ) → slice_index residuals.old k ≡ 0 }
    ensures { IsBlockOf values.now (block_with result residuals.new) }
{
    let count = values.len();
    let mut places = [0u64; 128];
    heights_of(values, &mut places);
    let (rises, falls) = turns(&places[..count]);
    if rises == falls {
        return describe_plain(&places[..count], rises, residuals);
    }
    let first = values[0].cast_unsigned();
    if rises {
        describe_steps(Kind::Rising, first, &places[..count], residuals)
    } else {
        flip(&mut places);
        describe_steps(Kind::Falling, first, &places[..count], residuals)
    }
}

/// Heights by how far they are above the least one. `turns` says whether they aren't all equal.
fn describe_plain(heights: &[u64], turns: bool, residuals: &mut [u64]) -> Header
    requires some { 0 < length heights.now }
    requires few { length heights.now ≤ 128 }
    requires same { length residuals.old ≡ length heights.now }
    requires zero { (k : ℕ) → slice_index residuals.old k ≡ 0 }
    requires rises { turns ≡ rises heights.now }
    requires falls { turns ≡ falls heights.now }
    ensures kind { result.kind ≡ Kind.Plain }
    ensures canonical { IsCanonical (block_with result residuals.new) }
    ensures places { places_of (block_with result residuals.new) ≡ heights.now }
{
    if !turns {
        return Header {
            kind: Kind::Plain,
            first: 0,
            offset: turn(heights[0]),
            factor: 1,
            width: 0,
        };
    }
    let reduced = reduce(heights, residuals);
    let width = width_of(greatest(residuals));
    Header {
        kind: Kind::Plain,
        first: 0,
        offset: turn(reduced.least),
        factor: reduced.factor,
        width,
    }
}

/// Places that don't fall by how far the steps between them are above the least one.
fn describe_steps(kind: Kind, first: u64, places: &[u64], residuals: &mut [u64]) -> Header
    requires kind { kind ≢ Kind.Plain }
    requires some { 1 < length places.now }
    requires few { length places.now ≤ 128 }
    requires same { length residuals.old ≡ length places.now }
    requires zero { slice_index residuals.old 0 ≡ 0 }
    requires first { start_of kind first ≡ slice_index places.now 0 }
    requires rising { falls places.now ≡ false }
    ensures kind { result.kind ≡ kind }
    ensures canonical { IsCanonical (block_with result residuals.new) }
    ensures places { places_of (block_with result residuals.new) ≡ places.now }
{
    let mut buffer = [0u64; 128];
    let steps = &mut buffer[..places.len() - 1];
    steps_between(places, steps);
    let reduced = reduce(steps, &mut residuals[1..]);
    let width = width_of(greatest(residuals));
    Header {
        kind,
        first,
        offset: reduced.least,
        factor: reduced.factor,
        width,
    }
}

/// Writes eight bytes at a place.
fn put_word(bytes: &mut [u8; 1067], at: usize, word: [u8; 8])
    requires { at ≤ 1059 }
    ensures { take (at + 8) bytes.new ≡ take at bytes.old ++ word }
{
    bytes[at..at + 8].copy_from_slice(&word);
}

/// Writes the fields and the number of values in front of the residuals.
fn put_front(header: &Header, count: u8, bytes: &mut [u8; 1067])
    requires { header.now.width ≤ 64 }
    ensures { take 27 bytes.new ≡ front (block_with header.now []) count }
{
    bytes[0] = count;
    bytes[1] = match header.kind {
        Kind::Plain => 0,
        Kind::Rising => 1,
        Kind::Falling => 2,
    };
    put_word(bytes, 2, header.first.to_be_bytes());
    put_word(bytes, 10, header.offset.to_be_bytes());
    put_word(bytes, 18, header.factor.to_be_bytes());
    bytes[26] = header.width as u8;
}

/// Writes words behind the fields.
fn put_words(words: &[u64], bytes: &mut [u8; 1067])
    requires { length words.now ≤ 129 }
    ensures { take (27 + 8 * length words.now) bytes.new ≡ take 27 bytes.old ++ digits 256 (8 * length words.now) (number (2 ^ 64) words.now) }
{
    for i in 0..words.len() {
        put_word(bytes, 27 + 8 * i, words[i].to_le_bytes());
    }
}

fn append(header: &Header, residuals: &[u64], into: &mut Vec<u8>) -> Result<(), NoMemory>
    requires fits { Fits (block_with header.now residuals.now) }
    requires below { All (λ r. r < 2 ^ header.now.width) residuals.now }
    ensures ok { OnOk result (into.new.items ≡ into.old.items ++ layout (block_with header.now residuals.now)) }
    ensures err { OnErr result (into.new.items ≡ into.old.items) }
{
    let mut bytes = [0u8; 1067];
    put_front(header, residuals.len() as u8, &mut bytes);
    if header.width == 0 {
        into.extend_from_slice(&bytes[..27])?;
        return Ok(());
    }
    let mut words = [0u64; 130];
    let count = write_words(residuals, header.width, &mut words);
    put_words(&words[..count], &mut bytes);
    let len = 27 + (residuals.len() * header.width as usize).div_ceil(8);
    into.extend_from_slice(&bytes[..len])?;
    Ok(())
}
