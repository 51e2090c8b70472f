//! Blocks whose bytes are changed, and blocks of lists that look like chance.
use crate::blocks::{block_of, gives};
use column_pack::{block_min_max_sum, unpack_block};
use probe_case::{Checks, Reading, Sweep, Trial, next_chance, part, turn};
use serde_json::Value;
use std::alloc::Global;

/// Whether bytes are the one block of these values.
fn is_block_of(alloc: Global, bytes: &[u8], values: &[i64]) -> Option<bool> {
    let block = block_of(alloc, values)?;
    Some(block.as_slice() == bytes && gives(bytes, values))
}

/// Bytes are no block where both calls say so, and else the one block of its values.
fn reading(alloc: Global, bytes: &[u8]) -> Reading {
    let mut values = [0i64; 128];
    match unpack_block(bytes, &mut values) {
        Ok(n) => Reading::of_taken(is_block_of(alloc, bytes, &values[..n])),
        Err(_) if block_min_max_sum(bytes).is_err() => Reading::Refused,
        Err(_) => Reading::Wrong,
    }
}

/// Reads a block with each other value of a byte.
fn sweep_byte(alloc: Global, block: &mut [u8], place: usize, sweep: &mut Sweep) {
    for _ in 0..255 {
        turn(block, place);
        sweep.note_change(reading(alloc, block));
    }
    turn(block, place);
}

fn swept(alloc: Global, block: &mut [u8]) -> Sweep {
    let mut sweep = Sweep::new();
    for place in 0..block.len() {
        sweep.note_front(reading(alloc, part(block, 0, place)));
        sweep_byte(alloc, block, place, &mut sweep);
    }
    sweep
}

/// The block of values is read, then with each byte changed to each other one, and each shorter front of it.
pub fn damage(case: &Value, trial: &mut Trial) -> Option<()> {
    let values = trial.numbers(case, "values");
    let mut block = block_of(trial.alloc, values.as_slice())?;
    let itself = reading(trial.alloc, block.as_slice());
    swept(trial.alloc, block.as_mut_slice()).put(itself, trial);
    Some(())
}

/// The low bits of a number.
fn low_bits(chance: u64, width: u32) -> u64 {
    if width == 0 || width > 64 {
        0
    } else {
        chance >> (64 - width)
    }
}

/// A value of one of four shapes: free, a multiple, of a list that rises, of one that falls.
fn shaped(shape: u32, bits: u64, at: i64) -> i64 {
    match shape {
        0 => bits.cast_signed(),
        1 => (bits / 3).wrapping_mul(3).cast_signed(),
        2 => at,
        _ => at.wrapping_neg().wrapping_sub(1),
    }
}

/// A list of so many values of so many bits, of a shape.
fn random_list(alloc: Global, seed: u64, width: u32, size: u64, shape: u32) -> Option<Vec<i64>> {
    let mut values = Vec::new(alloc);
    let mut at = i64::MIN;
    let mut chance = seed;
    for _ in 0..size {
        chance = next_chance(chance);
        let bits = low_bits(chance, width);
        at = at.wrapping_add((bits >> 7).cast_signed().wrapping_mul(3));
        values.push(shaped(shape, bits, at)).ok()?;
    }
    Some(values)
}

/// Whether the block of such a list gives it back.
fn is_kept(alloc: Global, number: u64, width: u32, size: u64, shape: u32) -> Option<bool> {
    let seed = number.wrapping_mul(88_172_645_463_325_253);
    let values = random_list(alloc, seed, width, size, shape)?;
    let block = block_of(alloc, values.as_slice())?;
    Some(gives(block.as_slice(), values.as_slice()))
}

/// Packs the four lists of a size.
fn pack_size(alloc: Global, number: u64, width: u32, size: u64, checks: &mut Checks) {
    for shape in 0..4u32 {
        let number = number.wrapping_add(u64::from(shape)).wrapping_add(1);
        checks.note(is_kept(alloc, number, width, size, shape) == Some(true));
    }
}

/// Packs the lists of a number of bits.
fn pack_width(alloc: Global, width: u32, sizes: &[u64], checks: &mut Checks) {
    let mut number = u64::from(width).wrapping_mul(1_000);
    for size in sizes {
        pack_size(alloc, number, width, *size, checks);
        number = number.wrapping_add(4);
    }
}

/// Lists of each number of bits, of several sizes and shapes: how many there are, and how many aren't given back.
pub fn random_blocks(case: &Value, trial: &mut Trial) {
    let sizes = trial.counts(case, "sizes");
    let mut checks = Checks::new();
    for width in 0..=64u32 {
        pack_width(trial.alloc, width, sizes.as_slice(), &mut checks);
    }
    checks.put("lists", trial);
}
