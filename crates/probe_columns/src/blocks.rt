//! Packed blocks of whole numbers.
ghost use Rattle.std.specs.Prelude.{ℤ, List};
ghost use Rattle.column_pack.specs.Known.{BeginsWith};

use column_pack::{
    Summary, block_len, block_min_max_sum, first_known, pack_block, summary_known, unpack_block,
    unpack_known,
};
use probe_case::Trial;
use serde_json::Value;
use std::alloc::Global;

/// The block of some values.
pub fn block_of(alloc: Global, values: &[i64]) -> Option<Vec<u8>> {
    let mut block = Vec::new(alloc);
    if values.is_empty() || values.len() > 128 {
        return None;
    }
    pack_block(values, &mut block).ok()?;
    Some(block)
}

fn sum_of(values: &[i64]) -> i128 {
    let mut sum: i128 = 0;
    for value in values {
        sum = sum.wrapping_add(i128::from(*value));
    }
    sum
}

/// Whether a summary has the number, least, greatest and sum of values.
fn sums_up(summary: &Summary, values: &[i64]) -> bool {
    summary.n as usize == values.len()
        && summary.sum == sum_of(values)
        && values.iter().min() == Some(&summary.min)
        && values.iter().max() == Some(&summary.max)
}

fn is_summed(block: &[u8], values: &[i64]) -> bool {
    match block_min_max_sum(block) {
        Ok(summary) => sums_up(&summary, values),
        Err(_) => false,
    }
}

/// Whether the calls on bytes that are known to begin with a block tell these values.
fn is_known(block: &[u8], values: &[i64]) -> bool
    requires { (vs : List ℤ) × BeginsWith vs block.now }
{
    let mut back = [0i64; 128];
    unpack_known(block, &mut back) == values.len()
        && back.starts_with(values)
        && values.first() == Some(&first_known(block))
        && sums_up(&summary_known(block), values)
}

fn is_unpacked(block: &[u8], values: &[i64]) -> bool {
    let mut back = [0i64; 128];
    match unpack_block(block, &mut back) {
        Ok(n) => n == values.len() && back.starts_with(values) && is_known(block, values),
        Err(_) => false,
    }
}

/// Whether a block gives these values, its own length, and their number, least, greatest and sum, also where it is known to be one.
pub fn gives(block: &[u8], values: &[i64]) -> bool {
    is_unpacked(block, values) && is_summed(block, values) && block_len(block) == Some(block.len())
}

/// The block of values, which gives them back.
pub fn pack(case: &Value, trial: &mut Trial) -> Option<()> {
    let values = trial.numbers(case, "values");
    let block = block_of(trial.alloc, values.as_slice())?;
    trial.need(gives(block.as_slice(), values.as_slice()));
    trial.ok_hex(block.as_slice());
    Some(())
}

pub fn put_numbers(numbers: &[i64], trial: &mut Trial) {
    trial.open("[");
    for number in numbers {
        trial.whole(*number);
    }
    trial.close("]");
}

fn ok_numbers(numbers: &[i64], trial: &mut Trial) {
    trial.ok();
    put_numbers(numbers, trial);
    trial.close("}");
}

/// The values of a block.
pub fn unpack(case: &Value, trial: &mut Trial) {
    let bytes = trial.bytes(case, "bytes");
    let mut values = [0i64; 128];
    match unpack_block(bytes.as_slice(), &mut values) {
        Ok(n) => ok_numbers(&values[..n], trial),
        Err(_) => trial.refused("BadBlock"),
    }
}

fn put_summary(summary: &Summary, trial: &mut Trial) {
    trial.ok();
    trial.open("[");
    trial.wide(i128::from(summary.n));
    trial.whole(summary.min);
    trial.whole(summary.max);
    trial.wide(summary.sum);
    trial.close("]}");
}

/// Number, least, greatest and sum of a block.
pub fn summary(case: &Value, trial: &mut Trial) {
    let bytes = trial.bytes(case, "bytes");
    match block_min_max_sum(bytes.as_slice()) {
        Ok(summary) => put_summary(&summary, trial),
        Err(_) => trial.refused("BadBlock"),
    }
}
