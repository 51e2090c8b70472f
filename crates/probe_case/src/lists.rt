//! Lists of whole numbers, and the packed blocks of them.
use crate::arguments::optional_number;
use crate::parts::next_chance;
use column_pack::pack_block;
use json_walk::{has_no_other, only_member, whole};
use serde_json::Value;
use std::alloc::Global;

/// Appends so many numbers that look like chance.
fn put_random(times: u64, into: &mut Vec<i64>) -> Option<()> {
    let mut seed = 88_172_645_463_325_252u64;
    for _ in 0..times {
        seed = next_chance(seed);
        into.push(seed.cast_signed()).ok()?;
    }
    Some(())
}

/// Appends so many numbers from one on, by a step.
fn put_stepped(times: i64, from: i64, step: i64, into: &mut Vec<i64>) -> Option<()> {
    let mut next = from;
    for _ in 0..times {
        into.push(next).ok()?;
        next = next.wrapping_add(step);
    }
    Some(())
}

/// Appends many numbers: `{"times":3,"from":1,"step":2}`, or `{"random":3}`.
fn put_many(element: &Value, into: &mut Vec<i64>) -> Option<()> {
    if let Some(("random", times)) = only_member(element) {
        return put_random(times.as_u64()?, into);
    }
    if !has_no_other(element, &["times", "from", "step"]) {
        return None;
    }
    let times = whole(element.get("times")?)?;
    let from = optional_number(element, "from", 0)?;
    put_stepped(times, from, optional_number(element, "step", 0)?, into)
}

fn put_numbers(element: &Value, into: &mut Vec<i64>) -> Option<()> {
    match whole(element) {
        Some(one) => into.push(one).ok(),
        None => put_many(element, into),
    }
}

/// The whole numbers of a list.
pub fn numbers_in(alloc: Global, elements: &[Value]) -> Option<Vec<i64>> {
    let mut numbers = Vec::new(alloc);
    for element in elements {
        put_numbers(element, &mut numbers)?;
    }
    Some(numbers)
}

/// Appends the blocks of a list of numbers, each of 128 and the last of what is left.
pub fn put_blocks(numbers: &[i64], into: &mut Vec<u8>) -> Option<()> {
    for part in numbers.chunks(128) {
        if part.is_empty() || part.len() > 128 {
            return None;
        }
        pack_block(part, into).ok()?;
    }
    Some(())
}
