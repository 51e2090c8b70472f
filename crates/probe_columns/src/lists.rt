//! Lists of numbers in blocks.
use crate::blocks::put_numbers;
use crate::ranges::RANGES;
use packed_lists::{Cursor, NumberList, Packer, ReadNumbers};
use probe_case::{Checks, Trial, part, put_blocks};
use serde_json::Value;
use std::alloc::Global;

/// Whether a list has a number at a place.
fn is_at(list: &NumberList, place: usize, number: i64) -> bool {
    place < list.len() && list.at(place) == number
}

/// Whether a list has these numbers from a place on, one by one.
fn are_at(list: &NumberList, numbers: &[i64], from: usize) -> bool {
    for (place, number) in numbers.iter().enumerate() {
        if !is_at(list, place.wrapping_add(from), *number) {
            return false;
        }
    }
    true
}

/// Whether a list has these numbers in a range, one by one and together.
fn are_numbers(
    alloc: Global,
    list: &NumberList,
    numbers: &[i64],
    from: usize,
    to: usize,
) -> Option<bool> {
    let wanted = part(numbers, from, to);
    let values = list.values(alloc, from, to).ok()?;
    Some(values.as_slice() == wanted && are_at(list, wanted, from))
}

/// Whether ranges have their numbers.
fn check_ranges(alloc: Global, list: &NumberList, numbers: &[i64]) -> Checks {
    let mut checks = Checks::new();
    for (from, to) in RANGES {
        let are_right = are_numbers(alloc, list, numbers, from as usize, to as usize);
        checks.note(are_right == Some(true));
    }
    checks
}

/// The list that is read from the bytes of so many numbers, which are their blocks, and no list of one number more.
fn read_back(alloc: Global, numbers: &[i64]) -> Option<ReadNumbers> {
    let mut blocks = Vec::new(alloc);
    put_blocks(numbers, &mut blocks)?;
    let built = NumberList::build(alloc, numbers).ok()?;
    let longer = NumberList::read(alloc, numbers.len().wrapping_add(1), built.bytes()).ok()?;
    let read = NumberList::read(alloc, numbers.len(), built.bytes()).ok()??;
    if built.bytes() == blocks.as_slice() && read.used == blocks.len() && longer.is_none() {
        Some(read)
    } else {
        None
    }
}

/// A list of numbers: its bytes are their blocks, and it is read from them, but not as one number more. How many ranges
/// there are, and how many have other numbers.
pub fn number_list(case: &Value, trial: &mut Trial) -> Option<()> {
    let numbers = trial.numbers(case, "numbers");
    let read = read_back(trial.alloc, numbers.as_slice())?;
    check_ranges(trial.alloc, &read.numbers, numbers.as_slice()).put("ranges", trial);
    Some(())
}

/// Copies a range, as `[3,5]`.
fn copy_range(cursor: &mut Cursor, range: &Value, into: &mut Packer) -> Option<()> {
    let ends = range.as_array()?;
    let from = ends.first()?.as_u64()? as usize;
    let to = ends.last()?.as_u64()? as usize;
    if from > to || to > cursor.len() {
        return None;
    }
    cursor.copy(from, to, into).ok()
}

fn copied(alloc: Global, list: &NumberList, ranges: &[Value]) -> Option<NumberList> {
    let mut packer = Packer::new(alloc);
    let mut cursor = list.cursor();
    for range in ranges {
        copy_range(&mut cursor, range, &mut packer)?;
    }
    packer.finish().ok()
}

/// The sum of a list and its numbers.
pub fn put_list(list: &NumberList, trial: &mut Trial) -> Option<()> {
    let values = list.values(trial.alloc, 0, list.len()).ok()?;
    trial.ok();
    trial.open("{");
    trial.name("sum");
    trial.wide(list.sum());
    trial.name("numbers");
    put_numbers(values.as_slice(), trial);
    trial.close("}}");
    Some(())
}

/// Ranges of a list, copied one behind another into a list: its sum and its numbers.
pub fn copy(case: &Value, trial: &mut Trial) -> Option<()> {
    let numbers = trial.numbers(case, "numbers");
    let list = NumberList::build(trial.alloc, numbers.as_slice()).ok()?;
    let copied = copied(trial.alloc, &list, trial.list(case, "ranges"))?;
    put_list(&copied, trial)
}
