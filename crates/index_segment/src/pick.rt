//! Two lists made one by turns.
ghost use Rattle.std.specs.Prelude.{◌≡◌, ◌+◌, ◌^◌, ◌<◌, ◌≤◌, ◌++◌, [], length, take, drop, reverse, IfOk, OnOk};
ghost use Rattle.column_block.specs.Rules.{rows_of};
ghost use Rattle.index_segment.specs.Columns.{ArePackable};
ghost use Rattle.index_segment.specs.Merging.{picked, picked_columns, picked_values, sides};

use crate::shares::Counts;
use column_block::{Column, Values};
use edge_face::NoMemory;
use packed_lists::NumberList;
use sqlite_items::Items;
use std::alloc::Global;

/// The items from the last to the first. None is copied.
fn reversed<T: Drop>(alloc: Global, items: Items<T>) -> Result<Items<T>, NoMemory>
    ensures { IfOk result (λ stack. stack ≡ reverse items) }
{
    let mut left = items;
    let mut stack = Items::new(alloc);
    while let Some(item) = left.pop() {
        stack.push(item)?;
    }
    Ok(stack)
}

/// Moves so many items from the end of a list to the end of another, the last one first, or all that there are.
fn move_items<T: Drop>(
    count: usize,
    from: &mut Items<T>,
    into: &mut Items<T>,
) -> Result<(), NoMemory>
    ensures from { OnOk result (reverse from.new ≡ drop count (reverse from.old)) }
    ensures into { OnOk result (into.new ≡ into.old ++ take count (reverse from.old)) }
{
    for done in 0..count {
        match from.pop() {
            Some(item) => into.push(item)?,
            None => return Ok(()),
        }
    }
    Ok(())
}

/// Two lists as one, by turns. Items are moved, and not copied.
fn pick<T: Drop>(
    alloc: Global,
    turns: &[Counts],
    first: Items<T>,
    second: Items<T>,
) -> Result<Items<T>, NoMemory>
    ensures { IfOk result (λ all. all ≡ picked (sides turns.now) first second) }
{
    let mut first = reversed(alloc, first)?;
    let mut second = reversed(alloc, second)?;
    let mut all = Items::new(alloc);
    for turn in turns {
        move_items(turn.first, &mut first, &mut all)?;
        move_items(turn.second, &mut second, &mut all)?;
    }
    Ok(all)
}

/// The rows of two columns of one kind as one, by turns.
fn pick_values(
    alloc: Global,
    turns: &[Counts],
    first: Values,
    second: Values,
) -> Result<Values, NoMemory>
    ensures { IfOk result (λ values. values ≡ picked_values (sides turns.now) first second) }
{
    match first {
        Values::Whole(first) => match second {
            Values::Whole(second) => Ok(Values::Whole(pick(alloc, turns, first, second)?)),
            _ => Ok(Values::Whole(Items::new(alloc))),
        },
        Values::Parts(first) => match second {
            Values::Parts(second) => Ok(Values::Parts(pick(alloc, turns, first, second)?)),
            _ => Ok(Values::Whole(Items::new(alloc))),
        },
        Values::Wholes(first) => match second {
            Values::Wholes(second) => Ok(Values::Wholes(pick(alloc, turns, first, second)?)),
            _ => Ok(Values::Whole(Items::new(alloc))),
        },
        Values::Words(first) => match second {
            Values::Words(second) => Ok(Values::Words(pick(alloc, turns, first, second)?)),
            _ => Ok(Values::Whole(Items::new(alloc))),
        },
    }
}

/// The columns of two segments as those of one, by turns.
pub fn pick_columns(
    alloc: Global,
    turns: &[Counts],
    first: &[Column],
    second: &[Column],
) -> Result<Items<Column>, NoMemory>
    requires same { length second.now ≡ length first.now }
    requires first { ArePackable first.now }
    requires second { ArePackable second.now }
    requires all { ArePackable (picked_columns (sides turns.now) first.now second.now) }
    ensures { IfOk result (λ columns. columns ≡ picked_columns (sides turns.now) first.now second.now) }
{
    let mut columns = Vec::with_capacity(alloc, first.len())?;
    for place in 0..first.len() {
        let here = first[place].values(alloc, 0, u32::MAX)?;
        let there = second[place].values(alloc, 0, u32::MAX)?;
        let values = pick_values(alloc, turns, here, there)?;
        columns.push(Column::build(alloc, &values)?)?;
    }
    Ok(Items::from_vec(columns))
}

/// Two lists of numbers as one, by turns.
pub fn pick_numbers(
    alloc: Global,
    turns: &[Counts],
    first: &[i64],
    second: &[i64],
) -> Result<NumberList, NoMemory>
    ensures { IfOk result (λ list. list ≡ picked (sides turns.now) first.now second.now) }
{
    let first = Items::from_slice(alloc, first)?;
    let second = Items::from_slice(alloc, second)?;
    let all = pick(alloc, turns, first, second)?;
    let list = NumberList::build(alloc, all.as_slice())?;
    Ok(list)
}
