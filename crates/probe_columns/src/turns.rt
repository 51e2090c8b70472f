//! Lists of which parts are taken by turns.
ghost use Rattle.std.specs.Prelude.{IsTrue};
ghost use Rattle.packed_lists.specs.Packing.{EachLies, Lies};

use crate::lists::put_list;
use packed_lists::{NumberList, Turn, merge_lists};
use probe_case::Trial;
use serde_json::Value;
use std::alloc::Global;

fn numbers_of(alloc: Global, element: &Value) -> Option<Vec<i64>> {
    let mut numbers = Vec::new(alloc);
    for number in element.as_array()?.as_slice() {
        numbers.push(number.as_i64()?).ok()?;
    }
    Some(numbers)
}

fn list_of(alloc: Global, element: &Value) -> Option<NumberList> {
    let numbers = numbers_of(alloc, element)?;
    NumberList::build(alloc, numbers.as_slice()).ok()
}

fn lists_of(alloc: Global, elements: &[Value]) -> Option<Vec<NumberList>> {
    let mut lists = Vec::new(alloc);
    for element in elements {
        lists.push(list_of(alloc, element)?).ok()?;
    }
    Some(lists)
}

/// A turn, as `[0,3,5]`: the number of a list, and from where up to where it is taken.
fn turn_of(element: &Value) -> Option<Turn> {
    let [source, from, to] = element.as_array()?.as_slice().first_chunk::<3>()?;
    Some(Turn {
        source: source.as_u64()? as usize,
        from: from.as_u64()? as usize,
        to: to.as_u64()? as usize,
    })
}

fn turns_of(alloc: Global, elements: &[Value]) -> Option<Vec<Turn>> {
    let mut turns = Vec::new(alloc);
    for element in elements {
        turns.push(turn_of(element)?).ok()?;
    }
    Some(turns)
}

/// Whether a turn takes what its list has.
fn lies(lists: &[NumberList], turn: &Turn) -> bool
    ensures { IsTrue result → Lies lists.now turn.now }
{
    match lists.get(turn.source) {
        Some(list) => turn.from <= turn.to && turn.to <= list.len(),
        None => false,
    }
}

fn each_lies(lists: &[NumberList], turns: &[Turn]) -> bool
    ensures { IsTrue result → EachLies lists.now turns.now }
{
    for turn in turns {
        if !lies(lists, turn) {
            return false;
        }
    }
    true
}

fn merged(alloc: Global, lists: &[NumberList], turns: &[Turn]) -> Option<NumberList> {
    if lists.len() > 1_000 || !each_lies(lists, turns) {
        return None;
    }
    merge_lists(alloc, lists, turns).ok()
}

/// What turns take from lists, one behind another: its sum and its numbers.
pub fn merge(case: &Value, trial: &mut Trial) -> Option<()> {
    let turns = turns_of(trial.alloc, trial.list(case, "turns"))?;
    let lists = lists_of(trial.alloc, trial.list(case, "lists"))?;
    put_list(
        &merged(trial.alloc, lists.as_slice(), turns.as_slice())?,
        trial,
    )
}
