//! Counters: rises that are added and merged.
ghost use Rattle.std.specs.Prelude.{◌^◌, ◌≤◌, IsTrue};
ghost use Rattle.fold_law.specs.Rises.{reach_of_rising};

use crate::shown::put_rise;
use fold_law::{Fold, Rising};
use json_walk::whole;
use probe_case::Trial;
use serde_json::Value;
use std::alloc::Global;

/// Whether a rise is far from the ends of 128 bits.
fn is_small(rising: Rising) -> bool
    ensures { IsTrue result → reach_of_rising rising ≤ 2 ^ 119 }
{
    match rising.0 {
        None => true,
        Some(rise) => rise.increase.unsigned_abs() <= 1 << 100,
    }
}

/// One of two rises that are small.
fn merged(earlier: Rising, later: Rising) -> Option<Rising> {
    if is_small(earlier) && is_small(later) {
        Some(earlier.merge(later))
    } else {
        None
    }
}

/// The next rise: `merge` makes one of the last two, a number is the rise of one value, and null that of none.
fn next_rising(made: &mut Vec<Rising>, step: &Value) -> Option<Rising> {
    match step {
        Value::Null => Some(Rising::none().add(&None)),
        Value::Number(_) => Some(Rising::none().add(&Some(whole(step)?))),
        _ => last_merged(made, step),
    }
}

fn last_merged(made: &mut Vec<Rising>, step: &Value) -> Option<Rising> {
    if step.as_str() != Some("merge") {
        return None;
    }
    let later = made.pop()?;
    merged(made.pop()?, later)
}

fn made_by(alloc: Global, steps: &[Value]) -> Option<Rising> {
    let mut made = Vec::new(alloc);
    for step in steps {
        let rising = next_rising(&mut made, step)?;
        made.push(rising).ok()?;
    }
    made.pop()
}

/// First value, last value and increase of the rise that the steps make, or null.
pub fn rising(case: &Value, trial: &mut Trial) -> Option<()> {
    match made_by(trial.alloc, trial.list(case, "steps"))?.0 {
        Some(rise) => {
            trial.ok();
            put_rise(&rise, trial);
            trial.close("}");
        }
        None => trial.ok_null(),
    }
    Some(())
}
