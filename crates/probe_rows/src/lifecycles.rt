//! Plans of lifecycle runs.
ghost use Rattle.std.specs.Prelude.{IfSome};
ghost use Rattle.time_text.specs.Instant.{IsInstant};

use crate::folds::{interval_at, interval_if_any};
use json_walk::has_no_other;
use lifecycle_swap::{IndexFacts, Lifecycle, Round, Step, plan};
use probe_case::{Trial, optional_flag, optional_list, optional_number};
use serde_json::Value;
use sqlite_items::Items;
use std::alloc::Global;
use time_text::is_instant;

fn round_of(element: &Value) -> Option<Round> {
    if !has_no_other(element, &["after", "by"]) {
        return None;
    }
    let after = interval_at(element, "after")?;
    let by = interval_at(element, "by")?;
    Some(Round { after, by })
}

fn rounds_of(alloc: Global, elements: &[Value]) -> Option<Vec<Round>> {
    let mut rounds = Vec::new(alloc);
    for element in elements {
        rounds.push(round_of(element)?).ok()?;
    }
    Some(rounds)
}

/// The lifecycle that a tree is.
fn life_of(alloc: Global, tree: &Value) -> Option<Lifecycle> {
    if !has_no_other(tree, &["retention", "rounds"]) {
        return None;
    }
    let retention = interval_if_any(tree, "retention")?;
    let rounds = rounds_of(alloc, optional_list(tree, "rounds")?)?;
    Some(Lifecycle {
        retention,
        rounds: Items::from_vec(rounds),
    })
}

/// A member of a stream, with its place as its number.
fn facts_of(place: usize, element: &Value) -> Option<IndexFacts> {
    if !has_no_other(element, &["end", "write", "interval", "busy"]) {
        return None;
    }
    Some(IndexFacts {
        index: place.min(1_000) as u32,
        end: optional_number(element, "end", 0)?,
        write: optional_flag(element, "write")?,
        interval: interval_if_any(element, "interval")?,
        busy: optional_flag(element, "busy")?,
    })
}

fn members_of(alloc: Global, elements: &[Value]) -> Option<Vec<IndexFacts>> {
    let mut members = Vec::new(alloc);
    for (place, element) in elements.iter().enumerate() {
        members.push(facts_of(place, element)?).ok()?;
    }
    Some(members)
}

fn put_step(step: &Step, trial: &mut Trial) {
    trial.open("[");
    match step {
        Step::Extend { index, end } => {
            trial.word("extend");
            trial.wide(i128::from(*index));
            trial.whole(*end);
        }
        Step::Delete { index } => {
            trial.word("delete");
            trial.wide(i128::from(*index));
        }
        Step::Start { index, by } => {
            trial.word("start");
            trial.wide(i128::from(*index));
            trial.whole(by.ms());
        }
    }
    trial.close("]");
}

fn put_steps(steps: &[Step], trial: &mut Trial) {
    trial.open("[");
    for step in steps {
        put_step(step, trial);
    }
    trial.close("]");
}

fn now_of(case: &Value, trial: &mut Trial) -> Option<i64>
    ensures { IfSome result IsInstant }
{
    let now = trial.number(case, "now");
    if is_instant(now) { Some(now) } else { None }
}

/// What a case asks of a stream without a lifecycle, or with one, and whether the lifecycle is sound.
fn put_plan(life: Option<&Lifecycle>, case: &Value, trial: &mut Trial) -> Option<()> {
    let now = now_of(case, trial)?;
    let look_ahead = trial.number(case, "look_ahead");
    let members = members_of(trial.alloc, trial.list(case, "members"))?;
    let steps = plan(trial.alloc, now, look_ahead, life, members.as_slice()).ok()?;
    trial.name("steps");
    put_steps(steps.as_slice(), trial);
    Some(())
}

fn put_with(life: &Lifecycle, case: &Value, trial: &mut Trial) -> Option<()> {
    trial.flag_at("sound", life.is_sound());
    put_plan(Some(life), case, trial)
}

/// The steps of a lifecycle run for the members of one stream.
pub fn planned(case: &Value, trial: &mut Trial) -> Option<()> {
    trial.ok();
    trial.open("{");
    match case.get("life") {
        Some(tree) => put_with(&life_of(trial.alloc, tree)?, case, trial)?,
        None => put_plan(None, case, trial)?,
    }
    trial.close("}}");
    Some(())
}
