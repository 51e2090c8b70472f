//! The steps of a lifecycle run for the members of one stream.
ghost use Rattle.std.specs.Prelude.{◌≡◌, ◌++◌, ◌-ℤ◌, IfOk, OnOk};
ghost use Rattle.std.specs.List.{filter_map};
ghost use Rattle.std.specs.Option.{option_copied, option_or};
ghost use Rattle.time_text.specs.Instant.{IsInstant};
ghost use Rattle.lifecycle_swap.specs.Plan as spec;

use crate::ends::end_after;
use crate::lifecycles::{Lifecycle, Round};
use downsample_fold::check_interval;
use edge_face::NoMemory;
use std::alloc::Global;
use time_text::Interval;

/// What a plan is made from: one member of a stream.
#[derive(Clone, Copy, Debug, PartialEq, Eq)]
pub struct IndexFacts {
    /// A number by which the steps name the member.
    pub index: u32,
    /// The end of its window, which the window doesn't have.
    pub end: i64,
    /// Whether it takes the stream's new documents.
    pub write: bool,
    /// The interval that its rows were folded by.
    pub interval: Option<Interval>,
    /// Whether it is being folded.
    pub busy: bool,
}

/// What is to be done with a member.
#[derive(Clone, Copy, Debug, PartialEq, Eq)]
pub enum Step {
    /// Its window ends later.
    Extend { index: u32, end: i64 },
    /// It goes, with its rows.
    Delete { index: u32 },
    /// It is to be folded by an interval.
    Start { index: u32, by: Interval },
}

fn extension(now: i64, look_ahead: i64, facts: &IndexFacts) -> Option<Step>
    requires { IsInstant now }
    ensures { result ≡ spec.extension now look_ahead facts.now }
{
    let end = end_after(now, look_ahead);
    if facts.write && facts.end < end {
        Some(Step::Extend {
            index: facts.index,
            end,
        })
    } else {
        None
    }
}

/// Whether the time since an end is at least as long as an interval.
fn is_aged(length: Interval, now: i64, end: i64) -> bool
    requires { IsInstant now }
    ensures { result ≡ spec.is_aged length (now -ℤ end) }
{
    end <= now - length.ms()
}

fn is_over(retention: Option<Interval>, now: i64, end: i64) -> bool
    requires { IsInstant now }
    ensures { result ≡ spec.is_over retention (now -ℤ end) }
{
    match retention {
        None => false,
        Some(retention) => is_aged(retention, now, end),
    }
}

/// The last round whose time has come since an end.
fn round_at(rounds: &[Round], now: i64, end: i64) -> Option<Round>
    requires { IsInstant now }
    ensures { result ≡ spec.round_at rounds.now (now -ℤ end) }
{
    let mut found = None;
    for round in rounds {
        if is_aged(round.after, now, end) {
            found = Some(*round);
        }
    }
    found
}

fn start_step(facts: &IndexFacts, round: Option<Round>) -> Option<Step>
    ensures { result ≡ spec.start_step facts.now round }
{
    let round = round?;
    if !facts.busy && check_interval(facts.interval, round.by).is_ok() {
        Some(Step::Start {
            index: facts.index,
            by: round.by,
        })
    } else {
        None
    }
}

fn aged_step(now: i64, life: &Lifecycle, facts: &IndexFacts) -> Option<Step>
    requires { IsInstant now }
    ensures { result ≡ spec.aged_step life.now facts.now (now -ℤ facts.now.end) }
{
    if is_over(life.retention, now, facts.end) {
        return Some(Step::Delete { index: facts.index });
    }
    let round = round_at(life.rounds.as_slice(), now, facts.end);
    start_step(facts, round)
}

fn member_step(now: i64, life: &Lifecycle, facts: &IndexFacts) -> Option<Step>
    requires { IsInstant now }
    ensures { result ≡ spec.member_step now life.now facts.now }
{
    if facts.write || now < facts.end {
        return None;
    }
    aged_step(now, life, facts)
}

/// What the present asks of the members of a stream with a lifecycle.
fn note_members(
    now: i64,
    life: &Lifecycle,
    facts: &[IndexFacts],
    steps: &mut Vec<Step>,
) -> Result<(), NoMemory>
    requires { IsInstant now }
    ensures { OnOk result (steps.new.items ≡ steps.old.items ++ filter_map (spec.member_step now life.now) facts.now) }
{
    for facts in facts {
        if let Some(step) = member_step(now, life, facts) {
            steps.push(step)?;
        }
    }
    Ok(())
}

/// What the present asks of a stream's write index.
fn note_extensions(
    now: i64,
    look_ahead: i64,
    facts: &[IndexFacts],
    steps: &mut Vec<Step>,
) -> Result<(), NoMemory>
    requires { IsInstant now }
    ensures { OnOk result (steps.new.items ≡ steps.old.items ++ filter_map (spec.extension now look_ahead) facts.now) }
{
    for facts in facts {
        if let Some(step) = extension(now, look_ahead, facts) {
            steps.push(step)?;
        }
    }
    Ok(())
}

/// What a lifecycle run does at an instant with the members of one stream, in this order: the write index's window ends
/// `look_ahead` milliseconds ahead of the present where it ended sooner; and in a stream with a lifecycle each other member
/// whose window has ended is deleted where its age has reached the retention, or else is to be folded by the last round
/// whose age it has reached, unless it is being folded, or its rows were folded by an interval of which that of the round
/// is no greater multiple.
pub fn plan(
    alloc: Global,
    now: i64,
    look_ahead: i64,
    life: Option<&Lifecycle>,
    facts: &[IndexFacts],
) -> Result<Vec<Step>, NoMemory>
    requires { IsInstant now }
    ensures { IfOk result (λ steps. steps.items ≡ spec.plan_of now look_ahead (option_copied life.entry) facts.now) }
{
    let mut steps = Vec::new(alloc);
    note_extensions(now, look_ahead, facts, &mut steps)?;
    if let Some(life) = life {
        note_members(now, life, facts, &mut steps)?;
    }
    Ok(steps)
}
