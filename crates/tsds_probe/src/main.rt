//! Runs tables of cases. A line of the table names a public call and its arguments, and then the answer that is expected:
//! `{"call":"read_instant","text":"2024-01-01"} => {"ok":1704067200000}`. The program prints each case that differs with
//! what came, and at the end how many passed and failed. Its status is 1 where one failed.
#![tactic(auto)]

mod calls;
mod table;

use anyhow::Result;
use edge_face::{LineReader, ReaderSource};
use probe_case::Trial;
use std::alloc::Global;
use std::process::ExitCode;
use table::{Table, Verdict};

/// How many cases passed and failed.
#[derive(Clone, Copy)]
struct Tally {
    passed: u64,
    failed: u64,
}

/// What came, where a case failed.
fn came(trial: &Trial) -> &str {
    match trial.answer() {
        Some(text) => str::from_utf8(text).unwrap_or("no text"),
        None => "no answer: an argument is missing or refused, or there is no such call",
    }
}

/// Counts a case, and prints what came where it failed.
fn note(
    rt: &impl Print,
    number: u64,
    verdict: Verdict,
    trial: &Trial,
    tally: &mut Tally,
) -> Result<()> {
    match verdict {
        Verdict::Nothing => {}
        Verdict::Passed => tally.passed = tally.passed.wrapping_add(1),
        Verdict::Failed => {
            tally.failed = tally.failed.wrapping_add(1);
            println!(rt; "line {number}: came {}", came(trial))?;
        }
    }
    Ok(())
}

/// Tries all lines of standard input.
fn try_all(rt: &HostRuntime, alloc: Global) -> Result<Tally> {
    let mut source = ReaderSource::new(rt.stdin());
    let mut reader = LineReader::new(alloc)?;
    let mut table = Table::new(alloc);
    let mut tally = Tally {
        passed: 0,
        failed: 0,
    };
    'lines: for number in 1..u64::MAX {
        let Some(line) = reader.next_line(alloc, &mut source)? else {
            break;
        };
        let mut trial = Trial::new(alloc);
        let verdict = table.check(line.as_slice(), &mut trial);
        note(rt, number, verdict, &trial, &mut tally)?;
    }
    Ok(tally)
}

fn main(rt: HostRuntime) -> Result<ExitCode> {
    let tally = try_all(&rt, rt.alloc())?;
    println!(rt; "{} passed, {} failed", tally.passed, tally.failed)?;
    Ok(ExitCode::from(if tally.failed == 0 { 0 } else { 1 }))
}
