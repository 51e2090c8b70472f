//! Which function makes the call of a case.
use crate::{aggs, pages, queries, replies};
use probe_case::Trial;
use serde_json::Value;

fn of_questions(call: &str, case: &Value, trial: &mut Trial) -> Option<bool> {
    match call {
        "matches" => queries::matching(case, trial)?,
        "page" => pages::page(case, trial)?,
        "split" => queries::splitting(case, trial)?,
        "too_deep" => pages::depth(case, trial)?,
        "read_aggs" => aggs::read(case, trial)?,
        "metric_out" => aggs::metric(case, trial)?,
        "aggregate" => replies::reply(case, trial)?,
        _ => return Some(false),
    }
    Some(true)
}

/// Makes the call of a case, if it is one of these, and writes its answer.
pub fn answer_questions(call: &str, case: &Value, trial: &mut Trial) -> bool {
    let made = of_questions(call, case, trial);
    trial.need(made.is_some());
    made.unwrap_or(true)
}
