//! Which function makes the call of a case.
use crate::{
    cells, checks, documents, folds, keys, lifecycles, merging, rises, templates, widening,
};
use probe_case::Trial;
use serde_json::Value;

fn of_templates(call: &str, case: &Value, trial: &mut Trial) -> Option<bool> {
    match call {
        "read_template" => templates::read(case, trial)?,
        "read_scalar" => templates::scalar(case, trial)?,
        "read_aggregate" => templates::aggregate(case, trial),
        "is_template" => checks::kept(case, trial)?,
        "first_other" => checks::other(case, trial)?,
        "rebuild" => documents::round(case, trial)?,
        "read_time" => documents::time(case, trial)?,
        "type_cells" => documents::cells(case, trial)?,
        _ => return Some(false),
    }
    Some(true)
}

fn of_keys(call: &str, case: &Value, trial: &mut Trial) -> Option<bool> {
    match call {
        "series_key" => keys::key(case, trial)?,
        "is_key" => keys::is_key(case, trial)?,
        "id_text" => keys::id(case, trial)?,
        "read_id" => keys::read(case, trial)?,
        "changed_ids" => keys::changed_ids(case, trial)?,
        "shard_of" => keys::shard(case, trial)?,
        _ => return Some(false),
    }
    Some(true)
}

fn of_rows(call: &str, case: &Value, trial: &mut Trial) -> Option<bool> {
    match call {
        "copy_row" => cells::copied(case, trial)?,
        "fit_cells" => cells::fit(case, trial)?,
        "head_row" => cells::head(case, trial)?,
        "are_rows_of" => cells::are_rows(case, trial)?,
        "bytes_order" => cells::orders(case, trial)?,
        "row_order" => cells::row_orders(case, trial)?,
        "merge_rows" => merging::merge(case, trial)?,
        "widen" => widening::widened(case, trial)?,
        _ => return Some(false),
    }
    Some(true)
}

fn of_folds(call: &str, case: &Value, trial: &mut Trial) -> Option<bool> {
    match call {
        "fold_all" => folds::as_rows(case, trial)?,
        "fold_documents" => folds::as_documents(case, trial)?,
        "check_interval" => folds::check(case, trial)?,
        "rising" => rises::rising(case, trial)?,
        "plan" => lifecycles::planned(case, trial)?,
        _ => return Some(false),
    }
    Some(true)
}

fn is_made(made: Option<bool>, trial: &mut Trial) -> bool {
    trial.need(made.is_some());
    made.unwrap_or(true)
}

/// Makes the call of a case, if it is one of these, and writes its answer.
pub fn answer_rows(call: &str, case: &Value, trial: &mut Trial) -> bool {
    let made = of_templates(call, case, trial);
    if is_made(made, trial) {
        return true;
    }
    let made = of_keys(call, case, trial);
    if is_made(made, trial) {
        return true;
    }
    let made = of_rows(call, case, trial);
    if is_made(made, trial) {
        return true;
    }
    let made = of_folds(call, case, trial);
    is_made(made, trial)
}
