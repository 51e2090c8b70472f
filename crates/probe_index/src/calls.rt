//! Which function makes the call of a case.
use crate::filling::index_of;
use crate::reads;
use probe_case::Trial;
use serde_json::Value;
use tsds_index::TsdsIndex;

fn asked(call: &str, index: &TsdsIndex, case: &Value, trial: &mut Trial) -> Option<()> {
    match call {
        "index_row" => reads::row(index, case, trial),
        "index_rows" => reads::rows(index, case, trial),
        "index_count" => reads::count(index, case, trial),
        "index_folds" => reads::folds(index, case, trial),
        "index_gauge" => reads::gauge(index, case, trial),
        "index_found" => reads::found(index, case, trial),
        "index_after" => reads::key_after(index, case, trial),
        _ => None,
    }
}

fn on_case(call: &str, case: &Value, trial: &mut Trial) -> Option<()> {
    let (index, doubles) = index_of(trial.alloc, case)?;
    match call {
        "index" => reads::state(&index, doubles, trial),
        "index_keys" => reads::keys(&index, trial),
        _ => asked(call, &index, case, trial)?,
    }
    Some(())
}

/// Makes the call of a case on the index of the case, if it is one of these, and writes its answer.
pub fn answer_index(call: &str, case: &Value, trial: &mut Trial) -> bool {
    if !call.starts_with("index") {
        return false;
    }
    on_case(call, case, trial).is_some()
}
