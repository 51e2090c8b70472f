//! Which function makes the call of a case.
use crate::{blocks, columns, lists, ranges, sweeps, turns};
use probe_case::Trial;
use serde_json::Value;

fn of_blocks(call: &str, case: &Value, trial: &mut Trial) -> Option<bool> {
    match call {
        "pack_block" => blocks::pack(case, trial)?,
        "unpack_block" => blocks::unpack(case, trial),
        "block_min_max_sum" => blocks::summary(case, trial),
        "damaged_block" => sweeps::damage(case, trial)?,
        "random_blocks" => sweeps::random_blocks(case, trial),
        _ => return Some(false),
    }
    Some(true)
}

fn of_columns(call: &str, case: &Value, trial: &mut Trial) -> Option<bool> {
    match call {
        "read_column" => columns::read(case, trial)?,
        "damaged_column" => columns::damage(case, trial)?,
        "build_column" => ranges::build(case, trial)?,
        "ranges_of_rows" => ranges::of_rows(case, trial)?,
        "ranges_of_column" => ranges::of_column(case, trial)?,
        "number_list" => lists::number_list(case, trial)?,
        "copy_lists" => lists::copy(case, trial)?,
        "merge_lists" => turns::merge(case, trial)?,
        _ => return Some(false),
    }
    Some(true)
}

fn is_made(made: Option<bool>, trial: &mut Trial) -> bool {
    trial.need(made.is_some());
    made.unwrap_or(true)
}

/// Makes the call of a case, if it is one of these, and writes its answer.
pub fn answer_columns(call: &str, case: &Value, trial: &mut Trial) -> bool {
    let made = of_blocks(call, case, trial);
    if is_made(made, trial) {
        return true;
    }
    let made = of_columns(call, case, trial);
    is_made(made, trial)
}
