//! Which function makes the call of a case.
use crate::{bodies, days, names, replies, requests, times, trees, values};
use probe_case::Trial;
use serde_json::Value;

fn of_times(call: &str, case: &Value, trial: &mut Trial) -> bool {
    match call {
        "read_instant" => times::read(case, trial),
        "print_instant" => times::print(case, trial),
        "is_instant" => times::is_instant(case, trial),
        "read_interval" => times::interval(case, trial),
        "start_of" => times::start_of(case, trial),
        "read_moment_expr" => times::moment(case, trial),
        _ => return false,
    }
    true
}

fn of_days(call: &str, case: &Value, trial: &mut Trial) -> bool {
    match call {
        "print_day" => days::print_day(case, trial),
        "later" => days::later(case, trial),
        "later_by" => days::later_by(case, trial),
        "earlier" => days::earlier(case, trial),
        "interval_of" => days::interval_of(case, trial),
        _ => return false,
    }
    true
}

fn of_trees(call: &str, case: &Value, trial: &mut Trial) -> bool {
    match call {
        "leaves_at" => trees::at_path(case, trial),
        "paths" => trees::leaf_paths(case, trial),
        "has_names" => trees::names(case, trial),
        "shape" => trees::shape(case, trial),
        _ => return false,
    }
    true
}

fn of_values(call: &str, case: &Value, trial: &mut Trial) -> bool {
    match call {
        "whole" => values::whole_of(case, trial),
        "texts" => values::texts_in(case, trial),
        "whole_between" => values::between(case, trial),
        "print" => replies::printed(case, trial),
        "error_reply" => replies::error(case, trial),
        _ => return false,
    }
    true
}

fn of_messages(call: &str, case: &Value, trial: &mut Trial) -> bool {
    match call {
        "read_bulk" => bodies::bulk(case, trial),
        "fault_ahead" => bodies::ahead(case, trial),
        "read_request" => requests::request(case, trial),
        "names" => names::kinds(case, trial),
        "pattern_takes" => names::takes(case, trial),
        "backing_name" => names::backing(case, trial),
        "read_backing_name" => names::read_backing(case, trial),
        "downsample_name" => names::downsample(case, trial),
        _ => return false,
    }
    true
}

/// Makes the call of a case, if it is one of these, and writes its answer.
pub fn answer_words(call: &str, case: &Value, trial: &mut Trial) -> bool {
    of_times(call, case, trial)
        || of_days(call, case, trial)
        || of_trees(call, case, trial)
        || of_values(call, case, trial)
        || of_messages(call, case, trial)
}
