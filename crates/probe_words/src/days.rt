//! Days, instants that are moved, and intervals of a number and a unit.
use crate::times::{instant_at, interval_at, put_interval};
use probe_case::Trial;
use serde_json::Value;
use time_text::{Interval, Unit, day_str};

pub fn print_day(case: &Value, trial: &mut Trial) {
    let day = time_text::print_day(instant_at(case, "instant", trial));
    trial.ok_word(day_str(&day));
}

pub fn later(case: &Value, trial: &mut Trial) {
    let now = instant_at(case, "now", trial);
    if let Some(interval) = interval_at(case, "by", trial) {
        trial.ok_whole(time_text::later(now, interval));
    }
}

pub fn earlier(case: &Value, trial: &mut Trial) {
    let now = instant_at(case, "now", trial);
    if let Some(interval) = interval_at(case, "by", trial) {
        trial.ok_whole(time_text::earlier(now, interval));
    }
}

pub fn later_by(case: &Value, trial: &mut Trial) {
    let now = instant_at(case, "now", trial);
    let millis = trial.number(case, "ms");
    trial.ok_whole(time_text::later_by(now, millis));
}

fn unit_at(case: &Value, trial: &mut Trial) -> Unit {
    match trial.word_at(case, "unit") {
        "ms" => Unit::Ms,
        "s" => Unit::S,
        "m" => Unit::M,
        "h" => Unit::H,
        "d" => Unit::D,
        _ => no_unit(trial),
    }
}

fn no_unit(trial: &mut Trial) -> Unit {
    trial.give_up();
    Unit::D
}

/// The interval of a number of units, or null.
pub fn interval_of(case: &Value, trial: &mut Trial) {
    let unit = unit_at(case, trial);
    match Interval::of(trial.number(case, "number").unsigned_abs(), unit) {
        Some(interval) => put_interval(interval, trial),
        None => trial.ok_null(),
    }
}
