//! Instants, moments and intervals, read and printed.
ghost use Rattle.time_text.specs.Instant.{IsInstant};

use probe_case::Trial;
use serde_json::Value;
use time_text::{Interval, NotInstant, print_instant, printed_str, read_instant, read_moment_expr};

fn put_instant(read: Result<i64, NotInstant>, trial: &mut Trial) {
    match read {
        Ok(instant) => trial.ok_whole(instant),
        Err(_) => trial.refused("NotInstant"),
    }
}

pub fn read(case: &Value, trial: &mut Trial) {
    put_instant(read_instant(trial.text(case, "text").as_str()), trial);
}

/// An instant of a case.
pub fn instant_at(case: &Value, name: &str, trial: &mut Trial) -> i64
    ensures { IsInstant result }
{
    let instant = trial.number(case, name);
    if time_text::is_instant(instant) {
        instant
    } else {
        trial.give_up();
        0
    }
}

/// The text of an instant.
pub fn print(case: &Value, trial: &mut Trial) {
    let text = print_instant(instant_at(case, "instant", trial));
    trial.ok_word(printed_str(&text));
}

pub fn is_instant(case: &Value, trial: &mut Trial) {
    let time = trial.number(case, "time");
    trial.ok_flag(time_text::is_instant(time));
}

/// The milliseconds of an interval, and how it is printed.
pub fn put_interval(interval: Interval, trial: &mut Trial) {
    let Ok(printed) = format!(in trial.alloc; "{interval}") else {
        trial.give_up();
        return;
    };
    trial.ok();
    trial.open("{");
    trial.name("ms");
    trial.whole(interval.ms());
    trial.name("printed");
    trial.word(printed.as_str());
    trial.close("}}");
}

pub fn interval(case: &Value, trial: &mut Trial) {
    match Interval::read(trial.text(case, "text").as_str()) {
        Ok(interval) => put_interval(interval, trial),
        Err(_) => trial.refused("NotInterval"),
    }
}

/// The interval of a case. Without one the trial is void.
pub fn interval_at(case: &Value, name: &str, trial: &mut Trial) -> Option<Interval> {
    let interval = Interval::read(trial.text(case, name).as_str());
    trial.need(interval.is_ok());
    interval.ok()
}

pub fn start_of(case: &Value, trial: &mut Trial) {
    let instant = instant_at(case, "instant", trial);
    if let Some(interval) = interval_at(case, "interval", trial) {
        trial.ok_whole(interval.start_of(instant));
    }
}

pub fn moment(case: &Value, trial: &mut Trial) {
    let now = instant_at(case, "now", trial);
    put_instant(
        read_moment_expr(trial.text(case, "text").as_str(), now),
        trial,
    );
}
