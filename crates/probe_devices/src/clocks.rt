//! Clocks that tell the moments of a list.
ghost use Rattle.edge_face.specs.Moments.{IsMoment};

use edge_face::{Clock, LAST_INSTANT, MemoryClock};
use probe_case::{Trial, has};
use serde_json::Value;

fn moment_at(case: &Value, name: &str, trial: &mut Trial) -> i64
    ensures { IsMoment result }
{
    let moment = trial.number(case, name);
    if 0 <= moment && moment <= LAST_INSTANT {
        moment
    } else {
        trial.give_up();
        0
    }
}

fn put_moments(clock: &mut MemoryClock, trial: &mut Trial) {
    trial.ok();
    trial.open("[");
    trial.whole(clock.now());
    trial.whole(clock.now());
    trial.whole(clock.now());
    trial.whole(clock.now());
    trial.close("]}");
}

fn tell_two(first: i64, second: i64, trial: &mut Trial)
    requires first { IsMoment first }
    requires second { IsMoment second }
{
    match Vec::from_array(trial.alloc, [first, second]) {
        Ok(moments) => put_moments(&mut MemoryClock::new(moments), trial),
        Err(_) => trial.give_up(),
    }
}

/// What a clock of two moments, or of none, tells at four calls.
pub fn tell(case: &Value, trial: &mut Trial) {
    if has(case, "first") {
        let first = moment_at(case, "first", trial);
        let second = moment_at(case, "second", trial);
        tell_two(first, second, trial);
    } else {
        put_moments(&mut MemoryClock::new(Vec::new(trial.alloc)), trial);
    }
}
