//! Which function makes the call of a case.
use crate::{acceptors, clocks, keepers, lines, links, records, runs, writes};
use probe_case::Trial;
use serde_json::Value;

fn of_streams(call: &str, case: &Value, trial: &mut Trial) -> bool {
    match call {
        "top" => runs::run(case, trial),
        "top_with_faults" => runs::run_with_faults(case, trial),
        "run_recorded" => records::run_recorded(case, trial),
        "next_line" => lines::lines(case, trial),
        "put_all" => writes::put(case, trial),
        _ => return false,
    }
    true
}

fn of_devices(call: &str, case: &Value, trial: &mut Trial) -> bool {
    match call {
        "keeper" => keepers::keep(case, trial),
        "link" => links::move_bytes(case, trial),
        "acceptor" => acceptors::accept(case, trial),
        "clock" => clocks::tell(case, trial),
        _ => return false,
    }
    true
}

/// Makes the call of a case, if it is one of these, and writes its answer.
pub fn answer_devices(call: &str, case: &Value, trial: &mut Trial) -> bool {
    of_streams(call, case, trial) || of_devices(call, case, trial)
}
