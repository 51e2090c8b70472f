//! Which crate makes the call of a case.
use probe_case::Trial;
use probe_columns::answer_columns;
use probe_devices::answer_devices;
use probe_index::answer_index;
use probe_questions::answer_questions;
use probe_rows::answer_rows;
use probe_segments::answer_segments;
use probe_words::answer_words;
use serde_json::Value;

/// Makes the call that a case names, and writes its answer.
pub fn answer(case: &Value, trial: &mut Trial) {
    let call = trial.word_at(case, "call");
    let is_made = answer_words(call, case, trial)
        || answer_rows(call, case, trial)
        || answer_columns(call, case, trial)
        || answer_devices(call, case, trial)
        || answer_questions(call, case, trial)
        || answer_index(call, case, trial)
        || answer_segments(call, case, trial);
    trial.need(is_made);
}
