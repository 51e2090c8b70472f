//! What single values are.
use edge_face::Text;
use json_walk::{NotJson, read_line, whole, whole_between};
use probe_case::Trial;
use serde_json::Value;

fn put_whole(number: Option<i64>, trial: &mut Trial) {
    match number {
        Some(number) => trial.ok_whole(number),
        None => trial.ok_null(),
    }
}

/// The whole number that a line is, or null where it is another document.
pub fn whole_of(case: &Value, trial: &mut Trial) {
    match read_line(trial.alloc, trial.bytes(case, "line").as_slice()) {
        Ok(value) => put_whole(whole(&value), trial),
        Err(NotJson::Bad) => trial.refused("Bad"),
        Err(NotJson::NoMemory) => trial.give_up(),
    }
}

/// A list of texts.
pub fn put_texts(texts: &[Text], trial: &mut Trial) {
    trial.ok();
    trial.open("[");
    for text in texts {
        trial.word(text.as_str());
    }
    trial.close("]}");
}

/// The texts that the document is, one or a list of them, or null.
pub fn texts_in(case: &Value, trial: &mut Trial) {
    match json_walk::texts(trial.alloc, &trial.parsed(case, "line")) {
        Ok(Some(texts)) => put_texts(texts.as_slice(), trial),
        Ok(None) => trial.ok_null(),
        Err(_) => trial.give_up(),
    }
}

/// The whole number that the document is, if it is from one number to another.
pub fn between(case: &Value, trial: &mut Trial) {
    let document = trial.parsed(case, "line");
    let least = trial.number(case, "least");
    let greatest = trial.number(case, "greatest");
    put_whole(whole_between(&document, least, greatest), trial);
}
