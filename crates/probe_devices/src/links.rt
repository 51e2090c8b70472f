//! Links: bytes that are taken from them and put to them.
use edge_face::{Bytes, Link, MemoryLink};
use probe_case::{Trial, number_or, part};
use serde_json::Value;

/// The longest piece that a case takes at a time.
const LONGEST: usize = 16;

/// Takes bytes: those that came, or `"Failed"`.
pub fn take<L: Link>(link: &mut L, most: usize, trial: &mut Trial) {
    let mut buffer = [0u8; LONGEST];
    let taken = link.take(&mut buffer[..most.min(LONGEST)]);
    match taken {
        Ok(n) => trial.shown(part(&buffer, 0, n)),
        Err(_) => trial.word("Failed"),
    }
}

/// Puts bytes: how many went, or `"Failed"`.
pub fn put<L: Link>(link: &mut L, piece: &str, trial: &mut Trial) {
    match link.put(piece.as_bytes()) {
        Ok(n) => trial.count(n),
        Err(_) => trial.word("Failed"),
    }
}

/// `{"take":5}` or `{"put":"ab"}`.
fn step<L: Link>(link: &mut L, step: &Value, trial: &mut Trial) {
    match step.get("put") {
        Some(piece) => put(link, trial.word_of(piece), trial),
        None => take(
            link,
            trial.number(step, "take").unsigned_abs() as usize,
            trial,
        ),
    }
}

fn put_steps(link: &mut MemoryLink, steps: &[Value], trial: &mut Trial) {
    trial.open("{");
    trial.name("steps");
    trial.open("[");
    for one in steps {
        step(link, one, trial);
    }
    trial.close("]");
    trial.name("given");
    trial.shown(link.given());
    trial.close("}");
}

/// The answers of the calls on a link, some of which fail, and what it was given.
pub fn move_bytes(case: &Value, trial: &mut Trial) {
    let left = Bytes::from_vec(trial.bytes(case, "left"));
    let room = number_or(case, "room", 1_000).unsigned_abs();
    let fails = trial.counts(case, "fails");
    let steps = trial.list(case, "steps");
    match MemoryLink::new(trial.alloc, left, room, fails) {
        Ok(link) => {
            let mut link = link;
            put_steps(&mut link, steps, trial);
        }
        Err(_) => trial.give_up(),
    }
}
