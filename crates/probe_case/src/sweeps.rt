//! Sweeps: many readings or checks, counted one by one.
use crate::trial::Trial;

/// What a reader makes of bytes.
#[derive(Clone, Copy, PartialEq)]
pub enum Reading {
    /// They are no record.
    Refused,
    /// They are the spelling of the record that was read.
    Spelled,
    /// They were taken and spell something else, or there was no memory.
    Wrong,
}

impl Reading {
    /// The reading of bytes that were taken, if it could be told whether they are the spelling of what was read.
    pub fn of_taken(is_spelled: Option<bool>) -> Reading {
        if is_spelled == Some(true) {
            Reading::Spelled
        } else {
            Reading::Wrong
        }
    }
}

/// The readings of a record whose bytes are changed and cut.
#[derive(Clone, Copy)]
pub struct Sweep {
    changes: usize,
    fronts: usize,
    taken: usize,
    wrong: usize,
}

impl Sweep {
    pub fn new() -> Sweep {
        Sweep {
            changes: 0,
            fronts: 0,
            taken: 0,
            wrong: 0,
        }
    }

    /// A change of a byte, which is no record or the spelling of another one.
    pub fn note_change(&mut self, reading: Reading) {
        self.changes = self.changes.wrapping_add(1);
        match reading {
            Reading::Refused => {}
            Reading::Spelled => self.taken = self.taken.wrapping_add(1),
            Reading::Wrong => self.wrong = self.wrong.wrapping_add(1),
        }
    }

    /// A shorter front, which is no record.
    pub fn note_front(&mut self, reading: Reading) {
        self.fronts = self.fronts.wrapping_add(1);
        self.wrong = self
            .wrong
            .wrapping_add(usize::from(reading != Reading::Refused));
    }

    /// The whole answer of a sweep: whether the record itself was read, how many changes and fronts there were, how many
    /// changes were taken, and how many readings were wrong.
    pub fn put(&self, itself: Reading, trial: &mut Trial) {
        trial.ok();
        trial.open("{");
        trial.flag_at("itself", itself == Reading::Spelled);
        trial.count_at("changes", self.changes);
        trial.count_at("fronts", self.fronts);
        trial.count_at("taken", self.taken);
        trial.count_at("wrong", self.wrong);
        trial.close("}}");
    }
}

/// How many checks there were, and how many went wrong.
#[derive(Clone, Copy)]
pub struct Checks {
    made: usize,
    wrong: usize,
}

impl Checks {
    pub fn new() -> Checks {
        Checks { made: 0, wrong: 0 }
    }

    /// Counts a check.
    pub fn note(&mut self, is_right: bool) {
        self.made = self.made.wrapping_add(1);
        self.wrong = self.wrong.wrapping_add(usize::from(!is_right));
    }

    /// The whole answer: how many checks there were under a name, and how many went wrong.
    pub fn put(&self, name: &str, trial: &mut Trial) {
        trial.ok();
        trial.open("{");
        trial.count_at(name, self.made);
        trial.count_at("wrong", self.wrong);
        trial.close("}}");
    }
}
