//! A table of cases, line by line.
use crate::calls::answer;
use json_walk::{has_no_other, read_line};
use probe_case::{Trial, part};
use serde_json::Value;
use std::alloc::Global;

/// What became of a line.
#[derive(Clone, Copy)]
pub enum Verdict {
    /// It is no case: it is empty, a comment, or names a template or documents for later lines.
    Nothing,
    /// What came is what was expected.
    Passed,
    Failed,
}

/// A template, or documents, that later cases take by a name.
#[derive(Drop)]
struct Named {
    name: String,
    body: Value,
}

/// What was named so far.
#[derive(Drop)]
pub struct Table {
    alloc: Global,
    named: Vec<Named>,
}

/// The place of the first arrow in a line, which stands between a call and its answer.
fn arrow_in(line: &[u8]) -> Option<usize> {
    line.windows(4).position(|part| part == b" => ".as_slice())
}

/// Whether an answer is the tree that was expected.
fn is_expected(alloc: Global, answer: &[u8], expected: &[u8]) -> Option<bool> {
    let came = read_line(alloc, answer).ok()?;
    let expected = read_line(alloc, expected).ok()?;
    Some(came == expected)
}

fn named_of(alloc: Global, line: &Value) -> Option<Named> {
    if !has_no_other(line, &["template", "body"]) {
        return None;
    }
    let name = String::from_str(alloc, line.get("template")?.as_str()?).ok()?;
    let body = line.get("body")?.clone().ok()?;
    Some(Named { name, body })
}

impl Table {
    pub fn new(alloc: Global) -> Table {
        Table {
            alloc,
            named: Vec::new(alloc),
        }
    }

    /// Tries the case of a line, whose answer the trial has then.
    pub fn check(&mut self, line: &[u8], trial: &mut Trial) -> Verdict {
        if line.is_empty() || line.starts_with(b"#") {
            return Verdict::Nothing;
        }
        match arrow_in(line) {
            Some(place) => self.judge(line, place, trial),
            None => self.note(line, trial),
        }
    }

    fn note(&mut self, line: &[u8], trial: &mut Trial) -> Verdict {
        if self.keep(line).is_some() {
            return Verdict::Nothing;
        }
        trial.give_up();
        Verdict::Failed
    }

    /// Keeps a template under a name, as `{"template":"hosts","body":{..}}` gives it.
    fn keep(&mut self, line: &[u8]) -> Option<()> {
        let line = read_line(self.alloc, line).ok()?;
        let named = named_of(self.alloc, &line)?;
        self.named.push(named).ok()
    }

    /// What has a name.
    fn body_of(&self, name: &str) -> Option<Value> {
        for named in &self.named {
            if named.name.as_str() == name {
                return named.body.clone().ok();
            }
        }
        None
    }

    /// Puts what has a name in the place of the name.
    fn put_body(&self, case: &mut Value, member: &str) -> Option<()> {
        let Some(Value::String(name)) = case.get(member) else {
            return Some(());
        };
        let body = self.body_of(name.as_str())?;
        let name = String::from_str(self.alloc, member).ok()?;
        case.as_object_mut()?.insert(name, body).ok()?;
        Some(())
    }

    /// A case, where what was named stands for its name.
    fn read_case(&self, call: &[u8]) -> Option<Value> {
        let mut case = read_line(self.alloc, call).ok()?;
        self.put_body(&mut case, "template")?;
        self.put_body(&mut case, "other")?;
        self.put_body(&mut case, "documents")?;
        Some(case)
    }

    /// Makes the call of a case, and compares its answer with the one that is expected.
    fn judge(&self, line: &[u8], place: usize, trial: &mut Trial) -> Verdict {
        match self.read_case(part(line, 0, place)) {
            Some(case) => answer(&case, trial),
            None => trial.give_up(),
        }
        let expected = part(line, place.wrapping_add(4), line.len());
        match trial.answer() {
            Some(text) => verdict_of(is_expected(self.alloc, text, expected)),
            None => Verdict::Failed,
        }
    }
}

fn verdict_of(is_expected: Option<bool>) -> Verdict {
    if is_expected == Some(true) {
        Verdict::Passed
    } else {
        Verdict::Failed
    }
}
