//! The arguments of a case. Where one is missing or of another kind, or there is no memory for it, the trial becomes void and the
//! argument is 0, null, or empty.
use crate::lists::numbers_in;
use crate::pieces::bytes_of;
use crate::trial::Trial;
use json_walk::{read_line, whole};
use serde_json::Value;
use std::alloc::Global;

/// Whether a case has a member.
pub fn has(case: &Value, name: &str) -> bool {
    case.get(name).is_some()
}

/// Whether a member is there and true.
pub fn is_set(case: &Value, name: &str) -> bool {
    match case.get(name) {
        Some(member) => member.as_bool() == Some(true),
        None => false,
    }
}

/// A whole number, or another one where the case has none.
pub fn number_or(case: &Value, name: &str, otherwise: i64) -> i64 {
    match case.get(name) {
        Some(member) => whole(member).unwrap_or(otherwise),
        None => otherwise,
    }
}

/// The whole number that a member is, or another one where there is no such member.
pub fn optional_number(tree: &Value, name: &str, otherwise: i64) -> Option<i64> {
    match tree.get(name) {
        Some(member) => whole(member),
        None => Some(otherwise),
    }
}

/// Whether a member is true; one that isn't there is false.
pub fn optional_flag(tree: &Value, name: &str) -> Option<bool> {
    match tree.get(name) {
        Some(member) => member.as_bool(),
        None => Some(false),
    }
}

/// The elements of the list that a member is; of one that isn't there none.
pub fn optional_list<'a>(tree: &'a Value, name: &str) -> Option<&'a [Value]> {
    match tree.get(name) {
        Some(Value::Array(list)) => Some(list.as_slice()),
        Some(_) => None,
        None => Some(&[]),
    }
}

/// The elements of a list, or none where the case has no such list.
pub fn list_or_none<'a>(case: &'a Value, name: &str) -> &'a [Value] {
    match case.get(name) {
        Some(Value::Array(list)) => list.as_slice(),
        _ => &[],
    }
}

fn text_of(alloc: Global, value: &Value) -> Option<String> {
    let bytes = bytes_of(alloc, value)?;
    let text = str::from_utf8(bytes.as_slice()).ok()?;
    String::from_str(alloc, text).ok()
}

fn parsed_of(alloc: Global, value: &Value) -> Option<Value> {
    read_line(alloc, bytes_of(alloc, value)?.as_slice()).ok()
}

fn counts_of(alloc: Global, case: &Value, name: &str) -> Option<Vec<u64>> {
    let mut counts = Vec::new(alloc);
    for element in optional_list(case, name)? {
        counts.push(element.as_u64()?).ok()?;
    }
    Some(counts)
}

fn words_of<'a>(alloc: Global, list: &'a [Value]) -> Option<Vec<&'a str>> {
    let mut words = Vec::new(alloc);
    for element in list {
        words.push(element.as_str()?).ok()?;
    }
    Some(words)
}

impl Trial {
    /// The elements of a list.
    pub fn list<'a>(&mut self, case: &'a Value, name: &str) -> &'a [Value] {
        match case.get(name) {
            Some(Value::Array(list)) => list.as_slice(),
            _ => self.no_list(),
        }
    }

    fn no_list(&mut self) -> &'static [Value] {
        self.give_up();
        &[]
    }

    /// A whole number of signed 64 bits.
    pub fn number(&mut self, case: &Value, name: &str) -> i64 {
        match case.get(name) {
            Some(member) => self.whole_of(member),
            None => self.no_number(),
        }
    }

    /// The whole number that an element is.
    pub fn whole_of(&mut self, element: &Value) -> i64 {
        match whole(element) {
            Some(number) => number,
            None => self.no_number(),
        }
    }

    fn no_number(&mut self) -> i64 {
        self.give_up();
        0
    }

    /// The text that an element is.
    pub fn word_of<'a>(&mut self, element: &'a Value) -> &'a str {
        match element {
            Value::String(word) => word.as_str(),
            _ => self.no_word(),
        }
    }

    fn no_word(&mut self) -> &'static str {
        self.give_up();
        ""
    }

    /// A text that stands in the case as it is.
    pub fn word_at<'a>(&mut self, case: &'a Value, name: &str) -> &'a str {
        match case.get(name) {
            Some(member) => self.word_of(member),
            None => self.no_word(),
        }
    }

    /// A text that stands in the case as it is, if it has one.
    pub fn optional_word<'a>(&mut self, case: &'a Value, name: &str) -> Option<&'a str> {
        match case.get(name) {
            Some(member) => Some(self.word_of(member)),
            None => None,
        }
    }

    /// A whole number, or another one where the case has none.
    pub fn number_or(&mut self, case: &Value, name: &str, otherwise: i64) -> i64 {
        match case.get(name) {
            Some(member) => self.whole_of(member),
            None => otherwise,
        }
    }

    /// Whole numbers of a list that the case may have.
    pub fn counts(&mut self, case: &Value, name: &str) -> Vec<u64> {
        match counts_of(self.alloc, case, name) {
            Some(counts) => counts,
            None => self.nothing(),
        }
    }

    fn nothing<T>(&mut self) -> Vec<T> {
        self.give_up();
        Vec::new(self.alloc)
    }

    /// Whole numbers: each element is one, or stands for many.
    pub fn numbers(&mut self, case: &Value, name: &str) -> Vec<i64> {
        match numbers_in(self.alloc, self.list(case, name)) {
            Some(numbers) => numbers,
            None => self.nothing(),
        }
    }

    /// Texts of a list.
    pub fn words<'a>(&mut self, case: &'a Value, name: &str) -> Vec<&'a str> {
        match words_of(self.alloc, self.list(case, name)) {
            Some(words) => words,
            None => self.nothing(),
        }
    }

    /// The bytes that a piece is, or a list of pieces.
    pub fn bytes_of(&mut self, value: &Value) -> Vec<u8> {
        match bytes_of(self.alloc, value) {
            Some(bytes) => bytes,
            None => self.nothing(),
        }
    }

    /// Bytes: a piece, or a list of pieces.
    pub fn bytes(&mut self, case: &Value, name: &str) -> Vec<u8> {
        match case.get(name) {
            Some(member) => self.bytes_of(member),
            None => self.nothing(),
        }
    }

    /// A text: bytes of UTF-8.
    pub fn text(&mut self, case: &Value, name: &str) -> String {
        match case.get(name) {
            Some(member) => self.text_of(member),
            None => self.no_text(),
        }
    }

    fn text_of(&mut self, value: &Value) -> String {
        match text_of(self.alloc, value) {
            Some(text) => text,
            None => self.no_text(),
        }
    }

    fn no_text(&mut self) -> String {
        self.give_up();
        String::new(self.alloc)
    }

    fn parsed_of(&mut self, value: &Value) -> Value {
        match parsed_of(self.alloc, value) {
            Some(tree) => tree,
            None => self.no_tree(),
        }
    }

    fn no_tree(&mut self) -> Value {
        self.give_up();
        Value::Null
    }

    /// The tree that a text is.
    pub fn parsed(&mut self, case: &Value, name: &str) -> Value {
        match case.get(name) {
            Some(text) => self.parsed_of(text),
            None => self.no_tree(),
        }
    }

    /// A copy of a tree.
    pub fn copied(&mut self, tree: &Value) -> Value {
        match tree.clone() {
            Ok(copy) => copy,
            Err(_) => self.no_tree(),
        }
    }

    /// A tree, which stands in the case as it is, or as its text under another name.
    pub fn tree_at(&mut self, case: &Value, name: &str, text: &str) -> Value {
        match case.get(name) {
            Some(tree) => self.copied(tree),
            None => self.parsed(case, text),
        }
    }
}
