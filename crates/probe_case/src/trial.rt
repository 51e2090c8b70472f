//! A case that is tried, and its answer, written as JSON.
use std::alloc::Global;

/// The trial of a case: the text of its answer, in which it puts the commas itself. A trial is void once an argument was missing
/// or of another kind, or there was no memory. Nothing has to stop there: what comes after is of no account.
#[derive(Drop)]
pub struct Trial {
    pub alloc: Global,
    text: Vec<u8>,
    is_void: bool,
}

const DIGITS: &[u8; 16] = b"0123456789abcdef";

impl Trial {
    pub fn new(alloc: Global) -> Trial {
        Trial {
            alloc,
            text: Vec::new(alloc),
            is_void: false,
        }
    }

    /// The answer, or None where the trial is void.
    pub fn answer(&self) -> Option<&[u8]> {
        if self.is_void {
            None
        } else {
            Some(self.text.as_slice())
        }
    }

    /// Makes the trial void.
    pub fn give_up(&mut self) {
        self.is_void = true;
    }

    /// Makes the trial void, unless something held.
    pub fn need(&mut self, holds: bool) {
        self.is_void = self.is_void || !holds;
    }

    /// Appends bytes as they are.
    pub fn put(&mut self, bytes: &[u8]) {
        self.is_void = self.is_void || self.text.extend_from_slice(bytes).is_err();
    }

    /// A comma where a value or a name stands before.
    fn separate(&mut self) {
        match self.text.as_slice().last() {
            None | Some(b'[' | b'{' | b':') => {}
            _ => self.put(b","),
        }
    }

    /// Opens a list by `[`, or an object by `{`.
    pub fn open(&mut self, bracket: &str) {
        self.separate();
        self.put(bracket.as_bytes());
    }

    /// Closes what was opened.
    pub fn close(&mut self, bracket: &str) {
        self.put(bracket.as_bytes());
    }

    /// The name of the value that comes next.
    pub fn name(&mut self, name: &str) {
        self.word(name);
        self.put(b":");
    }

    pub fn null(&mut self) {
        self.separate();
        self.put(b"null");
    }

    pub fn flag(&mut self, flag: bool) {
        self.separate();
        self.put(if flag { b"true" } else { b"false" });
    }

    pub fn whole(&mut self, number: i64) {
        self.separate();
        self.put(itoa::Buffer::new().format(number).as_bytes());
    }

    pub fn count(&mut self, number: usize) {
        self.separate();
        self.put(itoa::Buffer::new().format(number).as_bytes());
    }

    /// A number of 128 bits: a text where it passes 64 bits.
    pub fn wide(&mut self, number: i128) {
        let is_short = i128::from(i64::MIN) <= number && number <= i128::from(i64::MAX);
        self.separate();
        self.quote(is_short);
        self.put(itoa::Buffer::new().format(number).as_bytes());
        self.quote(is_short);
    }

    /// A value that is written already.
    pub fn json(&mut self, text: &[u8]) {
        self.separate();
        self.put(text);
    }

    /// Least, greatest, sum and number of values.
    pub fn parts(&mut self, min: i64, max: i64, sum: i128, count: i128) {
        self.open("[");
        self.whole(min);
        self.whole(max);
        self.wide(sum);
        self.wide(count);
        self.close("]");
    }

    fn quote(&mut self, is_short: bool) {
        if !is_short {
            self.put(b"\"");
        }
    }

    /// A byte of a text, escaped where JSON asks for it.
    fn put_byte(&mut self, byte: u8) {
        if byte == b'"' || byte == b'\\' {
            self.put(b"\\");
        }
        if byte < 32 {
            self.put(b"\\u00");
            self.put_digits(byte);
        } else {
            self.put(&[byte]);
        }
    }

    fn put_digits(&mut self, byte: u8) {
        self.put(&[DIGITS[(byte >> 4) as usize], DIGITS[(byte & 15) as usize]]);
    }

    pub fn word(&mut self, word: &str) {
        self.separate();
        self.put(b"\"");
        for byte in word.as_bytes() {
            self.put_byte(*byte);
        }
        self.put(b"\"");
    }

    /// Bytes in hexadecimal.
    pub fn hex(&mut self, bytes: &[u8]) {
        self.separate();
        self.put(b"\"");
        for byte in bytes {
            self.put_digits(*byte);
        }
        self.put(b"\"");
    }

    /// Bytes as a text, or in hexadecimal as `{"hex":"ff"}` where they are none.
    pub fn shown(&mut self, bytes: &[u8]) {
        match str::from_utf8(bytes) {
            Ok(text) => self.word(text),
            Err(_) => self.hex_object(bytes),
        }
    }

    fn hex_object(&mut self, bytes: &[u8]) {
        self.open("{");
        self.name("hex");
        self.hex(bytes);
        self.close("}");
    }

    /// Opens the answer of a call that succeeded, `{"ok":`; `}` closes it.
    pub fn ok(&mut self) {
        self.open("{");
        self.name("ok");
    }

    /// Opens the answer of a call that refused, `{"err":"KIND"`; `}` closes it.
    pub fn err(&mut self, kind: &str) {
        self.open("{");
        self.name("err");
        self.word(kind);
    }

    /// The whole answer of a call that refused and says no more.
    pub fn refused(&mut self, kind: &str) {
        self.err(kind);
        self.close("}");
    }

    /// The whole answer of a call that succeeded with a number.
    pub fn ok_whole(&mut self, number: i64) {
        self.ok();
        self.whole(number);
        self.close("}");
    }

    /// The whole answer of a call that succeeded with a flag.
    pub fn ok_flag(&mut self, flag: bool) {
        self.ok();
        self.flag(flag);
        self.close("}");
    }

    /// The whole answer of a call that succeeded with a word.
    pub fn ok_word(&mut self, word: &str) {
        self.ok();
        self.word(word);
        self.close("}");
    }

    /// The whole answer of a call that succeeded with bytes, in hexadecimal.
    pub fn ok_hex(&mut self, bytes: &[u8]) {
        self.ok();
        self.hex(bytes);
        self.close("}");
    }

    /// The whole answer of a call that succeeded with nothing.
    pub fn ok_null(&mut self) {
        self.ok();
        self.null();
        self.close("}");
    }

    /// A member that is a count.
    pub fn count_at(&mut self, name: &str, number: usize) {
        self.name(name);
        self.count(number);
    }

    /// A member that is a flag.
    pub fn flag_at(&mut self, name: &str, flag: bool) {
        self.name(name);
        self.flag(flag);
    }
}
