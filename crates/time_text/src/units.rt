ghost use Rattle.std.specs.Prelude.{◌≡◌, Some};
ghost use Rattle.time_text.specs.Unit.{unit_ms, unit_text, unit_of};

use crate::shapes::has_shape;
use std::fmt;

/// What an interval counts.
#[derive(Clone, Copy, Debug, PartialEq, Eq)]
pub enum Unit {
    /// Milliseconds, `ms`.
    Ms,
    /// Seconds, `s`.
    S,
    /// Minutes, `m`.
    M,
    /// Hours, `h`.
    H,
    /// Days of 24 hours, `d`.
    D,
}

impl Unit {
    /// The unit that the text names.
    #[tactic(auto, unfolding(crate::specs::Unit::unit_of))]
    pub(crate) fn read(text: &[u8]) -> Option<Unit>
        ensures { result ≡ unit_of text.now }
    {
        if has_shape(b"ms", text) {
            return Some(Unit::Ms);
        }
        if has_shape(b"s", text) {
            return Some(Unit::S);
        }
        if has_shape(b"m", text) {
            return Some(Unit::M);
        }
        if has_shape(b"h", text) {
            return Some(Unit::H);
        }
        if has_shape(b"d", text) {
            return Some(Unit::D);
        }
        None
    }

    /// How many milliseconds one of it has.
    pub fn ms(self) -> u64
        ensures { result ≡ unit_ms self }
    {
        match self {
            Unit::Ms => 1,
            Unit::S => 1_000,
            Unit::M => 60_000,
            Unit::H => 3_600_000,
            Unit::D => 86_400_000,
        }
    }

    /// How it is written.
    pub fn text(self) -> &'static str
        ensures { result.now ≡ unit_text self }
    {
        match self {
            Unit::Ms => "ms",
            Unit::S => "s",
            Unit::M => "m",
            Unit::H => "h",
            Unit::D => "d",
        }
    }
}

impl fmt::Display for Unit {
    ghost output = { λ unit. Some (unit_text unit) };

    fn fmt<W: fmt::Write>(&self, f: &mut fmt::Formatter<W>) -> fmt::Result {
        f.write_str(self.text())
    }
}
