ghost use Rattle.std.specs.Prelude.{◌≡◌, ◌*◌, ◌≤◌, ◌↔◌, length, take, IsTrue, pos, Some, None, IfOk, IsErr, IfSome, IfNone};
ghost use Rattle.std.specs.Int.{IsInRange};
ghost use Rattle.std.specs.Char.{is_ascii_digit};
ghost use Rattle.std.specs.List.{prefix_len};
ghost use Rattle.std.specs.Str.{all_ascii_digits};
ghost use Rattle.time_text.specs.Count as Count;
ghost use Rattle.time_text.specs.Count.{longest};
ghost use Rattle.time_text.specs.Bucket.{bucket_start};
ghost use Rattle.time_text.specs.Unit.{unit_ms};

use crate::Unit;
use crate::shapes::whole_number;
use edge_face::LAST_INSTANT;
use std::fmt;
use thiserror::Error;

/// The longest interval, in milliseconds: as many as the last instant is behind the first.
pub const LONGEST_INTERVAL: u64 = LAST_INSTANT as u64;

/// A text that is no interval.
#[derive(Clone, Copy, Debug, PartialEq, Eq, Error)]
#[error("not an interval")]
pub struct NotInterval;

/// A length of time as it is written: a number of units.
#[derive(Clone, Copy, Debug, PartialEq, Eq)]
pub struct Interval {
    pub number: u64,
    pub unit: Unit,
    pub ghost in_range: { IsInRange 1 longest (number * unit_ms unit) },
}

impl Interval {
    ghost use Rattle.time_text.specs.Instant.{IsInstant};
    ghost use Rattle.time_text.specs.Interval.{ms_of, interval_of, interval_in, interval_with, with_value_in_range};

    /// Reads a number of one to fifteen digits without a leading zero, and a unit `ms`, `s`, `m`, `h` or
    /// `d`. The length is from one millisecond to `LONGEST_INTERVAL`.
    pub fn read(text: &str) -> Result<Interval, NotInterval>
        ensures interval { IfOk result (λ i. interval_in text.now ≡ Some i) }
        ensures none { IsErr result ↔ (interval_in text.now ≡ None) }
        ensures value { IfOk result (λ i. interval_of text.now ≡ Some (i.number, i.unit)) }
        ensures refused { IsErr result ↔ (interval_of text.now ≡ None) }
    {
        match Interval::read_parts(text) {
            Some(interval) => Ok(interval),
            None => Err(NotInterval),
        }
    }

    #[tactic(auto, unfolding(crate::specs::Interval::interval_of))]
    fn read_parts(text: &str) -> Option<Interval>
        ensures some { IfSome result (λ i. interval_of text.now ≡ Some (i.number, i.unit)) }
        ensures none { IfNone result (interval_of text.now ≡ None) }
    {
        let bytes = text.as_bytes();
        let (digits, unit) = bytes.split_at(digits_end(bytes));
        if !is_count(digits) {
            return None;
        }
        let number = whole_number(digits);
        match Unit::read(unit) {
            Some(unit) => Interval::of(number, unit),
            None => None,
        }
    }

    /// The interval of so many units, if it has an allowed length.
    pub fn of(number: u64, unit: Unit) -> Option<Interval>
        ensures is { result ≡ interval_with number unit }
        ensures some { IfSome result (λ i. with_value_in_range number unit ≡ Some (i.number, i.unit)) }
        ensures none { IfNone result (with_value_in_range number unit ≡ None) }
    {
        match number.checked_mul(unit.ms()) {
            Some(millis) if 1 <= millis && millis <= LONGEST_INTERVAL => Some(Interval {
                number,
                unit,
            }),
            _ => None,
        }
    }

    /// How many milliseconds it has.
    pub fn ms(&self) -> i64
        ensures { result ≡ pos (ms_of self.now) }
    {
        (self.number * self.unit.ms()) as i64
    }

    /// The start of the bucket of this length that has the instant: the greatest whole multiple of the
    /// length that is at most the instant.
    #[tactic(auto, unfolding(crate::specs::Bucket::bucket_start))]
    pub fn start_of(&self, t: i64) -> i64
        requires { IsInstant t }
        ensures value { result ≡ bucket_start (ms_of self.now) t }
        ensures in_range { IsInstant result }
    {
        let length = self.number * self.unit.ms();
        let moment = t as u64;
        (moment / length * length) as i64
    }
}

impl fmt::Display for Interval {
    ghost use Rattle.time_text.specs.Interval.{interval_text};

    ghost output = { λ i. Some (interval_text i.number i.unit) };

    fn fmt<W: fmt::Write>(&self, f: &mut fmt::Formatter<W>) -> fmt::Result {
        write!(f, "{}{}", self.number, self.unit)
    }
}

// How many digits the text begins with.
fn digits_end(text: &[u8]) -> usize
    ensures value { result ≡ prefix_len is_ascii_digit text.now }
    ensures bound { result ≤ length text.now }
    ensures digits { IsTrue (all_ascii_digits (take result text.now)) }
{
    for (place, byte) in text.iter().enumerate() {
        if !byte.is_ascii_digit() {
            return place;
        }
    }
    text.len()
}

fn is_count(digits: &[u8]) -> bool
    ensures { result ≡ Count.is_count digits.now }
{
    1 <= digits.len() && digits.len() <= 15 && digits[0] != b'0'
}
