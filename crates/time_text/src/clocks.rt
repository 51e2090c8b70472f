//! Times of day and offsets from UTC, in milliseconds.
ghost use Rattle.std.specs.Prelude.{◌≡◌, ◌<◌, ◌≤◌, length, pos, neg_ℤ, IfSome, IsTrue};
ghost use Rattle.std.specs.Str.{all_ascii_digits};
ghost use Rattle.jiff_core.specs.Calendar.{IsBetween};
ghost use Rattle.time_text.specs.Instant as Instant;

use crate::shapes::{are_digits, has_shape, number};

/// The milliseconds since midnight of a text `hh:mm`, `hh:mm:ss` or `hh:mm:ss.f`, if there is such a time of day.
#[tactic(auto, unfolding(crate::specs::Instant::clock_of))]
pub fn clock_of(text: &[u8]) -> Option<u64>
    ensures value { result ≡ Instant.clock_of text.now }
    ensures bound { IfSome result (λ millis. millis < 86_400_000) }
{
    if has_shape(b"##:##", text) {
        return clock(number(text, 0, 2), number(text, 3, 5), 0, 0);
    }
    if has_shape(b"##:##:##", text) {
        return clock(
            number(text, 0, 2),
            number(text, 3, 5),
            number(text, 6, 8),
            0,
        );
    }
    exact_clock_of(text)
}

#[tactic(auto, unfolding(crate::specs::Instant::exact_clock_of))]
fn exact_clock_of(text: &[u8]) -> Option<u64>
    ensures value { result ≡ Instant.exact_clock_of text.now }
    ensures bound { IfSome result (λ millis. millis < 86_400_000) }
{
    if text.len() < 9 {
        return None;
    }
    let (seconds, fraction) = text.split_at(9);
    if !has_shape(b"##:##:##.", seconds) || !is_fraction(fraction) {
        return None;
    }
    let millis = thousandths(fraction);
    clock(
        number(seconds, 0, 2),
        number(seconds, 3, 5),
        number(seconds, 6, 8),
        millis,
    )
}

fn clock(hours: u64, minutes: u64, seconds: u64, millis: u64) -> Option<u64>
    requires { millis < 1_000 }
    ensures value { result ≡ Instant.clock hours minutes seconds millis }
    ensures bound { IfSome result (λ millis. millis < 86_400_000) }
{
    if hours <= 23 && minutes <= 59 && seconds <= 59 {
        Some(((hours * 60 + minutes) * 60 + seconds) * 1_000 + millis)
    } else {
        None
    }
}

fn is_fraction(text: &[u8]) -> bool
    ensures { result ≡ Instant.is_fraction text.now }
{
    are_digits(text) && 1 <= text.len() && text.len() <= 9
}

// Digits after the third are dropped.
#[tactic(auto, unfolding(crate::specs::Instant::thousandths))]
fn thousandths(fraction: &[u8]) -> u64
    requires digits { IsTrue (all_ascii_digits fraction.now) }
    requires some { 1 ≤ length fraction.now }
    ensures value { result ≡ Instant.thousandths fraction.now }
    ensures bound { result < 1_000 }
{
    match fraction.len() {
        1 => 100 * number(fraction, 0, 1),
        2 => 10 * number(fraction, 0, 2),
        _ => number(fraction, 0, 3),
    }
}

/// How far east of UTC a text is, in milliseconds: nothing and `Z` are UTC, `+hh:mm` is east and `-hh:mm` is west.
#[tactic(auto, unfolding(crate::specs::Instant::offset_of))]
pub fn offset_of(text: &[u8]) -> Option<i64>
    ensures value { result ≡ Instant.offset_of text.now }
    ensures bound { IfSome result (IsBetween (neg_ℤ (pos 64_800_000)) (pos 64_800_000)) }
{
    if text.is_empty() || has_shape(b"Z", text) {
        return Some(0);
    }
    if has_shape(b"+##:##", text) {
        return match offset(number(text, 1, 3), number(text, 4, 6)) {
            Some(east) => Some(east as i64),
            None => None,
        };
    }
    if has_shape(b"-##:##", text) {
        return match offset(number(text, 1, 3), number(text, 4, 6)) {
            Some(west) => Some(-(west as i64)),
            None => None,
        };
    }
    None
}

fn offset(hours: u64, minutes: u64) -> Option<u64>
    requires hours_digits { hours < 100 }
    requires minutes_digits { minutes < 100 }
    ensures value { result ≡ Instant.offset hours minutes }
    ensures bound { IfSome result (λ millis. millis ≤ 64_800_000) }
{
    let total = hours * 60 + minutes;
    if minutes <= 59 && total <= 1_080 {
        Some(total * 60_000)
    } else {
        None
    }
}
