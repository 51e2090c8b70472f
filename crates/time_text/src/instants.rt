ghost use Rattle.std.specs.Prelude.{◌≡◌, ◌<◌, ◌≤◌, ◌↔◌, length, Some, None, IfOk, IsErr, pos, neg_ℤ, ◌+ℤ◌, ◌-ℤ◌, ◌*ℤ◌, IfSome, IsTrue};
ghost use Rattle.time_text.specs.Instant as Instant;
ghost use Rattle.time_text.specs.Instant.{instant_of, IsInstant};
ghost use Rattle.jiff_core.specs.Calendar.{IsBetween, IsEpochDay};

use crate::clocks::{clock_of, offset_of};
use crate::days::day_of;
use crate::shapes::{are_digits, whole_number};
use edge_face::LAST_INSTANT;
use thiserror::Error;

const DAY: i64 = 86_400_000;

/// A text that is no instant.
#[derive(Clone, Copy, Debug, PartialEq, Eq, Error)]
#[error("not an instant")]
pub struct NotInstant;

/// Whether a number of milliseconds since 1970-01-01T00:00:00Z is an instant: from 0 to the last of the year 9999.
pub fn is_instant(time: i64) -> bool
    ensures { IsTrue result ↔ IsInstant time }
{
    0 <= time && time <= LAST_INSTANT
}

/// Reads an instant, in milliseconds since 1970-01-01T00:00:00Z.
///
/// A text is a day `YYYY-MM-DD` of ISO 8601, or a day, a `T` and a time `hh:mm`, `hh:mm:ss` or
/// `hh:mm:ss.f` with one to nine digits of fraction, of which those after the third are dropped, and
/// then `Z`, `+hh:mm`, `-hh:mm` or nothing, which is UTC. Or it is 5 to 15 digits, a number of
/// milliseconds. An offset is at most 18 hours. What isn't from 1970 to 9999 is refused.
pub fn read_instant(text: &str) -> Result<i64, NotInstant>
    ensures value { IfOk result (λ t. instant_of text.now ≡ Some t) }
    ensures refused { IsErr result ↔ (instant_of text.now ≡ None) }
    ensures in_range { IfOk result IsInstant }
{
    match instant_in(text.as_bytes()) {
        Some(instant) => Ok(instant),
        None => Err(NotInstant),
    }
}

#[tactic(auto, unfolding(crate::specs::Instant::instant_of))]
pub fn instant_in(text: &[u8]) -> Option<i64>
    ensures value { result ≡ instant_of text.now }
    ensures in_range { IfSome result IsInstant }
{
    let written = written_of(text)?;
    if is_instant(written) {
        Some(written)
    } else {
        None
    }
}

#[tactic(auto, unfolding(crate::specs::Instant::written_of))]
fn written_of(text: &[u8]) -> Option<i64>
    ensures { result ≡ Instant.written_of text.now }
{
    if are_digits(text) {
        if 5 <= text.len() && text.len() <= 15 {
            return Some(whole_number(text) as i64);
        }
        return None;
    }
    if text.len() <= 10 {
        return match day_of(text) {
            Some(day) => Some(day * DAY),
            None => None,
        };
    }
    date_time_of(text)
}

#[tactic(auto, unfolding(crate::specs::Instant::date_time_of))]
fn date_time_of(text: &[u8]) -> Option<i64>
    requires { 10 < length text.now }
    ensures { result ≡ Instant.date_time_of text.now }
{
    if text[10] != b'T' {
        return None;
    }
    let day = day_of(&text[..10])?;
    let rest = &text[11..];
    let (clock, offset) = rest.split_at(offset_place(rest));
    let clock = clock_of(clock)?;
    let offset = offset_of(offset)?;
    Some(moment(day, clock, offset))
}

fn moment(day: i64, clock: u64, offset: i64) -> i64
    requires day_in { IsEpochDay day }
    requires clock_in { clock < 86_400_000 }
    requires offset_in { IsBetween (neg_ℤ (pos 64_800_000)) (pos 64_800_000) offset }
    ensures { result ≡ day *ℤ pos 86_400_000 +ℤ pos clock -ℤ offset }
{
    day * DAY + clock as i64 - offset
}

fn begins_offset(byte: u8) -> bool
    ensures { result ≡ Instant.begins_offset byte }
{
    byte == b'Z' || byte == b'+' || byte == b'-'
}

fn offset_place(text: &[u8]) -> usize
    ensures value { result ≡ Instant.offset_place text.now }
    ensures bound { result ≤ length text.now }
{
    for (place, byte) in text.iter().enumerate() {
        if begins_offset(*byte) {
            return place;
        }
    }
    text.len()
}
