//! The stream, the day and the generation that a backing index's name tells.
ghost use Rattle.std.specs.Prelude.{◌≡◌, ◌↔◌, ◌<◌, ◌≤◌, ◌+◌, ℤ, None, Some, length, IfSome, IsTrue, MatchOption};
ghost use Rattle.time_text.specs.Instant.{IsInstant};
ghost use Rattle.time_text.specs.Printed.{instant_text};
ghost use Rattle.index_names.specs.Names as names;
ghost use Rattle.index_names.specs.Reading.{IsBackingName, IsToldBy, IsDayOf, IsNoDay, IsGenerationOf, IsNoGeneration, IsCutOf, IsFramed, midnight};

use crate::backing::{BEFORE_STREAM, BEHIND_STREAM, six_digits};
use crate::names::is_stream_name;
use time_text::{print_day, read_instant};

/// What a backing index's name tells.
#[derive(Clone, Copy, Debug, PartialEq, Eq)]
pub struct BackingName<'a> {
    pub stream: &'a str,
    /// The first instant of its UTC day.
    pub day: i64,
    /// 1 to 999,999.
    pub generation: u32,
}

const DAY: u64 = 86_400_000;

// A name in the pieces of which a backing index's name is made.
#[derive(Clone, Copy)]
struct Cut<'a> {
    mark: &'a [u8],
    stream: &'a [u8],
    first_hyphen: &'a [u8],
    day: &'a [u8],
    second_hyphen: &'a [u8],
    generation: &'a [u8],
}

fn cut_name(name: &[u8]) -> Option<Cut<'_>>
    ensures { MatchOption result (length name.now < 22) (λ c. IsCutOf c name.now) }
{
    if name.len() < BEFORE_STREAM + BEHIND_STREAM {
        return None;
    }
    let (front, behind) = name.split_at(name.len() - BEHIND_STREAM);
    let (mark, stream) = front.split_at(BEFORE_STREAM);
    let (first_hyphen, behind) = behind.split_at(1);
    let (day, behind) = behind.split_at(10);
    let (second_hyphen, generation) = behind.split_at(1);
    Some(Cut {
        mark,
        stream,
        first_hyphen,
        day,
        second_hyphen,
        generation,
    })
}

// The instant that a text is, where all of it is written.
fn read_written(written: &[u8; 24]) -> Option<i64>
    ensures instant { IfSome result IsInstant }
    ensures reads { (t : ℤ) → IsInstant t → written.now ≡ instant_text t → result ≡ Some t }
{
    let Ok(text) = str::from_utf8(written) else {
        return None;
    };
    match read_instant(text) {
        Ok(instant) => Some(instant),
        Err(_) => None,
    }
}

// The first instant of an instant's day.
fn midnight_of(instant: i64) -> i64
    requires { IsInstant instant }
    ensures instant { IsInstant result }
    ensures midnight { result ≡ midnight instant }
{
    (instant as u64 / DAY * DAY) as i64
}

// The first instant of a day that is shown as `yyyy.MM.dd`. It is read as an instant of ISO 8601, and printed again.
fn read_day(shown: &[u8]) -> Option<i64>
    requires { length shown.now ≡ 10 }
    ensures day { IfSome result (λ day. IsDayOf day shown.now) }
    ensures none { result ≡ None → IsNoDay shown.now }
{
    let written = [
        shown[0], shown[1], shown[2], shown[3], b'-', shown[5], shown[6], b'-', shown[8], shown[9],
        b'T', b'0', b'0', b':', b'0', b'0', b':', b'0', b'0', b'.', b'0', b'0', b'0', b'Z',
    ];
    let Some(instant) = read_written(&written) else {
        return None;
    };
    let day = midnight_of(instant);
    if print_day(day).as_slice() == shown {
        Some(day)
    } else {
        None
    }
}

fn digit_value(byte: u8) -> u32
    ensures small { result < 10 }
    ensures digit { 48 ≤ byte → byte < 58 → 48 + result ≡ byte }
{
    if byte.is_ascii_digit() {
        u32::from(byte - b'0')
    } else {
        0
    }
}

// The number that six digits show, where it is a generation.
fn read_generation(shown: &[u8]) -> Option<u32>
    requires { length shown.now ≡ 6 }
    ensures generation { IfSome result (λ n. IsGenerationOf n shown.now) }
    ensures none { result ≡ None → IsNoGeneration shown.now }
{
    let high = digit_value(shown[0]) * 10 + digit_value(shown[1]);
    let middle = digit_value(shown[2]) * 10 + digit_value(shown[3]);
    let low = digit_value(shown[4]) * 10 + digit_value(shown[5]);
    let number = high * 10_000 + middle * 100 + low;
    if number > 0 && six_digits(number).as_slice() == shown {
        Some(number)
    } else {
        None
    }
}

fn stream_str(stream: &[u8]) -> Option<&str>
    ensures { MatchOption result (IsTrue (names.is_stream_name stream.now) → ⊥) (λ s. IsTrue (names.is_stream_name stream.now) × (s.now ≡ stream.now)) }
{
    if !is_stream_name(stream) {
        return None;
    }
    match str::from_utf8(stream) {
        Ok(name) => Some(name),
        Err(_) => None,
    }
}

// Whether the pieces that every backing index's name has are there.
fn is_framed(cut: &Cut<'_>) -> bool
    ensures { IsTrue result ↔ IsFramed cut.now }
{
    cut.mark == b".ds-".as_slice()
        && cut.first_hyphen == b"-".as_slice()
        && cut.second_hyphen == b"-".as_slice()
}

/// The stream, the day and the generation of a backing index's name, `.ds-<stream>-<yyyy.MM.dd>-<generation>`; nothing where
/// the bytes are no such name. The stream has the name of a stream, the day is one of the calendar from 1970 to 9999, and the
/// generation has six digits, from 000001 to 999999.
pub fn read_backing_name(name: &[u8]) -> Option<BackingName<'_>>
    ensures told { IfSome result (λ b. IsToldBy b.stream.now b.day b.generation name.now) }
    ensures none { result ≡ None → IsBackingName name.now → ⊥ }
{
    let cut = cut_name(name)?;
    if !is_framed(&cut) {
        return None;
    }
    let stream = stream_str(cut.stream)?;
    let day = read_day(cut.day)?;
    let generation = read_generation(cut.generation)?;
    Some(BackingName {
        stream,
        day,
        generation,
    })
}

/// Whether bytes are a backing index's name.
pub fn is_backing_name(name: &[u8]) -> bool
    ensures { IsTrue result ↔ IsBackingName name.now }
{
    read_backing_name(name).is_some()
}
