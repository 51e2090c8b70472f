//! Days of the calendar, by their numbers.
ghost use Rattle.std.specs.Prelude.{◌≡◌, ◌≤◌, ◌<◌, pos, Some, IfSome, IsNone, None};
ghost use Rattle.jiff_core.specs.Calendar.{IsEpochDay};
ghost use Rattle.time_text.specs.Instant as Instant;
ghost use Rattle.time_text.specs.Day as Day;

use crate::shapes::{has_shape, number};
use jiff_core::civil::Date;

/// The day number of a text `YYYY-MM-DD`, counted from 1970-01-01, if the calendar has that day.
#[tactic(auto, unfolding(crate::specs::Instant::day_of))]
pub fn day_of(text: &[u8]) -> Option<i64>
    ensures value { result ≡ Instant.day_of text.now }
    ensures bound { IfSome result IsEpochDay }
{
    if !has_shape(b"####-##-##", text) {
        return None;
    }
    day_number(number(text, 0, 4), number(text, 5, 7), number(text, 8, 10))
}

#[tactic(auto, unfolding(crate::specs::Day::day_number))]
fn day_number(year: u64, month: u64, day: u64) -> Option<i64>
    requires year_digits { year < 10_000 }
    requires month_digits { month < 100 }
    requires day_digits { day < 100 }
    ensures value { result ≡ Day.day_number year month day }
    ensures bound { IfSome result IsEpochDay }
{
    match Date::new(year as i16, month as i8, day as i8) {
        Ok(date) => Some(i64::from(date.to_unix_epoch_day())),
        Err(_) => None,
    }
}
