ghost use Rattle.std.specs.Prelude.{◌≡◌, ◌<◌, ◌≤◌, ◌↔◌, Some, None, IfOk, IsErr, length, pos, ◌+ℤ◌, ◌-ℤ◌};
ghost use Rattle.time_text.specs.Instant.{IsInstant};
ghost use Rattle.time_text.specs.Interval.{ms_of};
ghost use Rattle.time_text.specs.Moment.{moment_of, cut};

use crate::{Interval, NotInstant, read_instant};
use edge_face::LAST_INSTANT;

/// Reads a moment expression: an instant text, or `now`, `now+` or `now-` with an interval, cut to the
/// range of instants.
#[tactic(auto, unfolding(crate::specs::Moment::moment_of))]
pub fn read_moment_expr(text: &str, now: i64) -> Result<i64, NotInstant>
    requires { IsInstant now }
    ensures value { IfOk result (λ t. moment_of now text.now ≡ Some t) }
    ensures refused { IsErr result ↔ (moment_of now text.now ≡ None) }
    ensures in_range { IfOk result IsInstant }
{
    if text == "now" {
        return Ok(now);
    }
    if let Some(interval) = text.strip_prefix("now+") {
        return match Interval::read(interval) {
            Ok(interval) => Ok(later(now, interval)),
            Err(_) => Err(NotInstant),
        };
    }
    if let Some(interval) = text.strip_prefix("now-") {
        return match Interval::read(interval) {
            Ok(interval) => Ok(earlier(now, interval)),
            Err(_) => Err(NotInstant),
        };
    }
    read_instant(text)
}

/// An interval later, and no later than the last instant.
pub fn later(now: i64, by: Interval) -> i64
    requires { IsInstant now }
    ensures value { result ≡ cut (now +ℤ pos (ms_of by)) }
    ensures in_range { IsInstant result }
{
    later_by(now, by.ms())
}

/// So many milliseconds later, cut to the range of instants.
pub fn later_by(now: i64, millis: i64) -> i64
    requires { IsInstant now }
    ensures value { result ≡ cut (now +ℤ millis) }
    ensures in_range { IsInstant result }
{
    cut(now.saturating_add(millis))
}

/// An interval earlier, and no earlier than the first instant.
pub fn earlier(now: i64, by: Interval) -> i64
    requires { IsInstant now }
    ensures value { result ≡ cut (now -ℤ pos (ms_of by)) }
    ensures in_range { IsInstant result }
{
    cut(now - by.ms())
}

fn cut(t: i64) -> i64
    ensures value { result ≡ cut t }
    ensures in_range { IsInstant result }
{
    t.min(LAST_INSTANT).max(0)
}
