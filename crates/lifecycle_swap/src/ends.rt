//! How far ahead of the present a window reaches.
ghost use Rattle.std.specs.Prelude.{◌≡◌};
ghost use Rattle.lifecycle_swap.specs.Ends as spec;
ghost use Rattle.time_text.specs.Instant.{IsInstant};

use time_text::later_by;

/// As far behind an instant as a template looks ahead, cut to the range of instants.
pub fn end_after(from: i64, look_ahead: i64) -> i64
    requires { IsInstant from }
    ensures { result ≡ spec.end_after from look_ahead }
{
    later_by(from, look_ahead)
}
