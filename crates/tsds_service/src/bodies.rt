//! Intervals in bodies, and the body of a downsampling.
ghost use Rattle.std.specs.Prelude.{◌≡◌};
ghost use Rattle.lifecycle_swap.specs.Bodies.{interval_read};
ghost use Rattle.serde_json.specs.View.{view};
ghost use Rattle.tsds_service.specs.Bodies.{fixed_interval_of};

use json_walk::has_names;
use serde_json::Value;
use time_text::Interval;

/// The interval that a value is.
pub(crate) fn interval_in(value: &Value) -> Option<Interval>
    ensures { result ≡ interval_read (view value.now) }
{
    match Interval::read(value.as_str()?) {
        Ok(interval) => Some(interval),
        Err(_) => None,
    }
}

/// The interval of a downsampling: the body's one member.
pub(crate) fn fixed_interval(body: &Value) -> Option<Interval>
    ensures { result ≡ fixed_interval_of (view body.now) }
{
    if !has_names(body, &["fixed_interval"]) {
        return None;
    }
    interval_in(body.get("fixed_interval")?)
}
