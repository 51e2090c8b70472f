//! Texts of instants and intervals, read and printed. An instant is a number of milliseconds since
//! 1970-01-01T00:00:00Z, from 0 to the last of the year 9999. No call takes memory.
#![tactic(auto)]

mod clocks;
mod days;
mod instants;
mod intervals;
mod laws;
mod moments;
mod printing;
mod shapes;
mod units;

pub use instants::{NotInstant, is_instant, read_instant};
pub use intervals::{Interval, LONGEST_INTERVAL, NotInterval};
pub use laws::{
    bucket_is_greatest, buckets_nest, interval_reads_back, printed_dates_are_civil,
    printed_reads_back,
};
pub use moments::{earlier, later, later_by, read_moment_expr};
pub use printing::{day_str, print_day, print_instant, printed_str};
pub use units::Unit;
