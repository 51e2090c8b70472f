//! Aggregations over rows: what is asked of them, and what they answer.
#![tactic(auto)]

mod agg_state;
mod aggs;
mod answers;
mod errors;
mod held;
mod laws;
mod limits;
mod merging;
mod metrics;
mod offers;
mod ordering;
mod pieces;
mod reading;
mod rises;
mod saying;
mod series_keys;
mod starts;
mod state;
mod tallies;
mod value_keys;
mod wrongs;

pub use agg_state::AggState;
pub use aggs::{Agg, AggKind};
pub use errors::AggError;
pub use laws::{aggs_alike, alike_lists, indices_agree, limits_are_told, tallies_are_metrics};
pub use limits::MOST_BUCKETS;
pub use metrics::{metric_out, told};
pub use reading::read_aggs;
pub use tallies::{Tally, tally_of};
