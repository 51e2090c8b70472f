//! Queries of searches: which rows they take.
#![tactic(auto)]

mod clauses;
mod faults;
mod laws;
mod leaves;
mod limits;
mod matching;
mod places;
mod query;
mod ranges;
mod reading;
mod splits;
mod tellers;
mod terms;
mod value_set;
mod values;

pub use laws::{aligned_go_by_bucket, limits_are_told, rests_go_by_key, splits_match};
pub use limits::MOST_TERMS;
pub use matching::matches;
pub use query::{Bound, Query};
pub use reading::{QueryError, read_query};
pub use splits::{Split, split_query};
pub use value_set::ValueSet;
pub use values::{Held, held_at, value_order, values_are_ordered};
