//! The rows of an index, put one by one and read in row order: spread over shards, and there over sealed segments and a
//! write buffer.
#![tactic(auto)]

mod buffer;
mod counts;
mod folds;
mod gauges;
mod index;
mod looks;
mod ordering;
mod reads;
mod refusal;
mod restorable;
mod restoring;
mod scans;
mod sealing;
mod seals;
mod series;
mod shard;
mod shards;
mod walk;

pub use index::TsdsIndex;
pub use refusal::PutError;
pub use walk::SeriesWalk;
