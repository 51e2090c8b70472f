//! The shard that a series goes to, by the dimensions that route.
#![tactic(auto)]

mod hashing;
mod routing;
mod shards;

pub use shards::shard_of;
