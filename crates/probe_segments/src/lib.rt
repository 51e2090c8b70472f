//! Calls on segments, made by cases.
#![tactic(auto)]

mod calls;
mod joins;
mod looks;
mod merges;
mod places;
mod segments;
mod series;
mod sweeps;

pub use calls::answer_segments;
