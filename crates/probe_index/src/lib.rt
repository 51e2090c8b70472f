//! Calls on indices, made by cases.
#![tactic(auto)]

mod calls;
mod filling;
mod reads;

pub use calls::answer_index;
