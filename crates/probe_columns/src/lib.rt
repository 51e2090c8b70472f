//! Calls on packed numbers and columns, made by cases.
#![tactic(auto)]

mod blocks;
mod calls;
mod columns;
mod lists;
mod ranges;
mod sweeps;
mod turns;

pub use calls::answer_columns;
