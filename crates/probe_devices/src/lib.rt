//! Calls on devices in memory, lines and whole scripts, made by cases.
#![tactic(auto)]

mod acceptors;
mod calls;
mod clocks;
mod keepers;
mod lines;
mod links;
mod poor;
mod records;
mod register;
mod runs;
mod slow;
mod writes;

pub use calls::answer_devices;
