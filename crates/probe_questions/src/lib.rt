//! Calls on searches, made by cases.
#![tactic(auto)]

mod aggs;
mod calls;
mod pages;
mod queries;
mod replies;

pub use calls::answer_questions;
