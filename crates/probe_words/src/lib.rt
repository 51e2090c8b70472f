//! Calls on texts, trees and messages, made by cases.
#![tactic(auto)]

mod bodies;
mod calls;
mod days;
mod names;
mod replies;
mod requests;
mod times;
mod trees;
mod values;

pub use calls::answer_words;
