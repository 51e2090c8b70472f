//! Replies as trees, and the one JSON text of a tree.
#![tactic(auto)]

mod build;
mod copying;
mod laws;
mod out;
mod write;

pub use build::{Members, error_reply};
pub use laws::{printed_reads_back, texts_tell_replies};
pub use out::{Member, Out};
pub use write::print;
