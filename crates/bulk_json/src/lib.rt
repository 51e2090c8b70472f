//! Bulk bodies: the items that the lines of a body ask for.
#![tactic(auto)]

mod action;
mod blank;
mod errors;
mod items;
mod laws;
mod lines;

pub use action::Action;
pub use blank::{is_blank, is_space};
pub use errors::BulkError;
pub use items::{BulkLines, Item, LentItem, NextItem, read_bulk};
pub use laws::faults_stay_ahead;
