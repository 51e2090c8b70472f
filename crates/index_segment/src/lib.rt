//! Sealed rows of one shard as packed columns: a segment is its rows, and its bytes are their one spelling.
#![tactic(auto)]

mod build;
mod directory;
mod folds;
mod forms;
mod gather;
mod laws;
mod lends;
mod lookup;
mod merge;
mod parse;
mod pick;
mod pieces;
mod read;
mod remake;
mod restore;
mod scan;
mod segment;
mod shares;
mod turns;
mod write;

pub use laws::bytes_tell_rows;
pub use packed_lists::Steps;
pub use segment::{Range, Segment, SegmentError};
