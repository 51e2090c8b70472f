//! Lists of whole numbers in packed blocks: written by appending, read through cursors that keep one block unpacked.
#![tactic(auto)]

mod blocks;
mod cursor;
mod cuts;
mod number_list;
mod packed;
mod packer;
mod picks;
mod steps;

pub use blocks::{
    BLOCK, Found, find_numbers, leave, put_numbers, put_range, read_block_of, summary_of,
};
pub use cursor::Cursor;
pub use number_list::{NumberList, ReadNumbers};
pub use packed::PackedLists;
pub use packer::Packer;
pub use picks::{Turn, merge_lists, pick};
pub use steps::Steps;
