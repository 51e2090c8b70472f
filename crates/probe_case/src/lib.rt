//! What the programs of cases share: the arguments of a case, and the answer that its call is written into.
#![tactic(auto)]

mod arguments;
mod lists;
mod parts;
mod pieces;
mod sweeps;
mod trial;

pub use arguments::{
    has, is_set, list_or_none, number_or, optional_flag, optional_list, optional_number,
};
pub use lists::put_blocks;
pub use parts::{next_chance, part, turn};
pub use pieces::bytes_of;
pub use sweeps::{Checks, Reading, Sweep};
pub use trial::Trial;
