//! Pages of hits: the first of many rows by an order, and how many there are.
#![tactic(auto)]

mod counting;
mod entries;
mod hits;
mod laws;
mod limits;
mod order;
mod pager;
mod sort_keys;
mod sorts;

pub use hits::{Hit, Page, Picked};
pub use laws::{limits_are_told, pages_in_any_order};
pub use limits::{DEEPEST, MOST_ENTRIES};
pub use pager::{PageError, Pager, is_too_deep};
pub use sort_keys::SortKey;
pub use sorts::read_sort;
