//! Columns of values over packed blocks, each with one spelling in bytes, and folds that go straight over the blocks.
#![tactic(auto)]

mod columns;
mod folds;
mod halves;
mod kinds;
mod laws;
mod list_rows;
mod lists;
mod number_rows;
mod ordinals;
mod parts_column;
mod presence;
mod rows;
mod six_lists;
mod table;
mod whole;
mod words;

pub use columns::{Column, ReadColumn};
pub use halves::{Halves, halves_join, halves_of, join_halves};
pub use kinds::{ColumnError, ColumnKind, Numbers, Texts, Values};
pub use laws::{numbers_fit, one_spelling, one_value};
