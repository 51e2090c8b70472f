//! Rows of documents, for the programs that try and time the store.
#![tactic(auto)]

mod fields;
mod rows;
mod schemas;

pub use fields::is_gauge_at;
pub use rows::{are_rows, row_of};
pub use schemas::{folded_schema, schema_of};
