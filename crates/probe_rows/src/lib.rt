//! Calls on templates, documents and rows, made by cases.
#![tactic(auto)]

mod calls;
mod cells;
mod checks;
mod documents;
mod fields;
mod folds;
mod keys;
mod lifecycles;
mod merging;
mod rises;
mod rows;
mod shown;
mod templates;
mod widening;

pub use calls::answer_rows;
pub use folds::interval_at;
pub use keys::key_at;
pub use rows::{all_rows, case_rows, rows_at, schema_at};
pub use shown::{ok_rows, put_cells, put_parts, put_row, put_scalar};
