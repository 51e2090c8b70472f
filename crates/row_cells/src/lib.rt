//! Rows of metric documents: fields and schemas, series keys, cells, and how rows of a series fold into one.
#![tactic(auto)]

mod checks;
mod copies;
mod entries;
mod fits;
mod folding;
mod heads;
mod joining;
mod keys;
mod limits;
mod measures;
mod order;
mod rows;
mod scalars;
mod schemas;
mod spelling;
mod texts;
mod widening;

pub use checks::{are_few, are_in_row_order, have_short_lists};
pub use copies::{
    copy_cell, copy_cells, copy_field, copy_row, copy_scalar, copy_scalars, copy_schema,
};
pub use entries::{Entry, EntryValue, read_entry};
pub use fits::fit_cells;
pub use folding::{fold_row, merge_rows, merges_in_any_grouping};
pub use heads::{head_row, heads_of};
pub use joining::join_schemas;
pub use keys::Key;
pub use limits::{LONGEST_KEY, LONGEST_LIST, LONGEST_PATH, LONGEST_WORD, MOST_DOCUMENTS};
pub use measures::{gauge_cell, gauge_of, rise_cell, rising_of};
pub use order::row_order;
pub use rows::{Cell, Row};
pub use scalars::Scalar;
pub use schemas::{Field, FieldType, Role, Schema};
pub use spelling::keys_tell_dimensions;
pub use texts::{TextAt, read_text};
pub use widening::widen;
