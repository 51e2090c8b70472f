//! Series of documents: the key that their dimensions make, and the ids of documents, which are written and read.
#![tactic(auto)]

mod base64url;
mod ids;
mod keys;
mod rows;
mod spelling;

pub use ids::{Named, id_text, ids_tell_documents, read_id};
pub use keys::{KeyError, keys_tell_cells, series_key};
pub use rows::{are_rows_of, is_row_of};
