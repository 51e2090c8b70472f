//! Documents to rows, and rows back to documents.
#![tactic(auto)]

mod content;
mod contents;
mod errors;
mod flat;
mod gathering;
mod groups;
mod laws;
mod ordering;
mod printed;
mod reading;
mod rebuilding;
mod strays;
mod tree_values;
mod typing;
mod walking;
mod what;

pub use errors::{DocError, DocKind};
pub use laws::{cells_of_documents_fit, rebuilt_types};
pub use printed::printed_reads_back;
pub use rebuilding::{rebuild, rebuild_value};
pub use typing::{Typed, read_time, type_cells, type_doc};
