//! The names of streams, templates and indices: how they are made, and what they tell.
#![tactic(auto)]

mod backing;
mod laws;
mod names;
mod patterns;
mod reading;

pub use backing::{
    GREATEST_GENERATION, RESERVED_FRONT, backing_name, downsample_name, is_reserved,
};
pub use laws::{backing_names_tell, names_of_folds, names_of_indices};
pub use names::{INDEX_LIMIT, STREAM_LIMIT, is_index_name, is_stream_name, is_target_name};
pub use patterns::{is_pattern, pattern_takes};
pub use reading::{BackingName, is_backing_name, read_backing_name};
