//! Templates of indices, and what the leaves of a document are at their fields.
#![tactic(auto)]

mod agreeing;
mod body;
mod checks;
mod clashes;
mod faults;
mod fields;
mod gathering;
mod kinds;
mod laws;
mod least;
mod levels;
mod limits;
mod looks;
mod making;
mod numbers;
mod path_at;
mod path_set;
mod paths;
mod properties;
mod readings;
mod routing;
mod sent_settings;
mod settings;
mod shapes;
mod templates;
mod trees;

pub use agreeing::first_other;
pub use checks::{is_mapping, is_template};
pub use kinds::MapKind;
pub use laws::{
    bodies_are_templates, least_is_least, parts_of_leaves_fit, readings_fit, templates_have_bodies,
};
pub use limits::{
    GREATEST_PRIORITY, LONGEST_LOOK, MOST_FIELDS, MOST_PATTERNS, MOST_SHARDS, SHORTEST_LOOK,
    USUAL_LOOK_AHEAD, USUAL_LOOK_BACK,
};
pub use readings::{read_aggregate, read_scalar};
pub use templates::{MapError, Mapping, Template, read_template};
