//! Streams and their indices: what a plain catalogue of them is, what each change leaves, and the laws that tie it to what is
//! seen of it.
#![tactic(auto)]

mod answers;
mod by_name;
mod catalog;
mod catalog_changes;
mod catalog_facts;
mod catalog_picks;
mod catalog_puts;
mod catalog_removals;
mod catalog_rollovers;
mod catalog_streams;
mod causes;
mod changes;
mod choosing;
mod copies;
mod creations;
mod facts;
mod found_laws;
mod held_rows;
mod held_streams;
mod laws;
mod limits;
mod mapped;
mod members;
mod moves;
mod named;
mod picks;
mod refusals;
mod removals;
mod rollovers;
mod row_laws;
mod row_puts;

pub use answers::{CatalogError, Move, PickError, Ran, Refusal, Rolled, What};
pub use catalog::Catalog;
pub use facts::{HeldIndex, StreamFacts, TaskFacts};
pub use found_laws::streams_are_found;
pub use held_streams::HeldStream;
pub use laws::{
    changes_go_through, changes_keep_sound, changes_tell_facts, facts_are_tested,
    indices_are_sound, names_keep, removals_end_tasks, rollovers_join, seen_again, seen_stays,
    tasks_keep, tests_stay, units_go_on,
};
pub use limits::{MOST_INDICES, MOST_STREAMS, MOST_TEMPLATES};
pub use row_laws::{kept_are_rows, shown_rows};
