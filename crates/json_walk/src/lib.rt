//! JSON documents: the tree of a line, and what stands in a tree.
#![tactic(auto)]

mod at;
mod laws;
mod names;
mod place;
mod read;
mod shapes;
mod walk;

pub use at::{Found, Leaf, leaves_at};
pub use laws::leaves_are_few;
pub use names::has_names;
pub use place::Place;
pub use read::{NotJson, read_line};
pub use shapes::{has_no_other, is_object, only_member, texts, whole, whole_between};
pub use walk::paths;
