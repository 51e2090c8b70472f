//! What a stream's lifecycle asks for as its members grow old: which of them end later, go, or are folded.
#![tactic(auto)]

mod ends;
mod laws;
mod lifecycles;
mod planning;

pub use ends::end_after;
pub use laws::bodies_are_lifecycles;
pub use lifecycles::{Lifecycle, Round};
pub use planning::{IndexFacts, Step, plan};
