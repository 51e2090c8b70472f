//! What the store answers: the machine that a script or a link speaks to, as definitions, and the structs that they cite.
#![tactic(auto)]

mod bodies;
mod causes;
mod documents;
mod given_up_laws;
mod items;
mod laws;
mod layer_causes;
mod life_bodies;
mod limits;
mod message_laws;
mod moments;
mod moves;
mod refusals;
mod replies;
mod reply;
mod target_laws;
mod wording;

pub use causes::{Cause, ItemCause};
pub use given_up_laws::{given_up_keep, given_up_refine};
pub use laws::{
    causes_stand, machines_are_seen, machines_begin, many_units, messages, samples_stay,
    steps_keep, steps_refine, steps_stand, targets_agree, turns, units_keep,
};
pub use message_laws::{messages_stand, runs_begin};
pub use moments::{MomentTold, tell_moment};
pub use refusals::refuse;
pub use reply::Reply;
pub use target_laws::{targets_ascend, targets_stay};
