//! The command line: scripts, their replies, and the top call of the program.
#![tactic(auto)]

mod documents;
mod errors;
mod machine;
mod player;
mod program;
mod reply;
mod runs;
mod script;
mod status;

pub use errors::RunError;
pub use player::Player;
pub use program::top;
pub use reply::Reply;
pub use runs::run;
pub use script::{Heard, Opening};
pub use status::{
    DONE, KEEPER_FAULT, NO_MEMORY, READ_FAULT, TOO_LONG, USAGE, WRITE_FAULT, status_text,
};
