//! Requests: what a method, a target and a body ask for.
#![tactic(auto)]

mod body;
mod form;
mod path;
mod query;
mod request;

pub use path::ID_LIMIT;
pub use request::{Request, RequestError, read_body_request, read_request};
