//! Devices in memory. They tell their contents; some fail at the calls that they are told, counted from 1, and some never do.

mod acceptor;
mod clock;
mod keeper;
mod link;
mod parts;
mod queue;
mod shelf;
mod sink;
mod source;

pub use acceptor::{MemoryAcceptor, SteadyAcceptor};
pub use clock::MemoryClock;
pub use keeper::{MemoryKeeper, SteadyKeeper};
pub use link::MemoryLink;
pub use sink::{MemorySink, NullSink};
pub use source::{MemorySource, SteadySource};
