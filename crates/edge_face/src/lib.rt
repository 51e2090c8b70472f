//! The outside as the program sees it: texts and bytes, devices that are read and written, keepers, links, clocks, and lines.
#![tactic(auto)]

mod clock;
mod device;
mod keeper;
mod limits;
mod link;
mod memory;
mod order;
mod reader;
mod stream;
mod text;
mod window;
mod words;

pub use clock::Clock;
pub use device::{Failed, PutFailed, Sink, Source, put_all};
pub use keeper::{Change, KeepError, Keeper};
pub use limits::{BODY_LIMIT, INPUT_LIMIT, LAST_INSTANT, LINE_LIMIT};
pub use link::{Acceptor, Link};
pub use memory::{
    MemoryAcceptor, MemoryClock, MemoryKeeper, MemoryLink, MemorySink, MemorySource, NullSink,
    SteadyAcceptor, SteadyKeeper, SteadySource,
};
pub use reader::{LineError, LineReader};
pub use stream::{ReaderSource, WriterSink};
pub use text::{Bytes, NoMemory, Text};
pub use window::{NoPiece, Window};
pub use words::bytes_order;
