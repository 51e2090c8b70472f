//! Devices in memory that move a few bytes at a time.
ghost use Rattle.std.specs.Prelude.{Some};

use edge_face::{Bytes, Failed, MemorySink, MemorySource, Sink, Source};
use probe_case::number_or;
use serde_json::Value;
use std::alloc::Global;

/// A source that gives so many bytes at a time, or with 0 as many as are asked for.
#[derive(Drop)]
pub struct SlowSource {
    pub inner: MemorySource,
    pub piece: usize,
}

impl Source for SlowSource {
    ghost left = { λ s. Some s.inner.left };

    ghost faults = { λ s. s.inner.faults };

    fn take(&mut self, into: &mut [u8]) -> Result<usize, Failed> {
        if self.piece == 0 || self.piece >= into.len() {
            return self.inner.take(into);
        }
        self.inner.take(&mut into[..self.piece])
    }
}

/// A sink that takes so many bytes at a time, or with 0 as many as it is handed.
#[derive(Drop)]
pub struct SlowSink {
    pub inner: MemorySink,
    pub piece: usize,
}

impl Sink for SlowSink {
    ghost given = { λ s. Some s.inner.given };

    ghost faults = { λ s. s.inner.faults };

    fn put(&mut self, piece: &[u8]) -> Result<usize, Failed> {
        if self.piece == 0 || self.piece >= piece.len() {
            return self.inner.put(piece);
        }
        self.inner.put(&piece[..self.piece])
    }
}

/// How many bytes move at a time: as many as are asked for, unless the case says otherwise.
fn piece_of(case: &Value) -> usize {
    number_or(case, "piece", 0).unsigned_abs() as usize
}

/// A source of these bytes, of which the calls with these numbers fail.
pub fn source_of(case: &Value, bytes: Vec<u8>, fails: Vec<u64>) -> SlowSource {
    SlowSource {
        inner: MemorySource::new(Bytes::from_vec(bytes), fails),
        piece: piece_of(case),
    }
}

/// A sink with room for so many bytes, of which the calls with these numbers fail.
pub fn sink_of(case: &Value, fails: Vec<u64>, alloc: Global) -> Option<SlowSink> {
    let room = number_or(case, "room", 65_536).unsigned_abs();
    Some(SlowSink {
        inner: MemorySink::new(alloc, room, fails).ok()?,
        piece: piece_of(case),
    })
}
