//! Sinks in memory.
ghost use Rattle.std.specs.Prelude.{◌≡◌, ℕ, ◌-◌, ◌<◌, ◌≤◌, ◌↔◌, ◌⊎◌, List, [], length, take, min, Contains, IsErr, IfOk, OnErr, OnOk, Ok, Some};
ghost use Rattle.edge_face.specs.Contents.{appended, Rose};
ghost use Rattle.edge_face.specs.Memory.{one_more};

use super::parts::{Plan, Room};
use crate::device::{Failed, Sink};
use crate::text::NoMemory;
use std::alloc::Global;
use std::marker::Model;

/// A sink with room for a number of bytes. A put that finds no room for any byte fails, as do the calls that it is told.
#[derive(Drop)]
pub struct MemorySink {
    held: Room,
    plan: Plan,
    faults: u64,
}

impl Model for MemorySink {
    ghost use Rattle.edge_face.specs.Memory.{SinkState};

    ghost Value = { SinkState };

    ghost view = { λ s. record { given = s.held.given; room = s.held.room; fails = s.plan.fails.items; calls = s.plan.calls; faults = s.faults } };
}

impl MemorySink {
    pub fn new(alloc: Global, room: u64, fails: Vec<u64>) -> Result<MemorySink, NoMemory>
        ensures { IfOk result (λ sink. sink ≡ record { given = []; room = room; fails = fails.items; calls = 0; faults = 0 }) }
    {
        Ok(MemorySink {
            held: Room::new(alloc, room)?,
            plan: Plan::new(fails),
            faults: 0,
        })
    }

    /// The bytes that it was given.
    pub fn given(&self) -> &[u8]
        ensures { result.now ≡ self.now.given }
    {
        self.held.given()
    }
}

impl Sink for MemorySink {
    ghost use Rattle.std.specs.Prelude.{Some};

    ghost given = { λ s. Some s.given };

    ghost faults = { λ s. s.faults };

    fn put(&mut self, piece: &[u8]) -> Result<usize, Failed>
        ensures within { IfOk result (λ n. n ≤ length piece.now) }
        ensures some { IfOk result (λ n. 0 < length piece.now → 0 < n) }
        ensures put { IfOk result (λ n. Some self.new.given ≡ appended (Some self.old.given) (take n piece.now)) }
        ensures failed { OnErr result (Some self.new.given ≡ Some self.old.given) }
        ensures counted { self.old.faults ≤ self.new.faults }
        ensures caused { OnErr result (Rose self.old.faults self.new.faults) }

        // As many as there is room for, unless the call is one of those that fail or there is no room at all.
        ensures number { self.new.calls ≡ one_more self.old.calls }
        ensures listed { IsErr result ↔ (Contains self.old.fails self.new.calls ⊎ ((0 < length piece.now) × (length self.old.given ≡ self.old.room))) }
        ensures most { IfOk result (λ n. n ≡ min (self.old.room - length self.old.given) (length piece.now)) }
        ensures same { OnOk result (self.new.faults ≡ self.old.faults) }
        ensures kept { self.new.fails ≡ self.old.fails }
        ensures room { self.new.room ≡ self.old.room }
    {
        let due = self.plan.is_due();
        if due || (!piece.is_empty() && self.held.is_full()) {
            self.faults = self.faults.saturating_add(1);
            return Err(Failed);
        }
        Ok(self.held.put(piece))
    }
}

/// A sink that takes each piece whole and keeps nothing. It never fails, and tells nothing.
#[derive(Clone, Copy, Debug)]
pub struct NullSink;

impl NullSink {
    pub fn new() -> NullSink {
        NullSink
    }
}

impl Sink for NullSink {
    ghost use Rattle.std.specs.Prelude.{None};

    ghost given = { λ _. None };

    ghost faults = { λ _. 0 };

    fn put(&mut self, piece: &[u8]) -> Result<usize, Failed>
        ensures whole { result ≡ Ok (length piece.now) }
    {
        Ok(piece.len())
    }
}
