//! Links in memory.
ghost use Rattle.std.specs.Prelude.{◌≡◌, ℕ, ◌-◌, ◌<◌, ◌≤◌, ◌↔◌, ◌⊎◌, List, [], length, take, min, Contains, IsErr, IfOk, IfSome, OnErr, OnOk, Ok, Some};
ghost use Rattle.edge_face.specs.Contents.{appended, preceded, Rose};
ghost use Rattle.edge_face.specs.Memory.{one_more};

use super::parts::{Plan, Room, Stock};
use crate::device::Failed;
use crate::link::Link;
use crate::text::{Bytes, NoMemory};
use std::alloc::Global;
use std::marker::Model;

/// A link over bytes to be taken, with room for a number of bytes. It fails at the calls that it is told, takes and puts counted
/// together, and at a put that finds no room for any byte.
#[derive(Drop)]
pub struct MemoryLink {
    stock: Stock,
    held: Room,
    plan: Plan,
    take_faults: u64,
    put_faults: u64,
}

impl Model for MemoryLink {
    ghost use Rattle.edge_face.specs.Memory.{LinkState};

    ghost Value = { LinkState };

    ghost view = { λ s. record {
      left = s.stock;
      given = s.held.given;
      room = s.held.room;
      fails = s.plan.fails.items;
      calls = s.plan.calls;
      take_faults = s.take_faults;
      put_faults = s.put_faults;
    } };
}

impl MemoryLink {
    pub fn new(
        alloc: Global,
        left: Bytes,
        room: u64,
        fails: Vec<u64>,
    ) -> Result<MemoryLink, NoMemory>
        ensures { IfOk result (λ link. link ≡ record { left = left; given = []; room = room; fails = fails.items; calls = 0; take_faults = 0; put_faults = 0 }) }
    {
        Ok(MemoryLink {
            stock: Stock::new(left),
            held: Room::new(alloc, room)?,
            plan: Plan::new(fails),
            take_faults: 0,
            put_faults: 0,
        })
    }

    /// The bytes that it was given.
    pub fn given(&self) -> &[u8]
        ensures { result.now ≡ self.now.given }
    {
        self.held.given()
    }
}

impl Link for MemoryLink {
    ghost use Rattle.std.specs.Prelude.{Some};

    ghost left = { λ s. Some s.left };

    ghost given = { λ s. Some s.given };

    ghost take_faults = { λ s. s.take_faults };

    ghost put_faults = { λ s. s.put_faults };

    fn take(&mut self, into: &mut [u8]) -> Result<usize, Failed>
        ensures within { IfOk result (λ n. n ≤ length into.old) }
        ensures taken { IfOk result (λ n. Some self.old.left ≡ preceded (take n into.new) (Some self.new.left)) }
        ensures end { result ≡ Ok 0 → 0 < length into.old → IfSome (Some self.new.left) (λ rest. rest ≡ []) }
        ensures failed { OnErr result (Some self.new.left ≡ Some self.old.left) }
        ensures counted { self.old.take_faults ≤ self.new.take_faults }
        ensures caused { OnErr result (Rose self.old.take_faults self.new.take_faults) }
        ensures beside { (Some self.new.given ≡ Some self.old.given) × (self.new.put_faults ≡ self.old.put_faults) }

        // As many as fit, unless the call is one of those that fail.
        ensures number { self.new.calls ≡ one_more self.old.calls }
        ensures listed { IsErr result ↔ Contains self.old.fails self.new.calls }
        ensures most { IfOk result (λ n. n ≡ min (length into.old) (length self.old.left)) }
        ensures same { OnOk result (self.new.take_faults ≡ self.old.take_faults) }
        ensures kept { (self.new.fails ≡ self.old.fails) × (self.new.room ≡ self.old.room) }
    {
        if self.plan.is_due() {
            self.take_faults = self.take_faults.saturating_add(1);
            return Err(Failed);
        }
        Ok(self.stock.take(into))
    }

    fn put(&mut self, piece: &[u8]) -> Result<usize, Failed>
        ensures within { IfOk result (λ n. n ≤ length piece.now) }
        ensures some { IfOk result (λ n. 0 < length piece.now → 0 < n) }
        ensures put { IfOk result (λ n. Some self.new.given ≡ appended (Some self.old.given) (take n piece.now)) }
        ensures failed { OnErr result (Some self.new.given ≡ Some self.old.given) }
        ensures counted { self.old.put_faults ≤ self.new.put_faults }
        ensures caused { OnErr result (Rose self.old.put_faults self.new.put_faults) }
        ensures beside { (Some self.new.left ≡ Some self.old.left) × (self.new.take_faults ≡ self.old.take_faults) }

        // As many as there is room for, unless the call is one of those that fail or there is no room at all.
        ensures number { self.new.calls ≡ one_more self.old.calls }
        ensures listed { IsErr result ↔ (Contains self.old.fails self.new.calls ⊎ ((0 < length piece.now) × (length self.old.given ≡ self.old.room))) }
        ensures most { IfOk result (λ n. n ≡ min (self.old.room - length self.old.given) (length piece.now)) }
        ensures same { OnOk result (self.new.put_faults ≡ self.old.put_faults) }
        ensures kept { (self.new.fails ≡ self.old.fails) × (self.new.room ≡ self.old.room) }
    {
        let due = self.plan.is_due();
        if due || (!piece.is_empty() && self.held.is_full()) {
            self.put_faults = self.put_faults.saturating_add(1);
            return Err(Failed);
        }
        Ok(self.held.put(piece))
    }
}
