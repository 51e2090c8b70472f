//! What devices in memory are made of: bytes to be taken, room for bytes, and the calls that fail.
ghost use Rattle.std.specs.Prelude.{◌≡◌, ℕ, ◌+◌, ◌-◌, ◌<◌, ◌≤◌, ◌↔◌, List, [], ◌++◌, length, take, drop, min, Contains, IsTrue, IfOk};
ghost use Rattle.std.specs.List.{slice_range};
ghost use Rattle.edge_face.specs.Memory.{one_more};

use crate::text::{Bytes, NoMemory};
use std::alloc::Global;
use std::marker::Model;

/// The calls of a device that are to fail, by number from 1, and how many calls were made.
#[derive(Drop)]
pub struct Plan {
    pub fails: Vec<u64>,
    pub calls: u64,
}

impl Plan {
    pub fn new(fails: Vec<u64>) -> Plan
        ensures { (result.fails ≡ fails) × (result.calls ≡ 0) }
    {
        Plan { fails, calls: 0 }
    }

    /// Counts a call, and answers whether it is to fail.
    pub fn is_due(&mut self) -> bool
        ensures number { self.new.calls ≡ one_more self.old.calls }
        ensures kept { self.new.fails ≡ self.old.fails }
        ensures listed { IsTrue result ↔ Contains self.old.fails.items self.new.calls }
    {
        self.calls = self.calls.saturating_add(1);
        self.fails.contains(&self.calls)
    }
}

/// Bytes that are taken from the front.
#[derive(Drop)]
pub struct Stock {
    bytes: Bytes,
    taken: usize,
}

/// Seen as the bytes that are left.
impl Model for Stock {
    ghost use Rattle.std.specs.Prelude.{◌≤◌, ℕ, List, length, drop};

    ghost Value = { List ℕ };

    ghost view = { λ s. drop s.taken s.bytes };

    ghost invariant = { λ s. s.taken ≤ length s.bytes };
}

/// Copies as many bytes as both have room for, and answers how many.
fn copy_front(into: &mut [u8], from: &[u8]) -> usize
    ensures count { result ≡ min (length into.old) (length from.now) }
    ensures front { take result into.new ≡ take result from.now }
{
    let n = into.len().min(from.len());
    into[..n].copy_from_slice(&from[..n]);
    n
}

impl Stock {
    pub fn new(bytes: Bytes) -> Stock
        ensures { result ≡ bytes }
    {
        Stock { bytes, taken: 0 }
    }

    /// Takes as many bytes as fit, and answers how many.
    pub fn take(&mut self, into: &mut [u8]) -> usize
        ensures most { result ≡ min (length into.old) (length self.old) }
        ensures taken { self.old ≡ take result into.new ++ self.new }
    {
        let (_, rest) = self.bytes.as_slice().split_at(self.taken);
        let n = copy_front(into, rest);
        self.taken += n;
        n
    }
}

/// Room for a number of bytes, which are put behind one another.
#[derive(Drop)]
pub struct Room {
    buffer: Vec<u8>,
    used: usize,
}

impl Model for Room {
    ghost use Rattle.std.specs.Prelude.{◌≤◌, length, take};
    ghost use Rattle.edge_face.specs.Memory.{Held};

    ghost Value = { Held };

    ghost view = { λ r. record { given = take r.used r.buffer.items; room = length r.buffer.items } };

    ghost invariant = { λ r. r.used ≤ length r.buffer.items };
}

/// Writes as many bytes as there is room for after `used`, and answers how many.
fn copy_after(buffer: &mut Vec<u8>, used: usize, piece: &[u8]) -> usize
    requires { used ≤ length buffer.old.items }
    ensures count { result ≡ min (length buffer.old.items - used) (length piece.now) }
    ensures len { length buffer.new.items ≡ length buffer.old.items }
    ensures kept { take used buffer.new.items ≡ take used buffer.old.items }
    ensures placed { slice_range buffer.new.items used (used + result) ≡ take result piece.now }
{
    copy_front(&mut buffer[used..], piece)
}

impl Room {
    pub fn new(alloc: Global, room: u64) -> Result<Room, NoMemory>
        ensures { IfOk result (λ r. r ≡ record { given = []; room = room }) }
    {
        Ok(Room {
            buffer: vec![in alloc; 0; room as usize]?,
            used: 0,
        })
    }

    /// The bytes that were put.
    pub fn given(&self) -> &[u8]
        ensures { result.now ≡ self.now.given }
    {
        &self.buffer[..self.used]
    }

    pub fn is_full(&self) -> bool
        ensures full { IsTrue result ↔ (length self.now.given ≡ self.now.room) }
        ensures within { length self.now.given ≤ self.now.room }
    {
        self.used == self.buffer.len()
    }

    /// Puts as many bytes as there is room for, and answers how many.
    pub fn put(&mut self, piece: &[u8]) -> usize
        ensures most { result ≡ min (self.old.room - length self.old.given) (length piece.now) }
        ensures put { self.new.given ≡ self.old.given ++ take result piece.now }
        ensures room { self.new.room ≡ self.old.room }
    {
        let n = copy_after(&mut self.buffer, self.used, piece);
        self.used += n;
        n
    }
}
