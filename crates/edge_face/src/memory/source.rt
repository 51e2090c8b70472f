//! Sources over bytes in memory. They give as many bytes as fit.
ghost use Rattle.std.specs.Prelude.{◌≡◌, ℕ, ◌<◌, ◌≤◌, ◌↔◌, List, [], length, take, min, Contains, IsErr, IfOk, IfSome, OnErr, OnOk, IsOk, Ok, Some};
ghost use Rattle.edge_face.specs.Contents.{preceded, Rose};
ghost use Rattle.edge_face.specs.Memory.{one_more};

use super::parts::{Plan, Stock};
use crate::device::{Failed, Source};
use crate::text::Bytes;
use std::marker::Model;

/// A source that fails at the calls that it is told.
#[derive(Drop)]
pub struct MemorySource {
    stock: Stock,
    plan: Plan,
    faults: u64,
}

impl Model for MemorySource {
    ghost use Rattle.edge_face.specs.Memory.{SourceState};

    ghost Value = { SourceState };

    ghost view = { λ s. record { left = s.stock; fails = s.plan.fails.items; calls = s.plan.calls; faults = s.faults } };
}

impl MemorySource {
    pub fn new(left: Bytes, fails: Vec<u64>) -> MemorySource
        ensures { result ≡ record { left = left; fails = fails.items; calls = 0; faults = 0 } }
    {
        MemorySource {
            stock: Stock::new(left),
            plan: Plan::new(fails),
            faults: 0,
        }
    }
}

impl Source for MemorySource {
    ghost use Rattle.std.specs.Prelude.{Some};

    ghost left = { λ s. Some s.left };

    ghost faults = { λ s. s.faults };

    fn take(&mut self, into: &mut [u8]) -> Result<usize, Failed>
        ensures within { IfOk result (λ n. n ≤ length into.old) }
        ensures taken { IfOk result (λ n. Some self.old.left ≡ preceded (take n into.new) (Some self.new.left)) }
        ensures end { result ≡ Ok 0 → 0 < length into.old → IfSome (Some self.new.left) (λ rest. rest ≡ []) }
        ensures failed { OnErr result (Some self.new.left ≡ Some self.old.left) }
        ensures counted { self.old.faults ≤ self.new.faults }
        ensures caused { OnErr result (Rose self.old.faults self.new.faults) }

        // As many as fit, unless the call is one of those that fail.
        ensures number { self.new.calls ≡ one_more self.old.calls }
        ensures listed { IsErr result ↔ Contains self.old.fails self.new.calls }
        ensures most { IfOk result (λ n. n ≡ min (length into.old) (length self.old.left)) }
        ensures same { OnOk result (self.new.faults ≡ self.old.faults) }
        ensures kept { self.new.fails ≡ self.old.fails }
    {
        if self.plan.is_due() {
            self.faults = self.faults.saturating_add(1);
            return Err(Failed);
        }
        Ok(self.stock.take(into))
    }
}

/// A source that never fails.
#[derive(Drop)]
pub struct SteadySource {
    stock: Stock,
}

/// Seen as the bytes that are left.
impl Model for SteadySource {
    ghost use Rattle.std.specs.Prelude.{ℕ, List};

    ghost Value = { List ℕ };

    ghost view = { λ s. s.stock };
}

impl SteadySource {
    pub fn new(left: Bytes) -> SteadySource
        ensures { result ≡ left }
    {
        SteadySource {
            stock: Stock::new(left),
        }
    }
}

impl Source for SteadySource {
    ghost use Rattle.std.specs.Prelude.{Some};

    ghost left = { λ left. Some left };

    ghost faults = { λ _. 0 };

    fn take(&mut self, into: &mut [u8]) -> Result<usize, Failed>
        ensures within { IfOk result (λ n. n ≤ length into.old) }
        ensures taken { IfOk result (λ n. Some self.old ≡ preceded (take n into.new) (Some self.new)) }
        ensures end { result ≡ Ok 0 → 0 < length into.old → IfSome (Some self.new) (λ rest. rest ≡ []) }
        ensures fine { IsOk result }
        ensures most { IfOk result (λ n. n ≡ min (length into.old) (length self.old)) }
    {
        Ok(self.stock.take(into))
    }
}
