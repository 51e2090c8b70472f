//! Keepers of tables in memory.
ghost use Rattle.std.specs.Prelude.{◌≡◌, ◌≢◌, ◌≤◌, ◌↔◌, ℕ, List, [], Contains, None, Some, IsSome, IsErr, IfOk, IfSome, OnErr, OnOk, Ok, Err};
ghost use Rattle.std.specs.List.Sorted.{IsStrictlySortedBy};
ghost use Rattle.std.specs.Ordering.{nat_cmp};
ghost use Rattle.std.specs.Cmp.Lexicographic.{slice_cmp};
ghost use Rattle.std.specs.Map.{keys_of};
ghost use Rattle.std.specs.Option.{option_map};
ghost use Rattle.edge_face.specs.Contents.{Rose};
ghost use Rattle.edge_face.specs.Memory.{one_more};
ghost use Rattle.edge_face.specs.Table.{bytes_at, changed_by, HaveDistinctKeys};

use super::parts::Plan;
use super::shelf::Shelf;
use crate::device::Failed;
use crate::keeper::{Change, KeepError, Keeper};
use crate::text::{Bytes, Text};
use std::alloc::Global;
use std::collections::BTreeMap;
use std::marker::Model;

/// A keeper that fails at the calls that it is told.
#[derive(Drop)]
pub struct MemoryKeeper {
    shelf: Shelf,
    plan: Plan,
    faults: u64,
}

impl Model for MemoryKeeper {
    ghost use Rattle.edge_face.specs.Memory.{KeeperState};

    ghost Value = { KeeperState };

    ghost view = { λ k. record { table = k.shelf.table; path = k.shelf.path; fails = k.plan.fails.items; calls = k.plan.calls; faults = k.faults } };
}

impl MemoryKeeper {
    pub fn new(table: BTreeMap<Text, Bytes>, fails: Vec<u64>) -> MemoryKeeper
        ensures { result ≡ record { table = table.entries; path = None; fails = fails.items; calls = 0; faults = 0 } }
    {
        MemoryKeeper {
            shelf: Shelf::new(table),
            plan: Plan::new(fails),
            faults: 0,
        }
    }

    /// Counts a call, and fails where it is one of those that fail.
    fn call(&mut self) -> Result<(), Failed>
        ensures number { self.new.calls ≡ one_more self.old.calls }
        ensures listed { IsErr result ↔ Contains self.old.fails self.new.calls }
        ensures kept { (self.new.table ≡ self.old.table) × (self.new.path ≡ self.old.path) × (self.new.fails ≡ self.old.fails) }
        ensures same { OnOk result (self.new.faults ≡ self.old.faults) }
        ensures counted { self.old.faults ≤ self.new.faults }
        ensures caused { OnErr result (self.new.faults ≡ one_more self.old.faults) }
    {
        if self.plan.is_due() {
            self.faults = self.faults.saturating_add(1);
            return Err(Failed);
        }
        Ok(())
    }
}

impl Keeper for MemoryKeeper {
    ghost use Rattle.std.specs.Prelude.{Some};

    ghost table = { λ k. Some k.table };

    ghost path = { λ k. k.path };

    ghost faults = { λ k. k.faults };

    fn open(&mut self, alloc: Global, at: &str) -> Result<(), KeepError>
        ensures opened { OnOk result (self.new.path ≡ Some at.now) }
        ensures told { IfSome (Some self.old.table) (λ told. Some self.new.table ≡ Some told) }
        ensures refused { OnErr result ((Some self.new.table ≡ Some self.old.table) × (self.new.path ≡ self.old.path)) }
        ensures counted { self.old.faults ≤ self.new.faults }
        ensures caused { result ≡ Err KeepError.Failed → Rose self.old.faults self.new.faults }

        // It fails exactly at the calls that it is told; else only memory can be wanting.
        ensures number { self.new.calls ≡ one_more self.old.calls }
        ensures listed { (result ≡ Err KeepError.Failed) ↔ Contains self.old.fails self.new.calls }
        ensures same { result ≢ Err KeepError.Failed → self.new.faults ≡ self.old.faults }
        ensures fails { self.new.fails ≡ self.old.fails }
    {
        self.call()?;
        self.shelf.open(alloc, at)?;
        Ok(())
    }

    fn keys(&mut self, alloc: Global) -> Result<Vec<Text>, KeepError>
        requires { IsSome self.old.path }
        ensures all { IfOk result (λ keys. IfSome (Some self.old.table) (λ told. keys.items ≡ keys_of told)) }
        ensures ascend { IfOk result (λ keys. IsStrictlySortedBy (slice_cmp nat_cmp) keys.items) }
        ensures kept { (Some self.new.table ≡ Some self.old.table) × (self.new.path ≡ self.old.path) }
        ensures counted { self.old.faults ≤ self.new.faults }
        ensures caused { result ≡ Err KeepError.Failed → Rose self.old.faults self.new.faults }

        // It fails exactly at the calls that it is told; else only memory can be wanting.
        ensures number { self.new.calls ≡ one_more self.old.calls }
        ensures listed { (result ≡ Err KeepError.Failed) ↔ Contains self.old.fails self.new.calls }
        ensures same { result ≢ Err KeepError.Failed → self.new.faults ≡ self.old.faults }
        ensures fails { self.new.fails ≡ self.old.fails }
    {
        self.call()?;
        let keys = self.shelf.keys(alloc)?;
        Ok(keys)
    }

    fn get(&mut self, alloc: Global, key: &Text) -> Result<Option<Bytes>, KeepError>
        requires { IsSome self.old.path }
        ensures found { IfOk result (λ found. IfSome (Some self.old.table) (λ told. found ≡ bytes_at key.now told)) }
        ensures kept { (Some self.new.table ≡ Some self.old.table) × (self.new.path ≡ self.old.path) }
        ensures counted { self.old.faults ≤ self.new.faults }
        ensures caused { result ≡ Err KeepError.Failed → Rose self.old.faults self.new.faults }

        // It fails exactly at the calls that it is told; else only memory can be wanting.
        ensures number { self.new.calls ≡ one_more self.old.calls }
        ensures listed { (result ≡ Err KeepError.Failed) ↔ Contains self.old.fails self.new.calls }
        ensures same { result ≢ Err KeepError.Failed → self.new.faults ≡ self.old.faults }
        ensures fails { self.new.fails ≡ self.old.fails }
    {
        self.call()?;
        let found = self.shelf.get(alloc, key)?;
        Ok(found)
    }

    fn replace(&mut self, alloc: Global, changes: &[Change]) -> Result<(), KeepError>
        requires open { IsSome self.old.path }
        requires distinct { HaveDistinctKeys changes.now }
        ensures all { OnOk result (Some self.new.table ≡ option_map (λ told. changed_by told changes.now) (Some self.old.table)) }
        ensures none { OnErr result (Some self.new.table ≡ Some self.old.table) }
        ensures kept { self.new.path ≡ self.old.path }
        ensures counted { self.old.faults ≤ self.new.faults }
        ensures caused { result ≡ Err KeepError.Failed → Rose self.old.faults self.new.faults }

        // It fails exactly at the calls that it is told; else only memory can be wanting.
        ensures number { self.new.calls ≡ one_more self.old.calls }
        ensures listed { (result ≡ Err KeepError.Failed) ↔ Contains self.old.fails self.new.calls }
        ensures same { result ≢ Err KeepError.Failed → self.new.faults ≡ self.old.faults }
        ensures fails { self.new.fails ≡ self.old.fails }
    {
        self.call()?;
        self.shelf.replace(alloc, changes)?;
        Ok(())
    }
}

/// A keeper that never fails.
#[derive(Drop)]
pub struct SteadyKeeper {
    shelf: Shelf,
}

impl Model for SteadyKeeper {
    ghost use Rattle.edge_face.specs.Memory.{ShelfState};

    ghost Value = { ShelfState };

    ghost view = { λ k. k.shelf };
}

impl SteadyKeeper {
    pub fn new(table: BTreeMap<Text, Bytes>) -> SteadyKeeper
        ensures { result ≡ record { table = table.entries; path = None } }
    {
        SteadyKeeper {
            shelf: Shelf::new(table),
        }
    }
}

impl Keeper for SteadyKeeper {
    ghost use Rattle.std.specs.Prelude.{Some};

    ghost table = { λ k. Some k.table };

    ghost path = { λ k. k.path };

    ghost faults = { λ _. 0 };

    fn open(&mut self, alloc: Global, at: &str) -> Result<(), KeepError>
        ensures opened { OnOk result (self.new.path ≡ Some at.now) }
        ensures told { IfSome (Some self.old.table) (λ told. Some self.new.table ≡ Some told) }
        ensures refused { OnErr result ((Some self.new.table ≡ Some self.old.table) × (self.new.path ≡ self.old.path)) }
        ensures fine { result ≢ Err KeepError.Failed }
    {
        self.shelf.open(alloc, at)?;
        Ok(())
    }

    fn keys(&mut self, alloc: Global) -> Result<Vec<Text>, KeepError>
        requires { IsSome self.old.path }
        ensures all { IfOk result (λ keys. IfSome (Some self.old.table) (λ told. keys.items ≡ keys_of told)) }
        ensures ascend { IfOk result (λ keys. IsStrictlySortedBy (slice_cmp nat_cmp) keys.items) }
        ensures kept { (Some self.new.table ≡ Some self.old.table) × (self.new.path ≡ self.old.path) }
        ensures fine { result ≢ Err KeepError.Failed }
    {
        let keys = self.shelf.keys(alloc)?;
        Ok(keys)
    }

    fn get(&mut self, alloc: Global, key: &Text) -> Result<Option<Bytes>, KeepError>
        requires { IsSome self.old.path }
        ensures found { IfOk result (λ found. IfSome (Some self.old.table) (λ told. found ≡ bytes_at key.now told)) }
        ensures kept { (Some self.new.table ≡ Some self.old.table) × (self.new.path ≡ self.old.path) }
        ensures fine { result ≢ Err KeepError.Failed }
    {
        let found = self.shelf.get(alloc, key)?;
        Ok(found)
    }

    fn replace(&mut self, alloc: Global, changes: &[Change]) -> Result<(), KeepError>
        requires open { IsSome self.old.path }
        requires distinct { HaveDistinctKeys changes.now }
        ensures all { OnOk result (Some self.new.table ≡ option_map (λ told. changed_by told changes.now) (Some self.old.table)) }
        ensures none { OnErr result (Some self.new.table ≡ Some self.old.table) }
        ensures kept { self.new.path ≡ self.old.path }
        ensures fine { result ≢ Err KeepError.Failed }
    {
        self.shelf.replace(alloc, changes)?;
        Ok(())
    }
}
