//! A table in memory, and the path at which it was opened last.
ghost use Rattle.std.specs.Prelude.{◌≡◌, ℕ, List, None, Some, IfOk, OnErr, OnOk};
ghost use Rattle.std.specs.List.Sorted.{IsStrictlySortedBy};
ghost use Rattle.std.specs.Ordering.{nat_cmp};
ghost use Rattle.std.specs.Cmp.Lexicographic.{slice_cmp};
ghost use Rattle.std.specs.Map.{keys_of};
ghost use Rattle.edge_face.specs.Table.{bytes_at, changed, changed_by};

use crate::keeper::Change;
use crate::text::{Bytes, NoMemory, Text};
use std::alloc::Global;
use std::collections::BTreeMap;
use std::marker::Model;

type Entries = BTreeMap<Text, Bytes>;

#[derive(Drop)]
pub struct Shelf {
    entries: Entries,
    path: Option<Text>,
}

impl Model for Shelf {
    ghost use Rattle.edge_face.specs.Memory.{ShelfState};

    ghost Value = { ShelfState };

    ghost view = { λ s. record { table = s.entries.entries; path = s.path } };
}

fn copy_of(entries: &Entries) -> Result<Entries, NoMemory>
    ensures { IfOk result (λ copy. copy.entries ≡ entries.now.entries) }
{
    let copy = entries.clone()?;
    Ok(copy)
}

fn keys_in(alloc: Global, entries: &Entries) -> Result<Vec<Text>, NoMemory>
    ensures all { IfOk result (λ keys. keys.items ≡ keys_of entries.now.entries) }
    ensures ascend { IfOk result (λ keys. IsStrictlySortedBy (slice_cmp nat_cmp) keys.items) }
{
    let mut keys = Vec::with_capacity(alloc, entries.len())?;
    for key in entries.keys() {
        keys.push(key.copy(alloc)?)?;
    }
    Ok(keys)
}

fn change(alloc: Global, entries: &mut Entries, change: &Change) -> Result<(), NoMemory>
    ensures { OnOk result (entries.new.entries ≡ changed entries.old.entries change.now) }
{
    match change {
        Change::Put { key, bytes } => {
            let _ = entries.insert(key.copy(alloc)?, bytes.copy(alloc)?)?;
        }
        Change::Remove { key } => {
            let _ = entries.remove(key);
        }
    }
    Ok(())
}

fn change_all(alloc: Global, entries: &mut Entries, changes: &[Change]) -> Result<(), NoMemory>
    ensures { OnOk result (entries.new.entries ≡ changed_by entries.old.entries changes.now) }
{
    for one in changes {
        change(alloc, entries, one)?;
    }
    Ok(())
}

impl Shelf {
    pub fn new(entries: BTreeMap<Text, Bytes>) -> Shelf
        ensures { result ≡ record { table = entries.entries; path = None } }
    {
        Shelf {
            entries,
            path: None,
        }
    }

    pub fn open(&mut self, alloc: Global, at: &str) -> Result<(), NoMemory>
        ensures opened { OnOk result (self.new.path ≡ Some at.now) }
        ensures refused { OnErr result (self.new ≡ self.old) }
        ensures kept { self.new.table ≡ self.old.table }
    {
        self.path = Some(Text::new(alloc, at)?);
        Ok(())
    }

    pub fn keys(&self, alloc: Global) -> Result<Vec<Text>, NoMemory>
        ensures all { IfOk result (λ keys. keys.items ≡ keys_of self.now.table) }
        ensures ascend { IfOk result (λ keys. IsStrictlySortedBy (slice_cmp nat_cmp) keys.items) }
    {
        keys_in(alloc, &self.entries)
    }

    pub fn get(&self, alloc: Global, key: &Text) -> Result<Option<Bytes>, NoMemory>
        ensures { IfOk result (λ found. found ≡ bytes_at key.now self.now.table) }
    {
        match self.entries.get(key) {
            Some(bytes) => Ok(Some(bytes.copy(alloc)?)),
            None => Ok(None),
        }
    }

    /// Makes all changes or none: they are made in a copy, since there may be no memory for one of them.
    pub fn replace(&mut self, alloc: Global, changes: &[Change]) -> Result<(), NoMemory>
        ensures all { OnOk result (self.new.table ≡ changed_by self.old.table changes.now) }
        ensures none { OnErr result (self.new ≡ self.old) }
        ensures kept { self.new.path ≡ self.old.path }
    {
        let mut entries = copy_of(&self.entries)?;
        change_all(alloc, &mut entries, changes)?;
        self.entries = entries;
        Ok(())
    }
}
