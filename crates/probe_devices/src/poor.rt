//! A keeper that lacks memory for some changes.
ghost use Rattle.std.specs.Prelude.{Some};

use edge_face::{Bytes, Change, KeepError, Keeper, MemoryKeeper, Text};
use std::alloc::Global;
use std::collections::BTreeMap;

/// A keeper that fails at the calls that it is told, and has no memory for the changes with the numbers in the other list.
#[derive(Drop)]
pub struct PoorKeeper {
    inner: MemoryKeeper,
    lacks: Vec<u64>,
    changes: u64,
}

impl PoorKeeper {
    pub fn new(table: BTreeMap<Text, Bytes>, fails: Vec<u64>, lacks: Vec<u64>) -> PoorKeeper {
        PoorKeeper {
            inner: MemoryKeeper::new(table, fails),
            lacks,
            changes: 0,
        }
    }
}

impl Keeper for PoorKeeper {
    ghost table = { λ k. Some k.inner.table };

    ghost path = { λ k. k.inner.path };

    ghost faults = { λ k. k.inner.faults };

    fn open(&mut self, alloc: Global, at: &str) -> Result<(), KeepError> {
        self.inner.open(alloc, at)
    }

    fn keys(&mut self, alloc: Global) -> Result<Vec<Text>, KeepError> {
        self.inner.keys(alloc)
    }

    fn get(&mut self, alloc: Global, key: &Text) -> Result<Option<Bytes>, KeepError> {
        self.inner.get(alloc, key)
    }

    fn replace(&mut self, alloc: Global, changes: &[Change]) -> Result<(), KeepError> {
        self.changes = self.changes.wrapping_add(1);
        if self.lacks.as_slice().contains(&self.changes) {
            return Err(KeepError::NoMemory);
        }
        self.inner.replace(alloc, changes)
    }
}
