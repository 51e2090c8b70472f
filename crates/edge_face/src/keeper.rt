//! Keepers of tables.
ghost use Rattle.std.specs.Prelude.{◌≡◌, ◌≤◌, ℕ, List, Option, Some, IsSome, IfOk, IfSome, OnErr, OnOk, Err};
ghost use Rattle.std.specs.List.Sorted.{IsStrictlySortedBy};
ghost use Rattle.std.specs.Ordering.{nat_cmp};
ghost use Rattle.std.specs.Cmp.Lexicographic.{slice_cmp};
ghost use Rattle.std.specs.Option.{option_map};
ghost use Rattle.std.specs.Map.{keys_of};
ghost use Rattle.edge_face.specs.Contents.{Rose};
ghost use Rattle.edge_face.specs.Table.{Table, bytes_at, changed_by, HaveDistinctKeys};

use crate::device::Failed;
use crate::text::{Bytes, NoMemory, Text};
use std::alloc::Global;
use thiserror::Error;

/// A change of a table.
#[derive(Debug, Drop)]
pub enum Change {
    /// The key has these bytes.
    Put { key: Text, bytes: Bytes },
    /// The key isn't there.
    Remove { key: Text },
}

/// Why a keeper did nothing.
#[derive(Clone, Copy, Debug, PartialEq, Eq, Error)]
pub enum KeepError {
    /// It failed, and its count of faults rose.
    #[error("the keeper failed")]
    Failed,
    /// There was no memory for what the call had to make.
    #[error("out of memory")]
    NoMemory,
}

impl From<Failed> for KeepError {
    ghost use Rattle.std.specs.Prelude.{◌≡◌};
    ghost use Rattle.edge_face.specs.declared.keeper.KeepError.TheVariants.{Failed as DidFail};

    ghost from_gives = { λ _ e. e ≡ DidFail };

    fn from(_: Failed) -> KeepError {
        KeepError::Failed
    }
}

impl From<NoMemory> for KeepError {
    ghost use Rattle.std.specs.Prelude.{◌≡◌};
    ghost use Rattle.edge_face.specs.declared.keeper.KeepError.TheVariants.{NoMemory as OutOfMemory};

    ghost from_gives = { λ _ e. e ≡ OutOfMemory };

    fn from(_: NoMemory) -> KeepError {
        KeepError::NoMemory
    }
}

/// What keeps a table of bytes by keys.
///
/// Its meanings are the table, where it tells it, the path at which it was opened last, and the count of its faults, which never falls.
pub trait Keeper {
    ghost table: { Self → Option Table };

    ghost path: { Self → Option (List ℕ) };

    ghost faults: { Self → ℕ };

    /// Opens the table at a path. A table that was told stays; one that wasn't may be told from now on.
    fn open(&mut self, alloc: Global, at: &str) -> Result<(), KeepError>
        ensures opened { OnOk result (path self.new ≡ Some at.now) }
        ensures told { IfSome (table self.old) (λ told. table self.new ≡ Some told) }
        ensures refused { OnErr result ((table self.new ≡ table self.old) × (path self.new ≡ path self.old)) }
        ensures counted { faults self.old ≤ faults self.new }
        ensures caused { result ≡ Err KeepError.Failed → Rose (faults self.old) (faults self.new) };

    /// All keys, ascending in the order of bytes.
    fn keys(&mut self, alloc: Global) -> Result<Vec<Text>, KeepError>
        requires { IsSome (path self.old) }
        ensures all { IfOk result (λ keys. IfSome (table self.old) (λ told. keys.items ≡ keys_of told)) }
        ensures ascend { IfOk result (λ keys. IsStrictlySortedBy (slice_cmp nat_cmp) keys.items) }
        ensures kept { (table self.new ≡ table self.old) × (path self.new ≡ path self.old) }
        ensures counted { faults self.old ≤ faults self.new }
        ensures caused { result ≡ Err KeepError.Failed → Rose (faults self.old) (faults self.new) };

    /// The bytes at a key, or none where the table lacks it.
    fn get(&mut self, alloc: Global, key: &Text) -> Result<Option<Bytes>, KeepError>
        requires { IsSome (path self.old) }
        ensures found { IfOk result (λ found. IfSome (table self.old) (λ told. found ≡ bytes_at key.now told)) }
        ensures kept { (table self.new ≡ table self.old) × (path self.new ≡ path self.old) }
        ensures counted { faults self.old ≤ faults self.new }
        ensures caused { result ≡ Err KeepError.Failed → Rose (faults self.old) (faults self.new) };

    /// Makes all changes or none. Removing a key that isn't there changes nothing.
    fn replace(&mut self, alloc: Global, changes: &[Change]) -> Result<(), KeepError>
        requires open { IsSome (path self.old) }
        requires distinct { HaveDistinctKeys changes.now }
        ensures all { OnOk result (table self.new ≡ option_map (λ told. changed_by told changes.now) (table self.old)) }
        ensures none { OnErr result (table self.new ≡ table self.old) }
        ensures kept { path self.new ≡ path self.old }
        ensures counted { faults self.old ≤ faults self.new }
        ensures caused { result ≡ Err KeepError.Failed → Rose (faults self.old) (faults self.new) };
}
