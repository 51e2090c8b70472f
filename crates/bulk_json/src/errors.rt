//! Why a bulk body gives no items.

use edge_face::NoMemory;
use std::alloc::AllocFailed;
use thiserror::Error;

/// Why a bulk body gives no items. Lines are counted from 1.
#[derive(Clone, Copy, Debug, PartialEq, Eq, Error)]
pub enum BulkError {
    /// The line stands in an action's place and is none.
    #[error("malformed action line [{line}]")]
    BadAction { line: u64 },
    /// The action in this line, the last one, lacks its source.
    #[error("missing source line after line [{line}]")]
    MissingSource { line: u64 },
    #[error("no items")]
    Empty,
    #[error("out of memory")]
    NoMemory,
}

impl From<NoMemory> for BulkError {
    ghost use Rattle.std.specs.Prelude.{◌≡◌};
    ghost use Rattle.bulk_json.specs.declared.errors.BulkError.TheVariants.{NoMemory as OutOfMemory};

    ghost from_gives = { λ _ e. e ≡ OutOfMemory };

    fn from(_: NoMemory) -> BulkError {
        BulkError::NoMemory
    }
}

impl<T: Drop> From<AllocFailed<T>> for BulkError {
    ghost use Rattle.std.specs.Prelude.{◌≡◌};
    ghost use Rattle.bulk_json.specs.declared.errors.BulkError.TheVariants.{NoMemory as OutOfMemory};

    ghost from_gives = { λ _ e. e ≡ OutOfMemory };

    fn from(_: AllocFailed<T>) -> BulkError {
        BulkError::NoMemory
    }
}
