//! How a run ends before the end of its script.

use crate::status::{KEEPER_FAULT, NO_MEMORY, READ_FAULT, TOO_LONG, WRITE_FAULT};
use edge_face::{KeepError, LineError, NoMemory};
use std::alloc::AllocError;
use thiserror::Error;

/// Why a run ends before the end of its script.
#[derive(Clone, Copy, Debug, PartialEq, Eq, Error)]
pub enum RunError {
    #[error("out of memory")]
    NoMemory,
    #[error("read fault")]
    Read,
    /// The keeper failed where an event was to write.
    #[error("keeper fault")]
    Store,
    #[error("write fault")]
    Write,
    /// The script passes one of its lengths.
    #[error("input too long")]
    TooLong,
}

impl From<LineError> for RunError {
    ghost use Rattle.std.specs.Prelude.{◌≡◌};
    ghost use Rattle.tsds_cli.specs.Errors.{run_error_of};

    ghost from_gives = { λ e r. r ≡ run_error_of e };

    fn from(error: LineError) -> RunError {
        match error {
            LineError::Read => RunError::Read,
            LineError::TooLong { .. } => RunError::TooLong,
            LineError::NoMemory => RunError::NoMemory,
        }
    }
}

impl From<KeepError> for RunError {
    ghost use Rattle.std.specs.Prelude.{◌≡◌};
    ghost use Rattle.tsds_cli.specs.Errors.{broken_by};

    ghost from_gives = { λ e r. r ≡ broken_by e };

    fn from(error: KeepError) -> RunError {
        match error {
            KeepError::NoMemory => RunError::NoMemory,
            KeepError::Failed => RunError::Store,
        }
    }
}

impl From<NoMemory> for RunError {
    ghost use Rattle.std.specs.Prelude.{◌≡◌};
    ghost use Rattle.tsds_cli.specs.declared.errors.RunError.TheVariants.{NoMemory as OutOfMemory};

    ghost from_gives = { λ _ e. e ≡ OutOfMemory };

    fn from(_: NoMemory) -> RunError {
        RunError::NoMemory
    }
}

impl From<AllocError> for RunError {
    ghost use Rattle.std.specs.Prelude.{◌≡◌};
    ghost use Rattle.tsds_cli.specs.declared.errors.RunError.TheVariants.{NoMemory as OutOfMemory};

    ghost from_gives = { λ _ e. e ≡ OutOfMemory };

    fn from(_: AllocError) -> RunError {
        RunError::NoMemory
    }
}

impl RunError {
    ghost use Rattle.std.specs.Prelude.{◌≡◌};
    ghost use Rattle.tsds_cli.specs.Errors.{status_of};

    /// The status that the program ends with.
    pub fn status(self) -> u8
        ensures { result ≡ status_of self }
    {
        match self {
            RunError::NoMemory => NO_MEMORY,
            RunError::Read => READ_FAULT,
            RunError::Store => KEEPER_FAULT,
            RunError::Write => WRITE_FAULT,
            RunError::TooLong => TOO_LONG,
        }
    }
}
