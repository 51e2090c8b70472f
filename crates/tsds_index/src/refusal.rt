//! Why a row isn't put.
use row_cells::MOST_DOCUMENTS;
use thiserror::Error;

/// Why a row isn't put.
#[derive(Clone, Copy, Debug, PartialEq, Eq, Error)]
pub enum PutError {
    /// A row of this series and time is there.
    #[error("a row of this series and time is there")]
    Duplicate,
    /// As many rows are there as an index may have.
    #[error("there are {} documents", MOST_DOCUMENTS)]
    Full,
    #[error("out of memory")]
    NoMemory,
}
