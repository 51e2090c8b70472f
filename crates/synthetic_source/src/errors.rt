//! Faults of documents.
use edge_face::Text;
use thiserror::Error;

/// What is wrong with a document at a path.
#[derive(Clone, Copy, Debug, PartialEq, Eq)]
pub enum DocKind {
    /// There is no leaf at `@timestamp`.
    NoTime,
    /// There are two or more, or one that is no instant.
    BadTime,
    /// A leaf stands where no field is, in a mapping that is strict, or at `_doc_count`.
    Unmapped,
    /// A leaf stands above or below a field.
    NotLeaf,
    /// A leaf is no value of the field's type.
    WrongType,
    /// A dimension or a metric has two or more leaves.
    ManyValues,
    /// A leaf at an aggregate is no aggregate.
    BadAggregate,
}

/// Why a document is refused: the first fault in byte order of the paths, a fault of the time before all others.
#[derive(Debug, Drop, Error)]
pub enum DocError {
    #[error("the document is refused")]
    Refused { kind: DocKind, path: Text },
    #[error("out of memory")]
    NoMemory,
}

impl From<edge_face::NoMemory> for DocError {
    ghost use Rattle.std.specs.Prelude.{◌≡◌};
    ghost use Rattle.synthetic_source.specs.declared.errors.DocError.TheVariants.{NoMemory as OutOfMemory};

    ghost from_gives = { λ _ e. e ≡ OutOfMemory };

    fn from(_: edge_face::NoMemory) -> DocError {
        DocError::NoMemory
    }
}
