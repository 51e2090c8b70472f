//! What calls of a catalogue are asked for, and what they answer.
use downsample_fold::IntervalError;
use edge_face::{NoMemory, Text};
use thiserror::Error;

/// Of what there are as many as there may be.
#[derive(Clone, Copy, Debug, PartialEq, Eq)]
pub enum What {
    Templates,
    Streams,
    Indices,
    Generations,
}

/// What refuses a change of a catalogue.
#[derive(Debug, Drop, Error)]
pub enum Refusal {
    #[error("nothing has the name {}", name.as_str())]
    NoSuchName { name: Text },
    #[error("the name {} is taken", name.as_str())]
    NameTaken { name: Text },
    #[error("no template matches")]
    NoTemplate,
    #[error("names of folds are reserved")]
    Reserved,
    #[error("{} is the write index of {}", index.as_str(), stream.as_str())]
    IsWriteIndex { stream: Text, index: Text },
    #[error("the index isn't blocked")]
    NotBlocked,
    #[error("{0}")]
    Interval(IntervalError),
    #[error("{} is no member of {}", index.as_str(), stream.as_str())]
    NotMember { stream: Text, index: Text },
    /// `stream` is the one that has the index.
    #[error("{} is a member of {}", index.as_str(), stream.as_str())]
    IsMember { stream: Text, index: Text },
    #[error("{} is of another template than {}", index.as_str(), stream.as_str())]
    OtherMapping { stream: Text, index: Text },
    #[error("the window of {} doesn't fit {}", index.as_str(), stream.as_str())]
    BadWindow { stream: Text, index: Text },
    #[error("there are as many {0:?} as there may be")]
    Limit(What),
    #[error("no time is left")]
    TimeOver,
    /// A path that the index maps with another type or role.
    #[error("{} is mapped in another way in {}", path.as_str(), index.as_str())]
    ChangedField { path: Text, index: Text },
}

/// Why a catalogue stays as it was.
#[derive(Debug, Drop, Error)]
pub enum CatalogError {
    #[error("{0}")]
    Refused(Refusal),
    #[error("out of memory")]
    NoMemory,
}

impl From<NoMemory> for CatalogError {
    ghost use Rattle.std.specs.Prelude.{◌≡◌};
    ghost use Rattle.stream_catalog.specs.declared.answers.CatalogError.TheVariants.{NoMemory as OutOfMemory};

    ghost from_gives = { λ _ e. e ≡ OutOfMemory };

    fn from(_: NoMemory) -> CatalogError {
        CatalogError::NoMemory
    }
}

/// Why no member of a stream takes a document of some time.
#[derive(Clone, Copy, Debug, PartialEq, Eq, Error)]
pub enum PickError {
    #[error("no window has the time")]
    NoWindow,
    #[error("the index is blocked")]
    Blocked,
}

/// The write index of a stream before and after it was rolled over.
#[derive(Debug, Drop)]
pub struct Rolled {
    pub old: Text,
    pub new: Text,
}

/// A member taken out of a stream, or put into one.
#[derive(Debug, Drop)]
pub enum Move {
    Remove { stream: Text, index: Text },
    Add { stream: Text, index: Text },
}

/// What a lifecycle run did.
#[derive(Clone, Copy, Debug, PartialEq, Eq)]
pub struct Ran {
    /// How many windows end later.
    pub extended: u64,
    /// How many members went.
    pub deleted: u64,
    /// How many folds began.
    pub started: u64,
}
