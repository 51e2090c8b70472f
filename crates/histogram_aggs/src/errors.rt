//! Why aggregations aren't answered.
ghost use Rattle.std.specs.Prelude.{◌≡◌};
ghost use Rattle.histogram_aggs.specs.declared.errors.AggError.TheVariants.{NoMemory as OutOfMemory};

use crate::limits::MOST_BUCKETS;
use edge_face::{NoMemory, Text};
use thiserror::Error;

/// Why aggregations aren't answered.
#[derive(Debug, Drop, Error)]
pub enum AggError {
    /// The body is no object of well-formed aggregations by name.
    #[error("bad aggregation")]
    Shape,
    /// A kind may not ask the field: of several the least path in byte order, and then the least kind.
    #[error("field [{}] is not supported for aggregation [{}]", path.as_str(), kind.as_str())]
    WrongField { path: Text, kind: Text },
    /// The answer would have more buckets than that, at all levels together.
    #[error("more than [{}] buckets", MOST_BUCKETS)]
    TooManyBuckets,
    #[error("out of memory")]
    NoMemory,
}

impl From<NoMemory> for AggError {
    ghost from_gives = { λ _ e. e ≡ OutOfMemory };

    fn from(_: NoMemory) -> AggError {
        AggError::NoMemory
    }
}
