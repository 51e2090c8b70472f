//! The limits that requests are told of, beside those of catalogues.

/// The greatest number of moves in one request.
pub(crate) const MOST_MOVES: usize = 1_000;

/// The greatest number of buckets in one reply, at all levels.
pub(crate) const MOST_BUCKETS: u64 = 65_536;

/// No page of hits ends behind this one.
pub(crate) const LAST_HIT: u64 = 10_000;
