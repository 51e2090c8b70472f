//! How large an answer may be.

/// Buckets of an answer, at all levels together, and so those that `size` may ask for.
pub const MOST_BUCKETS: u64 = 65_536;
