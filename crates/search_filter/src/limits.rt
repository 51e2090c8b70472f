//! How much a query may name.

/// Values of `terms`.
pub const MOST_TERMS: usize = 65_536;
