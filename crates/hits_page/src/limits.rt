//! How deep a page may lie, and by how many values it may be sorted.

/// The last hit that a page may have.
pub const DEEPEST: u64 = 10_000;

/// Entries of a sort.
pub const MOST_ENTRIES: usize = 3;
