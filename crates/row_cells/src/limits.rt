//! How large keys and rows may be.

/// Bytes of a path.
pub const LONGEST_PATH: usize = 512;

/// Bytes of a key.
pub const LONGEST_KEY: usize = 4_096;

/// Bytes of a keyword.
pub const LONGEST_WORD: usize = 32_766;

/// Values of a label.
pub const LONGEST_LIST: usize = 67_108_864;

/// Documents of a row, and of an index.
pub const MOST_DOCUMENTS: u64 = 16_777_216;
