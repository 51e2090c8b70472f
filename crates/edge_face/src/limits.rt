//! How long inputs may be, and how far time goes.

/// The most bytes that a line may have before its newline or the end.
pub const LINE_LIMIT: u64 = 1_048_576;

/// The most bytes that the lines of one reader, or the messages of one link, may have together.
pub const INPUT_LIMIT: u64 = 68_719_476_736;

/// The most bytes that the body of a request may have.
pub const BODY_LIMIT: u64 = 67_108_864;

/// The last millisecond of the year 9999 in UTC, since 1970-01-01T00:00:00Z: no moment is later.
pub const LAST_INSTANT: i64 = 253_402_300_799_999;
