//! How large templates may be, and how far they look where they don't say.

/// Fields, with `@timestamp`.
pub const MOST_FIELDS: usize = 1_000;

/// Patterns.
pub const MOST_PATTERNS: usize = 16;

/// The greatest priority.
pub const GREATEST_PRIORITY: u64 = 2_147_483_647;

/// Bytes of the path of a setting, which is `index.number_of_replicas`.
pub(crate) const LONGEST_SETTING: usize = 24;

/// Shards.
pub const MOST_SHARDS: u64 = 64;

/// The shortest time to look back or ahead: one minute, in milliseconds.
pub const SHORTEST_LOOK: i64 = 60_000;

/// The longest: seven days.
pub const LONGEST_LOOK: i64 = 604_800_000;

/// How far to look back where nothing is said: two hours.
pub const USUAL_LOOK_BACK: i64 = 7_200_000;

/// How far to look ahead: half an hour.
pub const USUAL_LOOK_AHEAD: i64 = 1_800_000;
