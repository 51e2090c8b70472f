//! How many there may be of everything.
ghost use Rattle.std.specs.Prelude.{◌≡◌, ◌<◌, nat_le, false};

/// The most templates.
pub const MOST_TEMPLATES: usize = 1_000;

/// The most streams.
pub const MOST_STREAMS: usize = 1_000;

/// The most indices, in streams or beside them.
pub const MOST_INDICES: usize = 10_000;

/// Whether there are as many as there may be.
pub(crate) fn is_full(most: usize, count: usize) -> bool
    ensures test { result ≡ nat_le most count }
    ensures room { result ≡ false → count < most }
{
    most <= count
}
