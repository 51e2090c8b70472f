//! Patterns for the names of streams.
ghost use Rattle.std.specs.Prelude.{◌≡◌};
ghost use Rattle.index_names.specs.Patterns as spec;

use crate::names::{STREAM_LIMIT, is_stream_name};

/// Whether a pattern is `*` with nothing before it, or with the name of a stream.
fn is_front_pattern(pattern: &[u8]) -> bool
    ensures { result ≡ spec.is_front_pattern pattern.now }
{
    match pattern.split_last() {
        Some((last, front)) if *last == b'*' => {
            pattern.len() <= 1 || (pattern.len() <= STREAM_LIMIT && is_stream_name(front))
        }
        _ => false,
    }
}

/// Whether the bytes are a pattern: the name of a stream, or a `*` with nothing or such a name before it, up to 100 bytes.
#[tactic(auto, unfolding(crate::specs::Patterns::is_pattern))]
pub fn is_pattern(pattern: &[u8]) -> bool
    ensures { result ≡ spec.is_pattern pattern.now }
{
    is_stream_name(pattern) || is_front_pattern(pattern)
}

/// Whether a name begins with these bytes.
fn begins_with(front: &[u8], name: &[u8]) -> bool
    ensures { result ≡ spec.begins_with front.now name.now }
{
    name.starts_with(front)
}

/// Whether a pattern takes a name: the name that it is, or, where it ends in `*`, each that begins with what stands before.
#[tactic(auto, unfolding(crate::specs::Patterns::pattern_takes))]
pub fn pattern_takes(pattern: &[u8], name: &[u8]) -> bool
    ensures { result ≡ spec.pattern_takes pattern.now name.now }
{
    match pattern.split_last() {
        Some((last, front)) if *last == b'*' => begins_with(front, name),
        _ => pattern == name,
    }
}
