//! Names of streams, templates, targets and indices, told by their bytes.
ghost use Rattle.std.specs.Prelude.{◌≡◌};
ghost use Rattle.index_names.specs.Names as spec;

/// The most bytes that the name of a stream or a template has.
pub const STREAM_LIMIT: usize = 100;

/// The most bytes that the name of an index or of the target of a downsampling has.
pub const INDEX_LIMIT: usize = 160;

fn is_letter_or_digit(byte: u8) -> bool
    ensures { result ≡ spec.is_letter_or_digit byte }
{
    byte.is_ascii_lowercase() || byte.is_ascii_digit()
}

fn is_name_byte(byte: u8) -> bool
    ensures { result ≡ spec.is_name_byte byte }
{
    is_letter_or_digit(byte) || byte == b'-' || byte == b'_' || byte == b'.'
}

#[tactic(auto, unfolding(crate::specs::Names::are_name_bytes))]
fn are_name_bytes(bytes: &[u8]) -> bool
    ensures { result ≡ spec.are_name_bytes bytes.now }
{
    bytes.iter().all(|b| is_name_byte(*b))
}

/// Whether a name begins with a letter or a digit, and all of it are bytes of names.
fn is_plain_name(name: &[u8]) -> bool
    ensures { result ≡ spec.is_plain_name name.now }
{
    match name {
        [] => false,
        [first, rest @ ..] => is_letter_or_digit(*first) && are_name_bytes(rest),
    }
}

/// Whether a name begins like that of a backing index: `.ds-` with bytes of names behind it.
fn is_hidden_name(name: &[u8]) -> bool
    ensures { result ≡ spec.is_hidden_name name.now }
{
    if name.len() <= 4 {
        return false;
    }
    let (front, rest) = name.split_at(4);
    front == b".ds-".as_slice() && are_name_bytes(rest)
}

/// Whether the bytes are the name of a stream or a template: 1 to 100 bytes of `a` to `z`, `0` to `9`, `-`, `_` and `.`,
/// of which the first is a letter or a digit.
#[tactic(auto, unfolding(crate::specs::Names::is_stream_name))]
pub fn is_stream_name(name: &[u8]) -> bool
    ensures { result ≡ spec.is_stream_name name.now }
{
    name.len() <= STREAM_LIMIT && is_plain_name(name)
}

/// Whether the bytes are the name of the target of a downsampling: as a stream's, up to 160 bytes.
#[tactic(auto, unfolding(crate::specs::Names::is_target_name))]
pub fn is_target_name(name: &[u8]) -> bool
    ensures { result ≡ spec.is_target_name name.now }
{
    name.len() <= INDEX_LIMIT && is_plain_name(name)
}

/// Whether the bytes are the name of an index: as a target's, or `.ds-` and at least one byte of names, up to 160 bytes.
#[tactic(auto, unfolding(crate::specs::Names::is_index_name))]
pub fn is_index_name(name: &[u8]) -> bool
    ensures { result ≡ spec.is_index_name name.now }
{
    name.len() <= INDEX_LIMIT && (is_plain_name(name) || is_hidden_name(name))
}
