//! Paths that fields may have.
ghost use Rattle.std.specs.Prelude.{◌≡◌, true};
ghost use Rattle.ts_mapping.specs.Paths as spec;

use row_cells::LONGEST_PATH;

/// Whether no part between dots is empty.
fn has_parts(path: &[u8]) -> bool
    ensures { result ≡ spec.has_parts true path.now }
{
    let mut fresh = true;
    for byte in path {
        if *byte == b'.' {
            if fresh {
                return false;
            }
            fresh = true;
        } else {
            fresh = false;
        }
    }
    !fresh
}

/// The part before the first dot.
fn first_part(path: &[u8]) -> &[u8]
    ensures { result.now ≡ spec.first_part path.now }
{
    for (place, byte) in path.iter().enumerate() {
        if *byte == b'.' {
            return &path[..place];
        }
    }
    path
}

/// Whether a name is one that documents have by themselves.
fn is_reserved(name: &[u8]) -> bool
    ensures { result ≡ spec.is_among name.now spec.reserved }
{
    name == b"_doc_count".as_slice()
        || name == b"_id".as_slice()
        || name == b"_index".as_slice()
        || name == b"_source".as_slice()
        || name == b"_tsid".as_slice()
}

/// Whether bytes are as a field's path has them.
#[tactic(auto, unfolding(crate::specs::Paths::has_path_form))]
fn has_form(path: &[u8]) -> bool
    ensures { result ≡ spec.has_path_form path.now }
{
    path.len() <= LONGEST_PATH && has_parts(path) && !is_reserved(first_part(path))
}

/// Whether a field may have the path: it has at most 512 bytes, no part is empty, and the first isn't reserved.
#[tactic(auto, using(crate::specs::PathLaws::of_text))]
pub fn is_field_path(path: &str) -> bool
    ensures { result ≡ spec.is_field_path path.now }
{
    has_form(path.as_bytes())
}
