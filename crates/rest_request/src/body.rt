//! Bodies as JSON.
ghost use Rattle.std.specs.Prelude.{◌≡◌, IfOk};
ghost use Rattle.std.specs.Option.{option_map};
ghost use Rattle.serde_json.specs.View.{view};
ghost use Rattle.rest_request.specs.Body.{tree_if_object, object_of, optional_of, is_nothing as is_no_body};
ghost use Rattle.rest_request.specs.Bytes as spec;

use bulk_json::{is_blank, is_space};
use edge_face::NoMemory;
use json_walk::{NotJson, is_object, read_line};
use serde_json::Value;
use std::alloc::Global;

/// The object that a body is, or none.
#[tactic(auto, unfolding(crate::specs::Body::object_of))]
pub fn object(alloc: Global, body: &[u8]) -> Result<Option<Value>, NoMemory>
    ensures { IfOk result (λ found. option_map view found ≡ object_of body.now) }
{
    match read_line(alloc, body) {
        Ok(tree) => {
            if is_object(&tree) {
                Ok(Some(tree))
            } else {
                Ok(None)
            }
        }
        Err(NotJson::Bad) => Ok(None),
        Err(NotJson::NoMemory) => Err(NoMemory),
    }
}

/// What stands behind JSON's white space.
fn behind_spaces(bytes: &[u8]) -> &[u8]
    ensures { result.now ≡ spec.behind_spaces bytes.now }
{
    for (place, byte) in bytes.iter().enumerate() {
        if !is_space(*byte) {
            return bytes.split_at(place).1;
        }
    }
    bytes.split_at(bytes.len()).1
}

/// Whether the bytes are a closing brace and white space.
fn is_close(bytes: &[u8]) -> bool
    ensures { result ≡ spec.is_close bytes.now }
{
    match bytes.split_first() {
        None => false,
        Some((first, rest)) => *first == b'}' && is_blank(rest),
    }
}

fn is_none_or_braces(bytes: &[u8]) -> bool
    ensures { result ≡ spec.is_none_or_braces bytes.now }
{
    match bytes.split_first() {
        None => true,
        Some((first, rest)) => *first == b'{' && is_close(behind_spaces(rest)),
    }
}

/// Whether a body is as good as none: blank, or an object without members. It is told by the bytes, without a tree.
pub fn is_nothing(body: &[u8]) -> bool
    ensures { result ≡ is_no_body body.now }
{
    is_none_or_braces(behind_spaces(body))
}
