ghost use Rattle.std.specs.Prelude.{◌≡◌, ◌≤◌, Some, None, IfOk, Err};
ghost use Rattle.serde_json.specs.Data.{depth as nesting};
ghost use Rattle.serde_json.specs.Read.{max_depth};
ghost use Rattle.serde_json.specs.View.{view};
ghost use Rattle.json_walk.specs.Tree.{tree_of};

use serde_json::Value;
use std::alloc::Global;
use thiserror::Error;

/// Why a line gave no tree.
#[derive(Clone, Copy, Debug, PartialEq, Eq, Error)]
pub enum NotJson {
    /// The bytes are no JSON, or no UTF-8.
    #[error("the line is no JSON")]
    Bad,
    #[error("out of memory")]
    NoMemory,
}

/// Reads the JSON value that `bytes` are (RFC 8259), as `serde_json` reads it: the last of several
/// members of one name stays, and at most 127 levels nest.
#[tactic(auto, using(crate::specs::TreeLaws::tree_at_utf8, crate::specs::TreeLaws::tree_at_none))]
pub fn read_line(alloc: Global, bytes: &[u8]) -> Result<Value, NotJson>
    ensures ok { IfOk result (λ v. tree_of bytes.now ≡ Some (view v)) }
    ensures nests { IfOk result (λ v. nesting (view v) ≤ max_depth) }
    ensures bad { result ≡ Err NotJson.Bad → tree_of bytes.now ≡ None }
{
    match Value::from_slice(alloc, bytes) {
        Ok(value) => Ok(value),
        Err(e) => {
            if e.is_memory() {
                Err(NotJson::NoMemory)
            } else {
                Err(NotJson::Bad)
            }
        }
    }
}
