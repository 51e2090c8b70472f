ghost use Rattle.std.specs.Prelude.{◌≡◌, map};
ghost use Rattle.serde_json.specs.View.{view, members_view};
ghost use Rattle.json_walk.specs.Names.{are_names, has_names as are_all_names};

use serde_json::{Map, Value};

/// Whether the value is an object with members of these names, and no other. The names are given in
/// byte order.
pub fn has_names(value: &Value, names: &[&str]) -> bool
    ensures { result ≡ are_all_names (map (λ n. n.now) names.now) (view value.now) }
{
    match value {
        Value::Object(members) => are_named(members, names),
        _ => false,
    }
}

fn are_named(members: &Map<String, Value>, names: &[&str]) -> bool
    ensures { result ≡ are_names (map (λ n. n.now) names.now) (members_view members.now.entries) }
{
    let mut at = 0;
    for (name, _) in members.iter() {
        if at == names.len() || names[at] != name.as_str() {
            return false;
        }
        at += 1;
    }
    at == names.len()
}
