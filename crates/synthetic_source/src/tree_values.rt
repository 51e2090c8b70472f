// Reply trees as values.
ghost use Rattle.std.specs.Prelude.{◌≡◌, map, IfOk, OnOk};
ghost use Rattle.serde_json.specs.Data.{no_members, put};
ghost use Rattle.serde_json.specs.View.{view, members_view};
ghost use Rattle.reply_json.specs.Reading.{members_onto};
ghost use Rattle.synthetic_source.specs.Replies.{data_of, member_data, number_data};

use edge_face::NoMemory;
use reply_json::{Member, Out};
use serde_json::{Map, Value};
use std::alloc::Global;

// A whole number of 64 bits, with a sign or without; another has no value.
fn number_value(number: i128) -> Value
    ensures { view result ≡ number_data number }
{
    if let Ok(natural) = u64::try_from(number) {
        return Value::from(natural);
    }
    match i64::try_from(number) {
        Ok(whole) => Value::from(whole),
        Err(_) => Value::Null,
    }
}

#[tactic(auto, using(crate::proofs::ValueTrees::put_shown))]
fn insert(
    alloc: Global,
    name: &str,
    value: Value,
    found: &mut Map<String, Value>,
) -> Result<(), NoMemory>
    ensures { OnOk result (members_view found.new.entries ≡ put name.now (view value) (members_view found.old.entries)) }
{
    let name = String::from_str(alloc, name)?;
    let _ = found.insert(name, value)?;
    Ok(())
}

/// The value that a reply tree is. A number of more than 64 bits is null.
#[cycle(value)]
pub fn tree_value(alloc: Global, out: &Out) -> Result<Value, NoMemory>
    ensures { IfOk result (λ v. view v ≡ data_of out.now) }
{
    match out {
        Out::Null => Ok(Value::Null),
        Out::Flag(flag) => Ok(Value::from(*flag)),
        Out::Num(number) => Ok(number_value(*number)),
        Out::Word(text) => Ok(Value::try_from_str(alloc, text.as_str())?),
        Out::List(elements) => {
            let values = element_values(alloc, elements.as_slice())?;
            Ok(Value::Array(values))
        }
        Out::Object(members) => {
            let members = member_values(alloc, members.as_slice())?;
            Ok(Value::Object(members))
        }
    }
}

#[cycle(value)]
fn element_values(alloc: Global, elements: &[Out]) -> Result<Vec<Value>, NoMemory>
    ensures { IfOk result (λ values. map view values.items ≡ map data_of elements.now) }
{
    let mut values = Vec::with_capacity(alloc, elements.len())?;
    for element in elements {
        values.push(tree_value(alloc, element)?)?;
    }
    Ok(values)
}

#[cycle(value)]
fn member_values(alloc: Global, members: &[Member]) -> Result<Map<String, Value>, NoMemory>
    ensures { IfOk result (λ found. members_view found.entries ≡ members_onto (map member_data members.now) no_members) }
{
    let mut found = Map::new(alloc);
    for member in members {
        put_member(alloc, member, &mut found)?;
    }
    Ok(found)
}

#[cycle(value)]
fn put_member(
    alloc: Global,
    member: &Member,
    found: &mut Map<String, Value>,
) -> Result<(), NoMemory>
    ensures { OnOk result (members_view found.new.entries
        ≡ put (member_data member.now).0 (member_data member.now).1 (members_view found.old.entries)) }
{
    let value = tree_value(alloc, &member.value)?;
    insert(alloc, member.name.as_str(), value, found)?;
    Ok(())
}
