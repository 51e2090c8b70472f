//! Printing.
ghost use Rattle.std.specs.Prelude.{◌≡◌, ◌++◌, OnOk, OnErr, map, ◌∷◌, []};
ghost use Rattle.std.specs.Fmt.{signed_decimal};
ghost use Rattle.json.specs.Token.{begin_array, end_array, begin_object, end_object, number};
ghost use Rattle.reply_json.specs.Reply.{text};
ghost use Rattle.reply_json.specs.Tokens.{tokens_of, member_tokens, joined_tokens};

use crate::out::{Member, Out};
use edge_face::NoMemory;
use itoa::Buffer;
use json::Writer;
use std::mem;

/// Appends the JSON text of the tree, without spaces. After a refusal `into` is as it was.
pub fn print(out: &Out, into: &mut Vec<u8>) -> Result<(), NoMemory>
    ensures ok { OnOk result (into.new.items ≡ into.old.items ++ text out.now) }
    ensures err { OnErr result (into.new.items ≡ into.old.items) }
{
    let start = into.len();
    let empty = Vec::new(*into.allocator());
    let mut writer = Writer::new(mem::replace(into, empty));
    match put_tree(out, &mut writer) {
        Ok(()) => {
            *into = writer.into_inner();
            Ok(())
        }
        Err(e) => {
            let mut bytes = writer.into_inner();
            bytes.truncate(start);
            *into = bytes;
            Err(e)
        }
    }
}

#[cycle(put)]
fn put_tree(out: &Out, writer: &mut Writer) -> Result<(), NoMemory>
    ensures ok { OnOk result (writer.new.tokens ≡ writer.old.tokens ++ tokens_of out.now) }
    ensures before { writer.new.before ≡ writer.old.before }
{
    match out {
        Out::Null => writer.null()?,
        Out::Flag(flag) => writer.boolean(*flag)?,
        Out::Num(n) => put_number(*n, writer)?,
        Out::Word(word) => writer.string(word.as_str())?,
        Out::List(elements) => put_elements(elements.as_slice(), writer)?,
        Out::Object(members) => put_members(members.as_slice(), writer)?,
    }
    Ok(())
}

fn put_number(n: i128, writer: &mut Writer) -> Result<(), NoMemory>
    ensures ok { OnOk result (writer.new.tokens ≡ writer.old.tokens ++ number (signed_decimal n) ∷ []) }
    ensures before { writer.new.before ≡ writer.old.before }
{
    writer.number(Buffer::new().format(n))?;
    Ok(())
}

#[cycle(put)]
fn put_elements(elements: &[Out], writer: &mut Writer) -> Result<(), NoMemory>
    ensures ok { OnOk result (writer.new.tokens
        ≡ writer.old.tokens ++ begin_array ∷ (joined_tokens (map tokens_of elements.now) ++ end_array ∷ [])) }
    ensures before { writer.new.before ≡ writer.old.before }
{
    writer.begin_array()?;
    for element in elements {
        put_tree(element, writer)?;
    }
    writer.end_array()?;
    Ok(())
}

#[cycle(put)]
fn put_members(members: &[Member], writer: &mut Writer) -> Result<(), NoMemory>
    ensures ok { OnOk result (writer.new.tokens
        ≡ writer.old.tokens ++ begin_object ∷ (joined_tokens (map member_tokens members.now) ++ end_object ∷ [])) }
    ensures before { writer.new.before ≡ writer.old.before }
{
    writer.begin_object()?;
    for member in members {
        put_member(member, writer)?;
    }
    writer.end_object()?;
    Ok(())
}

#[cycle(put)]
fn put_member(member: &Member, writer: &mut Writer) -> Result<(), NoMemory>
    ensures ok { OnOk result (writer.new.tokens ≡ writer.old.tokens ++ member_tokens member.now) }
    ensures before { writer.new.before ≡ writer.old.before }
{
    writer.key(member.name.as_str())?;
    put_tree(&member.value, writer)?;
    Ok(())
}
