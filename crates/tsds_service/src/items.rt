//! What the reply to a bulk request says of its items.
ghost use Rattle.std.specs.Prelude.{◌≡◌, IfOk};
ghost use Rattle.tsds_service.specs.Bulk as spec;
ghost use Rattle.tsds_service.specs.Causes.{item_said, wrong};
ghost use Rattle.time_text.specs.Instant.{IsInstant};
ghost use Rattle.tsds_service.specs.ItemTimes.{NamesInstant};
ghost use Rattle.tsds_service.specs.declared.causes.ItemCause.TheVariants.{Outside as outside};

use crate::causes::ItemCause;
use crate::reply::Reply;
use crate::wording::{bracketed, doc_kind_text, doc_type, enclosed, limited, named};
use bulk_json::Action;
use edge_face::{NoMemory, Text};
use reply_json::{Members, Out};
use std::alloc::Global;
use time_text::{print_instant, printed_str};

/// The status of what is said of a refused item.
fn status(cause: &ItemCause) -> u16
    ensures { result ≡ (item_said cause.now).status }
{
    match cause {
        ItemCause::Blocked { .. } => 403,
        ItemCause::NoStream { .. } => 404,
        ItemCause::Conflict { .. } => 409,
        ItemCause::Full { .. } => 429,
        _ => 400,
    }
}

/// The type of what is said of a refused item.
fn kind(cause: &ItemCause) -> &'static str
    ensures { result.now ≡ (item_said cause.now).kind }
{
    match cause {
        ItemCause::NoStream { .. } => "index_not_found_exception",
        ItemCause::NoObject => "document_parsing_exception",
        ItemCause::WrongTime { .. } => "document_parsing_exception",
        ItemCause::Blocked { .. } => "cluster_block_exception",
        ItemCause::BadDocument { kind, .. } => doc_type(*kind),
        ItemCause::Conflict { .. } => "version_conflict_engine_exception",
        ItemCause::Full { .. } => "es_rejected_execution_exception",
        _ => "illegal_argument_exception",
    }
}

/// That no window has the time, in words.
fn outside_reason(alloc: Global, time: i64) -> Result<Text, NoMemory>
    requires { IsInstant time }
    ensures { IfOk result (λ text. text ≡ (item_said (outside time)).reason) }
{
    let printed = print_instant(time);
    let time = Text::new(alloc, printed_str(&printed))?;
    let text = enclosed(
        alloc,
        "the document timestamp",
        &time,
        " is outside of all windows",
    )?;
    Ok(text)
}

/// What is said of a refused item, in words.
fn reason(alloc: Global, cause: &ItemCause) -> Result<Text, NoMemory>
    requires { NamesInstant cause.now }
    ensures { IfOk result (λ text. text ≡ (item_said cause.now).reason) }
{
    match cause {
        ItemCause::OnlyCreate => Ok(Text::fixed("only create is allowed in data streams")),
        ItemCause::NoStream { name } => bracketed(alloc, "no such index", name),
        ItemCause::NoObject => Ok(Text::fixed("source is not a JSON object")),
        ItemCause::WrongTime { kind } => {
            bracketed(alloc, doc_kind_text(*kind), &Text::fixed("@timestamp"))
        }
        ItemCause::Outside { time } => outside_reason(alloc, *time),
        ItemCause::Blocked { index } => enclosed(alloc, "index", index, " blocked"),
        ItemCause::BadDocument { kind, path } => bracketed(alloc, doc_kind_text(*kind), path),
        ItemCause::NoRouting => Ok(Text::fixed("no routing field")),
        ItemCause::LongKey { bytes } => limited(alloc, "series key of", *bytes, " bytes"),
        ItemCause::Conflict { id } => {
            named(alloc, id, ": version conflict, document already exists")
        }
        ItemCause::Full { index } => enclosed(alloc, "index", index, " is full"),
    }
}

/// What is said of an item that the stream refused.
fn wrong_tree(
    alloc: Global,
    stream: Text,
    status: u16,
    kind: &'static str,
    reason: Text,
) -> Result<Out, NoMemory>
    ensures { IfOk result (λ out. out ≡ spec.wrong_tree stream (wrong status kind.now reason)) }
{
    let error = Members::with_capacity(alloc, 2)?
        .with("type", Out::fixed(kind))?
        .with("reason", Out::Word(reason))?;
    let members = Members::with_capacity(alloc, 3)?
        .with("_index", Out::Word(stream))?
        .with("status", Out::Num(i128::from(status)))?
        .with("error", error.object())?;
    Ok(members.object())
}

/// What is said of an item of a stream that is refused.
pub(crate) fn barred_tree(alloc: Global, stream: Text, cause: &ItemCause) -> Result<Out, NoMemory>
    requires { NamesInstant cause.now }
    ensures { IfOk result (λ out. out ≡ spec.wrong_tree stream (item_said cause.now)) }
{
    let reason = reason(alloc, cause)?;
    let tree = wrong_tree(alloc, stream, status(cause), kind(cause), reason)?;
    Ok(tree)
}

/// What is said of an item that an index took, under this id.
pub(crate) fn created_tree(alloc: Global, index: Text, id: Text) -> Result<Out, NoMemory>
    ensures { IfOk result (λ out. out ≡ spec.created_tree index id) }
{
    let members = Members::with_capacity(alloc, 4)?
        .with("_index", Out::Word(index))?
        .with("_id", Out::Word(id))?
        .with("result", Out::fixed("created"))?
        .with("status", Out::Num(201))?;
    Ok(members.object())
}

/// An item, by its action and what is said of it.
pub(crate) fn under_action(alloc: Global, action: Action, said: Out) -> Result<Out, NoMemory>
    ensures { IfOk result (λ out. out ≡ spec.under_action action said) }
{
    let members = Members::with_capacity(alloc, 1)?.with(action.name(), said)?;
    Ok(members.object())
}

/// The reply to a bulk request of these items, and whether one of them was refused.
pub(crate) fn bulk_reply(alloc: Global, errors: bool, items: Vec<Out>) -> Result<Reply, NoMemory>
    ensures { IfOk result (λ reply. reply ≡ spec.bulk_told errors items.items) }
{
    let members = Members::with_capacity(alloc, 2)?
        .with("errors", Out::Flag(errors))?
        .with("items", Out::list(items))?;
    Ok(Reply {
        status: 200,
        body: members.object(),
    })
}
