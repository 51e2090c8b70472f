//! Replies to requests that are accepted.
ghost use Rattle.std.specs.Prelude.{◌≡◌, [], ◌∷◌, codes, pos, IfOk};
ghost use Rattle.reply_json.specs.Trees.{member};
ghost use Rattle.reply_json.specs.declared.out.Out.{Num as number, Object as object, Word as word};
ghost use Rattle.time_text.specs.Instant.{IsInstant};
ghost use Rattle.time_text.specs.Printed.{instant_text};
ghost use Rattle.tsds_service.specs.Replies as spec;

use crate::reply::Reply;
use edge_face::{NoMemory, Text};
use reply_json::{Members, Out};
use std::alloc::Global;
use stream_catalog::{HeldIndex, Ran, Rolled, StreamFacts, TaskFacts};
use time_text::{Interval, print_instant, printed_str};

/// The reply to an accepted request that has these members.
fn accepted(members: Members) -> Reply
    ensures { result ≡ spec.accepted members }
{
    Reply {
        status: 200,
        body: members.object(),
    }
}

/// A number of things.
fn count_tree(count: u64) -> Out
    ensures { result ≡ number (pos count) }
{
    Out::Num(i128::from(count))
}

/// The first member of replies that acknowledge, with room for so many.
fn acknowledged(alloc: Global, number: usize) -> Result<Members, NoMemory>
    ensures { IfOk result (λ members. members ≡ spec.acknowledged ∷ []) }
{
    let members = Members::with_capacity(alloc, number)?.with("acknowledged", Out::Flag(true))?;
    Ok(members)
}

/// The reply that says no more than that the request was accepted.
pub(crate) fn ack(alloc: Global) -> Result<Reply, NoMemory>
    ensures { IfOk result (λ reply. reply ≡ spec.ack) }
{
    let members = acknowledged(alloc, 1)?;
    Ok(accepted(members))
}

/// An interval as it is written.
pub(crate) fn interval_text(alloc: Global, by: Interval) -> Result<Text, NoMemory>
    ensures { IfOk result (λ text. text ≡ spec.interval_word by) }
{
    Ok(Text::from_string(format!(in alloc; "{by}")?))
}

fn interval_tree(alloc: Global, by: Option<Interval>) -> Result<Out, NoMemory>
    ensures { IfOk result (λ out. out ≡ spec.interval_tree by) }
{
    match by {
        None => Ok(Out::Null),
        Some(by) => Ok(Out::Word(interval_text(alloc, by)?)),
    }
}

fn instant_tree(alloc: Global, time: i64) -> Result<Out, NoMemory>
    requires { IsInstant time }
    ensures { IfOk result (λ out. out ≡ word (instant_text time)) }
{
    let printed = print_instant(time);
    let tree = Out::word(alloc, printed_str(&printed))?;
    Ok(tree)
}

/// An index and its window, with room for so many members.
fn window_members(alloc: Global, number: usize, index: &HeldIndex) -> Result<Members, NoMemory>
    requires start { IsInstant index.now.start }
    requires end { IsInstant index.now.end }
    ensures { IfOk result (λ members. members ≡ member (codes "index_name") (word index.now.name)
        ∷ member (codes "start") (word (instant_text index.now.start))
        ∷ member (codes "end") (word (instant_text index.now.end)) ∷ []) }
{
    let members = Members::with_capacity(alloc, number)?
        .with("index_name", Out::Word(index.name.copy(alloc)?))?
        .with("start", instant_tree(alloc, index.start)?)?
        .with("end", instant_tree(alloc, index.end)?)?;
    Ok(members)
}

/// A member of a stream, whose window has two instants as its ends.
pub(crate) fn member_tree(alloc: Global, index: &HeldIndex) -> Result<Out, NoMemory>
    requires start { IsInstant index.now.start }
    requires end { IsInstant index.now.end }
    ensures { IfOk result (λ out. out ≡ spec.member_tree index.now) }
{
    let members = window_members(alloc, 5, index)?
        .with("fixed_interval", interval_tree(alloc, index.interval)?)?
        .with("blocked", Out::Flag(index.blocked))?;
    Ok(members.object())
}

/// A stream's name and the field of its times, with room for so many members.
fn stream_members(alloc: Global, number: usize, name: &Text) -> Result<Members, NoMemory>
    ensures { IfOk result (λ members. members ≡ member (codes "name") (word name.now)
        ∷ member (codes "timestamp_field") (object (member (codes "name") (word (codes "@timestamp")) ∷ [])) ∷ []) }
{
    let time = Members::with_capacity(alloc, 1)?.with("name", Out::fixed("@timestamp"))?;
    let members = Members::with_capacity(alloc, number)?
        .with("name", Out::Word(name.copy(alloc)?))?
        .with("timestamp_field", time.object())?;
    Ok(members)
}

/// A stream, with the trees of its members by the starts of their windows.
fn stream_tree(alloc: Global, stream: &StreamFacts, members: Vec<Out>) -> Result<Out, NoMemory>
    ensures { IfOk result (λ out. out ≡ spec.stream_tree stream.now members.items) }
{
    let members = stream_members(alloc, 5, &stream.name)?
        .with("indices", Out::list(members))?
        .with("generation", count_tree(u64::from(stream.generation)))?
        .with("template", Out::Word(stream.template.copy(alloc)?))?;
    Ok(members.object())
}

/// The reply that tells a stream, with the trees of its members by the starts of their windows.
pub(crate) fn stream_reply(
    alloc: Global,
    stream: &StreamFacts,
    members: Vec<Out>,
) -> Result<Reply, NoMemory>
    ensures { IfOk result (λ reply. reply ≡ spec.stream_told stream.now members.items) }
{
    let mut streams = Vec::with_capacity(alloc, 1)?;
    streams.push(stream_tree(alloc, stream, members)?)?;
    let members = Members::with_capacity(alloc, 1)?.with("data_streams", Out::list(streams))?;
    Ok(accepted(members))
}

/// The reply to a rollover.
pub(crate) fn rolled_reply(alloc: Global, rolled: Rolled) -> Result<Reply, NoMemory>
    ensures { IfOk result (λ reply. reply ≡ spec.rolled_reply rolled) }
{
    let Rolled { old, new } = rolled;
    let members = acknowledged(alloc, 4)?
        .with("old_index", Out::Word(old))?
        .with("new_index", Out::Word(new))?
        .with("rolled_over", Out::Flag(true))?;
    Ok(accepted(members))
}

/// The reply to a block of the index of this name.
pub(crate) fn blocked_reply(alloc: Global, index: Text) -> Result<Reply, NoMemory>
    ensures { IfOk result (λ reply. reply ≡ spec.blocked_reply index) }
{
    let blocked = Members::with_capacity(alloc, 2)?
        .with("name", Out::Word(index))?
        .with("blocked", Out::Flag(true))?;
    let mut indices = Vec::with_capacity(alloc, 1)?;
    indices.push(blocked.object())?;
    let members = acknowledged(alloc, 2)?.with("indices", Out::list(indices))?;
    Ok(accepted(members))
}

/// The reply to a lifecycle run.
pub(crate) fn ran_reply(alloc: Global, ran: Ran) -> Result<Reply, NoMemory>
    ensures { IfOk result (λ reply. reply ≡ spec.ran_reply ran) }
{
    let members = acknowledged(alloc, 4)?
        .with("extended", count_tree(ran.extended))?
        .with("deleted", count_tree(ran.deleted))?
        .with("started", count_tree(ran.started))?;
    Ok(accepted(members))
}

/// What a fold under way is to make, with room for so many members.
fn fold_members(alloc: Global, number: usize, task: &TaskFacts) -> Result<Members, NoMemory>
    ensures { IfOk result (λ members. members ≡ member (codes "action") (word (codes "downsample"))
        ∷ member (codes "index") (word task.now.index)
        ∷ member (codes "target") (word task.now.target) ∷ []) }
{
    let members = Members::with_capacity(alloc, number)?
        .with("action", Out::fixed("downsample"))?
        .with("index", Out::Word(task.index.copy(alloc)?))?
        .with("target", Out::Word(task.target.copy(alloc)?))?;
    Ok(members)
}

/// A fold under way, whose index has so many series.
pub(crate) fn task_tree(alloc: Global, task: &TaskFacts, series: u64) -> Result<Out, NoMemory>
    ensures { IfOk result (λ out. out ≡ spec.task_tree task.now series) }
{
    let members = fold_members(alloc, 6, task)?
        .with("fixed_interval", Out::Word(interval_text(alloc, task.by)?))?
        .with("done", count_tree(task.done))?
        .with("series", count_tree(series))?;
    Ok(members.object())
}

/// The reply that lists folds under way, by their trees.
pub(crate) fn tasks_reply(alloc: Global, trees: Vec<Out>) -> Result<Reply, NoMemory>
    ensures { IfOk result (λ reply. reply ≡ spec.tasks_listed trees.items) }
{
    let members = Members::with_capacity(alloc, 1)?.with("tasks", Out::list(trees))?;
    Ok(accepted(members))
}
