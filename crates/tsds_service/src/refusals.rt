//! The replies to refused requests.
ghost use Rattle.std.specs.Prelude.{◌≡◌, IfOk};
ghost use Rattle.tsds_service.specs.Causes.{refused, reply_of as reply_to, said, wrong};
ghost use Rattle.tsds_service.specs.declared.causes.Cause.TheVariants.{Limit as limit};

use crate::causes::Cause;
use crate::limits::{LAST_HIT, MOST_BUCKETS};
use crate::reply::Reply;
use crate::wording::{
    bracketed, compared, enclosed, exceeded, limited, map_kind_text, named, numbered, related,
    what_text,
};
use edge_face::{NoMemory, Text};
use reply_json::error_reply;
use std::alloc::Global;
use stream_catalog::What;

/// The status of the reply to a cause.
fn status(cause: &Cause) -> u16
    ensures { result ≡ (said cause.now).status }
{
    match cause {
        Cause::NoSuchName { .. } => 404,
        Cause::BadMethod => 405,
        Cause::NeedsLength => 411,
        Cause::BodyTooLarge => 413,
        _ => 400,
    }
}

/// The type of a cause.
fn kind(cause: &Cause) -> &'static str
    ensures { result.now ≡ (said cause.now).kind }
{
    match cause {
        Cause::BadBody | Cause::BadQuery | Cause::BadAggregation | Cause::BadSort =>
            "parse_exception",
        Cause::NoSuchName { .. } => "index_not_found_exception",
        Cause::NameTaken { .. } => "resource_already_exists_exception",
        Cause::BadTemplate { .. } => "mapper_parsing_exception",
        Cause::WrongValue { .. } => "query_shard_exception",
        Cause::TooManyBuckets => "too_many_buckets_exception",
        _ => "illegal_argument_exception",
    }
}

/// That there are as many as there may be, in words.
fn limit_reason(alloc: Global, what: What) -> Result<Text, NoMemory>
    ensures { IfOk result (λ text. text ≡ (said (limit what)).reason) }
{
    let what = Text::fixed(what_text(what));
    let text = enclosed(alloc, "limit of", &what, " reached")?;
    Ok(text)
}

/// What a cause tells, in words.
fn reason(alloc: Global, cause: &Cause) -> Result<Text, NoMemory>
    ensures { IfOk result (λ text. text ≡ (said cause.now).reason) }
{
    match cause {
        Cause::NoSuchPath => Ok(Text::fixed("no handler found")),
        Cause::BadMethod => Ok(Text::fixed("method not allowed")),
        Cause::BadParameter => Ok(Text::fixed("unrecognized parameter")),
        Cause::BadBody => Ok(Text::fixed("bad body")),
        Cause::BadMoment => Ok(Text::fixed("bad moment")),
        Cause::NoData => Ok(Text::fixed("no data path")),
        Cause::NoItems => Ok(Text::fixed("no items")),
        Cause::BadQuery => Ok(Text::fixed("bad query")),
        Cause::BadAggregation => Ok(Text::fixed("bad aggregation")),
        Cause::BadSort => Ok(Text::fixed("bad sort")),
        Cause::BadHead => Ok(Text::fixed("bad head")),
        Cause::NeedsLength => Ok(Text::fixed("length required")),
        Cause::BodyTooLarge => Ok(Text::fixed("body too large")),
        Cause::NoSuchName { name } => bracketed(alloc, "no such index", name),
        Cause::NameTaken { name } => named(alloc, name, " already exists"),
        Cause::Reserved { name } => enclosed(alloc, "name", name, " is reserved"),
        Cause::NoTemplate { stream } => bracketed(alloc, "no matching index template for", stream),
        Cause::IsWriteIndex { index, stream } => related(
            alloc,
            index,
            "is the write index of",
            stream,
        ),
        Cause::NotBlocked { index } => named(alloc, index, " must be blocked for writes"),
        Cause::NotGreater { asked, had } => compared(
            alloc,
            "interval",
            asked,
            " must be greater than",
            had,
        ),
        Cause::NotMultiple { asked, had } => compared(
            alloc,
            "interval",
            asked,
            " must be a multiple of",
            had,
        ),
        Cause::NotMember { index, stream } => related(
            alloc,
            index,
            "is not a backing index of",
            stream,
        ),
        Cause::IsMember { index, stream } => related(alloc, index, "is a backing index of", stream),
        Cause::OtherMapping { index, stream } => related(
            alloc,
            index,
            "has another mapping than",
            stream,
        ),
        Cause::BadWindow { index, stream } => compared(
            alloc,
            "window of",
            index,
            " does not fit",
            stream,
        ),
        Cause::ChangedField { path, index } => compared(
            alloc,
            "field",
            path,
            " is mapped in another way in",
            index,
        ),
        Cause::TimeOver { index } => bracketed(alloc, "no time is left after", index),
        Cause::Limit { what } => limit_reason(alloc, *what),
        Cause::BadTemplate { kind, path } => bracketed(alloc, map_kind_text(*kind), path),
        Cause::BadAction { line } => numbered(alloc, "malformed action line", *line),
        Cause::MissingSource { line } => numbered(alloc, "missing source line after line", *line),
        Cause::WrongValue { path } => bracketed(alloc, "failed to read a value for", path),
        Cause::WrongField { path, kind } => compared(
            alloc,
            "field",
            path,
            " is not supported for aggregation",
            kind,
        ),
        Cause::NoIncrease { index } => enclosed(alloc, "index", index, " keeps no increase"),
        Cause::TooManyBuckets => limited(alloc, "more than", MOST_BUCKETS, " buckets"),
        Cause::WindowTooLarge { asked } => exceeded(
            alloc,
            "from + size must be at most",
            LAST_HIT,
            " but was",
            *asked,
        ),
        Cause::BadSortField { path } => bracketed(alloc, "cannot sort on", path),
    }
}

/// A reply of a status, a type and a reason.
fn reply_of(alloc: Global, status: u16, kind: &'static str, reason: Text) -> Result<Reply, NoMemory>
    ensures { IfOk result (λ reply. reply ≡ reply_to (wrong status kind.now reason)) }
{
    let body = error_reply(alloc, status, kind, reason)?;
    Ok(Reply { status, body })
}

/// The one reply of a cause. The only error is a want of memory.
pub fn refuse(alloc: Global, cause: &Cause) -> Result<Reply, NoMemory>
    ensures { IfOk result (λ reply. reply ≡ refused cause.now) }
{
    let reason = reason(alloc, cause)?;
    reply_of(alloc, status(cause), kind(cause), reason)
}
