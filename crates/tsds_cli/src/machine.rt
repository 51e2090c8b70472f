//! Requests and their replies.
ghost use Rattle.std.specs.Prelude.{◌≡◌, ◌∷◌, ◌++◌, [], List, Bool, false, Some, None, Option, IfOk, OnOk, OnErr, map, length, take, bytes_eq, codes, pos, ℕ, ◌==◌};
ghost use Rattle.std.specs.Option.{option_map};
ghost use Rattle.std.specs.List.{list_any, slice_split};
ghost use Rattle.time_text.specs.Instant.{instant_of as instant};
ghost use Rattle.reply_json.specs.declared.out.Out.{Out as tree_type};
ghost use Rattle.tsds_cli.specs.Ahead.{event_in};
ghost use Rattle.tsds_cli.specs.Replies.{reply_line};
ghost use Rattle.tsds_cli.specs.Documents.{outcomes_of, documents_after, sources_of, bulk_sources, item_of, refused_item as refused_item_of, is_refused, not_built, bad_moment};
ghost use Rattle.tsds_cli.specs.Documents.{count_reply, bulk_reply, bulk_tree as bulk_tree_of, asked_by as asked_by_line, bulk_to, bulk_after, reply_to, after};
ghost use Rattle.tsds_cli.specs.Documents.{moment_in, unless_earlier as kept_unless_earlier, not_before, moment_reply, moved, empty_machine, script_play, rest_of};

use crate::documents::{Documents, Outcome};
use crate::player::Player;
use crate::reply::Reply;
use crate::script::{Heard, Opening};
use edge_face::{KeepError, Keeper, NoMemory, Text};
use reply_json::{Members, Out, error_reply};
use std::alloc::{AllocError, Global};
use time_text::read_instant;

/// The parts between a body's newlines. The last one follows the last newline.
fn parts<'a>(alloc: Global, body: &'a [u8]) -> Result<Vec<&'a [u8]>, AllocError>
    ensures { IfOk result (λ v. map (λ x. x.now) v.items ≡ slice_split (λ b. b == 10) body.now) }
{
    body.split(|b| *b == b'\n').collect(alloc)
}

/// The sources in the parts of a bulk body, in order: one after each action line. None where the body has another form.
fn sources_in<'a>(alloc: Global, parts: &[&'a [u8]]) -> Result<Option<Vec<&'a [u8]>>, NoMemory>
    ensures { IfOk result (λ found. option_map (λ v. map (λ s. s.now) v.items) found ≡ sources_of (map (λ s. s.now) parts.now)) }
{
    let mut sources = Vec::new(alloc);
    let mut at = 0;
    while at + 1 < parts.len() {
        if !is_create(parts[at]) {
            return Ok(None);
        }
        sources.push(parts[at + 1])?;
        at += 2;
    }
    if at + 1 == parts.len() && is_nothing(parts[at]) {
        return Ok(Some(sources));
    }
    Ok(None)
}

/// Whether a part is empty.
fn is_nothing(part: &[u8]) -> bool
    ensures { result ≡ bytes_eq part.now [] }
{
    match part {
        [] => true,
        [_, ..] => false,
    }
}

/// Whether a line is the one action line that is taken.
fn is_create(line: &[u8]) -> bool
    ensures { result ≡ bytes_eq line.now (codes "{\"create\":{}}") }
{
    line == b"{\"create\":{}}".as_slice()
}

/// The item of a refused source.
fn refused_item(
    alloc: Global,
    status: u16,
    kind: &'static str,
    reason: &'static str,
) -> Result<Out, NoMemory>
    ensures { IfOk result (λ out. out ≡ refused_item_of status kind.now reason.now) }
{
    let error = Members::new(alloc)
        .with("type", Out::fixed(kind))?
        .with("reason", Out::fixed(reason))?;
    let create = Members::new(alloc)
        .with("_index", Out::fixed("m"))?
        .with("status", Out::Num(i128::from(status)))?
        .with("error", error.object())?;
    Ok(
        Members::new(alloc)
            .with("create", create.object())?
            .object(),
    )
}

/// The item of an accepted source.
fn created_item(alloc: Global) -> Result<Out, NoMemory>
    ensures { IfOk result (λ out. out ≡ item_of Outcome.Created) }
{
    let create = Members::new(alloc)
        .with("_index", Out::fixed("m"))?
        .with("result", Out::fixed("created"))?
        .with("status", Out::Num(201))?;
    Ok(
        Members::new(alloc)
            .with("create", create.object())?
            .object(),
    )
}

fn item(alloc: Global, outcome: Outcome) -> Result<Out, NoMemory>
    ensures { IfOk result (λ out. out ≡ item_of outcome) }
{
    match outcome {
        Outcome::Created => created_item(alloc),
        Outcome::Conflict => refused_item(
            alloc,
            409,
            "version_conflict_engine_exception",
            "version conflict, document already exists",
        ),
        Outcome::NotBuilt => refused_item(alloc, 400, "not_built_exception", "not built"),
    }
}

#[tactic(auto, unfolding(crate::specs::Documents::not_built))]
fn not_built_reply(alloc: Global) -> Result<Reply, NoMemory>
    ensures { IfOk result (λ r. r ≡ not_built) }
{
    let tree = error_reply(alloc, 400, "not_built_exception", Text::fixed("not built"))?;
    Ok(Reply { status: 400, tree })
}

#[tactic(auto, unfolding(crate::specs::Documents::count_reply))]
fn reply_of_count(alloc: Global, count: usize) -> Result<Reply, NoMemory>
    ensures { IfOk result (λ r. r ≡ count_reply count) }
{
    let tree = Members::new(alloc)
        .with("count", Out::Num(count as i128))?
        .object();
    Ok(Reply { status: 200, tree })
}

/// What became of the sources of a bulk request, and its items.
#[derive(Drop)]
struct Taken {
    items: Vec<Out>,
    errors: bool,
}

/// Takes the sources of a bulk request from left to right.
#[tactic(auto, using(crate::proofs::FrontLemmas::still_front))]
fn take_sources(
    alloc: Global,
    documents: &mut Documents,
    sources: &[&[u8]],
) -> Result<Taken, NoMemory>
    ensures items { IfOk result (λ taken. taken.items.items ≡ map item_of (outcomes_of documents.old (map (λ s. s.now) sources.now))) }
    ensures errors { IfOk result (λ taken. taken.errors ≡ list_any is_refused (outcomes_of documents.old (map (λ s. s.now) sources.now))) }
    ensures after { OnOk result (documents.new ≡ documents_after documents.old (map (λ s. s.now) sources.now)) }
    ensures front { take (length documents.old) documents.new ≡ documents.old }
{
    let mut items = Vec::new(alloc);
    let mut errors = false;
    for source in sources {
        let outcome = documents.put(alloc, source)?;
        errors = errors || outcome.is_refused();
        items.push(item(alloc, outcome)?)?;
    }
    Ok(Taken { items, errors })
}

/// Takes the sources of a bulk request, and makes its reply.
#[tactic(auto, unfolding(crate::specs::Documents::bulk_reply))]
fn take_bulk(alloc: Global, documents: &mut Documents, sources: &[&[u8]]) -> Result<Reply, NoMemory>
    ensures reply { IfOk result (λ r. r ≡ bulk_reply (outcomes_of documents.old (map (λ s. s.now) sources.now))) }
    ensures after { OnOk result (documents.new ≡ documents_after documents.old (map (λ s. s.now) sources.now)) }
    ensures front { take (length documents.old) documents.new ≡ documents.old }
{
    let Taken { items, errors } = take_sources(alloc, documents, sources)?;
    let tree = bulk_tree(alloc, errors, items)?;
    Ok(Reply { status: 200, tree })
}

/// The same, and all or none of the sources are taken.
fn take_whole_bulk(
    alloc: Global,
    documents: &mut Documents,
    sources: &[&[u8]],
) -> Result<Reply, NoMemory>
    ensures reply { IfOk result (λ r. r ≡ bulk_reply (outcomes_of documents.old (map (λ s. s.now) sources.now))) }
    ensures after { OnOk result (documents.new ≡ documents_after documents.old (map (λ s. s.now) sources.now)) }
    ensures refused { OnErr result (documents.new ≡ documents.old) }
{
    let held = documents.len();
    let reply = take_bulk(alloc, documents, sources);
    if reply.is_err() {
        documents.keep_first(held);
    }
    reply
}

/// The reply to a bulk request.
fn bulk_tree(alloc: Global, errors: bool, items: Vec<Out>) -> Result<Out, NoMemory>
    ensures { IfOk result (λ out. out ≡ bulk_tree_of errors items.items) }
{
    Ok(
        Members::new(alloc)
            .with("errors", Out::Flag(errors))?
            .with("items", Out::list(items))?
            .object(),
    )
}

/// Answers a bulk request.
fn answer_bulk(alloc: Global, documents: &mut Documents, body: &[u8]) -> Result<Reply, NoMemory>
    ensures reply { IfOk result (λ r. r ≡ bulk_to documents.old (bulk_sources body.now)) }
    ensures after { OnOk result (documents.new ≡ bulk_after documents.old (bulk_sources body.now)) }
    ensures refused { OnErr result (documents.new ≡ documents.old) }
{
    let parts = parts(alloc, body)?;
    match sources_in(alloc, parts.as_slice())? {
        Some(sources) if !sources.is_empty() => take_whole_bulk(
            alloc,
            documents,
            sources.as_slice(),
        ),
        _ => not_built_reply(alloc),
    }
}

/// What a request line asks for.
#[derive(Clone, Copy, Debug, PartialEq, Eq)]
pub enum Asked {
    Count,
    Bulk,
    /// A request that is not built yet.
    Other,
}

fn asked_by(line: &[u8]) -> Asked
    ensures { result ≡ asked_by_line line.now }
{
    if line == b"GET /m/_count".as_slice() {
        Asked::Count
    } else if line == b"POST /m/_bulk".as_slice() {
        Asked::Bulk
    } else {
        Asked::Other
    }
}

/// Answers a request, and goes on to the documents after it.
#[tactic(auto, unfolding(crate::specs::Documents::reply_to, crate::specs::Documents::after))]
fn answer(
    alloc: Global,
    documents: &mut Documents,
    line: &[u8],
    body: &[u8],
) -> Result<Reply, NoMemory>
    ensures reply { IfOk result (λ r. r ≡ reply_to documents.old line.now body.now) }
    ensures after { OnOk result (documents.new ≡ after documents.old line.now body.now) }
    ensures refused { OnErr result (documents.new ≡ documents.old) }
{
    match asked_by(line) {
        Asked::Count => reply_of_count(alloc, documents.len()),
        Asked::Bulk => answer_bulk(alloc, documents, body),
        Asked::Other => not_built_reply(alloc),
    }
}

/// The machine: the documents, and the present moment.
#[derive(Debug, Drop)]
pub struct Machine {
    pub now: i64,
    pub documents: Documents,
}

impl Machine {
    /// The machine without documents, at moment 0.
    pub fn new(alloc: Global) -> Machine
        ensures { result ≡ empty_machine }
    {
        Machine {
            now: 0,
            documents: Documents::new(alloc),
        }
    }
}

/// The moment that a text says.
fn moment_of(text: &[u8]) -> Option<i64>
    ensures { result ≡ moment_in text.now }
{
    match str::from_utf8(text) {
        Ok(text) => instant_of(text),
        Err(_) => None,
    }
}

fn instant_of(text: &str) -> Option<i64>
    ensures { result ≡ instant text.now }
{
    match read_instant(text) {
        Ok(instant) => Some(instant),
        Err(_) => None,
    }
}

/// The same, unless it is earlier than the present.
fn next_moment(now: i64, text: &[u8]) -> Option<i64>
    ensures { result ≡ not_before now (moment_in text.now) }
{
    match moment_of(text) {
        Some(moment) => unless_earlier(now, moment),
        None => None,
    }
}

fn unless_earlier(now: i64, moment: i64) -> Option<i64>
    ensures { result ≡ kept_unless_earlier now moment }
{
    if now <= moment { Some(moment) } else { None }
}

#[tactic(auto, unfolding(crate::specs::Documents::bad_moment))]
fn bad_moment_reply(alloc: Global) -> Result<Reply, NoMemory>
    ensures { IfOk result (λ r. r ≡ bad_moment) }
{
    let tree = error_reply(
        alloc,
        400,
        "illegal_argument_exception",
        Text::fixed("bad moment"),
    )?;
    Ok(Reply { status: 400, tree })
}

/// Goes on to the moment that a text says, or refuses it.
fn move_on(alloc: Global, now: &mut i64, text: &[u8]) -> Result<Option<Reply>, NoMemory>
    ensures reply { IfOk result (λ r. r ≡ moment_reply (not_before now.old (moment_in text.now))) }
    ensures moved { OnOk result (now.new ≡ moved now.old (not_before now.old (moment_in text.now))) }
    ensures refused { OnErr result (now.new ≡ now.old) }
{
    match next_moment(*now, text) {
        Some(moment) => {
            *now = moment;
            Ok(None)
        }
        None => {
            let reply = bad_moment_reply(alloc)?;
            Ok(Some(reply))
        }
    }
}

/// Makes the step of an event. Without memory the machine stays as it was.
#[tactic(auto, unfolding(crate::specs::Documents::act_of))]
fn step(alloc: Global, machine: &mut Machine, heard: &Heard) -> Result<Option<Reply>, NoMemory>
    ensures reply { IfOk result (λ r. option_map reply_line r ≡ (script_play.act machine.old (event_in heard.now)).reply) }
    ensures stepped { OnOk result (machine.new ≡ (script_play.act machine.old (event_in heard.now)).stepped) }
    ensures after { OnOk result ((script_play.act machine.old (event_in heard.now)).after ≡ rest_of heard.now.opening machine.new) }
    ensures wrote { (script_play.act machine.old (event_in heard.now)).wrote ≡ false }
    ensures refused { OnErr result (machine.new ≡ machine.old) }
{
    match heard.opening {
        Opening::Moment => move_on(alloc, &mut machine.now, heard.line.as_slice()),
        Opening::Request => {
            let reply = answer(
                alloc,
                &mut machine.documents,
                heard.line.as_slice(),
                heard.body.as_slice(),
            )?;
            Ok(Some(reply))
        }
    }
}

/// It writes no records, and never asks its keeper.
impl<P: Keeper> Player<P> for Machine {
    ghost play = { script_play };

    ghost rest_of = { rest_of };

    fn act(
        &mut self,
        alloc: Global,
        heard: &mut Heard,
        _keeper: &mut P,
    ) -> Result<Option<Reply>, KeepError> {
        let reply = step(alloc, self, heard)?;
        Ok(reply)
    }

    #[tactic(auto, unfolding(crate::specs::Documents::unit))]
    fn go_on(&mut self, _alloc: Global, opening: Opening) -> Result<(), NoMemory> {
        match opening {
            Opening::Moment | Opening::Request => Ok(()),
        }
    }
}
