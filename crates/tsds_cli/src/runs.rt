//! The run of a script on any machine.
ghost use Rattle.std.specs.Prelude.{◌≡◌, ◌≤◌, ◌++◌, ℕ, List, false, Some, None, Option, IfErr, IfSome, OnOk, OnErr, Err};
ghost use Rattle.std.specs.Option.{option_map};
ghost use Rattle.edge_face.specs.Contents.{appended, Rose};
ghost use Rattle.tsds_cli.specs.Limits.{IsShort};
ghost use Rattle.tsds_cli.specs.Play.{IsTable, written_by, text_of, stands};
ghost use Rattle.tsds_cli.specs.Ends.{EndsBy, PutWhole, Broke, IsPut};
ghost use Rattle.tsds_cli.specs.Ahead.{event_in};
ghost use Rattle.tsds_cli.specs.Replies.{reply_line};

use crate::errors::RunError;
use crate::player::Player;
use crate::reply::{Reply, print_reply};
use crate::script::{Heard, next_event};
use edge_face::{Keeper, LineReader, NoMemory, Sink, Source, put_all};
use std::alloc::Global;

/// Puts one reply.
fn put_reply<K: Sink>(sink: &mut K, reply: &[u8]) -> Result<(), RunError>
    ensures ok { OnOk result (K.given sink.new ≡ appended (K.given sink.old) reply.now) }
    ensures part { OnErr result (IsPut reply.now (K.given sink.old) (K.given sink.new)) }
    ensures write { IfErr result (λ e. e ≡ RunError.Write) }
    ensures caused { OnErr result (Rose (K.faults sink.old) (K.faults sink.new)) }
    ensures faults { K.faults sink.old ≤ K.faults sink.new }
    ensures beside { K.beside sink.new ≡ K.beside sink.old }
{
    match put_all(sink, reply) {
        Ok(()) => Ok(()),
        Err(_) => Err(RunError::Write),
    }
}

/// Prints a reply, where there is one.
fn print_some(reply: &Option<Reply>, into: &mut Vec<u8>) -> Result<(), NoMemory>
    ensures { OnOk result (into.new.items ≡ into.old.items ++ text_of (option_map reply_line reply.now)) }
{
    match reply {
        None => Ok(()),
        Some(reply) => print_reply(reply, into),
    }
}

/// Does an event: its step, its reply and its unit. The reply's text is made in `text`.
fn do_event<P: Keeper, M: Player<P>, K: Sink>(
    alloc: Global,
    machine: &mut M,
    keeper: &mut P,
    sink: &mut K,
    heard: &mut Heard,
    text: &mut Vec<u8>,
) -> Result<(), RunError>
    requires suited { M.suits machine.old (P.path keeper.old) (P.table keeper.old) }
    requires short { IsShort (event_in heard.old) }
    ensures after { OnOk result (machine.new ≡ (M.play.act machine.old (event_in heard.old)).after) }
    ensures table { OnOk result (IsTable M.play.image (written_by (M.play.act machine.old (event_in heard.old)) None) (P.table keeper.old) (P.table keeper.new)) }
    ensures put { OnOk result (K.given sink.new ≡ appended (K.given sink.old) (text_of (M.play.act machine.old (event_in heard.old)).reply)) }
    ensures suited { OnOk result (M.suits machine.new (P.path keeper.new) (P.table keeper.new)) }
    ensures broke { IfErr result (λ e. Broke M.play (stands machine.old (P.table keeper.old)) (stands machine.new (P.table keeper.new)) (event_in heard.old) e (K.given sink.old) (K.given sink.new)) }
    ensures store { result ≡ Err RunError.Store → Rose (P.faults keeper.old) (P.faults keeper.new) }
    ensures write { result ≡ Err RunError.Write → Rose (K.faults sink.old) (K.faults sink.new) }
    ensures keeper_faults { P.faults keeper.old ≤ P.faults keeper.new }
    ensures sink_faults { K.faults sink.old ≤ K.faults sink.new }
    ensures beside { K.beside sink.new ≡ K.beside sink.old }
    ensures path { P.path keeper.new ≡ P.path keeper.old }
{
    let opening = heard.opening;
    text.clear();
    let reply = machine.act(alloc, heard, keeper)?;
    print_some(&reply, text)?;
    put_reply(sink, text.as_slice())?;
    machine.go_on(alloc, opening)?;
    Ok(())
}

/// Runs the script on the source, and writes each reply to the sink.
///
/// The machine is any, and so is its keeper. What a run says of the machine's state it says of the keeper's table beside it.
pub fn run<P: Keeper, M: Player<P>, S: Source, K: Sink>(
    alloc: Global,
    machine: &mut M,
    keeper: &mut P,
    source: &mut S,
    sink: &mut K,
) -> Result<(), RunError>
    requires suited { M.suits machine.old (P.path keeper.old) (P.table keeper.old) }
    ensures done { OnOk result (PutWhole M.play (stands machine.old (P.table keeper.old)) (stands machine.new (P.table keeper.new))
        (S.left source.old) (S.left source.new) (K.given sink.old) (K.given sink.new)) }
    ensures suited { OnOk result (M.suits machine.new (P.path keeper.new) (P.table keeper.new)) }
    ensures refused { IfErr result (λ e. EndsBy M.play (stands machine.old (P.table keeper.old)) (stands machine.new (P.table keeper.new)) e
        (S.left source.old) (S.left source.new) (K.given sink.old) (K.given sink.new)) }
    ensures read { result ≡ Err RunError.Read → Rose (S.faults source.old) (S.faults source.new) }
    ensures store { result ≡ Err RunError.Store → Rose (P.faults keeper.old) (P.faults keeper.new) }
    ensures write { result ≡ Err RunError.Write → Rose (K.faults sink.old) (K.faults sink.new) }
    ensures faults { S.faults source.old ≤ S.faults source.new }
    ensures keeper_faults { P.faults keeper.old ≤ P.faults keeper.new }
    ensures sink_faults { K.faults sink.old ≤ K.faults sink.new }
    ensures source_beside { S.beside source.new ≡ S.beside source.old }
    ensures sink_beside { K.beside sink.new ≡ K.beside sink.old }
    ensures path { P.path keeper.new ≡ P.path keeper.old }
{
    let mut reader = LineReader::new(alloc)?;
    let mut heard = Heard::new(alloc);
    let mut text = Vec::new(alloc);
    'events: loop {
        let more = next_event(&mut reader, source, &mut heard)?;
        if !more {
            return Ok(());
        }
        do_event(alloc, machine, keeper, sink, &mut heard, &mut text)?;
    }
}
