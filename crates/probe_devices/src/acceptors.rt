//! Acceptors of links.
ghost use Rattle.std.specs.Prelude.{IfOk, IsSome, IsTrue};
ghost use Rattle.edge_face.specs.Memory.{IsFresh};

use crate::links::{put, take};
use edge_face::{Acceptor, Bytes, MemoryAcceptor, MemoryLink, NoMemory, SteadyAcceptor};
use probe_case::{Trial, is_set};
use serde_json::Value;
use std::alloc::Global;

/// A link with so many bytes to be taken, to which nothing was put yet.
fn fresh_link(alloc: Global, left: Vec<u8>) -> Result<MemoryLink, NoMemory>
    ensures { IfOk result IsFresh }
{
    let link = MemoryLink::new(alloc, Bytes::from_vec(left), 16, Vec::new(alloc))?;
    Ok(link)
}

/// Listens on a port, and a second time where that failed: whether it listens.
fn listen<A: Acceptor>(acceptor: &mut A, trial: &mut Trial) -> bool
    ensures { IsTrue result → IsSome (A.port acceptor.new) }
{
    if acceptor.listen(7).is_ok() {
        trial.word("listens");
        return true;
    }
    trial.word("Failed");
    acceptor.listen(7).is_ok()
}

/// Takes what a link has, puts a byte to it, and takes it back.
fn serve<A: Acceptor>(acceptor: &mut A, link: A::Conn, trial: &mut Trial)
    requires { IsSome (A.port acceptor.old) }
    ensures { IsSome (A.port acceptor.new) }
{
    let mut link = link;
    take(&mut link, 16, trial);
    put(&mut link, "!", trial);
    if acceptor.finish(trial.alloc, link).is_err() {
        trial.give_up();
    }
}

/// The next link: what it has and how many bytes went, or null, or `"Failed"`.
fn put_next<A: Acceptor>(acceptor: &mut A, trial: &mut Trial)
    requires { IsSome (A.port acceptor.old) }
    ensures { IsSome (A.port acceptor.new) }
{
    match acceptor.next() {
        Ok(Some(link)) => serve(acceptor, link, trial),
        Ok(None) => trial.null(),
        Err(_) => trial.word("Failed"),
    }
}

fn put_all<A: Acceptor>(acceptor: &mut A, trial: &mut Trial) {
    trial.ok();
    trial.open("[");
    if listen(acceptor, trial) {
        put_next(acceptor, trial);
        put_next(acceptor, trial);
        put_next(acceptor, trial);
        put_next(acceptor, trial);
    }
    trial.close("]}");
}

fn accept_two(first: MemoryLink, second: MemoryLink, case: &Value, trial: &mut Trial)
    requires first { IsFresh first }
    requires second { IsFresh second }
{
    let fails = trial.counts(case, "fails");
    let Ok(coming) = Vec::from_array(trial.alloc, [first, second]) else {
        trial.give_up();
        return;
    };
    if is_set(case, "steady") {
        put_all(&mut SteadyAcceptor::new(coming), trial);
    } else {
        put_all(&mut MemoryAcceptor::new(coming, fails), trial);
    }
}

/// Listens, and asks four times for the next of two links.
pub fn accept(case: &Value, trial: &mut Trial) {
    let first = trial.bytes(case, "first");
    let second = trial.bytes(case, "second");
    match (
        fresh_link(trial.alloc, first),
        fresh_link(trial.alloc, second),
    ) {
        (Ok(first), Ok(second)) => accept_two(first, second, case, trial),
        _ => trial.give_up(),
    }
}
