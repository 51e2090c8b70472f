//! Acceptors of links in memory.
ghost use Rattle.std.specs.Prelude.{◌≡◌, ◌≤◌, ◌↔◌, ℕ, List, [], ◌∷◌, All, map, Contains, None, Some, IsSome, IsErr, IsOk, IfOk, IfSome, IfNone, OnErr, OnOk};
ghost use Rattle.edge_face.specs.Contents.{Rose};
ghost use Rattle.edge_face.specs.Links.{IsNextLink, finished};
ghost use Rattle.edge_face.specs.Memory.{IsFresh, bytes_of, ended_of, one_more};

use super::link::MemoryLink;
use super::parts::Plan;
use super::queue::Queue;
use crate::device::Failed;
use crate::link::Acceptor;
use crate::text::NoMemory;
use std::alloc::Global;
use std::marker::Model;

/// An acceptor of the links of a list, which fails at the calls that it is told: those that listen or ask for the next link.
#[derive(Drop)]
pub struct MemoryAcceptor {
    queue: Queue,
    plan: Plan,
    faults: u64,
}

impl Model for MemoryAcceptor {
    ghost use Rattle.edge_face.specs.Memory.{AcceptorState};

    ghost Value = { AcceptorState };

    ghost view = { λ a. record {
      coming = a.queue.coming;
      ended = a.queue.ended;
      port = a.queue.port;
      calls = a.queue.calls;
      fails = a.plan.fails.items;
      failing = a.plan.calls;
      faults = a.faults;
    } };
}

impl MemoryAcceptor {
    pub fn new(coming: Vec<MemoryLink>, fails: Vec<u64>) -> MemoryAcceptor
        requires { All IsFresh coming.items }
        ensures { result ≡ record { coming = coming.items; ended = []; port = None; calls = 0; fails = fails.items; failing = 0; faults = 0 } }
    {
        MemoryAcceptor {
            queue: Queue::new(coming),
            plan: Plan::new(fails),
            faults: 0,
        }
    }

    /// The links that ended, in the order in which they did: what a test looks at behind the call that it tries.
    pub fn ended(&self) -> &[MemoryLink]
        ensures { map ended_of result.now ≡ self.now.ended }
    {
        self.queue.ended()
    }

    /// Counts a call, and fails where it is one of those that fail.
    fn call(&mut self) -> Result<(), Failed>
        ensures listed { IsErr result ↔ Contains self.old.fails self.new.failing }
        ensures number { (self.new.calls ≡ one_more self.old.calls) × (self.new.failing ≡ one_more self.old.failing) }
        ensures kept { (self.new.coming ≡ self.old.coming) × (self.new.ended ≡ self.old.ended) × (self.new.port ≡ self.old.port) × (self.new.fails ≡ self.old.fails) }
        ensures same { OnOk result (self.new.faults ≡ self.old.faults) }
        ensures counted { self.old.faults ≤ self.new.faults }
        ensures caused { OnErr result (self.new.faults ≡ one_more self.old.faults) }
    {
        self.queue.call();
        if self.plan.is_due() {
            self.faults = self.faults.saturating_add(1);
            return Err(Failed);
        }
        Ok(())
    }
}

impl Acceptor for MemoryAcceptor {
    ghost use Rattle.std.specs.Prelude.{Some};
    ghost use Rattle.edge_face.specs.Memory.{bytes_of};

    type Conn = MemoryLink;

    ghost coming = { λ a. Some (bytes_of a.coming) };

    ghost ended = { λ a. Some a.ended };

    ghost port = { λ a. a.port };

    ghost faults = { λ a. a.faults };

    ghost calls = { λ a. a.calls };

    fn listen(&mut self, on: u16) -> Result<(), Failed>
        ensures listens { OnOk result (self.new.port ≡ Some on) }
        ensures failed { OnErr result (self.new.port ≡ self.old.port) }
        ensures kept { (Some (bytes_of self.new.coming) ≡ Some (bytes_of self.old.coming)) × (Some self.new.ended ≡ Some self.old.ended) }
        ensures counted { self.old.faults ≤ self.new.faults }
        ensures caused { OnErr result (Rose self.old.faults self.new.faults) }
        ensures called { Rose self.old.calls self.new.calls }

        // It fails exactly at the calls that it is told.
        ensures number { (self.new.calls ≡ one_more self.old.calls) × (self.new.failing ≡ one_more self.old.failing) }
        ensures listed { IsErr result ↔ Contains self.old.fails self.new.failing }
        ensures same { OnOk result (self.new.faults ≡ self.old.faults) }
        ensures fails { self.new.fails ≡ self.old.fails }
        ensures coming { self.new.coming ≡ self.old.coming }
    {
        self.call()?;
        self.queue.listen(on);
        Ok(())
    }

    fn next(&mut self) -> Result<Option<MemoryLink>, Failed>
        requires { IsSome self.old.port }
        ensures link { IfOk result (λ found. IfSome found (λ link. IsNextLink (Some (bytes_of self.old.coming)) (Some (bytes_of self.new.coming)) (Some link.left) (Some link.given))) }
        ensures fresh { IfOk result (λ found. IfSome found (λ link. (link.take_faults ≡ 0) × (link.put_faults ≡ 0))) }
        ensures nothing { IfOk result (λ found. IfSome found (λ link. IfSome (Some link.given) (λ given. given ≡ []))) }
        ensures none { IfOk result (λ found. IfNone found ((Some (bytes_of self.old.coming) ≡ Some []) × (Some (bytes_of self.new.coming) ≡ Some (bytes_of self.old.coming)))) }
        ensures failed { OnErr result (Some (bytes_of self.new.coming) ≡ Some (bytes_of self.old.coming)) }
        ensures kept { (Some self.new.ended ≡ Some self.old.ended) × (self.new.port ≡ self.old.port) }
        ensures counted { self.old.faults ≤ self.new.faults }
        ensures caused { OnErr result (Rose self.old.faults self.new.faults) }
        ensures called { Rose self.old.calls self.new.calls }

        // It fails exactly at the calls that it is told.
        ensures number { (self.new.calls ≡ one_more self.old.calls) × (self.new.failing ≡ one_more self.old.failing) }
        ensures listed { IsErr result ↔ Contains self.old.fails self.new.failing }
        ensures same { OnOk result (self.new.faults ≡ self.old.faults) }
        ensures fails { self.new.fails ≡ self.old.fails }
        ensures first { IfOk result (λ found. IfSome found (λ link. self.old.coming ≡ link ∷ self.new.coming)) }
        ensures last { IfOk result (λ found. IfNone found ((self.old.coming ≡ []) × (self.new.coming ≡ []))) }
        ensures coming { OnErr result (self.new.coming ≡ self.old.coming) }
    {
        self.call()?;
        let link = self.queue.next();
        Ok(link)
    }

    fn finish(&mut self, alloc: Global, link: MemoryLink) -> Result<(), NoMemory>
        ensures noted { OnOk result (Some self.new.ended ≡ finished (Some self.old.ended) (record {
          given = Some link.given;
          left = Some link.left;
          take_faults = link.take_faults;
          put_faults = link.put_faults;
        })) }
        ensures refused { OnErr result (Some self.new.ended ≡ Some self.old.ended) }
        ensures kept { (Some (bytes_of self.new.coming) ≡ Some (bytes_of self.old.coming)) × (self.new.port ≡ self.old.port) }
        ensures counted { self.old.faults ≤ self.new.faults }
        ensures called { Rose self.old.calls self.new.calls }

        // It is none of the calls that are numbered for failing.
        ensures number { (self.new.calls ≡ one_more self.old.calls) × (self.new.failing ≡ self.old.failing) }
        ensures same { self.new.faults ≡ self.old.faults }
        ensures fails { self.new.fails ≡ self.old.fails }
        ensures coming { self.new.coming ≡ self.old.coming }
    {
        self.queue.call();
        self.queue.finish(link)?;
        Ok(())
    }
}

/// An acceptor of the links of a list, which never fails.
#[derive(Drop)]
pub struct SteadyAcceptor {
    queue: Queue,
}

impl Model for SteadyAcceptor {
    ghost use Rattle.edge_face.specs.Memory.{QueueState};

    ghost Value = { QueueState };

    ghost view = { λ a. a.queue };
}

impl SteadyAcceptor {
    pub fn new(coming: Vec<MemoryLink>) -> SteadyAcceptor
        requires { All IsFresh coming.items }
        ensures { result ≡ record { coming = coming.items; ended = []; port = None; calls = 0 } }
    {
        SteadyAcceptor {
            queue: Queue::new(coming),
        }
    }

    /// The links that ended, in the order in which they did: what a test looks at behind the call that it tries.
    pub fn ended(&self) -> &[MemoryLink]
        ensures { map ended_of result.now ≡ self.now.ended }
    {
        self.queue.ended()
    }
}

impl Acceptor for SteadyAcceptor {
    ghost use Rattle.std.specs.Prelude.{Some};
    ghost use Rattle.edge_face.specs.Memory.{bytes_of};

    type Conn = MemoryLink;

    ghost coming = { λ a. Some (bytes_of a.coming) };

    ghost ended = { λ a. Some a.ended };

    ghost port = { λ a. a.port };

    ghost faults = { λ _. 0 };

    ghost calls = { λ a. a.calls };

    fn listen(&mut self, on: u16) -> Result<(), Failed>
        ensures listens { OnOk result (self.new.port ≡ Some on) }
        ensures failed { OnErr result (self.new.port ≡ self.old.port) }
        ensures kept { (Some (bytes_of self.new.coming) ≡ Some (bytes_of self.old.coming)) × (Some self.new.ended ≡ Some self.old.ended) }
        ensures called { Rose self.old.calls self.new.calls }

        ensures fine { IsOk result }
        ensures number { self.new.calls ≡ one_more self.old.calls }
        ensures coming { self.new.coming ≡ self.old.coming }
    {
        self.queue.call();
        self.queue.listen(on);
        Ok(())
    }

    fn next(&mut self) -> Result<Option<MemoryLink>, Failed>
        requires { IsSome self.old.port }
        ensures link { IfOk result (λ found. IfSome found (λ link. IsNextLink (Some (bytes_of self.old.coming)) (Some (bytes_of self.new.coming)) (Some link.left) (Some link.given))) }
        ensures fresh { IfOk result (λ found. IfSome found (λ link. (link.take_faults ≡ 0) × (link.put_faults ≡ 0))) }
        ensures nothing { IfOk result (λ found. IfSome found (λ link. IfSome (Some link.given) (λ given. given ≡ []))) }
        ensures none { IfOk result (λ found. IfNone found ((Some (bytes_of self.old.coming) ≡ Some []) × (Some (bytes_of self.new.coming) ≡ Some (bytes_of self.old.coming)))) }
        ensures failed { OnErr result (Some (bytes_of self.new.coming) ≡ Some (bytes_of self.old.coming)) }
        ensures kept { (Some self.new.ended ≡ Some self.old.ended) × (self.new.port ≡ self.old.port) }
        ensures called { Rose self.old.calls self.new.calls }

        ensures fine { IsOk result }
        ensures number { self.new.calls ≡ one_more self.old.calls }
        ensures first { IfOk result (λ found. IfSome found (λ link. self.old.coming ≡ link ∷ self.new.coming)) }
        ensures last { IfOk result (λ found. IfNone found ((self.old.coming ≡ []) × (self.new.coming ≡ []))) }
    {
        self.queue.call();
        let link = self.queue.next();
        Ok(link)
    }

    fn finish(&mut self, alloc: Global, link: MemoryLink) -> Result<(), NoMemory>
        ensures noted { OnOk result (Some self.new.ended ≡ finished (Some self.old.ended) (record {
          given = Some link.given;
          left = Some link.left;
          take_faults = link.take_faults;
          put_faults = link.put_faults;
        })) }
        ensures refused { OnErr result (Some self.new.ended ≡ Some self.old.ended) }
        ensures kept { (Some (bytes_of self.new.coming) ≡ Some (bytes_of self.old.coming)) × (self.new.port ≡ self.old.port) }
        ensures called { Rose self.old.calls self.new.calls }

        ensures number { self.new.calls ≡ one_more self.old.calls }
        ensures coming { self.new.coming ≡ self.old.coming }
    {
        self.queue.call();
        self.queue.finish(link)?;
        Ok(())
    }
}
