//! Links in memory that come one after the other, and how they ended.
ghost use Rattle.std.specs.Prelude.{◌≡◌, ℕ, List, [], ◌∷◌, ◌++◌, All, map, None, Some, IfOk, IfSome, IfNone, OnErr, OnOk};
ghost use Rattle.edge_face.specs.Memory.{IsFresh, ended_of, one_more};

use super::link::MemoryLink;
use crate::text::NoMemory;
use std::alloc::Global;
use std::collections::VecDeque;
use std::marker::Model;

#[derive(Drop)]
pub struct Queue {
    coming: VecDeque<MemoryLink>,
    ended: Vec<MemoryLink>,
    port: Option<u16>,
    calls: u64,
}

impl Model for Queue {
    ghost use Rattle.std.specs.Prelude.{map, All};
    ghost use Rattle.edge_face.specs.Memory.{QueueState, IsFresh, ended_of};

    ghost Value = { QueueState };

    ghost view = { λ q. record { coming = q.coming.items; ended = map ended_of q.ended.items; port = q.port; calls = q.calls } };

    ghost invariant = { λ q. All IsFresh q.coming.items };
}

impl Queue {
    pub fn new(coming: Vec<MemoryLink>) -> Queue
        requires { All IsFresh coming.items }
        ensures { result ≡ record { coming = coming.items; ended = []; port = None; calls = 0 } }
    {
        let ended = Vec::new(*coming.allocator());
        Queue {
            coming: VecDeque::from_vec(coming),
            ended,
            port: None,
            calls: 0,
        }
    }

    /// The links that ended, in the order in which they did.
    pub fn ended(&self) -> &[MemoryLink]
        ensures { map ended_of result.now ≡ self.now.ended }
    {
        self.ended.as_slice()
    }

    pub fn call(&mut self)
        ensures { self.new ≡ record { coming = self.old.coming; ended = self.old.ended; port = self.old.port; calls = one_more self.old.calls } }
    {
        self.calls = self.calls.saturating_add(1);
    }

    pub fn listen(&mut self, on: u16)
        ensures { self.new ≡ record { coming = self.old.coming; ended = self.old.ended; port = Some on; calls = self.old.calls } }
    {
        self.port = Some(on);
    }

    pub fn next(&mut self) -> Option<MemoryLink>
        ensures some { IfSome result (λ link. (self.old.coming ≡ link ∷ self.new.coming) × IsFresh link) }
        ensures none { IfNone result ((self.old.coming ≡ []) × (self.new.coming ≡ [])) }
        ensures kept { (self.new.ended ≡ self.old.ended) × (self.new.port ≡ self.old.port) × (self.new.calls ≡ self.old.calls) }
    {
        self.coming.pop_front()
    }

    pub fn finish(&mut self, link: MemoryLink) -> Result<(), NoMemory>
        ensures noted { OnOk result (self.new.ended ≡ self.old.ended ++ ended_of link ∷ []) }
        ensures refused { OnErr result (self.new ≡ self.old) }
        ensures kept { (self.new.coming ≡ self.old.coming) × (self.new.port ≡ self.old.port) × (self.new.calls ≡ self.old.calls) }
    {
        self.ended.push(link)?;
        Ok(())
    }
}
