//! Links to peers, and what accepts them.
ghost use Rattle.std.specs.Prelude.{◌≡◌, ℕ, ◌<◌, ◌≤◌, List, [], ◌++◌, ◌∷◌, length, take, Option, Some, IsSome, IfOk, IfSome, IfNone, OnErr, OnOk, Ok};
ghost use Rattle.edge_face.specs.Contents.{appended, preceded, Rose};
ghost use Rattle.edge_face.specs.Links.{Ended, IsNextLink, finished};

use crate::device::{Failed, Sink, Source};
use crate::text::NoMemory;
use std::alloc::Global;

/// A link to a peer: bytes are taken from it and put to it.
///
/// Its meanings are the bytes still to come and all bytes put so far, where it tells them, and the counts of its faults on both sides,
/// which never fall. Each link is a source by its take side and a sink by its put side.
pub trait Link {
    ghost left: { Self → Option (List ℕ) };

    ghost given: { Self → Option (List ℕ) };

    ghost take_faults: { Self → ℕ };

    ghost put_faults: { Self → ℕ };

    /// Takes bytes as a source does.
    fn take(&mut self, into: &mut [u8]) -> Result<usize, Failed>
        ensures within { IfOk result (λ n. n ≤ length into.old) }
        ensures taken { IfOk result (λ n. left self.old ≡ preceded (take n into.new) (left self.new)) }
        ensures end { result ≡ Ok 0 → 0 < length into.old → IfSome (left self.new) (λ rest. rest ≡ []) }
        ensures failed { OnErr result (left self.new ≡ left self.old) }
        ensures counted { take_faults self.old ≤ take_faults self.new }
        ensures caused { OnErr result (Rose (take_faults self.old) (take_faults self.new)) }
        ensures beside { (given self.new ≡ given self.old) × (put_faults self.new ≡ put_faults self.old) };

    /// Puts bytes as a sink does.
    fn put(&mut self, piece: &[u8]) -> Result<usize, Failed>
        ensures within { IfOk result (λ n. n ≤ length piece.now) }
        ensures some { IfOk result (λ n. 0 < length piece.now → 0 < n) }
        ensures put { IfOk result (λ n. given self.new ≡ appended (given self.old) (take n piece.now)) }
        ensures failed { OnErr result (given self.new ≡ given self.old) }
        ensures counted { put_faults self.old ≤ put_faults self.new }
        ensures caused { OnErr result (Rose (put_faults self.old) (put_faults self.new)) }
        ensures beside { (left self.new ≡ left self.old) × (take_faults self.new ≡ take_faults self.old) };
}

/// The take side of a link. What is beside it is the put side.
impl<L: Link> Source for L {
    ghost left = { λ link. L.left link };

    ghost faults = { λ link. L.take_faults link };

    ghost beside = { λ link. (L.given link, L.put_faults link) };

    fn take(&mut self, into: &mut [u8]) -> Result<usize, Failed> {
        Link::take(self, into)
    }
}

/// The put side of a link. What is beside it is the take side.
impl<L: Link> Sink for L {
    ghost given = { λ link. L.given link };

    ghost faults = { λ link. L.put_faults link };

    ghost beside = { λ link. (L.left link, L.take_faults link) };

    fn put(&mut self, piece: &[u8]) -> Result<usize, Failed> {
        Link::put(self, piece)
    }
}

/// What accepts links, one after the other.
///
/// Its meanings are the bytes to come of each link that is still to come, and how each finished link ended, where it tells them; the
/// port on which it listens; the count of its faults and the count of its calls, which never fall.
pub trait Acceptor {
    type Conn: Link;

    ghost coming: { Self → Option (List (List ℕ)) };

    ghost ended: { Self → Option (List Ended) };

    ghost port: { Self → Option ℕ };

    ghost faults: { Self → ℕ };

    ghost calls: { Self → ℕ };

    /// Listens on a port.
    fn listen(&mut self, on: u16) -> Result<(), Failed>
        ensures listens { OnOk result (port self.new ≡ Some on) }
        ensures failed { OnErr result (port self.new ≡ port self.old) }
        ensures kept { (coming self.new ≡ coming self.old) × (ended self.new ≡ ended self.old) }
        ensures counted { faults self.old ≤ faults self.new }
        ensures caused { OnErr result (Rose (faults self.old) (faults self.new)) }
        ensures called { Rose (calls self.old) (calls self.new) };

    /// The next link, or none where no link is to come.
    fn next(&mut self) -> Result<Option<Self::Conn>, Failed>
        requires { IsSome (port self.old) }
        ensures link { IfOk result (λ found. IfSome found (λ link. IsNextLink (coming self.old) (coming self.new) (Self.Conn.left link) (Self.Conn.given link))) }
        ensures fresh { IfOk result (λ found. IfSome found (λ link. (Self.Conn.take_faults link ≡ 0) × (Self.Conn.put_faults link ≡ 0))) }
        ensures nothing { IfOk result (λ found. IfSome found (λ link. IfSome (Self.Conn.given link) (λ given. given ≡ []))) }
        ensures none { IfOk result (λ found. IfNone found ((coming self.old ≡ Some []) × (coming self.new ≡ coming self.old))) }
        ensures failed { OnErr result (coming self.new ≡ coming self.old) }
        ensures kept { (ended self.new ≡ ended self.old) × (port self.new ≡ port self.old) }
        ensures counted { faults self.old ≤ faults self.new }
        ensures caused { OnErr result (Rose (faults self.old) (faults self.new)) }
        ensures called { Rose (calls self.old) (calls self.new) };

    /// Takes back a link, and notes how it ended.
    fn finish(&mut self, alloc: Global, link: Self::Conn) -> Result<(), NoMemory>
        ensures noted { OnOk result (ended self.new ≡ finished (ended self.old) (record {
          given = Self.Conn.given link;
          left = Self.Conn.left link;
          take_faults = Self.Conn.take_faults link;
          put_faults = Self.Conn.put_faults link;
        })) }
        ensures refused { OnErr result (ended self.new ≡ ended self.old) }
        ensures kept { (coming self.new ≡ coming self.old) × (port self.new ≡ port self.old) }
        ensures counted { faults self.old ≤ faults self.new }
        ensures called { Rose (calls self.old) (calls self.new) };
}
