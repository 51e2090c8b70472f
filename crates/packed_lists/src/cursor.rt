//! Lists that are read through one unpacked block.
ghost use Rattle.std.specs.Prelude.{◌≡◌, ℕ, ℤ, pos, ◌≤ℤ◌, ◌<ℤ◌, ◌<◌, ◌+◌, ◌-◌, ◌*◌, ◌^◌, ◌≤◌, ◌++◌, List, [], length, min, max, take, drop, slice_range, slice_index_or, OnOk};
ghost use Rattle.std.specs.Int.{div_ceil};
ghost use Rattle.packed_lists.specs.Decoded.{AreBlocksAt};
ghost use Rattle.packed_lists.specs.Falling.{Fall};
ghost use Rattle.packed_lists.specs.EdgeIn.{IsEdgeIn};
ghost use Rattle.packed_lists.specs.Packing.{IsCached, IsLoaded};

use crate::blocks::{BLOCK, leave};
use crate::cuts::{block_edge, edge};
use crate::packer::Packer;
use crate::steps::Steps;
use column_pack::unpack_known;
use edge_face::NoMemory;
use std::marker::{Brand, Model};
use std::sync::ledger::{Blank, Ledger};

/// A block that was unpacked, or none where the count is 0.
#[derive(Clone, Copy, Debug)]
pub struct Cache {
    pub block: usize,
    pub count: usize,
    pub buffer: [i64; 128],
}

/// A list, and one unpacked block of it. No call changes the list.
#[derive(Debug, Drop)]
pub struct Cursor<'a> {
    bytes: &'a [u8],
    places: &'a [usize],
    len: usize,
    cache: Cache,
}

impl<'a> Model for Cursor<'a> {
    ghost use Rattle.std.specs.Prelude.{List, ℤ};
    ghost use Rattle.packed_lists.specs.Decoded.{values_at};
    ghost use Rattle.packed_lists.specs.Packing.{IsReadBy};

    ghost Value = { List ℤ };

    ghost view = { λ c. values_at c.bytes.now c.places.now };

    ghost invariant = { λ c. IsReadBy c.bytes.now c.places.now c.len c.cache (values_at c.bytes.now c.places.now) };
}

/// Sees that a block of a list is the one that is unpacked.
fn load(bytes: &[u8], places: &[usize], block: usize, cache: &mut Cache)
    requires list { (vs : List ℤ) × AreBlocksAt bytes.now places.now vs × IsCached vs cache.old }
    requires within { block < length places.now }
    ensures { (vs : List ℤ) → AreBlocksAt bytes.now places.now vs → IsCached vs cache.old → IsLoaded vs block cache.new }
{
    if 0 < cache.count && cache.block == block {
        return;
    }
    cache.count = unpack_known(&bytes[places[block]..], &mut cache.buffer);
    cache.block = block;
}

fn number_in(cache: &Cache, place: usize) -> i64
    requires { place < 128 }
    ensures { result ≡ slice_index_or cache.now.buffer place (pos 0) }
{
    cache.buffer[place]
}

/// The edge among the numbers of an unpacked block that lie between two places.
fn edge_in(cache: &Cache, from: usize, to: usize, bound: i64) -> usize
    requires meets { (from < 128 * cache.now.block + 128) × (128 * cache.now.block < to) × (from < to) }
    requires whole { min to (128 * cache.now.block + 128) ≤ 128 * cache.now.block + cache.now.count }
    requires few { cache.now.count ≤ 128 }
    ensures { IsEdgeIn cache.now from to result bound }
{
    let start = BLOCK * cache.block;
    let first = from.max(start);
    let last = leave(start, to);
    first + edge(&cache.buffer[first - start..last - start], bound)
}

impl<'a> Cursor<'a> {
    pub fn over(bytes: &'a [u8], places: &'a [usize], len: usize) -> Cursor<'a>
        requires { (vs : List ℤ) × AreBlocksAt bytes.now places.now vs × (len ≡ length vs) }
        ensures { (vs : List ℤ) → AreBlocksAt bytes.now places.now vs → result ≡ vs }
    {
        Cursor {
            bytes,
            places,
            len,
            cache: Cache {
                block: 0,
                count: 0,
                buffer: [0; 128],
            },
        }
    }

    /// How many numbers there are.
    pub fn len(&self) -> usize
        ensures { result ≡ length self.now }
    {
        self.len
    }

    /// The number at a place.
    pub fn at(&mut self, place: usize) -> i64
        requires { place < length self.old }
        ensures number { result ≡ slice_index_or self.old place (pos 0) }
        ensures same { self.new ≡ self.old }
    {
        load(self.bytes, self.places, place / BLOCK, &mut self.cache);
        number_in(&self.cache, place % BLOCK)
    }

    /// The first place between two whose number is below the bound, or the second of them. Each header that is read is
    /// a step, and so is the block that holds the place before, which is unpacked then.
    pub fn cut_at<L: Ledger>(
        &mut self,
        from: usize,
        to: usize,
        bound: i64,
        steps: &mut Steps<L>,
    ) -> usize
        requires order { from ≤ to }
        requires within { to ≤ length self.old }
        requires falling { Fall self.old from to }
        ensures low { from ≤ result }
        ensures high { result ≤ to }
        ensures before { (k : ℕ) → from ≤ k → k < result → bound ≤ℤ slice_index_or self.old k (pos 0) }
        ensures behind { (k : ℕ) → result ≤ k → k < to → slice_index_or self.old k (pos 0) <ℤ bound }
        ensures same { self.new ≡ self.old }
        ensures counted { steps.old ≤ steps.new }
        ensures cost { 2 ^ (steps.new - steps.old) ≤ 4 * max 1 (div_ceil (length self.old) 128) }
    {
        if from == to {
            return to;
        }
        let block = block_edge(
            self.bytes,
            self.places,
            from / BLOCK,
            (to - 1) / BLOCK,
            bound,
            steps,
        );
        steps.tick();
        load(self.bytes, self.places, block, &mut self.cache);
        edge_in(&self.cache, from, to, bound)
    }

    /// `cut_at` with a ledger of its own.
    fn cut_counted<L: Ledger>(&mut self, from: usize, to: usize, bound: i64, blank: Blank) -> usize
        requires name { blank.name ≡ L.name }
        requires parts { blank.parts ≡ L.parts }
        requires some { 0 < blank.parts }
        requires order { from ≤ to }
        requires within { to ≤ length self.old }
        requires falling { Fall self.old from to }
        ensures low { from ≤ result }
        ensures high { result ≤ to }
        ensures before { (k : ℕ) → from ≤ k → k < result → bound ≤ℤ slice_index_or self.old k (pos 0) }
        ensures behind { (k : ℕ) → result ≤ k → k < to → slice_index_or self.old k (pos 0) <ℤ bound }
        ensures same { self.new ≡ self.old }
    {
        let mut steps = Steps::<L>::new(blank);
        self.cut_at(from, to, bound, &mut steps)
    }

    /// `cut_at`, where nobody counts the steps.
    pub fn cut(&mut self, from: usize, to: usize, bound: i64) -> usize
        requires order { from ≤ to }
        requires within { to ≤ length self.old }
        requires falling { Fall self.old from to }
        ensures low { from ≤ result }
        ensures high { result ≤ to }
        ensures before { (k : ℕ) → from ≤ k → k < result → bound ≤ℤ slice_index_or self.old k (pos 0) }
        ensures behind { (k : ℕ) → result ≤ k → k < to → slice_index_or self.old k (pos 0) <ℤ bound }
        ensures same { self.new ≡ self.old }
    {
        self.cut_counted::<Brand>(from, to, bound, Blank::new(1))
    }

    /// Appends the numbers from a place up to another.
    pub fn copy(&mut self, from: usize, to: usize, into: &mut Packer) -> Result<(), NoMemory>
        requires order { from ≤ to }
        requires within { to ≤ length self.old }
        ensures numbers { OnOk result (into.new ≡ into.old ++ slice_range self.old from to) }
        ensures same { self.new ≡ self.old }
    {
        let mut at = from;
        while at < to {
            let first = BLOCK * (at / BLOCK);
            let end = leave(first, to);
            load(self.bytes, self.places, at / BLOCK, &mut self.cache);
            into.extend(&self.cache.buffer[at - first..end - first])?;
            at = end;
        }
        Ok(())
    }
}
