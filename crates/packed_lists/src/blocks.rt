//! Numbers in packed blocks that stand in a buffer: put there, found, and read by the places of their blocks.
ghost use Rattle.std.specs.Prelude.{◌≡◌, ℕ, ℤ, ◌*◌, ◌+◌, ◌<◌, ◌≤◌, ◌++◌, List, length, min, take, drop, slice_index, slice_range, IfOk, IfSome, IsNone, OnOk};
ghost use Rattle.column_pack.specs.Block.{IsBlock};
ghost use Rattle.column_pack.specs.Summary.{IsSummary};
ghost use Rattle.packed_lists.specs.Nums.{IsNums};
ghost use Rattle.packed_lists.specs.Decoded.{IsBlockAt, AreBlocksAt};
ghost use Rattle.packed_lists.specs.Found.{IsFound};

use column_pack::{Summary, block_len, pack_block, summary_known, unpack_block, unpack_known};
use edge_face::NoMemory;
use std::alloc::Global;

/// How many numbers a block has, but for the last one.
pub const BLOCK: usize = 128;

/// Appends the blocks of some numbers, and gives the places where these begin.
pub fn put_numbers(
    alloc: Global,
    values: &[i64],
    into: &mut Vec<u8>,
) -> Result<Vec<usize>, NoMemory>
    ensures spelled { OnOk result ((nums : List ℕ) × IsNums values.now nums × (into.new.items ≡ into.old.items ++ nums)) }
    ensures placed { IfOk result (λ places. AreBlocksAt into.new.items places.items values.now) }
{
    let count = values.len().div_ceil(BLOCK);
    let mut places = Vec::with_capacity(alloc, count)?;
    for block in 0..count {
        let from = BLOCK * block;
        let to = values.len().min(from + BLOCK);
        places.push(into.len())?;
        pack_block(&values[from..to], into)?;
    }
    Ok(places)
}

/// The length of the block of so many numbers that bytes begin with.
fn find_block(bytes: &[u8], count: usize) -> Option<usize>
    ensures some { IfSome result (λ len. (len ≤ length bytes.now) × ((vs : List ℤ) × IsBlock vs (take len bytes.now) × (length vs ≡ count))) }
    ensures none { IsNone result → (vs : List ℤ) (block rest : List ℕ) → length vs ≡ count → IsBlock vs block → bytes.now ≡ block ++ rest → ⊥ }
{
    let Some(len) = block_len(bytes) else {
        return None;
    };
    if bytes.len() < len {
        return None;
    }
    let mut buffer = [0i64; BLOCK];
    let Ok(found) = unpack_block(&bytes[..len], &mut buffer) else {
        return None;
    };
    if found != count {
        return None;
    }
    Some(len)
}

/// Where the blocks of some numbers begin, and where the last one ends.
#[derive(Debug, Drop)]
pub struct Found {
    pub places: Vec<usize>,
    pub end: usize,
}

/// The list of so many numbers that stands in bytes from a place on.
pub fn find_numbers(
    alloc: Global,
    bytes: &[u8],
    from: usize,
    count: usize,
) -> Result<Option<Found>, NoMemory>
    requires { from ≤ length bytes.now }
    ensures some { IfOk result (λ found. IfSome found (λ f. (vs : List ℤ) × IsFound bytes.now from f.end f.places.items vs × (length vs ≡ count))) }
    ensures none { IfOk result (λ found. IsNone found → (vs : List ℤ) (nums rest : List ℕ) → length vs ≡ count → IsNums vs nums → drop from bytes.now ≡ nums ++ rest → ⊥) }
{
    let mut places = Vec::new(alloc);
    let mut end = from;
    let mut left = count;
    while 0 < left {
        let size = left.min(BLOCK);
        let Some(len) = find_block(&bytes[end..], size) else {
            return Ok(None);
        };
        places.push(end)?;
        end += len;
        left -= size;
    }
    Ok(Some(Found { places, end }))
}

/// Writes the numbers of the block that stands at a place to the front of `into`, and says how many they are.
fn read_at(bytes: &[u8], at: usize, into: &mut [i64; 128]) -> usize
    requires { (vs : List ℤ) × IsBlockAt bytes.now at vs }
    ensures { (vs : List ℤ) → IsBlockAt bytes.now at vs → (result ≡ length vs) × (into.new ≡ vs ++ drop (length vs) into.old) }
{
    unpack_known(&bytes[at..], into)
}

/// Writes the numbers of a block of a list to the front of `into`, and says how many they are.
pub fn read_block_of(bytes: &[u8], places: &[usize], block: usize, into: &mut [i64; 128]) -> usize
    requires list { (vs : List ℤ) × AreBlocksAt bytes.now places.now vs }
    requires within { block < length places.now }
    ensures count { (vs : List ℤ) → AreBlocksAt bytes.now places.now vs → result ≡ length (slice_range vs (128 * block) (128 * block + 128)) }
    ensures numbers { (vs : List ℤ) → AreBlocksAt bytes.now places.now vs → into.new ≡ slice_range vs (128 * block) (128 * block + 128) ++ drop result into.old }
{
    read_at(bytes, places[block], into)
}

/// The least, the greatest and the sum of the numbers of a block of a list.
pub fn summary_of(bytes: &[u8], places: &[usize], block: usize) -> Summary
    requires list { (vs : List ℤ) × AreBlocksAt bytes.now places.now vs }
    requires within { block < length places.now }
    ensures { (vs : List ℤ) → AreBlocksAt bytes.now places.now vs → IsSummary (slice_range vs (128 * block) (128 * block + 128)) result }
{
    summary_known(&bytes[places[block]..])
}

/// Appends a part of some numbers.
fn put_part(numbers: &[i64], from: usize, to: usize, into: &mut Vec<i64>) -> Result<(), NoMemory>
    requires order { from ≤ to }
    requires within { to ≤ length numbers.now }
    ensures { OnOk result (into.new.items ≡ into.old.items ++ slice_range numbers.now from to) }
{
    into.extend_from_slice(&numbers[from..to])?;
    Ok(())
}

/// Appends a part of the numbers of the block that stands at a place.
fn put_from_block(
    bytes: &[u8],
    at: usize,
    from: usize,
    to: usize,
    into: &mut Vec<i64>,
) -> Result<(), NoMemory>
    requires { (vs : List ℤ) × IsBlockAt bytes.now at vs × (from ≤ to) × (to ≤ length vs) }
    ensures { OnOk result ((vs : List ℤ) → IsBlockAt bytes.now at vs → into.new.items ≡ into.old.items ++ slice_range vs from to) }
{
    let mut buffer = [0i64; BLOCK];
    let count = read_at(bytes, at, &mut buffer);
    put_part(&buffer[..count], from, to, into)
}

/// Where a range that goes on to a place leaves the block that begins at another.
pub fn leave(first: usize, to: usize) -> usize
    requires { first ≤ to }
    ensures { result ≡ min to (first + 128) }
{
    if to - first < BLOCK {
        to
    } else {
        first + BLOCK
    }
}

/// Appends the numbers from a place of a list up to another.
pub fn put_range(
    bytes: &[u8],
    places: &[usize],
    from: usize,
    to: usize,
    into: &mut Vec<i64>,
) -> Result<(), NoMemory>
    requires { (vs : List ℤ) × AreBlocksAt bytes.now places.now vs × (from ≤ to) × (to ≤ length vs) }
    ensures { OnOk result ((vs : List ℤ) → AreBlocksAt bytes.now places.now vs → into.new.items ≡ into.old.items ++ slice_range vs from to) }
{
    let mut at = from;
    while at < to {
        let block = at / BLOCK;
        let first = BLOCK * block;
        let end = leave(first, to);
        put_from_block(bytes, places[block], at - first, end - first, into)?;
        at = end;
    }
    Ok(())
}
