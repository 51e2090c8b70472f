//! Parts as six lists of numbers in packed blocks: minima, maxima, and the halves of sums and of counts.
ghost use Rattle.std.specs.Prelude.{◌≡◌, ◌↔◌, ℕ, ℤ, pos, ◌*◌, ◌+◌, ◌<◌, ◌≤◌, ◌++◌, List, [], length, take, drop, slice_range, slice_index_or, IfOk, IfSome, IsNone, IsTrue, OnOk};
ghost use Rattle.fold_law.specs.declared.measures.Parts.{Parts};
ghost use Rattle.packed_lists.specs.Decoded.{ArePlaced};
ghost use Rattle.column_block.specs.HeldParts.{AreListsFound, BeginsLists, number_at};
ghost use Rattle.packed_lists.specs.Nums.{AreNums};
ghost use Rattle.row_cells.specs.Each.{Each};
ghost use Rattle.column_block.specs.Rules.{AreParts};
ghost use Rattle.column_block.specs.Spelling.{high, low, six_lists};

use crate::halves::{Halves, halves_of, join_halves};
use crate::kinds::Numbers;
use crate::lists::put_lists;
use edge_face::NoMemory;
use fold_law::Parts;
use packed_lists::{BLOCK, Found, find_numbers, leave, read_block_of};
use row_cells::MOST_DOCUMENTS;
use sqlite_items::Items;
use std::alloc::Global;

const MINIMA: usize = 0;

const MAXIMA: usize = 1;

const SUM_HIGHS: usize = 2;

const SUM_LOWS: usize = 3;

const COUNT_HIGHS: usize = 4;

const COUNT_LOWS: usize = 5;

const LISTS: usize = 6;

/// What a buffer holds before anything is read.
pub const UNREAD: Parts = Parts {
    min: 0,
    max: 0,
    sum: 0,
    count: 0,
};

/// Appends the blocks of the lists of some parts, and gives the places where those of each list begin.
pub fn put_parts(
    alloc: Global,
    parts: &[Parts],
    into: &mut Vec<u8>,
) -> Result<Items<Items<usize>>, NoMemory>
    ensures spelled { OnOk result ((rest : List ℕ) × AreNums (six_lists parts.now) rest × (into.new.items ≡ into.old.items ++ rest)) }
    ensures placed { IfOk result (λ places. ArePlaced into.new.items places (six_lists parts.now)) }
{
    let lists = lists_of(alloc, parts)?;
    let places = put_lists(alloc, lists.as_slice(), into)?;
    Ok(places)
}

/// Parts whose numbers have 64 bits each.
#[derive(Clone, Copy, Debug)]
struct HalvedParts {
    min: i64,
    max: i64,
    sum: Halves,
    count: Halves,
}

fn halve(parts: &Parts) -> HalvedParts
    ensures min { result.min ≡ parts.now.min }
    ensures max { result.max ≡ parts.now.max }
    ensures sum_high { result.sum.high ≡ high parts.now.sum }
    ensures sum_low { result.sum.low ≡ low parts.now.sum }
    ensures count_high { result.count.high ≡ high parts.now.count }
    ensures count_low { result.count.low ≡ low parts.now.count }
{
    HalvedParts {
        min: parts.min,
        max: parts.max,
        sum: halves_of(parts.sum),
        count: halves_of(parts.count),
    }
}

/// The six lists of some parts.
fn lists_of(alloc: Global, parts: &[Parts]) -> Result<Items<Numbers>, NoMemory>
    ensures { IfOk result (λ lists. lists ≡ six_lists parts.now) }
{
    let mut minima = Vec::with_capacity(alloc, parts.len())?;
    let mut maxima = Vec::with_capacity(alloc, parts.len())?;
    let mut sum_highs = Vec::with_capacity(alloc, parts.len())?;
    let mut sum_lows = Vec::with_capacity(alloc, parts.len())?;
    let mut count_highs = Vec::with_capacity(alloc, parts.len())?;
    let mut count_lows = Vec::with_capacity(alloc, parts.len())?;
    for part in parts {
        let halved = halve(part);
        minima.push(halved.min)?;
        maxima.push(halved.max)?;
        sum_highs.push(halved.sum.high)?;
        sum_lows.push(halved.sum.low)?;
        count_highs.push(halved.count.high)?;
        count_lows.push(halved.count.low)?;
    }
    let mut lists = Vec::with_capacity(alloc, LISTS)?;
    lists.push(Numbers::new(minima))?;
    lists.push(Numbers::new(maxima))?;
    lists.push(Numbers::new(sum_highs))?;
    lists.push(Numbers::new(sum_lows))?;
    lists.push(Numbers::new(count_highs))?;
    lists.push(Numbers::new(count_lows))?;
    Ok(Items::from_vec(lists))
}

/// Where the blocks of each list begin, and where the last one ends.
#[derive(Debug, Drop)]
pub struct FoundParts {
    pub places: Items<Items<usize>>,
    pub end: usize,
}

/// Lists of as many numbers each that stand in bytes from a place on, one behind the other.
fn find_lists(
    alloc: Global,
    bytes: &[u8],
    from: usize,
    lists: usize,
    count: usize,
) -> Result<Option<FoundParts>, NoMemory>
    requires { from ≤ length bytes.now }
    ensures some { IfOk result (λ found. IfSome found (λ f. (ls : List (List ℤ)) × AreListsFound bytes.now from f.end f.places count ls × (length ls ≡ lists))) }
    ensures none { IfOk result (λ found. IsNone found → BeginsLists lists count (drop from bytes.now) → ⊥) }
{
    let mut places = Vec::new(alloc);
    let mut end = from;
    for _ in 0..lists {
        let found = find_numbers(alloc, bytes, end, count)?;
        let Some(found) = found else {
            return Ok(None);
        };
        places.push(Items::from_vec(found.places))?;
        end = found.end;
    }
    Ok(Some(FoundParts {
        places: Items::from_vec(places),
        end,
    }))
}

/// The lists of so many parts that stand in bytes from a place on.
pub fn find_parts(
    alloc: Global,
    bytes: &[u8],
    from: usize,
    count: usize,
) -> Result<Option<FoundParts>, NoMemory>
    requires { from ≤ length bytes.now }
    ensures some { IfOk result (λ found. IfSome found (λ f. (ps : List Parts) × AreListsFound bytes.now from f.end f.places count (six_lists ps) × (length ps ≡ count))) }
    ensures none { IfOk result (λ found. IsNone found → (ps : List Parts) (nums rest : List ℕ) → length ps ≡ count → AreNums (six_lists ps) nums → drop from bytes.now ≡ nums ++ rest → ⊥) }
{
    let found = find_lists(alloc, bytes, from, LISTS, count)?;
    let Some(found) = found else {
        return Ok(None);
    };
    Ok(Some(found))
}

/// Writes the numbers of a block of one of the lists to the front of `into`, and says how many they are.
fn read_list(
    bytes: &[u8],
    places: &[Items<usize>],
    list: usize,
    block: usize,
    into: &mut [i64; 128],
) -> usize
    requires parts { (ps : List Parts) × ArePlaced bytes.now places.now (six_lists ps) × (128 * block < length ps) }
    requires list { list < 6 }
    ensures count { (ps : List Parts) → ArePlaced bytes.now places.now (six_lists ps) → result ≡ length (slice_range ps (128 * block) (128 * block + 128)) }
    ensures few { result ≤ 128 }
    ensures numbers { (ps : List Parts) → ArePlaced bytes.now places.now (six_lists ps) → (k : ℕ) → k < result → slice_index_or into.new k (pos 0) ≡ number_at (six_lists ps) list (128 * block + k) }
{
    read_block_of(bytes, places[list].as_slice(), block, into)
}

/// Writes the parts of a block to the front of `into`, and says how many they are.
pub fn read_parts(
    bytes: &[u8],
    places: &[Items<usize>],
    block: usize,
    into: &mut [Parts; 128],
) -> usize
    requires { (ps : List Parts) × ArePlaced bytes.now places.now (six_lists ps) × (128 * block < length ps) }
    ensures count { (ps : List Parts) → ArePlaced bytes.now places.now (six_lists ps) → result ≡ length (slice_range ps (128 * block) (128 * block + 128)) }
    ensures few { result ≤ 128 }
    ensures parts { (ps : List Parts) → ArePlaced bytes.now places.now (six_lists ps) → take result into.new ≡ slice_range ps (128 * block) (128 * block + 128) }
{
    let mut minima = [0i64; BLOCK];
    let mut maxima = [0i64; BLOCK];
    let mut sum_highs = [0i64; BLOCK];
    let mut sum_lows = [0i64; BLOCK];
    let mut count_highs = [0i64; BLOCK];
    let mut count_lows = [0i64; BLOCK];
    let count = read_list(bytes, places, MINIMA, block, &mut minima);
    read_list(bytes, places, MAXIMA, block, &mut maxima);
    read_list(bytes, places, SUM_HIGHS, block, &mut sum_highs);
    read_list(bytes, places, SUM_LOWS, block, &mut sum_lows);
    read_list(bytes, places, COUNT_HIGHS, block, &mut count_highs);
    read_list(bytes, places, COUNT_LOWS, block, &mut count_lows);
    for place in 0..count {
        into[place] = Parts {
            min: minima[place],
            max: maxima[place],
            sum: join_halves(sum_highs[place], sum_lows[place]),
            count: join_halves(count_highs[place], count_lows[place]),
        };
    }
    count
}

/// Appends a part of some parts.
fn put_some(parts: &[Parts], from: usize, to: usize, into: &mut Vec<Parts>) -> Result<(), NoMemory>
    requires order { from ≤ to }
    requires within { to ≤ length parts.now }
    ensures { OnOk result (into.new.items ≡ into.old.items ++ slice_range parts.now from to) }
{
    into.extend_from_slice(&parts[from..to])?;
    Ok(())
}

/// Appends a part of the parts of a block.
fn put_from_parts(
    bytes: &[u8],
    places: &[Items<usize>],
    block: usize,
    from: usize,
    to: usize,
    into: &mut Vec<Parts>,
) -> Result<(), NoMemory>
    requires { (ps : List Parts) × ArePlaced bytes.now places.now (six_lists ps) × (from < to) × (to ≤ 128) × (128 * block + to ≤ length ps) }
    ensures { OnOk result ((ps : List Parts) → ArePlaced bytes.now places.now (six_lists ps) → into.new.items ≡ into.old.items ++ slice_range ps (128 * block + from) (128 * block + to)) }
{
    let mut buffer = [UNREAD; BLOCK];
    let count = read_parts(bytes, places, block, &mut buffer);
    put_some(&buffer[..count], from, to, into)?;
    Ok(())
}

/// Appends the parts from a place up to another.
pub fn put_parts_range(
    bytes: &[u8],
    places: &[Items<usize>],
    from: usize,
    to: usize,
    into: &mut Vec<Parts>,
) -> Result<(), NoMemory>
    requires { (ps : List Parts) × ArePlaced bytes.now places.now (six_lists ps) × (from ≤ to) × (to ≤ length ps) }
    ensures { OnOk result ((ps : List Parts) → ArePlaced bytes.now places.now (six_lists ps) → into.new.items ≡ into.old.items ++ slice_range ps from to) }
{
    let mut at = from;
    while at < to {
        let block = at / BLOCK;
        let first = BLOCK * block;
        let end = leave(first, to);
        put_from_parts(bytes, places, block, at - first, end - first, into)?;
        at = end;
    }
    Ok(())
}

/// The greatest sum of the values of all documents of an index, by size.
const MOST_SUM: u128 = MOST_DOCUMENTS as u128 * (1 << 63);
/// The greatest number of them.
const MOST_COUNT: i128 = MOST_DOCUMENTS as i128 * ((1 << 63) - 1);

/// Whether a column may hold parts.
fn is_kept(parts: &Parts) -> bool
    ensures yes { IsTrue result → AreParts parts.now }
    ensures no { AreParts parts.now → IsTrue result }
{
    if parts.count < 1 {
        return false;
    }
    if MOST_COUNT < parts.count {
        return false;
    }
    parts.sum.unsigned_abs() <= MOST_SUM
}

fn are_all_kept(parts: &[Parts]) -> bool
    ensures yes { IsTrue result → Each AreParts parts.now }
    ensures no { Each AreParts parts.now → IsTrue result }
{
    for part in parts {
        if !is_kept(part) {
            return false;
        }
    }
    true
}

/// Whether a column may hold all of so many parts.
pub fn are_kept(bytes: &[u8], places: &[Items<usize>], count: usize) -> bool
    requires { (ps : List Parts) × ArePlaced bytes.now places.now (six_lists ps) × (length ps ≡ count) }
    ensures yes { IsTrue result → (ps : List Parts) → ArePlaced bytes.now places.now (six_lists ps) → Each AreParts ps }
    ensures no { (ps : List Parts) → ArePlaced bytes.now places.now (six_lists ps) → Each AreParts ps → IsTrue result }
{
    let mut buffer = [UNREAD; BLOCK];
    for block in 0..count.div_ceil(BLOCK) {
        let found = read_parts(bytes, places, block, &mut buffer);
        if !are_all_kept(&buffer[..found]) {
            return false;
        }
    }
    true
}
