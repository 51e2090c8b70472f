//! Which rows have a value: a bit a row.
ghost use Rattle.std.specs.Prelude.{◌≡◌, ◌↔◌, ◌⊎◌, ℕ, ◌*◌, ◌+◌, ◌-◌, ◌/◌, ◌<◌, ◌≤◌, ◌^◌, ◌++◌, Bool, List, [], ◌∷◌, length, map, take, drop, IfOk, IsTrue, OnOk};
ghost use Rattle.column_pack.specs.Digits.{bytes_for, number};
ghost use Rattle.column_block.specs.Presence.{presence, flags_of, bit, is_set, flags_in, ones, AreCounts, present, spread};

use column_pack::has_spare;
use edge_face::NoMemory;
use sqlite_items::Items;
use std::alloc::Global;

/// How many rows lie between two counts of what is present.
const GROUP: usize = 128;

fn bit_of(flag: bool) -> usize
    ensures { result ≡ bit flag }
{
    if flag { 1 } else { 0 }
}

/// Eight rows, or fewer, as a byte.
fn byte_of<T>(rows: &[Option<T>]) -> u8
    requires { length rows.now ≤ 8 }
    ensures { result ≡ number 2 (map bit (flags_of rows.now)) }
{
    let mut byte = 0usize;
    for row in 0..rows.len() {
        byte = 2 * byte + bit_of(rows[rows.len() - 1 - row].is_some());
    }
    byte as u8
}

/// Appends which rows have a value.
pub fn put_presence<T>(rows: &[Option<T>], into: &mut Vec<u8>) -> Result<(), NoMemory>
    ensures { OnOk result (into.new.items ≡ into.old.items ++ presence (flags_of rows.now)) }
{
    let mut left = rows;
    while 0 < left.len() {
        let (front, rest) = left.split_at(left.len().min(8));
        into.push(byte_of(front))?;
        left = rest;
    }
    Ok(())
}

/// Whether the bytes begin with bits for so many rows, and with spare bits that are 0.
pub fn has_presence(bytes: &[u8], rows: usize) -> bool
    ensures yes { IsTrue result → (rest : List ℕ) × (bytes.now ≡ presence (flags_in rows bytes.now) ++ rest) }
    ensures no { (flags : List Bool) (rest : List ℕ) → length flags ≡ rows → bytes.now ≡ presence flags ++ rest → IsTrue result }
{
    let size = rows.div_ceil(8);
    if bytes.len() < size {
        return false;
    }
    !has_spare(&bytes[..size], rows)
}

/// Whether a row has a value.
pub fn is_marked(bytes: &[u8], row: usize) -> bool
    requires { row < 8 * length bytes.now }
    ensures { result ≡ is_set bytes.now row }
{
    (bytes[row / 8] >> (row % 8)) % 2 == 1
}

/// How many of the rows from a place up to another have a value.
pub fn count_between(bytes: &[u8], from: usize, to: usize) -> usize
    requires order { from ≤ to }
    requires within { to ≤ 8 * length bytes.now }
    ensures count { ones (flags_in to bytes.now) ≡ ones (flags_in from bytes.now) + result }
    ensures few { result ≤ to - from }
{
    let mut count = 0usize;
    for row in from..to {
        count += bit_of(is_marked(bytes, row));
    }
    count
}

/// How many rows before each 128th have a value.
pub fn count_rows(alloc: Global, bytes: &[u8], rows: usize) -> Result<Vec<usize>, NoMemory>
    requires { rows ≤ 8 * length bytes.now }
    ensures { IfOk result (λ counts. AreCounts rows bytes.now counts.items) }
{
    let mut counts = Vec::with_capacity(alloc, rows / GROUP + 1)?;
    let mut count = 0usize;
    for group in 0..rows / GROUP {
        counts.push(count)?;
        count += count_between(bytes, GROUP * group, GROUP * group + GROUP);
    }
    counts.push(count)?;
    Ok(counts)
}

/// How many rows before a place have a value.
pub fn count_before(bytes: &[u8], counts: &[usize], rows: usize, row: usize) -> usize
    requires counts { AreCounts rows bytes.now counts.now }
    requires within { row ≤ rows }
    requires long { rows ≤ 8 * length bytes.now }
    ensures count { result ≡ ones (flags_in row bytes.now) }
    ensures few { result ≤ row }
{
    let group = row / GROUP;
    counts[group] + count_between(bytes, GROUP * group, row)
}

fn push_present<T: Copy>(row: &Option<T>, into: &mut Vec<T>) -> Result<(), NoMemory>
    ensures { OnOk result (into.new.items ≡ into.old.items ++ present (row.now ∷ [])) }
{
    if let Some(value) = row {
        into.push(*value)?;
    }
    Ok(())
}

/// The values that are there.
pub fn present_of<T: Copy>(alloc: Global, rows: &[Option<T>]) -> Result<Vec<T>, NoMemory>
    ensures { IfOk result (λ values. values.items ≡ present rows.now) }
{
    let mut values = Vec::new(alloc);
    for row in rows {
        push_present(row, &mut values)?;
    }
    Ok(values)
}

/// The next of some values, where a row has one.
fn value_for<T: Copy>(marked: bool, values: &[T], next: usize) -> Option<T>
    requires { IsTrue marked → next < length values.now }
    ensures { spread (marked ∷ []) (drop next values.now) ≡ result ∷ [] }
{
    if marked { Some(values[next]) } else { None }
}

/// Values at the rows from a place up to another that have one.
pub fn spread_over<T: Copy>(
    alloc: Global,
    bytes: &[u8],
    from: usize,
    to: usize,
    values: &[T],
) -> Result<Items<Option<T>>, NoMemory>
    requires order { from ≤ to }
    requires within { to ≤ 8 * length bytes.now }
    requires as_many { length values.now ≡ ones (drop from (flags_in to bytes.now)) }
    ensures { IfOk result (λ rows. rows ≡ spread (drop from (flags_in to bytes.now)) values.now) }
{
    let mut rows = Vec::with_capacity(alloc, to - from)?;
    let mut next = 0usize;
    for row in from..to {
        let marked = is_marked(bytes, row);
        rows.push(value_for(marked, values, next))?;
        next += bit_of(marked);
    }
    Ok(Items::from_vec(rows))
}
