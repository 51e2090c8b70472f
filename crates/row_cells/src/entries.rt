//! The entries of a key, read one after the other: each a path and its value.
ghost use Rattle.std.specs.Prelude.{◌≡◌, ℕ, pos, ◌-ℤ◌, ◌^◌, List, ◌++◌, ◌<◌, ◌≤◌, length, IfSome, IsSomeAnd};
ghost use Rattle.row_cells.specs.Dimensions.{Dimension, IsDimension, IsKeyValue, dimension_bytes};
ghost use Rattle.row_cells.specs.Heads.{dimension_at, dimension_seen, flag_at, flag_of, scalar_of, tagged_at, value_at, whole_at, word_at};
ghost use Rattle.row_cells.specs.Texts.{Reads};

use crate::texts::read_text;

/// The value of an entry, which borrows its text.
#[derive(Clone, Copy)]
pub enum EntryValue<'a> {
    Whole(i64),
    Flag(bool),
    Word(&'a str),
}

/// A value that bytes begin with, and what follows it.
#[derive(Clone, Copy)]
struct Found<'a> {
    value: EntryValue<'a>,
    rest: &'a [u8],
}

/// The text of two bytes of length, where it is UTF-8.
#[tactic(auto, unfolding(crate::specs::Heads::word_at))]
fn read_word(bytes: &[u8]) -> Option<Found<'_>>
    ensures is { Reads (λ f. (scalar_of f.value, f.rest.now)) result (word_at bytes.now) }
    ensures shorter { IfSome result (λ f. length f.rest.now ≤ length bytes.now) }
{
    let piece = read_text(bytes)?;
    match str::from_utf8(piece.text) {
        Ok(text) => Some(Found {
            value: EntryValue::Word(text),
            rest: piece.rest,
        }),
        Err(_) => None,
    }
}

/// The number that is so far above the least of 64 bits.
fn number_above(above: u64) -> i64
    ensures { result ≡ pos above -ℤ pos (2 ^ 63) }
{
    (i128::from(above) - 9_223_372_036_854_775_808) as i64
}

#[tactic(auto, unfolding(crate::specs::Heads::whole_at))]
fn read_whole(bytes: &[u8]) -> Option<Found<'_>>
    ensures is { Reads (λ f. (scalar_of f.value, f.rest.now)) result (whole_at bytes.now) }
    ensures shorter { IfSome result (λ f. length f.rest.now ≤ length bytes.now) }
{
    let (head, rest) = bytes.split_first_chunk::<8>()?;
    Some(Found {
        value: EntryValue::Whole(number_above(u64::from_be_bytes(*head))),
        rest,
    })
}

fn flag_from(byte: u8) -> Option<bool>
    ensures { result ≡ flag_of byte }
{
    if byte == 0 {
        Some(false)
    } else if byte == 1 {
        Some(true)
    } else {
        None
    }
}

fn read_flag(bytes: &[u8]) -> Option<Found<'_>>
    ensures is { Reads (λ f. (scalar_of f.value, f.rest.now)) result (flag_at bytes.now) }
    ensures shorter { IfSome result (λ f. length f.rest.now ≤ length bytes.now) }
{
    let (byte, rest) = bytes.split_first()?;
    let flag = flag_from(*byte)?;
    Some(Found {
        value: EntryValue::Flag(flag),
        rest,
    })
}

fn read_tagged(tag: u8, bytes: &[u8]) -> Option<Found<'_>>
    ensures is { Reads (λ f. (scalar_of f.value, f.rest.now)) result (tagged_at tag bytes.now) }
    ensures shorter { IfSome result (λ f. length f.rest.now ≤ length bytes.now) }
{
    if tag == 1 {
        read_word(bytes)
    } else if tag == 2 {
        read_whole(bytes)
    } else if tag == 3 {
        read_flag(bytes)
    } else {
        None
    }
}

/// A tag and the value that it announces.
#[tactic(auto, unfolding(crate::specs::Heads::value_at))]
fn read_value(bytes: &[u8]) -> Option<Found<'_>>
    ensures is { Reads (λ f. (scalar_of f.value, f.rest.now)) result (value_at bytes.now) }
    ensures shorter { IfSome result (λ f. length f.rest.now ≤ length bytes.now) }
{
    let (tag, rest) = bytes.split_first()?;
    read_tagged(*tag, rest)
}

/// An entry that bytes begin with: its path, its value, its own bytes, and what follows it.
#[derive(Clone, Copy)]
pub struct Entry<'a> {
    pub path: &'a [u8],
    pub value: EntryValue<'a>,
    pub bytes: &'a [u8],
    pub rest: &'a [u8],
}

/// The entry that bytes begin with, or None where they begin with none. Its path may be any bytes.
#[tactic(auto, unfolding(crate::specs::Heads::dimension_at))]
pub fn read_entry(bytes: &[u8]) -> Option<Entry<'_>>
    ensures is { Reads (λ entry. (dimension_seen entry, entry.rest.now)) result (dimension_at bytes.now) }
    ensures told { IfSome result (λ entry. IsKeyValue (scalar_of entry.value) ×
        (bytes.now ≡ dimension_bytes (dimension_seen entry) ++ entry.rest.now)) }
    ensures reads { (d : Dimension) (rest : List ℕ) → IsDimension d → bytes.now ≡ dimension_bytes d ++ rest →
        IsSomeAnd result (λ entry.
        (entry.path.now ≡ d.path) × (entry.bytes.now ≡ dimension_bytes d) × (entry.rest.now ≡ rest)
        × (scalar_of entry.value ≡ d.value)) }
    ensures shorter { IfSome result (λ entry. length entry.rest.now < length bytes.now) }
{
    let path = read_text(bytes)?;
    let found = read_value(path.rest)?;
    let (entry, _) = bytes.split_at(bytes.len() - found.rest.len());
    Some(Entry {
        path: path.text,
        value: found.value,
        bytes: entry,
        rest: found.rest,
    })
}
