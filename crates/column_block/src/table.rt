//! Tables of texts: each text once, ascending by bytes.
ghost use Rattle.std.specs.Prelude.{◌≡◌, ℕ, ◌<◌, ◌≤◌, ◌++◌, ◌↔◌, List, [], ◌∷◌, length, IfOk, IfSome, IsNone, IsTrue, OnOk, Err};
ghost use Rattle.std.specs.Cmp.Lexicographic.{slice_cmp};
ghost use Rattle.std.specs.List.Sorted.{IsStrictlySortedBy};
ghost use Rattle.std.specs.Ordering.{nat_cmp};
ghost use Rattle.row_cells.specs.Each.{Each};
ghost use Rattle.row_cells.specs.Limits.{longest_word};
ghost use Rattle.packed_lists.specs.Lists.{joined};
ghost use Rattle.column_block.specs.Rules.{IsText, TextsAscend};
ghost use Rattle.row_cells.specs.Dimensions.{text_bytes};
ghost use Rattle.column_block.specs.Spelling.{IsIn, ordinal, table_bytes};
ghost use Rattle.column_block.specs.Worded.{AreTexts, HaveSame};

use crate::kinds::{ColumnError, Texts};
use edge_face::{NoMemory, Text};
use row_cells::{LONGEST_WORD, read_text};
use std::alloc::Global;
use std::cmp::Ordering;
use std::collections::BTreeSet;

/// A table that bytes begin with, and how many bytes it takes.
#[derive(Debug, Drop)]
pub struct ReadTable {
    pub texts: Vec<Text>,
    pub used: usize,
}

/// A text that bytes begin with, and what follows it.
#[derive(Clone, Copy)]
struct Piece<'a> {
    text: &'a str,
    rest: &'a [u8],
}

/// Puts a text into a set, unless it is there.
fn collect_text(alloc: Global, text: &Text, set: &mut BTreeSet<Text>) -> Result<(), NoMemory>
    ensures { OnOk result (HaveSame set.new.keys (set.old.keys ++ text.now ∷ [])) }
{
    if set.contains(text) {
        return Ok(());
    }
    let text = text.copy(alloc)?;
    let _ = set.insert(text)?;
    Ok(())
}

/// Puts the texts of a list into a set.
fn collect_row(alloc: Global, row: &[Text], set: &mut BTreeSet<Text>) -> Result<(), NoMemory>
    ensures { OnOk result (HaveSame set.new.keys (set.old.keys ++ row.now)) }
{
    for text in row {
        collect_text(alloc, text, set)?;
    }
    Ok(())
}

/// All texts of some lists, each once.
fn collect(alloc: Global, lists: &[Texts]) -> Result<BTreeSet<Text>, NoMemory>
    ensures { IfOk result (λ set. HaveSame set.keys (joined lists.now)) }
{
    let mut set = BTreeSet::new(alloc);
    for list in lists {
        collect_row(alloc, list.as_slice(), &mut set)?;
    }
    Ok(set)
}

/// The texts of a set in their order.
fn in_order(alloc: Global, set: BTreeSet<Text>) -> Result<Vec<Text>, NoMemory>
    ensures keys { IfOk result (λ texts. texts.items ≡ set.keys) }
    ensures sorted { IfOk result (λ texts. IsStrictlySortedBy (slice_cmp nat_cmp) texts.items) }
{
    let mut texts = Vec::with_capacity(alloc, set.len())?;
    for text in set {
        texts.push(text)?;
    }
    Ok(texts)
}

/// The table of the texts that occur in some lists.
pub fn table_of(alloc: Global, lists: &[Texts]) -> Result<Vec<Text>, NoMemory>
    ensures ascend { IfOk result (λ texts. TextsAscend texts.items) }
    ensures occur { IfOk result (λ texts. HaveSame texts.items (joined lists.now)) }
{
    let set = collect(alloc, lists)?;
    let texts = in_order(alloc, set)?;
    Ok(texts)
}

/// The place of a text in a table that has it.
pub fn ordinal_of(texts: &[Text], text: &Text) -> usize
    requires ascend { TextsAscend texts.now }
    requires held { IsIn text.now texts.now }
    ensures is { result ≡ ordinal texts.now text.now }
    ensures within { result < length texts.now }
{
    let mut low = 0;
    let mut high = texts.len();
    while low + 1 < high {
        let middle = low + (high - low) / 2;
        match text.cmp(&texts[middle]) {
            Ordering::Less => high = middle,
            Ordering::Equal => low = middle,
            Ordering::Greater => low = middle,
        }
    }
    low
}

/// Appends two bytes of length, and a text.
fn put_text(text: &[u8], into: &mut Vec<u8>) -> Result<(), NoMemory>
    requires { length text.now ≤ longest_word }
    ensures { OnOk result (into.new.items ≡ into.old.items ++ text_bytes text.now) }
{
    into.extend_from_slice(&(text.len() as u16).to_be_bytes())?;
    into.extend_from_slice(text)?;
    Ok(())
}

/// The bytes of a table.
pub fn spell_table(alloc: Global, texts: &[Text]) -> Result<Vec<u8>, NoMemory>
    requires { Each IsText texts.now }
    ensures { IfOk result (λ bytes. bytes.items ≡ table_bytes texts.now) }
{
    let mut bytes = Vec::new(alloc);
    bytes.extend_from_slice(&(texts.len() as u64).to_be_bytes())?;
    for text in texts {
        put_text(text.as_bytes(), &mut bytes)?;
    }
    Ok(bytes)
}

/// The text of UTF-8 that bytes begin with, behind two bytes of its length.
fn read_piece(bytes: &[u8]) -> Option<Piece<'_>>
    ensures some { IfSome result (λ piece. (bytes.now ≡ text_bytes piece.text.now ++ piece.rest.now) × IsText piece.text.now) }
    ensures none { IsNone result → (text rest : List ℕ) → IsText text → bytes.now ≡ text_bytes text ++ rest → ⊥ }
{
    let found = read_text(bytes)?;
    if found.text.len() > LONGEST_WORD {
        return None;
    }
    match str::from_utf8(found.text) {
        Ok(text) => Some(Piece {
            text,
            rest: found.rest,
        }),
        Err(_) => None,
    }
}

/// Whether a text is behind the last one of some.
fn is_behind(texts: &[Text], text: &str) -> bool
    requires { TextsAscend texts.now }
    ensures { IsTrue result ↔ TextsAscend (texts.now ++ text.now ∷ []) }
{
    let count = texts.len();
    if count == 0 {
        return true;
    }
    match texts[count - 1].as_str().cmp(text) {
        Ordering::Less => true,
        _ => false,
    }
}

/// The table that bytes begin with.
pub fn read_table(alloc: Global, bytes: &[u8]) -> Result<ReadTable, ColumnError>
    ensures texts { IfOk result (λ table. AreTexts table.texts.items) }
    ensures used { IfOk result (λ table. table.used ≡ length (table_bytes table.texts.items)) }
    ensures spelled { IfOk result (λ table. (rest : List ℕ) × (bytes.now ≡ table_bytes table.texts.items ++ rest)) }
    ensures bad { result ≡ Err ColumnError.BadColumn → (texts : List (List ℕ)) (rest : List ℕ) → AreTexts texts → bytes.now ≡ table_bytes texts ++ rest → ⊥ }
{
    let Some((head, tail)) = bytes.split_first_chunk::<8>() else {
        return Err(ColumnError::BadColumn);
    };
    let mut texts = Vec::new(alloc);
    let mut rest = tail;
    for _ in 0..u64::from_be_bytes(*head) {
        let Some(piece) = read_piece(rest) else {
            return Err(ColumnError::BadColumn);
        };
        if !is_behind(texts.as_slice(), piece.text) {
            return Err(ColumnError::BadColumn);
        }
        let Ok(text) = Text::new(alloc, piece.text) else {
            return Err(ColumnError::NoMemory);
        };
        let Ok(()) = texts.push(text) else {
            return Err(ColumnError::NoMemory);
        };
        rest = piece.rest;
    }
    let used = bytes.len() - rest.len();
    Ok(ReadTable { texts, used })
}
