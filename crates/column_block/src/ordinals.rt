//! Lists of texts as lists of their places in a table.
ghost use Rattle.std.specs.Prelude.{◌≡◌, ℕ, ℤ, pos, ◌<◌, ◌<ℤ◌, ◌≤ℤ◌, ◌^◌, ◌++◌, ◌↔◌, Bool, List, length, map, get_or, IfOk, OnOk, IsTrue, false};
ghost use Rattle.row_cells.specs.Each.{Each};
ghost use Rattle.packed_lists.specs.Lists.{joined};
ghost use Rattle.column_block.specs.Rules.{TextsAscend};
ghost use Rattle.column_block.specs.Spelling.{IsIn, ordinals};
ghost use Rattle.column_block.specs.Worded.{AreMarked, AreOrdinals, ClimbFrom, texts_at, worded};

use crate::kinds::{Numbers, Texts};
use crate::table::ordinal_of;
use edge_face::{NoMemory, Text};
use sqlite_items::Items;
use std::alloc::Global;

/// The places of a list of texts.
fn places_of(alloc: Global, texts: &[Text], list: &[Text]) -> Result<Vec<i64>, NoMemory>
    requires ascend { TextsAscend texts.now }
    requires held { (t : List ℕ) → IsIn t list.now → IsIn t texts.now }
    ensures { IfOk result (λ places. places.items ≡ ordinals texts.now list.now) }
{
    let mut places = Vec::with_capacity(alloc, list.len())?;
    for text in list {
        places.push(ordinal_of(texts, text) as i64)?;
    }
    Ok(places)
}

/// The places of the texts of some lists.
pub fn all_places(alloc: Global, texts: &[Text], lists: &[Texts]) -> Result<Vec<Numbers>, NoMemory>
    requires ascend { TextsAscend texts.now }
    requires held { (t : List ℕ) → IsIn t (joined lists.now) → IsIn t texts.now }
    ensures { IfOk result (λ rows. rows.items ≡ map (ordinals texts.now) lists.now) }
{
    let mut rows = Vec::with_capacity(alloc, lists.len())?;
    for list in lists {
        rows.push(Numbers::new(places_of(alloc, texts, list.as_slice())?))?;
    }
    Ok(rows)
}

/// Whether numbers are places below a count, each above the one before.
fn are_places(row: &[i64], count: i64) -> bool
    ensures { IsTrue result ↔ ClimbFrom (pos 0) count row.now }
{
    let mut low = 0i64;
    for place in row {
        let place = *place;
        if place < low {
            return false;
        }
        if count <= place {
            return false;
        }
        low = place + 1;
    }
    true
}

/// A place in a list of so many items, as an index.
fn index_of(place: &i64, count: usize) -> usize
    requires positive { pos 0 ≤ℤ place.now }
    requires below { place.now <ℤ pos count }
    ensures is { pos result ≡ place.now }
    ensures within { result < count }
{
    let place = *place;
    place as usize
}

/// Marks the places of a row.
fn mark(seen: &mut Vec<bool>, row: &[i64])
    requires { ClimbFrom (pos 0) (pos (length seen.now.items)) row.now }
    ensures long { length seen.new.items ≡ length seen.old.items }
    ensures marked { (numbers : List ℤ) → AreMarked numbers seen.old.items → AreMarked (numbers ++ row.now) seen.new.items }
{
    for place in row {
        let count = seen.len();
        seen[index_of(place, count)] = true;
    }
}

/// Whether all places are marked.
fn are_all(seen: &[bool]) -> bool
    ensures { IsTrue result ↔ ((k : ℕ) → k < length seen.now → IsTrue (get_or seen.now k false)) }
{
    for mark in seen {
        if !*mark {
            return false;
        }
    }
    true
}

/// A count as a bound of places.
fn limit_of(count: usize) -> i64
    requires { count < 2 ^ 63 }
    ensures { result ≡ pos count }
{
    count as i64
}

/// Whether rows are lists of places in a table of so many texts, each of which some row has.
pub fn are_ordinals(alloc: Global, rows: &[Numbers], count: usize) -> Result<bool, NoMemory>
    requires { count < 2 ^ 63 }
    ensures { IfOk result (λ answer. IsTrue answer ↔ AreOrdinals count rows.now) }
{
    let mut seen = vec![in alloc; false; count]?;
    let limit = limit_of(count);
    for row in rows {
        let places = row.as_slice();
        if !are_places(places, limit) {
            return Ok(false);
        }
        mark(&mut seen, places);
    }
    Ok(are_all(seen.as_slice()))
}

/// Copies of the texts at some places of a table.
fn copy_texts(alloc: Global, texts: &[Text], places: &[i64]) -> Result<Vec<Text>, NoMemory>
    requires { ClimbFrom (pos 0) (pos (length texts.now)) places.now }
    ensures { IfOk result (λ list. list.items ≡ texts_at texts.now places.now) }
{
    let mut list = Vec::with_capacity(alloc, places.len())?;
    for place in places {
        list.push(texts[index_of(place, texts.len())].copy(alloc)?)?;
    }
    Ok(list)
}

/// The texts at the places of some rows.
pub fn copy_rows(alloc: Global, texts: &[Text], rows: &[Numbers]) -> Result<Items<Texts>, NoMemory>
    requires { Each (ClimbFrom (pos 0) (pos (length texts.now))) rows.now }
    ensures { IfOk result (λ lists. lists ≡ worded texts.now rows.now) }
{
    let mut lists = Vec::with_capacity(alloc, rows.len())?;
    for row in rows {
        lists.push(Texts::new(copy_texts(alloc, texts, row.as_slice())?))?;
    }
    Ok(Items::from_vec(lists))
}
