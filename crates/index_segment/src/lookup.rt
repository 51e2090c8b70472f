//! Where a series stands among the keys of a segment.
ghost use Rattle.std.specs.Prelude.{◌≡◌, ◌≢◌, ℕ, ◌<◌, ◌≤◌, [], length, slice_index_or, IfSome, IsNone, Some};
ghost use Rattle.std.specs.List.{slice_get};
ghost use Rattle.std.specs.Option.{option_copied};
ghost use Rattle.std.specs.Ordering.{nat_cmp};
ghost use Rattle.std.specs.Cmp.Lexicographic.{slice_cmp};
ghost use Rattle.std.specs.declared.cmp.Ordering.TheVariants.{Less};
ghost use Rattle.index_segment.specs.Looks.{first_behind};
ghost use Rattle.index_segment.specs.Order.{Ascend};

use row_cells::Key;
use sqlite_items::at;
use std::cmp::Ordering;

/// How many keys stand before a key.
fn count_before(keys: &[Key], key: &Key) -> usize
    requires { Ascend keys.now }
    ensures within { result ≤ length keys.now }
    ensures before { (k : ℕ) → k < result → slice_cmp nat_cmp (slice_index_or keys.now k []) key.now ≡ Less }
    ensures behind { (k : ℕ) → result ≤ k → k < length keys.now → slice_cmp nat_cmp (slice_index_or keys.now k []) key.now ≢ Less }
{
    let mut low = 0;
    let mut high = keys.len();
    while low < high {
        let middle = low + (high - low) / 2;
        match keys[middle].cmp(key) {
            Ordering::Less => low = middle + 1,
            _ => high = middle,
        }
    }
    low
}

/// The place of a key.
pub fn place_of(keys: &[Key], key: &Key) -> Option<usize>
    requires { Ascend keys.now }
    ensures some { IfSome result (λ place. slice_get keys.now place ≡ Some key.now) }
    ensures none { IsNone result → (k : ℕ) → k < length keys.now → slice_index_or keys.now k [] ≢ key.now }
{
    let place = count_before(keys, key);
    let found = at(keys, place)?;
    if found == key { Some(place) } else { None }
}

/// The place of the first key behind a key, or behind none.
pub fn place_behind(keys: &[Key], key: Option<&Key>) -> usize
    requires { Ascend keys.now }
    ensures { first_behind (option_copied key.entry) keys.now ≡ slice_get keys.now result }
{
    let Some(key) = key else {
        return 0;
    };
    let place = count_before(keys, key);
    match at(keys, place) {
        Some(found) => {
            if found == key {
                // A key doesn't stand behind itself.
                place + 1
            } else {
                place
            }
        }
        None => place,
    }
}
