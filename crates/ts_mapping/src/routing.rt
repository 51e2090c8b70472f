//! The fields that route.
ghost use Rattle.std.specs.Prelude.{◌≡◌, ◌∷◌, ◌≤◌, ◌&&◌, ℕ, List, [], Some, IfOk, OnOk, length, nat_le, not, option_map, option_and_then};
ghost use Rattle.json_walk.specs.Shapes.{texts_of};
ghost use Rattle.ts_mapping.specs.Faults as spec;
ghost use Rattle.ts_mapping.specs.Fields as fields;
ghost use Rattle.ts_mapping.specs.Least.{fault_unless, least, least_with};
ghost use Rattle.ts_mapping.specs.Limits.{most_fields};
ghost use Rattle.ts_mapping.specs.Paths.{is_among};
ghost use Rattle.ts_mapping.specs.Seen.{settings_seen};
ghost use Rattle.ts_mapping.specs.Settings.{value_of as value_at};
ghost use Rattle.ts_mapping.specs.declared.settings.Key.TheVariants.{RoutingPath};

use crate::least::Least;
use crate::path_set::PathSet;
use crate::settings::{Key, SettingAt, value_of};
use crate::trees::texts;
use edge_face::{NoMemory, Text};
use row_cells::{Field, Role};
use sqlite_items::Items;
use std::alloc::Global;

/// The entries of the routing path, if it is given.
pub fn entries(alloc: Global, settings: &[SettingAt<'_>]) -> Result<Option<Items<Text>>, NoMemory>
    ensures { IfOk result (λ entries. entries ≡ option_and_then texts_of (value_at RoutingPath (settings_seen settings.now))) }
{
    match value_of(Key::RoutingPath, settings) {
        None => Ok(None),
        Some(value) => texts(alloc, value),
    }
}

pub fn is_dimension(role: Role) -> bool
    ensures { result ≡ fields.is_dimension_role role }
{
    match role {
        Role::Dimension => true,
        Role::Time | Role::Gauge | Role::Counter | Role::Label => false,
    }
}

/// The paths of the dimensions.
fn dimensions(alloc: Global, all: &[Field]) -> Result<PathSet<'_>, NoMemory>
    ensures { IfOk result (λ paths. (q : List ℕ) → is_among q paths ≡ is_among q (fields.dimension_paths all.now)) }
{
    let mut paths = PathSet::new(alloc);
    for field in all {
        if is_dimension(field.role) {
            let _ = paths.insert(field.path.as_bytes())?;
        }
    }
    Ok(paths)
}

/// Whether some field is a dimension.
pub fn has_dimension(all: &[Field]) -> bool
    ensures { result ≡ nat_le 1 (length (fields.dimension_paths all.now)) }
{
    for field in all {
        if is_dimension(field.role) {
            return true;
        }
    }
    false
}

/// Tells an entry that is no dimension or stands before, and puts it to those.
fn check_entry<'a>(
    alloc: Global,
    entry: &'a Text,
    dimensions: &PathSet<'a>,
    before: &mut PathSet<'a>,
    least: &mut Least,
) -> Result<(), NoMemory>
    ensures told { OnOk result (least.new
        ≡ least_with least.old (fault_unless (is_among entry.now dimensions.now && not (is_among entry.now before.old)) entry.now)) }
    ensures paths { OnOk result ((q : List ℕ) → is_among q before.new ≡ is_among q (entry.now ∷ before.old)) }
{
    let dimension = dimensions.has(entry.as_bytes());
    let fresh = before.insert(entry.as_bytes())?;
    least.note_unless(alloc, dimension && fresh, entry.as_str())
}

/// Tells the entries that are no dimension or stand twice.
fn check_entries<'a>(
    alloc: Global,
    entries: &'a [Text],
    dimensions: &PathSet<'a>,
    least: &mut Least,
) -> Result<(), NoMemory>
    ensures { OnOk result (least.new ≡ least_with least.old (spec.bad_entries dimensions.now [] entries.now)) }
{
    let mut before = PathSet::new(alloc);
    for entry in entries {
        check_entry(alloc, entry, dimensions, &mut before, least)?;
    }
    Ok(())
}

fn are_some(entries: &[Text]) -> bool
    ensures { result ≡ nat_le 1 (length entries.now) }
{
    1 <= entries.len()
}

/// The least of some entries at fault, or the empty path where there are none.
fn bad_among<'a>(
    alloc: Global,
    all: &'a [Field],
    entries: &'a [Text],
) -> Result<Option<Text>, NoMemory>
    ensures { IfOk result (λ path. path ≡ least (spec.entry_faults (fields.dimension_paths all.now) (Some entries.now))) }
{
    let dimensions = dimensions(alloc, all)?;
    let mut least = Least::new();
    least.note_unless(alloc, are_some(entries), "")?;
    check_entries(alloc, entries, &dimensions, &mut least)?;
    Ok(least.into_path())
}

/// The least entry at fault, or the empty path where there are no entries.
#[tactic(auto, unfolding(crate::specs::Faults::routing_faults))]
pub fn bad_entry<'a>(
    alloc: Global,
    all: &'a [Field],
    entries: Option<&'a [Text]>,
) -> Result<Option<Text>, NoMemory>
    ensures { IfOk result (λ path. path ≡ least (spec.routing_faults all.now (option_map (λ es. es.now) entries.entry))) }
{
    match entries {
        None => Ok(None),
        Some(entries) => bad_among(alloc, all, entries),
    }
}

fn listed(alloc: Global, entries: &[Text]) -> Result<PathSet<'_>, NoMemory>
    ensures { IfOk result (λ paths. (q : List ℕ) → is_among q paths ≡ is_among q entries.now) }
{
    let mut paths = PathSet::new(alloc);
    for entry in entries {
        let _ = paths.insert(entry.as_bytes())?;
    }
    Ok(paths)
}

/// The places of the dimensions that are listed.
fn places<'a>(
    alloc: Global,
    all: &'a [Field],
    entries: Option<&PathSet<'a>>,
) -> Result<Vec<u32>, NoMemory>
    requires { length all.now ≤ most_fields }
    ensures { IfOk result (λ places. places.items ≡ fields.routing_from (option_map (λ es. es.now) entries.entry) 0 all.now) }
{
    let mut places = Vec::new(alloc);
    for (place, field) in all.iter().enumerate() {
        if is_dimension(field.role) && is_listed(entries, &field.path) {
            places.push(place as u32)?;
        }
    }
    Ok(places)
}

fn is_listed<'a>(entries: Option<&PathSet<'a>>, path: &'a Text) -> bool
    ensures { result ≡ fields.is_listed (option_map (λ es. es.now) entries.entry) path.now }
{
    match entries {
        None => true,
        Some(entries) => entries.has(path.as_bytes()),
    }
}

/// The places of the dimensions that some entries list.
fn listed_places<'a>(
    alloc: Global,
    all: &'a [Field],
    entries: &'a [Text],
) -> Result<Vec<u32>, NoMemory>
    requires { length all.now ≤ most_fields }
    ensures { IfOk result (λ places. places.items ≡ fields.routing_from (Some entries.now) 0 all.now) }
{
    let paths = listed(alloc, entries)?;
    let places = places(alloc, all, Some(&paths))?;
    Ok(places)
}

/// The places of the fields that route: those of the entries, or all dimensions where there are none.
pub fn routing<'a>(
    alloc: Global,
    all: &'a [Field],
    entries: Option<&'a [Text]>,
) -> Result<Vec<u32>, NoMemory>
    requires { length all.now ≤ most_fields }
    ensures { IfOk result (λ places. places.items ≡ fields.routing_from (option_map (λ es. es.now) entries.entry) 0 all.now) }
{
    match entries {
        None => places(alloc, all, None),
        Some(entries) => listed_places(alloc, all, entries),
    }
}
