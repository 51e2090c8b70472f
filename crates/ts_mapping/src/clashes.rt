//! Fields that clash by their paths.
ghost use Rattle.std.specs.Prelude.{◌≡◌, ◌∷◌, ℕ, List, [], IfOk, OnOk, not};
ghost use Rattle.ts_mapping.specs.Faults as spec;
ghost use Rattle.ts_mapping.specs.Fields.{paths_of};
ghost use Rattle.ts_mapping.specs.Least.{all_faults, fault_unless, least, least_with};
ghost use Rattle.ts_mapping.specs.Paths.{is_among, timestamp};
ghost use Rattle.ts_mapping.specs.Seen.{properties_seen};

use crate::fields::TIMESTAMP;
use crate::least::Least;
use crate::path_set::PathSet;
use crate::properties::PropertyAt;
use edge_face::{NoMemory, Text};
use std::alloc::Global;

/// Tells a path that stands before, and puts it to those.
fn check_path<'a>(
    alloc: Global,
    path: &'a Text,
    before: &mut PathSet<'a>,
    least: &mut Least,
) -> Result<(), NoMemory>
    ensures told { OnOk result (least.new ≡ least_with least.old (fault_unless (not (is_among path.now before.old)) path.now)) }
    ensures paths { OnOk result ((q : List ℕ) → is_among q before.new ≡ is_among q (path.now ∷ before.old)) }
{
    let fresh = before.insert(path.as_bytes())?;
    least.note_unless(alloc, fresh, path.as_str())
}

/// Tells the paths that stand twice, and gives all paths.
fn check_repeated<'a>(
    alloc: Global,
    properties: &'a [PropertyAt<'_>],
    least: &mut Least,
) -> Result<PathSet<'a>, NoMemory>
    ensures told { OnOk result (least.new ≡ least_with least.old (spec.repeated [] (paths_of (properties_seen properties.now)))) }
    ensures paths { IfOk result (λ paths. (q : List ℕ) → is_among q paths ≡ is_among q (paths_of (properties_seen properties.now))) }
{
    let mut paths = PathSet::new(alloc);
    for property in properties {
        check_path(alloc, &property.path, &mut paths, least)?;
    }
    Ok(paths)
}

/// Tells the fields that lie below others, where the paths are those of all fields.
fn check_below<'a>(
    alloc: Global,
    properties: &'a [PropertyAt<'_>],
    paths: &PathSet<'a>,
    least: &mut Least,
) -> Result<(), NoMemory>
    ensures { OnOk result (least.new
        ≡ least_with least.old (all_faults (spec.below_fault paths.now) (paths_of (properties_seen properties.now)))) }
{
    for property in properties {
        let below = paths.is_above(property.path.as_bytes());
        least.note_unless(alloc, !below, property.path.as_str())?;
    }
    Ok(())
}

/// The least path that stands twice or lies below another field, which may be `@timestamp`.
#[tactic(auto, unfolding(crate::specs::Faults::clash_faults))]
pub fn clash(alloc: Global, properties: &[PropertyAt<'_>]) -> Result<Option<Text>, NoMemory>
    ensures { IfOk result (λ path. path ≡ least (spec.clash_faults (properties_seen properties.now))) }
{
    let mut least = Least::new();
    let mut paths = check_repeated(alloc, properties, &mut least)?;
    let _ = paths.insert(TIMESTAMP.as_bytes())?;
    check_below(alloc, properties, &paths, &mut least)?;
    Ok(least.into_path())
}
