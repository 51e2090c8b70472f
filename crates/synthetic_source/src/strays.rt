// Leaves where no field is, and the least of their paths that has a fault.
//
// Paths of a document may be long, and most of a path may stand before many leaves. So what is known of the front of the path
// that a walk is at stays known while that front does: each byte is compared and copied once. And many leaves may have one path,
// the elements of an array: it is looked at for the first of them alone.
ghost use Rattle.std.specs.Prelude.{◌≡◌, ◌≤◌, Bool, List, [], ◌∷◌, ◌++◌, Some, None, drop, take, length, OnOk};
ghost use Rattle.std.specs.List.{list_any};
ghost use Rattle.std.specs.Cmp.Lexicographic.{slice_cmp};
ghost use Rattle.std.specs.Ordering.{is_lt, nat_cmp};
ghost use Rattle.row_cells.specs.Fitting.{FieldsAscend};
ghost use Rattle.row_cells.specs.declared.schemas.Field.{Field};
ghost use Rattle.ts_mapping.specs.Paths.{is_among, is_below as below};
ghost use Rattle.ts_mapping.specs.Schemas.{AreTemplateFields};
ghost use Rattle.synthetic_source.specs.Faults.{near, stray_fault};
ghost use Rattle.synthetic_source.specs.Fronts.{AreFronts, IsClear, IsKnown, SharesFront, path_at};
ghost use Rattle.synthetic_source.specs.Gathered.{paths_of, place_of};
ghost use Rattle.synthetic_source.specs.Sides.{side};
ghost use Rattle.synthetic_source.specs.Walked.{comes_first as is_first, least_step, or_held, seen_fault};

use crate::errors::DocKind;
use crate::gathering::search_field;
use edge_face::{NoMemory, bytes_order};
use row_cells::{Field, LONGEST_PATH};
use std::alloc::Global;
use std::cmp::Ordering;

/// A fault at a path.
#[derive(Drop)]
pub struct LeastFault {
    pub kind: DocKind,
    pub path: Vec<u8>,
}

/// The least path with a fault where no field is, of those that were told, and what is known of the path that the walk is at.
#[derive(Drop)]
pub struct Strays {
    pub least: Option<LeastFault>,
    // So many of its first bytes are those of the least path.
    pub shared: usize,
    // Before none of the dots among so many first bytes stands a field's path.
    pub clear: usize,
    // It was told already, whole.
    pub is_told: bool,
}

const DOC_COUNT: &str = "_doc_count";

// Whether a path begins with another and a dot, or stands before or behind all that do.
fn side_of(path: &[u8], above: &[u8]) -> Ordering
    ensures { result ≡ side path.now above.now }
{
    let (front, _) = path.split_at(above.len().min(path.len()));
    match order(front, above) {
        Ordering::Less => Ordering::Less,
        Ordering::Equal => side_of_rest(path, above.len()),
        Ordering::Greater => Ordering::Greater,
    }
}

// By what stands behind the other.
fn side_of_rest(path: &[u8], place: usize) -> Ordering
    ensures { result ≡ side (drop place path.now) [] }
{
    if place >= path.len() {
        return Ordering::Less;
    }
    if path[place] < b'.' {
        return Ordering::Less;
    }
    if b'.' < path[place] {
        return Ordering::Greater;
    }
    Ordering::Equal
}

// Whether a field is below the path.
fn has_below(path: &[u8], fields: &[Field]) -> bool
    requires { FieldsAscend fields.now }
    ensures { result ≡ list_any (λ f. below f.path path.now) fields.now }
{
    let mut low = 0;
    let mut high = fields.len();
    'search: while low < high {
        let middle = low + (high - low) / 2;
        match side_of(fields[middle].path.as_bytes(), path) {
            Ordering::Less => low = middle + 1,
            Ordering::Equal => return true,
            Ordering::Greater => high = middle,
        }
    }
    false
}

// What is known of a path after a look for fields above it.
#[derive(Clone, Copy)]
struct Front {
    above: bool,
    clear: usize,
}

// Whether a field is above the path, where none is before the first dots. A field's path isn't long, so a long path is looked at
// in front alone.
fn front_of(fields: &[Field], path: &[u8], clear: usize) -> Front
    requires ascend { FieldsAscend fields.now }
    requires fields { AreTemplateFields fields.now }
    requires clear { IsClear fields.now path.now clear }
    requires within { clear ≤ length path.now }
    ensures above { result.above ≡ list_any (λ f. below path.now f.path) fields.now }
    ensures clear { IsClear fields.now path.now result.clear }
    ensures within { result.clear ≤ length path.now }
{
    let end = path.len().min(LONGEST_PATH + 1);
    if end <= clear {
        return Front {
            above: false,
            clear,
        };
    }
    for place in clear..end {
        if path[place] == b'.' && has_field(fields, &path[..place]) {
            return Front {
                above: true,
                clear: place,
            };
        }
    }
    Front {
        above: false,
        clear: end,
    }
}

fn has_field(fields: &[Field], path: &[u8]) -> bool
    requires { FieldsAscend fields.now }
    ensures { result ≡ is_among path.now (paths_of fields.now) }
{
    search_field(fields, path).is_some()
}

// Whether a field is above or below the path.
fn is_near_any(path: &[u8], fields: &[Field], above: bool) -> bool
    requires ascend { FieldsAscend fields.now }
    requires above { above ≡ list_any (λ f. below path.now f.path) fields.now }
    ensures { result ≡ list_any (λ f. near path.now f.path) fields.now }
{
    above || has_below(path, fields)
}

// What is wrong with leaves at a path that no field has.
fn fault_of(strict: bool, fields: &[Field], path: &[u8], above: bool) -> Option<DocKind>
    requires ascend { FieldsAscend fields.now }
    requires above { above ≡ list_any (λ f. below path.now f.path) fields.now }
    ensures { result ≡ stray_fault strict fields.now path.now }
{
    if is_near_any(path, fields, above) {
        return Some(DocKind::NotLeaf);
    }
    if strict || path == DOC_COUNT.as_bytes() {
        return Some(DocKind::Unmapped);
    }
    None
}

// How many first bytes two paths share, at least those that they are known to share.
fn shared_front(path: &[u8], other: &[u8], known: usize) -> usize
    requires same { take known path.now ≡ take known other.now }
    requires within { known ≤ length path.now }
    requires held { known ≤ length other.now }
    ensures same { take result path.now ≡ take result other.now }
    ensures within { result ≤ length path.now }
    ensures held { result ≤ length other.now }
{
    for at in known..path.len() {
        if at >= other.len() || path[at] != other[at] {
            return at;
        }
    }
    path.len()
}

fn order(path: &[u8], other: &[u8]) -> Ordering
    ensures { result ≡ slice_cmp nat_cmp path.now other.now }
{
    bytes_order(path, other)
}

// Whether a path stands before another with which it shares a front.
fn is_before(path: &[u8], other: &[u8], shared: usize) -> bool
    requires same { take shared path.now ≡ take shared other.now }
    requires within { shared ≤ length path.now }
    requires held { shared ≤ length other.now }
    ensures { result ≡ is_lt (slice_cmp nat_cmp path.now other.now) }
{
    let (_, rest) = path.split_at(shared);
    let (_, other_rest) = other.split_at(shared);
    order(rest, other_rest).is_lt()
}

// Whether a path stands before the least path.
fn comes_first(path: &[u8], strays: &mut Strays) -> bool
    requires { SharesFront path.now strays.old }
    ensures first { result ≡ is_first path.now (seen_fault strays.old.least) }
    ensures shares { SharesFront path.now strays.new }
    ensures least { strays.new.least ≡ strays.old.least }
    ensures clear { strays.new.clear ≡ strays.old.clear }
    ensures told { strays.new.is_told ≡ strays.old.is_told }
{
    match &strays.least {
        None => true,
        Some(fault) => {
            let shared = shared_front(path, fault.path.as_slice(), strays.shared);
            let first = is_before(path, fault.path.as_slice(), shared);
            strays.shared = shared;
            first
        }
    }
}

// Makes a path the least, of which the front that it shares is there already.
fn put_least(alloc: Global, kind: DocKind, path: &[u8], strays: &mut Strays) -> Result<(), NoMemory>
    requires { SharesFront path.now strays.old }
    ensures least { OnOk result (seen_fault strays.new.least ≡ or_held (Some kind) path.now (seen_fault strays.old.least)) }
    ensures shares { OnOk result (SharesFront path.now strays.new) }
    ensures clear { OnOk result (strays.new.clear ≡ strays.old.clear) }
{
    let (_, rest) = path.split_at(strays.shared);
    match &mut strays.least {
        None => {
            let path = path.to_vec(alloc)?;
            strays.least = Some(LeastFault { kind, path });
        }
        Some(fault) => {
            fault.kind = kind;
            fault.path.truncate(strays.shared);
            fault.path.extend_from_slice(rest)?;
        }
    }
    strays.shared = path.len();
    Ok(())
}

impl Strays {
    /// Nothing was told yet.
    pub fn new() -> Strays
        ensures none { seen_fault result.least ≡ None }
        ensures known { (strict : Bool) (fields : List Field) → IsKnown strict fields [] result }
    {
        Strays {
            least: None,
            shared: 0,
            clear: 0,
            is_told: false,
        }
    }
}

// Tells a path that wasn't told.
fn tell(
    alloc: Global,
    strict: bool,
    fields: &[Field],
    path: &[u8],
    strays: &mut Strays,
) -> Result<(), NoMemory>
    requires ascend { FieldsAscend fields.now }
    requires fields { AreTemplateFields fields.now }
    requires fronts { AreFronts fields.now path.now strays.old }
    ensures held { OnOk result (seen_fault strays.new.least ≡ least_step strict fields.now path.now (seen_fault strays.old.least)) }
    ensures fronts { OnOk result (AreFronts fields.now path.now strays.new) }
{
    if !comes_first(path, strays) {
        return Ok(());
    }
    let front = front_of(fields, path, strays.clear);
    strays.clear = front.clear;
    match fault_of(strict, fields, path, front.above) {
        None => Ok(()),
        Some(kind) => put_least(alloc, kind, path, strays),
    }
}

/// Tells a path where no field is.
#[tactic(auto, using(crate::proofs::Fronts::told_known))]
pub fn note_stray(
    alloc: Global,
    strict: bool,
    fields: &[Field],
    path: &[u8],
    strays: &mut Strays,
) -> Result<(), NoMemory>
    requires ascend { FieldsAscend fields.now }
    requires fields { AreTemplateFields fields.now }
    requires nowhere { place_of path.now fields.now ≡ None }
    requires known { IsKnown strict fields.now path.now strays.old }
    ensures held { OnOk result (seen_fault strays.new.least ≡ least_step strict fields.now path.now (seen_fault strays.old.least)) }
    ensures known { OnOk result (IsKnown strict fields.now path.now strays.new) }
{
    tell(alloc, strict, fields, path, strays)?;
    strays.is_told = true;
    Ok(())
}

/// Goes to a member. Its path begins with that of the place, so what is known of the front stays known: whether mappings are
/// strict and fields are taken to say so.
#[tactic(auto, using(crate::proofs::Fronts::known_entered))]
pub fn enter(
    name: &str,
    place: &mut Vec<u8>,
    _strict: bool,
    _fields: &[Field],
    strays: &mut Strays,
) -> Result<(), NoMemory>
    requires { IsKnown _strict _fields.now (path_at place.old.items) strays.old }
    ensures place { OnOk result (place.new.items ≡ place.old.items ++ 46 ∷ name.now) }
    ensures least { strays.new.least ≡ strays.old.least }
    ensures known { OnOk result (IsKnown _strict _fields.now (path_at place.new.items) strays.new) }
{
    strays.is_told = false;
    place.push(b'.')?;
    place.extend_from_slice(name.as_bytes())?;
    Ok(())
}

/// Goes back to a place of which so many bytes stay.
pub fn leave(place: &mut Vec<u8>, length: usize, strays: &mut Strays)
    ensures place { place.new.items ≡ take length place.old.items }
    ensures least { strays.new.least ≡ strays.old.least }
    ensures known { (strict : Bool) (fields : List Field) → IsKnown strict fields (path_at place.old.items) strays.old → IsKnown strict fields (path_at place.new.items) strays.new }
{
    place.truncate(length);
    let path = length.saturating_sub(1);
    strays.shared = strays.shared.min(path);
    strays.clear = strays.clear.min(path);
    strays.is_told = false;
}
