//! Whether templates and mappings in memory are as templates of bodies are, for readers of records.
ghost use Rattle.std.specs.Prelude.{◌≡◌, ◌↔◌, ◌<◌, ℕ, List, [], IfOk, IsTrue, length};
ghost use Rattle.std.specs.List.{slice_index_or};
ghost use Rattle.row_cells.specs.declared.schemas.Field.{Field};
ghost use Rattle.ts_mapping.specs.Checks as spec;
ghost use Rattle.ts_mapping.specs.Facts.{IsMapping, IsTemplate};
ghost use Rattle.ts_mapping.specs.Paths.{is_among};

use crate::body::are_patterns;
use crate::fields::{TIMESTAMP, is_date, may_have};
use crate::limits::{
    GREATEST_PRIORITY, LONGEST_LOOK, MOST_FIELDS, MOST_PATTERNS, MOST_SHARDS, SHORTEST_LOOK,
};
use crate::path_set::PathSet;
use crate::paths::is_field_path;
use crate::routing::is_dimension;
use crate::templates::{Mapping, Template};
use edge_face::{NoMemory, bytes_order};
use row_cells::{Field, Role, Schema};
use std::alloc::Global;

/// Whether the paths of fields ascend.
fn ascend(fields: &[Field]) -> bool
    ensures { result ≡ spec.ascend_after [] fields.now }
{
    let mut before: &[u8] = b"".as_slice();
    for field in fields {
        let path = field.path.as_bytes();
        if !bytes_order(before, path).is_lt() {
            return false;
        }
        before = path;
    }
    true
}

fn is_time(role: Role) -> bool
    ensures { result ≡ spec.is_time_role role }
{
    match role {
        Role::Time => true,
        Role::Dimension | Role::Gauge | Role::Counter | Role::Label => false,
    }
}

fn are_same(first: bool, second: bool) -> bool
    ensures { result ≡ spec.are_same first second }
{
    if first { second } else { !second }
}

/// Whether a field has a path that fields may have and a role that its type may have, and is the time at `@timestamp` alone.
fn is_sound(field: &Field) -> bool
    ensures { result ≡ spec.is_sound_field field.now }
{
    let at_time = field.path.as_str() == TIMESTAMP;
    is_field_path(field.path.as_str())
        && may_have(field.kind, field.role)
        && are_same(is_time(field.role), at_time)
}

fn are_sound(fields: &[Field]) -> bool
    ensures { result ≡ spec.are_sound_fields fields.now }
{
    for field in fields {
        if !is_sound(field) {
            return false;
        }
    }
    true
}

fn paths_of(alloc: Global, fields: &[Field]) -> Result<PathSet<'_>, NoMemory>
    ensures { IfOk result (λ paths. (q : List ℕ) → is_among q paths ≡ is_among q (spec.field_paths fields.now)) }
{
    let mut paths = PathSet::new(alloc);
    for field in fields {
        let _ = paths.insert(field.path.as_bytes())?;
    }
    Ok(paths)
}

/// Whether some field lies below one of some paths.
fn are_below<'a>(fields: &'a [Field], paths: &PathSet<'a>) -> bool
    ensures { result ≡ spec.are_below_any paths.now fields.now }
{
    for field in fields {
        if paths.is_above(field.path.as_bytes()) {
            return true;
        }
    }
    false
}

/// Whether some field lies below another.
fn are_tangled(alloc: Global, fields: &[Field]) -> Result<bool, NoMemory>
    ensures { IfOk result (λ tangled. tangled ≡ spec.are_below_any (spec.field_paths fields.now) fields.now) }
{
    let paths = paths_of(alloc, fields)?;
    Ok(are_below(fields, &paths))
}

fn has_time(fields: &[Field]) -> bool
    ensures { result ≡ spec.has_time_field fields.now }
{
    for field in fields {
        if field.path.as_str() == TIMESTAMP && is_date(field.kind) && is_time(field.role) {
            return true;
        }
    }
    false
}

fn are_fields(alloc: Global, fields: &[Field]) -> Result<bool, NoMemory>
    ensures { IfOk result (λ are. are ≡ spec.are_fields fields.now) }
{
    if !ascend(fields) || !are_sound(fields) {
        return Ok(false);
    }
    let tangled = are_tangled(alloc, fields)?;
    Ok(!tangled && has_time(fields) && fields.len() <= MOST_FIELDS)
}

/// Whether places ascend, from the first one on that is allowed, and are below a count.
fn places_ascend(count: usize, places: &[u32]) -> bool
    ensures { result ≡ spec.places_ascend 0 count places.now }
{
    let mut least: usize = 0;
    for place in places {
        let place = *place as usize;
        if place < least || count <= place {
            return false;
        }
        least = place + 1;
    }
    true
}

fn role_at(fields: &[Field], place: usize) -> Role
    requires { place < length fields.now }
    ensures { (d : Field) → result ≡ (slice_index_or fields.now place d).role }
{
    fields[place].role
}

fn is_dimension_at(fields: &[Field], place: u32) -> bool
    ensures { result ≡ spec.is_dimension_at fields.now place }
{
    let place = place as usize;
    if fields.len() <= place {
        return false;
    }
    is_dimension(role_at(fields, place))
}

fn are_dimensions(fields: &[Field], places: &[u32]) -> bool
    ensures { result ≡ spec.are_dimensions_at fields.now places.now }
{
    for place in places {
        if !is_dimension_at(fields, *place) {
            return false;
        }
    }
    true
}

fn are_routing(fields: &[Field], places: &[u32]) -> bool
    ensures { result ≡ spec.are_routing fields.now places.now }
{
    are_dimensions(fields, places) && places_ascend(fields.len(), places) && 1 <= places.len()
}

fn is_schema(alloc: Global, schema: &Schema) -> Result<bool, NoMemory>
    ensures { IfOk result (λ is. is ≡ spec.is_schema schema.now) }
{
    let fields = schema.fields.as_slice();
    let sound = are_fields(alloc, fields)?;
    Ok(sound && are_routing(fields, schema.routing.as_slice()))
}

fn are_shards(shards: u32) -> bool
    ensures { result ≡ spec.are_shards shards }
{
    let shards = u64::from(shards);
    1 <= shards && shards <= MOST_SHARDS
}

fn is_look(look: i64) -> bool
    ensures { result ≡ spec.is_look look }
{
    SHORTEST_LOOK <= look && look <= LONGEST_LOOK
}

fn is_in_range(template: &Template) -> bool
    ensures { result ≡ spec.is_in_range template.now }
{
    let patterns = template.patterns.as_slice();
    are_patterns(patterns)
        && 1 <= patterns.len()
        && patterns.len() <= MOST_PATTERNS
        && u64::from(template.priority) <= GREATEST_PRIORITY
        && are_shards(template.shards)
        && is_look(template.look_back)
        && is_look(template.look_ahead)
}

fn passes_mapping(alloc: Global, mapping: &Mapping) -> Result<bool, NoMemory>
    ensures { IfOk result (λ is. is ≡ spec.is_mapping mapping.now) }
{
    let schema = is_schema(alloc, &mapping.schema)?;
    Ok(are_shards(mapping.shards) && schema)
}

/// Whether a mapping in memory is one that some template had, in any form.
pub fn is_mapping(alloc: Global, mapping: &Mapping) -> Result<bool, NoMemory>
    ensures { IfOk result (λ is. IsTrue is ↔ IsMapping mapping.now) }
{
    let passes = passes_mapping(alloc, mapping)?;
    Ok(passes)
}

fn passes_template(alloc: Global, template: &Template) -> Result<bool, NoMemory>
    ensures { IfOk result (λ is. is ≡ spec.is_template template.now) }
{
    let schema = is_schema(alloc, &template.schema)?;
    Ok(is_in_range(template) && !template.schema.folded && template.schema.rises && schema)
}

/// Whether a template in memory is as those of bodies are: its members in their ranges, its schema one of a template.
pub fn is_template(alloc: Global, template: &Template) -> Result<bool, NoMemory>
    ensures { IfOk result (λ is. IsTrue is ↔ IsTemplate template.now) }
{
    let passes = passes_template(alloc, template)?;
    Ok(passes)
}
