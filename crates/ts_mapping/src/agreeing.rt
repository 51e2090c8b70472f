//! Whether two lists of fields agree in types and roles.
ghost use Rattle.std.specs.Prelude.{◌≡◌, ◌&&◌, bytes_eq, not, option_map};
ghost use Rattle.std.specs.List.{list_any};
ghost use Rattle.row_cells.specs.Fitting.{FieldsAscend};
ghost use Rattle.ts_mapping.specs.Agreeing as spec;

use edge_face::bytes_order;
use row_cells::{Field, FieldType, Role};
use std::cmp::Ordering;

fn kind_number(kind: FieldType) -> u8
    ensures { result ≡ spec.kind_number kind }
{
    match kind {
        FieldType::Date => 0,
        FieldType::Keyword => 1,
        FieldType::Long => 2,
        FieldType::Integer => 3,
        FieldType::Short => 4,
        FieldType::Byte => 5,
        FieldType::Boolean => 6,
        FieldType::Aggregate => 7,
    }
}

fn role_number(role: Role) -> u8
    ensures { result ≡ spec.role_number role }
{
    match role {
        Role::Time => 0,
        Role::Dimension => 1,
        Role::Gauge => 2,
        Role::Counter => 3,
        Role::Label => 4,
    }
}

fn is_alike(first: &Field, second: &Field) -> bool
    ensures { result ≡ spec.is_alike first.now second.now }
{
    kind_number(first.kind) == kind_number(second.kind)
        && role_number(first.role) == role_number(second.role)
}

/// What of fields whose paths ascend doesn't stand before a path.
fn from_path<'a>(path: &[u8], fields: &'a [Field]) -> &'a [Field]
    ensures { result.now ≡ spec.from_path path.now fields.now }
{
    for (place, field) in fields.iter().enumerate() {
        match bytes_order(field.path.as_bytes(), path) {
            Ordering::Less => {}
            Ordering::Equal | Ordering::Greater => return fields.split_at(place).1,
        }
    }
    fields.split_at(fields.len()).1
}

/// Whether the first of some fields has the path of this one, but another type or role.
fn is_other_first(field: &Field, fields: &[Field]) -> bool
    ensures { result ≡ spec.is_other_first field.now fields.now }
{
    match fields.split_first() {
        None => false,
        Some((other, _)) => field.path.as_bytes() == other.path.as_bytes()
            && !is_alike(field, other),
    }
}

/// The first field of a list, in the order of the paths, that another list has with another type or role: None where the lists
/// agree. It takes no memory, and one walk over both.
pub fn first_other<'a>(first: &'a [Field], second: &[Field]) -> Option<&'a Field>
    requires first_ascends { FieldsAscend first.now }
    requires second_ascends { FieldsAscend second.now }
    ensures { option_map (λ f. f.now.path) result ≡ spec.other_path first.now second.now }
{
    let mut second = second;
    for field in first {
        second = from_path(field.path.as_bytes(), second);
        if is_other_first(field, second) {
            return Some(field);
        }
    }
    None
}
