//! The fields of two schemas together.
ghost use Rattle.std.specs.Prelude.{◌≡◌, ◌⊎◌, ◌↔◌, List, [], ◌∷◌, IfOk, IfSome, IsNone};
ghost use Rattle.row_cells.specs.Fitting.{FieldsAscend};
ghost use Rattle.row_cells.specs.Joining.{FieldsAgree, Follows, IsIn, join_fields, join_of_schemas};
ghost use Rattle.row_cells.specs.declared.schemas.Field.{Field};

use crate::copies::copy_field;
use crate::schemas::{Field, Schema};
use edge_face::NoMemory;
use sqlite_items::Items;
use std::alloc::Global;
use std::cmp::Ordering;

/// The next field of two lists, and what is left of them.
#[derive(Clone, Copy)]
struct Next<'a> {
    field: &'a Field,
    first: &'a [Field],
    second: &'a [Field],
}

fn next_field<'a>(first: &'a [Field], second: &'a [Field]) -> Option<Next<'a>>
    requires first_ascends { FieldsAscend first.now }
    requires second_ascends { FieldsAscend second.now }
    ensures some { IfSome result (λ next.
        Follows first.now second.now next.field.now next.first.now next.second.now) }
    ensures none { IsNone result → join_fields first.now second.now ≡ [] }
{
    match first.split_first() {
        None => match second.split_first() {
            None => None,
            Some((g, gs)) => Some(Next {
                field: g,
                first,
                second: gs,
            }),
        },
        Some((f, fs)) => match second.split_first() {
            None => Some(Next {
                field: f,
                first: fs,
                second,
            }),
            Some((g, gs)) => match f.path.cmp(&g.path) {
                Ordering::Less => Some(Next {
                    field: f,
                    first: fs,
                    second,
                }),
                Ordering::Equal => Some(Next {
                    field: g,
                    first: fs,
                    second: gs,
                }),
                Ordering::Greater => Some(Next {
                    field: g,
                    first,
                    second: gs,
                }),
            },
        },
    }
}

pub fn join_all(alloc: Global, first: &[Field], second: &[Field]) -> Result<Items<Field>, NoMemory>
    requires first_ascends { FieldsAscend first.now }
    requires second_ascends { FieldsAscend second.now }
    ensures { IfOk result (λ joined. joined ≡ join_fields first.now second.now) }
{
    let mut joined = Vec::new(alloc);
    let mut first = first;
    let mut second = second;
    while let Some(next) = next_field(first, second) {
        joined.push(copy_field(alloc, next.field)?)?;
        first = next.first;
        second = next.second;
    }
    Ok(Items::from_vec(joined))
}

/// All fields of two schemas, which agree in type and role on each common path. The schema has no routing
/// fields, and is folded and rises as the first is.
pub fn join_schemas(alloc: Global, first: &Schema, second: &Schema) -> Result<Schema, NoMemory>
    requires first_ascends { FieldsAscend first.now.fields }
    requires second_ascends { FieldsAscend second.now.fields }
    requires agree { FieldsAgree first.now.fields second.now.fields }
    ensures joined { IfOk result (λ joined. joined ≡ join_of_schemas first.now second.now) }
    ensures ascending { FieldsAscend (join_fields first.now.fields second.now.fields) }
    ensures all { (f : Field) →
        IsIn f (join_fields first.now.fields second.now.fields) ↔
        (IsIn f first.now.fields ⊎ IsIn f second.now.fields) }
{
    Ok(Schema {
        fields: join_all(alloc, first.fields.as_slice(), second.fields.as_slice())?,
        routing: Items::new(alloc),
        folded: first.folded,
        rises: first.rises,
    })
}
