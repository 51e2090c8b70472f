//! What tells the values of rows at fields.
ghost use Rattle.std.specs.Prelude.{◌≡◌, Bool};
ghost use Rattle.search_filter.specs.Splitting as spec;

use row_cells::{Role, Schema};

/// What tells the values of a row at a field.
#[derive(Clone, Copy, Debug)]
pub enum Teller {
    Time,
    /// The row's key, as of a dimension, and where there is no field.
    Key,
    /// The row's cells alone.
    Cell,
}

/// What tells the values of rows at the field of a place.
pub fn teller_at(schema: &Schema, field: u32) -> Teller
    ensures { result ≡ spec.teller_at schema.now.fields field }
{
    match schema.fields.get(field as usize) {
        None => Teller::Key,
        Some(mapped) => match mapped.role {
            Role::Time => Teller::Time,
            Role::Dimension => Teller::Key,
            Role::Gauge | Role::Counter | Role::Label => Teller::Cell,
        },
    }
}

/// Whether the key or the time tells if a row has a value: each row has a time.
pub fn is_presence_told(schema: &Schema, field: u32) -> bool
    ensures { result ≡ spec.is_presence_told (spec.teller_at schema.now.fields field) }
{
    match teller_at(schema, field) {
        Teller::Time | Teller::Key => true,
        Teller::Cell => false,
    }
}
