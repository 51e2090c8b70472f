//! Copies of values, cells, rows and schemas.
ghost use Rattle.std.specs.Prelude.{◌≡◌, IfOk};

use crate::rows::{Cell, Row};
use crate::scalars::Scalar;
use crate::schemas::{Field, Schema};
use edge_face::NoMemory;
use sqlite_items::Items;
use std::alloc::Global;

/// A copy of a value.
pub fn copy_scalar(alloc: Global, value: &Scalar) -> Result<Scalar, NoMemory>
    ensures { IfOk result (λ copy. copy ≡ value.now) }
{
    match value {
        Scalar::Whole(number) => Ok(Scalar::Whole(*number)),
        Scalar::Flag(flag) => Ok(Scalar::Flag(*flag)),
        Scalar::Word(text) => Ok(Scalar::Word(text.copy(alloc)?)),
    }
}

/// A copy of the values of a label.
pub fn copy_scalars(alloc: Global, values: &[Scalar]) -> Result<Items<Scalar>, NoMemory>
    ensures { IfOk result (λ copies. copies ≡ values.now) }
{
    let mut copies = Vec::with_capacity(alloc, values.len())?;
    for value in values {
        copies.push(copy_scalar(alloc, value)?)?;
    }
    Ok(Items::from_vec(copies))
}

/// A copy of a cell.
pub fn copy_cell(alloc: Global, cell: &Cell) -> Result<Cell, NoMemory>
    ensures { IfOk result (λ copy. copy ≡ cell.now) }
{
    match cell {
        Cell::Absent => Ok(Cell::Absent),
        Cell::One(value) => Ok(Cell::One(copy_scalar(alloc, value)?)),
        Cell::Many(values) => Ok(Cell::Many(copy_scalars(alloc, values.as_slice())?)),
        Cell::Gauge(parts) => Ok(Cell::Gauge(*parts)),
        Cell::Rise(rise) => Ok(Cell::Rise(*rise)),
    }
}

/// A copy of the cells of a row.
pub fn copy_cells(alloc: Global, cells: &[Cell]) -> Result<Items<Cell>, NoMemory>
    ensures { IfOk result (λ copies. copies ≡ cells.now) }
{
    let mut copies = Vec::with_capacity(alloc, cells.len())?;
    for cell in cells {
        copies.push(copy_cell(alloc, cell)?)?;
    }
    Ok(Items::from_vec(copies))
}

/// A copy of a row.
pub fn copy_row(alloc: Global, row: &Row) -> Result<Row, NoMemory>
    ensures { IfOk result (λ copy. copy ≡ row.now) }
{
    Ok(Row {
        key: row.key.copy(alloc)?,
        time: row.time,
        count: row.count,
        cells: copy_cells(alloc, row.cells.as_slice())?,
    })
}

/// A copy of a field.
pub fn copy_field(alloc: Global, field: &Field) -> Result<Field, NoMemory>
    ensures { IfOk result (λ copy. copy ≡ field.now) }
{
    Ok(Field {
        path: field.path.copy(alloc)?,
        kind: field.kind,
        role: field.role,
    })
}

fn copy_fields(alloc: Global, fields: &[Field]) -> Result<Items<Field>, NoMemory>
    ensures { IfOk result (λ copies. copies ≡ fields.now) }
{
    let mut copies = Vec::with_capacity(alloc, fields.len())?;
    for field in fields {
        copies.push(copy_field(alloc, field)?)?;
    }
    Ok(Items::from_vec(copies))
}

/// A copy of a schema.
pub fn copy_schema(alloc: Global, schema: &Schema) -> Result<Schema, NoMemory>
    ensures { IfOk result (λ copy. copy ≡ schema.now) }
{
    Ok(Schema {
        fields: copy_fields(alloc, schema.fields.as_slice())?,
        routing: Items::from_slice(alloc, schema.routing.as_slice())?,
        folded: schema.folded,
        rises: schema.rises,
    })
}
