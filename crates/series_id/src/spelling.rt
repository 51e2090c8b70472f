//! Dimensions as bytes.
ghost use Rattle.std.specs.Prelude.{◌≡◌, ◌++◌, ◌<◌, ◌^◌, [], IfOk, OnOk, length};
ghost use Rattle.row_cells.specs.Dimensions as spec;
ghost use Rattle.row_cells.specs.Dimensions.{IsKeyValue, key_bytes, text_bytes, value_bytes};
ghost use Rattle.row_cells.specs.Fitting.{dimensions_of, with_dimension};
ghost use Rattle.row_cells.specs.Spellable.{AreSpellable, IsSpellable};

use edge_face::NoMemory;
use row_cells::{Cell, Field, Role, Scalar};
use std::alloc::Global;

/// Room for the keys of most series, so that their bytes are not moved while they are put together.
const USUAL_KEY: usize = 128;

/// How far a number is above the least of 64 bits, so that bytes stand in the order of the numbers.
fn above_least(number: i64) -> u64
    ensures { result ≡ spec.above_least number }
{
    let above = i128::from(number) + 9_223_372_036_854_775_808;
    above.unsigned_abs() as u64
}

fn put_text(into: &mut Vec<u8>, text: &[u8]) -> Result<(), NoMemory>
    requires { length text.now < 2 ^ 16 }
    ensures { OnOk result (into.new.items ≡ into.old.items ++ text_bytes text.now) }
{
    let count = text.len() as u16;
    into.extend_from_slice(&count.to_be_bytes())?;
    into.extend_from_slice(text)?;
    Ok(())
}

fn put_value(into: &mut Vec<u8>, value: &Scalar) -> Result<(), NoMemory>
    requires { IsKeyValue value.now }
    ensures { OnOk result (into.new.items ≡ into.old.items ++ value_bytes value.now) }
{
    match value {
        Scalar::Word(text) => {
            into.push(1)?;
            put_text(into, text.as_bytes())?;
        }
        Scalar::Whole(number) => {
            into.push(2)?;
            into.extend_from_slice(&above_least(*number).to_be_bytes())?;
        }
        Scalar::Flag(flag) => {
            into.push(3)?;
            into.push(u8::from(*flag))?;
        }
    }
    Ok(())
}

fn put_dimension(into: &mut Vec<u8>, field: &Field, cell: &Cell) -> Result<(), NoMemory>
    requires { IsSpellable field.now.role field.now.path cell.now }
    ensures { OnOk result
        (into.new.items ≡ into.old.items ++ key_bytes (with_dimension field.now.role field.now.path cell.now [])) }
{
    match (field.role, cell) {
        (Role::Dimension, Cell::One(value)) => {
            put_text(into, field.path.as_bytes())?;
            put_value(into, value)?;
            Ok(())
        }
        _ => Ok(()),
    }
}

/// The bytes of the dimensions that are present, in the order of the fields.
pub fn spell(alloc: Global, fields: &[Field], cells: &[Cell]) -> Result<Vec<u8>, NoMemory>
    requires { AreSpellable fields.now cells.now }
    ensures { IfOk result (λ bytes. bytes.items ≡ key_bytes (dimensions_of fields.now cells.now)) }
{
    let mut bytes = Vec::with_capacity(alloc, USUAL_KEY)?;
    for i in 0..fields.len() {
        put_dimension(&mut bytes, &fields[i], &cells[i])?;
    }
    Ok(bytes)
}
