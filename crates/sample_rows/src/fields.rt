//! What fields are.
ghost use Rattle.std.specs.Prelude.{IsTrue};
ghost use Rattle.index_segment.specs.Looks.{IsGaugeAt};

use row_cells::{Field, Role};

/// Whether the field at a place is a gauge.
pub fn is_gauge_at(fields: &[Field], place: u32) -> bool
    ensures { IsTrue result → IsGaugeAt fields.now place }
{
    match fields.get(place as usize) {
        Some(field) => field.role == Role::Gauge,
        None => false,
    }
}
