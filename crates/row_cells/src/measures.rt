//! What cells have for gauges and counters, and cells of these.
ghost use Rattle.std.specs.Prelude.{◌≡◌};
ghost use Rattle.row_cells.specs.Merging.{parts_of, cell_of_parts, rise_of, cell_of_rise};

use crate::rows::Cell;
use crate::scalars::Scalar;
use fold_law::{Gauge, Parts, Rise, Rising};

/// What a cell adds to a gauge: its parts, a whole number as the parts of one value, and else nothing.
pub fn gauge_of(cell: &Cell) -> Gauge
    ensures { result.0 ≡ parts_of cell.now }
{
    match cell {
        Cell::One(Scalar::Whole(value)) => Gauge(Some(Parts {
            min: *value,
            max: *value,
            sum: i128::from(*value),
            count: 1,
        })),
        Cell::Gauge(parts) => Gauge(Some(*parts)),
        _ => Gauge(None),
    }
}

/// The cell of a gauge, absent where the gauge has no value.
pub fn gauge_cell(gauge: Gauge) -> Cell
    ensures { result ≡ cell_of_parts gauge.0 }
{
    match gauge.0 {
        None => Cell::Absent,
        Some(parts) => Cell::Gauge(parts),
    }
}

/// What a cell adds to the rise of a counter: its rise, a whole number as a rise of 0, and else nothing.
pub fn rising_of(cell: &Cell) -> Rising
    ensures { result.0 ≡ rise_of cell.now }
{
    match cell {
        Cell::One(Scalar::Whole(value)) => Rising(Some(Rise {
            first: *value,
            last: *value,
            increase: 0,
        })),
        Cell::Rise(rise) => Rising(Some(*rise)),
        _ => Rising(None),
    }
}

/// The cell of a rise, absent where the counter has no value.
pub fn rise_cell(rising: Rising) -> Cell
    ensures { result ≡ cell_of_rise rising.0 }
{
    match rising.0 {
        None => Cell::Absent,
        Some(rise) => Cell::Rise(rise),
    }
}
