// What a field shows.
use row_cells::{Cell, FieldType};

/// The row's time, the number of its documents, or a cell of a type. An absent cell is never shown.
#[derive(Clone, Copy)]
pub enum What<'a> {
    Moment(i64),
    Count(u64),
    Held(FieldType, &'a Cell),
}
