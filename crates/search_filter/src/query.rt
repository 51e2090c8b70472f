//! Queries as they are asked.
use crate::value_set::ValueSet;
use row_cells::Scalar;
use sqlite_items::Items;

/// An end of a range.
#[derive(Debug, Drop)]
pub struct Bound {
    pub value: Scalar,
    /// Whether the value itself is within.
    pub inclusive: bool,
}

/// What is asked of a row. Fields are named by their places in the schema.
#[derive(Debug, Drop)]
pub enum Query {
    /// Every row.
    All,
    /// No row.
    Nothing,
    /// A row with a value at one of these fields.
    Has {
        fields: Items<u32>,
    },
    /// A row that has one of these values at the field.
    OneOf {
        field: u32,
        values: ValueSet,
    },
    /// A row of whose values at the field one is within both ends.
    Between {
        field: u32,
        low: Option<Bound>,
        high: Option<Bound>,
    },
    /// A row that all of `must` take, none of `must_not`, and at least so many of `should`.
    Bool {
        must: Items<Query>,
        should: Items<Query>,
        must_not: Items<Query>,
        least: u64,
    },
}
