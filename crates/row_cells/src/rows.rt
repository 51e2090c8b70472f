//! Cells and rows.
use crate::keys::Key;
use crate::scalars::Scalar;
use fold_law::{Parts, Rise};
use sqlite_items::Items;

/// What a row has at a field: dimensions, counters and raw whole-number gauges are `One`, labels `Many`,
/// aggregates and folded gauges `Gauge`, and counters of a folded schema that rises `Rise`.
#[derive(Debug, Drop)]
pub enum Cell {
    Absent,
    One(Scalar),
    Many(Items<Scalar>),
    Gauge(Parts),
    Rise(Rise),
}

/// A document, or the documents of a series and a bucket folded into one. Its cells stand beside the schema's
/// fields, and that of `@timestamp` is absent.
#[derive(Debug, Drop)]
pub struct Row {
    pub key: Key,
    /// Milliseconds since 1970 began, in UTC.
    pub time: i64,
    /// How many documents the row stands for.
    pub count: u64,
    pub cells: Items<Cell>,
}
