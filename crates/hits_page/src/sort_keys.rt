//! By what rows are sorted.

/// A field by whose values rows are sorted, by its place in the schema. Rows without a value stand last either way.
#[derive(Clone, Copy, Debug, PartialEq, Eq)]
pub struct SortKey {
    pub field: u32,
    pub rising: bool,
}
