//! Why a body is no template.

/// Why a body is no template, in the order in which the body is looked at.
#[derive(Clone, Copy, Debug, PartialEq, Eq)]
pub enum MapKind {
    /// A member that is missing, unknown or ill-formed, a setting that is given twice, or a path that no field may have.
    Shape,
    /// The number of shards isn't 1 to 64.
    BadShards,
    /// `dynamic` is neither `"strict"` nor `false`.
    BadDynamic,
    /// A type that fields don't have.
    UnknownType,
    /// More than 1,000 fields, with `@timestamp`.
    TooManyFields,
    /// A path that stands twice, or below another field.
    PathClash,
    /// `@timestamp` is no date, or a dimension or a metric.
    BadTimestamp,
    /// A role that the type doesn't have, both a dimension and a metric, or an unknown kind of metric.
    BadRole,
    /// No field is a dimension.
    NoDimension,
    /// No routing path, one that is no dimension, or one that stands twice.
    BadRouting,
}
