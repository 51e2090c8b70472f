//! Fields and schemas.
use edge_face::Text;
use sqlite_items::Items;

/// The type of a field, by its name in a template's mappings.
#[derive(Clone, Copy, Debug, PartialEq, Eq)]
pub enum FieldType {
    Date,
    Keyword,
    Long,
    Integer,
    Short,
    Byte,
    Boolean,
    /// `aggregate_metric_double`
    Aggregate,
}

/// What a field is for.
#[derive(Clone, Copy, Debug, PartialEq, Eq)]
pub enum Role {
    /// `@timestamp`
    Time,
    Dimension,
    Gauge,
    Counter,
    Label,
}

/// A mapped field. Its path joins the names of the levels by dots.
#[derive(Debug, Drop)]
pub struct Field {
    pub path: Text,
    pub kind: FieldType,
    pub role: Role,
}

/// The fields of an index, ascending by path in byte order.
#[derive(Debug, Drop)]
pub struct Schema {
    pub fields: Items<Field>,
    /// The places of the routing fields in `fields`, ascending.
    pub routing: Items<u32>,
    /// Each row stands for the documents of a bucket of time.
    pub folded: bool,
    /// A folded counter keeps its first and last value and its increase, and else its last value alone.
    pub rises: bool,
}
