//! The facts of streams, indices and tasks.
use edge_face::Text;
use sqlite_items::Items;
use time_text::Interval;
use ts_mapping::Mapping;

/// A stream: its documents stand in its members, by their times.
#[derive(Debug, Drop)]
pub struct StreamFacts {
    pub name: Text,
    /// The name of its template.
    pub template: Text,
    /// The number of its newest backing index.
    pub generation: u32,
    /// The names of its members, by the starts of their windows. The last one takes what comes at present.
    pub members: Items<Text>,
}

/// An index, but for its rows.
#[derive(Debug, Drop)]
pub struct HeldIndex {
    pub name: Text,
    /// The name that it, or its first source, was made with.
    pub origin: Text,
    /// The name of the template that it was made by.
    pub template: Text,
    /// Where its window begins.
    pub start: i64,
    /// Where its window ends; it doesn't have this instant.
    pub end: i64,
    /// It takes no documents.
    pub blocked: bool,
    /// The interval that its rows are folded by.
    pub interval: Option<Interval>,
    /// What the template said when the index of its origin was made. Its schema is folded where there is an interval.
    pub mapping: Mapping,
}

/// A fold of an index that is under way.
#[derive(Debug, Drop)]
pub struct TaskFacts {
    pub index: Text,
    /// The name that the index takes with its last series.
    pub target: Text,
    pub by: Interval,
    /// How many series are folded.
    pub done: u64,
    /// A folded counter keeps its first and last value and its increase, and else its last value alone.
    pub rises: bool,
}
