//! Why requests and items are refused.
use edge_face::Text;
use stream_catalog::What;
use synthetic_source::DocKind;
use ts_mapping::MapKind;

/// Why a request is refused, with what its text names: names and paths as they were sent, intervals as they are written.
#[derive(Drop)]
pub enum Cause {
    NoSuchPath,
    BadMethod,
    BadParameter,
    BadBody,
    /// Of a moment line. The first machine of a script, which stands on no catalogue, has this text too.
    BadMoment,
    NoSuchName { name: Text },
    NameTaken { name: Text },
    Reserved { name: Text },
    /// No pattern takes the stream's name.
    NoTemplate { stream: Text },
    IsWriteIndex { index: Text, stream: Text },
    NotBlocked { index: Text },
    /// The interval that is asked for is no longer than the one that the index has.
    NotGreater { asked: Text, had: Text },
    NotMultiple { asked: Text, had: Text },
    NotMember { index: Text, stream: Text },
    /// `stream` is the one that has the index.
    IsMember { index: Text, stream: Text },
    OtherMapping { index: Text, stream: Text },
    BadWindow { index: Text, stream: Text },
    /// The index maps the path in another way.
    ChangedField { path: Text, index: Text },
    /// The write index ends at the last instant.
    TimeOver { index: Text },
    Limit { what: What },
    NoData,
    BadTemplate { kind: MapKind, path: Text },
    /// Lines are counted from 1.
    BadAction { line: u64 },
    MissingSource { line: u64 },
    NoItems,
    BadQuery,
    WrongValue { path: Text },
    BadAggregation,
    /// Aggregations of this kind aren't for the field.
    WrongField { path: Text, kind: Text },
    /// The counters of this folded index keep no rise.
    NoIncrease { index: Text },
    TooManyBuckets,
    /// `from` and `size` together.
    WindowTooLarge { asked: u64 },
    BadSortField { path: Text },
    BadSort,
    /// Of a link: a head that isn't one of HTTP's, or passes its limits.
    BadHead,
    /// Of a link: a body without a length.
    NeedsLength,
    /// Of a link: a body past the limit.
    BodyTooLarge,
}

/// Why an item of a bulk request is refused, in the order in which it is looked at.
#[derive(Drop)]
pub enum ItemCause {
    OnlyCreate,
    NoStream { name: Text },
    NoObject,
    WrongTime { kind: DocKind },
    /// No window of the stream has the time.
    Outside { time: i64 },
    Blocked { index: Text },
    BadDocument { kind: DocKind, path: Text },
    NoRouting,
    /// The key would have so many bytes.
    LongKey { bytes: u64 },
    /// The id of the document that is there.
    Conflict { id: Text },
    Full { index: Text },
}
