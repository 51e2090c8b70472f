//! Texts of refusals, put together from words that stand in the program and from names and numbers.
ghost use Rattle.std.specs.Prelude.{◌≡◌, ◌++◌, codes, IfOk};
ghost use Rattle.std.specs.Fmt.{decimal};
ghost use Rattle.tsds_service.specs.Causes as spec;

use edge_face::{NoMemory, Text};
use std::alloc::Global;
use stream_catalog::What;
use synthetic_source::DocKind;
use ts_mapping::MapKind;

/// Words, and a name in brackets behind them.
pub(crate) fn bracketed(alloc: Global, front: &str, name: &Text) -> Result<Text, NoMemory>
    ensures { IfOk result (λ text. text ≡ spec.bracketed front.now name.now) }
{
    Ok(Text::from_string(format!(in alloc; "{front} [{}]", name.as_str())?))
}

/// Words, a name in brackets, and further words.
pub(crate) fn enclosed(alloc: Global, front: &str, name: &Text, end: &str) -> Result<Text, NoMemory>
    ensures { IfOk result (λ text. text ≡ spec.bracketed front.now name.now ++ end.now) }
{
    Ok(Text::from_string(format!(in alloc; "{front} [{}]{end}", name.as_str())?))
}

/// A name in brackets, and words behind it.
pub(crate) fn named(alloc: Global, name: &Text, end: &str) -> Result<Text, NoMemory>
    ensures { IfOk result (λ text. text ≡ codes "[" ++ name.now ++ (codes "]" ++ end.now)) }
{
    Ok(Text::from_string(format!(in alloc; "[{}]{end}", name.as_str())?))
}

/// A name, words, and another name.
pub(crate) fn related(
    alloc: Global,
    first: &Text,
    words: &str,
    second: &Text,
) -> Result<Text, NoMemory>
    ensures { IfOk result (λ text. text ≡ spec.related first.now words.now second.now) }
{
    Ok(Text::from_string(format!(in alloc; "[{}] {words} [{}]", first.as_str(), second.as_str())?))
}

/// Words, a name, words, and another name.
pub(crate) fn compared(
    alloc: Global,
    front: &str,
    first: &Text,
    words: &str,
    second: &Text,
) -> Result<Text, NoMemory>
    ensures { IfOk result (λ text. text ≡ spec.bracketed (spec.bracketed front.now first.now ++ words.now) second.now) }
{
    Ok(Text::from_string(format!(in alloc;
        "{front} [{}]{words} [{}]",
        first.as_str(),
        second.as_str()
    )?))
}

/// Words, and a number in brackets behind them.
pub(crate) fn numbered(alloc: Global, front: &str, number: u64) -> Result<Text, NoMemory>
    ensures { IfOk result (λ text. text ≡ spec.bracketed front.now (decimal number)) }
{
    Ok(Text::from_string(format!(in alloc; "{front} [{number}]")?))
}

/// Words, a number in brackets, and further words.
pub(crate) fn limited(alloc: Global, front: &str, number: u64, end: &str) -> Result<Text, NoMemory>
    ensures { IfOk result (λ text. text ≡ spec.bracketed front.now (decimal number) ++ end.now) }
{
    Ok(Text::from_string(format!(in alloc; "{front} [{number}]{end}")?))
}

/// Words, a number, words, and another number.
pub(crate) fn exceeded(
    alloc: Global,
    front: &str,
    most: u64,
    words: &str,
    number: u64,
) -> Result<Text, NoMemory>
    ensures { IfOk result (λ text. text ≡ spec.bracketed (spec.bracketed front.now (decimal most) ++ words.now) (decimal number)) }
{
    Ok(Text::from_string(format!(in alloc; "{front} [{most}]{words} [{number}]")?))
}

pub(crate) fn what_text(what: What) -> &'static str
    ensures { result.now ≡ spec.what_text what }
{
    match what {
        What::Templates => "templates",
        What::Streams => "streams",
        What::Indices => "indices",
        What::Generations => "generations",
    }
}

pub(crate) fn map_kind_text(kind: MapKind) -> &'static str
    ensures { result.now ≡ spec.map_kind_text kind }
{
    match kind {
        MapKind::Shape => "Shape",
        MapKind::BadShards => "BadShards",
        MapKind::BadDynamic => "BadDynamic",
        MapKind::UnknownType => "UnknownType",
        MapKind::TooManyFields => "TooManyFields",
        MapKind::PathClash => "PathClash",
        MapKind::BadTimestamp => "BadTimestamp",
        MapKind::BadRole => "BadRole",
        MapKind::NoDimension => "NoDimension",
        MapKind::BadRouting => "BadRouting",
    }
}

pub(crate) fn doc_kind_text(kind: DocKind) -> &'static str
    ensures { result.now ≡ spec.doc_kind_text kind }
{
    match kind {
        DocKind::NoTime => "NoTime",
        DocKind::BadTime => "BadTime",
        DocKind::Unmapped => "Unmapped",
        DocKind::NotLeaf => "NotLeaf",
        DocKind::WrongType => "WrongType",
        DocKind::ManyValues => "ManyValues",
        DocKind::BadAggregate => "BadAggregate",
    }
}

/// The type of what a document is refused by: a path that nobody maps has one of its own.
pub(crate) fn doc_type(kind: DocKind) -> &'static str
    ensures { result.now ≡ spec.doc_type kind }
{
    match kind {
        DocKind::Unmapped => "strict_dynamic_mapping_exception",
        DocKind::NoTime => "document_parsing_exception",
        DocKind::BadTime => "document_parsing_exception",
        DocKind::NotLeaf => "document_parsing_exception",
        DocKind::WrongType => "document_parsing_exception",
        DocKind::ManyValues => "document_parsing_exception",
        DocKind::BadAggregate => "document_parsing_exception",
    }
}
