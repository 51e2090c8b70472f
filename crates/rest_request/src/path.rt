//! The shapes of paths.
ghost use Rattle.std.specs.Prelude.{◌≡◌};
ghost use Rattle.std.specs.Option.{option_map};
ghost use Rattle.std.specs.List.{list_all};
ghost use Rattle.rest_request.specs.Path as spec;
ghost use Rattle.rest_request.specs.Target as target;
ghost use Rattle.rest_request.specs.Seen.{seen_place, seen_cut};

use index_names::{is_index_name, is_stream_name, is_target_name};

/// The most bytes that a document's id has.
pub const ID_LIMIT: usize = 6_000;

/// What the segments of a path are.
#[derive(Clone, Copy, Debug, PartialEq, Eq)]
pub enum Shape {
    Template,
    Stream,
    Modify,
    Lifecycle,
    Bulk,
    StreamBulk,
    Rollover,
    Block,
    Downsample,
    Index,
    RunLifecycle,
    Tasks,
    Search,
    Count,
    Document,
    Flush,
}

/// A shape, and the names in the path from left to right; empty where the shape has fewer.
#[derive(Clone, Copy)]
pub struct Place<'a> {
    pub shape: Shape,
    pub first: &'a str,
    pub second: &'a str,
}

fn found<'a>(shape: Shape, first: &'a str, second: &'a str) -> Option<Place<'a>>
    ensures { option_map seen_place result ≡ spec.at shape first.now second.now }
{
    Some(Place {
        shape,
        first,
        second,
    })
}

/// A text before and after its first slash.
fn cut_at_slash(text: &str) -> Option<(&str, &str)>
    ensures { option_map seen_cut result ≡ target.cut 47 text.now }
{
    text.split_once('/')
}

fn is_id_byte(byte: u8) -> bool
    ensures { result ≡ target.is_id_byte byte }
{
    byte.is_ascii_alphanumeric() || byte == b'-' || byte == b'_'
}

/// Whether a segment is 1 to 6,000 letters, digits, `-` and `_`.
#[tactic(auto, unfolding(crate::specs::Target::is_id))]
fn is_id(segment: &[u8]) -> bool
    ensures { result ≡ target.is_id segment.now }
{
    !segment.is_empty() && segment.len() <= ID_LIMIT && are_id_bytes(segment)
}

fn are_id_bytes(segment: &[u8]) -> bool
    ensures { result ≡ list_all target.is_id_byte segment.now }
{
    segment.iter().all(|b| is_id_byte(*b))
}

fn under_stream(shape: Shape, name: &str) -> Option<Place<'_>>
    ensures { option_map seen_place result ≡ spec.under_stream shape name.now }
{
    if is_stream_name(name.as_bytes()) {
        found(shape, name, "")
    } else {
        None
    }
}

fn under_index(shape: Shape, name: &str) -> Option<Place<'_>>
    ensures { option_map seen_place result ≡ spec.under_index shape name.now }
{
    if is_index_name(name.as_bytes()) {
        found(shape, name, "")
    } else {
        None
    }
}

fn one_segment(a: &str) -> Option<Place<'_>>
    ensures { option_map seen_place result ≡ spec.one_segment a.now }
{
    if a == "_bulk" {
        found(Shape::Bulk, "", "")
    } else if a == "_tasks" {
        found(Shape::Tasks, "", "")
    } else if a == "_flush" {
        found(Shape::Flush, "", "")
    } else {
        under_index(Shape::Index, a)
    }
}

fn of_stream(b: &str) -> Option<Place<'_>>
    ensures { option_map seen_place result ≡ spec.of_stream b.now }
{
    if b == "_modify" {
        found(Shape::Modify, "", "")
    } else {
        under_stream(Shape::Stream, b)
    }
}

fn of_lifecycle(b: &str) -> Option<Place<'_>>
    ensures { option_map seen_place result ≡ spec.of_lifecycle b.now }
{
    if b == "_run" {
        found(Shape::RunLifecycle, "", "")
    } else {
        None
    }
}

fn two_segments<'a>(a: &'a str, b: &'a str) -> Option<Place<'a>>
    ensures { option_map seen_place result ≡ spec.two_segments a.now b.now }
{
    if a == "_index_template" {
        under_stream(Shape::Template, b)
    } else if a == "_data_stream" {
        of_stream(b)
    } else if a == "_lifecycle" {
        of_lifecycle(b)
    } else if b == "_bulk" {
        under_stream(Shape::StreamBulk, a)
    } else if b == "_rollover" {
        under_stream(Shape::Rollover, a)
    } else if b == "_search" {
        under_index(Shape::Search, a)
    } else if b == "_count" {
        under_index(Shape::Count, a)
    } else {
        None
    }
}

fn stream_lifecycle<'a>(b: &'a str, c: &'a str) -> Option<Place<'a>>
    ensures { option_map seen_place result ≡ spec.stream_lifecycle b.now c.now }
{
    if c == "_lifecycle" {
        under_stream(Shape::Lifecycle, b)
    } else {
        None
    }
}

fn index_block<'a>(a: &'a str, c: &'a str) -> Option<Place<'a>>
    ensures { option_map seen_place result ≡ spec.index_block a.now c.now }
{
    if c == "write" {
        under_index(Shape::Block, a)
    } else {
        None
    }
}

fn downsample<'a>(a: &'a str, c: &'a str) -> Option<Place<'a>>
    ensures { option_map seen_place result ≡ spec.downsample a.now c.now }
{
    if is_index_name(a.as_bytes()) && is_target_name(c.as_bytes()) {
        found(Shape::Downsample, a, c)
    } else {
        None
    }
}

fn document<'a>(a: &'a str, c: &'a str) -> Option<Place<'a>>
    ensures { option_map seen_place result ≡ spec.document a.now c.now }
{
    if is_index_name(a.as_bytes()) && is_id(c.as_bytes()) {
        found(Shape::Document, a, c)
    } else {
        None
    }
}

fn three_segments<'a>(a: &'a str, b: &'a str, c: &'a str) -> Option<Place<'a>>
    ensures { option_map seen_place result ≡ spec.three_segments a.now b.now c.now }
{
    if a == "_data_stream" {
        stream_lifecycle(b, c)
    } else if b == "_block" {
        index_block(a, c)
    } else if b == "_downsample" {
        downsample(a, c)
    } else if b == "_doc" {
        document(a, c)
    } else {
        None
    }
}

fn more_segments<'a>(a: &'a str, others: &'a str) -> Option<Place<'a>>
    ensures { option_map seen_place result ≡ spec.more_segments a.now (target.cut 47 others.now) others.now }
{
    match cut_at_slash(others) {
        None => two_segments(a, others),
        Some((b, c)) => three_segments(a, b, c),
    }
}

fn segments(all: &str) -> Option<Place<'_>>
    ensures { option_map seen_place result ≡ spec.segments (target.cut 47 all.now) all.now }
{
    match cut_at_slash(all) {
        None => one_segment(all),
        Some((a, others)) => more_segments(a, others),
    }
}

/// The shape of a path, and the names in it.
#[tactic(auto, unfolding(crate::specs::Path::place_of))]
pub fn place_of(path: &str) -> Option<Place<'_>>
    ensures { option_map seen_place result ≡ spec.place_of path.now }
{
    match cut_at_slash(path) {
        Some((front, all)) if front.is_empty() => segments(all),
        _ => None,
    }
}
