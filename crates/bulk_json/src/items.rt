//! Items of a bulk body.
ghost use Rattle.std.specs.Prelude.{◌≡◌, ◌≢◌, ◌<◌, [], ◌∷◌, length, IfOk, IfErr, IfSome, Some, Ok, Err, MatchOption};
ghost use Rattle.std.specs.Option.{option_map};
ghost use Rattle.bulk_json.specs.Items.{bulk_of, onto, ahead_of};
ghost use Rattle.bulk_json.specs.Lent.{ahead_in, fault_in, path_in, lent, seen_item, HasRoom, IsBehind};
ghost use Rattle.bulk_json.specs.Sound.{IsItem, AreItems, IsPath};

use crate::action::{Action, read_action};
use crate::blank::is_blank;
use crate::errors::BulkError;
use crate::lines::first_line;
use edge_face::{Bytes, NoMemory, Text};
use std::alloc::Global;

/// What one action line asks for: its action, the stream, and the source as it was sent, which nobody has looked at.
#[derive(Debug, Drop)]
pub struct Item {
    pub action: Action,
    pub stream: Text,
    /// There is one for every action but `Delete`.
    pub source: Option<Bytes>,
}

/// An item whose source is lent by the body.
#[derive(Drop)]
pub struct LentItem<'a> {
    pub action: Action,
    pub stream: Text,
    pub source: Option<&'a [u8]>,
}

/// The items of a bulk body from a line on: what isn't read yet, and the number of its first line.
#[derive(Clone, Copy)]
pub struct BulkLines<'a> {
    path: Option<&'a str>,
    rest: &'a [u8],
    number: u64,
}

/// An item, where the line began one, and what lies behind it.
#[derive(Drop)]
pub struct Step<'a> {
    pub item: Option<LentItem<'a>>,
    pub ahead: BulkLines<'a>,
}

/// The next item, and what lies behind it.
#[derive(Drop)]
pub struct NextItem<'a> {
    pub item: LentItem<'a>,
    pub ahead: BulkLines<'a>,
}

impl<'a> BulkLines<'a> {
    /// All items of a body under the path of a stream, or of none.
    pub fn new(stream: Option<&'a str>, body: &'a [u8]) -> BulkLines<'a>
        ensures all { ahead_in result ≡ ahead_of (option_map (λ s. s.now) stream.entry) 1 body.now }
        ensures path { path_in result ≡ option_map (λ s. s.now) stream.entry }
        ensures few { HasRoom result }
    {
        BulkLines {
            path: stream,
            rest: body,
            number: 1,
        }
    }

    /// The next item, and the items behind it; nothing where no item is ahead.
    pub fn next(self, alloc: Global) -> Result<Option<NextItem<'a>>, BulkError>
        requires few { HasRoom self }
        ensures item { IfOk result (λ found. MatchOption found (ahead_in self.entry ≡ Ok []) (λ n. ahead_in self.entry ≡ onto (seen_item n.item ∷ []) (ahead_in n.ahead))) }
        ensures sound { IsPath (path_in self.entry) → IfOk result (λ found. IfSome found (λ n. IsItem (seen_item n.item))) }
        ensures onward { IfOk result (λ found. IfSome found (λ n. IsBehind n.ahead self.entry)) }
        ensures refused { IfErr result (λ e. e ≢ BulkError.NoMemory → ahead_in self.entry ≡ Err e) }
    {
        let mut lines = self;
        while !lines.rest.is_empty() {
            let Step { item, ahead } = read_step(alloc, lines)?;
            if let Some(item) = item {
                return Ok(Some(NextItem { item, ahead }));
            }
            lines = ahead;
        }
        Ok(None)
    }

    /// The fault that is ahead, if there is one. Where there is none, all items can be had one after the other, so long as there
    /// is memory. Sources aren't looked at, and nothing is kept.
    pub fn fault_ahead(self, alloc: Global) -> Result<Option<BulkError>, NoMemory>
        requires few { HasRoom self }
        ensures { IfOk result (λ found. found ≡ fault_in (ahead_in self.entry)) }
    {
        let mut lines = self;
        loop {
            match lines.next(alloc) {
                Ok(Some(next)) => lines = next.ahead,
                Ok(None) => return Ok(None),
                Err(error) => return fault_or_memory(error),
            }
        }
    }
}

/// The error as a fault of a body, if it is one.
fn fault_or_memory(error: BulkError) -> Result<Option<BulkError>, NoMemory>
    ensures fault { IfOk result (λ found. (found ≡ Some error) × (error ≢ BulkError.NoMemory)) }
{
    match error {
        BulkError::BadAction { line } => Ok(Some(BulkError::BadAction { line })),
        BulkError::MissingSource { line } => Ok(Some(BulkError::MissingSource { line })),
        BulkError::Empty => Ok(Some(BulkError::Empty)),
        BulkError::NoMemory => Err(NoMemory),
    }
}

/// Reads the item that begins with the next line, or passes the line where it is blank.
fn read_step<'a>(alloc: Global, lines: BulkLines<'a>) -> Result<Step<'a>, BulkError>
    requires some { 0 < length lines.rest.now }
    requires few { HasRoom lines }
    ensures items { IfOk result (λ s. onto (lent s.item) (ahead_in s.ahead) ≡ ahead_in lines.entry) }
    ensures sound { IsPath (path_in lines.entry) → IfOk result (λ s. AreItems (lent s.item)) }
    ensures onward { IfOk result (λ s. IsBehind s.ahead lines.entry) }
    ensures refused { IfErr result (λ e. e ≢ BulkError.NoMemory → ahead_in lines.entry ≡ Err e) }
{
    let first = first_line(lines.rest);
    let next = BulkLines {
        path: lines.path,
        rest: first.rest,
        number: lines.number + 1,
    };
    if is_blank(first.line) {
        return Ok(Step {
            item: None,
            ahead: next,
        });
    }
    let Some(asked) = read_action(alloc, lines.path, first.line)? else {
        return Err(BulkError::BadAction { line: lines.number });
    };
    if !asked.action.takes_source() {
        let item = LentItem {
            action: asked.action,
            stream: asked.stream,
            source: None,
        };
        return Ok(Step {
            item: Some(item),
            ahead: next,
        });
    }
    if next.rest.is_empty() {
        return Err(BulkError::MissingSource { line: lines.number });
    }
    let second = first_line(next.rest);
    let item = LentItem {
        action: asked.action,
        stream: asked.stream,
        source: Some(second.line),
    };
    let ahead = BulkLines {
        path: lines.path,
        rest: second.rest,
        number: next.number + 1,
    };
    Ok(Step {
        item: Some(item),
        ahead,
    })
}

/// The item with a copy of its source.
fn kept(alloc: Global, item: LentItem<'_>) -> Result<Item, NoMemory>
    ensures { IfOk result (λ kept. kept ≡ seen_item item.entry) }
{
    let source = match item.source {
        None => None,
        Some(bytes) => Some(Bytes::new(alloc, bytes)?),
    };
    Ok(Item {
        action: item.action,
        stream: item.stream,
        source,
    })
}

/// Reads all items that are ahead.
fn read_items(alloc: Global, start: BulkLines<'_>) -> Result<Vec<Item>, BulkError>
    requires few { HasRoom start }
    ensures items { IfOk result (λ items. ahead_in start.entry ≡ Ok items.items) }
    ensures sound { IsPath (path_in start.entry) → IfOk result (λ items. AreItems items.items) }
    ensures refused { IfErr result (λ e. e ≢ BulkError.NoMemory → ahead_in start.entry ≡ Err e) }
{
    let mut items = Vec::new(alloc);
    let mut lines = start;
    while let Some(NextItem { item, ahead }) = lines.next(alloc)? {
        items.push(kept(alloc, item)?)?;
        lines = ahead;
    }
    Ok(items)
}

fn name_of(stream: Option<&Text>) -> Option<&str>
    ensures { option_map (λ s. s.now) result ≡ option_map (λ s. s.now) stream.entry }
{
    match stream {
        Some(name) => Some(name.as_str()),
        None => None,
    }
}

/// The items of a bulk body under the path of a stream, or of none, in the order of their lines; or the first line at fault.
///
/// Lines lie between newlines, the last of which may be absent, and a carriage return before a newline isn't part of a line.
/// A blank line in an action's place says nothing. An action line is an object with one member, `create`, `index`, `update`
/// or `delete`, whose value may name the stream by `_index`, which counts before the path's. After each action but `delete`
/// the next line is the source. It is kept as it is: whether it is JSON is not looked at.
#[tactic(auto, unfolding(crate::specs::Items::bulk_of))]
pub fn read_bulk(alloc: Global, stream: Option<&Text>, body: &[u8]) -> Result<Vec<Item>, BulkError>
    ensures items { IfOk result (λ items. bulk_of (option_map (λ s. s.now) stream.entry) body.now ≡ Ok items.items) }
    ensures sound { IsPath (option_map (λ s. s.now) stream.entry) → IfOk result (λ items. AreItems items.items) }
    ensures refused { IfErr result (λ e. e ≢ BulkError.NoMemory → bulk_of (option_map (λ s. s.now) stream.entry) body.now ≡ Err e) }
{
    let items = read_items(alloc, BulkLines::new(name_of(stream), body))?;
    if items.is_empty() {
        return Err(BulkError::Empty);
    }
    Ok(items)
}
