//! Streams that are made, and new write indices.
ghost use Rattle.std.specs.Prelude.{◌≡◌, ◌-ℤ◌, pos, [], ◌∷◌, None, Some, IfOk, OnOk, OnErr, IfErr, refl};
ghost use Rattle.std.specs.Int.{int_max};
ghost use Rattle.time_text.specs.Instant.{IsInstant};
ghost use Rattle.row_cells.specs.Each.{Each};
ghost use Rattle.ts_mapping.specs.Facts.{IsTemplate};
ghost use Rattle.ts_mapping.specs.Ranges.{IsLook};
ghost use Rattle.stream_catalog.specs.FactChanges.{facts_created, first_index};
ghost use Rattle.stream_catalog.specs.Lists.{facts_name, facts_named, inserted, stream_name, stream_named};
ghost use Rattle.stream_catalog.specs.Streams.{IsCause, create_refusal, first_name, new_index, new_stream};

use crate::answers::CatalogError;
use crate::catalog_facts::CatalogFacts;
use crate::facts::{HeldIndex, StreamFacts};
use crate::held_streams::HeldStream;
use crate::refusals::Creation;
use edge_face::{NoMemory, Text};
use lifecycle_swap::end_after;
use sqlite_items::Items;
use std::alloc::Global;
use ts_mapping::Template;

/// As far before an instant as a template looks back, at the earliest at 0.
fn first_start(now: i64, look_back: i64) -> i64
    requires now { IsInstant now }
    requires back { IsLook look_back }
    ensures { result ≡ int_max (pos 0) (now -ℤ look_back) }
{
    0i64.max(now - look_back)
}

/// A new backing index, but for its rows, which aren't there yet.
pub(crate) fn make_index(
    alloc: Global,
    name: &Text,
    template: &Template,
    start: i64,
    end: i64,
) -> Result<HeldIndex, NoMemory>
    ensures { IfOk result (λ index. index ≡ (new_index name.now template.now start end).facts) }
{
    Ok(HeldIndex {
        name: name.copy(alloc)?,
        origin: name.copy(alloc)?,
        template: template.name.copy(alloc)?,
        start,
        end,
        blocked: false,
        interval: None,
        mapping: template.mapping(alloc)?,
    })
}

/// A new stream with its first index.
fn make_stream(
    alloc: Global,
    name: &Text,
    template: &Template,
    first: Text,
) -> Result<HeldStream, NoMemory>
    ensures { IfOk result (λ s. s ≡ record { facts = record { name = name.now; template = template.now.name; generation = 1; members = first ∷ [] }; life = None }) }
{
    let mut members = Items::new(alloc);
    members.push(first)?;
    let facts = StreamFacts {
        name: name.copy(alloc)?,
        template: template.name.copy(alloc)?,
        generation: 1,
        members,
    };
    Ok(HeldStream { facts, life: None })
}

/// A stream and an index that aren't there yet.
#[derive(Drop)]
struct Pair {
    stream: HeldStream,
    index: HeldIndex,
}

fn make_pair(
    alloc: Global,
    name: &Text,
    template: &Template,
    first: Text,
    now: i64,
) -> Result<Pair, NoMemory>
    requires now { IsInstant now }
    requires back { IsLook template.now.look_back }
    requires first { first ≡ first_name name.now now }
    ensures stream { IfOk result (λ made. made.stream ≡ new_stream name.now template.now now) }
    ensures index { IfOk result (λ made. made.index ≡ (first_index name.now template.now now).facts) }
{
    let start = first_start(now, template.look_back);
    let end = end_after(now, template.look_ahead);
    let index = make_index(alloc, &first, template, start, end)?;
    let stream = make_stream(alloc, name, template, first)?;
    Ok(Pair { stream, index })
}

impl CatalogFacts {
    /// Puts a stream in and an index, or neither.
    fn put_pair(&mut self, name: &Text, pair: Pair) -> Result<(), NoMemory>
        requires named { pair.stream.facts.name ≡ name.now }
        requires stream { stream_named name.now self.old.streams ≡ None }
        requires index { facts_named pair.index.name self.old.indices ≡ None }
        ensures ok { OnOk result (self.new ≡ record self.old { streams = inserted stream_name pair.stream self.old.streams; indices = inserted facts_name pair.index self.old.indices }) }
        ensures err { OnErr result (self.new ≡ self.old) }
    {
        let Pair { stream, index } = pair;
        self.streams.put(stream)?;
        match self.indices.put(index) {
            Ok(()) => Ok(()),
            Err(NoMemory) => {
                self.streams.take_out(name.as_bytes());
                Err(NoMemory)
            }
        }
    }

    /// Makes a stream with its first index, by the template that goes first of those that match.
    pub(crate) fn create(
        &mut self,
        alloc: Global,
        name: &Text,
        now: i64,
    ) -> Result<(), CatalogError>
        requires now { IsInstant now }
        requires templates { Each IsTemplate self.old.templates }
        ensures accepted { OnOk result (create_refusal self.old name.now now ≡ None) }
        ensures ok { OnOk result (self.new ≡ facts_created self.old name.now now) }
        ensures refused { IfErr result (IsCause (create_refusal self.old name.now now)) }
        ensures same { OnErr result (self.new ≡ self.old) }
    {
        let Creation { template, first } = match self.check_create(alloc, name, now) {
            Ok(creation) => creation,
            Err(error) => return Err(error),
        };
        let pair = make_pair(alloc, name, template, first, now)?;
        self.put_pair(name, pair)?;
        Ok(())
    }
}
