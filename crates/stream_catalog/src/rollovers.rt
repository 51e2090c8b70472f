//! New write indices of streams, and folds beside their sources.
ghost use Rattle.std.specs.Prelude.{◌≡◌, ◌+◌, ◌<◌, ◌++◌, ◌∷◌, [], None, Some, IfOk, OnOk, OnErr, IfErr, refl};
ghost use Rattle.std.specs.Int.{int_max};
ghost use Rattle.time_text.specs.Instant.{IsInstant};
ghost use Rattle.lifecycle_swap.specs.Ends as ends;
ghost use Rattle.stream_catalog.specs.FactChanges.{facts_downsampled, facts_rolled_over};
ghost use Rattle.stream_catalog.specs.Indices as spec;
ghost use Rattle.stream_catalog.specs.Indices.{downsample_refusal, folded_facts};
ghost use Rattle.stream_catalog.specs.Lists.{facts_name, facts_named, inserted, stream_name, updated};
ghost use Rattle.stream_catalog.specs.Sound.{AreFactsSound};
ghost use Rattle.stream_catalog.specs.Streams.{IsCause, next_index, next_name, rolled_names, rollover_refusal};

use crate::answers::{CatalogError, Rolled};
use crate::catalog_facts::CatalogFacts;
use crate::creations::make_index;
use crate::facts::HeldIndex;
use crate::held_streams::HeldStream;
use crate::members::join_names;
use crate::named::Change;
use crate::refusals::Rolling;
use edge_face::{NoMemory, Text};
use lifecycle_swap::end_after;
use sqlite_items::Items;
use std::alloc::Global;
use time_text::Interval;
use ts_mapping::{Mapping, Template};

/// A stream has one member more, of a generation more.
#[derive(Drop)]
struct Roll {
    generation: u32,
    members: Items<Text>,
}

impl Change<HeldStream> for Roll {
    ghost changed = { λ roll stream. record stream { facts = record stream.facts { generation = roll.generation; members = roll.members } } };

    fn apply(self, stream: &mut HeldStream) {
        let Roll {
            generation,
            members,
        } = self;
        stream.facts.generation = generation;
        stream.facts.members = members;
    }

    ghost keeps_name = { λ _ _. refl };
}

/// Where the window of a next write index ends: as far behind the window before it, or the present, as a template looks ahead.
fn next_end(end: i64, now: i64, look_ahead: i64) -> i64
    requires end { IsInstant end }
    requires now { IsInstant now }
    ensures { result ≡ ends.end_after (int_max end now) look_ahead }
{
    end_after(end.max(now), look_ahead)
}

/// A next write index, with the change of its stream. Neither is there yet.
#[derive(Drop)]
struct Next {
    index: HeldIndex,
    roll: Roll,
}

fn make_next(
    alloc: Global,
    stream: &HeldStream,
    template: &Template,
    write: &HeldIndex,
    new: &Text,
    now: i64,
) -> Result<Next, NoMemory>
    requires now { IsInstant now }
    requires end { IsInstant write.now.end }
    requires new { new.now ≡ next_name stream.now now }
    requires room { stream.now.facts.generation < 999999 }
    ensures index { IfOk result (λ next. next.index ≡ (next_index stream.now template.now write.now now).facts) }
    ensures generation { IfOk result (λ next. next.roll.generation ≡ stream.now.facts.generation + 1) }
    ensures members { IfOk result (λ next. next.roll.members ≡ stream.now.facts.members ++ next_name stream.now now ∷ []) }
{
    let end = next_end(write.end, now, template.look_ahead);
    let index = make_index(alloc, new, template, write.end, end)?;
    let members = join_names(alloc, stream.facts.members.as_slice(), new, &[])?;
    let generation = stream.facts.generation + 1;
    Ok(Next {
        index,
        roll: Roll {
            generation,
            members,
        },
    })
}

/// The mapping of a fold.
fn folded_mapping(alloc: Global, mapping: &Mapping) -> Result<Mapping, NoMemory>
    ensures { IfOk result (λ m. m ≡ spec.folded_mapping mapping.now.schema.rises mapping.now) }
{
    let mut mapping = mapping.copy(alloc)?;
    mapping.schema.folded = true;
    Ok(mapping)
}

/// The fold of an index, but for its rows, under another name.
fn make_fold(
    alloc: Global,
    index: &HeldIndex,
    target: &Text,
    by: Interval,
) -> Result<HeldIndex, NoMemory>
    ensures { IfOk result (λ fold. fold ≡ folded_facts target.now index.now.mapping.schema.rises by index.now) }
{
    Ok(HeldIndex {
        name: target.copy(alloc)?,
        origin: index.origin.copy(alloc)?,
        template: index.template.copy(alloc)?,
        start: index.start,
        end: index.end,
        blocked: true,
        interval: Some(by),
        mapping: folded_mapping(alloc, &index.mapping)?,
    })
}

impl CatalogFacts {
    /// Puts a next write index in, and makes it its stream's, or neither.
    fn put_next(&mut self, name: &Text, next: Next) -> Result<(), NoMemory>
        requires { facts_named next.index.name self.old.indices ≡ None }
        ensures ok { OnOk result (self.new ≡ record self.old { streams = updated stream_name name.now (λ s. record s { facts = record s.facts { generation = next.roll.generation; members = next.roll.members } }) self.old.streams; indices = inserted facts_name next.index self.old.indices }) }
        ensures err { OnErr result (self.new ≡ self.old) }
    {
        let Next { index, roll } = next;
        self.indices.put(index)?;
        self.streams.change(name.as_bytes(), roll);
        Ok(())
    }

    /// Gives a stream a new write index, whose window begins where that of the one before it ends.
    pub(crate) fn roll_over(
        &mut self,
        alloc: Global,
        name: &Text,
        now: i64,
    ) -> Result<Rolled, CatalogError>
        requires now { IsInstant now }
        requires sound { AreFactsSound self.old }
        ensures accepted { IfOk result (λ _. rollover_refusal self.old name.now now ≡ None) }
        ensures ok { OnOk result (self.new ≡ facts_rolled_over self.old name.now now) }
        ensures names { IfOk result (λ rolled. rolled ≡ rolled_names self.old name.now now) }
        ensures refused { IfErr result (IsCause (rollover_refusal self.old name.now now)) }
        ensures same { OnErr result (self.new ≡ self.old) }
    {
        let rolling = match self.check_rollover(alloc, name, now) {
            Ok(rolling) => rolling,
            Err(error) => return Err(error),
        };
        let Rolling {
            stream,
            write,
            rolled,
        } = rolling;
        let Some(template) = self.template(stream.facts.template.as_bytes()) else {
            return Ok(rolled);
        };
        let next = make_next(alloc, stream, template, write, &rolled.new, now)?;
        self.put_next(name, next)?;
        Ok(rolled)
    }

    /// Puts the fold of an index beside it, in no stream.
    pub(crate) fn downsample(
        &mut self,
        alloc: Global,
        source: &Text,
        target: &Text,
        by: Interval,
    ) -> Result<(), CatalogError>
        ensures accepted { OnOk result (downsample_refusal self.old source.now target.now by ≡ None) }
        ensures ok { OnOk result (self.new ≡ facts_downsampled self.old source.now target.now by) }
        ensures refused { IfErr result (IsCause (downsample_refusal self.old source.now target.now by)) }
        ensures same { OnErr result (self.new ≡ self.old) }
    {
        let index = match self.check_downsample(alloc, source, target, by) {
            Ok(index) => index,
            Err(error) => return Err(error),
        };
        let fold = make_fold(alloc, index, target, by)?;
        self.indices.put(fold)?;
        Ok(())
    }
}
