//! Members that are taken out of streams and put into them, all or none.
ghost use Rattle.std.specs.Prelude.{◌≡◌, ◌++◌, ◌∷◌, ◌≤◌, None, Some, drop, false, int_lt, length, take, IfOk, OnOk, OnErr, IfErr, refl};
ghost use Rattle.std.specs.List.{find, list_any};
ghost use Rattle.std.specs.Option.{option_copied, option_map};
ghost use Rattle.stream_catalog.specs.declared.answers.Refusal.TheVariants.{IsMember};
ghost use Rattle.stream_catalog.specs.Lists.{facts_named, stream_named, with_found};
ghost use Rattle.stream_catalog.specs.Moves as spec;
ghost use Rattle.stream_catalog.specs.Moves.{add_refusal, added_member, move_refusal, moved, moved_by, moves_refusal, remove_refusal, removed};
ghost use Rattle.stream_catalog.specs.Streams as of_streams;
ghost use Rattle.stream_catalog.specs.Streams.{IsCause};

use crate::answers::{CatalogError, Move};
use crate::by_name::{ByName, keep_where};
use crate::catalog_facts::CatalogFacts;
use crate::causes::{
    bad_window, is_member, is_write_index, no_such_name, not_member, other_mapping,
};
use crate::copies::copy_all;
use crate::facts::{HeldIndex, TaskFacts};
use crate::held_streams::HeldStream;
use crate::members::{WithoutMember, has_member, join_names};
use crate::named::Change;
use crate::refusals::write_name;
use crate::removals::OfOthers;
use edge_face::{NoMemory, Text};
use sqlite_items::Items;
use std::alloc::Global;

/// Whether some instant is in both windows.
fn overlap(index: &HeldIndex, other: &HeldIndex) -> bool
    ensures { result ≡ spec.overlap index.now other.now }
{
    index.start < other.end && other.start < index.end
}

/// The stream that has an index.
fn owner_of<'a>(streams: &'a [HeldStream], index: &[u8]) -> Option<&'a HeldStream>
    ensures { option_copied result ≡ find (λ s. of_streams.has_member s index.now) streams.now }
{
    for stream in streams {
        if has_member(stream, index) {
            return Some(stream);
        }
    }
    None
}

/// A stream has other members.
#[derive(Drop)]
struct SetMembers {
    members: Items<Text>,
}

impl Change<HeldStream> for SetMembers {
    ghost changed = { λ change stream. record stream { facts = record stream.facts { members = change.members } } };

    fn apply(self, stream: &mut HeldStream) {
        let SetMembers { members } = self;
        stream.facts.members = members;
    }

    ghost keeps_name = { λ _ _. refl };
}

/// An index that may join a stream.
#[derive(Drop)]
struct Joining<'a> {
    stream: &'a HeldStream,
    index: &'a HeldIndex,
}

/// What moves change, to be put back where one of them is refused.
#[derive(Drop)]
struct Before {
    streams: ByName<HeldStream>,
    tasks: Vec<TaskFacts>,
}

impl CatalogFacts {
    /// What refuses a member to be taken out.
    fn check_remove(&self, alloc: Global, stream: &Text, index: &Text) -> Result<(), CatalogError>
        ensures accepted { OnOk result (remove_refusal self.now stream.now index.now ≡ None) }
        ensures refused { IfErr result (IsCause (remove_refusal self.now stream.now index.now)) }
    {
        let Some(held) = self.stream(stream.as_bytes()) else {
            return Err(no_such_name(alloc, stream.as_str()));
        };
        if !has_member(held, index.as_bytes()) {
            return Err(not_member(alloc, stream.as_str(), index.as_str()));
        }
        if write_name(held).as_bytes() == index.as_bytes() {
            return Err(is_write_index(alloc, stream.as_str(), index.as_str()));
        }
        Ok(())
    }

    /// Takes a member out of a stream, with the fold of it.
    fn remove(&mut self, alloc: Global, stream: &Text, index: &Text) -> Result<(), CatalogError>
        ensures accepted { OnOk result (remove_refusal self.old stream.now index.now ≡ None) }
        ensures ok { OnOk result (self.new ≡ removed self.old stream.now index.now) }
        ensures refused { IfErr result (IsCause (remove_refusal self.old stream.now index.now)) }
        ensures same { OnErr result (self.new ≡ self.old) }
    {
        self.check_remove(alloc, stream, index)?;
        let name = index.as_bytes();
        self.streams
            .change(stream.as_bytes(), WithoutMember { name });
        keep_where(&mut self.tasks, &OfOthers { index: name });
        Ok(())
    }

    /// Whether an index's window overlaps that of a member.
    fn meets_member(&self, index: &HeldIndex, member: &Text) -> bool
        ensures { result ≡ spec.meets_member self.now.indices index.now member.now }
    {
        match self.index(member.as_bytes()) {
            Some(other) => overlap(index, other),
            None => false,
        }
    }

    fn meets_any(&self, index: &HeldIndex, members: &[Text]) -> bool
        ensures { result ≡ list_any (spec.meets_member self.now.indices index.now) members.now }
    {
        for member in members {
            if self.meets_member(index, member) {
                return true;
            }
        }
        false
    }

    /// Whether an index ends after a stream's write index begins.
    fn ends_late(&self, index: &HeldIndex, stream: &HeldStream) -> bool
        ensures { result ≡ spec.ends_late self.now.indices index.now stream.now }
    {
        match self.index(write_name(stream).as_bytes()) {
            Some(write) => write.start < index.end,
            None => false,
        }
    }

    fn is_bad_window(&self, index: &HeldIndex, stream: &HeldStream) -> bool
        ensures { result ≡ spec.is_bad_window self.now.indices index.now stream.now }
    {
        self.meets_any(index, stream.facts.members.as_slice()) || self.ends_late(index, stream)
    }

    /// That no stream has an index.
    fn check_not_owned(&self, alloc: Global, index: &Text) -> Result<(), CatalogError>
        ensures accepted { OnOk result (option_map (λ s. IsMember s.facts.name index.now) (spec.stream_of self.now index.now) ≡ None) }
        ensures refused { IfErr result (IsCause (option_map (λ s. IsMember s.facts.name index.now) (spec.stream_of self.now index.now))) }
    {
        match owner_of(self.all_streams(), index.as_bytes()) {
            None => Ok(()),
            Some(owner) => Err(is_member(alloc, owner.facts.name.as_str(), index.as_str())),
        }
    }

    /// What refuses a member to be put in, or else the stream and the index.
    fn check_add(
        &self,
        alloc: Global,
        stream: &Text,
        index: &Text,
    ) -> Result<Joining<'_>, CatalogError>
        ensures accepted { IfOk result (λ _. add_refusal self.now stream.now index.now ≡ None) }
        ensures stream { IfOk result (λ j. stream_named stream.now self.now.streams ≡ Some j.stream.now) }
        ensures index { IfOk result (λ j. facts_named index.now self.now.indices ≡ Some j.index.now) }
        ensures refused { IfErr result (IsCause (add_refusal self.now stream.now index.now)) }
    {
        let Some(held) = self.stream(stream.as_bytes()) else {
            return Err(no_such_name(alloc, stream.as_str()));
        };
        let Some(joins) = self.index(index.as_bytes()) else {
            return Err(no_such_name(alloc, index.as_str()));
        };
        self.check_not_owned(alloc, index)?;
        if joins.template.as_bytes() != held.facts.template.as_bytes() {
            return Err(other_mapping(alloc, stream.as_str(), index.as_str()));
        }
        if self.is_bad_window(joins, held) {
            return Err(bad_window(alloc, stream.as_str(), index.as_str()));
        }
        Ok(Joining {
            stream: held,
            index: joins,
        })
    }

    /// Whether a member's window begins after that of an index.
    fn begins_later(&self, index: &HeldIndex, member: &Text) -> bool
        ensures { result ≡ with_found (facts_named member.now self.now.indices) false (λ other. int_lt index.now.start other.start) }
    {
        match self.index(member.as_bytes()) {
            Some(other) => index.start < other.start,
            None => false,
        }
    }

    /// How many members stand before an index, by the starts of their windows.
    fn place_among(&self, index: &HeldIndex, members: &[Text]) -> usize
        ensures within { result ≤ length members.now }
        ensures place { spec.insert_member self.now.indices index.now members.now ≡ take result members.now ++ index.now.name ∷ drop result members.now }
    {
        for (place, member) in members.iter().enumerate() {
            if self.begins_later(index, member) {
                return place;
            }
        }
        members.len()
    }

    /// Members with one more in its place.
    fn joined(
        &self,
        alloc: Global,
        index: &HeldIndex,
        members: &[Text],
    ) -> Result<Items<Text>, NoMemory>
        ensures { IfOk result (λ joined. joined ≡ spec.insert_member self.now.indices index.now members.now) }
    {
        let place = self.place_among(index, members);
        let (before, behind) = members.split_at(place);
        let joined = join_names(alloc, before, &index.name, behind)?;
        Ok(joined)
    }

    /// Puts an index into a stream.
    fn add(&mut self, alloc: Global, stream: &Text, index: &Text) -> Result<(), CatalogError>
        ensures accepted { OnOk result (add_refusal self.old stream.now index.now ≡ None) }
        ensures ok { OnOk result (self.new ≡ added_member self.old stream.now index.now) }
        ensures refused { IfErr result (IsCause (add_refusal self.old stream.now index.now)) }
        ensures same { OnErr result (self.new ≡ self.old) }
    {
        let joining = match self.check_add(alloc, stream, index) {
            Ok(joining) => joining,
            Err(error) => return Err(error),
        };
        let Joining {
            stream: held,
            index: joins,
        } = joining;
        let members = self.joined(alloc, joins, held.facts.members.as_slice())?;
        self.streams
            .change(stream.as_bytes(), SetMembers { members });
        Ok(())
    }

    fn make_move(&mut self, alloc: Global, step: &Move) -> Result<(), CatalogError>
        ensures accepted { OnOk result (move_refusal self.old step.now ≡ None) }
        ensures ok { OnOk result (self.new ≡ moved self.old step.now) }
        ensures refused { IfErr result (IsCause (move_refusal self.old step.now)) }
        ensures same { OnErr result (self.new ≡ self.old) }
    {
        match step {
            Move::Remove { stream, index } => self.remove(alloc, stream, index),
            Move::Add { stream, index } => self.add(alloc, stream, index),
        }
    }

    /// Makes moves one after another, up to the first that is refused. They leave templates and indices.
    fn make_moves(&mut self, alloc: Global, steps: &[Move]) -> Result<(), CatalogError>
        ensures accepted { OnOk result (moves_refusal self.old steps.now ≡ None) }
        ensures ok { OnOk result (self.new ≡ moved_by self.old steps.now) }
        ensures refused { IfErr result (IsCause (moves_refusal self.old steps.now)) }
        ensures templates { self.new.templates ≡ self.old.templates }
        ensures indices { self.new.indices ≡ self.old.indices }
    {
        for step in steps {
            self.make_move(alloc, step)?;
        }
        Ok(())
    }

    /// Copies of what moves change.
    fn before_moves(&self, alloc: Global) -> Result<Before, NoMemory>
        ensures streams { IfOk result (λ before. before.streams ≡ self.now.streams) }
        ensures tasks { IfOk result (λ before. before.tasks.items ≡ self.now.tasks) }
    {
        let streams = self.streams.copied(alloc)?;
        let tasks = copy_all(alloc, self.tasks.as_slice())?;
        Ok(Before { streams, tasks })
    }

    fn put_back(&mut self, before: Before)
        ensures { self.new ≡ record self.old { streams = before.streams; tasks = before.tasks.items } }
    {
        let Before { streams, tasks } = before;
        self.streams = streams;
        self.tasks = tasks;
    }

    /// Takes members out of streams and puts others in, each move after those before it: all of them, or none.
    pub(crate) fn modify(&mut self, alloc: Global, steps: &[Move]) -> Result<(), CatalogError>
        ensures accepted { OnOk result (moves_refusal self.old steps.now ≡ None) }
        ensures ok { OnOk result (self.new ≡ moved_by self.old steps.now) }
        ensures refused { IfErr result (IsCause (moves_refusal self.old steps.now)) }
        ensures same { OnErr result (self.new ≡ self.old) }
    {
        let before = self.before_moves(alloc)?;
        match self.make_moves(alloc, steps) {
            Ok(()) => Ok(()),
            Err(error) => {
                self.put_back(before);
                Err(error)
            }
        }
    }
}
