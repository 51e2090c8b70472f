//! What refuses changes of facts, each cause in its turn.
ghost use Rattle.std.specs.Prelude.{◌≡◌, None, Some, IfOk, IfErr, OnOk};
ghost use Rattle.std.specs.List.{find};
ghost use Rattle.std.specs.Option.{option_copied};
ghost use Rattle.std.specs.Ordering.{int_eq};
ghost use Rattle.edge_face.specs.Limits.{last_instant};
ghost use Rattle.row_cells.specs.Each.{Each};
ghost use Rattle.ts_mapping.specs.Facts.{IsMapping, IsTemplate};
ghost use Rattle.time_text.specs.Instant.{IsInstant};
ghost use Rattle.stream_catalog.specs.Indices.{block_refusal, delete_refusal, downsample_refusal, write_fault};
ghost use Rattle.stream_catalog.specs.Lists.{facts_named, stream_named};
ghost use Rattle.stream_catalog.specs.Names.{template_for as chosen};
ghost use Rattle.stream_catalog.specs.Streams as spec;
ghost use Rattle.stream_catalog.specs.Streams.{IsCause, changed_field, create_refusal, first_name, named_refusal, rolled_names, rollover_refusal, template_refusal};

use crate::answers::{CatalogError, Refusal, Rolled, What};
use crate::catalog_facts::CatalogFacts;
use crate::causes::{field_changed, is_write_index, name_taken, no_such_name};
use crate::choosing::template_for;
use crate::facts::HeldIndex;
use crate::held_streams::HeldStream;
use crate::limits::{MOST_INDICES, MOST_STREAMS, MOST_TEMPLATES, is_full};
use crate::mapped::first_changed;
use downsample_fold::check_interval;
use edge_face::{LAST_INSTANT, Text};
use index_names::{GREATEST_GENERATION, backing_name, is_reserved};
use std::alloc::Global;
use time_text::Interval;
use ts_mapping::Template;

/// What a stream is made with: its template, and the name of its first index.
#[derive(Drop)]
pub(crate) struct Creation<'a> {
    pub(crate) template: &'a Template,
    pub(crate) first: Text,
}

/// A stream that may be rolled over, with its write index and the names of that before and after.
#[derive(Drop)]
pub(crate) struct Rolling<'a> {
    pub(crate) stream: &'a HeldStream,
    pub(crate) write: &'a HeldIndex,
    pub(crate) rolled: Rolled,
}

/// The name of a stream's write index.
pub(crate) fn write_name(stream: &HeldStream) -> &str
    ensures { result.now ≡ spec.write_name stream.now }
{
    match stream.facts.members.as_slice().split_last() {
        Some((last, _)) => last.as_str(),
        None => "",
    }
}

/// The stream that has an index as its write index.
fn writer_of<'a>(streams: &'a [HeldStream], index: &[u8]) -> Option<&'a HeldStream>
    ensures { option_copied result ≡ find (λ s. spec.is_write s index.now) streams.now }
{
    for stream in streams {
        if write_name(stream).as_bytes() == index {
            return Some(stream);
        }
    }
    None
}

/// Whether a window ends with time.
fn is_last(end: i64) -> bool
    ensures { result ≡ int_eq end last_instant }
{
    end == LAST_INSTANT
}

impl CatalogFacts {
    /// That no index of a template's name maps a field of it in another way.
    fn check_fields(&self, alloc: Global, template: &Template) -> Result<(), CatalogError>
        requires template { IsTemplate template.now }
        requires indices { Each (λ i. IsMapping i.mapping) self.now.indices }
        ensures accepted { OnOk result (changed_field template.now.name self.now.indices template.now.schema.fields ≡ None) }
        ensures refused { IfErr result (IsCause (changed_field template.now.name self.now.indices template.now.schema.fields)) }
    {
        match first_changed(template, self.all_indices()) {
            None => Ok(()),
            Some(other) => Err(field_changed(alloc, other.path.as_str(), other.index.as_str())),
        }
    }

    /// What refuses a template.
    pub(crate) fn check_template(
        &self,
        alloc: Global,
        template: &Template,
    ) -> Result<(), CatalogError>
        requires template { IsTemplate template.now }
        requires indices { Each (λ i. IsMapping i.mapping) self.now.indices }
        ensures accepted { OnOk result (template_refusal self.now template.now ≡ None) }
        ensures refused { IfErr result (IsCause (template_refusal self.now template.now)) }
    {
        self.check_fields(alloc, template)?;
        if self.has_template(template.name.as_bytes()) {
            return Ok(());
        }
        if is_full(MOST_TEMPLATES, self.all_templates().len()) {
            return Err(CatalogError::Refused(Refusal::Limit(What::Templates)));
        }
        Ok(())
    }

    /// That no stream's write index has a name.
    fn check_not_written(&self, alloc: Global, index: &Text) -> Result<(), CatalogError>
        ensures accepted { OnOk result (write_fault self.now index.now ≡ None) }
        ensures refused { IfErr result (IsCause (write_fault self.now index.now)) }
    {
        match writer_of(self.all_streams(), index.as_bytes()) {
            None => Ok(()),
            Some(stream) => Err(is_write_index(alloc, stream.facts.name.as_str(), index.as_str())),
        }
    }

    /// What refuses a stream that is to be made, or else what it is made with.
    pub(crate) fn check_create(
        &self,
        alloc: Global,
        name: &Text,
        now: i64,
    ) -> Result<Creation<'_>, CatalogError>
        requires { IsInstant now }
        ensures accepted { IfOk result (λ _. create_refusal self.now name.now now ≡ None) }
        ensures template { IfOk result (λ c. chosen name.now self.now.templates ≡ Some c.template.now) }
        ensures first { IfOk result (λ c. c.first ≡ first_name name.now now) }
        ensures refused { IfErr result (IsCause (create_refusal self.now name.now now)) }
    {
        if self.is_taken(name.as_bytes()) {
            return Err(name_taken(alloc, name.as_str()));
        }
        if is_reserved(name.as_bytes()) {
            return Err(CatalogError::Refused(Refusal::Reserved));
        }
        let Some(template) = template_for(name.as_bytes(), self.all_templates()) else {
            return Err(CatalogError::Refused(Refusal::NoTemplate));
        };
        if is_full(MOST_STREAMS, self.all_streams().len()) {
            return Err(CatalogError::Refused(Refusal::Limit(What::Streams)));
        }
        if is_full(MOST_INDICES, self.all_indices().len()) {
            return Err(CatalogError::Refused(Refusal::Limit(What::Indices)));
        }
        let Ok(first) = backing_name(alloc, name.as_str(), now, 1) else {
            return Err(CatalogError::NoMemory);
        };
        if self.is_taken(first.as_bytes()) {
            return Err(name_taken(alloc, first.as_str()));
        }
        Ok(Creation { template, first })
    }

    /// That a stream has the name.
    pub(crate) fn check_stream(&self, alloc: Global, name: &Text) -> Result<(), CatalogError>
        ensures accepted { OnOk result (named_refusal self.now name.now ≡ None) }
        ensures refused { IfErr result (IsCause (named_refusal self.now name.now)) }
    {
        match self.stream(name.as_bytes()) {
            Some(_) => Ok(()),
            None => Err(no_such_name(alloc, name.as_str())),
        }
    }

    /// That an index has the name.
    pub(crate) fn check_block(&self, alloc: Global, index: &Text) -> Result<(), CatalogError>
        ensures accepted { OnOk result (block_refusal self.now index.now ≡ None) }
        ensures refused { IfErr result (IsCause (block_refusal self.now index.now)) }
    {
        match self.index(index.as_bytes()) {
            Some(_) => Ok(()),
            None => Err(no_such_name(alloc, index.as_str())),
        }
    }

    /// What refuses an index that is to go.
    pub(crate) fn check_delete(&self, alloc: Global, index: &Text) -> Result<(), CatalogError>
        ensures accepted { OnOk result (delete_refusal self.now index.now ≡ None) }
        ensures refused { IfErr result (IsCause (delete_refusal self.now index.now)) }
    {
        match self.index(index.as_bytes()) {
            Some(_) => self.check_not_written(alloc, index),
            None => Err(no_such_name(alloc, index.as_str())),
        }
    }

    /// What refuses a new write index, or else the stream and its write index, and the names of that before and after.
    pub(crate) fn check_rollover(
        &self,
        alloc: Global,
        name: &Text,
        now: i64,
    ) -> Result<Rolling<'_>, CatalogError>
        requires { IsInstant now }
        ensures accepted { IfOk result (λ _. rollover_refusal self.now name.now now ≡ None) }
        ensures stream { IfOk result (λ r. stream_named name.now self.now.streams ≡ Some r.stream.now) }
        ensures write { IfOk result (λ r. facts_named (spec.write_name r.stream.now) self.now.indices ≡ Some r.write.now) }
        ensures names { IfOk result (λ r. r.rolled ≡ rolled_names self.now name.now now) }
        ensures refused { IfErr result (IsCause (rollover_refusal self.now name.now now)) }
    {
        let Some(stream) = self.stream(name.as_bytes()) else {
            return Err(no_such_name(alloc, name.as_str()));
        };
        let Some(write) = self.index(write_name(stream).as_bytes()) else {
            return Err(no_such_name(alloc, write_name(stream)));
        };
        if is_last(write.end) {
            return Err(CatalogError::Refused(Refusal::TimeOver));
        }
        let facts = &stream.facts;
        if is_full(GREATEST_GENERATION as usize, facts.generation as usize) {
            return Err(CatalogError::Refused(Refusal::Limit(What::Generations)));
        }
        if is_full(MOST_INDICES, self.all_indices().len()) {
            return Err(CatalogError::Refused(Refusal::Limit(What::Indices)));
        }
        let Ok(new) = backing_name(alloc, facts.name.as_str(), now, facts.generation + 1) else {
            return Err(CatalogError::NoMemory);
        };
        if self.is_taken(new.as_bytes()) {
            return Err(name_taken(alloc, new.as_str()));
        }
        let Ok(old) = Text::new(alloc, write_name(stream)) else {
            return Err(CatalogError::NoMemory);
        };
        Ok(Rolling {
            stream,
            write,
            rolled: Rolled { old, new },
        })
    }

    /// What refuses a fold of an index under another name, or else the index.
    pub(crate) fn check_downsample(
        &self,
        alloc: Global,
        source: &Text,
        target: &Text,
        by: Interval,
    ) -> Result<&HeldIndex, CatalogError>
        ensures found { IfOk result (λ i. facts_named source.now self.now.indices ≡ Some i.now) }
        ensures accepted { IfOk result (λ _. downsample_refusal self.now source.now target.now by ≡ None) }
        ensures refused { IfErr result (IsCause (downsample_refusal self.now source.now target.now by)) }
    {
        let Some(index) = self.index(source.as_bytes()) else {
            return Err(no_such_name(alloc, source.as_str()));
        };
        if self.is_taken(target.as_bytes()) {
            return Err(name_taken(alloc, target.as_str()));
        }
        if is_reserved(target.as_bytes()) {
            return Err(CatalogError::Refused(Refusal::Reserved));
        }
        self.check_not_written(alloc, source)?;
        if !index.blocked {
            return Err(CatalogError::Refused(Refusal::NotBlocked));
        }
        if let Err(fault) = check_interval(index.interval, by) {
            return Err(CatalogError::Refused(Refusal::Interval(fault)));
        }
        if is_full(MOST_INDICES, self.all_indices().len()) {
            return Err(CatalogError::Refused(Refusal::Limit(What::Indices)));
        }
        Ok(index)
    }
}
