//! Streams and indices that go, with the folds of them that are under way.
ghost use Rattle.std.specs.Prelude.{◌≡◌, None, bytes_eq, not, IfOk, OnOk, OnErr, IfErr};
ghost use Rattle.stream_catalog.specs.FactChanges.{facts_without_index, facts_without_stream};
ghost use Rattle.stream_catalog.specs.Indices.{delete_refusal};
ghost use Rattle.stream_catalog.specs.Lists.{stream_named};
ghost use Rattle.stream_catalog.specs.Streams as spec;
ghost use Rattle.stream_catalog.specs.Streams.{IsCause, named_refusal};

use crate::answers::CatalogError;
use crate::by_name::keep_where;
use crate::catalog_facts::CatalogFacts;
use crate::causes::no_such_name;
use crate::facts::{HeldIndex, TaskFacts};
use crate::held_rows::HeldRows;
use crate::held_streams::HeldStream;
use crate::members::{WithoutMember, has_member};
use crate::named::Test;
use edge_face::Text;
use std::alloc::Global;

/// What is no member of a stream, nor a fold of one.
#[derive(Drop)]
pub(crate) struct Outside<'a> {
    pub(crate) stream: &'a HeldStream,
}

impl Test<HeldIndex> for Outside<'_> {
    ghost test = { λ outside index. not (spec.has_member outside.stream.now index.name) };

    fn holds(&self, index: &HeldIndex) -> bool {
        !has_member(self.stream, index.name.as_bytes())
    }
}

impl Test<HeldRows> for Outside<'_> {
    ghost test = { λ outside rows. not (spec.has_member outside.stream.now rows.name) };

    fn holds(&self, rows: &HeldRows) -> bool {
        !has_member(self.stream, rows.name.as_bytes())
    }
}

impl Test<TaskFacts> for Outside<'_> {
    ghost test = { λ outside task. not (spec.has_member outside.stream.now task.index) };

    fn holds(&self, task: &TaskFacts) -> bool {
        !has_member(self.stream, task.index.as_bytes())
    }
}

/// Folds of other indices than one.
#[derive(Drop)]
pub(crate) struct OfOthers<'a> {
    pub(crate) index: &'a [u8],
}

impl Test<TaskFacts> for OfOthers<'_> {
    ghost test = { λ others task. not (bytes_eq task.index others.index.now) };

    fn holds(&self, task: &TaskFacts) -> bool {
        task.index.as_bytes() != self.index
    }
}

impl CatalogFacts {
    /// A stream goes, with its members and the folds of them, and is handed back.
    pub(crate) fn take_stream(
        &mut self,
        alloc: Global,
        name: &Text,
    ) -> Result<Option<HeldStream>, CatalogError>
        ensures accepted { IfOk result (λ _. named_refusal self.old name.now ≡ None) }
        ensures stream { IfOk result (λ stream. stream ≡ stream_named name.now self.old.streams) }
        ensures ok { OnOk result (self.new ≡ facts_without_stream self.old name.now) }
        ensures refused { IfErr result (IsCause (named_refusal self.old name.now)) }
        ensures same { OnErr result (self.new ≡ self.old) }
    {
        self.check_stream(alloc, name)?;
        let Some(stream) = self.streams.take_out(name.as_bytes()) else {
            return Ok(None);
        };
        let outside = Outside { stream: &stream };
        self.indices.keep(&outside);
        keep_where(&mut self.tasks, &outside);
        Ok(Some(stream))
    }

    /// An index goes, out of its stream too, with the fold of it.
    pub(crate) fn delete_index(&mut self, alloc: Global, index: &Text) -> Result<(), CatalogError>
        ensures accepted { OnOk result (delete_refusal self.old index.now ≡ None) }
        ensures ok { OnOk result (self.new ≡ facts_without_index self.old index.now) }
        ensures refused { IfErr result (IsCause (delete_refusal self.old index.now)) }
        ensures same { OnErr result (self.new ≡ self.old) }
    {
        self.check_delete(alloc, index)?;
        let name = index.as_bytes();
        self.streams.change_each(&WithoutMember { name });
        self.indices.take_out(name);
        keep_where(&mut self.tasks, &OfOthers { index: name });
        Ok(())
    }
}
