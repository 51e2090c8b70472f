//! The facts of a catalogue in memory: what it knows but for rows.
ghost use Rattle.std.specs.Prelude.{◌≡◌, [], bytes_eq, map};
ghost use Rattle.std.specs.List.{list_any};
ghost use Rattle.std.specs.Option.{is_some, option_copied};
ghost use Rattle.stream_catalog.specs.Lists.{facts_named, stream_named, template_named};
ghost use Rattle.stream_catalog.specs.Names.{is_taken};

use crate::by_name::ByName;
use crate::facts::{HeldIndex, TaskFacts};
use crate::held_streams::HeldStream;
use std::alloc::Global;
use std::marker::Model;
use ts_mapping::Template;

/// Templates, streams and indices by their names, and folds under way, the oldest first.
#[derive(Drop)]
pub(crate) struct CatalogFacts {
    pub(crate) templates: ByName<Template>,
    pub(crate) streams: ByName<HeldStream>,
    pub(crate) indices: ByName<HeldIndex>,
    pub(crate) tasks: Vec<TaskFacts>,
}

impl Model for CatalogFacts {
    ghost use Rattle.stream_catalog.specs.Plain.{PlainFacts};

    ghost Value = { PlainFacts };

    ghost view = { λ f. record { templates = f.templates; streams = f.streams; indices = f.indices; tasks = f.tasks.items } };
}

/// Whether a fold under way is going to have a name.
fn is_target(tasks: &[TaskFacts], name: &[u8]) -> bool
    ensures { result ≡ list_any (bytes_eq name.now) (map (λ t. t.target) tasks.now) }
{
    for task in tasks {
        if name == task.target.as_bytes() {
            return true;
        }
    }
    false
}

impl CatalogFacts {
    pub(crate) fn new(alloc: Global) -> CatalogFacts
        ensures { result ≡ record { templates = []; streams = []; indices = []; tasks = [] } }
    {
        CatalogFacts {
            templates: ByName::new(alloc),
            streams: ByName::new(alloc),
            indices: ByName::new(alloc),
            tasks: Vec::new(alloc),
        }
    }

    /// The template of a name.
    pub(crate) fn template(&self, name: &[u8]) -> Option<&Template>
        ensures { option_copied result ≡ template_named name.now self.now.templates }
    {
        self.templates.find(name)
    }

    /// The stream of a name.
    pub(crate) fn stream(&self, name: &[u8]) -> Option<&HeldStream>
        ensures { option_copied result ≡ stream_named name.now self.now.streams }
    {
        self.streams.find(name)
    }

    /// The index of a name.
    pub(crate) fn index(&self, name: &[u8]) -> Option<&HeldIndex>
        ensures { option_copied result ≡ facts_named name.now self.now.indices }
    {
        self.indices.find(name)
    }

    /// All templates, by their names.
    pub(crate) fn all_templates(&self) -> &[Template]
        ensures { result.now ≡ self.now.templates }
    {
        self.templates.as_slice()
    }

    /// All streams, by their names.
    pub(crate) fn all_streams(&self) -> &[HeldStream]
        ensures { result.now ≡ self.now.streams }
    {
        self.streams.as_slice()
    }

    /// All indices, by their names.
    pub(crate) fn all_indices(&self) -> &[HeldIndex]
        ensures { result.now ≡ self.now.indices }
    {
        self.indices.as_slice()
    }

    /// All folds under way, the oldest first.
    pub(crate) fn all_tasks(&self) -> &[TaskFacts]
        ensures { result.now ≡ self.now.tasks }
    {
        self.tasks.as_slice()
    }

    /// Whether there is a template of a name.
    pub(crate) fn has_template(&self, name: &[u8]) -> bool
        ensures { result ≡ is_some (template_named name.now self.now.templates) }
    {
        match self.template(name) {
            Some(_) => true,
            None => false,
        }
    }

    fn has_stream(&self, name: &[u8]) -> bool
        ensures { result ≡ is_some (stream_named name.now self.now.streams) }
    {
        match self.stream(name) {
            Some(_) => true,
            None => false,
        }
    }

    fn has_index(&self, name: &[u8]) -> bool
        ensures { result ≡ is_some (facts_named name.now self.now.indices) }
    {
        match self.index(name) {
            Some(_) => true,
            None => false,
        }
    }

    /// Whether a stream, an index or a fold under way has a name.
    pub(crate) fn is_taken(&self, name: &[u8]) -> bool
        ensures { result ≡ is_taken name.now self.now }
    {
        if self.has_stream(name) {
            return true;
        }
        if self.has_index(name) {
            return true;
        }
        is_target(self.all_tasks(), name)
    }
}
