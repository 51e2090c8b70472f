//! The catalogue in memory: its facts, and the rows of each index.
ghost use Rattle.std.specs.Prelude.{◌≡◌, []};
ghost use Rattle.std.specs.Option.{option_copied};
ghost use Rattle.stream_catalog.specs.Calls.{AreItsRows};
ghost use Rattle.stream_catalog.specs.Lists.{facts_named, index_named, stream_named, template_named};
ghost use Rattle.stream_catalog.specs.Plain.{facts_of};
ghost use Rattle.stream_catalog.specs.Sound.{IsSeenCatalog};

use crate::by_name::ByName;
use crate::catalog_facts::CatalogFacts;
use crate::facts::{HeldIndex, TaskFacts};
use crate::held_rows::HeldRows;
use crate::held_streams::HeldStream;
use edge_face::Text;
use std::alloc::Global;
use std::marker::Model;
use ts_mapping::Template;
use tsds_index::TsdsIndex;

/// Templates, streams, indices with their rows, and folds under way. It holds of each index what is seen of it: its rows, or their
/// fold.
#[derive(Drop)]
pub struct Catalog {
    pub(crate) facts: CatalogFacts,
    /// In the order of the indices among the facts.
    pub(crate) rows: ByName<HeldRows>,
}

impl Model for Catalog {
    ghost use Rattle.stream_catalog.specs.Beside.{catalog_of, IsHeldCatalog};
    ghost use Rattle.stream_catalog.specs.Plain.{PlainCatalog};

    ghost Value = { PlainCatalog };

    ghost view = { λ c. catalog_of c.facts c.rows };

    ghost invariant = { λ c. IsHeldCatalog c.facts c.rows };
}

impl Catalog {
    /// A catalogue without anything. It takes no memory.
    pub fn new(alloc: Global) -> Catalog
        ensures { result ≡ record { templates = []; streams = []; indices = []; tasks = [] } }
    {
        Catalog {
            facts: CatalogFacts::new(alloc),
            rows: ByName::new(alloc),
        }
    }

    /// What is known of each catalogue in memory: it is sound, and seen again itself.
    pub fn holds(&self)
        ensures { IsSeenCatalog self.now }
    {
        let _facts = &self.facts;
    }

    /// The template of a name.
    pub fn template(&self, name: &Text) -> Option<&Template>
        ensures { option_copied result ≡ template_named name.now self.now.templates }
    {
        self.facts.template(name.as_bytes())
    }

    /// The stream of a name.
    pub fn stream(&self, name: &Text) -> Option<&HeldStream>
        ensures { option_copied result ≡ stream_named name.now self.now.streams }
    {
        self.facts.stream(name.as_bytes())
    }

    /// The index of a name, but for its rows.
    pub fn index_facts(&self, name: &Text) -> Option<&HeldIndex>
        ensures { option_copied result ≡ facts_named name.now (facts_of self.now).indices }
    {
        self.facts.index(name.as_bytes())
    }

    /// The rows of the index of a name.
    pub fn index(&self, name: &Text) -> Option<&TsdsIndex>
        ensures { AreItsRows (index_named name.now self.now.indices) (option_copied result) }
    {
        match self.rows.find(name.as_bytes()) {
            Some(rows) => Some(&rows.index),
            None => None,
        }
    }

    /// The folds under way, the oldest first.
    pub fn tasks(&self) -> &[TaskFacts]
        ensures { result.now ≡ self.now.tasks }
    {
        self.facts.all_tasks()
    }
}
