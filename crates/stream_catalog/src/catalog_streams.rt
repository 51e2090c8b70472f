//! Streams that are made in a catalogue, with their first indices.
ghost use Rattle.std.specs.Prelude.{◌≡◌, [], None, IfOk, OnOk, OnErr, IfErr};
ghost use Rattle.row_cells.specs.Each.{Each};
ghost use Rattle.time_text.specs.Instant.{IsInstant};
ghost use Rattle.ts_mapping.specs.Facts.{IsTemplate};
ghost use Rattle.tsds_index.specs.Spread.{rows_of};
ghost use Rattle.stream_catalog.specs.Calls.{IsOfTemplate};
ghost use Rattle.stream_catalog.specs.Names.{template_for};
ghost use Rattle.stream_catalog.specs.Plain.{facts_of};
ghost use Rattle.stream_catalog.specs.Streams.{IsCause, create_refusal, created, first_name};

use crate::answers::CatalogError;
use crate::catalog::Catalog;
use crate::catalog_facts::CatalogFacts;
use crate::held_rows::{HeldRows, no_rows};
use crate::refusals::Creation;
use edge_face::Text;
use std::alloc::Global;

impl CatalogFacts {
    /// No rows, for the first index of a stream that is to be made, or what refuses it.
    fn first_rows(&self, alloc: Global, name: &Text, now: i64) -> Result<HeldRows, CatalogError>
        requires now { IsInstant now }
        requires templates { Each IsTemplate self.now.templates }
        ensures accepted { IfOk result (λ _. create_refusal self.now name.now now ≡ None) }
        ensures name { IfOk result (λ rows. rows.name ≡ first_name name.now now) }
        ensures schema { IfOk result (λ rows. IsOfTemplate rows.index.schema (template_for name.now self.now.templates)) }
        ensures empty { IfOk result (λ rows. rows_of rows.index ≡ []) }
        ensures refused { IfErr result (IsCause (create_refusal self.now name.now now)) }
    {
        let Creation { template, first } = match self.check_create(alloc, name, now) {
            Ok(creation) => creation,
            Err(error) => return Err(error),
        };
        let rows = no_rows(alloc, &first, &template.schema, template.shards)?;
        Ok(rows)
    }
}

impl Catalog {
    /// Makes a stream with its first index, which has no rows, by the template that goes first of those that match.
    pub fn create_stream(
        &mut self,
        alloc: Global,
        name: &Text,
        now: i64,
    ) -> Result<(), CatalogError>
        requires { IsInstant now }
        ensures accepted { OnOk result (create_refusal (facts_of self.old) name.now now ≡ None) }
        ensures ok { OnOk result (self.new ≡ created self.old name.now now) }
        ensures refused { IfErr result (IsCause (create_refusal (facts_of self.old) name.now now)) }
        ensures same { OnErr result (self.new ≡ self.old) }
    {
        let rows = match self.facts.first_rows(alloc, name, now) {
            Ok(rows) => rows,
            Err(error) => return Err(error),
        };
        let first = rows.name.copy(alloc)?;
        self.rows.put(rows)?;
        match self.facts.create(alloc, name, now) {
            Ok(()) => Ok(()),
            Err(error) => {
                self.rows.take_out(first.as_bytes());
                Err(error)
            }
        }
    }
}
