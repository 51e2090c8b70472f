//! New write indices of a catalogue's streams.
ghost use Rattle.std.specs.Prelude.{◌≡◌, None, IfOk, OnOk, OnErr, IfErr};
ghost use Rattle.time_text.specs.Instant.{IsInstant};
ghost use Rattle.stream_catalog.specs.NewRows.{IsForNext};
ghost use Rattle.stream_catalog.specs.Plain.{facts_of};
ghost use Rattle.stream_catalog.specs.Sound.{AreFactsSound};
ghost use Rattle.stream_catalog.specs.Streams.{IsCause, rolled_names, rolled_over, rollover_refusal};

use crate::answers::{CatalogError, Rolled};
use crate::catalog::Catalog;
use crate::catalog_facts::CatalogFacts;
use crate::held_rows::{HeldRows, no_rows};
use crate::refusals::Rolling;
use edge_face::Text;
use std::alloc::Global;

impl CatalogFacts {
    /// No rows, for the next write index of a stream, or what refuses it.
    fn next_rows(&self, alloc: Global, name: &Text, now: i64) -> Result<HeldRows, CatalogError>
        requires now { IsInstant now }
        requires sound { AreFactsSound self.now }
        ensures accepted { IfOk result (λ _. rollover_refusal self.now name.now now ≡ None) }
        ensures next { IfOk result (IsForNext self.now name.now now) }
        ensures refused { IfErr result (IsCause (rollover_refusal self.now name.now now)) }
    {
        let Rolling { stream, rolled, .. } = match self.check_rollover(alloc, name, now) {
            Ok(rolling) => rolling,
            Err(error) => return Err(error),
        };
        let Some(template) = self.template(stream.facts.template.as_bytes()) else {
            unreachable!()
        };
        let rows = no_rows(alloc, &rolled.new, &template.schema, template.shards)?;
        Ok(rows)
    }
}

impl Catalog {
    /// Gives a stream a new write index, which has no rows, by the template of its name. Its window begins where that of the one
    /// before it ends. Answers the names of both.
    pub fn rollover(
        &mut self,
        alloc: Global,
        stream: &Text,
        now: i64,
    ) -> Result<Rolled, CatalogError>
        requires { IsInstant now }
        ensures accepted { IfOk result (λ _. rollover_refusal (facts_of self.old) stream.now now ≡ None) }
        ensures ok { OnOk result (self.new ≡ rolled_over self.old stream.now now) }
        ensures names { IfOk result (λ rolled. rolled ≡ rolled_names (facts_of self.old) stream.now now) }
        ensures refused { IfErr result (IsCause (rollover_refusal (facts_of self.old) stream.now now)) }
        ensures same { OnErr result (self.new ≡ self.old) }
    {
        let rows = match self.facts.next_rows(alloc, stream, now) {
            Ok(rows) => rows,
            Err(error) => return Err(error),
        };
        let next = rows.name.copy(alloc)?;
        self.rows.put(rows)?;
        match self.facts.roll_over(alloc, stream, now) {
            Ok(rolled) => Ok(rolled),
            Err(error) => {
                self.rows.take_out(next.as_bytes());
                Err(error)
            }
        }
    }
}
