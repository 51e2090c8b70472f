//! Changes of a catalogue that leave which indices there are.
ghost use Rattle.std.specs.Prelude.{◌≡◌, None, OnOk, OnErr, IfErr};
ghost use Rattle.lifecycle_swap.specs.Lifecycles.{IsLifecycle};
ghost use Rattle.ts_mapping.specs.Facts.{IsTemplate};
ghost use Rattle.stream_catalog.specs.Indices.{block_refusal, blocked_in};
ghost use Rattle.stream_catalog.specs.Moves.{moved_all, moves_refusal};
ghost use Rattle.stream_catalog.specs.Plain.{facts_of};
ghost use Rattle.stream_catalog.specs.Streams.{IsCause, life_set, named_refusal, template_put, template_refusal};

use crate::answers::{CatalogError, Move};
use crate::catalog::Catalog;
use edge_face::Text;
use lifecycle_swap::Lifecycle;
use std::alloc::Global;
use ts_mapping::Template;

impl Catalog {
    /// Puts a template in, and lets go of the one of its name. Indices that were made keep their mappings.
    pub fn put_template(&mut self, alloc: Global, template: Template) -> Result<(), CatalogError>
        requires { IsTemplate template }
        ensures accepted { OnOk result (template_refusal (facts_of self.old) template ≡ None) }
        ensures ok { OnOk result (self.new ≡ template_put self.old template) }
        ensures refused { IfErr result (IsCause (template_refusal (facts_of self.old) template)) }
        ensures same { OnErr result (self.new ≡ self.old) }
    {
        self.facts.put_template(alloc, template)?;
        Ok(())
    }

    /// A stream has another lifecycle.
    pub fn set_lifecycle(
        &mut self,
        alloc: Global,
        stream: &Text,
        life: Lifecycle,
    ) -> Result<(), CatalogError>
        requires { IsLifecycle life }
        ensures accepted { OnOk result (named_refusal (facts_of self.old) stream.now ≡ None) }
        ensures ok { OnOk result (self.new ≡ life_set self.old stream.now life) }
        ensures refused { IfErr result (IsCause (named_refusal (facts_of self.old) stream.now)) }
        ensures same { OnErr result (self.new ≡ self.old) }
    {
        self.facts.set_life(alloc, stream, life)?;
        Ok(())
    }

    /// An index takes no documents any more, also where it took none.
    pub fn block(&mut self, alloc: Global, index: &Text) -> Result<(), CatalogError>
        ensures accepted { OnOk result (block_refusal (facts_of self.old) index.now ≡ None) }
        ensures ok { OnOk result (self.new ≡ blocked_in self.old index.now) }
        ensures refused { IfErr result (IsCause (block_refusal (facts_of self.old) index.now)) }
        ensures same { OnErr result (self.new ≡ self.old) }
    {
        self.facts.block(alloc, index)?;
        Ok(())
    }

    /// Takes members out of streams and puts others in, each move after those before it: all of them, or none. A member that is
    /// taken out has no fold under way any more.
    pub fn modify(&mut self, alloc: Global, moves: &[Move]) -> Result<(), CatalogError>
        ensures accepted { OnOk result (moves_refusal (facts_of self.old) moves.now ≡ None) }
        ensures ok { OnOk result (self.new ≡ moved_all self.old moves.now) }
        ensures refused { IfErr result (IsCause (moves_refusal (facts_of self.old) moves.now)) }
        ensures same { OnErr result (self.new ≡ self.old) }
    {
        self.facts.modify(alloc, moves)?;
        Ok(())
    }
}
