//! Changes of facts. Each is refused, runs out of memory, or is made whole.
ghost use Rattle.std.specs.Prelude.{◌≡◌, None, Some, OnOk, OnErr, IfErr, refl};
ghost use Rattle.row_cells.specs.Each.{Each};
ghost use Rattle.ts_mapping.specs.Facts.{IsMapping, IsTemplate};
ghost use Rattle.stream_catalog.specs.FactChanges.{blocked_facts, facts_blocked, facts_with_life, facts_with_template, with_life};
ghost use Rattle.stream_catalog.specs.Indices.{block_refusal};
ghost use Rattle.stream_catalog.specs.Streams.{IsCause, named_refusal, template_refusal};

use crate::answers::CatalogError;
use crate::catalog_facts::CatalogFacts;
use crate::facts::HeldIndex;
use crate::held_streams::HeldStream;
use crate::named::Change;
use edge_face::Text;
use lifecycle_swap::Lifecycle;
use std::alloc::Global;
use ts_mapping::Template;

/// An index takes no documents any more.
#[derive(Drop)]
struct Block;

impl Change<HeldIndex> for Block {
    ghost changed = { λ _ index. blocked_facts index };

    fn apply(self, index: &mut HeldIndex) {
        index.blocked = true;
    }

    ghost keeps_name = { λ _ _. refl };
}

/// A stream has another lifecycle.
#[derive(Drop)]
struct SetLife {
    life: Lifecycle,
}

impl Change<HeldStream> for SetLife {
    ghost changed = { λ change stream. with_life change.life stream };

    fn apply(self, stream: &mut HeldStream) {
        let SetLife { life } = self;
        stream.life = Some(life);
    }

    ghost keeps_name = { λ _ _. refl };
}

impl CatalogFacts {
    /// Puts a template in, and lets go of the one of its name.
    pub(crate) fn put_template(
        &mut self,
        alloc: Global,
        template: Template,
    ) -> Result<(), CatalogError>
        requires template { IsTemplate template }
        requires indices { Each (λ i. IsMapping i.mapping) self.old.indices }
        ensures accepted { OnOk result (template_refusal self.old template ≡ None) }
        ensures ok { OnOk result (self.new ≡ facts_with_template self.old template) }
        ensures refused { IfErr result (IsCause (template_refusal self.old template)) }
        ensures same { OnErr result (self.new ≡ self.old) }
    {
        self.check_template(alloc, &template)?;
        self.templates.put(template)?;
        Ok(())
    }
    /// An index takes no documents any more.
    pub(crate) fn block(&mut self, alloc: Global, index: &Text) -> Result<(), CatalogError>
        ensures accepted { OnOk result (block_refusal self.old index.now ≡ None) }
        ensures ok { OnOk result (self.new ≡ facts_blocked self.old index.now) }
        ensures refused { IfErr result (IsCause (block_refusal self.old index.now)) }
        ensures same { OnErr result (self.new ≡ self.old) }
    {
        self.check_block(alloc, index)?;
        self.indices.change(index.as_bytes(), Block);
        Ok(())
    }

    /// A stream has another lifecycle.
    pub(crate) fn set_life(
        &mut self,
        alloc: Global,
        stream: &Text,
        life: Lifecycle,
    ) -> Result<(), CatalogError>
        ensures accepted { OnOk result (named_refusal self.old stream.now ≡ None) }
        ensures ok { OnOk result (self.new ≡ facts_with_life self.old stream.now life) }
        ensures refused { IfErr result (IsCause (named_refusal self.old stream.now)) }
        ensures same { OnErr result (self.new ≡ self.old) }
    {
        self.check_stream(alloc, stream)?;
        self.streams.change(stream.as_bytes(), SetLife { life });
        Ok(())
    }
}
