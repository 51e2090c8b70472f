//! Streams and indices that go out of a catalogue, with their rows.
ghost use Rattle.std.specs.Prelude.{◌≡◌, None, OnOk, OnErr, IfErr};
ghost use Rattle.stream_catalog.specs.Indices.{delete_refusal, index_deleted};
ghost use Rattle.stream_catalog.specs.Plain.{facts_of};
ghost use Rattle.stream_catalog.specs.Streams.{IsCause, named_refusal, stream_deleted};

use crate::answers::CatalogError;
use crate::catalog::Catalog;
use crate::removals::Outside;
use edge_face::Text;
use std::alloc::Global;

impl Catalog {
    /// A stream goes, with its members, their rows and the folds of them.
    pub fn delete_stream(&mut self, alloc: Global, name: &Text) -> Result<(), CatalogError>
        ensures accepted { OnOk result (named_refusal (facts_of self.old) name.now ≡ None) }
        ensures ok { OnOk result (self.new ≡ stream_deleted self.old name.now) }
        ensures refused { IfErr result (IsCause (named_refusal (facts_of self.old) name.now)) }
        ensures same { OnErr result (self.new ≡ self.old) }
    {
        match self.facts.take_stream(alloc, name) {
            Ok(Some(stream)) => {
                self.rows.keep(&Outside { stream: &stream });
                Ok(())
            }
            Ok(None) => Ok(()),
            Err(error) => Err(error),
        }
    }

    /// An index goes, out of its stream too, with its rows and the fold of it.
    pub fn delete_index(&mut self, alloc: Global, index: &Text) -> Result<(), CatalogError>
        ensures accepted { OnOk result (delete_refusal (facts_of self.old) index.now ≡ None) }
        ensures ok { OnOk result (self.new ≡ index_deleted self.old index.now) }
        ensures refused { IfErr result (IsCause (delete_refusal (facts_of self.old) index.now)) }
        ensures same { OnErr result (self.new ≡ self.old) }
    {
        self.facts.delete_index(alloc, index)?;
        self.rows.take_out(index.as_bytes());
        Ok(())
    }
}
