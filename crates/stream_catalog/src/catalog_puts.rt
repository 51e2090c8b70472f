//! Rows that are put into indices of a catalogue.
ghost use Rattle.std.specs.Prelude.{◌≡◌, None, IfErr, OnOk, OnErr};
ghost use Rattle.stream_catalog.specs.Calls.{HasIndexFor, IsPutCause, put_refusal};
ghost use Rattle.stream_catalog.specs.Lists.{index_named};
ghost use Rattle.stream_catalog.specs.Puts.{put_into};
ghost use Rattle.stream_catalog.specs.Ways.{seen_way};

use crate::catalog::Catalog;
use edge_face::Text;
use row_cells::Row;
use std::alloc::Global;
use tsds_index::PutError;

impl Catalog {
    /// Puts a row into the index of a name, which takes documents, and whose window has the row's time. The row is of the index's
    /// schema, which isn't folded.
    pub fn put(&mut self, alloc: Global, index: &Text, row: &Row) -> Result<(), PutError>
        requires { HasIndexFor row.now (index_named index.now self.old.indices) }
        ensures accepted { OnOk result (put_refusal self.old index.now row.now ≡ None) }
        ensures ok { OnOk result (self.new ≡ put_into seen_way self.old index.now row.now) }
        ensures refused { IfErr result (IsPutCause (put_refusal self.old index.now row.now)) }
        ensures same { OnErr result (self.new ≡ self.old) }
    {
        self.rows.put_row(alloc, index.as_bytes(), row)?;
        Ok(())
    }
}
