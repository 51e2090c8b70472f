//! Rows that are put among the rows of an index.
ghost use Rattle.std.specs.Prelude.{◌≡◌, None, false, IfErr, OnOk, OnErr};
ghost use Rattle.row_cells.specs.KeyedRows.{IsRowOf};
ghost use Rattle.row_cells.specs.RowLists.{insert_row};
ghost use Rattle.tsds_index.specs.Spread.{rows_of};
ghost use Rattle.stream_catalog.specs.Beside.{rows_name};
ghost use Rattle.stream_catalog.specs.Calls.{IsPutCause, rows_refusal};
ghost use Rattle.stream_catalog.specs.Lists.{found_by};
ghost use Rattle.stream_catalog.specs.RowChanges.{AreChanged, IsChange, IsOfRaw, held_refusal};

use crate::by_name::{ByName, search};
use crate::held_rows::HeldRows;
use row_cells::Row;
use std::alloc::Global;
use tsds_index::PutError;

impl HeldRows {
    /// Puts a row among rows that aren't folded.
    fn put(&mut self, alloc: Global, row: &Row) -> Result<(), PutError>
        requires row { IsRowOf self.old.index.schema row.now }
        requires raw { self.old.index.schema.folded ≡ false }
        ensures accepted { OnOk result (rows_refusal (rows_of self.old.index) row.now ≡ None) }
        ensures ok { OnOk result (IsChange (insert_row row.now) self.old self.new) }
        ensures refused { IfErr result (IsPutCause (rows_refusal (rows_of self.old.index) row.now)) }
        ensures same { OnErr result (IsChange (λ rows. rows) self.old self.new) }
    {
        match self.index.put(alloc, row) {
            Ok(()) => Ok(()),
            Err(error) => Err(error),
        }
    }
}

impl ByName<HeldRows> {
    /// Puts a row among the rows of a name, which aren't folded.
    pub(crate) fn put_row(&mut self, alloc: Global, name: &[u8], row: &Row) -> Result<(), PutError>
        requires { IsOfRaw row.now (found_by rows_name name.now self.old) }
        ensures accepted { OnOk result (held_refusal self.old name.now row.now ≡ None) }
        ensures ok { OnOk result (AreChanged name.now (insert_row row.now) self.old self.new) }
        ensures refused { IfErr result (IsPutCause (held_refusal self.old name.now row.now)) }
        ensures same { OnErr result (AreChanged name.now (λ rows. rows) self.old self.new) }
    {
        match search(self.items.as_slice(), name) {
            Ok(at) => {
                self.items[at].put(alloc, row)?;
                Ok(())
            }
            Err(_) => Ok(()),
        }
    }
}
