//! Folded rows of a series.
ghost use Rattle.std.specs.Prelude.{◌≡◌, IfOk};
ghost use Rattle.downsample_fold.specs.Direct.{down};
ghost use Rattle.row_cells.specs.Fitting.{folded_form};
ghost use Rattle.row_cells.specs.KeyedRows.{AreRowsOf};
ghost use Rattle.row_cells.specs.RowLists.{AllFit, documents};
ghost use Rattle.index_segment.specs.Looks.{rows_within};
ghost use Rattle.time_text.specs.Interval.{ms_of};
ghost use Rattle.tsds_index.specs.Spread.{rows_of};

use crate::index::TsdsIndex;
use downsample_fold::fold_all;
use edge_face::NoMemory;
use row_cells::{Key, Row, Schema};
use std::alloc::Global;
use time_text::Interval;

/// The direct fold of rows of an index.
fn fold_rows(
    alloc: Global,
    schema: &Schema,
    rows: &[Row],
    by: Interval,
) -> Result<Vec<Row>, NoMemory>
    requires { AreRowsOf schema.now rows.now }
    ensures folded { IfOk result (λ folded. folded.items ≡ down schema.now rows.now (ms_of by)) }
    ensures fit { IfOk result (λ folded. AllFit (folded_form schema.now) folded.items) }
    ensures counted { IfOk result (λ folded. documents folded.items ≡ documents rows.now) }
{
    let folded = fold_all(alloc, schema, rows, by)?;
    Ok(folded)
}

impl TsdsIndex {
    /// The direct fold, by buckets of an interval, of a series' rows from a time up to another, which isn't in it. Times
    /// are milliseconds since 1970. The rows of the range are made for it, whichever lists they stand in. The only error is
    /// a want of memory.
    pub fn fold_series(
        &self,
        alloc: Global,
        key: &Key,
        from: i64,
        to: i64,
        by: Interval,
    ) -> Result<Vec<Row>, NoMemory>
        ensures folded { IfOk result (λ folded. folded.items ≡ down self.now.schema (rows_within key.now from to (rows_of self.now)) (ms_of by)) }
        ensures fit { IfOk result (λ folded. AllFit (folded_form self.now.schema) folded.items) }
        ensures counted { IfOk result (λ folded. documents folded.items ≡ documents (rows_within key.now from to (rows_of self.now))) }
    {
        let rows = self.read_series(alloc, key, from, to)?;
        let folded = fold_rows(alloc, self.schema(), rows.as_slice(), by)?;
        Ok(folded)
    }
}
