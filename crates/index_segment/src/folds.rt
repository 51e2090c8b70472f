//! Folded rows of a segment.
ghost use Rattle.std.specs.Prelude.{◌≡◌, ◌<◌, [], length, slice_index_or, IfOk};

use crate::segment::Segment;
use downsample_fold::fold_all;
use edge_face::NoMemory;
use row_cells::Row;
use std::alloc::Global;
use time_text::Interval;

impl Segment {
    ghost use Rattle.downsample_fold.specs.Direct.{down};
    ghost use Rattle.index_segment.specs.Directory.{keys_of};
    ghost use Rattle.index_segment.specs.Looks.{rows_within};
    ghost use Rattle.time_text.specs.Interval.{ms_of};

    /// The direct fold of the rows of a series from a time up to another, which isn't in it, by buckets of an interval.
    /// Times are milliseconds since 1970. The rows of the range are made for it. The only error is a want of memory.
    pub fn fold_series(
        &self,
        alloc: Global,
        series: usize,
        from: i64,
        to: i64,
        by: Interval,
    ) -> Result<Vec<Row>, NoMemory>
        requires { series < length (keys_of self.now.rows) }
        ensures { IfOk result (λ folded. folded.items ≡ down self.now.schema (rows_within (slice_index_or (keys_of self.now.rows) series []) from to self.now.rows) (ms_of by)) }
    {
        let range = self.range(series, from, to);
        let rows = self.rows(alloc, range.first, range.last)?;
        let folded = fold_all(alloc, self.schema(), rows.as_slice(), by)?;
        Ok(folded)
    }
}
