//! The direct fold of rows in row order, in one pass.
ghost use Rattle.std.specs.Prelude.{◌≡◌, ◌≤◌, IfOk};
ghost use Rattle.row_cells.specs.Fitting.{folded_form};
ghost use Rattle.row_cells.specs.Limits.{most_documents};
ghost use Rattle.row_cells.specs.RowLists.{AllFit, AreInRowOrder, documents};
ghost use Rattle.time_text.specs.Interval.{ms_of};
ghost use Rattle.downsample_fold.specs.Direct.{down};
ghost use Rattle.downsample_fold.specs.Joined.{joined};

use crate::runs::{fold_run, run_length};
use edge_face::NoMemory;
use row_cells::{Row, Schema};
use std::alloc::Global;
use time_text::Interval;

/// Folds run after run: the rows of a place are neighbours.
fn fold_runs(
    alloc: Global,
    schema: &Schema,
    rows: &[Row],
    by: Interval,
) -> Result<Vec<Row>, NoMemory>
    requires fit { AllFit schema.now rows.now }
    requires few { documents rows.now ≤ most_documents }
    ensures { IfOk result (λ folded. folded.items ≡ joined schema.now (ms_of by) rows.now) }
{
    let mut folded = Vec::new(alloc);
    let mut rest = rows;
    while let Some(first) = rest.first() {
        let (run, later) = rest.split_at(run_length(rest, first, by));
        folded.push(fold_run(alloc, schema, run, first, by)?)?;
        rest = later;
    }
    Ok(folded)
}

/// The direct fold of rows in row order by an interval: each series and bucket once, in row order, made of the
/// rows of that series and bucket alone. The rows may be documents or folds, and the result fits the folded
/// form of the schema.
pub fn fold_all(
    alloc: Global,
    schema: &Schema,
    rows: &[Row],
    by: Interval,
) -> Result<Vec<Row>, NoMemory>
    requires fit { AllFit schema.now rows.now }
    requires in_order { AreInRowOrder rows.now }
    requires few { documents rows.now ≤ most_documents }
    ensures folded { IfOk result (λ folded. folded.items ≡ down schema.now rows.now (ms_of by)) }
    ensures fit { IfOk result (λ folded. AllFit (folded_form schema.now) folded.items) }
    ensures in_order { IfOk result (λ folded. AreInRowOrder folded.items) }
    ensures counted { IfOk result (λ folded. documents folded.items ≡ documents rows.now) }
{
    let folded = fold_runs(alloc, schema, rows, by)?;
    Ok(folded)
}
