//! Laws, as calls without effect: the limit, and what holds for the layers that fold rows before they offer them.
ghost use Rattle.std.specs.Prelude.{◌≡◌, ℕ, true, List, [], ◌∷◌, ◌++◌};
ghost use Rattle.downsample_fold.specs.Columns.{cell_of};
ghost use Rattle.row_cells.specs.declared.schemas.Role.{Role};
ghost use Rattle.histogram_aggs.specs.declared.aggs.AggKind.{AggKind};
ghost use Rattle.histogram_aggs.specs.Laws.{AggsAlike, AlikeAppend, AlikeChosen, AlikeDown, AlikeInOrder, AlikeWiden, AlikeWider, IndicesAgree, QueriedAlike};
ghost use Rattle.histogram_aggs.specs.Limits.{most_buckets};
ghost use Rattle.histogram_aggs.specs.Metrics.{metric_by};
ghost use Rattle.histogram_aggs.specs.Samples.{Sample};
ghost use Rattle.histogram_aggs.specs.Tallies.{both_tallies, is_measure, tally_by, tally_over, told};
ghost use Rattle.histogram_aggs.specs.declared.limits.TheConstants.{MOST_BUCKETS};

/// The constant is the limit of the definitions.
pub fn limits_are_told()
    ensures { MOST_BUCKETS ≡ most_buckets }
{}

/// Aggregations by series and whole buckets answer lists that are alike with the same.
pub fn aggs_alike()
    ensures { AggsAlike }
{}

/// Rows are alike their fold, and alike whatever is sorted alike. Lists that are alike may be tested by series and
/// bucket, joined, seen by wider buckets, and stand beside the fields of a wider schema.
pub fn alike_lists()
    ensures down { AlikeDown }
    ensures in_order { AlikeInOrder }
    ensures chosen { AlikeChosen }
    ensures joined { AlikeAppend }
    ensures wider { AlikeWider }
    ensures widened { AlikeWiden }
{}

/// Of an index that is shown folded, a query by series and whole buckets takes what is alike the rows that it takes of
/// the index itself; and over several indices, each alike in two ways, aggregations answer the same in both.
pub fn indices_agree()
    ensures queried { QueriedAlike }
    ensures agree { IndicesAgree }
{}

/// The metric of two lists one behind the other is that of both, that of one row is the one of its time and cell, and
/// what is told of it is what the kind asks of the rows.
pub fn tallies_are_metrics()
    ensures joined { (kind : AggKind) (role : Role) (place : ℕ) (xs ys : List Sample) → tally_over kind role place (xs ++ ys) ≡ both_tallies (tally_over kind role place xs) (tally_over kind role place ys) }
    ensures single { (kind : AggKind) (role : Role) (place : ℕ) (s : Sample) → tally_over kind role place (s ∷ []) ≡ tally_by kind role s.row.time (cell_of place s.row) }
    ensures told { (kind : AggKind) (role : Role) (place : ℕ) (xs : List Sample) → is_measure kind ≡ true → told kind (tally_over kind role place xs) ≡ metric_by kind role place xs }
{}
