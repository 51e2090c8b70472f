//! What holds of the direct fold, for the layers that fold series by series and in rounds.
ghost use Rattle.downsample_fold.specs.Laws.{FoldsCompose, FoldsSorted, FoldsAnyOrder, FoldsSomeSeries, FoldsJoinSeries, FoldsJoinFirst, FoldsJoinNext, SeriesAscend};
ghost use Rattle.downsample_fold.specs.Laws.{FoldsInOrder, FoldsAtStarts, FoldsFit, FoldsCountAll};
ghost use Rattle.downsample_fold.specs.Laws.{BucketInFront, FoldsAnyForm, FoldsAreRows, FoldsJoinApart, FoldsJoinPlaces, FoldsKeepDimensions, FoldsKeepSeries, FoldsSettle, FoldsSomePlaces, FoldsTested, FoldsWiden, MergesAreFolds, RowsJoinSeries};
ghost use Rattle.downsample_fold.specs.Measures.{CellsAreFolded, CountsAreFolded, FoldsAtFields, FoldsKeepRises, GaugesAreFolded, RisesAreFolded};
ghost use Rattle.downsample_fold.specs.Totals.{FoldsKeepDimension, FoldsKeepTested, FoldsKeepTotals, KeysAreFolded};

use fold_law::Fold;

/// Folding in rounds is folding once: where one interval divides another, the fold by the greater of the fold
/// by the lesser is the fold by the greater.
pub fn folds_compose()
    ensures { FoldsCompose }
{}

/// The order in which rows come doesn't matter.
pub fn folds_in_any_order()
    ensures sorted { FoldsSorted }
    ensures any { FoldsAnyOrder }
{}

/// The fold of the rows of some series has exactly the fold's rows of these series.
pub fn fold_of_some_series()
    ensures { FoldsSomeSeries }
{}

/// Likewise the fold of the rows of some places, and a test that is one over each place and its fold goes inside.
pub fn fold_of_some_places()
    ensures places { FoldsSomePlaces }
    ensures tested { FoldsTested }
{}

/// Folding commutes with widening.
pub fn folds_widen()
    ensures { FoldsWiden }
{}

/// A fold is the join of the folds of its series, and that of the first series is the join of theirs.
pub fn folds_join_series()
    ensures ascending { SeriesAscend }
    ensures all { FoldsJoinSeries }
    ensures first { FoldsJoinFirst }
    ensures next { FoldsJoinNext }
{}

/// What a fold sums up over rows is the same over their fold, for each test of series and of buckets' starts:
/// of rows in any rounds of folding a search by whole buckets answers what it would of the rows themselves.
pub fn folds_keep_totals<F: Fold>()
    ensures { FoldsKeepTotals F.none F.merge }
{}

/// So it does for each test of rows that is one over the rows of a place and their fold, as that of a query is on dimensions.
/// Where a value joined with itself stays, as a least or a greatest, what keys tell is summed up so, and over rows of an
/// index what the cells of a dimension tell.
pub fn folds_keep_tested<F: Fold>()
    ensures tested { FoldsKeepTested F.none F.merge }
    ensures keys { KeysAreFolded F.merge }
    ensures dimensions { FoldsKeepDimension F.none F.merge }
{}

/// Such values are the number of documents, a gauge, the rise of a counter in a schema that rises, and the cell of any
/// field; so the rise of a series' folds in order is that of its rows. The cell of a fold is the fold of its column.
pub fn measures_are_folded()
    ensures counts { CountsAreFolded }
    ensures gauges { GaugesAreFolded }
    ensures rises { RisesAreFolded }
    ensures cells { CellsAreFolded }
    ensures columns { FoldsAtFields }
    ensures series { FoldsKeepRises }
{}

/// A fold is in row order with each series and bucket once, at the start of the bucket, fits the folded form
/// of the schema, and stands for as many documents.
pub fn folds_keep_rows()
    ensures in_order { FoldsInOrder }
    ensures at_starts { FoldsAtStarts }
    ensures fit { FoldsFit }
    ensures counted { FoldsCountAll }
{}

/// A fold of what is folded already stays, and a fold doesn't ask whether its rows were folded.
pub fn folds_settle()
    ensures settled { FoldsSettle }
    ensures form { FoldsAnyForm }
{}

/// A fold has the series of its rows, with their dimensions, and rows in row order are the join of their series.
pub fn folds_keep_series()
    ensures series { FoldsKeepSeries }
    ensures dimensions { FoldsKeepDimensions }
    ensures rows { RowsJoinSeries }
{}

/// Rows that lie apart fold apart: series that stand before others, lists without a series and bucket in common, as those of
/// two shards or of two segments of other buckets, and one bucket in front of other places.
pub fn folds_join_apart()
    ensures series { FoldsJoinApart }
    ensures places { FoldsJoinPlaces }
    ensures bucket { BucketInFront }
{}

/// Folds of rows of an index may stand in an index: they have its keys, and short lists.
pub fn folds_are_rows()
    ensures { FoldsAreRows }
{}

/// The merge of two rows of one series and bucket is their direct fold.
pub fn merges_are_folds()
    ensures { MergesAreFolds }
{}
