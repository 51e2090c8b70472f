//! The direct fold of rows into buckets of time, and that folding in rounds is folding once.
#![tactic(auto)]

mod columns;
mod folding;
mod intervals;
mod laws;
mod runs;

pub use folding::fold_all;
pub use intervals::{IntervalError, check_interval};
pub use laws::{
    fold_of_some_places, fold_of_some_series, folds_are_rows, folds_compose, folds_in_any_order,
    folds_join_apart, folds_join_series, folds_keep_rows, folds_keep_series, folds_keep_tested,
    folds_keep_totals, folds_settle, folds_widen, measures_are_folded, merges_are_folds,
};
