//! Gauges of a series and a range of times, over lists and segments.
ghost use Rattle.std.specs.Prelude.{◌≡◌, ◌+◌, ◌^◌, ◌≤◌, ◌∷◌, []};
ghost use Rattle.fold_law.specs.Gauges.{merge_gauges, reach_of_gauge};
ghost use Rattle.fold_law.specs.Laws.{reach_of_items};
ghost use Rattle.row_cells.specs.Each.{Each};
ghost use Rattle.index_segment.specs.Looks.{IsGaugeAt, gauge_at as gauge_in, gauge_of as gauge_over, rows_within};
ghost use Rattle.tsds_index.specs.Segments.{lists_in};
ghost use Rattle.tsds_index.specs.Spread.{newest_first};

use crate::scans::stands_within;
use fold_law::{Fold, Gauge};
use index_segment::Segment;
use row_cells::{Key, Row, gauge_of};
use sqlite_items::at;

/// What a row has in a gauge.
fn gauge_at(row: &Row, field: u32) -> Gauge
    ensures { result ≡ gauge_in field row.now }
{
    match at(row.cells.as_slice(), field as usize) {
        Some(cell) => gauge_of(cell),
        None => Gauge(None),
    }
}

/// A gauge, with what a row has in it where the row is of a range.
fn with_row(total: Gauge, row: &Row, key: &Key, field: u32, from: i64, to: i64) -> Gauge
    requires { reach_of_gauge total + reach_of_gauge (gauge_in field row.now) ≤ 2 ^ 120 }
    ensures { result ≡ merge_gauges total (gauge_over field (rows_within key.now from to (row.now ∷ []))) }
{
    if stands_within(row, key, from, to) {
        total.merge(gauge_at(row, field))
    } else {
        total
    }
}

/// A gauge, with that of the rows of a range.
pub fn with_rows(total: Gauge, rows: &[Row], key: &Key, field: u32, from: i64, to: i64) -> Gauge
    requires { reach_of_gauge total + reach_of_items reach_of_gauge (gauge_in field) rows.now ≤ 2 ^ 120 }
    ensures { result ≡ merge_gauges total (gauge_over field (rows_within key.now from to rows.now)) }
{
    let mut joined = total;
    let mut left = rows;
    while let Some((row, rest)) = left.split_first() {
        joined = with_row(joined, row, key, field, from, to);
        left = rest;
    }
    joined
}

/// A gauge, with that of the rows of a range in segments. No row is made.
pub fn with_sealed(
    total: Gauge,
    segments: &[Segment],
    key: &Key,
    field: u32,
    from: i64,
    to: i64,
) -> Gauge
    requires fields { Each (λ segment. IsGaugeAt segment.schema.fields field) segments.now }
    requires room { reach_of_gauge total + reach_of_items reach_of_gauge (gauge_in field) (newest_first (lists_in segments.now)) ≤ 2 ^ 120 }
    ensures { result ≡ merge_gauges total (gauge_over field (rows_within key.now from to (newest_first (lists_in segments.now)))) }
{
    let mut joined = total;
    let mut left = segments;
    while let Some((segment, rest)) = left.split_first() {
        joined = joined.merge(segment.gauge(key, field, from, to));
        left = rest;
    }
    joined
}
