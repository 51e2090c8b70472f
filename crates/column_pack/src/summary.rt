//! The least, the greatest and the sum of a block's values, without a list of them.

ghost use Rattle.std.specs.Prelude.{◌≡◌, ℕ, ℤ, pos, ◌+ℤ◌, ◌+◌, ◌*◌, ◌^◌, ◌<◌, ◌≤◌, List, length, sum, All, Contains, IfOk, IsOkAnd, OnErr};
ghost use Rattle.column_pack.specs.Block.{IsBlock, IsBlockOf, walk, turned, start_of, counted, places_of};
ghost use Rattle.column_pack.specs.Parts.{block_with, numbers_of, heights, IsSound};
ghost use Rattle.column_pack.specs.Spread.{IsMeasure};
ghost use Rattle.column_pack.specs.Summary.{IsSummary};
ghost use Rattle.column_pack.specs.Span.{IsSpan};

use crate::parts::{Header, Kind};
use crate::places::{turn, value_at};
use crate::sound::counted_of;
use crate::unpack::{BadBlock, read_block};
use crate::values::{start_at, walk_total};

/// What is known of a block's values without a list of them.
#[derive(Clone, Copy, Debug, PartialEq, Eq)]
pub struct Summary {
    pub n: u32,
    pub min: i64,
    pub max: i64,
    pub sum: i128,
}

/// What is known of the residuals that count.
#[derive(Clone, Copy, Debug)]
pub struct Measure {
    pub greatest: u64,
    pub total: u128,
}

/// The number, the least, the greatest and the sum of a block's values. Where no residual has a bit this takes the
/// same time for any number of values.
pub fn block_min_max_sum(bytes: &[u8]) -> Result<Summary, BadBlock>
    ensures ok { IfOk result (λ s. (vs : List ℤ) × IsBlock vs bytes.now × IsSummary vs s) }
    ensures bad { OnErr result ((vs : List ℤ) → IsBlock vs bytes.now → ⊥) }
    ensures values { (vs : List ℤ) → IsBlock vs bytes.now → IsOkAnd result (IsSummary vs) }
{
    let mut residuals = [0u64; 128];
    match read_block(bytes, &mut residuals) {
        Ok(fields) => {
            let measure = Measure {
                greatest: fields.spread.greatest,
                total: fields.spread.total,
            };
            Ok(summary_of(&fields.header, &residuals[..fields.count], &measure))
        }
        Err(bad) => Err(bad),
    }
}

/// The summary of the values of a block.
pub fn summary_of(header: &Header, residuals: &[u64], spread: &Measure) -> Summary
    requires sound { IsSound (block_with header.now residuals.now) }
    requires spread { IsMeasure (counted header.now.kind residuals.now) spread.now }
    ensures { (vs : List ℤ) → IsBlockOf vs (block_with header.now residuals.now) → IsSummary vs result }
{
    let span = span_of(header, residuals, spread);
    let count = residuals.len();
    Summary {
        n: count as u32,
        min: value_at(Kind::Plain, span.least),
        max: value_at(Kind::Plain, span.greatest),
        sum: sum_of(span.total, count),
    }
}

/// The sum of some values by that of their heights.
fn sum_of(total: u128, count: usize) -> i128
    requires total { total ≤ 128 * 2 ^ 64 }
    requires count { count ≤ 128 }
    ensures { result +ℤ pos (count * 2 ^ 63) ≡ pos total }
{
    let above = count as u128 * (1 << 63);
    total as i128 - above as i128
}

/// The least, the greatest and the sum of some places.
#[derive(Clone, Copy, Debug)]
pub struct Span {
    pub least: u64,
    pub greatest: u64,
    pub total: u128,
}

/// The span of the heights of a block's values.
fn span_of(header: &Header, residuals: &[u64], spread: &Measure) -> Span
    requires sound { IsSound (block_with header.now residuals.now) }
    requires spread { IsMeasure (counted header.now.kind residuals.now) spread.now }
    ensures { IsSpan (heights header.now.kind (places_of (block_with header.now residuals.now))) result }
{
    let counted = counted_of(header.kind, residuals);
    match header.kind {
        Kind::Plain => plain_span(header, counted, spread),
        Kind::Rising => steps_span(header, counted, spread),
        Kind::Falling => {
            let span = steps_span(header, counted, spread);
            Span {
                least: u64::MAX - span.greatest,
                greatest: u64::MAX - span.least,
                total: residuals.len() as u128 * u64::MAX as u128 - span.total,
            }
        }
    }
}

fn plain_span(header: &Header, residuals: &[u64], spread: &Measure) -> Span
    requires some { 0 < length residuals.now }
    requires few { length residuals.now ≤ 128 }
    requires zero { Contains residuals.now 0 }
    requires range { All (λ n. n < 2 ^ 64) (numbers_of (turned header.now.offset) header.now.factor residuals.now) }
    requires spread { IsMeasure residuals.now spread.now }
    ensures { IsSpan (numbers_of (turned header.now.offset) header.now.factor residuals.now) result }
{
    let low = turn(header.offset);
    Span {
        least: low,
        greatest: low + header.factor * spread.greatest,
        total: low as u128 * residuals.len() as u128 + header.factor as u128 * spread.total,
    }
}

fn steps_span(header: &Header, residuals: &[u64], spread: &Measure) -> Span
    requires few { length residuals.now < 128 }
    requires below { All (λ r. r < 2 ^ header.now.width) residuals.now }
    requires range { start_of header.now.kind header.now.first + sum (numbers_of header.now.offset header.now.factor residuals.now) < 2 ^ 64 }
    requires spread { IsMeasure residuals.now spread.now }
    ensures { IsSpan (walk (start_of header.now.kind header.now.first) (numbers_of header.now.offset header.now.factor residuals.now)) result }
{
    let start = start_at(header.kind, header.first);
    let rise = header.offset as u128 * residuals.len() as u128
        + header.factor as u128 * spread.total;
    Span {
        least: start,
        greatest: (start as u128 + rise) as u64,
        total: walk_total(header, start, residuals),
    }
}
