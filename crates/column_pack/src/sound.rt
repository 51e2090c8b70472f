//! Whether fields and residuals are those of a canonical block.

ghost use Rattle.std.specs.Prelude.{◌≡◌, ◌↔◌, ℕ, ◌+◌, ◌*◌, ◌^◌, ◌<◌, ◌≤◌, length, All, IsTrue};
ghost use Rattle.column_pack.specs.Block.{Fits, counted, unused, turned, start_of};
ghost use Rattle.column_pack.specs.Parts.{block_with, numbers_of, HasPlainKind, HasSteps, HasKind, IsSound};
ghost use Rattle.column_pack.specs.Factor.{IsFactorBy};
ghost use Rattle.column_pack.specs.Spread.{IsSpread};

use crate::parts::{Header, Kind};
use crate::places::turn;
use crate::scan::{common_divisor, greatest, has_zero, total, turns, width_of};
use crate::values::start_at;

/// What is known of some residuals.
#[derive(Clone, Copy, Debug)]
pub struct Spread {
    pub greatest: u64,
    pub divisor: u64,
    pub total: u128,
    pub has_zero: bool,
    pub rises: bool,
    pub falls: bool,
}

pub fn spread_of(residuals: &[u64], width: u32) -> Spread
    requires few { length residuals.now ≤ 128 }
    requires below { All (λ r. r < 2 ^ width) residuals.now }
    ensures { IsSpread residuals.now result }
{
    if width == 0 {
        return Spread {
            greatest: 0,
            divisor: 0,
            total: 0,
            has_zero: !residuals.is_empty(),
            rises: false,
            falls: false,
        };
    }
    let (rises, falls) = turns(residuals);
    Spread {
        greatest: greatest(residuals),
        divisor: common_divisor(residuals),
        total: total(residuals),
        has_zero: has_zero(residuals),
        rises,
        falls,
    }
}

/// Whether fields and residuals are those of a canonical block.
pub fn is_sound(header: &Header, residuals: &[u64], spread: &Spread) -> bool
    requires fits { Fits (block_with header.now residuals.now) }
    requires spread { IsSpread (counted header.now.kind residuals.now) spread.now }
    ensures { IsTrue result ↔ IsSound (block_with header.now residuals.now) }
{
    if unused_of(header, residuals) != 0 {
        return false;
    }
    if !spread.has_zero {
        return false;
    }
    if !is_greatest(header.factor, spread.divisor) {
        return false;
    }
    if header.width != width_of(spread.greatest) {
        return false;
    }
    has_kind(header, residuals, spread)
}

/// The number that isn't used: the first value or the first residual.
fn unused_of(header: &Header, residuals: &[u64]) -> u64
    requires { 0 < length residuals.now }
    ensures { result ≡ unused header.now.kind header.now.first residuals.now }
{
    match header.kind {
        Kind::Plain => header.first,
        Kind::Rising => residuals[0],
        Kind::Falling => residuals[0],
    }
}

/// The residuals that count.
pub fn counted_of(kind: Kind, residuals: &[u64]) -> &[u64]
    requires { 0 < length residuals.now }
    ensures { result.now ≡ counted kind residuals.now }
{
    match kind {
        Kind::Plain => residuals,
        Kind::Rising => &residuals[1..],
        Kind::Falling => &residuals[1..],
    }
}

/// Whether values of 64 bits rise, fall or do neither as the kind says.
fn has_kind(header: &Header, residuals: &[u64], spread: &Spread) -> bool
    requires fits { Fits (block_with header.now residuals.now) }
    requires factor { 0 < header.now.factor }
    requires spread { IsSpread (counted header.now.kind residuals.now) spread.now }
    ensures { IsTrue result ↔ HasKind (block_with header.now residuals.now) }
{
    match header.kind {
        Kind::Plain => has_plain_kind(header, residuals, spread),
        Kind::Rising => has_steps(header, &residuals[1..], spread),
        Kind::Falling => has_steps(header, &residuals[1..], spread),
    }
}

fn is_greatest(factor: u64, divisor: u64) -> bool
    ensures { IsTrue result ↔ IsFactorBy factor divisor }
{
    if divisor == 0 {
        factor == 1
    } else {
        divisor == 1 && factor != 0
    }
}

/// Whether heights are of 64 bits, and neither rise nor fall all along unless they are equal.
fn has_plain_kind(header: &Header, residuals: &[u64], spread: &Spread) -> bool
    requires some { 0 < length residuals.now }
    requires factor { 0 < header.now.factor }
    requires spread { IsSpread residuals.now spread.now }
    ensures { IsTrue result ↔ HasPlainKind (numbers_of (turned header.now.offset) header.now.factor residuals.now) }
{
    let greatest = header.factor as u128 * spread.greatest as u128;
    spread.rises == spread.falls && turn(header.offset) as u128 + greatest < 1 << 64
}

/// Whether places that steps lead to are of 64 bits, and aren't all equal.
fn has_steps(header: &Header, residuals: &[u64], spread: &Spread) -> bool
    requires few { length residuals.now < 128 }
    requires spread { IsSpread residuals.now spread.now }
    ensures { IsTrue result ↔ HasSteps (start_of header.now.kind header.now.first) (numbers_of header.now.offset header.now.factor residuals.now) }
{
    let greatest = header.factor as u128 * spread.greatest as u128;
    let offset = header.offset as u128;
    if offset + greatest >= 1 << 64 {
        return false;
    }
    let total = offset * residuals.len() as u128 + header.factor as u128 * spread.total;
    0 < total && start_at(header.kind, header.first) as u128 + total < 1 << 64
}
