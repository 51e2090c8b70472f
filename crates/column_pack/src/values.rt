//! The values that residuals stand for, and their sum.

ghost use Rattle.std.specs.Prelude.{◌≡◌, ◌≢◌, ℕ, ◌+◌, ◌*◌, ◌^◌, ◌<◌, ◌≤◌, length, map, sum, take, drop, All, FitsSigned};
ghost use Rattle.std.specs.Int.{w64};
ghost use Rattle.column_pack.specs.Block.{place, places_of, walk, start_of};
ghost use Rattle.column_pack.specs.Parts.{block_with, numbers_of, IsSound};

use crate::parts::{Header, Kind};
use crate::places::{turn, value_at};

/// Where the first value stands.
pub fn start_at(kind: Kind, first: u64) -> u64
    ensures { result ≡ start_of kind first }
{
    match kind {
        Kind::Plain | Kind::Rising => turn(first),
        Kind::Falling => u64::MAX - turn(first),
    }
}

/// Writes the values of a block.
pub fn write_values(header: &Header, residuals: &[u64], into: &mut [i64; 128])
    requires { IsSound (block_with header.now residuals.now) }
    ensures values { map (place header.now.kind) (take (length residuals.now) into.new) ≡ places_of (block_with header.now residuals.now) }
    ensures signed { All (FitsSigned w64) (take (length residuals.now) into.new) }
    ensures rest { drop (length residuals.now) into.new ≡ drop (length residuals.now) into.old }
{
    match header.kind {
        Kind::Plain => plain_values(turn(header.offset), header.factor, residuals, into),
        Kind::Rising => write_steps(header, residuals, into),
        Kind::Falling => write_steps(header, residuals, into),
    }
}

fn write_steps(header: &Header, residuals: &[u64], into: &mut [i64; 128])
    requires kind { header.now.kind ≢ Kind.Plain }
    requires sound { IsSound (block_with header.now residuals.now) }
    ensures values { map (place header.now.kind) (take (length residuals.now) into.new) ≡ places_of (block_with header.now residuals.now) }
    ensures signed { All (FitsSigned w64) (take (length residuals.now) into.new) }
    ensures rest { drop (length residuals.now) into.new ≡ drop (length residuals.now) into.old }
{
    let start = start_at(header.kind, header.first);
    walk_values(header, start, &residuals[1..], into);
}

/// Writes values by their heights.
fn plain_values(low: u64, factor: u64, residuals: &[u64], into: &mut [i64; 128])
    requires few { length residuals.now ≤ 128 }
    requires range { All (λ x. x < 2 ^ 64) (numbers_of low factor residuals.now) }
    ensures values { map (place Kind.Plain) (take (length residuals.now) into.new) ≡ numbers_of low factor residuals.now }
    ensures signed { All (FitsSigned w64) (take (length residuals.now) into.new) }
    ensures rest { drop (length residuals.now) into.new ≡ drop (length residuals.now) into.old }
{
    for i in 0..residuals.len() {
        into[i] = value_at(Kind::Plain, low + factor * residuals[i]);
    }
}

/// Writes the values at the places that steps lead to.
fn walk_values(header: &Header, start: u64, residuals: &[u64], into: &mut [i64; 128])
    requires few { length residuals.now < 128 }
    requires range { start + sum (numbers_of header.now.offset header.now.factor residuals.now) < 2 ^ 64 }
    ensures values { map (place header.now.kind) (take (length residuals.now + 1) into.new) ≡ walk start (numbers_of header.now.offset header.now.factor residuals.now) }
    ensures signed { All (FitsSigned w64) (take (length residuals.now + 1) into.new) }
    ensures rest { drop (length residuals.now + 1) into.new ≡ drop (length residuals.now + 1) into.old }
{
    let mut at = start;
    for i in 0..residuals.len() {
        into[i] = value_at(header.kind, at);
        at += header.offset + header.factor * residuals[i];
    }
    into[residuals.len()] = value_at(header.kind, at);
}

/// The sum of the places that steps lead to. Where no residual has a bit this doesn't look at them.
pub fn walk_total(header: &Header, start: u64, residuals: &[u64]) -> u128
    requires few { length residuals.now < 128 }
    requires below { All (λ r. r < 2 ^ header.now.width) residuals.now }
    requires range { start + sum (numbers_of header.now.offset header.now.factor residuals.now) < 2 ^ 64 }
    ensures { result ≡ sum (walk start (numbers_of header.now.offset header.now.factor residuals.now)) }
{
    if header.width == 0 {
        let steps = residuals.len() as u128;
        return start as u128 * (steps + 1) + header.offset as u128 * (steps * (steps + 1) / 2);
    }
    let mut at = start;
    let mut total = start as u128;
    for residual in residuals {
        at += header.offset + header.factor * *residual;
        total += at as u128;
    }
    total
}
