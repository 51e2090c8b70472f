//! Counts.
ghost use Rattle.std.specs.Prelude.{◌≡◌, IfOk, suc};

use edge_face::NoMemory;

/// One more. More than 64 bits can count is taken as want of memory.
pub fn one_more(count: u64) -> Result<u64, NoMemory>
    ensures { IfOk result (λ more. more ≡ suc count) }
{
    match count.checked_add(1) {
        Some(more) => Ok(more),
        None => Err(NoMemory),
    }
}

/// The place behind another one. More fields than places of 32 bits are taken as want of memory.
pub fn next_place(at: u32) -> Result<u32, NoMemory>
    ensures { IfOk result (λ next. next ≡ suc at) }
{
    match at.checked_add(1) {
        Some(next) => Ok(next),
        None => Err(NoMemory),
    }
}
