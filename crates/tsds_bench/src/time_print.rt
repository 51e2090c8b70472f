//! Prints instants of all years, and adds up their bytes.
use std::io;
use time_text::print_instant;

const STEP: u64 = 253_402_300_799;

pub fn run(rt: &impl Print, size: u64) -> io::Result<()> {
    let mut sum = 0u64;
    for turn in 0..size {
        let instant = turn.wrapping_mul(STEP) % 253_402_300_800_000;
        let text = print_instant(instant as i64);
        for byte in text {
            sum = sum.wrapping_add(u64::from(byte));
        }
    }
    println!(rt; "{sum}")
}
