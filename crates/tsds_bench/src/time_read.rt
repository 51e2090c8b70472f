//! Reads texts `YYYY-MM-DDThh:mm:ssZ` of all years, over and over, and adds up the instants.
use std::alloc::{AllocError, Global};
use std::io;
use time_text::{print_instant, read_instant};

const TEXTS: u64 = 1_000;

const STEP: u64 = 253_402_300_799;

fn text_of(alloc: Global, turn: u64) -> Result<String, AllocError> {
    let instant = turn.wrapping_mul(STEP) % 253_402_300_800_000;
    let printed = print_instant(instant as i64);
    format!(in alloc; "{}Z", str::from_utf8(&printed[..19]).unwrap_or(""))
}

fn texts(alloc: Global) -> Result<Vec<String>, AllocError> {
    let mut texts = Vec::new(alloc);
    for turn in 0..TEXTS {
        texts.push(text_of(alloc, turn)?)?;
    }
    Ok(texts)
}

fn sum_of(texts: &[String], rounds: u64) -> u64 {
    let mut sum = 0u64;
    for _ in 0..rounds {
        for text in texts {
            if let Ok(instant) = read_instant(text.as_str()) {
                sum = sum.wrapping_add(instant as u64);
            }
        }
    }
    sum
}

pub fn run(rt: &impl Print, alloc: Global, size: u64) -> io::Result<()> {
    let texts = texts(alloc)?;
    let sum = sum_of(&texts, size / TEXTS);
    println!(rt; "{sum}")
}
