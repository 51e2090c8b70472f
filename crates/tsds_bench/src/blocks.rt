//! Blocks of 128 random numbers of some bits: `pack-WIDTH`, `unpack-WIDTH` and `summary-WIDTH`, each over SIZE values.

use column_pack::{block_min_max_sum, pack_block, unpack_block};
use edge_face::NoMemory;
use std::alloc::Global;

const LISTS: u64 = 64;

const VALUES: u64 = 128;

/// A sum over what a case gives, or `None` where the text names no case.
pub fn run(alloc: Global, case: &str, size: u64) -> Result<Option<u64>, NoMemory> {
    let Some((what, width)) = case.split_once('-') else {
        return Ok(None);
    };
    let Ok(width) = width.parse::<u32>() else {
        return Ok(None);
    };
    if 64 < width {
        return Ok(None);
    }
    let rounds = size / (LISTS * VALUES);
    let lists = random_lists(alloc, width)?;
    match what {
        "pack" => Ok(Some(pack(alloc, lists.as_slice(), rounds)?)),
        "unpack" => Ok(Some(unpack(packed(alloc, lists.as_slice())?.as_slice(), rounds))),
        "summary" => Ok(Some(summarize(packed(alloc, lists.as_slice())?.as_slice(), rounds))),
        _ => Ok(None),
    }
}

fn random_lists(alloc: Global, width: u32) -> Result<Vec<[i64; 128]>, NoMemory> {
    let mut lists = Vec::new(alloc);
    let mut seed = 88172645463325252u64;
    for list in 0..64i64 {
        let mut values = [list; 128];
        for value in values.iter_mut() {
            seed = shaken(seed);
            if 0 < width && width <= 64 {
                *value = (seed >> (64 - width)).cast_signed();
            }
        }
        lists.push(values)?;
    }
    Ok(lists)
}

/// The next number of a xorshift generator.
fn shaken(seed: u64) -> u64 {
    let a = seed ^ (seed << 13);
    let b = a ^ (a >> 7);
    b ^ (b << 17)
}

fn packed(alloc: Global, lists: &[[i64; 128]]) -> Result<Vec<Vec<u8>>, NoMemory> {
    let mut blocks = Vec::new(alloc);
    for list in lists {
        let mut block = Vec::new(alloc);
        pack_block(list, &mut block)?;
        blocks.push(block)?;
    }
    Ok(blocks)
}

fn pack(alloc: Global, lists: &[[i64; 128]], rounds: u64) -> Result<u64, NoMemory> {
    let mut sum = 0u64;
    let mut block = Vec::new(alloc);
    for _ in 0..rounds {
        for list in lists {
            block.clear();
            pack_block(list, &mut block)?;
            sum = sum.wrapping_add(block.len() as u64);
        }
    }
    Ok(sum)
}

fn unpack(blocks: &[Vec<u8>], rounds: u64) -> u64 {
    let mut sum = 0u64;
    let mut values = [0i64; 128];
    for _ in 0..rounds {
        for block in blocks {
            if unpack_block(block.as_slice(), &mut values).is_ok() {
                sum = sum.wrapping_add(values[127].cast_unsigned());
            }
        }
    }
    sum
}

fn summarize(blocks: &[Vec<u8>], rounds: u64) -> u64 {
    let mut sum = 0u64;
    for _ in 0..rounds {
        for block in blocks {
            if let Ok(summary) = block_min_max_sum(block.as_slice()) {
                sum = sum.wrapping_add(summary.max.cast_unsigned());
            }
        }
    }
    sum
}
