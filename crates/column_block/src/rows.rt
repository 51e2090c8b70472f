//! Lists of whole numbers, a list a row, behind other bytes.
ghost use Rattle.std.specs.Prelude.{◌≡◌, ℕ, ℤ, pos, ◌*◌, ◌+◌, ◌<◌, ◌≤◌, ◌≤ℤ◌, ◌^◌, ◌++◌, List, [], ◌∷◌, length, take, drop, map, slice_range, unsigned_abs, All, IfOk, OnOk, Err, IsTrue, ◌↔◌};
ghost use Rattle.row_cells.specs.Limits.{longest_list};
ghost use Rattle.packed_lists.specs.Lists.{joined};
ghost use Rattle.column_block.specs.Cutting.{cut, total, AreStarts, IsShort, IsSize};
ghost use Rattle.packed_lists.specs.Nums.{AreNums};
ghost use Rattle.row_cells.specs.Each.{Each};
ghost use Rattle.column_block.specs.Spelling.{lengths};

use crate::kinds::Numbers;
use edge_face::NoMemory;
use packed_lists::BLOCK;
use row_cells::LONGEST_LIST;
use sqlite_items::Items;
use std::alloc::Global;

/// The lengths of lists.
pub fn sizes_of(alloc: Global, lists: &[Numbers]) -> Result<Vec<i64>, NoMemory>
    ensures { IfOk result (λ sizes. sizes.items ≡ lengths lists.now) }
{
    let mut sizes = Vec::with_capacity(alloc, lists.len())?;
    for list in lists {
        sizes.push(list.as_slice().len() as i64)?;
    }
    Ok(sizes)
}

/// All items of lists.
pub fn join(alloc: Global, lists: &[Numbers]) -> Result<Vec<i64>, NoMemory>
    ensures { IfOk result (λ numbers. numbers.items ≡ joined lists.now) }
{
    let mut numbers = Vec::new(alloc);
    for list in lists {
        numbers.extend_from_slice(list.as_slice())?;
    }
    Ok(numbers)
}

/// How many items lists of some lengths have.
pub fn sum_of(sizes: &[i64]) -> usize
    requires sizes { All IsSize sizes.now }
    requires few { length sizes.now < 2 ^ 32 }
    ensures sum { result ≡ total sizes.now }
    ensures few { result ≤ longest_list * length sizes.now }
{
    let mut sum = 0usize;
    for size in sizes {
        sum += *size as usize;
    }
    sum
}

fn is_size(size: &i64) -> bool
    ensures { IsTrue result ↔ IsSize size.now }
{
    let size = *size;
    if size < 0 {
        return false;
    }
    size <= LONGEST_LIST as i64
}

/// Whether all numbers may be lengths of lists.
pub fn are_sizes(sizes: &[i64]) -> bool
    ensures { IsTrue result ↔ All IsSize sizes.now }
{
    for size in sizes {
        if !is_size(size) {
            return false;
        }
    }
    true
}

/// Items cut into lists of some lengths.
pub fn cut_into(alloc: Global, sizes: &[i64], numbers: &[i64]) -> Result<Items<Numbers>, NoMemory>
    requires sizes { All IsSize sizes.now }
    requires as_many { total sizes.now ≤ length numbers.now }
    ensures { IfOk result (λ lists. lists ≡ cut sizes.now numbers.now) }
{
    let mut lists = Vec::with_capacity(alloc, sizes.len())?;
    let mut left = numbers;
    for size in sizes {
        let (list, rest) = left.split_at(*size as usize);
        lists.push(Numbers::new(Vec::from_slice(alloc, list)?))?;
        left = rest;
    }
    Ok(Items::from_vec(lists))
}

/// How many items the lists before each 128th have.
pub fn starts_of(alloc: Global, sizes: &[i64]) -> Result<Vec<usize>, NoMemory>
    requires sizes { All IsSize sizes.now }
    requires few { length sizes.now < 2 ^ 32 }
    ensures { IfOk result (λ starts. AreStarts sizes.now starts.items) }
{
    let mut starts = Vec::with_capacity(alloc, sizes.len() / BLOCK + 1)?;
    let mut sum = 0usize;
    for block in 0..sizes.len() / BLOCK {
        starts.push(sum)?;
        sum += sum_of(&sizes[BLOCK * block..BLOCK * block + BLOCK]);
    }
    starts.push(sum)?;
    Ok(starts)
}
