//! The series of rows: their keys, and where the rows of each begin.
ghost use Rattle.std.specs.Prelude.{◌≡◌, ◌≤◌, length, IfOk};
ghost use Rattle.row_cells.specs.Limits.{most_documents};
ghost use Rattle.index_segment.specs.Directory.{keys_of, row_keys, same_in_front, sizes_of, starts_from};
ghost use Rattle.index_segment.specs.Spelling.{counted};

use edge_face::NoMemory;
use row_cells::{Key, Row};
use sqlite_items::Items;
use std::alloc::Global;

/// The series of rows in row order.
#[derive(Debug, Drop)]
pub struct Directory {
    pub keys: Items<Key>,
    /// How many rows stand before each series, and before the end.
    pub starts: Items<u32>,
    /// How many rows each series has.
    pub sizes: Items<i64>,
}

/// How many rows from the front on are of the series.
fn count_of_series(key: &Key, rows: &[Row]) -> usize
    ensures count { result ≡ same_in_front key.now (row_keys rows.now) }
    ensures within { result ≤ length rows.now }
{
    let mut count = 0;
    for row in rows {
        if row.key != *key {
            return count;
        }
        count += 1;
    }
    count
}

/// The directory of rows in row order.
#[tactic(auto, unfolding(crate::specs::Directory::keys_of, crate::specs::Directory::sizes_of))]
pub fn directory_of(alloc: Global, rows: &[Row]) -> Result<Directory, NoMemory>
    requires { length rows.now ≤ most_documents }
    ensures keys { IfOk result (λ directory. directory.keys ≡ keys_of rows.now) }
    ensures starts { IfOk result (λ directory. directory.starts ≡ starts_from 0 (sizes_of rows.now)) }
    ensures sizes { IfOk result (λ directory. directory.sizes ≡ counted (sizes_of rows.now)) }
{
    let mut keys = Vec::new(alloc);
    let mut starts = Vec::new(alloc);
    let mut sizes = Vec::new(alloc);
    let mut start = 0;
    let mut left = rows;
    while let Some((row, behind)) = left.split_first() {
        let more = count_of_series(&row.key, behind);
        keys.push(row.key.copy(alloc)?)?;
        starts.push(start as u32)?;
        sizes.push((1 + more) as i64)?;
        start += 1 + more;
        left = behind.split_at(more).1;
    }
    starts.push(start as u32)?;
    Ok(Directory {
        keys: Items::from_vec(keys),
        starts: Items::from_vec(starts),
        sizes: Items::from_vec(sizes),
    })
}
