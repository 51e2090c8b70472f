//! Segments as one.
ghost use Rattle.std.specs.Prelude.{◌≡◌, ◌+◌, ◌≤◌, ◌++◌, IfOk, map};
ghost use Rattle.std.specs.List.{flat_map};

use crate::directory::Directory;
use crate::pick::{pick_columns, pick_numbers};
use crate::segment::Segment;
use crate::shares::{Listed, directory_of_joined, join_series};
use crate::turns::turns_of;
use column_block::Numbers;
use edge_face::NoMemory;
use packed_lists::NumberList;
use row_cells::{Row, Schema, copy_schema};
use std::alloc::Global;

/// The numbers of a list.
fn numbers_of(alloc: Global, list: &NumberList) -> Result<Numbers, NoMemory>
    ensures { IfOk result (λ numbers. numbers ≡ list.now) }
{
    let numbers = list.values(alloc, 0, list.len())?;
    Ok(Numbers::new(numbers))
}

impl Segment {
    ghost use Rattle.row_cells.specs.Limits.{most_documents};
    ghost use Rattle.row_cells.specs.RowLists.{AreApart, documents, in_row_order};
    ghost use Rattle.row_cells.specs.Each.{Each};
    ghost use Rattle.row_cells.specs.Mapped.{IsMapped};
    ghost use Rattle.index_segment.specs.Merging.{AreAllApart};

    /// One segment of the rows of two, which have one schema, and no series and time in common. Each series' key is
    /// copied once; values are moved from the columns of both to those of the one, and no row is made.
    pub fn merge(&self, alloc: Global, other: &Segment) -> Result<Segment, NoMemory>
        requires schema { other.now.schema ≡ self.now.schema }
        requires apart { AreApart self.now.rows other.now.rows }
        requires few { documents self.now.rows + documents other.now.rows ≤ most_documents }
        ensures { IfOk result (λ merged. merged ≡ record { schema = self.now.schema; rows = in_row_order (self.now.rows ++ other.now.rows) }) }
    {
        let sizes = numbers_of(alloc, &self.sizes)?;
        let other_sizes = numbers_of(alloc, &other.sizes)?;
        let first = Listed {
            keys: self.keys.as_slice(),
            sizes: sizes.as_slice(),
        };
        let second = Listed {
            keys: other.keys.as_slice(),
            sizes: other_sizes.as_slice(),
        };
        let joined = join_series(alloc, first, second)?;
        let times = numbers_of(alloc, &self.times)?;
        let other_times = numbers_of(alloc, &other.times)?;
        let turns = turns_of(
            alloc,
            joined.rows.as_slice(),
            times.as_slice(),
            other_times.as_slice(),
        )?;
        let turns = turns.as_slice();
        let times = pick_numbers(alloc, turns, times.as_slice(), other_times.as_slice())?;
        let counts = numbers_of(alloc, &self.counts)?;
        let other_counts = numbers_of(alloc, &other.counts)?;
        let counts = pick_numbers(alloc, turns, counts.as_slice(), other_counts.as_slice())?;
        let columns = pick_columns(
            alloc,
            turns,
            self.columns.as_slice(),
            other.columns.as_slice(),
        )?;
        let schema = copy_schema(alloc, &self.schema)?;
        let directory = directory_of_joined(alloc, joined)?;
        let sizes = NumberList::build(alloc, directory.sizes.as_slice())?;
        let Directory {
            keys,
            starts,
            sizes: _,
        } = directory;
        Ok(Segment {
            schema,
            keys,
            starts,
            sizes,
            times,
            counts,
            columns,
        })
    }
    /// One segment of the rows of any number of them, which have one schema, and no series and time in common; of none
    /// the segment of no rows. They are merged from the first on, so what a caller can choose is the order: where each is
    /// at least twice as large as those before it together, no row is written more often than there are doublings.
    pub fn merge_all(alloc: Global, schema: &Schema, parts: &[Segment]) -> Result<Segment, NoMemory>
        requires mapped { IsMapped schema.now }
        requires schema { Each (λ s. s.schema ≡ schema.now) parts.now }
        requires apart { AreAllApart (map (λ s. s.rows) parts.now) }
        requires few { documents (flat_map (λ s. s.rows) parts.now) ≤ most_documents }
        ensures { IfOk result (λ merged. merged ≡ record { schema = schema.now; rows = in_row_order (flat_map (λ s. s.rows) parts.now) }) }
    {
        let none: Vec<Row> = Vec::new(alloc);
        let mut merged = Segment::build(alloc, schema, none.as_slice())?;
        let mut left = parts;
        while let Some((part, rest)) = left.split_first() {
            merged = merged.merge(alloc, part)?;
            left = rest;
        }
        Ok(merged)
    }
}
