//! The write buffer of a shard: rows that aren't sealed yet, in row order.
ghost use Rattle.std.specs.Prelude.{◌≡◌, ◌+◌, ◌<◌, ◌≤◌, [], false, length, nat_le, take, drop, OnOk, OnErr};
ghost use Rattle.std.specs.List.{insert as inserted};
ghost use Rattle.std.specs.Option.{option_copied};
ghost use Rattle.std.specs.declared.cmp.Ordering.TheVariants.{Less};
ghost use Rattle.time_text.specs.Instant.{IsInstant};
ghost use Rattle.index_segment.specs.Looks.{is_at};
ghost use Rattle.row_cells.specs.Order.{row_cmp};
ghost use Rattle.row_cells.specs.RowLists.{AreInRowOrder, has_place, insert_row};
ghost use Rattle.tsds_index.specs.Answers.{row_at};
ghost use Rattle.tsds_index.specs.Limits.{longest_buffer};
ghost use Rattle.tsds_index.specs.Places.{AllBefore, NoneBefore, place_row};

use edge_face::NoMemory;
use row_cells::{Key, Row};
use sqlite_items::at;
use std::alloc::Global;
use std::cmp::Ordering;
use std::marker::Model;

/// Rows that a write buffer may have.
pub const LONGEST_BUFFER: usize = 4_096;

/// How a row stands to a series and a time.
fn order_of(row: &Row, key: &Key, time: i64) -> Ordering
    ensures { result ≡ row_cmp row.now (place_row key.now time) }
{
    row.key.cmp(key).then(time.cmp(&row.time))
}

/// Whether a row is that of a series and a time.
fn stands_at(row: &Row, key: &Key, time: i64) -> bool
    ensures { result ≡ is_at key.now time row.now }
{
    row.key == *key && row.time == time
}

/// How many rows stand before a series and a time.
fn place_in(rows: &[Row], key: &Key, time: i64) -> usize
    requires { AreInRowOrder rows.now }
    ensures within { result ≤ length rows.now }
    ensures before { AllBefore (place_row key.now time) (take result rows.now) }
    ensures behind { NoneBefore (place_row key.now time) (drop result rows.now) }
{
    let mut low = 0;
    let mut high = rows.len();
    while low < high {
        let middle = low + (high - low) / 2;
        match order_of(&rows[middle], key, time) {
            Ordering::Less => low = middle + 1,
            _ => high = middle,
        }
    }
    low
}

fn insert(rows: &mut Vec<Row>, place: usize, row: Row) -> Result<(), NoMemory>
    requires { place ≤ length rows.old.items }
    ensures ok { OnOk result (rows.new.items ≡ inserted rows.old.items place row) }
    ensures err { OnErr result (rows.new.items ≡ rows.old.items) }
{
    match rows.insert(place, row) {
        Ok(()) => Ok(()),
        Err(_) => Err(NoMemory),
    }
}

/// At most `LONGEST_BUFFER` rows in row order.
#[derive(Debug, Drop)]
pub struct Buffer {
    rows: Vec<Row>,
}

impl Model for Buffer {
    ghost use Rattle.std.specs.Prelude.{List, ◌≤◌, length};
    ghost use Rattle.row_cells.specs.declared.rows.Row.{Row};
    ghost use Rattle.tsds_index.specs.Places.{IsBuffer};

    ghost Value = { List Row };

    ghost view = { λ b. b.rows.items };

    ghost invariant = { λ b. IsBuffer b.rows.items };
}

impl Buffer {
    pub fn new(alloc: Global) -> Buffer
        ensures { result ≡ [] }
    {
        Buffer {
            rows: Vec::new(alloc),
        }
    }

    pub fn rows(&self) -> &[Row]
        ensures is { result.now ≡ self.now }
        ensures in_order { AreInRowOrder self.now }
        ensures few { length self.now ≤ longest_buffer }
    {
        self.rows.as_slice()
    }

    /// Whether no row more is let in.
    pub fn is_full(&self) -> bool
        ensures { result ≡ nat_le longest_buffer (length self.now) }
    {
        self.rows.len() >= LONGEST_BUFFER
    }

    /// The row of a series and a time.
    pub fn find(&self, key: &Key, time: i64) -> Option<&Row>
        ensures { option_copied result ≡ row_at key.now time self.now }
    {
        let rows = self.rows.as_slice();
        let row = at(rows, place_in(rows, key, time))?;
        if stands_at(row, key, time) {
            Some(row)
        } else {
            None
        }
    }

    /// Puts a row at its place.
    pub fn put(&mut self, row: Row) -> Result<(), NoMemory>
        requires room { length self.old < longest_buffer }
        requires free { has_place row.key row.time self.old ≡ false }
        requires instant { IsInstant row.time }
        ensures ok { OnOk result (self.new ≡ insert_row row self.old) }
        ensures err { OnErr result (self.new ≡ self.old) }
    {
        let place = place_in(self.rows.as_slice(), &row.key, row.time);
        insert(&mut self.rows, place, row)?;
        Ok(())
    }

    /// Lets all rows go, and the memory of their list.
    pub fn clear(&mut self, alloc: Global)
        ensures { self.new ≡ [] }
    {
        self.rows = Vec::new(alloc);
    }
}
