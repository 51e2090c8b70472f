//! Walks over the series of an index.
ghost use Rattle.std.specs.Prelude.{◌≡◌, ◌∷◌, [], length, IfSome, IsNone};
ghost use Rattle.index_segment.specs.Directory.{keys_of};
ghost use Rattle.tsds_index.specs.Spread.{rows_of};

use crate::index::TsdsIndex;
use row_cells::Key;
use std::marker::Model;

/// A walk over the series of an index, by their keys in byte order. What is asked of a series on the way is asked of the
/// index.
#[derive(Debug, Drop)]
pub struct SeriesWalk<'a> {
    index: &'a TsdsIndex,
    /// The key that was given last.
    last: Option<&'a Key>,
}

impl<'a> Model for SeriesWalk<'a> {
    ghost use Rattle.std.specs.Option.{option_copied};
    ghost use Rattle.index_segment.specs.Directory.{keys_of};
    ghost use Rattle.tsds_index.specs.Nexts.{keys_behind};
    ghost use Rattle.tsds_index.specs.Spread.{rows_of};
    ghost use Rattle.tsds_index.specs.Walks.{Walk};

    ghost Value = { Walk };

    ghost view = { λ w. record { index = w.index.now; ahead = keys_behind (option_copied w.last) (keys_of (rows_of w.index.now)) } };
}

impl<'a> SeriesWalk<'a> {
    /// The index.
    pub fn index(&self) -> &'a TsdsIndex
        ensures { result.now ≡ self.now.index }
    {
        self.index
    }

    /// The key of the next series, or None exactly where no series is ahead. No memory is taken.
    pub fn next(&mut self) -> Option<&'a Key>
        ensures some { IfSome result (λ key. self.old.ahead ≡ key.now ∷ self.new.ahead) }
        ensures none { IsNone result → self.old.ahead ≡ [] }
        ensures index { self.new.index ≡ self.old.index }
    {
        self.index.holds();
        let next = self.index.key_behind(self.last)?;
        self.last = Some(next);
        Some(next)
    }
}

impl TsdsIndex {
    /// A walk over all series.
    pub fn walk(&self) -> SeriesWalk<'_>
        ensures index { result.index ≡ self.now }
        ensures ahead { result.ahead ≡ keys_of (rows_of self.now) }
    {
        SeriesWalk {
            index: self,
            last: None,
        }
    }

    /// How many series there are. They are counted on a walk, and no memory is taken.
    pub fn series_count(&self) -> u64
        ensures { result ≡ length (keys_of (rows_of self.now)) }
    {
        self.holds();
        let mut walk = self.walk();
        let mut count = 0;
        while let Some(_key) = walk.next() {
            count += 1;
        }
        count
    }
}
