//! Sets of paths.
ghost use Rattle.std.specs.Prelude.{◌≡◌, ◌∷◌, ℕ, List, [], IfOk, not};
ghost use Rattle.ts_mapping.specs.Faults.{is_below_any};
ghost use Rattle.ts_mapping.specs.Paths.{is_among};

use crate::path_at::PathAt;
use edge_face::NoMemory;
use std::alloc::Global;
use std::collections::BTreeSet;
use std::marker::Model;

/// A set of paths where they lie, seen as some list of them.
#[derive(Drop)]
pub struct PathSet<'a> {
    paths: BTreeSet<PathAt<'a>>,
}

impl<'a> Model for PathSet<'a> {
    ghost Value = { List (List ℕ) };

    ghost view = { λ s. s.paths.keys };
}

impl<'a> PathSet<'a> {
    pub fn new(alloc: Global) -> PathSet<'a>
        ensures { result ≡ [] }
    {
        PathSet {
            paths: BTreeSet::new(alloc),
        }
    }

    /// Whether a path is in the set. It is lent for as long as those of the set are, since the search takes it as one of them.
    pub fn has(&self, path: &'a [u8]) -> bool
        ensures { result ≡ is_among path.now self.now }
    {
        self.paths.contains(&PathAt::new(path))
    }

    /// Puts a path into the set, and tells whether it wasn't there.
    pub fn insert(&mut self, path: &'a [u8]) -> Result<bool, NoMemory>
        ensures fresh { IfOk result (λ fresh. fresh ≡ not (is_among path.now self.old)) }
        ensures paths { IfOk result (λ _. (q : List ℕ) → is_among q self.new ≡ is_among q (path.now ∷ self.old)) }
    {
        let fresh = self.paths.insert(PathAt::new(path))?;
        Ok(fresh)
    }

    /// Whether a path lies below one of the set.
    pub fn is_above(&self, path: &'a [u8]) -> bool
        ensures { result ≡ is_below_any path.now self.now }
    {
        for (place, byte) in path.iter().enumerate() {
            if *byte == b'.' && self.has(&path[..place]) {
                return true;
            }
        }
        false
    }
}
