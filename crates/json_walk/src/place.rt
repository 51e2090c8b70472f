//! The place of a walk.
ghost use Rattle.std.specs.Prelude.{◌≡◌, ℕ, List, Option, OnOk, IfOk, Some, None, option_map};
ghost use Rattle.json_walk.specs.Path.{below};
ghost use Rattle.json_walk.specs.Places.{IsOfMember};

use edge_face::NoMemory;
use std::alloc::Global;
use std::marker::Model;

/// Where a walk stands in a tree: at the tree itself, or behind the names that lead on from there, joined by dots. It is one
/// text, which grows on the way down and shrinks on the way back, so a walk takes no more memory than its longest path.
#[derive(Drop)]
pub struct Place {
    path: String,
    is_below: bool,
}

impl Model for Place {
    ghost use Rattle.std.specs.Prelude.{ℕ, List, Option, string_bytes};
    ghost use Rattle.json_walk.specs.Places.{place_at};

    ghost Value = { Option (List ℕ) };

    ghost view = { λ p. place_at p.is_below (string_bytes p.path) };
}

// How many bytes of a path find room at once.
const USUAL_PATH: usize = 64;

impl Place {
    /// The place of the tree itself.
    pub fn root(alloc: Global) -> Result<Place, NoMemory>
        ensures { IfOk result (λ place. place ≡ None) }
    {
        Ok(Place {
            path: String::with_capacity(alloc, USUAL_PATH)?,
            is_below: false,
        })
    }

    /// The path to it, where it isn't the tree itself.
    pub fn path(&self) -> Option<&str>
        ensures { option_map (λ path. path.now) result ≡ self.now }
    {
        if self.is_below {
            Some(self.path.as_str())
        } else {
            None
        }
    }

    /// Goes on to a member of what stands here.
    pub fn enter(&mut self, name: &str) -> Result<(), NoMemory>
        ensures { OnOk result (self.new ≡ Some (below self.old name.now)) }
    {
        if self.is_below {
            self.path.push('.')?;
        } else {
            self.path.clear();
            self.is_below = true;
        }
        self.path.push_str(name)?;
        Ok(())
    }

    /// Goes back from a member to what has it.
    pub fn leave(&mut self, name: &str)
        requires { IsOfMember name.now self.old }
        ensures { (here : Option (List ℕ)) → self.old ≡ Some (below here name.now) → self.new ≡ here }
    {
        let ahead = self.path.len() - name.len();
        match ahead.checked_sub(1) {
            None => self.is_below = false,
            Some(length) => self.path.truncate(length),
        }
    }
}
