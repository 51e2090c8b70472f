//! The least of the paths at fault.
ghost use Rattle.std.specs.Prelude.{◌≡◌, ℕ, ◌∷◌, ◌++◌, List, None, OnOk, IfOk, Option};
ghost use Rattle.ts_mapping.specs.Least.{fault_unless, least_with, lesser, under};

use edge_face::{NoMemory, Text, bytes_order};
use std::alloc::Global;
use std::cmp::Ordering;
use std::marker::Model;

/// The least in byte order of the paths that were told so far.
#[derive(Drop)]
pub struct Least {
    held: Option<Text>,
}

impl Model for Least {
    ghost Value = { Option (List ℕ) };

    ghost view = { λ l. l.held };
}

/// The place of a member of that name.
pub fn under_place(alloc: Global, place: &str, name: &str) -> Result<Text, NoMemory>
    ensures { IfOk result (λ t. t ≡ under place.now name.now) }
{
    let mut text = String::from_str(alloc, place)?;
    text.push_str(".")?;
    text.push_str(name)?;
    Ok(Text::from_string(text))
}

impl Least {
    pub fn new() -> Least
        ensures { result ≡ None }
    {
        Least { held: None }
    }

    pub fn into_path(self) -> Option<Text>
        ensures { result ≡ self }
    {
        let Least { held } = self;
        held
    }

    /// Tells a path at fault.
    pub fn note(&mut self, alloc: Global, path: &str) -> Result<(), NoMemory>
        ensures { OnOk result (self.new ≡ lesser self.old path.now) }
    {
        if let Some(held) = &self.held {
            match bytes_order(path.as_bytes(), held.as_bytes()) {
                Ordering::Less => {}
                Ordering::Equal | Ordering::Greater => return Ok(()),
            }
        }
        self.held = Some(Text::new(alloc, path)?);
        Ok(())
    }

    /// Tells a path at fault that is a text already.
    pub fn put(&mut self, path: Text)
        ensures { self.new ≡ lesser self.old path }
    {
        if let Some(held) = &self.held {
            match path.cmp(held) {
                Ordering::Less => {}
                Ordering::Equal | Ordering::Greater => return,
            }
        }
        self.held = Some(path);
    }

    /// Tells a path where something that has to hold doesn't.
    pub fn note_unless(&mut self, alloc: Global, holds: bool, path: &str) -> Result<(), NoMemory>
        ensures { OnOk result (self.new ≡ least_with self.old (fault_unless holds path.now)) }
    {
        if holds {
            Ok(())
        } else {
            self.note(alloc, path)
        }
    }

    /// Tells the place of a member where something that has to hold doesn't.
    pub fn note_under(
        &mut self,
        alloc: Global,
        holds: bool,
        place: &str,
        name: &str,
    ) -> Result<(), NoMemory>
        ensures { OnOk result (self.new ≡ least_with self.old (fault_unless holds (under place.now name.now))) }
    {
        if holds {
            return Ok(());
        }
        let path = under_place(alloc, place, name)?;
        self.note(alloc, path.as_str())
    }
}
