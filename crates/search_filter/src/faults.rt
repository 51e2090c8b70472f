//! What a body has at fault, and which of several faults counts.
ghost use Rattle.std.specs.Prelude.{◌≡◌, None, Some, OnOk};
ghost use Rattle.search_filter.specs.Faults.{worse};

use edge_face::{NoMemory, Text, bytes_order};
use std::alloc::Global;
use std::cmp::Ordering;
use std::marker::Model;

/// What a part of a body has at fault.
#[derive(Drop)]
pub enum Fault {
    Shape,
    /// A value that the field of that path can't have.
    WrongValue(Text),
}

/// The fault that counts among those told so far: a wrong shape, else the value of the least path.
#[derive(Drop)]
pub struct Faults {
    held: Option<Fault>,
}

impl Model for Faults {
    ghost use Rattle.std.specs.Prelude.{Option};
    ghost use Rattle.search_filter.specs.declared.faults.Fault.{Fault};

    ghost Value = { Option Fault };

    ghost view = { λ f. f.held };
}

impl Faults {
    pub fn new() -> Faults
        ensures { result ≡ None }
    {
        Faults { held: None }
    }

    pub fn into_worst(self) -> Option<Fault>
        ensures { result ≡ self }
    {
        let Faults { held } = self;
        held
    }

    pub fn note_shape(&mut self)
        ensures { self.new ≡ Some (worse self.old Fault.Shape) }
    {
        self.held = Some(Fault::Shape);
    }

    pub fn note_value(&mut self, alloc: Global, path: &str) -> Result<(), NoMemory>
        ensures { OnOk result (self.new ≡ Some (worse self.old (Fault.WrongValue path.now))) }
    {
        match &self.held {
            None => {}
            Some(Fault::Shape) => return Ok(()),
            Some(Fault::WrongValue(held)) => match bytes_order(path.as_bytes(), held.as_bytes()) {
                Ordering::Less => {}
                Ordering::Equal | Ordering::Greater => return Ok(()),
            },
        }
        self.held = Some(Fault::WrongValue(Text::new(alloc, path)?));
        Ok(())
    }
}
