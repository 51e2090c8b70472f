//! What columns hold.
ghost use Rattle.std.specs.Prelude.{◌≡◌};

use edge_face::{NoMemory, Text};
use fold_law::Parts;
use sqlite_items::Items;
use std::marker::Model;
use thiserror::Error;

/// A list of whole numbers.
#[derive(Debug, Drop)]
pub struct Numbers {
    items: Vec<i64>,
}

impl Model for Numbers {
    ghost use Rattle.std.specs.Prelude.{List, ℤ};

    ghost Value = { List ℤ };

    ghost view = { λ numbers. numbers.items.items };
}

impl Numbers {
    pub fn new(from: Vec<i64>) -> Numbers
        ensures { result ≡ from.items }
    {
        Numbers { items: from }
    }

    pub fn as_slice(&self) -> &[i64]
        ensures { result.now ≡ self.now }
    {
        self.items.as_slice()
    }
}

/// A list of texts.
#[derive(Debug, Drop)]
pub struct Texts {
    items: Vec<Text>,
}

impl Model for Texts {
    ghost use Rattle.std.specs.Prelude.{List, ℕ};

    ghost Value = { List (List ℕ) };

    ghost view = { λ texts. texts.items.items };
}

impl Texts {
    pub fn new(from: Vec<Text>) -> Texts
        ensures { result ≡ from.items }
    {
        Texts { items: from }
    }

    pub fn as_slice(&self) -> &[Text]
        ensures { result.now ≡ self.now }
    {
        self.items.as_slice()
    }
}

/// What the rows of a column have, the first row first.
#[derive(Debug, Drop)]
pub enum Values {
    /// A whole number, where one is present.
    Whole(Items<Option<i64>>),
    /// The parts of a gauge, where some are present.
    Parts(Items<Option<Parts>>),
    /// A list of whole numbers, which may repeat.
    Wholes(Items<Numbers>),
    /// A list of texts of at most 32,766 bytes, each once.
    Words(Items<Texts>),
}

/// What a column holds a list of.
#[derive(Clone, Copy, Debug, PartialEq, Eq)]
pub enum ColumnKind {
    Whole,
    Parts,
    Wholes,
    Words,
}

/// Why there is no column.
#[derive(Clone, Copy, Debug, PartialEq, Eq, Error)]
pub enum ColumnError {
    /// The bytes begin with no column of that kind and number of rows.
    #[error("no column")]
    BadColumn,
    #[error("out of memory")]
    NoMemory,
}

impl From<NoMemory> for ColumnError {
    ghost use Rattle.std.specs.Prelude.{◌≡◌};
    ghost use Rattle.column_block.specs.declared.kinds.ColumnError.TheVariants.{NoMemory as OutOfMemory};

    ghost from_gives = { λ _ e. e ≡ OutOfMemory };

    fn from(_: NoMemory) -> ColumnError {
        ColumnError::NoMemory
    }
}
