ghost use Rattle.std.specs.Prelude.{◌≡◌, ℕ, List, length, IfOk, string_bytes, ◌↔◌, IsTrue};

use std::alloc::{AllocError, AllocFailed, Global};
use std::cmp::Ordering;
use std::marker::Model;
use thiserror::Error;

/// There was no memory for what a call had to make.
#[derive(Clone, Copy, Debug, PartialEq, Eq, Error)]
#[error("out of memory")]
pub struct NoMemory;

impl From<AllocError> for NoMemory {
    ghost use Rattle.std.specs.Prelude.{◌≡◌};

    ghost from_gives = { λ _ e. e ≡ record {} };

    fn from(_: AllocError) -> NoMemory {
        NoMemory
    }
}

impl<T: Drop> From<AllocFailed<T>> for NoMemory {
    ghost use Rattle.std.specs.Prelude.{◌≡◌};

    ghost from_gives = { λ _ e. e ≡ record {} };

    fn from(_: AllocFailed<T>) -> NoMemory {
        NoMemory
    }
}

/// Where a text stands: in memory of its own, or in the program.
#[derive(Debug, Drop)]
enum Place {
    Owned(String),
    Fixed(&'static str),
}

/// A text in UTF-8, seen as its bytes.
#[derive(Debug, Drop)]
pub struct Text {
    place: Place,
}

impl Model for Text {
    ghost use Rattle.std.specs.Prelude.{List, ℕ};

    ghost Value = { List ℕ };

    ghost use Rattle.edge_face.specs.Texts.{text_at};

    ghost view = { λ t. text_at t.place };
}

impl Text {
    pub fn new(alloc: Global, from: &str) -> Result<Text, NoMemory>
        ensures { IfOk result (λ text. text ≡ from.now) }
    {
        Ok(Text {
            place: Place::Owned(String::from_str(alloc, from)?),
        })
    }

    pub fn from_string(from: String) -> Text
        ensures { result ≡ string_bytes from }
    {
        Text {
            place: Place::Owned(from),
        }
    }

    /// A text that stands in the program. It takes no memory.
    pub fn fixed(from: &'static str) -> Text
        ensures { result ≡ from.now }
    {
        Text {
            place: Place::Fixed(from),
        }
    }

    pub fn as_str(&self) -> &str
        ensures { result.now ≡ self.now }
    {
        match &self.place {
            Place::Owned(text) => text.as_str(),
            Place::Fixed(text) => text,
        }
    }

    pub fn as_bytes(&self) -> &[u8]
        ensures { result.now ≡ self.now }
    {
        self.as_str().as_bytes()
    }

    /// Takes no memory where the text stands in the program.
    pub fn copy(&self, alloc: Global) -> Result<Text, NoMemory>
        ensures { IfOk result (λ text. text ≡ self.now) }
    {
        match &self.place {
            Place::Owned(text) => Text::new(alloc, text.as_str()),
            Place::Fixed(text) => Ok(Text::fixed(text)),
        }
    }
}

impl Clone for Text {
    ghost use Rattle.std.specs.Prelude.{◌≡◌};

    ghost is_clone = { λ text copy. copy ≡ text };

    fn clone(&self) -> Result<Text, AllocError> {
        match &self.place {
            Place::Owned(text) => Ok(Text::from_string(text.clone()?)),
            Place::Fixed(text) => Ok(Text::fixed(text)),
        }
    }
}

/// A list of bytes.
#[derive(Debug, Drop)]
pub struct Bytes {
    inner: Vec<u8>,
}

impl Model for Bytes {
    ghost Value = { List ℕ };

    ghost view = { λ b. b.inner.items };
}

impl Bytes {
    pub fn new(alloc: Global, from: &[u8]) -> Result<Bytes, NoMemory>
        ensures { IfOk result (λ bytes. bytes ≡ from.now) }
    {
        Ok(Bytes {
            inner: from.to_vec(alloc)?,
        })
    }

    pub fn from_vec(from: Vec<u8>) -> Bytes
        ensures { result ≡ from.items }
    {
        Bytes { inner: from }
    }

    /// The buffer of the bytes, so that whoever is done with them can fill it again.
    pub fn into_vec(self) -> Vec<u8>
        ensures { result.items ≡ self }
    {
        self.inner
    }

    pub fn as_slice(&self) -> &[u8]
        ensures { result.now ≡ self.now }
    {
        self.inner.as_slice()
    }

    pub fn copy(&self, alloc: Global) -> Result<Bytes, NoMemory>
        ensures { IfOk result (λ bytes. bytes ≡ self.now) }
    {
        Bytes::new(alloc, self.as_slice())
    }
}

impl Clone for Bytes {
    ghost use Rattle.std.specs.Prelude.{◌≡◌};

    ghost is_clone = { λ bytes copy. copy ≡ bytes };

    fn clone(&self) -> Result<Bytes, AllocError> {
        Ok(Bytes::from_vec(self.inner.clone()?))
    }
}
