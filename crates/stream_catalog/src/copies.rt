//! Copies of streams and of folds under way.
ghost use Rattle.std.specs.Prelude.{◌≡◌, IfOk};

use crate::facts::{StreamFacts, TaskFacts};
use crate::held_streams::HeldStream;
use edge_face::{NoMemory, Text};
use lifecycle_swap::Lifecycle;
use sqlite_items::Items;
use std::alloc::Global;

/// Something that can be copied.
pub(crate) trait Copied: Drop {
    fn copied(&self, alloc: Global) -> Result<Self, NoMemory>
        ensures { IfOk result (λ copy. copy ≡ self.now) };
}

/// Copies of some.
pub(crate) fn copy_all<T: Copied>(alloc: Global, items: &[T]) -> Result<Vec<T>, NoMemory>
    ensures { IfOk result (λ copies. copies.items ≡ items.now) }
{
    let mut copies = Vec::new(alloc);
    for item in items {
        let copy = item.copied(alloc)?;
        copies.push(copy)?;
    }
    Ok(copies)
}

impl Copied for Text {
    fn copied(&self, alloc: Global) -> Result<Text, NoMemory> {
        self.copy(alloc)
    }
}

impl Copied for TaskFacts {
    fn copied(&self, alloc: Global) -> Result<TaskFacts, NoMemory> {
        Ok(TaskFacts {
            index: self.index.copy(alloc)?,
            target: self.target.copy(alloc)?,
            by: self.by,
            done: self.done,
            rises: self.rises,
        })
    }
}

impl Copied for StreamFacts {
    fn copied(&self, alloc: Global) -> Result<StreamFacts, NoMemory> {
        Ok(StreamFacts {
            name: self.name.copy(alloc)?,
            template: self.template.copy(alloc)?,
            generation: self.generation,
            members: Items::from_vec(copy_all(alloc, self.members.as_slice())?),
        })
    }
}

impl Copied for Lifecycle {
    fn copied(&self, alloc: Global) -> Result<Lifecycle, NoMemory> {
        Ok(Lifecycle {
            retention: self.retention,
            rounds: Items::from_slice(alloc, self.rounds.as_slice())?,
        })
    }
}

/// A copy of a stream's lifecycle, if it has one.
fn copy_life(alloc: Global, life: &Option<Lifecycle>) -> Result<Option<Lifecycle>, NoMemory>
    ensures { IfOk result (λ copy. copy ≡ life.now) }
{
    match life {
        None => Ok(None),
        Some(life) => Ok(Some(life.copied(alloc)?)),
    }
}

impl Copied for HeldStream {
    fn copied(&self, alloc: Global) -> Result<HeldStream, NoMemory> {
        Ok(HeldStream {
            facts: self.facts.copied(alloc)?,
            life: copy_life(alloc, &self.life)?,
        })
    }
}
