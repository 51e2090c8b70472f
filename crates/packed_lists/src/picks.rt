//! Lists that are made of parts of others.
ghost use Rattle.std.specs.Prelude.{◌≡◌, ℕ, ℤ, ◌<◌, ◌≤◌, ◌++◌, List, [], length, OnOk, IfOk};
ghost use Rattle.packed_lists.specs.Packing.{picked, EachLies};

use crate::cursor::Cursor;
use crate::number_list::NumberList;
use crate::packer::Packer;
use edge_face::NoMemory;
use std::alloc::Global;

/// The numbers of a list from a place up to another.
#[derive(Clone, Copy, Debug)]
pub struct Turn {
    pub source: usize,
    pub from: usize,
    pub to: usize,
}

/// Appends what turns take from lists.
pub fn pick(turns: &[Turn], lists: &mut [Cursor<'_>], into: &mut Packer) -> Result<(), NoMemory>
    requires few { length lists.old ≤ 65536 }
    requires turns { EachLies lists.old turns.now }
    ensures numbers { OnOk result (into.new ≡ into.old ++ picked lists.old turns.now) }
    ensures same { lists.new ≡ lists.old }
{
    for turn in turns {
        lists[turn.source].copy(turn.from, turn.to, into)?;
    }
    Ok(())
}

/// A cursor over each of some lists.
fn cursors_of(alloc: Global, lists: &[NumberList]) -> Result<Vec<Cursor<'_>>, NoMemory>
    ensures { IfOk result (λ cursors. cursors.items ≡ lists.now) }
{
    let mut cursors = Vec::with_capacity(alloc, lists.len())?;
    for list in lists {
        cursors.push(list.cursor())?;
    }
    Ok(cursors)
}

/// The list of what turns take from lists.
pub fn merge_lists(
    alloc: Global,
    lists: &[NumberList],
    turns: &[Turn],
) -> Result<NumberList, NoMemory>
    requires few { length lists.now ≤ 65536 }
    requires turns { EachLies lists.now turns.now }
    ensures { IfOk result (λ list. list ≡ picked lists.now turns.now) }
{
    let mut cursors = cursors_of(alloc, lists)?;
    let mut packer = Packer::new(alloc);
    pick(turns, cursors.as_mut_slice(), &mut packer)?;
    packer.finish()
}
