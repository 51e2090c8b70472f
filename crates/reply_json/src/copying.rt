//! Copies of trees.
ghost use Rattle.std.specs.Prelude.{◌≡◌, IfOk};

use crate::out::{Member, Out};
use edge_face::NoMemory;
use sqlite_items::Items;
use std::alloc::Global;

impl Out {
    /// The same tree once more.
    pub fn copy(&self, alloc: Global) -> Result<Out, NoMemory>
        ensures { IfOk result (λ out. out ≡ self.now) }
    {
        let copy = copy_tree(alloc, self)?;
        Ok(copy)
    }
}

#[cycle(copy)]
fn copy_tree(alloc: Global, out: &Out) -> Result<Out, NoMemory>
    ensures { IfOk result (λ copy. copy ≡ out.now) }
{
    match out {
        Out::Null => Ok(Out::Null),
        Out::Flag(flag) => Ok(Out::Flag(*flag)),
        Out::Num(number) => Ok(Out::Num(*number)),
        Out::Word(word) => Ok(Out::Word(word.copy(alloc)?)),
        Out::List(elements) => {
            let copies = copy_elements(alloc, elements.as_slice())?;
            Ok(Out::List(Items::from_vec(copies)))
        }
        Out::Object(members) => {
            let copies = copy_members(alloc, members.as_slice())?;
            Ok(Out::Object(Items::from_vec(copies)))
        }
    }
}

#[cycle(copy)]
fn copy_elements(alloc: Global, elements: &[Out]) -> Result<Vec<Out>, NoMemory>
    ensures { IfOk result (λ copies. copies.items ≡ elements.now) }
{
    let mut copies = Vec::with_capacity(alloc, elements.len())?;
    for element in elements {
        copies.push(copy_tree(alloc, element)?)?;
    }
    Ok(copies)
}

#[cycle(copy)]
fn copy_members(alloc: Global, members: &[Member]) -> Result<Vec<Member>, NoMemory>
    ensures { IfOk result (λ copies. copies.items ≡ members.now) }
{
    let mut copies = Vec::with_capacity(alloc, members.len())?;
    for member in members {
        copies.push(copy_member(alloc, member)?)?;
    }
    Ok(copies)
}

#[cycle(copy)]
fn copy_member(alloc: Global, member: &Member) -> Result<Member, NoMemory>
    ensures { IfOk result (λ copy. copy ≡ member.now) }
{
    Ok(Member {
        name: member.name.copy(alloc)?,
        value: copy_tree(alloc, &member.value)?,
    })
}
