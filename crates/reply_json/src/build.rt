ghost use Rattle.std.specs.Prelude.{◌≡◌, ℕ, [], ◌∷◌, ◌++◌, codes, pos, IfOk};
ghost use Rattle.reply_json.specs.declared.out.Out.{List as list, Num as number, Object as object, Word as word};
ghost use Rattle.reply_json.specs.Trees.{member, error_tree};

use crate::out::{Member, Out};
use edge_face::{NoMemory, Text};
use sqlite_items::Items;
use std::alloc::Global;
use std::marker::Model;

impl Out {
    /// A text.
    pub fn word(alloc: Global, text: &str) -> Result<Out, NoMemory>
        ensures { IfOk result (λ out. out ≡ word text.now) }
    {
        Ok(Out::Word(Text::new(alloc, text)?))
    }

    /// A text that stands in the program. It takes no memory.
    pub fn fixed(text: &'static str) -> Out
        ensures { result ≡ word text.now }
    {
        Out::Word(Text::fixed(text))
    }

    /// A list of these elements.
    pub fn list(elements: Vec<Out>) -> Out
        ensures { result ≡ list elements.items }
    {
        Out::List(Items::from_vec(elements))
    }
}

impl Member {
    /// A member whose name stands in the program. The name takes no memory.
    pub fn fixed(name: &'static str, value: Out) -> Member
        ensures { result ≡ member name.now value }
    {
        Member {
            name: Text::fixed(name),
            value,
        }
    }

    pub fn new(alloc: Global, name: &str, value: Out) -> Result<Member, NoMemory>
        ensures { IfOk result (λ m. m ≡ member name.now value) }
    {
        Ok(Member {
            name: Text::new(alloc, name)?,
            value,
        })
    }
}

/// The members of an object that is being built.
#[derive(Drop)]
pub struct Members {
    inner: Vec<Member>,
}

impl Model for Members {
    ghost use Rattle.std.specs.Prelude.{List};
    ghost use Rattle.reply_json.specs.declared.out.Member.{Member as member};
    ghost use Rattle.std.specs.Coded.{codes};
    ghost use Rattle.reply_json.specs.contracts.out.Out as e;

    ghost Value = { List member };

    ghost coded = { Prim.hlevel (codes, e.the_row.coded) };

    ghost view = { λ m. m.inner.items };
}

impl Members {
    pub fn new(alloc: Global) -> Members
        ensures { result ≡ [] }
    {
        Members {
            inner: Vec::new(alloc),
        }
    }

    /// No members yet, with room for so many.
    pub fn with_capacity(alloc: Global, number: usize) -> Result<Members, NoMemory>
        ensures { IfOk result (λ m. m ≡ []) }
    {
        Ok(Members {
            inner: Vec::with_capacity(alloc, number)?,
        })
    }

    /// These members, in their order.
    pub fn of(members: Vec<Member>) -> Members
        ensures { result ≡ members.items }
    {
        Members { inner: members }
    }

    /// These members, and one more at the end, whose name stands in the program.
    pub fn with(self, name: &'static str, value: Out) -> Result<Members, NoMemory>
        ensures { IfOk result (λ m. m ≡ self ++ member name.now value ∷ []) }
    {
        let Members { mut inner } = self;
        inner.push(Member::fixed(name, value))?;
        Ok(Members { inner })
    }

    /// The object that has them.
    pub fn object(self) -> Out
        ensures { result ≡ object self }
    {
        let Members { inner } = self;
        Out::Object(Items::from_vec(inner))
    }
}

/// The reply to a refused request: `{"error":{"type":kind,"reason":reason},"status":status}`. A reason that stands in the program
/// (`Text::fixed`) takes no memory.
pub fn error_reply(
    alloc: Global,
    status: u16,
    kind: &'static str,
    reason: Text,
) -> Result<Out, NoMemory>
    ensures { IfOk result (λ out. out ≡ error_tree status kind.now reason) }
{
    let cause = Members::with_capacity(alloc, 2)?
        .with("type", Out::fixed(kind))?
        .with("reason", Out::Word(reason))?;
    let reply = Members::with_capacity(alloc, 2)?
        .with("error", cause.object())?
        .with("status", Out::Num(i128::from(status)))?;
    Ok(reply.object())
}
