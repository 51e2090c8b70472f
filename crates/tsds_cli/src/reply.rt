//! Replies, and the lines that they are written as.
ghost use Rattle.std.specs.Prelude.{◌≡◌, ◌++◌, OnOk};
ghost use Rattle.tsds_cli.specs.Replies.{reply_line};

use edge_face::NoMemory;
use reply_json::{Out, print};

/// A reply: a status and a tree.
#[derive(Drop)]
pub struct Reply {
    pub status: u16,
    pub tree: Out,
}

/// Appends a reply in one line: its status, a space, its text and a newline.
#[tactic(auto, unfolding(crate::specs::Replies::reply_line))]
pub fn print_reply(reply: &Reply, into: &mut Vec<u8>) -> Result<(), NoMemory>
    ensures { OnOk result (into.new.items ≡ into.old.items ++ reply_line reply.now) }
{
    into.extend_from_slice(itoa::Buffer::new().format(reply.status).as_bytes())?;
    into.push(b' ')?;
    print(&reply.tree, into)?;
    into.push(b'\n')?;
    Ok(())
}
