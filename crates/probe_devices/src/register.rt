//! A machine that keeps the last body sent, and a record of it.
ghost use Rattle.std.specs.Prelude.{◌≡◌, ◌≤◌, [], IsSome, OnOk, OnErr, Err};
ghost use Rattle.edge_face.specs.Contents.{Rose};
ghost use Rattle.tsds_cli.specs.Examples.{HasRecord, last_play};
ghost use Rattle.tsds_cli.specs.Play.{IsToldAs};
ghost use Rattle.tsds_cli.specs.Script.{is_empty};

use edge_face::{Bytes, Change, KeepError, Keeper, NoMemory, Text};
use reply_json::Out;
use std::alloc::Global;
use std::marker::Model;
use std::mem;
use tsds_cli::{Heard, Opening, Player, Reply};

/// The body that was sent last.
#[derive(Drop)]
pub struct Register {
    body: Vec<u8>,
}

impl Model for Register {
    ghost use Rattle.std.specs.Prelude.{List, ℕ};

    ghost Value = { List ℕ };

    ghost view = { λ r. r.body.items };
}

impl Register {
    pub fn new(alloc: Global) -> Register
        ensures { result ≡ [] }
    {
        Register {
            body: Vec::new(alloc),
        }
    }
}

/// Writes the record of a body.
#[tactic(auto, using(crate::proofs::RecordLemmas::told_record))]
fn write<P: Keeper>(alloc: Global, body: &[u8], keeper: &mut P) -> Result<(), KeepError>
    requires open { IsSome (P.path keeper.old) }
    ensures written { OnOk result (IsToldAs (P.table keeper.old) (P.table keeper.new) (HasRecord body.now)) }
    ensures kept { OnErr result (P.table keeper.new ≡ P.table keeper.old) }
    ensures caused { result ≡ Err KeepError.Failed → Rose (P.faults keeper.old) (P.faults keeper.new) }
    ensures counted { P.faults keeper.old ≤ P.faults keeper.new }
    ensures path { P.path keeper.new ≡ P.path keeper.old }
{
    let bytes = Bytes::new(alloc, body)?;
    let changes = [Change::Put {
        key: Text::fixed("last"),
        bytes,
    }];
    keeper.replace(alloc, &changes)?;
    Ok(())
}

fn is_nothing(body: &[u8]) -> bool
    ensures { result ≡ is_empty body.now }
{
    match body {
        [] => true,
        [_, ..] => false,
    }
}

impl<P: Keeper> Player<P> for Register {
    ghost play = { last_play };

    ghost rest_of = { λ _ last. last };

    ghost suits = { λ _ path _. IsSome path };

    #[tactic(auto, unfolding(tsds_cli::specs::Examples::last_act))]
    fn act(
        &mut self,
        alloc: Global,
        heard: &mut Heard,
        keeper: &mut P,
    ) -> Result<Option<Reply>, KeepError> {
        match heard.opening {
            Opening::Moment => Ok(None),
            Opening::Request => {
                if !is_nothing(heard.body.as_slice()) {
                    write(alloc, heard.body.as_slice(), keeper)?;
                    mem::swap(&mut self.body, &mut heard.body);
                }
                Ok(Some(Reply {
                    status: 200,
                    tree: Out::Num(self.body.len() as i128),
                }))
            }
        }
    }

    fn go_on(&mut self, _alloc: Global, _opening: Opening) -> Result<(), NoMemory> {
        Ok(())
    }
}
