//! Machines that scripts are run on.
ghost use Rattle.std.specs.Prelude.{◌≡◌, ◌≤◌, ℕ, List, true, Option, None, IfOk, IfErr, OnOk, OnErr, Ok, Err};
ghost use Rattle.std.specs.Option.{option_map};
ghost use Rattle.edge_face.specs.Contents.{Rose};
ghost use Rattle.edge_face.specs.Table.{Table};
ghost use Rattle.tsds_cli.specs.Ahead.{event_in};
ghost use Rattle.tsds_cli.specs.Limits.{IsShort};
ghost use Rattle.tsds_cli.specs.Play.{Play, IsTable, written_by};
ghost use Rattle.tsds_cli.specs.Replies.{reply_line};
ghost use Rattle.tsds_cli.specs.declared.script.Opening.{Opening as opening_type};

use crate::reply::Reply;
use crate::script::{Heard, Opening};
use edge_face::{KeepError, Keeper, NoMemory};
use std::alloc::Global;

/// A machine that a script is run on, beside the keeper of its records.
pub trait Player<P: Keeper> {
    /// What it does with events, what refused events leave, and which tables are its image.
    ghost play: { Play Self };

    /// What the unit leaves behind an event that was opened so.
    ghost rest_of: { opening_type → Self → Self };

    /// What has to hold of it and of its keeper's path and table, which events keep.
    ghost suits: { Self → Option (List ℕ) → Option Table → Type 0 } = { λ _ _ _. Unit {0} };

    /// Makes the step of an event, which is the machine's from now on. An event that is to write changes the table in one go, or not at all.
    fn act(
        &mut self,
        alloc: Global,
        heard: &mut Heard,
        keeper: &mut P,
    ) -> Result<Option<Reply>, KeepError>
        requires suited { suits self.old (P.path keeper.old) (P.table keeper.old) }
        requires short { IsShort (event_in heard.old) }
        ensures reply { IfOk result (λ r. option_map reply_line r ≡ (play.act self.old (event_in heard.old)).reply) }
        ensures stepped { OnOk result (self.new ≡ (play.act self.old (event_in heard.old)).stepped) }
        ensures after { OnOk result ((play.act self.old (event_in heard.old)).after ≡ rest_of heard.old.opening self.new) }
        ensures table { OnOk result (IsTable play.image (written_by (play.act self.old (event_in heard.old)) None) (P.table keeper.old) (P.table keeper.new)) }
        ensures suited { OnOk result (suits self.new (P.path keeper.new) (P.table keeper.new)) }
        ensures left { IfErr result (λ e. play.left self.old (event_in heard.old) e self.new) }
        ensures kept { OnErr result (P.table keeper.new ≡ P.table keeper.old) }
        ensures wrote { result ≡ Err KeepError.Failed → (play.act self.old (event_in heard.old)).wrote ≡ true }
        ensures caused { result ≡ Err KeepError.Failed → Rose (P.faults keeper.old) (P.faults keeper.new) }
        ensures counted { P.faults keeper.old ≤ P.faults keeper.new }
        ensures path { P.path keeper.new ≡ P.path keeper.old };

    /// Makes the unit behind an event that was opened so, where it has one. Without memory nothing is changed.
    fn go_on(&mut self, alloc: Global, opening: Opening) -> Result<(), NoMemory>
        ensures after { OnOk result (self.new ≡ rest_of opening self.old) }
        ensures suited { OnOk result ((path : Option (List ℕ)) (table : Option Table) → suits self.old path table → suits self.new path table) }
        ensures refused { OnErr result (self.new ≡ self.old) };
}
