//! The laws on messages for what code holds, for crates above.
ghost use Rattle.tsds_service.specs.MessageLaws.{MessagesStand, RunsBegin};

use crate::laws::{machines_are_seen, messages};

/// What code holds is told of a message what the plain machine is told, and is left as what is seen of what that one leaves, by its
/// step and by its unit.
pub fn messages_stand()
    ensures { MessagesStand }
{
    machines_are_seen();
    messages();
}

/// A run that begins at a sound machine's own moment begins soundly.
pub fn runs_begin()
    ensures { RunsBegin }
{}
