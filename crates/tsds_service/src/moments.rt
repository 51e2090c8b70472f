//! Moment lines.
ghost use Rattle.std.specs.Prelude.{◌≡◌, IfOk};
ghost use Rattle.tsds_service.specs.Messages.{moment_told};

use crate::causes::Cause;
use crate::refusals::refuse;
use crate::reply::Reply;
use edge_face::NoMemory;
use std::alloc::Global;
use time_text::read_instant;

/// The present after a moment line, and the reply where the line is refused.
#[derive(Drop)]
pub struct MomentTold {
    pub reply: Option<Reply>,
    pub now: i64,
}

/// What a moment line makes of the present: the instant that it says, where that is one and isn't earlier. The only error is a want
/// of memory.
pub fn tell_moment(alloc: Global, now: i64, text: &str) -> Result<MomentTold, NoMemory>
    ensures { IfOk result (λ told. told ≡ moment_told now text.now) }
{
    if let Ok(next) = read_instant(text) {
        if now <= next {
            return Ok(MomentTold {
                reply: None,
                now: next,
            });
        }
    }
    let reply = refuse(alloc, &Cause::BadMoment)?;
    Ok(MomentTold {
        reply: Some(reply),
        now,
    })
}
