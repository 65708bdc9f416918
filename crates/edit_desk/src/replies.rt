//! What is replied to an edit.

ghost use Rattle.std.specs.Prelude.{◌≡◌};
ghost use Rattle.edit_desk.specs.Turns.{refusal_reply, reply_of};

use crate::turning::Put;
use op_model::{Plan, Refusal, Reply, Shown};

/// The reply to an edit that is refused at a log of this length, or for which there was no memory.
pub(crate) fn refusal_reply(refusal: Refusal, seen: u32) -> Reply
    ensures { result ≡ refusal_reply refusal seen }
{
    match refusal {
        Refusal::NoMemory => Reply::NoMemory,
        refusal => Reply::Refused { refusal, seen },
    }
}

/// What a plan's reply shows.
pub(crate) fn shown_of(plan: Plan) -> Option<Shown>
    ensures { result ≡ plan.shown }
{
    let Plan { shown, .. } = plan;
    shown
}

/// The reply to an edit whose entry was put, or why it wasn't at a log of this length.
pub(crate) fn reply_of(put: Result<Put, Refusal>, shown: Option<Shown>, seen: u32) -> Reply
    ensures { result ≡ reply_of put shown seen }
{
    match put {
        Ok(put) => Reply::Edited {
            op: put.op,
            at: put.at,
            retired: put.retired,
            made: put.made,
            shown,
            seen: put.seen,
        },
        Err(refusal) => refusal_reply(refusal, seen),
    }
}
