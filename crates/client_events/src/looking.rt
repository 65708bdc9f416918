//! Looks at the log: those that begin a line, and those that pin its locks.

ghost use Rattle.std.specs.Prelude.{◌≡◌, ℕ, List, length, false};
ghost use Rattle.op_model.specs.declared.base.Dataset.{Dataset};
ghost use Rattle.op_model.specs.declared.base.Base.{Base};
ghost use Rattle.op_model.specs.declared.entry.Entry.{Entry};
ghost use Rattle.session_machine.specs.Machine.{Shared, ClientState, looked as looked_at, pin as pinned};
ghost use Rattle.op_model.specs.declared.request.Request.TheVariants as request;
ghost use Rattle.op_model.specs.Refusals.{refuse_early};
ghost use Rattle.op_model.specs.Transcript.{Asks};
ghost use Rattle.client_events.specs.Masks.{are_held, numbers};
ghost use Rattle.client_events.specs.Calls.{IsStood};
ghost use Rattle.client_events.specs.Phases.{phase_of, line_of};
ghost use Rattle.client_events.specs.Events.{Holds, LineRead, Same, pinned_phase};

use crate::lines::LineText;
use crate::locks::holds_each;
use crate::phases::{After, Looked, Phase};
use crate::releasing::locking;
use crate::rows::Rows;
use op_model::{Edit, LineError, Read, Reply, Request};
use std::alloc::Global;

/// The look that begins an edit. It takes no memory.
#[tactic(auto, using(crate::proofs::LookLemmas::looked_locks, crate::proofs::LookLemmas::looked_refused))]
pub(crate) fn look<R: Rows>(rows: &mut R, edit: Edit) -> Looked
    requires { IsStood (R.stands rows.old) }
    ensures rows { rows.new ≡ rows.old }
    ensures is { (d : Dataset) (b : Base) (sh : Shared) (s : ClientState) (client line : ℕ) → R.stands rows.old d b sh.log → Same client line result (looked_at d b sh s edit (refuse_early d b sh.log edit)) }
{
    let seen = rows.length();
    match rows.locks(&edit) {
        Ok(wanted) => Looked {
            phase: locking(edit, wanted, 0),
            seen,
        },
        Err(refusal) => Looked {
            phase: Phase::Replying(Reply::Refused { refusal, seen }),
            seen,
        },
    }
}

/// The look at a read.
fn look_read<R: Rows>(alloc: Global, rows: &mut R, read: &Read) -> Looked
    requires { IsStood (R.stands rows.old) }
    ensures rows { rows.new ≡ rows.old }
    ensures is { (d : Dataset) (b : Base) (sh : Shared) (s : ClientState) (client line : ℕ) → R.stands rows.old d b sh.log → LineRead d b sh s client line (Asks (request.Read read.now)) result }
{
    let seen = rows.length();
    Looked {
        phase: Phase::Replying(rows.answer(alloc, read)),
        seen,
    }
}

/// The look at a line of these bytes.
#[tactic(auto, using(crate::proofs::LookLemmas::line_read))]
fn look_bytes<R: Rows>(alloc: Global, rows: &mut R, bytes: &[u8], seen: u32) -> Looked
    requires { IsStood (R.stands rows.old) }
    ensures rows { rows.new ≡ rows.old }
    ensures is { (d : Dataset) (b : Base) (sh : Shared) (s : ClientState) (client line : ℕ) → R.stands rows.old d b sh.log → s.seen ≡ seen → LineRead d b sh s client line (R.asked bytes.now) result }
{
    match rows.read_line(alloc, bytes) {
        Ok(Request::Read(read)) => look_read(alloc, rows, &read),
        Ok(Request::Edit(edit)) => look(rows, edit),
        Err(LineError::NoMemory) => Looked {
            phase: Phase::Replying(Reply::NoMemory),
            seen: rows.length(),
        },
        Err(error) => Looked {
            phase: Phase::Replying(Reply::BadLine { error }),
            seen,
        },
    }
}

/// The look that begins a line, which is taken.
pub(crate) fn look_line<R: Rows>(alloc: Global, rows: &mut R, text: &LineText, seen: u32) -> Looked
    requires { IsStood (R.stands rows.old) }
    ensures rows { rows.new ≡ rows.old }
    ensures is { (d : Dataset) (b : Base) (sh : Shared) (s : ClientState) (client line : ℕ) → R.stands rows.old d b sh.log → s.seen ≡ seen → LineRead d b sh s client line (line_of R.asked text.now) result }
{
    match text {
        LineText::Bytes(bytes) => look_bytes(alloc, rows, bytes.as_slice(), seen),
        LineText::Long(bytes) => Looked {
            phase: Phase::Replying(Reply::BadLine {
                error: LineError::LineTooLong { bytes: *bytes },
            }),
            seen,
        },
    }
}

/// Goes on past the locks where these are all held, and else gives them back and begins again.
fn pinned_or_again(locks: &[u32], client: u32, edit: Edit, wanted: u64) -> Phase
    requires { length locks.now ≡ 64 }
    ensures { (line : ℕ) → phase_of client line result ≡ pinned_phase edit (are_held locks.now client (numbers wanted 0)) }
{
    if holds_each(locks, client, wanted) {
        Phase::Planning(edit)
    } else {
        Phase::Releasing(After::Restart(edit))
    }
}

/// The look that pins the locks held, if those of the roots touched there are all held.
#[tactic(auto, using(crate::proofs::LookLemmas::pin_locks, crate::proofs::LookLemmas::pin_refused))]
pub(crate) fn pin<R: Rows>(rows: &mut R, locks: &[u32], client: u32, edit: Edit) -> Looked
    requires stood { IsStood (R.stands rows.old) }
    requires table { length locks.now ≡ 64 }
    ensures rows { rows.new ≡ rows.old }
    ensures is { (d : Dataset) (b : Base) (sh : Shared) (s : ClientState) (line : ℕ) → R.stands rows.old d b sh.log → Holds locks.now client s.held → Same client line result (pinned d b sh s edit) }
{
    let seen = rows.length();
    match rows.locks(&edit) {
        Ok(wanted) => Looked {
            phase: pinned_or_again(locks, client, edit, wanted),
            seen,
        },
        Err(refusal) => Looked {
            phase: Phase::Releasing(After::Answer(Reply::Refused { refusal, seen })),
            seen,
        },
    }
}
