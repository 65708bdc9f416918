//! The summary of a trial.

ghost use Rattle.std.specs.Prelude.{◌≡◌, ◌≤◌};
ghost use Rattle.pcg_base.specs.Told.{IsFlushed};
ghost use Rattle.call_lines.specs.declared.status.Status.TheVariants as statuses;
ghost use Rattle.call_lines.specs.Texts.{summary_text};
ghost use Rattle.rehearsal.specs.Between.{states};
ghost use Rattle.trials.specs.Trials.{LinePrinted};

use call_lines::{Status, Summary, write_summary};
use pcg_base::{Failed, Sink};

/// Writes a summary, and answers the status of a call that came to its end.
pub(crate) fn print<K: Sink>(summary: &Summary, out: &mut K) -> Status
    ensures printed { LinePrinted (states K.state out.old out.new) (summary_text summary.now)
        result }
    ensures flushed { result ≡ statuses.Done
        → IsFlushed (K.state out.new).held (K.state out.new).flushed }
    ensures later { (K.state out.old).faults ≤ (K.state out.new).faults }
{
    match write_summary(summary, out) {
        Ok(()) => Status::Done,
        Err(Failed) => Status::WriteFault,
    }
}
