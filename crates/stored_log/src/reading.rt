//! Requests, and replies to reads.

ghost use Rattle.std.specs.Prelude.{◌≡◌};
ghost use Rattle.record_rows.specs.Readings.{ForEachLog, Image};
ghost use Rattle.log_rows.specs.Entries.{HasLog};
ghost use Rattle.client_events.specs.Calls.{Answers, Reads};
ghost use Rattle.stored_log.specs.Stored.{asked_line};

use log_calls::answer;
use op_model::{LineError, Read, Reply, Request};
use pcg_base::Words;
use request_lines::read_line;
use std::alloc::Global;

/// What a line asks, or why it is no request.
pub(crate) fn read_request(alloc: Global, line: &[u8]) -> Result<Request, LineError>
    ensures { Reads result (asked_line line.now) }
{
    read_line(alloc, line)
}

/// The reply to a read at the whole log.
pub(crate) fn reply<W: Words>(alloc: Global, w: &mut W, read: &Read) -> Reply
    requires image { HasLog Image (W.words w.old) }
    ensures same { w.new ≡ w.old }
    ensures is { ForEachLog Image (W.words w.old) (λ d b log. Answers d b log read.now result) }
{
    answer(alloc, w, read)
}
