//! The replies to reads.

ghost use Rattle.std.specs.Prelude.{◌≡◌};
ghost use Rattle.record_rows.specs.Readings.{ForEachLog, Image};
ghost use Rattle.log_rows.specs.Entries.{HasLog};
ghost use Rattle.timestamp_reader.specs.Replies.{IsAnswer};

use op_model::{Read, Reply};
use pcg_base::Words;
use std::alloc::Global;

/// The whole reply to a read at the whole log: its first refusal, else its answer. Of the reads that
/// aren't refused one of leaves or of changes may be answered `NoMemory`.
pub fn answer<W: Words>(alloc: Global, w: &mut W, read: &Read) -> Reply
    requires image { HasLog Image (W.words w.old) }
    ensures same { w.new ≡ w.old }
    ensures is { ForEachLog Image (W.words w.old) (λ d b log. IsAnswer d b log read.now result) }
{
    timestamp_reader::answer(alloc, w, read)
}
