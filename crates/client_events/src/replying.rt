//! Replies that are written.

ghost use Rattle.std.specs.Prelude.{◌≤◌};
ghost use Rattle.pcg_base.specs.Causes.{Rose};
ghost use Rattle.client_events.specs.Events.{Written};

use crate::outlet::Outlet;
use crate::phases::Phase;
use op_model::Reply;

/// Puts a client's reply.
pub(crate) fn put_reply<O: Outlet>(outlet: &mut O, client: u32, reply: &Reply) -> Phase
    ensures written { Written (O.puts outlet.old client reply.now outlet.new) (O.misses outlet.old client reply.now outlet.new × Rose (O.faults outlet.old) (O.faults outlet.new)) result }
    ensures later { O.faults outlet.old ≤ O.faults outlet.new }
{
    match outlet.put(client, reply) {
        Ok(()) => Phase::Ready,
        Err(_) => Phase::Ended,
    }
}
