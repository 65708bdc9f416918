//! What a desk is.

ghost use Rattle.std.specs.Prelude.{◌≡◌};
ghost use Rattle.desks.specs.Desks.{Edits, Knows, Reads};

use op_model::{Edit, Read, Reply};
use std::alloc::Global;
use std::sync::Wait;

/// Where one client reads and edits.
pub trait Desk {
    /// What contracts see that the client knows.
    ghost knows: { Self → Knows };

    /// The client may ask. It may again behind each call.
    ghost ready: { Self → Type 0 };

    /// The client's number, from 1 on.
    fn client(&self) -> u32
        ensures { result ≡ (knows self.now).client };

    /// Answers a read at all that is seen of the log.
    fn read(&mut self, alloc: Global, request: &Read) -> Reply
        requires { ready self.old }
        ensures ready { ready self.new }
        ensures reads { Reads (knows self.old) request.now result (knows self.new) };

    /// Does an edit: its entry, with this line's number, is the next one of the log, or nothing
    /// changes.
    fn edit<R: Wait>(&mut self, rt: &R, alloc: Global, edit: Edit, line: u32) -> Reply
        requires { ready self.old }
        ensures ready { ready self.new }
        ensures edits { Edits (knows self.old) edit line result (knows self.new) };
}
