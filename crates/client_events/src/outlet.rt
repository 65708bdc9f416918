//! Where the replies of clients go.

ghost use Rattle.std.specs.Prelude.{ℕ, OnOk, OnErr};
ghost use Rattle.op_model.specs.declared.reply.Reply.{Reply as ReplyValue};
ghost use Rattle.pcg_base.specs.Causes.{HasCause};

use op_model::Reply;
use pcg_base::Failed;

/// Where the replies of clients go.
pub trait Outlet {
    /// How often it has failed.
    ghost faults: { Self → ℕ };

    /// What it is after a reply of a client was put, seen from what it was before.
    ghost puts: { Self → ℕ → ReplyValue → Self → Type 0 };

    /// What it is after a reply couldn't be put.
    ghost misses: { Self → ℕ → ReplyValue → Self → Type 0 };

    /// Puts a client's reply.
    fn put(&mut self, client: u32, reply: &Reply) -> Result<(), Failed>
        ensures ok { OnOk result (puts self.old client reply.now self.new) }
        ensures err { OnErr result (misses self.old client reply.now self.new) }
        ensures cause { HasCause (faults self.old) (faults self.new) result };
}
