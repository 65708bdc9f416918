//! An outlet that collects.

ghost use Rattle.std.specs.Prelude.{⊤};
ghost use Rattle.pcg_base.specs.Causes.{HasCause};
ghost use Rattle.memory_devices.specs.Sinks.{faults_of};

use client_events::Outlet;
use memory_devices::MemSink;
use op_model::Reply;
use pcg_base::{Failed, write_all};
use request_lines::write_reply;

/// The replies of all clients in the order in which they were put, each with its client's number and
/// a space before its line.
#[derive(Drop)]
pub struct Collected {
    pub out: MemSink,
}

/// Writes a reply behind its client's number.
fn put_line(out: &mut MemSink, client: u32, reply: &Reply) -> Result<(), Failed>
    ensures cause { HasCause (faults_of out.old) (faults_of out.new) result }
{
    let number = match client {
        1 => b"1 ",
        2 => b"2 ",
        _ => b"3 ",
    };
    write_all(out, number)?;
    write_reply(reply, out)?;
    Ok(())
}

impl Outlet for Collected {
    ghost faults = { λ c. faults_of c.out };

    ghost puts = { λ _ _ _ _. ⊤ };

    ghost misses = { λ _ _ _ _. ⊤ };

    fn put(&mut self, client: u32, reply: &Reply) -> Result<(), Failed> {
        put_line(&mut self.out, client, reply)
    }
}
