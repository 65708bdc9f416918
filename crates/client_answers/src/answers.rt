//! The answers of clients.

ghost use Rattle.std.specs.Prelude.{◌≡◌, ◌+◌, ◌^◌, ◌-◌, if◌then◌else◌, OnOk, OnErr, min};
ghost use Rattle.op_model.specs.declared.reply.Reply.{Reply as ReplyValue};
ghost use Rattle.pcg_base.specs.Causes.{HasCause};
ghost use Rattle.client_answers.specs.Answers.{IsMissed, IsPut, IsWritten, IsBroken, fault_sum, refuses};

use client_events::Outlet;
use op_model::Reply;
use pcg_base::{Failed, Sink};
use request_lines::write_reply;

/// A client's answers: where they go, and what was written.
#[derive(Drop)]
pub struct ClientAnswers<K: Drop> {
    /// Where the replies go.
    pub sink: K,
    /// How many replies were written, at most 4,294,967,295.
    pub lines: u32,
    /// How many of them refuse their line, at most as many.
    pub refused: u32,
    /// Whether the writing of a reply failed.
    pub failed: bool,
}

/// The answers of all clients; those of client 1 are the first.
#[derive(Drop)]
pub struct AllAnswers<K: Drop> {
    /// One for each client.
    pub list: Vec<ClientAnswers<K>>,
}

/// Whether a reply refuses its line.
#[tactic(auto, unfolding(crate::specs::Answers::refuses))]
fn refuses(reply: &Reply) -> bool
    ensures { result ≡ refuses reply.now }
{
    match reply {
        Reply::Refused { .. } => true,
        Reply::BadLine { .. } => true,
        Reply::NoMemory => true,
        _ => false,
    }
}

/// Counts a reply that was written.
fn count<K: Drop>(answers: &mut ClientAnswers<K>, reply: &Reply)
    ensures sink { answers.new.sink ≡ answers.old.sink }
    ensures lines { answers.new.lines ≡ min (answers.old.lines + 1) (2 ^ 32 - 1) }
    ensures refused { answers.new.refused
        ≡ (if refuses reply.now then min (answers.old.refused
        + 1) (2 ^ 32 - 1) else answers.old.refused) }
    ensures failed { answers.new.failed ≡ answers.old.failed }
{
    answers.lines = answers.lines.saturating_add(1);
    if refuses(reply) {
        answers.refused = answers.refused.saturating_add(1);
    }
}

/// Writes a reply to a client's sink.
fn write<K: Sink + Drop>(answers: &mut ClientAnswers<K>, reply: &Reply) -> Result<(), Failed>
    ensures ok { OnOk result (IsWritten K.state answers.old reply.now answers.new) }
    ensures err { OnErr result (IsBroken K.state answers.old reply.now answers.new) }
    ensures cause { HasCause (K.state answers.old.sink).faults (K.state answers.new.sink).faults
        result }
{
    if write_reply(reply, &mut answers.sink).is_err() {
        answers.failed = true;
        return Err(Failed);
    }
    count(answers, reply);
    Ok(())
}

impl<K: Sink + Drop> Outlet for AllAnswers<K> {
    ghost faults = { λ a. fault_sum K.state a.list.items };

    ghost puts = { IsPut K.state };

    ghost misses = { IsMissed K.state };

    fn put(&mut self, client: u32, reply: &Reply) -> Result<(), Failed> {
        let place = client.saturating_sub(1) as usize;
        if place >= self.list.len() {
            return Ok(());
        }
        write(&mut self.list[place], reply)
    }
}
