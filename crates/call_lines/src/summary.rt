//! The summary of a call that came past its sessions.

ghost use Rattle.std.specs.Prelude.{◌≡◌, ◌++◌, codes, decimal, OnOk, OnErr};
ghost use Rattle.std.specs.Io.KnownBytes.{Appends};
ghost use Rattle.pcg_base.specs.Causes.{HasCause};
ghost use Rattle.pcg_base.specs.Told.{AppendsFront, IsFlushed};
ghost use Rattle.request_lines.specs.Sent.{Puts};
ghost use Rattle.call_lines.specs.Statuses.{fault_status};
ghost use Rattle.call_lines.specs.Texts.{client_fault_text, fault_name, summary_text};

use crate::status::Status;
use pcg_base::{Failed, Sink};
use request_lines::{Page, Written, put_list};

/// How a session may end before its lines do.
#[derive(Clone, Copy)]
pub enum Fault {
    /// A read of the client's requests failed.
    ReadFault,
    /// A write of the client's answers failed.
    WriteFault,
    /// The client's requests have more than 1,073,741,824 bytes.
    TooLong,
}

impl Fault {
    /// The status that the call answers, where this is the fault of the least client with one.
    pub fn status(&self) -> Status
        ensures { result ≡ fault_status self.now }
    {
        match self {
            Fault::ReadFault => Status::ReadFault,
            Fault::WriteFault => Status::WriteFault,
            Fault::TooLong => Status::TooLong,
        }
    }
}

/// A client whose session ended in a fault.
#[derive(Clone, Copy, Drop)]
pub struct ClientFault {
    /// The client's number, counted from 1.
    pub client: u32,
    /// Its fault.
    pub fault: Fault,
}

/// What a call came to.
#[derive(Drop)]
pub struct Summary {
    /// How many edits were accepted.
    pub accepted: u32,
    /// How many clients there were.
    pub clients: u32,
    /// How many entries the log has.
    pub entries: u32,
    /// The clients whose sessions ended in a fault, ascending.
    pub faults: Vec<ClientFault>,
    /// How many replies were written.
    pub lines: u64,
    /// How many records the log takes.
    pub records: u64,
    /// How many of the replies refuse their line.
    pub refused: u64,
    /// How many roots aren't retired.
    pub roots: u64,
    /// The status that the call answers, where the output doesn't fail.
    pub status: Status,
}

/// The name of a session's fault.
#[tactic(auto, unfolding(crate::specs::Texts::fault_name))]
fn name_of(fault: Fault) -> &'static [u8]
    ensures { result.now ≡ fault_name fault }
{
    match fault {
        Fault::ReadFault => b"ReadFault",
        Fault::WriteFault => b"WriteFault",
        Fault::TooLong => b"TooLong",
    }
}

impl Written for ClientFault {
    ghost text = { client_fault_text };

    fn put_on<K: Sink>(&self, page: &mut Page, out: &mut K) {
        page.put_number(out, b"[", self.client as u64);
        page.put_word(out, b",", name_of(self.fault));
        page.put(out, b"]");
    }
}

/// Puts a summary.
#[tactic(auto, unfolding(crate::specs::Texts::summary_line))]
fn put_summary<K: Sink>(page: &mut Page, out: &mut K, summary: &Summary)
    ensures { Puts (K.state out.old) (K.state out.new) page.old page.new
        (summary_text summary.now) }
{
    page.put_number(out, b"{\"accepted\":", summary.accepted as u64);
    page.put_number(out, b",\"clients\":", summary.clients as u64);
    page.put_number(out, b",\"entries\":", summary.entries as u64);
    page.put(out, b",\"faults\":");
    put_list(page, out, summary.faults.as_slice());
    page.put_number(out, b",\"lines\":", summary.lines);
    page.put_number(out, b",\"records\":", summary.records);
    page.put_number(out, b",\"refused\":", summary.refused);
    page.put_number(out, b",\"roots\":", summary.roots);
    page.put_number(out, b",\"status\":", summary.status.code() as u64);
    page.put(out, b"}\n");
}

/// Writes a summary. It takes no memory. Behind it all that the sink holds is
/// flushed. After `Failed` a front of it was written.
#[tactic(auto, using(request_lines::proofs::Whole::whole_ok))]
pub fn write_summary<K: Sink>(summary: &Summary, out: &mut K) -> Result<(), Failed>
    ensures ok { OnOk result
        (Appends (K.state out.old).held (K.state out.new).held (summary_text summary.now)) }
    ensures err { OnErr result
        (AppendsFront (K.state out.old).held (K.state out.new).held (summary_text summary.now)) }
    ensures flushed { OnOk result (IsFlushed (K.state out.new).held (K.state out.new).flushed) }
    ensures cause { HasCause (K.state out.old).faults (K.state out.new).faults result }
{
    let mut page = Page::new();
    put_summary(&mut page, out, summary);
    page.finish(out)
}
