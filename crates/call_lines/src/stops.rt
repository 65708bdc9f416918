//! Why a call stops before its sessions, and its fault line.

ghost use Rattle.std.specs.Prelude.{◌≡◌, ◌++◌, codes, decimal, OnOk, OnErr};
ghost use Rattle.std.specs.Io.KnownBytes.{Appends};
ghost use Rattle.pcg_base.specs.Causes.{HasCause};
ghost use Rattle.pcg_base.specs.Told.{AppendsFront, IsFlushed};
ghost use Rattle.request_lines.specs.Sent.{Puts};
ghost use Rattle.call_lines.specs.Texts.{file_name, of_capacity, of_chunk, of_file, of_table, of_word, stop_text};
ghost use Rattle.table_ingest.specs.Faults.{cause_name, table_name};
ghost use Rattle.call_lines.specs.Statuses.{status_of};

use crate::status::Status;
use pcg_base::{Failed, Sink};
use request_lines::Page;
use table_ingest::{Cause, Table};

/// Which file a fault line speaks of.
#[derive(Clone, Copy)]
pub enum FileName {
    /// The supervoxel table.
    Supervoxels,
    /// The edge table.
    Edges,
    /// The schedule.
    Schedule,
    /// A client's requests.
    Requests,
    /// A client's answers.
    Answers,
}

/// Why a call stopped before its sessions. `client` is 0 for a file that belongs to no client.
#[derive(Clone, Copy)]
pub enum Stop {
    /// The words are no job.
    BadWords,
    /// A file could not be opened for reading, or a table could not be read.
    ReadFault {
        client: u32,
        file: FileName,
    },
    /// A file could not be opened for writing.
    WriteFault {
        client: u32,
        file: FileName,
    },
    /// A table or the schedule has more bytes than it may have.
    TooLong {
        client: u32,
        file: FileName,
    },
    /// This record of a table is the first one with a cause, and this is its first cause. The header is
    /// record 0.
    BadTable {
        table: Table,
        row: u64,
        cause: Cause,
    },
    /// This word of the schedule, counted from 1, is the first that is no client's number.
    BadSchedule {
        word: u64,
    },
    /// A chunk of the base has more nodes than its ids have numbers. It is the first such chunk by
    /// layer, x, y and z.
    IdsSpent {
        layer: u8,
        x: u32,
        y: u32,
        z: u32,
    },
    /// The base and its first entry need more records than the capacity, which is `given`.
    TooSmall {
        need: u64,
        given: u32,
    },
    /// Memory ran out.
    NoMemory,
}

impl Stop {
    /// The status that the call answers.
    pub fn status(&self) -> Status
        ensures { result ≡ status_of self.now }
    {
        match self {
            Stop::BadWords => Status::BadWords,
            Stop::ReadFault { .. } => Status::ReadFault,
            Stop::WriteFault { .. } => Status::WriteFault,
            Stop::TooLong { .. } => Status::TooLong,
            Stop::BadTable { .. } => Status::BadInput,
            Stop::BadSchedule { .. } => Status::BadInput,
            Stop::IdsSpent { .. } => Status::Full,
            Stop::TooSmall { .. } => Status::Full,
            Stop::NoMemory => Status::NoMemory,
        }
    }
}

/// The name of a file in a fault line.
#[tactic(auto, unfolding(crate::specs::Texts::file_name))]
fn name_of(file: FileName) -> &'static [u8]
    ensures { result.now ≡ file_name file }
{
    match file {
        FileName::Supervoxels => b"supervoxels",
        FileName::Edges => b"edges",
        FileName::Schedule => b"schedule",
        FileName::Requests => b"requests",
        FileName::Answers => b"answers",
    }
}

/// Puts the fault line of a file.
fn put_file<K: Sink>(page: &mut Page, out: &mut K, client: u32, fault: &[u8], file: FileName)
    ensures { Puts (K.state out.old) (K.state out.new) page.old page.new
        (of_file client fault.now file) }
{
    page.put_number(out, b"{\"client\":", client as u64);
    page.put_word(out, b",\"fault\":", fault);
    page.put_word(out, b",\"file\":", name_of(file));
    page.put(out, b"}\n");
}

/// The name of a cause in a fault line.
fn cause_name_of(cause: Cause) -> &'static [u8]
    ensures { result.now ≡ cause_name cause }
{
    cause.name().as_bytes()
}

/// The name of a table in a fault line.
fn table_name_of(table: Table) -> &'static [u8]
    ensures { result.now ≡ table_name table }
{
    table.name().as_bytes()
}

/// Puts the fault line of a record of a table.
fn put_record<K: Sink>(page: &mut Page, out: &mut K, table: Table, row: u64, cause: Cause)
    ensures { Puts (K.state out.old) (K.state out.new) page.old page.new
        (of_table table row cause) }
{
    page.put_word(out, b"{\"cause\":", cause_name_of(cause));
    page.put_word(out, b",\"fault\":", b"BadTable");
    page.put_number(out, b",\"row\":", row);
    page.put_word(out, b",\"table\":", table_name_of(table));
    page.put(out, b"}\n");
}

/// Puts the fault line of a word of the schedule.
fn put_bad_word<K: Sink>(page: &mut Page, out: &mut K, word: u64)
    ensures { Puts (K.state out.old) (K.state out.new) page.old page.new (of_word word) }
{
    page.put_word(out, b"{\"fault\":", b"BadSchedule");
    page.put_number(out, b",\"word\":", word);
    page.put(out, b"}\n");
}

/// Puts the fault line of a chunk with too many nodes.
fn put_spent<K: Sink>(page: &mut Page, out: &mut K, layer: u8, x: u32, y: u32, z: u32)
    ensures { Puts (K.state out.old) (K.state out.new) page.old page.new (of_chunk layer x y z) }
{
    page.put_word(out, b"{\"fault\":", b"IdsSpent");
    page.put_number(out, b",\"layer\":", layer as u64);
    page.put_number(out, b",\"x\":", x as u64);
    page.put_number(out, b",\"y\":", y as u64);
    page.put_number(out, b",\"z\":", z as u64);
    page.put(out, b"}\n");
}

/// Puts the fault line of a base that needs too many records.
fn put_small<K: Sink>(page: &mut Page, out: &mut K, need: u64, given: u32)
    ensures { Puts (K.state out.old) (K.state out.new) page.old page.new (of_capacity need given) }
{
    page.put_word(out, b"{\"fault\":", b"TooSmall");
    page.put_number(out, b",\"given\":", given as u64);
    page.put_number(out, b",\"need\":", need);
    page.put(out, b"}\n");
}

/// Puts the fault line of a stop.
#[tactic(auto, unfolding(crate::specs::Texts::stop_text))]
fn put_stop<K: Sink>(page: &mut Page, out: &mut K, stop: Stop)
    ensures { Puts (K.state out.old) (K.state out.new) page.old page.new (stop_text stop) }
{
    match stop {
        Stop::BadWords => page.put(out, b"{\"fault\":\"BadWords\"}\n"),
        Stop::ReadFault { client, file } => put_file(page, out, client, b"ReadFault", file),
        Stop::WriteFault { client, file } => put_file(page, out, client, b"WriteFault", file),
        Stop::TooLong { client, file } => put_file(page, out, client, b"TooLong", file),
        Stop::BadTable { table, row, cause } => put_record(page, out, table, row, cause),
        Stop::BadSchedule { word } => put_bad_word(page, out, word),
        Stop::IdsSpent { layer, x, y, z } => put_spent(page, out, layer, x, y, z),
        Stop::TooSmall { need, given } => put_small(page, out, need, given),
        Stop::NoMemory => page.put(out, b"{\"fault\":\"NoMemory\"}\n"),
    }
}

/// Writes the fault line of a stop. It takes no memory. Behind it all that the sink holds is
/// flushed. After `Failed` a front of it was written.
#[tactic(auto, using(request_lines::proofs::Whole::whole_ok))]
pub fn write_stop<K: Sink>(stop: Stop, out: &mut K) -> Result<(), Failed>
    ensures ok { OnOk result
        (Appends (K.state out.old).held (K.state out.new).held (stop_text stop)) }
    ensures err { OnErr result
        (AppendsFront (K.state out.old).held (K.state out.new).held (stop_text stop)) }
    ensures flushed { OnOk result (IsFlushed (K.state out.new).held (K.state out.new).flushed) }
    ensures cause { HasCause (K.state out.old).faults (K.state out.new).faults result }
{
    let mut page = Page::new();
    put_stop(&mut page, out, stop);
    page.finish(out)
}
