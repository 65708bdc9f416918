//! Tables and requests that are made from a number.

ghost use Rattle.std.specs.Prelude.{◌≡◌, ◌≤◌, ◌*◌, OnErr, OnOk, length};
ghost use Rattle.std.specs.Io.KnownBytes.{Appends};
ghost use Rattle.pcg_base.specs.Causes.{HasCause};
ghost use Rattle.pcg_base.specs.Told.{AppendsFront, IsFlushed};
ghost use Rattle.pcg_words.specs.Job.{IsMake};
ghost use Rattle.made_files.specs.Files.{files_of};
ghost use Rattle.made_files.specs.Writing.{KeepsBut};
ghost use Rattle.made_input.specs.Texts.{input_of};
ghost use Rattle.made_files.specs.Files.{wish_of};
ghost use Rattle.request_lines.specs.Sent.{Puts};
ghost use Rattle.call_lines.specs.declared.status.Status.TheVariants as statuses;
ghost use Rattle.pcg_serve.specs.Making.{MakeOutcome, made_text, stop_of};
ghost use Rattle.call_lines.specs.Texts.{made_line};
ghost use Rattle.rehearsal.specs.Between.{states};
ghost use Rattle.trials.specs.Trials.{LinePrinted};

use call_lines::{FileName, Status, Stop};
use made_files::{MadeFile, MakeStop, make_files};
use pcg_base::{Failed, Place, Sink};
use pcg_words::MakeJob;
use rehearsal::stopped;
use request_lines::Page;
use std::alloc::Global;

/// How it is told that files weren't made.
fn stop_of(stop: MakeStop) -> Stop
    ensures { result ≡ stop_of stop }
{
    match stop {
        MakeStop::Failed {
            file: MadeFile::Supervoxels,
        } => Stop::WriteFault {
            client: 0,
            file: FileName::Supervoxels,
        },
        MakeStop::Failed {
            file: MadeFile::Edges,
        } => Stop::WriteFault {
            client: 0,
            file: FileName::Edges,
        },
        MakeStop::Failed {
            file: MadeFile::Requests { client },
        } => Stop::WriteFault {
            client,
            file: FileName::Requests,
        },
        MakeStop::NoMemory => Stop::NoMemory,
    }
}

/// Puts the line of a call that made all files.
#[tactic(auto, unfolding(call_lines::specs::Texts::made_line))]
fn put_made<K: Sink>(page: &mut Page, out: &mut K, edges: u64, lines: u64, supervoxels: u64)
    ensures { Puts (K.state out.old) (K.state out.new) page.old page.new
        (made_line edges lines supervoxels) }
{
    page.put_number(out, b"{\"edges\":", edges);
    page.put_number(out, b",\"lines\":", lines);
    page.put_number(out, b",\"status\":", 0);
    page.put_number(out, b",\"supervoxels\":", supervoxels);
    page.put(out, b"}\n");
}

/// Writes the line of a call that made all files. It takes no memory. Behind it all that the sink holds
/// is flushed. After `Failed` a front of it was written.
#[tactic(auto, using(request_lines::proofs::Whole::whole_ok))]
fn write_made<K: Sink>(edges: u64, lines: u64, supervoxels: u64, out: &mut K) -> Result<(), Failed>
    ensures ok { OnOk result
        (Appends (K.state out.old).held (K.state out.new).held
        (made_line edges lines supervoxels)) }
    ensures err { OnErr result
        (AppendsFront (K.state out.old).held (K.state out.new).held
        (made_line edges lines supervoxels)) }
    ensures flushed { OnOk result (IsFlushed (K.state out.new).held (K.state out.new).flushed) }
    ensures cause { HasCause (K.state out.old).faults (K.state out.new).faults result }
{
    let mut page = Page::new();
    put_made(&mut page, out, edges, lines, supervoxels);
    page.finish(out)
}

/// Writes the line of a call that made all files, and answers the status.
fn finish_made<K: Sink>(job: &MakeJob, edges: u32, out: &mut K) -> Status
    requires few { (length job.now.stems ≤ 64) × (job.now.requests ≤ 100000) }
    requires edges { edges ≡ (input_of (wish_of job.now)).edge_count }
    ensures printed { LinePrinted (states K.state out.old out.new) (made_text job.now) result }
    ensures flushed { result ≡ statuses.Done
        → IsFlushed (K.state out.new).held (K.state out.new).flushed }
    ensures later { (K.state out.old).faults ≤ (K.state out.new).faults }
{
    let lines = job.stems.list.len() as u64 * job.requests;
    match write_made(edges as u64, lines, job.size, out) {
        Ok(()) => Status::Done,
        Err(Failed) => Status::WriteFault,
    }
}

/// Makes the two tables and each client's requests from a number, and writes one line about them to
/// `out`, or one fault line. The answer is the status:
///
/// - 0: done;
/// - 4: a write or an opening for writing failed, or `out` did;
/// - 5: memory ran out.
pub fn run_make<P: Place, K: Sink>(
    alloc: Global,
    job: &MakeJob,
    place: &mut P,
    out: &mut K,
) -> Status
    requires { IsMake job.now }
    ensures flushed { result ≡ statuses.Done
        → IsFlushed (K.state out.new).held (K.state out.new).flushed }
    ensures outcome { MakeOutcome job.now (states P.state place.old place.new)
        (states K.state out.old out.new) result }
    ensures others { KeepsBut (files_of job.now) (P.state place.old).files
        (P.state place.new).files }
    ensures reads { (P.state place.new).reads ≡ (P.state place.old).reads }
    ensures writes { (P.state place.old).writes ≤ (P.state place.new).writes }
    ensures later { (K.state out.old).faults ≤ (K.state out.new).faults }
{
    match make_files(alloc, job, place) {
        Ok(edges) => finish_made(job, edges, out),
        Err(stop) => stopped(stop_of(stop), out),
    }
}
