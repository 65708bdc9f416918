//! What a rehearsal begins with.

ghost use Rattle.std.specs.Prelude.{◌≡◌, ℕ, List, IfOk, IfErr, OnOk};
ghost use Rattle.pcg_base.specs.Told.{KeepsFiles};
ghost use Rattle.pcg_words.specs.Job.{IsRehearse};
ghost use Rattle.job_files.specs.Places.{IsLater};
ghost use Rattle.job_tables.specs.Inputs.{IsRead};
ghost use Rattle.job_tables.specs.Stops.{AllRead, InputStop};

use crate::bases::make_input;
use crate::texts::read_texts;
use call_lines::Stop;
use op_model::Dataset;
use pcg_base::{Place, VecWords};
use pcg_words::RehearseJob;
use std::alloc::Global;

/// What a rehearsal begins with.
#[derive(Drop)]
pub struct JobBase {
    /// What is fixed for the log.
    pub dataset: Dataset,
    /// The words of the base's first entry, with room for all records of the capacity.
    pub words: VecWords,
    /// The clients that the schedule names, in order, counted from 1.
    pub schedule: Vec<u32>,
}

/// Reads the two tables of a job and its schedule, and makes the words of the base. A file may have
/// up to 2^30 bytes. Time is n log n in the tables' records and the base's nodes, and linear in the
/// schedule's bytes and in the layers times the supervoxels.
///
/// # Errors
///
/// The first of these that is met: `ReadFault` or `TooLong` with client 0 for the supervoxels, the
/// edges and the schedule, in this order; `BadTable` where a record has a cause; `BadSchedule` where
/// a word is no client's number; `IdsSpent` and `TooSmall` where the base's records can't be had.
/// `NoMemory` may come at any time.
pub fn read_input<P: Place>(
    alloc: Global,
    job: &RehearseJob,
    place: &mut P,
) -> Result<JobBase, Stop>
    requires { IsRehearse job.now }
    ensures made { IfOk result (λ r. IsRead (P.state place.old).files job.now r) }
    ensures read { OnOk result
        (AllRead (P.state place.old).files (P.state place.new).left job.now) }
    ensures still { OnOk result ((P.state place.new).reads ≡ (P.state place.old).reads) }
    ensures still_here { OnOk result ((n : List ℕ)
        → (P.state place.new).counts n ≡ (P.state place.old).counts n) }
    ensures stop { IfErr result (InputStop job.now (P.state place.old) (P.state place.new)) }
    ensures later { IsLater (P.state place.old) (P.state place.new) }
    ensures files { KeepsFiles (P.state place.old).files (P.state place.new).files }
    ensures writes { (P.state place.new).writes ≡ (P.state place.old).writes }
{
    let texts = match read_texts(alloc, job, place) {
        Ok(texts) => texts,
        Err(stop) => return Err(stop),
    };
    make_input(alloc, job, texts)
}
