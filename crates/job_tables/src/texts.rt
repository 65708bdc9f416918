//! The texts of a job, read from a place.

ghost use Rattle.std.specs.Prelude.{◌≡◌, ◌≢◌, ◌≤◌, ℕ, List, length, IfOk, IfErr, OnOk, option_map};
ghost use Rattle.pcg_base.specs.States.{KeepsOtherLeft};
ghost use Rattle.pcg_base.specs.Told.{KeepsFiles};
ghost use Rattle.pcg_words.specs.Job.{IsRehearse};
ghost use Rattle.job_files.specs.Places.{IsLater};
ghost use Rattle.job_tables.specs.Inputs.{HasText, limit};
ghost use Rattle.job_tables.specs.Made.{AreTables, AreTexts, IsOther, IsSchedule, IsShort, ScheduleStop};
ghost use Rattle.job_tables.specs.Stops.{AllRead, InputStop, ScheduleRead, TablesRead, TextStop, WasRead};

use call_lines::{FileName, Stop};
use pcg_base::{Place, ReadError, read_name};
use pcg_words::{Name, RehearseJob};
use std::alloc::Global;

/// The most bytes that a text may have: 2^30.
const LIMIT: u64 = 1_073_741_824;

/// The texts of two tables.
#[derive(Drop)]
pub struct Tables {
    /// That of the supervoxels.
    pub supervoxels: Vec<u8>,
    /// That of the edges.
    pub edges: Vec<u8>,
}

/// The texts of a job.
#[derive(Drop)]
pub struct Texts {
    /// Those of its tables.
    pub tables: Tables,
    /// That of its schedule, if it has one.
    pub schedule: Option<Vec<u8>>,
}

/// The bytes of a file.
fn read_text<P: Place>(
    alloc: Global,
    place: &mut P,
    name: &Name,
    file: FileName,
) -> Result<Vec<u8>, Stop>
    ensures text { IfOk result (λ t. HasText (P.state place.old).files name.now t.items) }
    ensures size { IfOk result (λ t. length t.items ≤ 1073741824) }
    ensures whole { OnOk result
        (WasRead (P.state place.old).files (P.state place.new).left name.now) }
    ensures still { OnOk result ((P.state place.new).reads ≡ (P.state place.old).reads) }
    ensures still_here { OnOk result ((n : List ℕ)
        → (P.state place.new).counts n ≡ (P.state place.old).counts n) }
    ensures stop { IfErr result
        (λ stop. TextStop (P.state place.old).files name.now file (P.state place.old)
        (P.state place.new) stop) }
    ensures later { IsLater (P.state place.old) (P.state place.new) }
    ensures files { KeepsFiles (P.state place.old).files (P.state place.new).files }
    ensures only_left { KeepsOtherLeft (P.state place.old) (P.state place.new) name.now }
    ensures writes { (P.state place.new).writes ≡ (P.state place.old).writes }
{
    match read_name(alloc, place, name.text.as_str(), LIMIT) {
        Ok(bytes) => Ok(bytes),
        Err(ReadError::TooLong) => Err(Stop::TooLong { client: 0, file }),
        Err(ReadError::Failed) => Err(Stop::ReadFault { client: 0, file }),
        Err(ReadError::NoMemory) => Err(Stop::NoMemory),
    }
}

/// The texts of a job's tables.
fn read_tables<P: Place>(alloc: Global, job: &RehearseJob, place: &mut P) -> Result<Tables, Stop>
    requires { IsRehearse job.now }
    ensures both { IfOk result (λ t. AreTables (P.state place.old).files job.now t) }
    ensures read { OnOk result
        (TablesRead (P.state place.old).files (P.state place.new).left job.now) }
    ensures still { OnOk result ((P.state place.new).reads ≡ (P.state place.old).reads) }
    ensures still_here { OnOk result ((n : List ℕ)
        → (P.state place.new).counts n ≡ (P.state place.old).counts n) }
    ensures stop { IfErr result (InputStop job.now (P.state place.old) (P.state place.new)) }
    ensures later { IsLater (P.state place.old) (P.state place.new) }
    ensures files { KeepsFiles (P.state place.old).files (P.state place.new).files }
    ensures writes { (P.state place.new).writes ≡ (P.state place.old).writes }
{
    let supervoxels = match read_text(alloc, place, &job.supervoxels, FileName::Supervoxels) {
        Ok(supervoxels) => supervoxels,
        Err(stop) => return Err(stop),
    };
    match read_text(alloc, place, &job.edges, FileName::Edges) {
        Ok(edges) => Ok(Tables { supervoxels, edges }),
        Err(stop) => Err(stop),
    }
}

/// The text of a job's schedule, if it has one.
fn read_schedule_text<P: Place>(
    alloc: Global,
    schedule: Option<&Name>,
    place: &mut P,
) -> Result<Option<Vec<u8>>, Stop>
    ensures third { IfOk result
        (λ t. IsSchedule (P.state place.old).files (option_map (λ n. n.now) schedule.entry)
        (option_map (λ v. v.items) t)) }
    ensures short { IfOk result (λ t. IsShort (option_map (λ v. v.items) t)) }
    ensures read { OnOk result
        (ScheduleRead (P.state place.old).files (P.state place.new).left
        (option_map (λ n. n.now) schedule.entry)) }
    ensures still { OnOk result ((P.state place.new).reads ≡ (P.state place.old).reads) }
    ensures still_here { OnOk result ((n : List ℕ)
        → (P.state place.new).counts n ≡ (P.state place.old).counts n) }
    ensures stop { IfErr result
        (ScheduleStop (P.state place.old).files (option_map (λ n. n.now) schedule.entry)
        (P.state place.old) (P.state place.new)) }
    ensures later { IsLater (P.state place.old) (P.state place.new) }
    ensures files { KeepsFiles (P.state place.old).files (P.state place.new).files }
    ensures only_left { (n : List ℕ) → IsOther (option_map (λ n. n.now) schedule.entry) n
        → (P.state place.new).left n ≡ (P.state place.old).left n }
    ensures writes { (P.state place.new).writes ≡ (P.state place.old).writes }
{
    let Some(name) = schedule else {
        return Ok(None);
    };
    match read_text(alloc, place, name, FileName::Schedule) {
        Ok(text) => Ok(Some(text)),
        Err(stop) => Err(stop),
    }
}

/// The texts of a job: the supervoxels are read before the edges, and both before the schedule.
pub fn read_texts<P: Place>(alloc: Global, job: &RehearseJob, place: &mut P) -> Result<Texts, Stop>
    requires { IsRehearse job.now }
    ensures texts { IfOk result (λ t. AreTexts (P.state place.old).files job.now t) }
    ensures read { OnOk result
        (AllRead (P.state place.old).files (P.state place.new).left job.now) }
    ensures still { OnOk result ((P.state place.new).reads ≡ (P.state place.old).reads) }
    ensures still_here { OnOk result ((n : List ℕ)
        → (P.state place.new).counts n ≡ (P.state place.old).counts n) }
    ensures stop { IfErr result (InputStop job.now (P.state place.old) (P.state place.new)) }
    ensures later { IsLater (P.state place.old) (P.state place.new) }
    ensures files { KeepsFiles (P.state place.old).files (P.state place.new).files }
    ensures writes { (P.state place.new).writes ≡ (P.state place.old).writes }
{
    let tables = match read_tables(alloc, job, place) {
        Ok(tables) => tables,
        Err(stop) => return Err(stop),
    };
    match read_schedule_text(alloc, job.schedule.as_ref(), place) {
        Ok(schedule) => Ok(Texts { tables, schedule }),
        Err(stop) => Err(stop),
    }
}
