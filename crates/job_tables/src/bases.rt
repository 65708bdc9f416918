//! What the texts of a job make: a base's words, and the clients that a schedule names.

ghost use Rattle.std.specs.Prelude.{◌≡◌, ◌≤◌, ◌*◌, ◌+◌, ◌^◌, length, IfOk, IfErr, OnOk, option_map};
ghost use Rattle.pcg_words.specs.Job.{HasPlace, IsAffinity, IsRoom, RehearseRanges};
ghost use Rattle.op_model.specs.Valid.{IsBase, IsDataset};
ghost use Rattle.table_ingest.specs.Bases.{Faulty, Spells};
ghost use Rattle.record_rows.specs.Readings.{Image};
ghost use Rattle.op_model.specs.Ingest.{ingested};
ghost use Rattle.hierarchy_build.specs.declared.errors.BuildError.{BuildError as TheBuildError};
ghost use Rattle.hierarchy_build.specs.Built.{IsFull};
ghost use Rattle.job_tables.specs.Inputs.{clock_time, dataset_of, dataset_with};
ghost use Rattle.job_tables.specs.Made.{IsMade, IsShort, MakesStop, Named, NotNamed, StopsForRecords, StopsForTable, StopsForWord, records_stop, schedule_text, table_stop, word_stop};

use crate::tables::JobBase;
use crate::texts::{Tables, Texts};
use call_lines::Stop;
use chunk_geometry::Grid;
use hierarchy_build::{BuildError, build_from};
use node_ids::Layout;
use op_model::{Base, Dataset};
use pcg_base::{Ticks, VecWords};
use pcg_words::{Names, RehearseJob};
use schedules::{ScheduleError, read_schedule};
use std::alloc::Global;
use table_ingest::{TableError, read_base};

/// The dataset whose layout, grid, affinity of merges and capacity words give.
#[tactic(auto, unfolding(crate::specs::Inputs::dataset_with))]
pub fn dataset_with(bits: u64, grid: Grid, merge_affinity: u64, records: u64) -> Dataset
    requires place { HasPlace bits grid }
    requires affinity { IsAffinity merge_affinity }
    requires records { IsRoom records }
    ensures is { result ≡ dataset_with bits grid merge_affinity records }
    ensures fine { IsDataset result }
{
    let layout = Layout::new(bits as u8).unwrap();
    Dataset {
        layout,
        grid,
        merge_affinity: merge_affinity as u32,
        capacity: records as u32,
    }
}

/// The dataset of a job.
#[tactic(auto, unfolding(crate::specs::Inputs::dataset_of))]
fn dataset_of(job: &RehearseJob) -> Dataset
    requires { RehearseRanges job.now }
    ensures is { result ≡ dataset_of job.now }
    ensures fine { IsDataset result }
{
    dataset_with(job.bits, job.grid, job.merge_affinity, job.records)
}

/// How many clients have these stems.
fn count_of(stems: &Names) -> u32
    requires { length stems.now ≤ 64 }
    ensures { result ≡ length stems.now }
{
    stems.list.len() as u32
}

/// Why two tables gave no base.
fn table_stop(error: TableError) -> Stop
    ensures { result ≡ table_stop error }
{
    match error {
        TableError::Bad { table, row, cause } => Stop::BadTable { table, row, cause },
        TableError::NoMemory => Stop::NoMemory,
    }
}

/// Why a text is no schedule.
fn word_stop(error: ScheduleError) -> Stop
    ensures { result ≡ word_stop error }
{
    match error {
        ScheduleError::Bad { word } => Stop::BadSchedule { word },
        ScheduleError::NoMemory => Stop::NoMemory,
    }
}

/// Why a base's records aren't there.
fn records_stop(error: BuildError) -> Stop
    ensures { result ≡ records_stop error }
{
    match error {
        BuildError::IdsSpent { layer, x, y, z } => Stop::IdsSpent { layer, x, y, z },
        BuildError::TooSmall { need, given } => Stop::TooSmall { need, given },
        BuildError::NoMemory => Stop::NoMemory,
    }
}

/// The base that two tables spell.
fn base_of(alloc: Global, dataset: &Dataset, tables: &Tables) -> Result<Base, Stop>
    ensures spells { IfOk result
        (λ b. Spells dataset.now tables.now.supervoxels.items tables.now.edges.items b) }
    ensures base { IfOk result (λ b. IsBase dataset.now b) }
    ensures stop { IfErr result
        (StopsForTable (Faulty dataset.now tables.now.supervoxels.items tables.now.edges.items)) }
{
    match read_base(
        alloc,
        tables.supervoxels.as_slice(),
        tables.edges.as_slice(),
        dataset,
    ) {
        Ok(base) => Ok(base),
        Err(error) => Err(table_stop(error)),
    }
}

/// The clients that a schedule names. Without one none is named.
fn numbers_of(alloc: Global, schedule: &Option<Vec<u8>>, clients: u32) -> Result<Vec<u32>, Stop>
    requires { IsShort (option_map (λ v. v.items) schedule.now) }
    ensures named { IfOk result
        (λ v. Named clients (option_map (λ v. v.items) schedule.now) v.items) }
    ensures stop { IfErr result
        (StopsForWord (NotNamed clients (option_map (λ v. v.items) schedule.now))) }
{
    match schedule {
        None => Ok(Vec::new(alloc)),
        Some(text) => match read_schedule(alloc, text.as_slice(), clients) {
            Ok(numbers) => Ok(numbers),
            Err(error) => Err(word_stop(error)),
        },
    }
}

/// The words of a base's first entry, at a clock's first time, with room for all records of the
/// capacity. The base is let go.
///
/// # Errors
///
/// `IdsSpent` and `TooSmall` where the base's records can't be had, and `NoMemory`.
pub fn words_of(
    alloc: Global,
    dataset: &Dataset,
    base: Base,
    clock: &Ticks,
) -> Result<VecWords, Stop>
    requires dataset { IsDataset dataset.now }
    requires base { IsBase dataset.now base }
    ensures image { IfOk result
        (λ w. Image dataset.now base (ingested dataset.now base (clock_time clock.now 0))
        w.words) }
    ensures room { IfOk result (λ w. 8 * dataset.now.capacity ≤ length w.words + w.spare) }
    ensures fits { OnOk result ((e : TheBuildError) → IsFull dataset.now base e → ⊥) }
    ensures stop { IfErr result (StopsForRecords (IsFull dataset.now base)) }
{
    match build_from(alloc, base, dataset, clock.time(0)) {
        Ok(words) => Ok(words),
        Err(error) => Err(records_stop(error)),
    }
}

/// What the texts of a job make. The tables are looked into before the schedule, and the schedule
/// before the base's records are made. The texts are let go before that.
pub fn make_input(alloc: Global, job: &RehearseJob, texts: Texts) -> Result<JobBase, Stop>
    requires ranges { RehearseRanges job.now }
    requires short { IsShort (schedule_text texts) }
    ensures made { IfOk result (λ r. IsMade job.now texts r) }
    ensures stop { IfErr result (λ stop. MakesStop job.now texts stop) }
{
    let dataset = dataset_of(job);
    let base = match base_of(alloc, &dataset, &texts.tables) {
        Ok(base) => base,
        Err(stop) => return Err(stop),
    };
    let schedule = match numbers_of(alloc, &texts.schedule, count_of(&job.stems)) {
        Ok(schedule) => schedule,
        Err(stop) => return Err(stop),
    };
    drop(texts);
    match words_of(alloc, &dataset, base, &job.clock) {
        Ok(words) => Ok(JobBase {
            dataset,
            words,
            schedule,
        }),
        Err(stop) => Err(stop),
    }
}
