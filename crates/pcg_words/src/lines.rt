//! The values that the options and stems of a command line give.

ghost use Rattle.std.specs.Prelude.{◌≡◌, ◌≤◌, ◌*◌, IfOk, IfSome, Some, map, codes, nat_le};
ghost use Rattle.clap.specs.Walk.{texts};
ghost use Rattle.option_words.specs.Spelled.{Spells, said};
ghost use Rattle.pcg_words.specs.Job.{HasStems, IsAxis, IsClock, IsRoom, IsSize, most_supervoxels};
ghost use Rattle.pcg_words.specs.Words.{clock_in, grid_in, number_in, records_in, size_in, stems_in};

use crate::job::{Name, Names};
use crate::values::{grid_of, number_within, ticks_of};
use chunk_geometry::Grid;
use option_words::{Found, WordsError};
use pcg_base::Ticks;
use std::alloc::Global;

/// The number that an option gives.
#[tactic(auto, unfolding(crate::specs::Words::number_in))]
pub fn number_in(found: &Found, name: &str, low: u64, high: u64) -> Option<u64>
    ensures is { result ≡ number_in (said found.now) name.now low high }
    ensures within { IfSome result (λ n. (low ≤ n) × (n ≤ high)) }
{
    let Some(text) = found.value(name) else {
        return None;
    };
    number_within(low, high, text.as_bytes())
}

/// The grid that the words give.
#[tactic(auto, unfolding(crate::specs::Words::grid_in))]
pub fn grid_in(found: &Found, bits: u64) -> Option<Grid>
    requires { bits ≤ 16 }
    ensures is { result ≡ grid_in (said found.now) bits }
    ensures axes { IfSome result (λ g. (IsAxis bits g.x) × (IsAxis bits g.y) × (IsAxis bits g.z)) }
{
    let Some(text) = found.value("grid") else {
        return None;
    };
    grid_of(bits, text.as_bytes())
}

/// The clock that the words give.
#[tactic(auto, unfolding(crate::specs::Words::clock_in))]
pub fn clock_in(found: &Found) -> Option<Ticks>
    ensures is { result ≡ clock_in (said found.now) }
    ensures small { IfSome result (λ t. IsClock t) }
{
    let Some(text) = found.value("clock") else {
        return None;
    };
    ticks_of(text.as_bytes())
}

/// How many records the words give, which they may leave out.
#[tactic(auto, unfolding(crate::specs::Words::records_in))]
pub fn records_in(found: &Found) -> Option<u64>
    ensures is { result ≡ records_in (said found.now) }
    ensures within { IfSome result (λ n. IsRoom n) }
{
    match found.value("records") {
        Some(text) => number_within(2, 16777216, text.as_bytes()),
        None => Some(1048576),
    }
}

/// The name of a file.
fn name_of(alloc: Global, text: &str) -> Result<Name, WordsError>
    ensures { Spells (Some text.now) result }
{
    match String::from_str(alloc, text) {
        Ok(text) => Ok(Name { text }),
        Err(_) => Err(WordsError::NoMemory),
    }
}

/// The name that an option gives.
pub fn name_in(alloc: Global, found: &Found, name: &str) -> Result<Name, WordsError>
    ensures { Spells ((said found.now).value name.now) result }
{
    match found.value(name) {
        Some(text) => name_of(alloc, text),
        None => Err(WordsError::BadWords),
    }
}

/// Copies of texts, as names.
fn names_of(alloc: Global, texts: &[&str]) -> Result<Names, WordsError>
    ensures { Spells (Some (map (λ t. t.now) texts.now)) result }
{
    let mut list = Vec::new(alloc);
    for text in texts {
        let name = name_of(alloc, text)?;
        let Ok(()) = list.push(name) else {
            return Err(WordsError::NoMemory);
        };
    }
    Ok(Names { list })
}

/// The stems, 1 to 64.
#[tactic(auto, unfolding(crate::specs::Words::stems_in))]
pub fn stems_in(alloc: Global, found: &Found) -> Result<Names, WordsError>
    ensures spells { Spells (stems_in (said found.now)) result }
    ensures few { IfOk result (λ stems. HasStems stems) }
{
    let Some(stems) = found.stems() else {
        return Err(WordsError::BadWords);
    };
    if stems.is_empty() || stems.len() > 64 {
        return Err(WordsError::BadWords);
    }
    names_of(alloc, stems)
}

/// The name of the schedule, if the words give one.
pub fn schedule_in(alloc: Global, found: &Found) -> Result<Option<Name>, WordsError>
    ensures { Spells (Some ((said found.now).value (codes "schedule"))) result }
{
    match found.value("schedule") {
        Some(text) => {
            let name = name_of(alloc, text)?;
            Ok(Some(name))
        }
        None => Ok(None),
    }
}

/// How many base chunks a grid has.
fn chunk_count(grid: &Grid) -> u64
    ensures is { result ≡ grid.now.x * grid.now.y * grid.now.z }
{
    grid.nx() as u64 * grid.ny() as u64 * grid.nz() as u64
}

/// Whether a grid has room for so many supervoxels.
#[tactic(auto, unfolding(crate::specs::Job::most_supervoxels))]
fn has_room(size: u64, bits: u64, grid: &Grid) -> bool
    requires { (1 ≤ bits) × (bits ≤ 16) }
    ensures { result ≡ nat_le size (most_supervoxels bits grid.now) }
{
    let segments = (1u64 << (56 - 3 * bits)) - 1;
    size as u128 <= chunk_count(grid) as u128 * segments as u128
}

/// How many supervoxels the words ask for, if the grid has room for them.
#[tactic(auto, unfolding(crate::specs::Words::size_in, crate::specs::Job::most_supervoxels))]
pub fn size_in(found: &Found, bits: u64, grid: &Grid) -> Option<u64>
    requires { (1 ≤ bits) × (bits ≤ 16) }
    ensures is { result ≡ size_in (said found.now) bits grid.now }
    ensures within { IfSome result (λ n. IsSize bits grid.now n) }
{
    let Some(size) = number_in(found, "size", 1, 1000000) else {
        return None;
    };
    if has_room(size, bits, grid) {
        return Some(size);
    }
    None
}
