//! The lines of all requests.

ghost use Rattle.std.specs.Prelude.{◌≡◌, ◌≤◌, ◌<◌, ◌^◌, ℕ, List, [], length, true, vec_capacity, vec_len, IfOk, OnErr};
ghost use Rattle.std.specs.List.{AllByRecursion};
ghost use Rattle.pcg_base.specs.States.{StaysIn, StaysOut};
ghost use Rattle.job_files.specs.Clients.{ReadsAll, ReadsSome};
ghost use Rattle.job_files.specs.Lines.{ReadsEach, ReadsNext};

use crate::keeping::{keep_request, keep_requests};
use crate::opening::put;
use pcg_base::{NoMemory, Place};
use pcg_words::Name;
use std::alloc::Global;
use stream_lines::{SourceRead, StreamLines, read_source};

/// Reads a stream, keeps its source back, and puts its lines behind others, where there is room.
/// Answers whether there was memory for them.
fn read_next<P: Place>(
    alloc: Global,
    place: &mut P,
    name: &Name,
    source: P::In,
    read: &mut Vec<StreamLines>,
) -> bool
where
    P::In: Drop,
    requires room { vec_len read.old < vec_capacity read.old }
    requires fresh { P.In.faults source ≡ 0 }
    requires opened { (P.state place.old).opened_in name.now ≡ true }
    ensures reads { ReadsNext P.In.left name.now source result read.old.items read.new.items
        (P.state place.old) (P.state place.new) }
    ensures capacity { vec_capacity read.old ≤ vec_capacity read.new }
    ensures stays_in { StaysIn (P.state place.old) (P.state place.new) }
    ensures stays_out { StaysOut (P.state place.old) (P.state place.new) }
{
    let SourceRead { source, lines } = read_source(alloc, source);
    keep_request(place, name, source);
    match lines {
        Ok(lines) => {
            put(read, lines);
            true
        }
        Err(_) => false,
    }
}

/// Reads streams in order, keeps their sources back, and puts their lines into an empty list with
/// room for them. Answers whether there was memory for all.
fn read_each<P: Place>(
    alloc: Global,
    place: &mut P,
    names: &[Name],
    sources: Vec<P::In>,
    read: &mut Vec<StreamLines>,
) -> bool
where
    P::In: Drop,
    requires each { length sources.items ≡ length names.now }
    requires room { length names.now ≤ vec_capacity read.old }
    requires none { read.old.items ≡ [] }
    requires fresh { AllByRecursion (λ s. P.In.faults s ≡ 0) sources.items }
    requires opened { AllByRecursion (λ n. (P.state place.old).opened_in n ≡ true) names.now }
    ensures reads { ReadsEach P.In.left names.now sources.items result read.new.items
        (P.state place.old) (P.state place.new) }
    ensures few { AllByRecursion (λ r. length r.lines.items < 2 ^ 32) read.new.items }
    ensures stays { StaysOut (P.state place.old) (P.state place.new) }
{
    let mut whole = true;
    let mut at = 0;
    for source in sources {
        whole &= read_next(alloc, place, &names[at], source, read);
        at += 1;
    }
    whole
}

/// Reads each stream to its end or its fault, client by client, and keeps its source back. What is
/// read stops nothing: where memory runs out the streams behind it are kept back too.
///
/// # Errors
///
/// `NoMemory` where there is none for the lines.
pub fn read_requests<P: Place>(
    alloc: Global,
    place: &mut P,
    names: &[Name],
    sources: Vec<P::In>,
) -> Result<Vec<StreamLines>, NoMemory>
where
    P::In: Drop,
    requires each { length sources.items ≡ length names.now }
    requires fresh { AllByRecursion (λ s. P.In.faults s ≡ 0) sources.items }
    requires opened { AllByRecursion (λ n. (P.state place.old).opened_in n ≡ true) names.now }
    ensures read { IfOk result
        (λ read. ReadsAll P.In.left names.now sources.items read.items (P.state place.old)
        (P.state place.new)) }
    ensures few { IfOk result
        (λ read. AllByRecursion (λ r. length r.lines.items < 2 ^ 32) read.items) }
    ensures count { IfOk result (λ read. length read.items ≡ length names.now) }
    ensures begun { OnErr result
        (ReadsSome P.In.left names.now sources.items (P.state place.old) (P.state place.new)) }
    ensures stays { StaysOut (P.state place.old) (P.state place.new) }
{
    let Ok(mut read) = Vec::with_capacity(alloc, names.len()) else {
        keep_requests(place, names, sources);
        return Err(NoMemory);
    };
    if read_each(alloc, place, names, sources, &mut read) {
        Ok(read)
    } else {
        Err(NoMemory)
    }
}
