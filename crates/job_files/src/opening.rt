//! Requests and answers are opened.

ghost use Rattle.std.specs.Prelude.{◌≡◌, ◌≤◌, ◌<◌, ◌+◌, ◌-◌, ◌^◌, ◌++◌, ◌∷◌, ℕ, List, [], bytes_eq, false, length, true, vec_capacity, vec_len, IfErr, IfOk, IsErrOf, IsTrue, OnErr, OnOk};
ghost use Rattle.std.specs.List.{AllByRecursion, list_any};
ghost use Rattle.pcg_base.specs.States.{KeepsLeft, StaysIn, StaysOut};
ghost use Rattle.pcg_base.specs.Told.{KeepsFiles};
ghost use Rattle.pcg_words.specs.Job.{all_differ};
ghost use Rattle.job_files.specs.Clients.{AnswersOpen, AnswersShut, AreEmpty, AreOpened, RequestsShut};
ghost use Rattle.job_files.specs.Fronts.{EmptiesFront, IsEmptied, IsOpened, OpensFront, fault_of};
ghost use Rattle.job_files.specs.Places.{IsLater, IsSame, ReadRose, WriteRose};

use crate::keeping::{keep_answers, keep_requests};
use client_answers::ClientAnswers;
use pcg_base::{Place, PlaceError};
use pcg_words::Name;
use std::alloc::Global;

/// Why files weren't opened.
#[derive(Clone, Copy, Debug, PartialEq, Eq)]
pub enum OpenFault {
    /// That of this client, counted from 1, could not be opened.
    Failed {
        /// The client's number.
        client: u32,
    },
    /// Memory ran out.
    NoMemory,
}

/// Why a file of this client wasn't opened.
fn fault_of(error: PlaceError, client: u32) -> OpenFault
    ensures { result ≡ fault_of error client }
{
    match error {
        PlaceError::Failed => OpenFault::Failed { client },
        PlaceError::NoMemory => OpenFault::NoMemory,
    }
}

/// Puts an item behind others, where there is room.
pub(crate) fn put<T: Drop>(list: &mut Vec<T>, item: T)
    requires room { vec_len list.old < vec_capacity list.old }
    ensures items { list.new.items ≡ list.old.items ++ item ∷ [] }
    ensures capacity { vec_capacity list.old ≤ vec_capacity list.new }
{
    let put = list.push(item);
    prove!(put.is_ok());
}

/// Opens the requests at a name.
fn open_request<P: Place>(place: &mut P, name: &Name) -> Result<P::In, PlaceError>
    ensures ok { IfOk result
        (λ source. IsOpened P.In.left P.In.faults (P.state place.old).files name.now source) }
    ensures same { OnOk result (IsSame (P.state place.old) (P.state place.new)) }
    ensures ready { OnOk result ((P.state place.new).opened_in name.now ≡ true) }
    ensures failed { IsErrOf result PlaceError.Failed
        → ReadRose (P.state place.old) (P.state place.new) name.now }
    ensures files { KeepsFiles (P.state place.old).files (P.state place.new).files }
    ensures writes { (P.state place.new).writes ≡ (P.state place.old).writes }
    ensures later { IsLater (P.state place.old) (P.state place.new) }
    ensures stays { StaysIn (P.state place.old) (P.state place.new) }
    ensures left { KeepsLeft (P.state place.old) (P.state place.new) }
{
    place.source_of(name.text.as_str())
}

/// Opens requests in order, up to the first that can't be opened, into a list with room for them.
fn open_each_request<P: Place>(
    place: &mut P,
    names: &[Name],
    sources: &mut Vec<P::In>,
) -> Result<(), OpenFault>
where
    P::In: Drop,
    requires room { length names.now ≤ vec_capacity sources.old }
    requires none { sources.old.items ≡ [] }
    requires few { length names.now < 2 ^ 32 - 1 }
    ensures ok { OnOk result
        (AreOpened P.In.left P.In.faults (P.state place.old).files names.now sources.new.items) }
    ensures same { OnOk result (IsSame (P.state place.old) (P.state place.new)) }
    ensures ready { OnOk result
        (AllByRecursion (λ n. (P.state place.new).opened_in n ≡ true) names.now) }
    ensures front { IfErr result
        (OpensFront P.In.left P.In.faults (P.state place.new).opened_in names.now sources.new.items
        (P.state place.old) (P.state place.new)) }
{
    for at in 0..names.len() {
        let source = match open_request(place, &names[at]) {
            Ok(source) => source,
            Err(error) => return Err(fault_of(error, at as u32 + 1)),
        };
        put(sources, source);
    }
    Ok(())
}

/// Opens all requests, in order. Where one can't be opened those before it are kept back.
///
/// # Errors
///
/// `Failed` with the first client whose requests can't be opened, and `NoMemory`.
pub fn open_requests<P: Place>(
    alloc: Global,
    place: &mut P,
    names: &[Name],
) -> Result<Vec<P::In>, OpenFault>
where
    P::In: Drop,
    requires differ { IsTrue (all_differ names.now) }
    requires few { length names.now < 2 ^ 32 - 1 }
    ensures ok { IfOk result
        (λ sources. AreOpened P.In.left P.In.faults (P.state place.old).files names.now
        sources.items) }
    ensures same { OnOk result (IsSame (P.state place.old) (P.state place.new)) }
    ensures opened { OnOk result
        (AllByRecursion (λ n. (P.state place.new).opened_in n ≡ true) names.now) }
    ensures shut { IfErr result (RequestsShut names.now (P.state place.old) (P.state place.new)) }
    ensures elsewhere { (n : List ℕ) → list_any (bytes_eq n) names.now ≡ false
        → (P.state place.new).left n ≡ (P.state place.old).left n }
    ensures later { IsLater (P.state place.old) (P.state place.new) }
{
    let Ok(mut sources) = Vec::with_capacity(alloc, names.len()) else {
        return Err(OpenFault::NoMemory);
    };
    match open_each_request(place, names, &mut sources) {
        Ok(()) => Ok(sources),
        Err(fault) => {
            let (front, _) = names.split_at(sources.len());
            keep_requests(place, front, sources);
            Err(fault)
        }
    }
}

/// Opens the answers at a name, which empties them.
fn open_answer<P: Place>(place: &mut P, name: &Name) -> Result<ClientAnswers<P::Out>, PlaceError>
where
    P::Out: Drop,
    ensures ok { IfOk result (λ answers. IsEmptied P.Out.state (P.state place.old).files answers) }
    ensures empties { OnOk result
        (AnswersOpen (name.now ∷ []) (P.state place.old) (P.state place.new)) }
    ensures ready { OnOk result ((P.state place.new).opened_out name.now ≡ true) }
    ensures failed { IsErrOf result PlaceError.Failed
        → WriteRose (P.state place.old) (P.state place.new) name.now }
    ensures unmade { OnErr result (KeepsFiles (P.state place.old).files (P.state place.new).files) }
    ensures reads { (P.state place.new).reads ≡ (P.state place.old).reads }
    ensures left { KeepsLeft (P.state place.old) (P.state place.new) }
    ensures later { IsLater (P.state place.old) (P.state place.new) }
    ensures stays_in { StaysIn (P.state place.old) (P.state place.new) }
    ensures stays_out { StaysOut (P.state place.old) (P.state place.new) }
{
    let sink = match place.sink_of(name.text.as_str()) {
        Ok(sink) => sink,
        Err(error) => return Err(error),
    };
    Ok(ClientAnswers {
        sink,
        lines: 0,
        refused: 0,
        failed: false,
    })
}

/// Opens answers in order, up to the first that can't be opened, into a list with room for them.
fn open_each_answer<P: Place>(
    place: &mut P,
    names: &[Name],
    answers: &mut Vec<ClientAnswers<P::Out>>,
) -> Result<(), OpenFault>
where
    P::Out: Drop,
    requires room { length names.now ≤ vec_capacity answers.old }
    requires none { answers.old.items ≡ [] }
    requires few { length names.now < 2 ^ 32 - 1 }
    ensures ok { OnOk result
        (AreEmpty P.Out.state (P.state place.old).files names.now answers.new.items) }
    ensures empties { OnOk result (AnswersOpen names.now (P.state place.old) (P.state place.new)) }
    ensures ready { OnOk result
        (AllByRecursion (λ n. (P.state place.new).opened_out n ≡ true) names.now) }
    ensures front { IfErr result
        (EmptiesFront P.Out.state (P.state place.new).opened_out names.now answers.new.items
        (P.state place.old) (P.state place.new)) }
    ensures stays { StaysIn (P.state place.old) (P.state place.new) }
{
    for at in 0..names.len() {
        let client = match open_answer(place, &names[at]) {
            Ok(client) => client,
            Err(error) => return Err(fault_of(error, at as u32 + 1)),
        };
        put(answers, client);
    }
    Ok(())
}

/// Opens all answers, in order, which empties their files. Where one can't be opened those before it
/// are kept back, still empty.
///
/// # Errors
///
/// `Failed` with the first client whose answers can't be opened, and `NoMemory`.
pub fn open_answers<P: Place>(
    alloc: Global,
    place: &mut P,
    names: &[Name],
) -> Result<Vec<ClientAnswers<P::Out>>, OpenFault>
where
    P::Out: Drop,
    requires few { length names.now < 2 ^ 32 - 1 }
    ensures ok { IfOk result
        (λ answers. AreEmpty P.Out.state (P.state place.old).files names.now answers.items) }
    ensures open { OnOk result (AnswersOpen names.now (P.state place.old) (P.state place.new)) }
    ensures opened { OnOk result
        (AllByRecursion (λ n. (P.state place.new).opened_out n ≡ true) names.now) }
    ensures stays { StaysIn (P.state place.old) (P.state place.new) }
    ensures shut { IfErr result (AnswersShut names.now (P.state place.old) (P.state place.new)) }
    ensures later { IsLater (P.state place.old) (P.state place.new) }
{
    let Ok(mut answers) = Vec::with_capacity(alloc, names.len()) else {
        return Err(OpenFault::NoMemory);
    };
    match open_each_answer(place, names, &mut answers) {
        Ok(()) => Ok(answers),
        Err(fault) => {
            let (front, _) = names.split_at(answers.len());
            keep_answers(place, front, answers);
            Err(fault)
        }
    }
}
