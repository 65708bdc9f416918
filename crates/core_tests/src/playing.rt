//! The steps of a session, and what they came to.

ghost use Rattle.std.specs.Prelude.{◌≡◌};
ghost use Rattle.core_tests.specs.Running.{IsRunning};

use crate::cores::{Session, begin};
use crate::outlets::Collected;
use crate::texts::spelled;
use client_events::{Act, Client};
use core_steps::{Core, Step};
use memory_devices::MemSink;
use pcg_base::{NoMemory, VecWords, Words};
use std::alloc::Global;
use std::fmt::Write;
use std::test::Fail;
use stored_log::StoredLog;

/// What a session came to.
#[derive(Drop)]
pub struct Played {
    /// Each step of the schedule: its client's number and what it came to, with a space behind.
    pub steps: String,
    /// The replies, as the outlet collected them.
    pub replies: Vec<u8>,
    /// The words of the log, the locks' holders and the turn's at the end.
    pub state: Vec<u64>,
}

/// The name of an event.
fn name_of(act: Act) -> &'static str {
    match act {
        Act::Look => "Look",
        Act::Lock => "Lock",
        Act::Pin => "Pin",
        Act::Plan => "Plan",
        Act::Turn => "Turn",
        Act::Check => "Check",
        Act::Commit => "Commit",
        Act::Yield => "Yield",
        Act::Release => "Release",
        Act::Reply => "Reply",
        Act::Fault => "Fault",
    }
}

/// Puts what a step came to behind a text.
fn put_step(text: &mut String, client: u32, step: Step) -> Result<(), Fail> {
    match step {
        Step::Moved(act) => write!(text, "{client}{} ", name_of(act))?,
        Step::Blocked { lock: Some(lock) } => write!(text, "{client}Blocked{lock} ")?,
        Step::Blocked { lock: None } => write!(text, "{client}Blocked ")?,
        Step::Ended => write!(text, "{client}Ended ")?,
    }
    Ok(())
}

/// Puts words behind others.
fn put_words(list: &mut Vec<u64>, w: &mut VecWords) -> Result<(), Fail>
    ensures same { w.new ≡ w.old }
{
    for k in 0..w.len() {
        list.push(w.word(k))?;
    }
    Ok(())
}

/// Puts numbers behind words.
fn put_numbers(list: &mut Vec<u64>, numbers: &[u32]) -> Result<(), Fail> {
    for number in numbers {
        list.push(*number as u64)?;
    }
    Ok(())
}

/// The words of a core's log, and who holds the locks and the turn.
fn state_of(alloc: Global, core: &mut Core<StoredLog>) -> Result<Vec<u64>, Fail>
    ensures same { core.new ≡ core.old }
{
    let mut state = Vec::new(alloc);
    put_words(&mut state, &mut core.rows.words)?;
    put_numbers(&mut state, &core.table.locks)?;
    state.push(core.table.turn as u64)?;
    Ok(state)
}

/// How many lines clients have taken, and how many entries they have seen.
fn counts_of(alloc: Global, clients: &[Client]) -> Result<Vec<u64>, Fail> {
    let mut counts = Vec::new(alloc);
    for client in clients {
        counts.push(client.taken as u64)?;
        counts.push(client.seen as u64)?;
    }
    Ok(counts)
}

/// One step of a client.
fn one_step(alloc: Global, core: &mut Core<StoredLog>, client: u32, outlet: &mut Collected) -> Step
    requires runs { IsRunning core.old }
    ensures runs { IsRunning core.new }
{
    if client == 0 || client as usize > core.clients.len() {
        return Step::Ended;
    }
    core.step(alloc, client, outlet)
}

/// One step of a client, and whether something changed.
fn step_told(
    alloc: Global,
    core: &mut Core<StoredLog>,
    client: u32,
    outlet: &mut Collected,
) -> Result<(Step, bool), Fail>
    requires runs { IsRunning core.old }
    ensures runs { IsRunning core.new }
{
    let before = state_of(alloc, core)?;
    let counts = counts_of(alloc, core.clients.as_slice())?;
    let came = one_step(alloc, core, client, outlet);
    let same = counts == counts_of(alloc, core.clients.as_slice())?
        && before == state_of(alloc, core)?;
    Ok((came, !same))
}

/// A step of each client of a schedule. A step that doesn't happen and changes something is a failure.
fn play(
    alloc: Global,
    core: &mut Core<StoredLog>,
    schedule: &[u32],
    outlet: &mut Collected,
) -> Result<String, Fail>
    requires runs { IsRunning core.old }
    ensures runs { IsRunning core.new }
{
    let mut steps = String::new(alloc);
    for client in schedule {
        let (came, changed) = step_told(alloc, core, *client, outlet)?;
        put_step(&mut steps, *client, came)?;
        let moved = matches!(came, Step::Moved(_));
        if changed && !moved {
            return Err(Fail::from(NoMemory));
        }
    }
    Ok(steps)
}

/// Steps of the least client that may go on, until all have ended.
fn finish(alloc: Global, core: &mut Core<StoredLog>, outlet: &mut Collected)
    requires runs { IsRunning core.old }
{
    if core.clients.len() <= 64 {
        core.finish(alloc, outlet);
    }
}

/// The steps and the state at the end of a session.
fn play_all(
    alloc: Global,
    core: &mut Core<StoredLog>,
    schedule: &[u32],
    outlet: &mut Collected,
) -> Result<(String, Vec<u64>), Fail>
    requires runs { IsRunning core.old }
{
    let steps = play(alloc, core, schedule, outlet)?;
    finish(alloc, core, outlet);
    Ok((steps, state_of(alloc, core)?))
}

/// What a session comes to, where client 1 has these lines.
fn play_session(alloc: Global, session: &Session<'_>, first: &str) -> Result<Played, Fail> {
    let fails = Vec::from_slice(alloc, session.fails)?;
    let out = MemSink::new(alloc, 65536, 1048576, fails)?;
    let mut outlet = Collected { out };
    let mut core = begin(alloc, session, first)?;
    let came = play_all(alloc, &mut core, session.schedule, &mut outlet);
    drop(core);
    let (steps, state) = came?;
    Ok(Played {
        steps,
        replies: outlet.out.into_bytes(),
        state,
    })
}

/// Whether a session takes these steps by its schedule, and gives these replies.
pub fn gives(
    alloc: Global,
    session: &Session<'_>,
    steps: &str,
    replies: &str,
) -> Result<bool, Fail> {
    let came = play_session(alloc, session, session.lines[0])?;
    let want = spelled(alloc, replies)?;
    Ok(came.steps.as_str() == steps && came.replies == want)
}

/// The replies to lines of client 1 behind others.
fn replies_behind(alloc: Global, before: &[u8], replies: &str) -> Result<Vec<u8>, Fail> {
    let mut all = Vec::from_slice(alloc, before)?;
    all.extend_from_slice(b"1 ")?;
    all.extend_from_slice(spelled(alloc, replies)?.as_slice())?;
    all.push(b'\n')?;
    Ok(all)
}

/// Whether client 1 is refused a further line by this reply, and the log, its records, the locks and
/// the turn are as they are without it.
pub fn refuses(
    alloc: Global,
    session: &Session<'_>,
    line: &str,
    reply: &str,
) -> Result<bool, Fail> {
    let before = play_session(alloc, session, session.lines[0])?;
    let mut lines = String::from_str(alloc, session.lines[0])?;
    lines.push_str(line)?;
    let came = play_session(alloc, session, lines.as_str())?;
    let want = replies_behind(alloc, before.replies.as_slice(), reply)?;
    Ok(came.state == before.state && came.replies == want)
}
