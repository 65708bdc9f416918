//! The core at the start.

ghost use Rattle.std.specs.Prelude.{◌≡◌, ◌<◌, ◌≤◌, ◌^◌, ℕ, List, [], ◌∷◌, ◌++◌, length, map, IfOk};
ghost use Rattle.std.specs.List.{AllByRecursion};
ghost use Rattle.op_model.specs.declared.base.Dataset.{Dataset};
ghost use Rattle.op_model.specs.declared.base.Base.{Base};
ghost use Rattle.op_model.specs.Operations.{first_entry};
ghost use Rattle.op_model.specs.Valid.{IsBase, IsDataset};
ghost use Rattle.session_machine.specs.Laws.{IsFirst};
ghost use Rattle.session_machine.specs.Machine.{start};
ghost use Rattle.core_steps.specs.Places.{CoreIs, IsGood};
ghost use Rattle.core_steps.specs.Starts.{lines_of, new_client};

use crate::cores::Core;
use client_events::{Client, LineText, Phase, Rows, Table};
use pcg_base::{NoMemory, Ticks};
use std::alloc::{AllocError, Global};

/// The lines of a client's stream.
#[derive(Drop)]
pub struct ClientLines {
    /// The lines, in order.
    pub lines: Vec<LineText>,
    /// Whether the stream ended in a fault.
    pub fault: bool,
}

/// A client with its lines.
fn ready(lines: ClientLines) -> Client
    ensures { result ≡ new_client lines }
{
    let ClientLines { lines, fault } = lines;
    Client {
        lines,
        taken: 0,
        fault,
        phase: Phase::Ready,
        seen: 1,
    }
}

/// Puts a client with its lines behind the others.
fn add(clients: &mut Vec<Client>, lines: ClientLines) -> Result<(), AllocError>
    ensures { IfOk result (λ u. clients.new.items ≡ clients.old.items ++ new_client lines ∷ []) }
{
    clients.push(ready(lines))?;
    Ok(())
}

/// Puts clients with their lines into an empty list.
fn add_all(clients: &mut Vec<Client>, lines: Vec<ClientLines>) -> Result<(), AllocError>
    requires { clients.old.items ≡ [] }
    ensures { IfOk result (λ u. clients.new.items ≡ map new_client lines.items) }
{
    for each in lines {
        add(clients, each)?;
    }
    Ok(())
}

/// Clients with their lines.
fn all_ready(alloc: Global, lines: Vec<ClientLines>) -> Result<Vec<Client>, NoMemory>
    ensures { IfOk result (λ clients. clients.items ≡ map new_client lines.items) }
{
    let mut clients = Vec::new(alloc);
    let Ok(()) = add_all(&mut clients, lines) else {
        return Err(NoMemory);
    };
    Ok(clients)
}

impl<R: Rows + Drop> Core<R> {
    /// The core over the records of a log of its first entry alone, before the first step.
    pub fn new(
        alloc: Global,
        rows: R,
        lines: Vec<ClientLines>,
        clock: Ticks,
    ) -> Result<Core<R>, NoMemory>
        requires clients { length lines.items ≤ 64 }
        requires lines { AllByRecursion (λ l. length l.lines.items < 2 ^ 32) lines.items }
        ensures clock { IfOk result (λ core. core.clock ≡ clock) }
        ensures is { IfOk result (λ core. (d : Dataset) (b : Base) (at : ℕ) → IsDataset d → IsBase d b → IsFirst d b at → R.stands rows d b (first_entry d b at ∷ [])
            → IsGood d b (start d b at (map (lines_of R.asked) lines.items))
            × CoreIs R.asked (R.stands core.rows) (R.drafts core.rows) d b core.table core.clients.items (start d b at (map (lines_of R.asked) lines.items))) }
    {
        let clients = all_ready(alloc, lines)?;
        Ok(Core {
            rows,
            table: Table {
                locks: [0; 64],
                turn: 0,
            },
            clients,
            clock,
        })
    }

    /// The records. It takes no memory.
    pub fn into_rows(self) -> R
        ensures { result ≡ self.rows }
    {
        let Core { rows, .. } = self;
        rows
    }
}
