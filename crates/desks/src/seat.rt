//! A pass of shared rows.

ghost use Rattle.desks.specs.Seats.{IsOpen, known_by};

use crate::desk::Desk;
use edit_desk::SharedDesk;
use op_model::{Edit, Read, Reply};
use pcg_base::{Clock, Gate};
use shared_rows::Pass;
use std::alloc::Global;
use std::sync::Wait;

/// A pass of shared rows, at their desk. It may ask when it is one of these rows, holds nothing, and
/// has seen an entry (`IsOpen`).
#[derive(Drop)]
pub struct Seat<'a, C: Clock, G: Gate> {
    /// Where the pass reads and edits.
    pub desk: SharedDesk<'a, C, G>,
    /// The pass of this client.
    pub pass: Pass,
}

impl<'a, C: Clock, G: Gate> Desk for Seat<'a, C, G> {
    ghost knows = { λ s. known_by s.pass.view };

    ghost ready = { λ s. IsOpen s.desk.shared.now s.desk.dataset.now s.pass };

    fn client(&self) -> u32 {
        self.pass.number()
    }

    fn read(&mut self, alloc: Global, request: &Read) -> Reply {
        self.desk.read(alloc, &mut self.pass, request)
    }

    fn edit<R: Wait>(&mut self, rt: &R, alloc: Global, edit: Edit, line: u32) -> Reply {
        self.desk.edit(rt, alloc, &mut self.pass, edit, line)
    }
}
