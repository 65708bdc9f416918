//! What the core asks of the records of a log.

ghost use Rattle.stored_log.specs.Stored.{Drafts, Stands, asked_line};

use crate::drafting::{publish, redraft};
use crate::logs::StoredLog;
use crate::planning::{locks_of, plan_of};
use crate::reading::{read_request, reply};
use client_events::{Remade, Rows, Stamp};
use log_rows::length;
use op_model::{Edit, LineError, Plan, Read, Refusal, Reply, Request};
use std::alloc::Global;

impl Rows for StoredLog {
    ghost stands = { Stands };

    ghost drafts = { Drafts };

    ghost asked = { asked_line };

    fn length(&mut self) -> u32 {
        length(&mut self.words)
    }

    fn read_line(&self, alloc: Global, line: &[u8]) -> Result<Request, LineError> {
        read_request(alloc, line)
    }

    fn answer(&mut self, alloc: Global, read: &Read) -> Reply {
        reply(alloc, &mut self.words, read)
    }

    fn locks(&mut self, edit: &Edit) -> Result<u64, Refusal> {
        locks_of(&mut self.words, edit)
    }

    fn plan(&mut self, alloc: Global, edit: Edit) -> Result<Plan, Refusal> {
        plan_of(alloc, &mut self.words, &self.dataset, edit)
    }

    fn remake(&mut self, alloc: Global, plan: &Plan, stamp: Stamp) -> Result<Remade, Refusal> {
        redraft(
            alloc,
            &mut self.words,
            &self.dataset,
            &mut self.draft,
            plan,
            stamp,
        )
    }

    fn commit(&mut self) {
        publish(&mut self.words, &mut self.draft);
    }

    ghost drafts_stand = { λ r d b log e h. h.0 };
}
