//! The calls that the core makes of the records of the log.

ghost use Rattle.std.specs.Prelude.{◌≡◌, ℕ, List, ◌∷◌, length, IfOk, OnOk, OnErr};
ghost use Rattle.op_model.specs.declared.base.Dataset.{Dataset};
ghost use Rattle.op_model.specs.declared.base.Base.{Base};
ghost use Rattle.op_model.specs.declared.entry.Entry.{Entry};
ghost use Rattle.op_model.specs.declared.entry.Changed.{Changed};
ghost use Rattle.op_model.specs.Transcript.{Line};
ghost use Rattle.op_model.specs.Legal.{Legal, LegalPlan};
ghost use Rattle.client_events.specs.Calls.{Answers, IsDrafted, IsPlanned, IsStood, Locks, Planned, Reads, Remakes};

use op_model::{Edit, Ids, LineError, Plan, Read, Refusal, Reply, Request};
use std::alloc::Global;

/// Who appends an entry, and when.
#[derive(Clone, Copy, Debug, PartialEq, Eq)]
pub struct Stamp {
    /// The client, counted from 1.
    pub client: u32,
    /// The client's line, counted from 1.
    pub line: u32,
    /// The clock's answer, in milliseconds.
    pub now: u64,
}

/// What a draft's entry is.
#[derive(Debug, Drop)]
pub struct Remade {
    /// The entry's number.
    pub op: u32,
    /// Its timestamp, in milliseconds.
    pub at: u64,
    /// The roots that it retires, ascending.
    pub retired: Ids,
    /// The roots that it makes, ascending.
    pub made: Ids,
}

/// Records of a log, and what is read from them and appended to them.
pub trait Rows {
    /// The records are those of the legal log.
    ghost stands: { Self → Dataset → Base → List Entry → Type 0 };

    /// They are, and behind them stands a draft of the entry that follows.
    ghost drafts: { Self → Dataset → Base → List Entry → Entry → Type 0 };

    /// What a line of these bytes is.
    ghost asked: { List ℕ → Line };

    /// How many entries the log has.
    fn length(&mut self) -> u32
        requires { IsStood (stands self.old) }
        ensures same { self.new ≡ self.old }
        ensures is { (d : Dataset) (b : Base) (log : List Entry) → stands self.old d b log → result ≡ length log };

    /// What a line asks.
    fn read_line(&self, alloc: Global, line: &[u8]) -> Result<Request, LineError>
        ensures { Reads result (asked line.now) };

    /// The reply to a read.
    fn answer(&mut self, alloc: Global, read: &Read) -> Reply
        requires { IsStood (stands self.old) }
        ensures same { self.new ≡ self.old }
        ensures is { (d : Dataset) (b : Base) (log : List Entry) → stands self.old d b log → Answers d b log read.now result };

    /// The numbers of the locks of the roots that an edit touches, as the bits of a mask, or the
    /// first refusal of its ids, its operation, its marks or its roots.
    fn locks(&mut self, edit: &Edit) -> Result<u64, Refusal>
        requires { IsStood (stands self.old) }
        ensures same { self.new ≡ self.old }
        ensures is { (d : Dataset) (b : Base) (log : List Entry) → stands self.old d b log → Locks d b log edit.now result };

    /// What an edit would change, or the first of these refusals, and that of its component or its
    /// glue; or `NoMemory`.
    fn plan(&mut self, alloc: Global, edit: Edit) -> Result<Plan, Refusal>
        requires { IsStood (stands self.old) }
        ensures same { self.new ≡ self.old }
        ensures is { (d : Dataset) (b : Base) (log : List Entry) → stands self.old d b log → Planned d b log edit result };

    /// Drafts the entry of a legal plan. It is refused for want of room, of numbers or of time, or
    /// is `NoMemory`; the records are then as they were.
    fn remake(&mut self, alloc: Global, plan: &Plan, stamp: Stamp) -> Result<Remade, Refusal>
        requires { IsPlanned (stands self.old) plan.now.edit plan.now.changed }
        ensures rows { (d : Dataset) (b : Base) (log : List Entry) → stands self.old d b log → stands self.new d b log }
        ensures is { (d : Dataset) (b : Base) (log : List Entry) → stands self.old d b log → LegalPlan d b log plan.now.edit plan.now.changed → Remakes (drafts self.new) d b log plan.now stamp result };

    /// Puts the draft behind the records.
    fn commit(&mut self)
        requires { IsDrafted (drafts self.old) }
        ensures { (d : Dataset) (b : Base) (log : List Entry) (e : Entry) → drafts self.old d b log e → stands self.new d b (e ∷ log) };

    // Rows with a draft are rows of the log before it.
    ghost drafts_stand: { (r : Self) (d : Dataset) (b : Base) (log : List Entry) (e : Entry) → drafts r d b log e → stands r d b log };
}
