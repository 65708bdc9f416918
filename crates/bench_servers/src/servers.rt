//! The server.

ghost use Rattle.std.specs.Prelude.{◌≡◌};
ghost use Rattle.op_model.specs.Valid.{IsBase, IsDataset};

use crate::edits::{locks_of, plan_of, put_edit};
use crate::objects::{component_of, leaves_of, reply_of, root_of};
use component_reader::AmongError;
use hierarchy_build::{BuildError, build};
use hierarchy_edit::{Remade, Stamp};
use node_ids::NodeId;
use op_model::{Base, Dataset, EdgeList, Edit, Ids, Plan, Read, Refusal, Reply};
use pcg_base::{NoMemory, VecWords, Words};
use std::alloc::Global;
use std::marker::Model;

/// The words of a log, with its dataset.
#[derive(Drop)]
pub struct Server {
    dataset: Dataset,
    words: VecWords,
}

impl Model for Server {
    ghost use Rattle.std.specs.Prelude.{ℕ, List};
    ghost use Rattle.bench_servers.specs.Servers.{IsServer};

    ghost Value = { List ℕ };

    ghost view = { λ s. s.words.words };

    ghost invariant = { λ s. IsServer s.dataset s.words.words s.words.spare };
}

impl Server {
    /// The server of a base, whose log has the entry of the ingest alone, at `now` in milliseconds.
    ///
    /// # Errors
    ///
    /// As `hierarchy_build::build`.
    pub fn new(alloc: Global, base: &Base, dataset: Dataset, now: u64) -> Result<Server, BuildError>
        requires dataset { IsDataset dataset }
        requires base { IsBase dataset base.now }
    {
        let words = build(alloc, base, &dataset, now)?;
        Ok(Server { dataset, words })
    }

    /// How many records there are.
    pub fn records(&self) -> u64 {
        self.words.len() / 8
    }

    /// The locks of the roots that an edit touches, as bits of a mask, or its first refusal before
    /// its component, room, ids and time count. It takes no memory.
    pub fn locks(&mut self, edit: &Edit) -> Result<u64, Refusal>
        ensures same { self.new ≡ self.old }
    {
        locks_of(&mut self.words, &self.dataset, edit)
    }

    /// What an edit would change, or why there is no plan of it.
    ///
    /// # Errors
    ///
    /// The refusal before room, ids and time count, or `NoMemory`.
    pub fn plan(&mut self, alloc: Global, edit: Edit) -> Result<Plan, Refusal>
        ensures same { self.new ≡ self.old }
    {
        plan_of(alloc, &mut self.words, &self.dataset, edit)
    }

    /// Appends the entry of an edit, and tells its number, timestamp and roots.
    ///
    /// # Errors
    ///
    /// The edit's first refusal, or `NoMemory`.
    pub fn put(&mut self, alloc: Global, edit: Edit, stamp: Stamp) -> Result<Remade, Refusal> {
        put_edit(alloc, &mut self.words, &self.dataset, edit, stamp)
    }

    /// The reply to a read.
    pub fn read(&mut self, alloc: Global, read: &Read) -> Reply
        ensures same { self.new ≡ self.old }
    {
        reply_of(alloc, &mut self.words, &self.dataset, read)
    }

    /// The root of a supervoxel, as the whole log left it; `None` where the base hasn't the id.
    pub fn root(&mut self, sv: NodeId) -> Option<NodeId>
        ensures same { self.new ≡ self.old }
    {
        root_of(&mut self.words, &self.dataset, sv)
    }

    /// The leaves of the root of a supervoxel, ascending; none where the base hasn't the id.
    ///
    /// # Errors
    ///
    /// `NoMemory` where the list can't be had.
    pub fn leaves(&mut self, alloc: Global, sv: NodeId) -> Result<Ids, NoMemory>
        ensures same { self.new ≡ self.old }
    {
        leaves_of(alloc, &mut self.words, &self.dataset, sv)
    }

    /// The active edges among the leaves of the root of a supervoxel, as the entries below the prefix
    /// left them; none where the base hasn't the id. A prefix of 0 counts as 1.
    ///
    /// # Errors
    ///
    /// `TooMany` where there are more than `most`, and `NoMemory` where the list can't be had.
    pub fn component(
        &mut self,
        alloc: Global,
        sv: NodeId,
        prefix: u32,
        most: usize,
    ) -> Result<EdgeList, AmongError>
        ensures same { self.new ≡ self.old }
    {
        component_of(alloc, &mut self.words, &self.dataset, sv, prefix, most)
    }
}
