//! Whole replies to reads.

ghost use Rattle.std.specs.Prelude.{◌≡◌, ◌<◌, ◌≤◌, ◌∷◌, [], ℕ, List, Some, length, MatchOption, MatchResult, ◌&&◌, ◌==◌, nat_lt, true, false};
ghost use Rattle.node_ids.specs.Ids.{parts_of};
ghost use Rattle.op_model.specs.declared.base.Dataset.{Dataset};
ghost use Rattle.op_model.specs.declared.base.Base.{Base};
ghost use Rattle.op_model.specs.declared.entry.Entry.{Entry};
ghost use Rattle.op_model.specs.declared.request.Read.TheVariants as read;
ghost use Rattle.graph_model.specs.Lists.{has};
ghost use Rattle.std.specs.List.{list_any};
ghost use Rattle.op_model.specs.Refusals.{first_of, is_root_id, prefix_for, refuse_read, refuse_root};
ghost use Rattle.op_model.specs.Transcript.{log_at};
ghost use Rattle.record_rows.specs.Readings.{HoldsId, HoldsSupervoxel, Image, ParentImage};
ghost use Rattle.node_reader.specs.Readable.{IsReadable};
ghost use Rattle.timestamp_reader.specs.Replies.{HoldsRoot, ImageFor, IsAnswer, IsAsked, IsAskedRoot, prefix_of_read, reply_to};

use change_reader::changes;
use log_rows::{TimeRefusal, length, prefix_at};
use node_ids::{NodeId, Parts};
use node_reader::{leaves, path_at, root_at, top_of};
use op_model::{Read, Refusal, Reply};
use parent_rows::{find, node};
use pcg_base::Words;
use record_rows::layout_of;
use row_words::{Spot, fixed, supervoxel};
use std::alloc::Global;

/// The whole reply to a read: the first refusal in the order of `Refusal`'s variants, else the
/// answer. A read that is refused takes no memory; of the others only one of leaves or of changes
/// may find that there is none, and is then answered `NoMemory`. A read of changes needs the whole
/// image of a log, and another one what tells of its nodes and parents.
pub fn answer<W: Words>(alloc: Global, w: &mut W, request: &Read) -> Reply
    requires image { (d : Dataset) × (b : Base) × (log : List Entry) × ImageFor request.now d b log (W.words w.old) }
    ensures same { w.new ≡ w.old }
    ensures is { (d : Dataset) (b : Base) (log : List Entry) → ImageFor request.now d b log (W.words w.old) → IsAnswer d b log request.now result }
{
    match request {
        Read::Root { sv, at } => root_reply(w, *sv, *at),
        Read::Path { sv, at } => path_reply(w, *sv, *at),
        Read::Leaves { root, at } => leaves_reply(alloc, w, *root, *at),
        Read::Changes { root, at } => changes_reply(alloc, w, *root, *at),
    }
}

/// The reply to a read of a supervoxel's root.
fn root_reply<W: Words>(w: &mut W, sv: NodeId, at: Option<u64>) -> Reply
    requires image { (d : Dataset) × (b : Base) × (log : List Entry) × ParentImage d b log (W.words w.old) }
    ensures same { w.new ≡ w.old }
    ensures is { (d : Dataset) (b : Base) (log : List Entry) → ParentImage d b log (W.words w.old) → result ≡ reply_to d b log (read.Root sv at) }
{
    let seen = length(w);
    match asked_supervoxel(w, sv, at) {
        Ok(asked) => {
            let root = root_at(w, asked.spot, asked.prefix);
            Reply::Root { root, seen }
        }
        Err(refusal) => Reply::Refused { refusal, seen },
    }
}

/// The reply to a read of a supervoxel's path.
fn path_reply<W: Words>(w: &mut W, sv: NodeId, at: Option<u64>) -> Reply
    requires image { (d : Dataset) × (b : Base) × (log : List Entry) × ParentImage d b log (W.words w.old) }
    ensures same { w.new ≡ w.old }
    ensures is { (d : Dataset) (b : Base) (log : List Entry) → ParentImage d b log (W.words w.old) → result ≡ reply_to d b log (read.Path sv at) }
{
    let seen = length(w);
    match asked_supervoxel(w, sv, at) {
        Ok(asked) => {
            let nodes = path_at(w, asked.spot, asked.prefix);
            Reply::Path { nodes, seen }
        }
        Err(refusal) => Reply::Refused { refusal, seen },
    }
}

/// The reply to a read of a root's leaves.
fn leaves_reply<W: Words>(alloc: Global, w: &mut W, root: NodeId, at: Option<u64>) -> Reply
    requires image { (d : Dataset) × (b : Base) × (log : List Entry) × ParentImage d b log (W.words w.old) }
    ensures same { w.new ≡ w.old }
    ensures is { (d : Dataset) (b : Base) (log : List Entry) → ParentImage d b log (W.words w.old) → IsAnswer d b log (read.Leaves root at) result }
{
    let seen = length(w);
    match asked_root(w, root, at) {
        Ok(asked) => match leaves(alloc, w, asked.spot) {
            Ok(leaves) => Reply::Leaves { leaves, seen },
            Err(_) => Reply::NoMemory,
        },
        Err(refusal) => Reply::Refused { refusal, seen },
    }
}

/// The reply to a read of a root's changes.
fn changes_reply<W: Words>(alloc: Global, w: &mut W, root: NodeId, at: Option<u64>) -> Reply
    requires image { (d : Dataset) × (b : Base) × (log : List Entry) × Image d b log (W.words w.old) }
    ensures same { w.new ≡ w.old }
    ensures is { (d : Dataset) (b : Base) (log : List Entry) → Image d b log (W.words w.old) → IsAnswer d b log (read.Changes root at) result }
{
    let seen = length(w);
    match asked_root(w, root, at) {
        Ok(asked) => match changes(alloc, w, root, asked.prefix) {
            Ok(ops) => Reply::Changes { ops, seen },
            Err(_) => Reply::NoMemory,
        },
        Err(refusal) => Reply::Refused { refusal, seen },
    }
}

/// A supervoxel's record, and how many entries a read of it is asked of.
#[derive(Clone, Copy, Drop)]
struct AskedSupervoxel {
    /// The place of the record.
    spot: Spot,
    /// From 1 to how many entries the log has.
    prefix: u32,
}

/// What a read of a supervoxel at this time is asked of, or why it is refused.
fn asked_supervoxel<W: Words>(
    w: &mut W,
    sv: NodeId,
    at: Option<u64>,
) -> Result<AskedSupervoxel, Refusal>
    requires image { (d : Dataset) × (b : Base) × (log : List Entry) × ParentImage d b log (W.words w.old) }
    ensures same { w.new ≡ w.old }
    ensures is { (d : Dataset) (b : Base) (log : List Entry) → ParentImage d b log (W.words w.old) → MatchResult result (λ a. IsAsked d b log sv at a.spot a.prefix) (λ r. refuse_read d b log (read.Root sv at) ≡ Some r) }
{
    let prefix = match prefix_of(w, at) {
        Ok(prefix) => prefix,
        Err(refusal) => return Err(refusal),
    };
    match known(w, sv) {
        Some(spot) => Ok(AskedSupervoxel { spot, prefix }),
        None => Err(Refusal::NoSuchSupervoxel { id: sv }),
    }
}

/// A root's record, and how many entries a read of it is asked of.
#[derive(Clone, Copy, Drop)]
struct AskedRoot {
    /// The place of the record.
    spot: Spot,
    /// From 1 to how many entries the log has.
    prefix: u32,
}

/// What a read of a root's leaves at this time is asked of, or why it is refused. It is the same for
/// a read of the root's changes.
fn asked_root<W: Words>(w: &mut W, root: NodeId, at: Option<u64>) -> Result<AskedRoot, Refusal>
    requires image { (d : Dataset) × (b : Base) × (log : List Entry) × ParentImage d b log (W.words w.old) }
    ensures same { w.new ≡ w.old }
    ensures is { (d : Dataset) (b : Base) (log : List Entry) → ParentImage d b log (W.words w.old) → MatchResult result (λ a. IsAskedRoot d b log root at a.spot a.prefix) (λ r. refuse_read d b log (read.Leaves root at) ≡ Some r) }
{
    let count = match prefix_of(w, at) {
        Ok(prefix) => prefix,
        Err(refusal) => return Err(refusal),
    };
    match root_of_prefix(w, root, count) {
        Ok(spot) => Ok(AskedRoot {
            spot,
            prefix: count,
        }),
        Err(refusal) => Err(refusal),
    }
}

/// How many entries a read of this time is asked of, from 1 to all, or why the time is refused.
fn prefix_of<W: Words>(w: &mut W, at: Option<u64>) -> Result<u32, Refusal>
    requires image { (d : Dataset) × (b : Base) × (log : List Entry) × ParentImage d b log (W.words w.old) }
    ensures same { w.new ≡ w.old }
    ensures is { (d : Dataset) (b : Base) (log : List Entry) → ParentImage d b log (W.words w.old) → result ≡ prefix_of_read log at }
{
    let Some(t) = at else {
        return Ok(length(w));
    };
    match prefix_at(w, t) {
        Ok(prefix) => Ok(prefix),
        Err(TimeRefusal::TooEarly { first }) => Err(Refusal::TooEarly { first }),
        Err(TimeRefusal::Unpublished { latest }) => Err(Refusal::Unpublished { latest }),
    }
}

/// The record of a supervoxel; `None` exactly where the base has none of this id.
fn known<W: Words>(w: &mut W, sv: NodeId) -> Option<Spot>
    requires image { (d : Dataset) × (b : Base) × (log : List Entry) × ParentImage d b log (W.words w.old) }
    ensures same { w.new ≡ w.old }
    ensures is { (d : Dataset) (b : Base) (log : List Entry) → ParentImage d b log (W.words w.old) → MatchOption result (has b.supervoxels sv ≡ false) (λ p. HoldsSupervoxel d b log p sv) }
{
    supervoxel(w, sv.0)
}

/// The record of a root that one of so many first entries made, or why there is none.
fn root_of_prefix<W: Words>(w: &mut W, root: NodeId, prefix: u32) -> Result<Spot, Refusal>
    requires readable { (d : Dataset) × (b : Base) × (log : List Entry) × IsReadable d b log (W.words w.old) prefix }
    ensures same { w.new ≡ w.old }
    ensures is { (d : Dataset) (b : Base) (log : List Entry) → IsReadable d b log (W.words w.old) prefix → MatchResult result (HoldsRoot d b log (log_at d b log prefix) root) (λ r. first_of (refuse_root d b (log_at d b log prefix) root) ≡ Some r) }
{
    if !is_root_id(w, root) {
        return Err(Refusal::NotARoot { id: root });
    }
    match made_below(w, root, prefix) {
        Some(spot) => Ok(spot),
        None => Err(Refusal::NoSuchRoot { id: root }),
    }
}

/// Whether an id has the top layer, its one chunk and a segment of at least 1.
fn is_root_id<W: Words>(w: &mut W, id: NodeId) -> bool
    requires image { (d : Dataset) × (b : Base) × (log : List Entry) × ParentImage d b log (W.words w.old) }
    ensures same { w.new ≡ w.old }
    ensures is { (d : Dataset) (b : Base) (log : List Entry) → ParentImage d b log (W.words w.old) → result ≡ is_root_id d id }
{
    let top = top_of(w);
    is_root(parts_of(w, id), top)
}

/// Whether these are the parts of a root's id.
fn is_root(parts: Parts, top: u8) -> bool
    ensures { result ≡ (parts.layer == top && parts.x == 0 && parts.y == 0 && parts.z == 0 && nat_lt 0 parts.segment) }
{
    parts.layer == top && parts.x == 0 && parts.y == 0 && parts.z == 0 && parts.segment > 0
}

/// The parts of an id.
fn parts_of<W: Words>(w: &mut W, id: NodeId) -> Parts
    requires image { (d : Dataset) × (b : Base) × (log : List Entry) × ParentImage d b log (W.words w.old) }
    ensures same { w.new ≡ w.old }
    ensures is { (d : Dataset) (b : Base) (log : List Entry) → ParentImage d b log (W.words w.old) → result ≡ parts_of d.layout id }
{
    let word = fixed(w, Spot(0), 0);
    layout_of(word).unpack(id)
}

/// The record of a root, if one of so many first entries made it. The id must be of a root's form.
fn made_below<W: Words>(w: &mut W, root: NodeId, prefix: u32) -> Option<Spot>
    requires readable { (d : Dataset) × (b : Base) × (log : List Entry) × IsReadable d b log (W.words w.old) prefix × (is_root_id d root ≡ true) }
    ensures same { w.new ≡ w.old }
    ensures is { (d : Dataset) (b : Base) (log : List Entry) → IsReadable d b log (W.words w.old) prefix → is_root_id d root ≡ true → MatchOption result (list_any (λ e. has e.made root) (log_at d b log prefix) ≡ false) (HoldsRoot d b log (log_at d b log prefix) root) }
{
    let Some(spot) = find(w, root) else {
        return None;
    };
    if node(w, spot).made < prefix {
        Some(spot)
    } else {
        None
    }
}
