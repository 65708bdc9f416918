//! The links of the new nodes of a layer.

ghost use Rattle.std.specs.Prelude.{◌≡◌, ◌≤◌, ◌<◌, ◌-◌, ◌++◌, ◌∷◌, [], ℕ, List, None, length, map, IfOk, OnOk};
ghost use Rattle.std.specs.List.{All};
ghost use Rattle.op_model.specs.declared.base.Dataset.{Dataset};
ghost use Rattle.op_model.specs.declared.base.Base.{Base};
ghost use Rattle.op_model.specs.declared.entry.Entry.{Entry};
ghost use Rattle.op_model.specs.Chunks.{top};
ghost use Rattle.op_model.specs.Ingest.{spent_in};
ghost use Rattle.op_model.specs.Labels.{new_among};
ghost use Rattle.op_model.specs.Records.{children, total};
ghost use Rattle.entry_parts.specs.Made.{AreLinksIn};
ghost use Rattle.made_links.specs.Children.{IsLinked};
ghost use Rattle.made_links.specs.Orders.{link_of};

use crate::finding::{Child, children};
use crate::ordering::{by_id, by_parent};
use crate::ranking::ranks;
use entry_parts::{MadeLink, MadeNode};
use made_nodes::MadeLayer;
use node_ids::NodeId;
use pcg_base::{NoMemory, Words};
use row_words::Spot;
use std::alloc::Global;

// a link behind a list
fn put(list: &mut Vec<MadeLink>, link: MadeLink) -> Result<(), NoMemory>
    ensures { OnOk result (list.new.items ≡ list.old.items ++ link ∷ []) }
{
    match list.push(link) {
        Ok(()) => Ok(()),
        Err(_) => Err(NoMemory),
    }
}

// the links of children to their parents among these nodes
fn linked(alloc: Global, nodes: &[MadeNode], children: &[Child]) -> Result<Vec<MadeLink>, NoMemory>
    requires parents { All (λ c. (0 < c.parent) × (c.parent ≤ length nodes.now)) children.now }
    ensures { IfOk result (λ v. v.items ≡ map (link_of nodes.now) children.now) }
{
    let mut list = Vec::new(alloc);
    for child in children {
        let parent = nodes[child.parent - 1];
        let link = MadeLink {
            child: child.id,
            parent: parent.id,
            child_at: child.spot,
        };
        put(&mut list, link)?;
    }
    Ok(list)
}

/// The links of the nodes that an entry makes in a layer to their children: by the nodes, and those of
/// one node by the ids of the children.
///
/// The words tell of the log before the entry, and the prefix is how many entries it has. `ids` has
/// supervoxels, ascending, with the least leaf of each child of a node that the entry makes in the
/// layer. `below_firsts` and
/// `firsts` have for each place that of the least leaf of its node of the layer below and of the
/// layer; below layer 2 each supervoxel is its own. `below` and `made` are what the entry makes there,
/// which is nothing below layer 2. Where a chunk of the layer below is spent, the ids of children there may
/// be wrong; there are as many links all the same. Time is linear in `ids`, n log n in the children, and a climb for
/// each child that stands whose record isn't where `guesses` has it for the place of its least leaf.
/// They may be any: what stands there is tested by the words.
///
/// # Errors
///
/// `NoMemory` where there is none for the lists.
pub fn layer_links<W: Words>(
    alloc: Global,
    w: &mut W,
    prefix: u32,
    ids: &[NodeId],
    layer: u8,
    below_firsts: &[u32],
    below: &MadeLayer,
    firsts: &[u32],
    made: &MadeLayer,
    guesses: &[Spot],
) -> Result<Vec<MadeLink>, NoMemory>
    requires linked { (d : Dataset) × (b : Base) × (log : List Entry) × (e : Entry) × IsLinked d b log e (W.words w.old) prefix ids.now layer below_firsts.now below.now firsts.now made.now × (2 ≤ layer) × (layer ≤ top d) }
    ensures same { w.new ≡ w.old }
    ensures links { IfOk result (λ v. (d : Dataset) (b : Base) (log : List Entry) (e : Entry) → IsLinked d b log e (W.words w.old) prefix ids.now layer below_firsts.now below.now firsts.now made.now → layer ≤ top d → (2 < layer → spent_in d b (e ∷ log) (layer - 1) ≡ None) → AreLinksIn d b log e layer below.now.nodes.items v.items) }
    ensures count { IfOk result (λ v. (d : Dataset) (b : Base) (log : List Entry) (e : Entry) → IsLinked d b log e (W.words w.old) prefix ids.now layer below_firsts.now below.now firsts.now made.now → layer ≤ top d → length v.items ≡ total (map (children d b (e ∷ log) layer) (new_among d b (e ∷ log) layer b.supervoxels))) }
{
    let below_ranks = ranks(alloc, ids.len(), &below.leasts)?;
    let own_ranks = ranks(alloc, ids.len(), &made.leasts)?;
    let list = children(
        alloc,
        w,
        prefix,
        layer,
        ids,
        below_firsts,
        below,
        &below_ranks,
        firsts,
        &own_ranks,
        guesses,
    )?;
    let list = by_id(list)?;
    let list = by_parent(list)?;
    let links = linked(alloc, &made.nodes, &list)?;
    Ok(links)
}
