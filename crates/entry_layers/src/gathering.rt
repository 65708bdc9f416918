//! What is gathered, layer by layer, of the nodes and links that an entry makes.

ghost use Rattle.std.specs.Prelude.{◌≡◌, ◌+◌, ◌++◌, ◌∷◌, [], ◌↔◌, ℕ, IsTrue, List, None, length, map, option_map, OnOk};
ghost use Rattle.std.specs.Option.{option_or};
ghost use Rattle.graph_model.specs.Lists.{has};
ghost use Rattle.op_model.specs.declared.base.Base.{Base};
ghost use Rattle.op_model.specs.declared.base.Dataset.{Dataset};
ghost use Rattle.op_model.specs.declared.entry.Entry.{Entry};
ghost use Rattle.op_model.specs.Ingest.{spent_in};
ghost use Rattle.entry_parts.specs.Made.{AreLinksIn, AreMadeIn};
ghost use Rattle.entry_layers.specs.Gathered.{AreGathered, children_in, told_spent};

use entry_parts::{MadeLink, MadeNode};
use node_ids::NodeId;
use op_model::Ids;
use pcg_base::NoMemory;
use std::alloc::Global;

/// A chunk that would give a number which the ids of its layer don't hold.
#[derive(Clone, Copy, PartialEq, Eq, Debug, Drop)]
pub struct SpentChunk {
    /// Its layer.
    pub layer: u8,
    /// Its id, with segment 0.
    pub chunk: NodeId,
}

/// The nodes and links that an entry makes.
#[derive(Drop)]
pub struct EntryLayers {
    /// The nodes, in the order of their records: by layers, chunks and numbers.
    pub nodes: Vec<MadeNode>,
    /// The links to their children, in the order of their records: by the nodes and the children's
    /// ids. Where a chunk is spent they aren't meant to be written, but there are as many.
    pub links: Vec<MadeLink>,
    /// The roots, ascending.
    pub roots: Ids,
    /// The first spent chunk, by layers and ids.
    pub spent: Option<SpentChunk>,
}

/// Nothing yet.
pub fn begin(alloc: Global) -> EntryLayers
    ensures { (d : Dataset) (b : Base) (log : List Entry) (e : Entry) → AreGathered d b log e 0 result }
{
    EntryLayers {
        nodes: Vec::new(alloc),
        links: Vec::new(alloc),
        roots: Ids {
            list: Vec::new(alloc),
        },
        spent: None,
    }
}

// puts nodes behind others
fn append_nodes(list: &mut Vec<MadeNode>, more: &[MadeNode]) -> Result<(), NoMemory>
    ensures { OnOk result (list.new.items ≡ list.old.items ++ more.now) }
{
    match list.extend_from_slice(more) {
        Ok(()) => Ok(()),
        Err(_) => Err(NoMemory),
    }
}

// puts links behind others
fn append_links(list: &mut Vec<MadeLink>, more: &[MadeLink]) -> Result<(), NoMemory>
    ensures { OnOk result (list.new.items ≡ list.old.items ++ more.now) }
{
    match list.extend_from_slice(more) {
        Ok(()) => Ok(()),
        Err(_) => Err(NoMemory),
    }
}

// the chunk that was spent first: one of a lower layer, or else that of this layer
fn first_spent(below: Option<SpentChunk>, layer: u8, chunk: Option<NodeId>) -> Option<SpentChunk>
    ensures told { told_spent result ≡ option_or (told_spent below) (option_map (λ c. (layer, c)) chunk) }
    ensures none { result ≡ None → (below ≡ None) × (chunk ≡ None) }
{
    if below.is_some() {
        return below;
    }
    match chunk {
        Some(chunk) => Some(SpentChunk { layer, chunk }),
        None => None,
    }
}

/// Puts the nodes and links of the next layer, and its spent chunk, behind those of the layers below.
///
/// # Errors
///
/// `NoMemory` where there is none for the lists.
pub fn add(
    all: &mut EntryLayers,
    layer: u8,
    nodes: &[MadeNode],
    spent: Option<NodeId>,
    links: &[MadeLink],
) -> Result<(), NoMemory>
    ensures gathered { (d : Dataset) (b : Base) (log : List Entry) (e : Entry) (n : ℕ) (below : List MadeNode) → AreGathered d b log e n all.old → n + 2 ≡ layer
        → AreMadeIn d b log e layer nodes.now → spent ≡ spent_in d b (e ∷ log) layer → length links.now ≡ children_in d b log e layer
        → (all.old.spent ≡ None → AreLinksIn d b log e layer below links.now)
        → ((i : ℕ) → IsTrue (has (map (λ m. m.id) below) i) → IsTrue (has (map (λ m. m.id) all.old.nodes.items) i))
        → OnOk result (AreGathered d b log e (n + 1) all.new) }
    ensures nodes { OnOk result (all.new.nodes.items ≡ all.old.nodes.items ++ nodes.now) }
    ensures spent { OnOk result (all.new.spent ≡ None → (all.old.spent ≡ None) × (spent ≡ None)) }
{
    append_nodes(&mut all.nodes, nodes)?;
    append_links(&mut all.links, links)?;
    all.spent = first_spent(all.spent, layer, spent);
    Ok(())
}
