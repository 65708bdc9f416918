//! The records of a base and its first entry, kind by kind.
//!
//! The contracts are over every list of records that the words stand for. Each call needs room for
//! eight words, takes no memory, and gives the place of the new record; the words must hold fewer
//! than 2^32 records.

ghost use Rattle.std.specs.Prelude.{◌≡◌, ℕ, List, [], ◌∷◌, ◌++◌, ◌<◌, ◌≤◌, ◌+◌, ◌-◌, ◌*◌, ◌^◌, length, IsFalse};
ghost use Rattle.std.specs.List.{list_any};
ghost use Rattle.op_model.specs.declared.entry.Entry.{Entry};
ghost use Rattle.op_model.specs.Lists.{head_or};
ghost use Rattle.record_rows.specs.Rows.{Row, HeaderRow, SupervoxelRow, ChunkRow, NodeRow, LinkRow, EdgeRow, EntryRow, Node, Link};
ghost use Rattle.record_rows.specs.Chains.{change_of, has_id, is_node, retires};
ghost use Rattle.record_rows.specs.Words.{bit, place_from, strength as strength_of, words_of};
ghost use Rattle.row_append.specs.Ends.{EdgesOf, VersionsOf, ChildrenOf, NodesIn, HasNone, EndsAt, IsHeaded, is_logged};
ghost use Rattle.row_append.specs.Tails.{IsIngest, word_number};

use crate::header::{grid_word, layout_word};
use crate::putting::{fill, next_place, put_row};
use crate::tail::Tail;
use node_ids::NodeId;
use op_model::{Dataset, Edge, Weight};
use pcg_base::VecWords;
use row_words::Spot;

/// A node, as its record's words tell it.
#[derive(Clone, Copy, PartialEq, Eq, Debug, Drop)]
pub struct NewNode {
    /// The node's id.
    pub id: NodeId,
    /// The least of its supervoxels.
    pub least: NodeId,
    /// The number of the entry that makes it; 0 for the ingest.
    pub made: u32,
}

/// A child of a node, as its record's words tell it.
#[derive(Clone, Copy, PartialEq, Eq, Debug, Drop)]
pub struct NewLink {
    /// The child, a supervoxel or a node.
    pub child: NodeId,
    /// The place of the child's record.
    pub child_at: Spot,
    /// The place of the parent's record.
    pub parent_at: Spot,
    /// The number of the entry that makes the parent; 0 for the ingest.
    pub entry: u32,
}

/// Puts the header into words that are empty yet: the dataset's layout, grid and merge affinity, and
/// how many supervoxels and chunks follow.
#[tactic(auto, using(crate::proofs::Pushes::header_pushed))]
pub fn push_header(w: &mut VecWords, dataset: Dataset, supervoxels: u32, chunks: u32)
    requires empty { w.old.words ≡ [] }
    requires room { 8 ≤ w.old.spare }
    ensures words { w.new.words ≡ words_of (HeaderRow dataset supervoxels chunks ∷ []) }
    ensures length { length w.new.words ≡ length w.old.words + 8 }
    ensures room { w.new.spare ≡ w.old.spare - 8 }
{
    put_row(
        w,
        [
            layout_word(dataset.layout),
            grid_word(dataset.grid),
            supervoxels as u64 + chunks as u64 * 4294967296,
            dataset.merge_affinity as u64,
            0,
            0,
            0,
            0,
        ],
    );
}

/// Puts a supervoxel behind the others, of which no edge and no link stands yet.
pub fn push_supervoxel(w: &mut VecWords, id: NodeId) -> Spot
    requires room { 8 ≤ w.old.spare }
    requires places { length w.old.words < 8 * 2 ^ 32 }
    ensures words { (rows : List Row) → IsHeaded rows → w.old.words ≡ words_of rows → HasNone (EdgesOf id) rows → HasNone (VersionsOf id) rows → w.new.words ≡ words_of (rows ++ SupervoxelRow id ∷ []) }
    ensures length { length w.new.words ≡ length w.old.words + 8 }
    ensures room { w.new.spare ≡ w.old.spare - 8 }
    ensures place { (rows : List Row) → w.old.words ≡ words_of rows → result ≡ length rows }
{
    let place = next_place(w);
    put_row(w, [2, id.0, 0, 0, 0, 0, 0, 0]);
    place
}

/// Puts a chunk behind the others, of which no node stands yet. Its id is that of a node with
/// segment 0.
pub fn push_chunk(w: &mut VecWords, id: NodeId) -> Spot
    requires room { 8 ≤ w.old.spare }
    requires places { length w.old.words < 8 * 2 ^ 32 }
    ensures words { (rows : List Row) → IsHeaded rows → w.old.words ≡ words_of rows → HasNone (NodesIn id) rows → w.new.words ≡ words_of (rows ++ ChunkRow id ∷ []) }
    ensures length { length w.new.words ≡ length w.old.words + 8 }
    ensures room { w.new.spare ≡ w.old.spare - 8 }
    ensures place { (rows : List Row) → w.old.words ≡ words_of rows → result ≡ length rows }
{
    let place = next_place(w);
    put_row(w, [3, id.0, 0, 0, 0, 0, 0, 0]);
    place
}

/// Puts an edge of the ingest behind the others. The edges of its lesser end must end at `lesser`,
/// those of its greater end at `greater`, and no change of the pair stand yet.
pub fn push_edge(w: &mut VecWords, edge: Edge, lesser: Tail, greater: Tail) -> Spot
    requires room { 8 ≤ w.old.spare }
    requires places { length w.old.words < 8 * 2 ^ 32 }
    requires lesser { word_number lesser < length w.old.words }
    requires greater { word_number greater < length w.old.words }
    ensures words { (rows : List Row) → IsHeaded rows → w.old.words ≡ words_of rows
        → EndsAt (EdgesOf edge.pair.a) rows (word_number lesser) → EndsAt (EdgesOf edge.pair.b) rows (word_number greater) → IsFalse (list_any (change_of edge.pair) rows)
        → w.new.words ≡ words_of (rows ++ EdgeRow 0 edge ∷ []) }
    ensures length { length w.new.words ≡ length w.old.words + 8 }
    ensures room { w.new.spare ≡ w.old.spare - 8 }
    ensures place { (rows : List Row) → w.old.words ≡ words_of rows → result ≡ length rows }
{
    let place = next_place(w);
    fill(w, lesser, place);
    fill(w, greater, place);
    put_row(
        w,
        [
            edge_word(edge.active),
            edge.pair.a.0,
            edge.pair.b.0,
            strength(edge.weight),
            0,
            0,
            0,
            0,
        ],
    );
    place
}

/// Puts a node behind the others. The nodes of its chunk must end at `nodes`; no link to the node
/// or from it stands yet, and no entry that retired it.
pub fn push_node(w: &mut VecWords, node: NewNode, nodes: Tail) -> Spot
    requires room { 8 ≤ w.old.spare }
    requires places { length w.old.words < 8 * 2 ^ 32 }
    requires nodes { word_number nodes < length w.old.words }
    ensures words { (rows : List Row) (n : Node) → IsHeaded rows → w.old.words ≡ words_of rows → n.id ≡ node.id → head_or 0 n.leaves ≡ node.least → n.made ≡ node.made
        → EndsAt (NodesIn n.chunk) rows (word_number nodes) → HasNone (ChildrenOf n.id) rows → HasNone (VersionsOf n.id) rows → IsFalse (list_any (retires n) rows)
        → w.new.words ≡ words_of (rows ++ NodeRow n ∷ []) }
    ensures length { length w.new.words ≡ length w.old.words + 8 }
    ensures room { w.new.spare ≡ w.old.spare - 8 }
    ensures place { (rows : List Row) → w.old.words ≡ words_of rows → result ≡ length rows }
{
    let place = next_place(w);
    fill(w, nodes, place);
    put_row(
        w,
        [4, node.id.0, node.least.0, node.made as u64, 0, 0, 0, 0],
    );
    place
}

/// Puts a link behind the others. The parent's children must end at `children`, and the child's
/// links at `versions`.
pub fn push_link(w: &mut VecWords, link: NewLink, children: Tail, versions: Tail) -> Spot
    requires room { 8 ≤ w.old.spare }
    requires places { length w.old.words < 8 * 2 ^ 32 }
    requires children { word_number children < length w.old.words }
    requires versions { word_number versions < length w.old.words }
    ensures words { (rows : List Row) (l : Link) → IsHeaded rows → w.old.words ≡ words_of rows → l.child ≡ link.child → l.entry ≡ link.entry
        → place_from (has_id l.child) 0 rows ≡ link.child_at → place_from (is_node l.parent) 0 rows ≡ link.parent_at
        → EndsAt (ChildrenOf l.parent) rows (word_number children) → EndsAt (VersionsOf l.child) rows (word_number versions)
        → w.new.words ≡ words_of (rows ++ LinkRow l ∷ []) }
    ensures length { length w.new.words ≡ length w.old.words + 8 }
    ensures room { w.new.spare ≡ w.old.spare - 8 }
    ensures place { (rows : List Row) → w.old.words ≡ words_of rows → result ≡ length rows }
{
    let place = next_place(w);
    fill(w, children, place);
    fill(w, versions, place);
    put_row(
        w,
        [
            5,
            link.child.0,
            link.child_at.0 as u64,
            link.entry as u64,
            link.parent_at.0 as u64,
            0,
            0,
            0,
        ],
    );
    place
}

/// Puts the first entry behind the others, with its timestamp in milliseconds. No change, item or
/// entry stands yet.
pub fn push_entry(w: &mut VecWords, at: u64) -> Spot
    requires room { 8 ≤ w.old.spare }
    requires places { length w.old.words < 8 * 2 ^ 32 }
    ensures words { (rows : List Row) (e : Entry) → IsHeaded rows → w.old.words ≡ words_of rows → IsIngest e at → IsFalse (list_any is_logged rows) → w.new.words ≡ words_of (rows ++ EntryRow e ∷ []) }
    ensures length { length w.new.words ≡ length w.old.words + 8 }
    ensures room { w.new.spare ≡ w.old.spare - 8 }
    ensures place { (rows : List Row) → w.old.words ≡ words_of rows → result ≡ length rows }
{
    let place = next_place(w);
    put_row(w, [9, at, 0, 0, 0, 0, 0, 0]);
    place
}

/// The first word of an edge of the ingest.
#[tactic(auto, unfolding(record_rows::specs::Words::bit))]
fn edge_word(active: bool) -> u64
    ensures { result ≡ 6 + bit active * 2 ^ 8 + 0 * 2 ^ 32 }
{
    if active { 262 } else { 6 }
}

/// A weight in an edge's words: the affinity, 0 for glue.
#[tactic(auto, unfolding(record_rows::specs::Words::strength))]
fn strength(weight: Weight) -> u64
    ensures { result ≡ strength_of weight }
{
    match weight {
        Weight::Affinity(affinity) => affinity as u64,
        Weight::Glue => 0,
    }
}
