//! Edges, nodes and links of a later entry, each put behind the others.
//!
//! The contracts are over every list of records that the draft stands for. A tail is where a chain
//! ends; the new record is made to be its next member.

ghost use Rattle.std.specs.Prelude.{◌≡◌, ◌≢◌, ℕ, List, [], ◌∷◌, ◌++◌, ◌<◌, ◌≤◌, ◌+◌, ◌*◌, ◌^◌, length, IsFalse, OnOk, IfOk};
ghost use Rattle.std.specs.List.{list_any};
ghost use Rattle.graph_model.specs.Lists.{head_or};
ghost use Rattle.record_rows.specs.Rows.{Row, NodeRow, LinkRow, EdgeRow, Node, Link};
ghost use Rattle.record_rows.specs.Chains.{change_of, has_id, is_node, retires};
ghost use Rattle.record_rows.specs.Words.{bit, place_from, strength as strength_of};
ghost use Rattle.row_append.specs.Ends.{EdgesOf, VersionsOf, ChildrenOf, NodesIn, HasNone, EndsAt};
ghost use Rattle.row_append.specs.Tails.{word_number};
ghost use Rattle.grown_rows.specs.Growths.{IsGrowth, IsTail};

use crate::growing::Growth;
use op_model::{Edge, Weight};
use pcg_base::NoMemory;
use row_append::{NewLink, NewNode, Tail};
use row_words::Spot;

/// Puts an edge behind the others, which the entry of this number makes known. The edges of its
/// lesser end must end at `lesser`, those of its greater end at `greater`, and no change of the pair
/// stand yet.
///
/// # Errors
///
/// `NoMemory` where there is none for the record.
pub fn push_edge(
    growth: &mut Growth,
    edge: Edge,
    made: u32,
    lesser: Tail,
    greater: Tail,
) -> Result<Spot, NoMemory>
    requires places { 8 * growth.old.tail + length growth.old.more < 8 * 2 ^ 32 }
    requires lesser { IsTail growth.old lesser }
    requires greater { IsTail growth.old greater }
    ensures pushed { (old more : List Row) → IsGrowth old more growth.old → edge.pair.a ≢ edge.pair.b
        → EndsAt (EdgesOf edge.pair.a) (old ++ more) (word_number lesser) → EndsAt (EdgesOf edge.pair.b) (old ++ more) (word_number greater) → IsFalse (list_any (change_of edge.pair) (old ++ more))
        → OnOk result (IsGrowth old (more ++ EdgeRow made edge ∷ []) growth.new) }
    ensures place { (old more : List Row) → IsGrowth old more growth.old → IfOk result (λ p. p ≡ length (old ++ more)) }
    ensures length { OnOk result (length growth.new.more ≡ length growth.old.more + 8) }
    ensures tail { growth.new.tail ≡ growth.old.tail }
{
    let place = growth.next_place();
    growth.put([
        edge_word(edge.active, made),
        edge.pair.a.0,
        edge.pair.b.0,
        strength(edge.weight),
        0,
        0,
        0,
        0,
    ])?;
    growth.fill(lesser, place)?;
    growth.fill(greater, place)?;
    Ok(place)
}

/// Puts a node behind the others. The nodes of its chunk must end at `nodes`; no link to the node
/// or from it stands yet, and no entry that retired it.
///
/// # Errors
///
/// `NoMemory` where there is none for the record.
pub fn push_node(growth: &mut Growth, node: NewNode, nodes: Tail) -> Result<Spot, NoMemory>
    requires places { 8 * growth.old.tail + length growth.old.more < 8 * 2 ^ 32 }
    requires nodes { IsTail growth.old nodes }
    ensures pushed { (old more : List Row) (n : Node) → IsGrowth old more growth.old → n.id ≡ node.id → head_or 0 n.leaves ≡ node.least → n.made ≡ node.made
        → EndsAt (NodesIn n.chunk) (old ++ more) (word_number nodes) → HasNone (ChildrenOf n.id) (old ++ more) → HasNone (VersionsOf n.id) (old ++ more) → IsFalse (list_any (retires n) (old ++ more))
        → OnOk result (IsGrowth old (more ++ NodeRow n ∷ []) growth.new) }
    ensures place { (old more : List Row) → IsGrowth old more growth.old → IfOk result (λ p. p ≡ length (old ++ more)) }
    ensures length { OnOk result (length growth.new.more ≡ length growth.old.more + 8) }
    ensures tail { growth.new.tail ≡ growth.old.tail }
{
    let place = growth.next_place();
    growth.put([4, node.id.0, node.least.0, node.made as u64, 0, 0, 0, 0])?;
    growth.fill(nodes, place)?;
    Ok(place)
}

/// Puts a link behind the others. The parent's children must end at `children`, and the child's
/// links at `versions`.
///
/// # Errors
///
/// `NoMemory` where there is none for the record.
pub fn push_link(
    growth: &mut Growth,
    link: NewLink,
    children: Tail,
    versions: Tail,
) -> Result<Spot, NoMemory>
    requires places { 8 * growth.old.tail + length growth.old.more < 8 * 2 ^ 32 }
    requires children { IsTail growth.old children }
    requires versions { IsTail growth.old versions }
    ensures pushed { (old more : List Row) (l : Link) → IsGrowth old more growth.old → l.child ≡ link.child → l.entry ≡ link.entry
        → place_from (has_id l.child) 0 (old ++ more) ≡ link.child_at → place_from (is_node l.parent) 0 (old ++ more) ≡ link.parent_at
        → EndsAt (ChildrenOf l.parent) (old ++ more) (word_number children) → EndsAt (VersionsOf l.child) (old ++ more) (word_number versions)
        → OnOk result (IsGrowth old (more ++ LinkRow l ∷ []) growth.new) }
    ensures place { (old more : List Row) → IsGrowth old more growth.old → IfOk result (λ p. p ≡ length (old ++ more)) }
    ensures length { OnOk result (length growth.new.more ≡ length growth.old.more + 8) }
    ensures tail { growth.new.tail ≡ growth.old.tail }
{
    let place = growth.next_place();
    growth.put([
        5,
        link.child.0,
        link.child_at.0 as u64,
        link.entry as u64,
        link.parent_at.0 as u64,
        0,
        0,
        0,
    ])?;
    growth.fill(children, place)?;
    growth.fill(versions, place)?;
    Ok(place)
}

// the first word of an edge
#[tactic(auto, unfolding(record_rows::specs::Words::bit))]
fn edge_word(active: bool, made: u32) -> u64
    ensures { result ≡ 6 + bit active * 2 ^ 8 + made * 2 ^ 32 }
{
    let kind = if active { 262 } else { 6 };
    kind + made as u64 * 4294967296
}

// a weight in an edge's words: the affinity, 0 for glue
#[tactic(auto, unfolding(record_rows::specs::Words::strength))]
fn strength(weight: Weight) -> u64
    ensures { result ≡ strength_of weight }
{
    match weight {
        Weight::Affinity(affinity) => affinity as u64,
        Weight::Glue => 0,
    }
}
