//! The record of a child that stands.

ghost use Rattle.std.specs.Prelude.{◌≡◌, ◌≤◌, ◌<◌, ◌-◌, ℕ, List, None, true, length, IsTrue, IfSome};
ghost use Rattle.op_model.specs.declared.base.Dataset.{Dataset};
ghost use Rattle.op_model.specs.declared.base.Base.{Base};
ghost use Rattle.op_model.specs.declared.entry.Entry.{Entry};
ghost use Rattle.op_model.specs.Chunks.{top};
ghost use Rattle.node_ids.specs.Ids.{parts_of};
ghost use Rattle.graph_model.specs.Lists.{has, head_or};
ghost use Rattle.record_rows.specs.Rows.{Node};
ghost use Rattle.record_rows.specs.Chains.{has_id, retires};
ghost use Rattle.record_rows.specs.LogRows.{rows_of};
ghost use Rattle.record_rows.specs.Readings.{HoldsId, HoldsNode, ParentImage, first_place};
ghost use Rattle.record_rows.specs.Versions.{child_at};
ghost use Rattle.record_rows.specs.Words.{place_from};

use node_ids::{Layout, NodeId};
use node_reader::node_above;
use parent_rows::{find, node};
use pcg_base::Words;
use record_rows::layout_of;
use row_words::{Spot, fixed, kind_of, pointer};

// the record of a supervoxel
fn lowest<W: Words>(w: &mut W, sv: NodeId) -> Spot
    requires known { (d : Dataset) × (b : Base) × (log : List Entry) × ParentImage d b log (W.words w.old) × IsTrue (has b.supervoxels sv) }
    ensures same { w.new ≡ w.old }
    ensures is { (d : Dataset) (b : Base) (log : List Entry) → ParentImage d b log (W.words w.old) → IsTrue (has b.supervoxels sv) → HoldsId d b log result sv }
    ensures first { (d : Dataset) (b : Base) (log : List Entry) → ParentImage d b log (W.words w.old) → IsTrue (has b.supervoxels sv) → place_from (has_id sv) 0 (rows_of d b log) ≡ result }
{
    find(w, sv).unwrap()
}

/// The record of what stands below a supervoxel's node of a layer: of its node one layer lower, or of
/// the supervoxel where the layer is 2. The prefix is how many entries the log has. The
/// guess is a place where the record may stand: if the words tell that it does, it isn't looked for.
pub fn record_below<W: Words>(w: &mut W, prefix: u32, layer: u8, sv: NodeId, guess: Spot) -> Spot
    requires known { (d : Dataset) × (b : Base) × (log : List Entry) × ParentImage d b log (W.words w.old) × IsTrue (has b.supervoxels sv) × (prefix ≡ length log) × (2 ≤ layer) × (layer ≤ top d) }
    ensures same { w.new ≡ w.old }
    ensures is { (d : Dataset) (b : Base) (log : List Entry) → ParentImage d b log (W.words w.old) → IsTrue (has b.supervoxels sv) → prefix ≡ length log → layer ≤ top d → HoldsId d b log result (child_at d b log layer sv) }
    ensures first { (d : Dataset) (b : Base) (log : List Entry) → ParentImage d b log (W.words w.old) → IsTrue (has b.supervoxels sv) → layer ≡ 2 → place_from (has_id sv) 0 (rows_of d b log) ≡ result }
{
    let Some(spot) = tested(w, layer, sv, guess) else {
        return climbed(w, prefix, layer, sv);
    };
    spot
}

// the same by climbing from the supervoxel
fn climbed<W: Words>(w: &mut W, prefix: u32, layer: u8, sv: NodeId) -> Spot
    requires known { (d : Dataset) × (b : Base) × (log : List Entry) × ParentImage d b log (W.words w.old) × IsTrue (has b.supervoxels sv) × (prefix ≡ length log) × (2 ≤ layer) × (layer ≤ top d) }
    ensures same { w.new ≡ w.old }
    ensures is { (d : Dataset) (b : Base) (log : List Entry) → ParentImage d b log (W.words w.old) → IsTrue (has b.supervoxels sv) → prefix ≡ length log → layer ≤ top d → HoldsId d b log result (child_at d b log layer sv) }
    ensures first { (d : Dataset) (b : Base) (log : List Entry) → ParentImage d b log (W.words w.old) → IsTrue (has b.supervoxels sv) → layer ≡ 2 → place_from (has_id sv) 0 (rows_of d b log) ≡ result }
{
    let mut spot = lowest(w, sv);
    for above in 2..layer {
        spot = node_above(w, spot, prefix);
    }
    spot
}

// the guessed place, if the record there is that of the supervoxel's node one layer lower
fn tested<W: Words>(w: &mut W, layer: u8, sv: NodeId, guess: Spot) -> Option<Spot>
    requires image { (d : Dataset) × (b : Base) × (log : List Entry) × ParentImage d b log (W.words w.old) }
    ensures same { w.new ≡ w.old }
    ensures is { (d : Dataset) (b : Base) (log : List Entry) → ParentImage d b log (W.words w.old)
        → IfSome result (λ p. (2 < layer) × HoldsId d b log p (child_at d b log layer sv)) }
{
    if layer <= 2 || guess.0 as u64 >= w.len() / 8 {
        return None;
    }
    if kind_of(w, guess) != 4 {
        return None;
    }
    if is_that(w, layer, sv, guess) {
        Some(guess)
    } else {
        None
    }
}

// whether the node at a place is of the layer below, and not retired, and has this least leaf
fn is_that<W: Words>(w: &mut W, layer: u8, sv: NodeId, spot: Spot) -> bool
    requires node { (d : Dataset) × (b : Base) × (log : List Entry) × (n : Node)
        × ParentImage d b log (W.words w.old) × HoldsNode d b log spot n }
    requires layer { 2 < layer }
    ensures same { w.new ≡ w.old }
    ensures is { (d : Dataset) (b : Base) (log : List Entry) (n : Node) → ParentImage d b log (W.words w.old)
        → HoldsNode d b log spot n → result ≡ true → (head_or 0 n.leaves ≡ sv)
        × ((parts_of d.layout n.id).layer ≡ layer - 1) × (first_place (retires n) (rows_of d b log) ≡ None) }
{
    let row = node(w, spot);
    let ids = layout(w);
    if row.least != sv {
        return false;
    }
    if ids.unpack(row.id).layer != layer - 1 {
        return false;
    }
    stands(w, spot)
}

// whether no entry has retired a node
fn stands<W: Words>(w: &mut W, spot: Spot) -> bool
    requires node { (d : Dataset) × (b : Base) × (log : List Entry) × (n : Node)
        × ParentImage d b log (W.words w.old) × HoldsNode d b log spot n }
    ensures same { w.new ≡ w.old }
    ensures is { (d : Dataset) (b : Base) (log : List Entry) (n : Node) → ParentImage d b log (W.words w.old)
        → HoldsNode d b log spot n → result ≡ true → first_place (retires n) (rows_of d b log) ≡ None }
{
    match pointer(w, spot, 6) {
        Some(_) => false,
        None => true,
    }
}

// the layout that the header states
fn layout<W: Words>(w: &mut W) -> Layout
    requires image { (d : Dataset) × (b : Base) × (log : List Entry) × ParentImage d b log (W.words w.old) }
    ensures same { w.new ≡ w.old }
    ensures is { (d : Dataset) (b : Base) (log : List Entry) → ParentImage d b log (W.words w.old)
        → result ≡ d.layout }
{
    let word = fixed(w, Spot(0), 0);
    layout_of(word)
}
