//! The nodes of a supervoxel at a prefix.

ghost use Rattle.std.specs.Prelude.{◌≡◌, ◌≤◌, ◌+◌, ℕ, List, length};
ghost use Rattle.op_model.specs.declared.base.Dataset.{Dataset};
ghost use Rattle.op_model.specs.declared.base.Base.{Base};
ghost use Rattle.op_model.specs.declared.entry.Entry.{Entry};
ghost use Rattle.op_model.specs.Chunks.{top};
ghost use Rattle.op_model.specs.Labels.{node, path, root};
ghost use Rattle.op_model.specs.Transcript.{log_at};
ghost use Rattle.record_rows.specs.Readings.{HoldsId, HoldsSupervoxel, ParentImage};
ghost use Rattle.node_reader.specs.Readable.{IsBelow};

use node_ids::NodeId;
use op_model::PathIds;
use parent_rows::parent_at;
use pcg_base::Words;
use record_rows::grid_of;
use row_words::{Spot, fixed, id_of};

/// The root of a supervoxel as the entries below the prefix left it. The prefix is a number of
/// entries, from 1 to how many the log has.
pub fn root_at<W: Words>(w: &mut W, sv: Spot, prefix: u32) -> NodeId
    requires supervoxel { (d : Dataset) × (b : Base) × (log : List Entry) × (v : ℕ) × ParentImage d b log (W.words w.old) × HoldsSupervoxel d b log sv v × (1 ≤ prefix) × (prefix ≤ length log) }
    ensures same { w.new ≡ w.old }
    ensures is { (d : Dataset) (b : Base) (log : List Entry) (v : ℕ) → ParentImage d b log (W.words w.old) → HoldsSupervoxel d b log sv v → prefix ≤ length log → result ≡ root d b (log_at d b log prefix) v }
{
    let top = top_of(w);
    let mut spot = sv;
    let mut layer = 2;
    while layer <= top {
        spot = node_above(w, spot, prefix);
        layer += 1;
    }
    NodeId(id_of(w, spot))
}

/// The nodes of a supervoxel, from layer 2 to its root, as the entries below the prefix left them.
/// The prefix is a number of entries, from 1 to how many the log has.
pub fn path_at<W: Words>(w: &mut W, sv: Spot, prefix: u32) -> PathIds
    requires supervoxel { (d : Dataset) × (b : Base) × (log : List Entry) × (v : ℕ) × ParentImage d b log (W.words w.old) × HoldsSupervoxel d b log sv v × (1 ≤ prefix) × (prefix ≤ length log) }
    ensures same { w.new ≡ w.old }
    ensures is { (d : Dataset) (b : Base) (log : List Entry) (v : ℕ) → ParentImage d b log (W.words w.old) → HoldsSupervoxel d b log sv v → prefix ≤ length log → result ≡ path d b (log_at d b log prefix) v }
{
    let count = top_of(w) - 1;
    let mut nodes = [NodeId(0); 17];
    let mut spot = sv;
    for place in 0..count {
        spot = node_above(w, spot, prefix);
        nodes[place as usize] = NodeId(id_of(w, spot));
    }
    PathIds { count, nodes }
}

/// The top layer, from 2 to 18.
pub fn top_of<W: Words>(w: &mut W) -> u8
    requires image { (d : Dataset) × (b : Base) × (log : List Entry) × ParentImage d b log (W.words w.old) }
    ensures same { w.new ≡ w.old }
    ensures is { (d : Dataset) (b : Base) (log : List Entry) → ParentImage d b log (W.words w.old) → result ≡ top d }
    ensures range { (2 ≤ result) × (result ≤ 18) }
{
    let word = fixed(w, Spot(0), 1);
    grid_of(word).top_layer()
}

/// The record of the node one layer above a supervoxel or one of its nodes, as the entries below the
/// prefix left it. The prefix is a number of entries, from 1 to how many the log has, and the layer
/// above is at most the top one.
pub fn node_above<W: Words>(w: &mut W, spot: Spot, prefix: u32) -> Spot
    requires below { (d : Dataset) × (b : Base) × (log : List Entry) × (layer : ℕ) × (v : ℕ) × IsBelow d b log (W.words w.old) prefix layer v spot }
    ensures same { w.new ≡ w.old }
    ensures is { (d : Dataset) (b : Base) (log : List Entry) (layer v : ℕ) → IsBelow d b log (W.words w.old) prefix layer v spot → HoldsId d b log result (node d b (log_at d b log prefix) layer v) }
{
    parent_at(w, spot, prefix).unwrap()
}
