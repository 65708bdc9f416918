//! The greatest number that a chunk has given so far.

ghost use Rattle.std.specs.Prelude.{◌≡◌, ◌-◌, ◌<◌, ◌≤◌, ◌^◌, ℕ, List};
ghost use Rattle.op_model.specs.declared.base.Dataset.{Dataset};
ghost use Rattle.op_model.specs.declared.base.Base.{Base};
ghost use Rattle.op_model.specs.declared.entry.Entry.{Entry};
ghost use Rattle.op_model.specs.Labels.{used};
ghost use Rattle.record_rows.specs.Readings.{ParentImage};
ghost use Rattle.made_nodes.specs.Numbers.{IsHeld};

use node_ids::NodeId;
use parent_rows::{chunk, last_node, node};
use pcg_base::Words;

/// The number of a node in its chunk.
pub fn number_of(node: NodeId, chunk: NodeId) -> u64
    requires { chunk ≤ node }
    ensures { result ≡ node - chunk }
{
    node.0 - chunk.0
}

/// The greatest number that the nodes of a chunk have, which is that of the chunk's last node. The
/// chunk is one of layer 2 or above that holds a supervoxel; its id has segment 0.
pub fn used<W: Words>(w: &mut W, id: NodeId) -> u64
    requires chunk { (d : Dataset) × (b : Base) × (log : List Entry) × (layer : ℕ) × ParentImage d b log (W.words w.old) × IsHeld d b layer id }
    ensures same { w.new ≡ w.old }
    ensures is { (d : Dataset) (b : Base) (log : List Entry) (layer : ℕ) → ParentImage d b log (W.words w.old) → IsHeld d b layer id → result ≡ used d b log layer id }
    ensures small { result < 2 ^ 56 }
{
    let Some(spot) = chunk(w, id) else {
        return 0;
    };
    let Some(last) = last_node(w, spot) else {
        return 0;
    };
    number_of(node(w, last).id, id)
}
