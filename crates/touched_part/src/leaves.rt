//! The supervoxels of roots.

ghost use Rattle.std.specs.Prelude.{◌≡◌, ℕ, ◌++◌, ◌↔◌, List, IfOk, OnOk, IsTrue};
ghost use Rattle.op_model.specs.declared.base.Dataset.{Dataset};
ghost use Rattle.op_model.specs.declared.base.Base.{Base};
ghost use Rattle.op_model.specs.declared.entry.Entry.{Entry};
ghost use Rattle.graph_model.specs.Lists.{has};
ghost use Rattle.op_model.specs.Valid.{IsAscending};
ghost use Rattle.record_rows.specs.Readings.{ParentImage};
ghost use Rattle.touched_paths.specs.Climbing.{AreTops};
ghost use Rattle.touched_part.specs.Touching.{AreTouched};

use node_ids::NodeId;
use node_reader::leaves;
use pcg_base::{NoMemory, Words};
use row_words::Spot;
use std::alloc::Global;
use touched_paths::ascending_ids;

// puts ids behind the others of a list
fn put_ids(list: &mut Vec<NodeId>, more: &[NodeId]) -> Result<(), NoMemory>
    ensures { OnOk result (list.new.items ≡ list.old.items ++ more.now) }
{
    for place in 0..more.len() {
        let Ok(()) = list.push(more[place]) else {
            return Err(NoMemory);
        };
    }
    Ok(())
}

/// The supervoxels of the roots at some places, as the whole log left them, ascending.
///
/// Each leaf is looked at once; time is n log n in them.
///
/// # Errors
///
/// `NoMemory` where there is none for the lists.
pub fn leaves_of<W: Words>(alloc: Global, w: &mut W, tops: &[Spot]) -> Result<Vec<NodeId>, NoMemory>
    requires tops { (d : Dataset) × (b : Base) × (log : List Entry) × (us : List ℕ) × ParentImage d b log (W.words w.old) × ((u : ℕ) → IsTrue (has us u) → IsTrue (has b.supervoxels u)) × AreTops d b log us tops.now }
    ensures same { w.new ≡ w.old }
    ensures ascending { IfOk result (λ v. IsAscending v.items) }
    ensures are { (d : Dataset) (b : Base) (log : List Entry) (us : List ℕ) → ParentImage d b log (W.words w.old) → ((u : ℕ) → IsTrue (has us u) → IsTrue (has b.supervoxels u)) → AreTops d b log us tops.now → IfOk result (λ v. AreTouched d b log us v.items) }
{
    let mut list = Vec::new(alloc);
    for place in 0..tops.len() {
        let own = leaves(alloc, w, tops[place])?;
        put_ids(&mut list, own.list.as_slice())?;
    }
    Ok(ascending_ids(list))
}
