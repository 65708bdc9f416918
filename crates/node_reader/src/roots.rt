//! The roots of pairs that an entry changed, at a prefix.

ghost use Rattle.std.specs.Prelude.{◌≡◌, [], ◌∷◌, List, map, OnOk, IfOk, IsTrue};
ghost use Rattle.std.specs.List.{AllByRecursion};
ghost use Rattle.op_model.specs.declared.base.Dataset.{Dataset};
ghost use Rattle.op_model.specs.declared.base.Base.{Base};
ghost use Rattle.op_model.specs.declared.entry.Entry.{Entry};
ghost use Rattle.graph_model.specs.Lists.{has};
ghost use Rattle.op_model.specs.Labels.{root};
ghost use Rattle.op_model.specs.Operations.{ascending, ends, put_id};
ghost use Rattle.op_model.specs.Transcript.{log_at};
ghost use Rattle.record_rows.specs.Readings.{HoldsSupervoxel, ParentImage};
ghost use Rattle.node_reader.specs.Readable.{AreKnown, IsReadable};

use crate::nodes::root_at;
use crate::ordering::put;
use node_ids::NodeId;
use op_model::{Changed, ChangedPairs, Ids};
use pcg_base::{NoMemory, Words};
use row_words::{Spot, supervoxel};
use std::alloc::Global;

/// The roots of the ends of changed pairs, as the entries below the prefix left them, ascending.
pub fn roots_of<W: Words>(
    alloc: Global,
    w: &mut W,
    changed: &ChangedPairs,
    prefix: u32,
) -> Result<Ids, NoMemory>
    requires readable { (d : Dataset) × (b : Base) × (log : List Entry) × IsReadable d b log (W.words w.old) prefix × AreKnown b (ends changed.now) }
    ensures same { w.new ≡ w.old }
    ensures is { (d : Dataset) (b : Base) (log : List Entry) → IsReadable d b log (W.words w.old) prefix → AreKnown b (ends changed.now) → IfOk result (λ ids. ids ≡ ascending (map (root d b (log_at d b log prefix)) (ends changed.now))) }
{
    let mut list = Vec::new(alloc);
    let pairs = changed.list.as_slice();
    for done in 0..pairs.len() {
        let last = pairs.len() - done - 1;
        add_ends(w, &mut list, pairs[last], prefix)?;
    }
    Ok(Ids { list })
}

/// Puts the roots of both ends of a pair to those of others, that of the greater end first.
fn add_ends<W: Words>(
    w: &mut W,
    list: &mut Vec<NodeId>,
    changed: Changed,
    prefix: u32,
) -> Result<(), NoMemory>
    requires readable { (d : Dataset) × (b : Base) × (log : List Entry) × IsReadable d b log (W.words w.old) prefix × AreKnown b (changed.pair.a ∷ changed.pair.b ∷ []) }
    ensures same { w.new ≡ w.old }
    ensures is { (d : Dataset) (b : Base) (log : List Entry) → IsReadable d b log (W.words w.old) prefix → AreKnown b (changed.pair.a ∷ changed.pair.b ∷ []) → OnOk result (list.new.items ≡ put_id (root d b (log_at d b log prefix) changed.pair.a) (put_id (root d b (log_at d b log prefix) changed.pair.b) list.old.items)) }
{
    let greater = root_of(w, changed.pair.b, prefix);
    let lesser = root_of(w, changed.pair.a, prefix);
    put(list, greater)?;
    put(list, lesser)?;
    Ok(())
}

/// The root of a supervoxel of the base, as the entries below the prefix left it.
pub fn root_of<W: Words>(w: &mut W, sv: NodeId, prefix: u32) -> NodeId
    requires readable { (d : Dataset) × (b : Base) × (log : List Entry) × IsReadable d b log (W.words w.old) prefix × IsTrue (has b.supervoxels sv) }
    ensures same { w.new ≡ w.old }
    ensures is { (d : Dataset) (b : Base) (log : List Entry) → IsReadable d b log (W.words w.old) prefix → IsTrue (has b.supervoxels sv) → result ≡ root d b (log_at d b log prefix) sv }
{
    let spot = supervoxel_of(w, sv);
    root_at(w, spot, prefix)
}

/// The record of a supervoxel of the base.
pub fn supervoxel_of<W: Words>(w: &mut W, sv: NodeId) -> Spot
    requires known { (d : Dataset) × (b : Base) × (log : List Entry) × ParentImage d b log (W.words w.old) × IsTrue (has b.supervoxels sv) }
    ensures same { w.new ≡ w.old }
    ensures is { (d : Dataset) (b : Base) (log : List Entry) → ParentImage d b log (W.words w.old) → IsTrue (has b.supervoxels sv) → HoldsSupervoxel d b log result sv }
{
    supervoxel(w, sv.0).unwrap()
}
