//! Supervoxels and their roots.

ghost use Rattle.std.specs.Prelude.{◌≡◌, true};
ghost use Rattle.graph_model.specs.Lists.{has};
ghost use Rattle.op_model.specs.Labels.{root};
ghost use Rattle.record_rows.specs.Readings.{ForEachLog, ForSomeLog, ParentImage};
ghost use Rattle.log_rows.specs.Entries.{HasLog};

use log_rows::length;
use node_ids::NodeId;
use node_reader::root_at;
use pcg_base::Words;
use row_words::supervoxel;

/// Whether the base has a supervoxel of this id.
pub fn is_known<W: Words>(w: &mut W, sv: NodeId) -> bool
    requires image { HasLog ParentImage (W.words w.old) }
    ensures same { w.new ≡ w.old }
    ensures is { ForEachLog ParentImage (W.words w.old) (λ d b log. result ≡ has b.supervoxels sv) }
{
    supervoxel(w, sv.0).is_some()
}

/// The root of a supervoxel as all entries left it. The base must have the supervoxel.
pub fn root_now<W: Words>(w: &mut W, sv: NodeId) -> NodeId
    requires known { ForSomeLog ParentImage (W.words w.old) (λ d b log. has b.supervoxels sv ≡ true) }
    ensures same { w.new ≡ w.old }
    ensures is { ForEachLog ParentImage (W.words w.old) (λ d b log. has b.supervoxels sv ≡ true → result ≡ root d b log sv) }
{
    let count = length(w);
    let spot = supervoxel(w, sv.0).unwrap();
    root_at(w, spot, count)
}
