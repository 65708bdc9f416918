//! What a merge is refused for, before room, ids and time count.

ghost use Rattle.std.specs.Prelude.{◌≡◌, List, true, ◌==◌};
ghost use Rattle.op_model.specs.declared.request.Edit.{Edit as TheEdit};
ghost use Rattle.graph_model.specs.Lists.{has};
ghost use Rattle.op_model.specs.Edges.{named_ends};
ghost use Rattle.op_model.specs.Labels.{root};
ghost use Rattle.op_model.specs.Refusals.{refuse_early};
ghost use Rattle.record_rows.specs.Readings.{ForEachLog, ForSomeLog, ParentImage};
ghost use Rattle.log_rows.specs.Entries.{HasLog};
ghost use Rattle.root_masks.specs.Plans.{AreKnown};
ghost use Rattle.edit_merge.specs.Plans.{first_joined, first_unknown};

use node_ids::NodeId;
use op_model::{AskedPair, Refusal};
use pcg_base::Words;
use root_masks::{is_known, root_now};

/// Why a merge of these pairs is refused, before room, ids and time count; `None` if it isn't.
pub fn refusal_of<W: Words>(w: &mut W, pairs: &[AskedPair]) -> Option<Refusal>
    requires image { HasLog ParentImage (W.words w.old) }
    ensures same { w.new ≡ w.old }
    ensures is { ForEachLog ParentImage (W.words w.old) (λ d b log. result ≡ refuse_early d b log (TheEdit.Merge pairs.now)) }
{
    if let Some(id) = unknown_end(w, pairs) {
        return Some(Refusal::NoSuchSupervoxel { id });
    }
    if pairs.len() == 0 {
        return Some(Refusal::NoPairs);
    }
    if pairs.len() > 64 {
        return Some(Refusal::TooManyPairs {
            count: pairs.len() as u64,
        });
    }
    let pair = joined_pair(w, pairs)?;
    let root = root_now(w, pair.a);
    Some(Refusal::SameRoot { root })
}

/// The first end that is no supervoxel of the base, pair by pair and `a` before `b`.
fn unknown_end<W: Words>(w: &mut W, pairs: &[AskedPair]) -> Option<NodeId>
    requires image { HasLog ParentImage (W.words w.old) }
    ensures same { w.new ≡ w.old }
    ensures is { ForEachLog ParentImage (W.words w.old) (λ d b log. result ≡ first_unknown b (named_ends pairs.now)) }
{
    for done in 0..pairs.len() {
        let pair = pairs[done];
        if !is_known(w, pair.a) {
            return Some(pair.a);
        }
        if !is_known(w, pair.b) {
            return Some(pair.b);
        }
    }
    None
}

/// The first pair whose ends lie in one root. All ends must be supervoxels of the base.
fn joined_pair<W: Words>(w: &mut W, pairs: &[AskedPair]) -> Option<AskedPair>
    requires known { ForSomeLog ParentImage (W.words w.old) (λ d b log. AreKnown b (named_ends pairs.now)) }
    ensures same { w.new ≡ w.old }
    ensures is { ForEachLog ParentImage (W.words w.old) (λ d b log. AreKnown b (named_ends pairs.now) → result ≡ first_joined d b log pairs.now) }
{
    for done in 0..pairs.len() {
        let pair = pairs[done];
        if is_joined(w, pair.a, pair.b) {
            return Some(pair);
        }
    }
    None
}

/// Whether two supervoxels lie in one root.
fn is_joined<W: Words>(w: &mut W, a: NodeId, b: NodeId) -> bool
    requires known { ForSomeLog ParentImage (W.words w.old) (λ d base log. (has base.supervoxels a ≡ true) × (has base.supervoxels b ≡ true)) }
    ensures same { w.new ≡ w.old }
    ensures is { ForEachLog ParentImage (W.words w.old) (λ d base log. has base.supervoxels a ≡ true → has base.supervoxels b ≡ true → result ≡ (root d base log a == root d base log b)) }
{
    let first = root_now(w, a);
    first == root_now(w, b)
}
