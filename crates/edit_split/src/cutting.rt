//! The component of a split's marks, and its least cut.

ghost use Rattle.std.specs.Prelude.{◌≡◌, ◌≤◌, ℕ, length, get_or, true, None, IfOk, MatchResult};
ghost use Rattle.op_model.specs.declared.request.Edit.{Edit as TheEdit};
ghost use Rattle.graph_model.specs.Lists.{has};
ghost use Rattle.op_model.specs.Cuts.{IsShown, part};
ghost use Rattle.op_model.specs.Labels.{edges};
ghost use Rattle.op_model.specs.Refusals.{refuse_cut, refuse_early};
ghost use Rattle.op_model.specs.Valid.{IsAscending};
ghost use Rattle.record_rows.specs.Readings.{ForEachLog, ForSomeLog, Image, ParentImage};
ghost use Rattle.component_reader.specs.Among.{IsLarge, active_among};
ghost use Rattle.root_masks.specs.Plans.{AreKnown};
ghost use Rattle.edit_split.specs.Components.{AreRootLeaves, IsTooLarge, IsUncut};

use component_reader::{AmongError, edges_among};
use log_rows::length;
use node_ids::NodeId;
use node_reader::leaves;
use op_model::{EdgeList, Ids, Refusal, Shown};
use parent_rows::find;
use pcg_base::{NoMemory, Words};
use root_masks::root_now;
use split_net::shown;
use std::alloc::Global;

/// The most active edges that a split's component may have.
const MOST_EDGES: usize = 500000;

/// The least cut of a split between these marks with a flow that shows it, or why its component has
/// none. The split mustn't be refused for its marks.
pub fn cut_of<W: Words>(
    alloc: Global,
    w: &mut W,
    sources: &[NodeId],
    sinks: &[NodeId],
) -> Result<Shown, Refusal>
    requires early { ForSomeLog Image (W.words w.old) (λ d b log. refuse_early d b log (TheEdit.Split sources.now sinks.now) ≡ None) }
    ensures same { w.new ≡ w.old }
    ensures is { ForEachLog Image (W.words w.old) (λ d b log. refuse_early d b log (TheEdit.Split sources.now sinks.now) ≡ None → MatchResult result (λ s. (refuse_cut d b log (TheEdit.Split sources.now sinks.now) ≡ None) × IsShown (part d b log sources.now) sources.now sinks.now s) (IsUncut d b log (TheEdit.Split sources.now sinks.now))) }
{
    let source = sources[0];
    let Ok(all) = leaves_with(alloc, w, source) else {
        return Err(Refusal::NoMemory);
    };
    cut_among(alloc, w, all.list.as_slice(), sources, sinks)
}

/// The least cut of a split between these marks, whose root has these leaves, or why there is none.
fn cut_among<W: Words>(
    alloc: Global,
    w: &mut W,
    all: &[NodeId],
    sources: &[NodeId],
    sinks: &[NodeId],
) -> Result<Shown, Refusal>
    requires early { ForSomeLog Image (W.words w.old) (λ d b log. (refuse_early d b log (TheEdit.Split sources.now sinks.now) ≡ None) × AreRootLeaves d b log (get_or sources.now 0 0) all.now) }
    ensures same { w.new ≡ w.old }
    ensures is { ForEachLog Image (W.words w.old) (λ d b log. refuse_early d b log (TheEdit.Split sources.now sinks.now) ≡ None → AreRootLeaves d b log (get_or sources.now 0 0) all.now → MatchResult result (λ s. (refuse_cut d b log (TheEdit.Split sources.now sinks.now) ≡ None) × IsShown (part d b log sources.now) sources.now sinks.now s) (IsUncut d b log (TheEdit.Split sources.now sinks.now))) }
{
    match part_of(alloc, w, all) {
        Ok(part) => shown(alloc, all, part.list.as_slice(), sources, sinks),
        Err(refusal) => Err(refusal),
    }
}

/// The leaves of the root of a supervoxel of the base, ascending.
fn leaves_with<W: Words>(alloc: Global, w: &mut W, sv: NodeId) -> Result<Ids, NoMemory>
    requires known { ForSomeLog ParentImage (W.words w.old) (λ d b log. has b.supervoxels sv ≡ true) }
    ensures same { w.new ≡ w.old }
    ensures is { ForEachLog ParentImage (W.words w.old) (λ d b log. has b.supervoxels sv ≡ true → IfOk result (AreRootLeaves d b log sv)) }
{
    let root = root_now(w, sv);
    let spot = find(w, root).unwrap();
    leaves(alloc, w, spot)
}

/// The active edges among leaves, at the whole log, or why they are too many.
fn part_of<W: Words>(alloc: Global, w: &mut W, all: &[NodeId]) -> Result<EdgeList, Refusal>
    requires known { ForSomeLog Image (W.words w.old) (λ d b log. AreKnown b all.now) }
    requires ascending { IsAscending all.now }
    ensures same { w.new ≡ w.old }
    ensures is { ForEachLog Image (W.words w.old) (λ d b log. AreKnown b all.now → MatchResult result (λ es. (es ≡ active_among (edges d b log) all.now) × (length es ≤ 500000)) (IsTooLarge (length (active_among (edges d b log) all.now)))) }
{
    let count = length(w);
    match edges_among(alloc, w, all, count, MOST_EDGES) {
        Ok(part) => Ok(part),
        Err(error) => Err(refusal_for(error)),
    }
}

/// The refusal of a component that isn't given.
fn refusal_for(error: AmongError) -> Refusal
    ensures { (count : ℕ) → IsLarge count 500000 error → IsTooLarge count result }
{
    match error {
        AmongError::TooMany { edges } => Refusal::TooLarge { edges },
        AmongError::NoMemory => Refusal::NoMemory,
    }
}
