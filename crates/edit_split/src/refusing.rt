//! What a split is refused for, before its component is looked at.

ghost use Rattle.std.specs.Prelude.{◌≡◌, ◌<◌, [], ◌∷◌, List, length, get_or, true};
ghost use Rattle.op_model.specs.declared.request.Edit.{Edit as TheEdit};
ghost use Rattle.op_model.specs.declared.reply.Refusal.TheVariants.{BothSides};
ghost use Rattle.graph_model.specs.Lists.{has};
ghost use Rattle.op_model.specs.Labels.{root};
ghost use Rattle.op_model.specs.Refusals.{first_of, refuse_early, refuse_first, refuse_unknown};
ghost use Rattle.record_rows.specs.Readings.{ForEachLog, ForSomeLog, ParentImage};
ghost use Rattle.log_rows.specs.Entries.{HasLog};
ghost use Rattle.root_masks.specs.Plans.{AreKnown};
ghost use Rattle.edit_split.specs.Marks.{refuse_lists, refuse_other};

use node_ids::NodeId;
use op_model::Refusal;
use op_model::pairs::has_id;
use pcg_base::Words;
use root_masks::{is_known, root_now};

/// Why a split between these marks is refused, before its component is looked at; `None` if it
/// isn't.
pub fn refusal_of<W: Words>(w: &mut W, sources: &[NodeId], sinks: &[NodeId]) -> Option<Refusal>
    requires image { HasLog ParentImage (W.words w.old) }
    ensures same { w.new ≡ w.old }
    ensures is { ForEachLog ParentImage (W.words w.old) (λ d b log. result ≡ refuse_early d b log (TheEdit.Split sources.now sinks.now)) }
{
    if let Some(refusal) = unknown_in(w, sources) {
        return Some(refusal);
    }
    if let Some(refusal) = unknown_in(w, sinks) {
        return Some(refusal);
    }
    if let Some(refusal) = refusal_of_lists(sources, sinks) {
        return Some(refusal);
    }
    refusal_of_roots(w, sources, sinks)
}

/// The refusal of the first mark that is no supervoxel of the base.
fn unknown_in<W: Words>(w: &mut W, marks: &[NodeId]) -> Option<Refusal>
    requires image { HasLog ParentImage (W.words w.old) }
    ensures same { w.new ≡ w.old }
    ensures is { ForEachLog ParentImage (W.words w.old) (λ d b log. result ≡ refuse_unknown d b marks.now) }
{
    for at in 0..marks.len() {
        let id = marks[at];
        if !is_known(w, id) {
            return Some(Refusal::NoSuchSupervoxel { id });
        }
    }
    None
}

/// The refusal of the lists of marks, whatever supervoxels they name.
fn refusal_of_lists(sources: &[NodeId], sinks: &[NodeId]) -> Option<Refusal>
    ensures { result ≡ refuse_lists sources.now sinks.now }
{
    if sources.len() == 0 {
        return Some(Refusal::NoMarks);
    }
    if sinks.len() == 0 {
        return Some(Refusal::NoMarks);
    }
    if sources.len() > 64 {
        return Some(Refusal::TooManyMarks {
            count: sources.len() as u64,
        });
    }
    if sinks.len() > 64 {
        return Some(Refusal::TooManyMarks {
            count: sinks.len() as u64,
        });
    }
    on_both_sides(sources, sinks)
}

/// The refusal of the first source that is a sink too.
fn on_both_sides(sources: &[NodeId], sinks: &[NodeId]) -> Option<Refusal>
    ensures { result ≡ refuse_first BothSides (λ v. has sinks.now v) sources.now }
{
    for at in 0..sources.len() {
        let id = sources[at];
        if has_id(sinks, id) {
            return Some(Refusal::BothSides { id });
        }
    }
    None
}

/// The refusal of the first mark that lies in another root than the first source. All marks must be
/// supervoxels of the base, with a source among them.
fn refusal_of_roots<W: Words>(w: &mut W, sources: &[NodeId], sinks: &[NodeId]) -> Option<Refusal>
    requires known { ForSomeLog ParentImage (W.words w.old) (λ d b log. AreKnown b sources.now × AreKnown b sinks.now) }
    requires some { 0 < length sources.now }
    ensures same { w.new ≡ w.old }
    ensures is { ForEachLog ParentImage (W.words w.old) (λ d b log. AreKnown b sources.now → AreKnown b sinks.now → result ≡ first_of (refuse_other d b log (root d b log (get_or sources.now 0 0)) sources.now ∷ refuse_other d b log (root d b log (get_or sources.now 0 0)) sinks.now ∷ [])) }
{
    let source = sources[0];
    let first = root_now(w, source);
    if let Some(refusal) = other_root(w, first, sources) {
        return Some(refusal);
    }
    other_root(w, first, sinks)
}

/// The refusal of the first of these marks that doesn't lie in this root. All of them must be
/// supervoxels of the base.
fn other_root<W: Words>(w: &mut W, first: NodeId, marks: &[NodeId]) -> Option<Refusal>
    requires known { ForSomeLog ParentImage (W.words w.old) (λ d b log. AreKnown b marks.now) }
    ensures same { w.new ≡ w.old }
    ensures is { ForEachLog ParentImage (W.words w.old) (λ d b log. AreKnown b marks.now → result ≡ refuse_other d b log first marks.now) }
{
    for at in 0..marks.len() {
        let sv = marks[at];
        let other = root_now(w, sv);
        if other != first {
            return Some(Refusal::DifferentRoots { first, other });
        }
    }
    None
}
