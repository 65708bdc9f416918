//! One step of the walk back from a root: from an entry to the roots that it linked to those that
//! were met, and to the entries that made these.

ghost use Rattle.std.specs.Prelude.{◌≡◌, ◌∷◌, [], ◌++◌, ◌+◌, ◌<◌, ℕ, List, Some, true, length, if◌then◌else◌, IfOk, OnOk};
ghost use Rattle.op_model.specs.declared.base.Dataset.{Dataset};
ghost use Rattle.op_model.specs.declared.base.Base.{Base};
ghost use Rattle.op_model.specs.declared.entry.Entry.{Entry};
ghost use Rattle.graph_model.specs.Lists.{has};
ghost use Rattle.op_model.specs.Labels.{root};
ghost use Rattle.op_model.specs.Operations.{ascending, entry_at, put_id};
ghost use Rattle.op_model.specs.Transcript.{log_at};
ghost use Rattle.op_model.specs.Valid.{IsAscending};
ghost use Rattle.record_rows.specs.Readings.{Image};
ghost use Rattle.change_laws.specs.Visits.{linked_by};
ghost use Rattle.change_reader.specs.Walks.{AreUnretired, IsChangedBy, IsInner, IsUnretired, SameRoots, Waits, linked_end};

use crate::makers::maker;
use crate::numbers::{has_root, put_number};
use log_rows::all_changed;
use node_ids::NodeId;
use node_reader::{put, root_of};
use op_model::{Changed, ChangedPairs};
use pcg_base::{NoMemory, Words};
use std::alloc::Global;

/// Goes back behind entry `n`: what it linked to the roots is put to them, and the entries that made
/// these wait beside the others.
///
/// # Errors
///
/// `NoMemory` where a list can't grow.
pub fn go_back<W: Words>(
    alloc: Global,
    w: &mut W,
    waiting: &mut Vec<u32>,
    roots: &mut Vec<NodeId>,
    n: u32,
) -> Result<(), NoMemory>
    requires entry { (d : Dataset) × (b : Base) × (log : List Entry) × Image d b log (W.words w.old) × (n < length log) }
    requires order { IsAscending roots.old.items }
    ensures same { w.new ≡ w.old }
    ensures order { OnOk result (IsAscending roots.new.items) }
    ensures roots { (d : Dataset) (b : Base) (log : List Entry) (e : Entry) → Image d b log (W.words w.old) → entry_at log n ≡ Some e → OnOk result (SameRoots roots.new.items (roots.old.items ++ linked_by d b e (log_at d b log n) roots.old.items)) }
    ensures waits { (d : Dataset) (b : Base) (log : List Entry) → Image d b log (W.words w.old) → n < length log → Waits log n roots.old.items waiting.old.items → OnOk result (Waits log n roots.new.items waiting.new.items) }
{
    let linked = linked_to(alloc, w, roots.as_slice(), n)?;
    add_all(w, waiting, roots, linked.as_slice())?;
    Ok(())
}

/// The roots that entry `n` linked to some, ascending.
fn linked_to<W: Words>(
    alloc: Global,
    w: &mut W,
    roots: &[NodeId],
    n: u32,
) -> Result<Vec<NodeId>, NoMemory>
    requires entry { (d : Dataset) × (b : Base) × (log : List Entry) × Image d b log (W.words w.old) × (n < length log) }
    requires order { IsAscending roots.now }
    ensures same { w.new ≡ w.old }
    ensures is { (d : Dataset) (b : Base) (log : List Entry) (e : Entry) → Image d b log (W.words w.old) → entry_at log n ≡ Some e → IfOk result (λ v. v.items ≡ ascending (linked_by d b e (log_at d b log n) roots.now)) }
{
    if n == 0 {
        return Ok(Vec::new(alloc));
    }
    let changed = all_changed(alloc, w, n)?;
    before_changes(alloc, w, roots, &changed, n)
}

/// The roots before entry `n` of those ends of its changed pairs whose roots after it are among
/// these, ascending.
fn before_changes<W: Words>(
    alloc: Global,
    w: &mut W,
    roots: &[NodeId],
    changed: &ChangedPairs,
    n: u32,
) -> Result<Vec<NodeId>, NoMemory>
    requires entry { (d : Dataset) × (b : Base) × (log : List Entry) × (e : Entry) × IsInner d b log (W.words w.old) n × IsChangedBy d b log (W.words w.old) n e changed.now }
    requires order { IsAscending roots.now }
    ensures same { w.new ≡ w.old }
    ensures is { (d : Dataset) (b : Base) (log : List Entry) (e : Entry) → IsInner d b log (W.words w.old) n → IsChangedBy d b log (W.words w.old) n e changed.now → IfOk result (λ v. v.items ≡ ascending (linked_by d b e (log_at d b log n) roots.now)) }
{
    let mut list = Vec::new(alloc);
    let pairs = changed.list.as_slice();
    for done in 0..pairs.len() {
        let last = pairs.len() - done - 1;
        add_pair(w, roots, &mut list, pairs[last], n)?;
    }
    Ok(list)
}

/// Puts the roots of both ends of a pair before entry `n` to those of others, that of the greater
/// end first, each if the end's root after the entry is among these.
fn add_pair<W: Words>(
    w: &mut W,
    roots: &[NodeId],
    list: &mut Vec<NodeId>,
    changed: Changed,
    n: u32,
) -> Result<(), NoMemory>
    requires ends { (d : Dataset) × (b : Base) × (log : List Entry) × IsInner d b log (W.words w.old) n × (has b.supervoxels changed.pair.a ≡ true) × (has b.supervoxels changed.pair.b ≡ true) }
    requires order { IsAscending roots.now }
    ensures same { w.new ≡ w.old }
    ensures is { (d : Dataset) (b : Base) (log : List Entry) → IsInner d b log (W.words w.old) n → has b.supervoxels changed.pair.a ≡ true → has b.supervoxels changed.pair.b ≡ true → OnOk result (list.new.items ≡ linked_end d b log n roots.now changed.pair.a (linked_end d b log n roots.now changed.pair.b list.old.items)) }
{
    let pair = changed.pair;
    add_end(w, roots, list, pair.b, n)?;
    add_end(w, roots, list, pair.a, n)?;
    Ok(())
}

/// Puts the root of a supervoxel before entry `n` to those of others, if its root after the entry is
/// among these.
fn add_end<W: Words>(
    w: &mut W,
    roots: &[NodeId],
    list: &mut Vec<NodeId>,
    end: NodeId,
    n: u32,
) -> Result<(), NoMemory>
    requires end { (d : Dataset) × (b : Base) × (log : List Entry) × IsInner d b log (W.words w.old) n × (has b.supervoxels end ≡ true) }
    requires order { IsAscending roots.now }
    ensures same { w.new ≡ w.old }
    ensures is { (d : Dataset) (b : Base) (log : List Entry) → IsInner d b log (W.words w.old) n → has b.supervoxels end ≡ true → OnOk result (list.new.items ≡ linked_end d b log n roots.now end list.old.items) }
{
    let after = root_of(w, end, n + 1);
    if !has_root(roots, after) {
        return Ok(());
    }
    let before = root_of(w, end, n);
    put(list, before)?;
    Ok(())
}

/// Puts roots to others, and the entries that made them to those that wait.
fn add_all<W: Words>(
    w: &mut W,
    waiting: &mut Vec<u32>,
    roots: &mut Vec<NodeId>,
    linked: &[NodeId],
) -> Result<(), NoMemory>
    requires made { (d : Dataset) × (b : Base) × (log : List Entry) × (n : ℕ) × AreUnretired d b log (W.words w.old) n linked.now }
    requires order { IsAscending roots.old.items }
    ensures same { w.new ≡ w.old }
    ensures order { OnOk result (IsAscending roots.new.items) }
    ensures roots { OnOk result (SameRoots roots.new.items (roots.old.items ++ linked.now)) }
    ensures waits { (d : Dataset) (b : Base) (log : List Entry) (n : ℕ) → AreUnretired d b log (W.words w.old) n linked.now → Waits log n roots.old.items waiting.old.items → OnOk result (Waits log n roots.new.items waiting.new.items) }
{
    for k in 0..linked.len() {
        add_root(w, waiting, roots, linked[k])?;
    }
    Ok(())
}

/// Puts a root to others, and the entry that made it to those that wait.
fn add_root<W: Words>(
    w: &mut W,
    waiting: &mut Vec<u32>,
    roots: &mut Vec<NodeId>,
    root: NodeId,
) -> Result<(), NoMemory>
    requires made { (d : Dataset) × (b : Base) × (log : List Entry) × (n : ℕ) × IsUnretired d b log (W.words w.old) root n }
    requires order { IsAscending roots.old.items }
    ensures same { w.new ≡ w.old }
    ensures order { OnOk result (IsAscending roots.new.items) }
    ensures roots { OnOk result (SameRoots roots.new.items (root ∷ roots.old.items)) }
    ensures waits { (d : Dataset) (b : Base) (log : List Entry) (n : ℕ) → IsUnretired d b log (W.words w.old) root n → Waits log n roots.old.items waiting.old.items → OnOk result (Waits log n roots.new.items waiting.new.items) }
{
    let made = maker(w, root);
    put_number(waiting, made)?;
    put(roots, root)?;
    Ok(())
}
