//! How many records an entry needs, and how many are left.

ghost use Rattle.std.specs.Prelude.{◌≡◌, ◌+◌, ◌^◌, ◌≤◌, ◌∷◌, [], List, length, IfOk};
ghost use Rattle.op_model.specs.declared.base.Dataset.{Dataset};
ghost use Rattle.op_model.specs.declared.base.Base.{Base};
ghost use Rattle.op_model.specs.declared.entry.Entry.{Entry};
ghost use Rattle.op_model.specs.declared.entry.Asked.TheVariants as asked;
ghost use Rattle.op_model.specs.Records.{items, spare, unknown_count};
ghost use Rattle.record_rows.specs.Readings.{Image};

use edge_rows::find_edge;
use entry_layers::EntryLayers;
use op_model::{Changed, Dataset, Edit};
use pcg_base::{NoMemory, Words};

// 1 if no edge joins the pair of a change, else 0
fn count_unknown<W: Words>(w: &mut W, change: &Changed) -> usize
    requires image { (d : Dataset) × (b : Base) × (log : List Entry) × Image d b log (W.words w.old) }
    ensures same { w.new ≡ w.old }
    ensures few { result ≤ 1 }
    ensures is { (d : Dataset) (b : Base) (log : List Entry) → Image d b log (W.words w.old) → result ≡ unknown_count d b log (change.now ∷ []) }
{
    let Some(_edge) = find_edge(w, change.pair) else {
        return 1;
    };
    0
}

/// How many of the changed pairs no edge joins yet.
pub(crate) fn unknown_count<W: Words>(w: &mut W, changed: &[Changed]) -> usize
    requires image { (d : Dataset) × (b : Base) × (log : List Entry) × Image d b log (W.words w.old) }
    ensures same { w.new ≡ w.old }
    ensures is { (d : Dataset) (b : Base) (log : List Entry) → Image d b log (W.words w.old) → result ≡ unknown_count d b log changed.now }
{
    let mut count = 0;
    for change in changed {
        count += count_unknown(w, change);
    }
    count
}

/// How many ids of its request an entry keeps.
#[tactic(auto, unfolding(op_model::specs::Records::items))]
pub(crate) fn item_count(edit: &Edit) -> u128
    ensures is { result ≡ items (asked.Edit edit.now) }
    ensures few { result ≤ 2 ^ 65 }
{
    match edit {
        Edit::Merge { pairs } => 2 * pairs.list.len() as u128,
        Edit::Split { sources, sinks } => sources.list.len() as u128 + sinks.list.len() as u128,
        Edit::Undo { .. } => 0,
        Edit::Redo { .. } => 0,
    }
}

/// How many records an entry needs: its own, and one for each id of its request, each changed pair,
/// each pair that no edge joins yet, each node that it makes and each child of those nodes.
///
/// # Errors
///
/// `NoMemory` where 64 bits don't hold the sum, so that no memory holds the lists.
pub(crate) fn records_of(
    edit: &Edit,
    changed: &[Changed],
    unknown: usize,
    layers: &EntryLayers,
) -> Result<u64, NoMemory>
    ensures { IfOk result (λ n. n ≡ 1 + items (asked.Edit edit.now) + length changed.now + unknown + length layers.now.nodes.items + length layers.now.links.items) }
{
    let items = item_count(edit);
    let nodes = layers.nodes.len();
    let links = layers.links.len();
    let sum = 1 + items + changed.len() as u128 + unknown as u128 + nodes as u128 + links as u128;
    let Ok(need) = u64::try_from(sum) else {
        return Err(NoMemory);
    };
    Ok(need)
}

/// How many records are left.
pub(crate) fn spare_of<W: Words>(w: &W, dataset: &Dataset) -> u64
    requires image { (b : Base) × (log : List Entry) × Image dataset.now b log (W.words w.now) }
    ensures { (b : Base) (log : List Entry) → Image dataset.now b log (W.words w.now) → result ≡ spare dataset.now b log }
{
    dataset.capacity as u64 - w.len() / 8
}
