//! What stands before an entry, and what it makes.

ghost use Rattle.std.specs.Prelude.{◌≡◌, ◌-◌, ◌<◌, ◌∷◌, true, List, length, map, option_map, IfOk};
ghost use Rattle.std.specs.List.{AllByRecursion};
ghost use Rattle.op_model.specs.declared.base.Dataset.{Dataset};
ghost use Rattle.op_model.specs.declared.base.Base.{Base};
ghost use Rattle.op_model.specs.declared.entry.Entry.{Entry};
ghost use Rattle.op_model.specs.Cuts.{PairsAscend};
ghost use Rattle.op_model.specs.Laws.{IsKnown};
ghost use Rattle.op_model.specs.Operations.{ends};
ghost use Rattle.op_model.specs.Refusals.{last_at};
ghost use Rattle.record_rows.specs.Readings.{Image};
ghost use Rattle.touched_paths.specs.Climbing.{AreTops};
ghost use Rattle.entry_layers.specs.Gathered.{AreEntryLayers, told_spent};
ghost use Rattle.entry_rows.specs.Retiring.{AreOnPaths};
ghost use Rattle.unite_laws.specs.Uniting.{HaveState};
ghost use Rattle.hierarchy_edit.specs.Listed.{IsLogState, is_uniting, refuse_chunk};

use crate::counting::{spare_of, unknown_count};
use entry_layers::{EntryLayers, SpentChunk, entry_layers};
use log_rows::{head, length};
use op_model::{Changed, Dataset, Refusal};
use pcg_base::{NoMemory, Words};
use row_words::Spot;
use std::alloc::Global;
use touched_part::touched_part;
use united_layers::united_layers;

/// The last timestamp of a log, in milliseconds.
pub(crate) fn last_time<W: Words>(w: &mut W) -> u64
    requires image { (d : Dataset) × (b : Base) × (log : List Entry) × Image d b log (W.words w.old) }
    ensures same { w.new ≡ w.old }
    ensures is { (d : Dataset) (b : Base) (log : List Entry) → Image d b log (W.words w.old) → result ≡ last_at log }
{
    let number = length(w);
    let newest = number - 1;
    let last = head(w, newest);
    last.at
}

/// What a log tells before an entry is put behind it.
#[derive(Drop)]
pub struct LogState {
    /// How many entries it has.
    pub number: u32,
    /// Its last timestamp, in milliseconds.
    pub last: u64,
    /// How many records are left.
    pub spare: u64,
    /// How many of the changed pairs no edge joins yet.
    pub unknown: usize,
}

/// What a log tells before an entry which changes these pairs.
pub(crate) fn log_state<W: Words>(w: &mut W, dataset: &Dataset, changed: &[Changed]) -> LogState
    requires image { (b : Base) × (log : List Entry) × Image dataset.now b log (W.words w.old) }
    ensures same { w.new ≡ w.old }
    ensures is { (b : Base) (log : List Entry) → Image dataset.now b log (W.words w.old) → IsLogState dataset.now b log changed.now result }
{
    let spare = spare_of(w, dataset);
    let unknown = unknown_count(w, changed);
    let number = length(w);
    let last = last_time(w);
    LogState {
        number,
        last,
        spare,
        unknown,
    }
}

// whether there are changed pairs, and the first becomes active
fn is_uniting(changed: &[Changed]) -> bool
    ensures { result ≡ is_uniting changed.now }
{
    if changed.is_empty() {
        return false;
    }
    changed[0].active
}

// the nodes and links that an entry makes, from the whole part of the base that it touches
fn part_made<W: Words>(
    alloc: Global,
    w: &mut W,
    dataset: &Dataset,
    changed: &[Changed],
    tops: &[Spot],
) -> Result<EntryLayers, NoMemory>
    requires known { (b : Base) × (log : List Entry) × Image dataset.now b log (W.words w.old) × AllByRecursion (λ c. IsKnown b c.pair) changed.now × AreTops dataset.now b log (ends changed.now) tops.now }
    requires pairs { PairsAscend (map (λ c. c.pair) changed.now) }
    ensures same { w.new ≡ w.old }
    ensures layers { (b : Base) (log : List Entry) (e : Entry) → Image dataset.now b log (W.words w.old) → AllByRecursion (λ c. IsKnown b c.pair) changed.now → AreTops dataset.now b log (ends changed.now) tops.now → e.changed ≡ changed.now
        → IfOk result (λ x. AreEntryLayers dataset.now b log e x) }
{
    let touched = touched_part(alloc, w, dataset, changed, tops)?;
    let ends = touched.ends.as_slice();
    let layers = entry_layers(alloc, w, dataset, &touched.part, ends)?;
    Ok(layers)
}

// the same where the pairs become active, from the nodes that it retires and their children
fn united_made<W: Words>(
    alloc: Global,
    w: &mut W,
    dataset: &Dataset,
    changed: &[Changed],
    places: &[Spot],
) -> Result<EntryLayers, NoMemory>
    requires paths { (b : Base) × (log : List Entry) × (e : Entry) × Image dataset.now b log (W.words w.old) × AreOnPaths dataset.now b log e places.now × (e.changed ≡ changed.now) }
    requires active { HaveState true changed.now }
    ensures same { w.new ≡ w.old }
    ensures layers { (b : Base) (log : List Entry) (e : Entry) → Image dataset.now b log (W.words w.old) → AreOnPaths dataset.now b log e places.now → e.changed ≡ changed.now → IfOk result (λ x. AreEntryLayers dataset.now b log e x) }
{
    let layers = united_layers(alloc, w, dataset, changed, places)?;
    Ok(layers)
}

/// The nodes and links that an entry makes which changes these pairs, from the places of the roots of
/// their ends and of all nodes that it retires. All the pairs become active, or all become inactive.
///
/// Where they become active, the children of the retired nodes alone are looked at; else all leaves of
/// the roots, with their active edges.
///
/// # Errors
///
/// `NoMemory` where there is none for the lists.
pub(crate) fn made_layers<W: Words>(
    alloc: Global,
    w: &mut W,
    dataset: &Dataset,
    changed: &[Changed],
    tops: &[Spot],
    places: &[Spot],
) -> Result<EntryLayers, NoMemory>
    requires known { (b : Base) × (log : List Entry) × Image dataset.now b log (W.words w.old) × AllByRecursion (λ c. IsKnown b c.pair) changed.now × AreTops dataset.now b log (ends changed.now) tops.now }
    requires paths { (b : Base) × (log : List Entry) × (e : Entry) × Image dataset.now b log (W.words w.old) × AreOnPaths dataset.now b log e places.now × (e.changed ≡ changed.now) }
    requires pairs { PairsAscend (map (λ c. c.pair) changed.now) }
    requires active { is_uniting changed.now ≡ true → HaveState true changed.now }
    ensures same { w.new ≡ w.old }
    ensures layers { (b : Base) (log : List Entry) (e : Entry) → Image dataset.now b log (W.words w.old) → AllByRecursion (λ c. IsKnown b c.pair) changed.now → AreTops dataset.now b log (ends changed.now) tops.now → AreOnPaths dataset.now b log e places.now
        → e.changed ≡ changed.now → IfOk result (λ x. AreEntryLayers dataset.now b log e x) }
{
    if is_uniting(changed) {
        return united_made(alloc, w, dataset, changed, places);
    }
    part_made(alloc, w, dataset, changed, tops)
}

/// The refusal of a spent chunk.
pub(crate) fn refusal_of(dataset: &Dataset, spent: Option<SpentChunk>) -> Option<Refusal>
    ensures { result ≡ option_map (refuse_chunk dataset.now) (told_spent spent) }
{
    match spent {
        Some(spent) => {
            let parts = dataset.layout.unpack(spent.chunk);
            Some(Refusal::IdsSpent {
                layer: parts.layer,
                x: parts.x,
                y: parts.y,
                z: parts.z,
            })
        }
        None => None,
    }
}
