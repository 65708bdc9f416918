//! The part of a base that an entry touches.

ghost use Rattle.std.specs.Prelude.{◌≡◌, ℕ, ◌<◌, ◌^◌, ◌∷◌, ◌++◌, List, length, map, IfOk};
ghost use Rattle.std.specs.List.{AllByRecursion, filter};
ghost use Rattle.op_model.specs.declared.base.Base.{Base};
ghost use Rattle.op_model.specs.declared.entry.Entry.{Entry};
ghost use Rattle.op_model.specs.Cuts.{PairsAscend};
ghost use Rattle.op_model.specs.Labels.{edges};
ghost use Rattle.op_model.specs.Laws.{IsKnown};
ghost use Rattle.op_model.specs.Operations.{ends};
ghost use Rattle.op_model.specs.Valid.{IsAscending};
ghost use Rattle.record_rows.specs.Readings.{Image};
ghost use Rattle.node_reader.specs.Readable.{AreKnown};
ghost use Rattle.entry_parts.specs.Parts.{AreEndsAt, IsPart};
ghost use Rattle.part_laws.specs.Touched.{gained_edges, is_among, kept_edges};
ghost use Rattle.touched_paths.specs.Climbing.{AreTops};

use crate::edging::{kept_edges, put_gained};
use crate::ends::end_places;
use crate::leaves::leaves_of;
use component_reader::edges_among;
use log_rows::length;
use node_ids::NodeId;
use op_model::{Base, Changed, Dataset, EdgeList, Ids};
use pcg_base::{NoMemory, Words};
use row_words::Spot;
use std::alloc::Global;

/// What an entry touches: a part of the base at the log with the entry.
#[derive(Drop)]
pub struct TouchedPart {
    /// The supervoxels of the touched roots, with the active pairs between them after the entry.
    pub part: Base,
    /// The places of the ends of the changed pairs, ascending, each once.
    pub ends: Vec<u32>,
}

// the active edges among these supervoxels, as the changed pairs leave those of the whole log
fn part_edges<W: Words>(
    alloc: Global,
    w: &mut W,
    dataset: &Dataset,
    ids: &[NodeId],
    changed: &[Changed],
) -> Result<EdgeList, NoMemory>
    requires image { (b : Base) × (log : List Entry) × Image dataset.now b log (W.words w.old) × AreKnown b ids.now }
    requires ascending { IsAscending ids.now }
    requires pairs { PairsAscend (map (λ c. c.pair) changed.now) }
    ensures same { w.new ≡ w.old }
    ensures are { (b : Base) (log : List Entry) → Image dataset.now b log (W.words w.old) → AreKnown b ids.now → IfOk result (λ es. es ≡ kept_edges dataset.now.merge_affinity changed.now (filter (is_among ids.now) (edges dataset.now b log)) ++ gained_edges dataset.now.merge_affinity changed.now) }
{
    let prefix = length(w);
    let Ok(among) = edges_among(alloc, w, ids, prefix, usize::MAX) else {
        return Err(NoMemory);
    };
    let mut list = kept_edges(
        alloc,
        dataset.merge_affinity,
        changed,
        among.list.as_slice(),
    )?;
    put_gained(&mut list, dataset.merge_affinity, changed)?;
    Ok(EdgeList { list })
}

/// The part of the base that an entry touches which changes these pairs, from the places of the roots of
/// their ends at the whole log.
///
/// Each leaf of the touched roots is looked at once, with its edges; time is n log n in them.
///
/// # Errors
///
/// `NoMemory` where there is none for the lists.
pub fn touched_part<W: Words>(
    alloc: Global,
    w: &mut W,
    dataset: &Dataset,
    changed: &[Changed],
    tops: &[Spot],
) -> Result<TouchedPart, NoMemory>
    requires known { (b : Base) × (log : List Entry) × Image dataset.now b log (W.words w.old) × AllByRecursion (λ c. IsKnown b c.pair) changed.now × AreTops dataset.now b log (ends changed.now) tops.now }
    requires pairs { PairsAscend (map (λ c. c.pair) changed.now) }
    ensures same { w.new ≡ w.old }
    ensures part { (b : Base) (log : List Entry) (e : Entry) → Image dataset.now b log (W.words w.old) → AllByRecursion (λ c. IsKnown b c.pair) changed.now → AreTops dataset.now b log (ends changed.now) tops.now → e.changed ≡ changed.now → IfOk result (λ t. IsPart dataset.now b (e ∷ log) t.part) }
    ensures ends { IfOk result (λ t. AreEndsAt t.part.supervoxels changed.now t.ends.items) }
    ensures size { IfOk result (λ t. length t.part.supervoxels < 2 ^ 32) }
{
    let ids = leaves_of(alloc, w, tops)?;
    let list = ids.as_slice();
    let edges = part_edges(alloc, w, dataset, list, changed)?;
    let ends = end_places(alloc, list, changed)?;
    Ok(TouchedPart {
        part: Base {
            supervoxels: Ids { list: ids },
            edges,
        },
        ends,
    })
}
