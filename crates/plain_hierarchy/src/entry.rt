//! The entry of the ingest.

ghost use Rattle.std.specs.Prelude.{◌≡◌, ◌≤◌, ◌<◌, ◌^◌, ℕ, List, [], ◌∷◌, map, length, IfOk};
ghost use Rattle.op_model.specs.declared.entry.Asked.TheVariants as Asked;
ghost use Rattle.op_model.specs.Labels.{root};
ghost use Rattle.op_model.specs.Operations.{first_entry};
ghost use Rattle.op_model.specs.Valid.{IsBase, IsDataset};
ghost use Rattle.op_model.specs.Ingest.{ingested};

use crate::leaves::{firsts, least};
use crate::lists::{ascending_ids, ids_of, push};
use crate::nodes::{numbered, up_to};
use node_ids::NodeId;
use op_model::chunks::{chunk, top};
use op_model::{Asked, Base, ChangedPairs, Dataset, Entry, Ids};
use pcg_base::NoMemory;
use std::alloc::Global;

// the root of each supervoxel, in the supervoxels' order
fn roots(alloc: Global, dataset: &Dataset, base: &Base) -> Result<Vec<NodeId>, NoMemory>
    requires dataset { IsDataset dataset.now }
    requires base { IsBase dataset.now base.now }
    ensures { IfOk result (λ v. v.items ≡ map (root dataset.now base.now (ingested dataset.now base.now 0)) base.now.supervoxels) }
{
    let layer = top(dataset);
    let svs = ids_of(&base.supervoxels);
    let nodes = firsts(alloc, dataset, base, layer, svs)?;
    let mut list = Vec::new(alloc);
    for sv in svs {
        let place = chunk(dataset, layer, *sv);
        let first = least(alloc, dataset, base, layer, *sv)?;
        push(&mut list, numbered(place, up_to(nodes.as_slice(), first)))?;
    }
    Ok(list)
}

// an entry of the ingest that makes these roots
fn ingest(alloc: Global, at: u64, made: Vec<NodeId>) -> Entry
    ensures { result ≡ record { number = 0; client = 0; line = 0; at = at; asked = Asked.Ingest; changed = []; retired = []; made = made.items } }
{
    Entry {
        number: 0,
        client: 0,
        line: 0,
        at,
        asked: Asked::Ingest,
        changed: ChangedPairs {
            list: Vec::new(alloc),
        },
        retired: Ids {
            list: Vec::new(alloc),
        },
        made: Ids { list: made },
    }
}

/// The entry of the ingest at a time in milliseconds: it changes no pair, retires no root, and makes all roots,
/// ascending.
///
/// By `small_bases_are_legal` the log of this entry alone is legal for a base of at most 255 supervoxels. `NoMemory` comes for want of memory alone.
pub fn first_entry(
    alloc: Global,
    dataset: &Dataset,
    base: &Base,
    at: u64,
) -> Result<Entry, NoMemory>
    requires dataset { IsDataset dataset.now }
    requires base { IsBase dataset.now base.now }
    ensures { IfOk result (λ entry. entry ≡ first_entry dataset.now base.now at) }
{
    let all = roots(alloc, dataset, base)?;
    let made = ascending_ids(all);
    Ok(ingest(alloc, at, made))
}
