//! The places of the ends of changed pairs.

ghost use Rattle.std.specs.Prelude.{◌≡◌, ℕ, ◌<◌, ◌^◌, length, map, IfOk, IsTrue};
ghost use Rattle.graph_model.specs.Lists.{has};
ghost use Rattle.op_model.specs.Operations.{ends};
ghost use Rattle.op_model.specs.Valid.{IsAscending};
ghost use Rattle.entry_parts.specs.Parts.{AreEndsAt};
ghost use Rattle.octree_layers.specs.Places.{place_of};

use node_ids::NodeId;
use octree_layers::place_of;
use op_model::Changed;
use pcg_base::NoMemory;
use std::alloc::Global;
use touched_paths::end_ids;

// the places of ids in an ascending list that has them
fn places_of(alloc: Global, ids: &[NodeId], found: &[NodeId]) -> Result<Vec<u32>, NoMemory>
    requires ascending { IsAscending ids.now }
    requires size { length ids.now < 2 ^ 32 }
    requires known { (v : ℕ) → IsTrue (has found.now v) → IsTrue (has ids.now v) }
    ensures { IfOk result (λ v. v.items ≡ map (place_of ids.now) found.now) }
{
    let mut list = Vec::new(alloc);
    for place in 0..found.len() {
        let at = place_of(ids, found[place]);
        let Ok(()) = list.push(at) else {
            return Err(NoMemory);
        };
    }
    Ok(list)
}

/// The places of the ends of changed pairs in an ascending list that has them, ascending, each once. They
/// are found by halving.
///
/// # Errors
///
/// `NoMemory` where there is none for the lists.
pub fn end_places(alloc: Global, ids: &[NodeId], changed: &[Changed]) -> Result<Vec<u32>, NoMemory>
    requires ascending { IsAscending ids.now }
    requires size { length ids.now < 2 ^ 32 }
    requires known { (v : ℕ) → IsTrue (has (ends changed.now) v) → IsTrue (has ids.now v) }
    ensures { IfOk result (λ v. AreEndsAt ids.now changed.now v.items) }
{
    let found = end_ids(alloc, changed)?;
    let places = places_of(alloc, ids, &found)?;
    Ok(places)
}
