//! Where the least leaves of nodes stand.

ghost use Rattle.std.specs.Prelude.{◌≡◌, ◌<◌, ◌++◌, ◌∷◌, [], ℕ, length, map, IfOk, OnOk};
ghost use Rattle.std.specs.List.{All};
ghost use Rattle.graph_model.specs.Lists.{has};
ghost use Rattle.op_model.specs.Valid.{IsAscending};
ghost use Rattle.layer_laws.specs.Building.{at};

use pcg_base::NoMemory;
use std::alloc::Global;

// a place behind a list
fn put(list: &mut Vec<u32>, place: u32) -> Result<(), NoMemory>
    ensures { OnOk result (list.new.items ≡ list.old.items ++ place ∷ []) }
{
    match list.push(place) {
        Ok(()) => Ok(()),
        Err(_) => Err(NoMemory),
    }
}

// the places of the least leaves of the nodes of these places
fn leasts(alloc: Global, places: &[u32], firsts: &[u32]) -> Result<Vec<u32>, NoMemory>
    requires small { All (λ p. p < length firsts.now) places.now }
    ensures { IfOk result (λ v. v.items ≡ map (at firsts.now) places.now) }
{
    let mut list = Vec::new(alloc);
    for place in places {
        put(&mut list, firsts[*place as usize])?;
    }
    Ok(list)
}

/// The places of the least leaves of the nodes of these places, ascending, each once. `firsts` has
/// for each place that of the least leaf of its node.
///
/// # Errors
///
/// `NoMemory` where there is none for the list.
pub fn different_leasts(alloc: Global, places: &[u32], firsts: &[u32]) -> Result<Vec<u32>, NoMemory>
    requires small { All (λ p. p < length firsts.now) places.now }
    ensures ascending { IfOk result (λ v. IsAscending v.items) }
    ensures same { IfOk result (λ v. (p : ℕ) → has v.items p ≡ has (map (at firsts.now) places.now) p) }
{
    let mut list = leasts(alloc, places, firsts)?;
    list.sort_unstable();
    list.dedup();
    Ok(list)
}
