//! Where nodes stand in their layer.

ghost use Rattle.std.specs.Prelude.{◌≡◌, ◌<◌, length, replicate, IfOk};
ghost use Rattle.std.specs.List.{All};
ghost use Rattle.made_links.specs.Ranks.{AreRanks};

use pcg_base::NoMemory;
use std::alloc::Global;

// a list of so many zeros
fn zeros(alloc: Global, count: usize) -> Result<Vec<usize>, NoMemory>
    ensures { IfOk result (λ v. v.items ≡ replicate count 0) }
{
    let Ok(list) = (vec![in alloc; 0; count]) else {
        return Err(NoMemory);
    };
    Ok(list)
}

/// For each of so many places where it stands in this list of places, counted from 1; 0 for one that
/// isn't in it.
///
/// # Errors
///
/// `NoMemory` where there is none for the list.
pub fn ranks(alloc: Global, count: usize, leasts: &[u32]) -> Result<Vec<usize>, NoMemory>
    requires leasts { All (λ p. p < count) leasts.now }
    ensures { IfOk result (λ v. AreRanks count leasts.now v.items) }
{
    let mut list = zeros(alloc, count)?;
    for rank in 0..leasts.len() {
        list[leasts[rank] as usize] = rank + 1;
    }
    Ok(list)
}
