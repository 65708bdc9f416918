//! Links and amounts of a net as pairs and carries.

ghost use Rattle.std.specs.Prelude.{◌≡◌, ◌<◌, length, map, IfOk, ℤ};
ghost use Rattle.std.specs.List.{All};
ghost use Rattle.op_model.specs.Cuts.{link_of, pair_at, shown_flow};
ghost use Rattle.split_net.specs.Parts.{told_carries, told_carry};

use op_model::{Carries, Carry, Edge, Pairs};
use std::alloc::{AllocError, Global};

/// The pairs of the edges with these numbers.
pub(crate) fn pairs_of(alloc: Global, part: &[Edge], links: &[u32]) -> Result<Pairs, AllocError>
    requires below { All (λ k. k < length part.now) links.now }
    ensures { IfOk result (λ pairs. pairs ≡ map (pair_at part.now) links.now) }
{
    let mut list = Vec::new(alloc);
    for at in 0..links.len() {
        let edge = part[links[at] as usize];
        list.push(edge.pair)?;
    }
    Ok(Pairs { list })
}

/// What an edge carries that has this amount, if it is anything.
fn carry_of(edge: Edge, amount: i64) -> Option<Carry>
    ensures { told_carry result ≡ told_carries (link_of edge) amount }
{
    let size = amount.unsigned_abs();
    if amount > 0 {
        return Some(Carry {
            from: edge.pair.a,
            to: edge.pair.b,
            amount: size,
        });
    }
    if amount < 0 {
        return Some(Carry {
            from: edge.pair.b,
            to: edge.pair.a,
            amount: size,
        });
    }
    None
}

/// What edges carry that have these amounts, in their order.
pub(crate) fn flow_of(alloc: Global, part: &[Edge], amounts: &[i64]) -> Result<Carries, AllocError>
    requires count { length amounts.now ≡ length part.now }
    ensures { IfOk result (λ flow. flow ≡ shown_flow part.now amounts.now) }
{
    let mut list = Vec::new(alloc);
    for at in 0..part.len() {
        if let Some(carry) = carry_of(part[at], amounts[at]) {
            list.push(carry)?;
        }
    }
    Ok(Carries { list })
}
