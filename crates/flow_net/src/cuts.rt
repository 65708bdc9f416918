//! The links of a cut and their weight.

ghost use Rattle.std.specs.Prelude.{◌≡◌, ◌<◌, ◌≤◌, ◌*◌, ◌^◌, length, ◌+◌, map, is_none};
ghost use Rattle.std.specs.List.{All, sum_by};
ghost use Rattle.flow_net.specs.Net.{IsAscending, first_below, wire_of};
ghost use Rattle.graph_model.specs.Lists.{has};
ghost use Rattle.graph_model.specs.Wires.{wire, weight_of};
ghost use Rattle.graph_model.specs.Cuts.{weight};
ghost use Rattle.flow_net.specs.Verdict.{cuts_glue};

use crate::Link;
use lane_kernels::sum_affinities;

// whether the cut, which is ascending, has the number
pub(crate) fn has_link(cut: &[u32], k: u32) -> bool
    requires { IsAscending cut.now }
    ensures { result ≡ has cut.now k }
{
    cut.binary_search(&k).is_ok()
}

// whether link k is glue
fn is_glue(links: &[Link], k: u32) -> bool
    requires { k < length links.now }
    ensures { result ≡ is_none (wire (map wire_of links.now) k).room }
{
    links[k as usize].room.is_none()
}

// the first link of the cut that is glue
pub(crate) fn first_glue(links: &[Link], cut: &[u32]) -> Option<u32>
    requires ascending { IsAscending cut.now }
    requires below { All (λ k. k < length links.now) cut.now }
    ensures { result ≡ first_below (cuts_glue (map wire_of links.now) cut.now) (length links.now) }
{
    for k in cut {
        if is_glue(links, *k) {
            return Some(*k);
        }
    }
    None
}

// the room of link k, 0 for glue
fn room_at(links: &[Link], k: u32) -> u32
    requires { k < length links.now }
    ensures { result ≡ weight_of (wire (map wire_of links.now) k).room }
{
    match links[k as usize].room {
        Some(room) => room,
        None => 0,
    }
}

// the rooms of at most 64 links, added by lanes
fn weight_of_block(links: &[Link], block: &[u32]) -> u64
    requires few { length block.now ≤ 64 }
    requires below { All (λ k. k < length links.now) block.now }
    ensures value { result ≡ sum_by (λ k. weight_of (wire (map wire_of links.now) k).room) block.now }
    ensures bound { result ≤ 4294967295 * 64 }
{
    let mut rooms = [0u32; 64];
    for i in 0..block.len() {
        rooms[i] = room_at(links, block[i]);
    }
    sum_affinities(&rooms[..block.len()])
}

// the weight of the cut, 64 links at a time
pub(crate) fn weight_of_cut(links: &[Link], cut: &[u32]) -> u64
    requires few { length links.now ≤ 500000 }
    requires ascending { IsAscending cut.now }
    requires below { All (λ k. k < length links.now) cut.now }
    ensures value { result ≡ weight (map wire_of links.now) (has cut.now) }
    ensures bound { result < 2 ^ 52 }
{
    let mut sum: u64 = 0;
    let whole = cut.len() / 64;
    for block in 0..whole {
        sum += weight_of_block(links, &cut[64 * block..64 * block + 64]);
    }
    sum + weight_of_block(links, &cut[64 * whole..])
}
