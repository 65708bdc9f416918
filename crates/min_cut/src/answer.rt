//! The links of a cut.

ghost use Rattle.std.specs.Prelude.{◌≡◌, ◌<◌, ◌≤◌, length, map, is_some, IfOk};
ghost use Rattle.flow_net.specs.Net.{wire_of};
ghost use Rattle.graph_model.specs.Wires.{EndsBelow};
ghost use Rattle.graph_model.specs.Cuts.{chosen, crosses};
ghost use Rattle.min_cut.specs.Tree.{visit_at};

use crate::search::Visit;
use flow_net::Link;
use std::alloc::{AllocError, Global};

// whether just one end of link k is visited
fn is_edge(links: &[Link], visits: &[Option<Visit>], k: u32) -> bool
    requires at { k < length links.now }
    requires ends { EndsBelow (length visits.now) (map wire_of links.now) }
    ensures { result ≡ crosses (map wire_of links.now) (λ v. is_some (visit_at visits.now v)) k }
{
    let link = links[k as usize];
    visits[link.a as usize].is_some() != visits[link.b as usize].is_some()
}

// the links with just one end visited
pub(crate) fn edge_links(
    alloc: Global,
    links: &[Link],
    visits: &[Option<Visit>],
) -> Result<Vec<u32>, AllocError>
    requires few { length links.now ≤ 500000 }
    requires ends { EndsBelow (length visits.now) (map wire_of links.now) }
    ensures { IfOk result (λ v. v.items ≡ chosen (crosses (map wire_of links.now) (λ v. is_some (visit_at visits.now v))) (length links.now)) }
{
    let mut chosen = Vec::new(alloc);
    for k in 0..links.len() as u32 {
        if is_edge(links, visits, k) {
            chosen.push(k)?;
        }
    }
    Ok(chosen)
}
