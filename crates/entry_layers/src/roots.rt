//! The roots that an entry makes.

ghost use Rattle.std.specs.Prelude.{◌≡◌, map, IfOk};
ghost use Rattle.op_model.specs.Operations.{ascending};

use entry_parts::MadeNode;
use node_reader::put;
use op_model::Ids;
use pcg_base::NoMemory;
use std::alloc::Global;

/// The ids of nodes, ascending.
///
/// # Errors
///
/// `NoMemory` where there is none for the list.
pub fn ids_of_made(alloc: Global, nodes: &[MadeNode]) -> Result<Ids, NoMemory>
    ensures { IfOk result (λ ids. ids ≡ ascending (map (λ m. m.id) nodes.now)) }
{
    let mut list = Vec::new(alloc);
    for done in 0..nodes.len() {
        let node = nodes[nodes.len() - done - 1];
        put(&mut list, node.id)?;
    }
    Ok(Ids { list })
}
