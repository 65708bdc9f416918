//! Whether replies are what is wanted, and say that so many entries were seen.

use node_ids::NodeId;
use op_model::{PathIds, Refusal, Reply, Summary};
use pcg_base::NoMemory;

pub fn is_root(reply: &Reply, want: NodeId, at: u32) -> bool {
    match reply {
        Reply::Root { root, seen } => *root == want && *seen == at,
        _ => false,
    }
}

pub fn is_path(reply: &Reply, want: &PathIds, at: u32) -> bool {
    match reply {
        Reply::Path { nodes, seen } => same_path(nodes, want) && *seen == at,
        _ => false,
    }
}

fn same_path(one: &PathIds, other: &PathIds) -> bool {
    let count = one.count;
    if other.count != count || count > 17 {
        return false;
    }
    one.nodes[..count as usize] == other.nodes[..count as usize]
}

pub fn are_leaves(reply: &Reply, want: &[NodeId], at: u32) -> Result<bool, NoMemory> {
    match reply {
        Reply::Leaves { leaves, seen } => Ok(leaves.list.as_slice() == want && *seen == at),
        Reply::NoMemory => Err(NoMemory),
        _ => Ok(false),
    }
}

pub fn are_changes(reply: &Reply, want: &[Summary], at: u32) -> Result<bool, NoMemory> {
    match reply {
        Reply::Changes { ops, seen } => Ok(ops.list.as_slice() == want && *seen == at),
        Reply::NoMemory => Err(NoMemory),
        _ => Ok(false),
    }
}

pub fn is_refused(reply: &Reply, want: &Refusal, at: u32) -> bool {
    match reply {
        Reply::Refused { refusal, seen } => refusal == want && *seen == at,
        _ => false,
    }
}
