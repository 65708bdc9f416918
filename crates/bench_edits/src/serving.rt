//! Merges that are put into the words of a log.

use bench_servers::Server;
use hierarchy_edit::Stamp;
use node_ids::NodeId;
use op_model::{AskedPair, AskedPairs, Edit};
use std::alloc::{AllocError, Global};

// a merge of two supervoxels
fn merge_of(alloc: Global, a: NodeId, b: NodeId) -> Result<Edit, AllocError> {
    let mut list = Vec::new(alloc);
    list.push(AskedPair { a, b })?;
    Ok(Edit::Merge {
        pairs: AskedPairs { list },
    })
}

/// Puts the merge of two supervoxels into the words, and answers whether it was accepted.
pub fn merge(alloc: Global, server: &mut Server, a: NodeId, b: NodeId) -> bool {
    let Ok(edit) = merge_of(alloc, a, b) else {
        return false;
    };
    let stamp = Stamp {
        client: 1,
        line: 1,
        now: 0,
    };
    server.put(alloc, edit, stamp).is_ok()
}
