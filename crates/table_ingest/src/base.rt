//! The base that two tables spell.

ghost use Rattle.std.specs.Prelude.{◌≤◌, IfOk, length};
ghost use Rattle.op_model.specs.Valid.{IsBase};
ghost use Rattle.table_ingest.specs.Bases.{Answers, AscendByPair};

use crate::TableError;
use crate::edges::read_edges;
use crate::sorting::{ascending_edges, ascending_ids};
use crate::supervoxels::read_ids;
use op_model::{Base, Dataset};
use std::alloc::Global;

/// The base that a supervoxel table and an edge table spell, or the first record with a cause.
///
/// Both texts are CSV: fields are separated by commas and may be quoted by double quotes, a line feed, a
/// carriage return or both end a record, blank lines are no records, and a byte order mark at the head is
/// skipped. The first record is the header and has number 0.
///
/// The supervoxel table has the header `supervoxel` and one id a record, in any order: layer 1 of the
/// dataset, a chunk in its grid, a segment of at least 1. The edge table has the header
/// `a,b,affinity,active`: two different supervoxels of the other table in either order, an affinity from 1
/// to 4294967295 or `glue`, and `1` where the edge is active or `0`. Ids and affinities are decimal digits.
///
/// Supervoxels and edges come ascending, the lesser id of an edge first, whatever the order of the records.
/// There are at most as many supervoxels as the first text has bytes, and as many edges as the second.
/// `Bad` comes exactly where a record has a cause, and names the first one; `NoMemory` may come at any time.
pub fn read_base(
    alloc: Global,
    supervoxels: &[u8],
    edges: &[u8],
    dataset: &Dataset,
) -> Result<Base, TableError>
    ensures answers { Answers dataset.now supervoxels.now edges.now result }
    ensures base { IfOk result (λ b. IsBase dataset.now b) }
    ensures ascending { IfOk result (λ b. AscendByPair b.edges) }
    ensures few { IfOk result (λ b. length b.supervoxels ≤ length supervoxels.now) }
    ensures few_edges { IfOk result (λ b. length b.edges ≤ length edges.now) }
{
    let ids = read_ids(alloc, supervoxels, dataset)?;
    let rows = read_edges(alloc, edges, &ids)?;
    let Ok(sorted) = ascending_ids(alloc, ids.as_slice()) else {
        return Err(TableError::NoMemory);
    };
    Ok(Base {
        supervoxels: sorted,
        edges: ascending_edges(rows),
    })
}
