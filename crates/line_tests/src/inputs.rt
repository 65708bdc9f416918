//! Input that is made from a number. What is wanted was made by a second program, in Python.

ghost use Rattle.std.specs.Prelude.{◌≤◌};

use chunk_geometry::Grid;
use made_bases::made_base;
use made_input::{MadeInput, Wish, make_tables};
use node_ids::Layout;
use op_model::{Base, Dataset, Edge, Weight};
use std::alloc::Global;
use std::test::Fail;

/// What is made over a grid of at most 256 chunks along each axis, with 8 bits for each coordinate. `None`
/// if memory ran out.
fn made(
    alloc: Global,
    grid: Grid,
    number: u64,
    size: u32,
    clients: u32,
    requests: u32,
) -> Option<MadeInput>
    requires size { (1 ≤ size) × (size ≤ 1000000) }
    requires clients { (1 ≤ clients) × (clients ≤ 64) }
    requires requests { requests ≤ 100000 }
{
    if grid.nx() > 256 || grid.ny() > 256 || grid.nz() > 256 {
        return None;
    }
    let Ok(layout) = Layout::new(8) else {
        return None;
    };
    let wish = Wish {
        layout,
        grid,
        number,
        size,
        clients,
        requests,
    };
    make_tables(alloc, &wish).ok()
}

/// Whether these tables, streams and count of edges were made.
fn is_so(
    made: &MadeInput,
    supervoxels: &str,
    edges: &str,
    streams: &[&str],
    edge_count: u32,
) -> bool {
    if made.streams.len() != streams.len() {
        return false;
    }
    for i in 0..streams.len() {
        if made.streams[i].as_slice() != streams[i].as_bytes() {
            return false;
        }
    }
    made.supervoxels.as_slice() == supervoxels.as_bytes()
        && made.edges.as_slice() == edges.as_bytes()
        && made.edge_count == edge_count
}

#[test]
fn one_supervoxel(rt: HostRuntime) -> Result<(), Fail> {
    let Ok(grid) = Grid::new(1, 1, 1) else {
        panic!(rt; "no grid");
    };
    let Some(made) = made(rt.alloc(), grid, 1, 1, 1, 1) else {
        panic!(rt; "no memory");
    };
    let stream = "{\"do\":\"path\",\"sv\":\"72057594037927937\"}\n";
    assert!(rt;
        is_so(
            &made,
            "supervoxel\n72057594037927937\n",
            "a,b,affinity,active\n",
            [stream].as_slice(),
            0,
        )
    );
    Ok(())
}

/// Edges within a chunk and between chunks, active and not, and a request of each kind.
#[test]
fn two_chunks(rt: HostRuntime) -> Result<(), Fail> {
    let Ok(grid) = Grid::new(2, 1, 1) else {
        panic!(rt; "no grid");
    };
    let Some(made) = made(rt.alloc(), grid, 14, 4, 2, 4) else {
        panic!(rt; "no memory");
    };
    let ids =
        "supervoxel\n72057594037927937\n72339069014638593\n72057594037927938\n72339069014638594\n";
    let edges =
        "a,b,affinity,active\n72057594037927937,72339069014638593,91,0\n72057594037927937,72057594037927938,10,1\n72339069014638593,72339069014638594,45,1\n";
    let streams = [
        "{\"a\":\"72339069014638593\",\"b\":\"72339069014638594\",\"do\":\"merge\"}\n{\"a\":\"72057594037927938\",\"b\":\"72057594037927937\",\"do\":\"merge\"}\n{\"a\":\"72057594037927938\",\"b\":\"72339069014638593\",\"do\":\"merge\"}\n{\"do\":\"undo\",\"op\":5}\n",
        "{\"do\":\"root\",\"sv\":\"72057594037927938\"}\n{\"do\":\"path\",\"sv\":\"72057594037927937\"}\n{\"a\":\"72057594037927938\",\"b\":\"72057594037927938\",\"do\":\"merge\"}\n{\"do\":\"split\",\"sinks\":[\"72057594037927938\"],\"sources\":[\"72057594037927937\"]}\n",
    ];
    assert!(rt; is_so(&made, ids, edges, streams.as_slice(), 3));
    Ok(())
}

/// How large the input is that the demo's numbers make.
#[test]
fn twenty_thousand_supervoxels(rt: HostRuntime) -> Result<(), Fail> {
    let Ok(grid) = Grid::new(8, 8, 8) else {
        panic!(rt; "no grid");
    };
    let Some(made) = made(rt.alloc(), grid, 1, 20000, 8, 50) else {
        panic!(rt; "no memory");
    };
    assert_eq!(rt; made.supervoxels.len(), 360011);
    assert_eq!(rt; made.edges.len(), 978073);
    assert_eq!(rt; made.edge_count, 23901);
    let sizes = [2400, 2487, 2329, 2612, 2301, 2486, 2583, 2599];
    assert_eq!(rt; made.streams.len(), sizes.len());
    for i in 0..sizes.len() {
        assert_eq!(rt; made.streams[i].len(), sizes[i]);
    }
    Ok(())
}

/// The base that is made over such a grid. `None` if memory ran out.
fn base(alloc: Global, grid: Grid, number: u64, size: u32) -> Option<Base>
    requires { (1 ≤ size) × (size ≤ 1000000) }
{
    if grid.nx() > 256 || grid.ny() > 256 || grid.nz() > 256 {
        return None;
    }
    let Ok(layout) = Layout::new(8) else {
        return None;
    };
    let wish = Wish {
        layout,
        grid,
        number,
        size,
        clients: 1,
        requests: 0,
    };
    let dataset = Dataset {
        layout,
        grid,
        merge_affinity: 1,
        capacity: 2,
    };
    made_base(alloc, &wish, &dataset).ok()
}

/// Whether a base has these supervoxels.
fn has_supervoxels(base: &Base, ids: &[u64]) -> bool {
    if base.supervoxels.list.len() != ids.len() {
        return false;
    }
    for i in 0..ids.len() {
        if base.supervoxels.list[i].0 != ids[i] {
            return false;
        }
    }
    true
}

/// Whether an edge has these ends, this affinity and this state.
fn is_edge(edge: &Edge, wanted: &(u64, u64, u32, bool)) -> bool {
    edge.pair.a.0 == wanted.0
        && edge.pair.b.0 == wanted.1
        && edge.weight == Weight::Affinity(wanted.2)
        && edge.active == wanted.3
}

/// Whether a base has these edges.
fn has_edges(base: &Base, edges: &[(u64, u64, u32, bool)]) -> bool {
    if base.edges.list.len() != edges.len() {
        return false;
    }
    for i in 0..edges.len() {
        if !is_edge(&base.edges.list[i], &edges[i]) {
            return false;
        }
    }
    true
}

/// The tables of `two_chunks`, read.
#[test]
fn the_base_of_two_chunks(rt: HostRuntime) -> Result<(), Fail> {
    let Ok(grid) = Grid::new(2, 1, 1) else {
        panic!(rt; "no grid");
    };
    let Some(base) = base(rt.alloc(), grid, 14, 4) else {
        panic!(rt; "no memory");
    };
    let ids = [
        72057594037927937,
        72057594037927938,
        72339069014638593,
        72339069014638594,
    ];
    let edges = [
        (72057594037927937, 72057594037927938, 10, true),
        (72057594037927937, 72339069014638593, 91, false),
        (72339069014638593, 72339069014638594, 45, true),
    ];
    assert!(rt; has_supervoxels(&base, ids.as_slice()));
    assert!(rt; has_edges(&base, edges.as_slice()));
    Ok(())
}
