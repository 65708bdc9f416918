//! The base that tables spell, and each cause in its place.

use chunk_geometry::Grid;
use node_ids::{Layout, NodeId};
use op_model::{Dataset, Edge, Pair, Weight};
use std::alloc::Global;
use std::test::Fail;
use table_ingest::{Cause, Table, TableError, read_base};

/// The ids p and q of one chunk, r and s of another.
const IDS: &str =
    "supervoxel\n72057594037927937\n72057594037927938\n72339069014638593\n72339069014638594\n";

fn dataset() -> Option<Dataset> {
    let Ok(layout) = Layout::new(8) else {
        return None;
    };
    let Ok(grid) = Grid::new(2, 1, 1) else {
        return None;
    };
    Some(Dataset {
        layout,
        grid,
        merge_affinity: 1,
        capacity: 1048576,
    })
}

fn edge(a: u64, b: u64, weight: Weight, active: bool) -> Edge {
    Edge {
        pair: Pair {
            a: NodeId(a),
            b: NodeId(b),
        },
        weight,
        active,
    }
}

#[test]
fn tables_that_spell_a_base(rt: HostRuntime) -> Result<(), Fail> {
    let Some(dataset) = dataset() else {
        panic!(rt; "no dataset");
    };
    let (p, q, r, s) = (
        72057594037927937,
        72057594037927938,
        72339069014638593,
        72339069014638594,
    );
    let ids = [NodeId(p), NodeId(q), NodeId(r), NodeId(s)];
    let list = [
        edge(p, q, Weight::Glue, true),
        edge(q, r, Weight::Affinity(4294967295), true),
        edge(r, s, Weight::Affinity(1), false),
    ];
    for (supervoxels, edges) in [
        // rows and ends in another order, and no line end behind the last row
        (
            "supervoxel\n72339069014638594\n72057594037927938\n72057594037927937\n72339069014638593",
            "a,b,affinity,active\n72339069014638594,72339069014638593,1,0\n72057594037927937,72057594037927938,glue,1\n72339069014638593,72057594037927938,4294967295,1",
        ),
        // byte order marks, quotes, blank lines, and line ends of all kinds
        (
            "\u{FEFF}\r\n\"supervoxel\"\r\n\"72057594037927937\"\r\n\r\n72057594037927938\r72339069014638593\n\n\n\"72339069014638594\"\r",
            "\u{FEFF}a,\"b\",affinity,active\r\r\"72057594037927937\",\"72057594037927938\",\"glue\",\"1\"\r72057594037927938,72339069014638593,\"4294967295\",1\r\n72339069014638593,72339069014638594,1,0\n\r",
        ),
    ] {
        let base = read_base(
            rt.alloc(),
            supervoxels.as_bytes(),
            edges.as_bytes(),
            &dataset,
        )?;
        assert!(rt; base.supervoxels.list.as_slice() == ids.as_slice());
        assert!(rt; base.edges.list.as_slice() == list.as_slice());
    }
    Ok(())
}

/// The fault of two texts, if they have one.
fn fault(
    alloc: Global,
    supervoxels: &str,
    edges: &str,
    dataset: &Dataset,
) -> Option<(Table, u64, Cause)> {
    match read_base(alloc, supervoxels.as_bytes(), edges.as_bytes(), dataset) {
        Err(TableError::Bad { table, row, cause }) => Some((table, row, cause)),
        _ => None,
    }
}

#[test]
fn tables_at_fault(rt: HostRuntime) {
    let Some(dataset) = dataset() else {
        panic!(rt; "no dataset");
    };
    for (table, text, row, cause) in [
        (Table::Supervoxels, "", 0, Cause::BadHeader),
        (Table::Supervoxels, "supervoxel\nx,\n", 1, Cause::FieldCount),
        (
            Table::Supervoxels,
            "supervoxel\n072057594037927937\n",
            1,
            Cause::BadId,
        ),
        (
            Table::Supervoxels,
            "supervoxel\n144678138029277184\n",
            1,
            Cause::WrongLayer,
        ),
        (
            Table::Supervoxels,
            "supervoxel\n72620543991349248\n",
            1,
            Cause::OutsideGrid,
        ),
        (
            Table::Supervoxels,
            "supervoxel\n72057594037927937\n72057594037927936\nx,\n",
            2,
            Cause::ZeroSegment,
        ),
        (
            Table::Supervoxels,
            "supervoxel\n72057594037927937\n72057594037927937\nx\n",
            2,
            Cause::DoubleSupervoxel,
        ),
        (Table::Edges, "a,b,affinity\n", 0, Cause::BadHeader),
        (
            Table::Edges,
            "a,b,affinity,active\nx,x,0\n",
            1,
            Cause::FieldCount,
        ),
        (
            Table::Edges,
            "a,b,affinity,active\n72057594037927937,x,0,2\n",
            1,
            Cause::BadId,
        ),
        (
            Table::Edges,
            "a,b,affinity,active\n72057594037927937,72057594037927939,0,2\n",
            1,
            Cause::UnknownEnd,
        ),
        (
            Table::Edges,
            "a,b,affinity,active\n72057594037927937,72057594037927938,10,1\n72057594037927938,72057594037927938,0,2\nx\n",
            2,
            Cause::SelfEdge,
        ),
        (
            Table::Edges,
            "a,b,affinity,active\n72057594037927937,72057594037927938,10,1\n72057594037927938,72057594037927937,0,2\n",
            2,
            Cause::DoubleEdge,
        ),
        (
            Table::Edges,
            "a,b,affinity,active\n72057594037927937,72057594037927938,0,2\n",
            1,
            Cause::BadAffinity,
        ),
        (
            Table::Edges,
            "a,b,affinity,active\n72057594037927937,72057594037927938,glue,2\n",
            1,
            Cause::BadActive,
        ),
        (
            Table::Edges,
            "a,b,affinity,active\n72057594037927937,72057594037927938,glue,0\nx\n",
            1,
            Cause::GlueInactive,
        ),
    ] {
        // the edge table comes second, whatever is wrong with it
        let (supervoxels, edges) = match table {
            Table::Supervoxels => (text, ""),
            Table::Edges => (IDS, text),
        };
        let found = fault(rt.alloc(), supervoxels, edges, &dataset);
        assert!(rt; found == Some((table, row, cause)), "{}", cause.name());
    }
}
