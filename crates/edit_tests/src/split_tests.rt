//! Splits over small paths, each with its cut and its flow, and one with a mark too many.

use crate::sessions::{Session, alone, runs};
use std::test::Fail;

/// A path of four supervoxels in one chunk, whose edges weigh the same: the cut is at the source.
#[test]
fn a_cut_at_the_source(rt: HostRuntime) -> Result<(), Fail> {
    let session = Session {
        words: "rehearse --bits 8 --grid 1,1,1 --supervoxels supervoxels.csv --edges edges.csv --merge-affinity 1 --clock 1000,10 first",
        supervoxels: b"supervoxel\n72057594037927937\n72057594037927938\n72057594037927939\n72057594037927940\n",
        edges: b"a,b,affinity,active\n72057594037927937,72057594037927938,5,1\n72057594037927938,72057594037927939,5,1\n72057594037927939,72057594037927940,5,1\n",
        ingest: "{\"at\":1000,\"changed\":[],\"client\":0,\"line\":0,\"made\":[\"144115188075855873\"],\"op\":0,\"request\":{\"do\":\"ingest\"},\"retired\":[]}\n",
        log: "{\"at\":1010,\"changed\":[[\"72057594037927937\",\"72057594037927938\",false]],\"client\":1,\"line\":1,\"made\":[\"144115188075855874\",\"144115188075855875\"],\"op\":1,\"request\":{\"do\":\"split\",\"sinks\":[\"72057594037927940\"],\"sources\":[\"72057594037927937\"]},\"retired\":[\"144115188075855873\"]}\n",
        ..alone(
            concat!(
                "{\"do\":\"split\",\"sources\":[\"72057594037927937\"],\"sinks\":[\"72057594037927940\"]}\n",
                "{\"do\":\"leaves\",\"root\":\"144115188075855874\"}\n",
            ),
            concat!(
                "{\"at\":1010,\"cut\":[[\"72057594037927937\",\"72057594037927938\"]],\"flow\":[[\"72057594037927937\",\"72057594037927938\",5],[\"72057594037927938\",\"72057594037927939\",5],[\"72057594037927939\",\"72057594037927940\",5]],\"made\":[\"144115188075855874\",\"144115188075855875\"],\"ok\":true,\"op\":1,\"retired\":[\"144115188075855873\"],\"seen\":2,\"total\":5}\n",
                "{\"leaves\":[\"72057594037927937\"],\"ok\":true,\"seen\":2}\n",
            ),
            "{\"accepted\":1,\"clients\":1,\"entries\":2,\"faults\":[],\"lines\":2,\"records\":25,\"refused\":0,\"roots\":2,\"status\":0}\n",
        )
    };
    assert!(rt; runs(rt.alloc(), &session)?);
    Ok(())
}

/// A path through four chunks: the ends' layers above the second are shared, and the cut is its
/// least edge.
#[test]
fn a_path_through_four_chunks(rt: HostRuntime) -> Result<(), Fail> {
    let session = Session {
        words: "rehearse --bits 8 --grid 4,1,1 --supervoxels supervoxels.csv --edges edges.csv --merge-affinity 1 --clock 1000,10 first",
        supervoxels: b"supervoxel\n72057594037927937\n72339069014638593\n72620543991349249\n72902018968059905\n",
        edges: b"a,b,affinity,active\n72057594037927937,72339069014638593,2,1\n72339069014638593,72620543991349249,4,1\n72620543991349249,72902018968059905,6,1\n",
        ingest: "{\"at\":1000,\"changed\":[],\"client\":0,\"line\":0,\"made\":[\"288230376151711745\"],\"op\":0,\"request\":{\"do\":\"ingest\"},\"retired\":[]}\n",
        log: "{\"at\":1010,\"changed\":[[\"72057594037927937\",\"72339069014638593\",false]],\"client\":1,\"line\":1,\"made\":[\"288230376151711746\",\"288230376151711747\"],\"op\":1,\"request\":{\"do\":\"split\",\"sinks\":[\"72902018968059905\"],\"sources\":[\"72057594037927937\"]},\"retired\":[\"288230376151711745\"]}\n",
        ..alone(
            concat!(
                "{\"do\":\"split\",\"sources\":[\"72057594037927937\"],\"sinks\":[\"72902018968059905\"]}\n",
                "{\"do\":\"path\",\"sv\":\"72339069014638593\"}\n",
                "{\"do\":\"path\",\"sv\":\"72620543991349249\"}\n",
            ),
            concat!(
                "{\"at\":1010,\"cut\":[[\"72057594037927937\",\"72339069014638593\"]],\"flow\":[[\"72057594037927937\",\"72339069014638593\",2],[\"72339069014638593\",\"72620543991349249\",2],[\"72620543991349249\",\"72902018968059905\",2]],\"made\":[\"288230376151711746\",\"288230376151711747\"],\"ok\":true,\"op\":1,\"retired\":[\"288230376151711745\"],\"seen\":2,\"total\":2}\n",
                "{\"ok\":true,\"path\":[\"144396663052566530\",\"216172782113783811\",\"288230376151711747\"],\"seen\":2}\n",
                "{\"ok\":true,\"path\":[\"144678138029277185\",\"216454257090494465\",\"288230376151711747\"],\"seen\":2}\n",
            ),
            "{\"accepted\":1,\"clients\":1,\"entries\":2,\"faults\":[],\"lines\":3,\"records\":50,\"refused\":0,\"roots\":2,\"status\":0}\n",
        )
    };
    assert!(rt; runs(rt.alloc(), &session)?);
    Ok(())
}

/// A split whose sources are a mark too many.
#[test]
fn a_mark_too_many(rt: HostRuntime) -> Result<(), Fail> {
    let mut line = String::from_str(rt.alloc(), "{\"do\":\"split\",\"sources\":[\"`p`\"")?;
    for _ in 1..65 {
        line.push_str(",\"`p`\"")?;
    }
    line.push_str("],\"sinks\":[\"`s`\"]}\n")?;
    let session = alone(
        line.as_str(),
        "{\"count\":65,\"ok\":false,\"refusal\":\"TooManyMarks\",\"seen\":1}\n",
        "{\"accepted\":0,\"clients\":1,\"entries\":1,\"faults\":[],\"lines\":1,\"records\":24,\"refused\":1,\"roots\":2,\"status\":0}\n",
    );
    assert!(rt; runs(rt.alloc(), &session)?);
    Ok(())
}
