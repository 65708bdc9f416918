//! Merges of pairs, and of a pair that no edge joins.

use crate::sessions::{Session, alone, runs};
use std::alloc::Global;
use std::test::Fail;

/// The usual supervoxels, and t behind them.
const FIVE: &[u8] =
    b"supervoxel\n72057594037927937\n72057594037927938\n72339069014638593\n72339069014638594\n72339069014638595\n";

/// The ingest's line of the log over them.
const INGEST_OF_FIVE: &str =
    "{\"at\":1000,\"changed\":[],\"client\":0,\"line\":0,\"made\":[\"`809`\",\"`810`\",\"`811`\"],\"op\":0,\"request\":{\"do\":\"ingest\"},\"retired\":[]}\n";

/// A merge of three pairs, of which two are the same, and its undo.
#[test]
fn a_merge_of_pairs(rt: HostRuntime) -> Result<(), Fail> {
    let session = Session {
        supervoxels: FIVE,
        ingest: INGEST_OF_FIVE,
        log: concat!(
            "{\"at\":1010,\"changed\":[[\"`p`\",\"`t`\",true],[\"`r`\",\"`s`\",true]],\"client\":1,\"line\":1,\"made\":[\"`812`\"],\"op\":1,\"request\":{\"do\":\"merge\",\"pairs\":[[\"`r`\",\"`s`\"],[\"`p`\",\"`t`\"],[\"`s`\",\"`r`\"]]},\"retired\":[\"`809`\",\"`810`\",\"`811`\"]}\n",
            "{\"at\":1020,\"changed\":[[\"`p`\",\"`t`\",false],[\"`r`\",\"`s`\",false]],\"client\":1,\"line\":3,\"made\":[\"`813`\",\"`814`\",\"`815`\"],\"op\":2,\"request\":{\"do\":\"undo\",\"op\":1},\"retired\":[\"`812`\"]}\n",
        ),
        ..alone(
            concat!(
                "{\"do\":\"merge\",\"pairs\":[[\"`r`\",\"`s`\"],[\"`p`\",\"`t`\"],[\"`s`\",\"`r`\"]]}\n",
                "{\"do\":\"path\",\"sv\":\"`t`\"}\n",
                "{\"do\":\"undo\",\"op\":1}\n",
                "{\"do\":\"leaves\",\"root\":\"`813`\"}\n",
                "{\"do\":\"leaves\",\"root\":\"`814`\"}\n",
                "{\"do\":\"leaves\",\"root\":\"`815`\"}\n",
            ),
            concat!(
                "{\"at\":1010,\"made\":[\"`812`\"],\"ok\":true,\"op\":1,\"retired\":[\"`809`\",\"`810`\",\"`811`\"],\"seen\":2}\n",
                "{\"ok\":true,\"path\":[\"144396663052566533\",\"`812`\"],\"seen\":2}\n",
                "{\"at\":1020,\"made\":[\"`813`\",\"`814`\",\"`815`\"],\"ok\":true,\"op\":2,\"retired\":[\"`812`\"],\"seen\":3}\n",
                "{\"leaves\":[\"`p`\",\"`q`\",\"`r`\"],\"ok\":true,\"seen\":3}\n",
                "{\"leaves\":[\"`s`\"],\"ok\":true,\"seen\":3}\n",
                "{\"leaves\":[\"`t`\"],\"ok\":true,\"seen\":3}\n",
            ),
            "{\"accepted\":2,\"clients\":1,\"entries\":3,\"faults\":[],\"lines\":6,\"records\":70,\"refused\":0,\"roots\":3,\"status\":0}\n",
        )
    };
    assert!(rt; runs(rt.alloc(), &session)?);
    Ok(())
}

/// A merge of this pair so many times.
fn merge_of(alloc: Global, pair: &str, count: u32) -> Result<String, Fail> {
    let mut line = String::from_str(alloc, "{\"do\":\"merge\",\"pairs\":[")?;
    for i in 0..count {
        if i > 0 {
            line.push_str(",")?;
        }
        line.push_str(pair)?;
    }
    line.push_str("]}\n")?;
    Ok(line)
}

/// Pairs of which the second has one root, no pairs, and a pair too many.
#[test]
fn pairs_that_are_refused(rt: HostRuntime) -> Result<(), Fail> {
    let alloc = rt.alloc();
    let mut requests = String::from_str(
        alloc,
        "{\"do\":\"merge\",\"pairs\":[[\"`r`\",\"`s`\"],[\"`p`\",\"`q`\"]]}\n",
    )?;
    requests.push_str(merge_of(alloc, "", 0)?.as_str())?;
    requests.push_str(merge_of(alloc, "[\"`r`\",\"`s`\"]", 65)?.as_str())?;
    let session = Session {
        supervoxels: FIVE,
        ingest: INGEST_OF_FIVE,
        ..alone(
            requests.as_str(),
            concat!(
                "{\"ok\":false,\"refusal\":\"SameRoot\",\"root\":\"`809`\",\"seen\":1}\n",
                "{\"ok\":false,\"refusal\":\"NoPairs\",\"seen\":1}\n",
                "{\"count\":65,\"ok\":false,\"refusal\":\"TooManyPairs\",\"seen\":1}\n",
            ),
            "{\"accepted\":0,\"clients\":1,\"entries\":1,\"faults\":[],\"lines\":3,\"records\":29,\"refused\":3,\"roots\":3,\"status\":0}\n",
        )
    };
    assert!(rt; runs(alloc, &session)?);
    Ok(())
}

/// A merge of p and s, which no edge joins: the pair becomes an edge.
#[test]
fn a_merge_of_no_edge(rt: HostRuntime) -> Result<(), Fail> {
    let session = Session {
        log: "{\"at\":1010,\"changed\":[[\"`p`\",\"`s`\",true]],\"client\":1,\"line\":1,\"made\":[\"`811`\"],\"op\":1,\"request\":{\"a\":\"`p`\",\"b\":\"`s`\",\"do\":\"merge\"},\"retired\":[\"`809`\",\"`810`\"]}\n",
        ..alone(
            "{\"do\":\"merge\",\"a\":\"`p`\",\"b\":\"`s`\"}\n",
            "{\"at\":1010,\"made\":[\"`811`\"],\"ok\":true,\"op\":1,\"retired\":[\"`809`\",\"`810`\"],\"seen\":2}\n",
            "{\"accepted\":1,\"clients\":1,\"entries\":2,\"faults\":[],\"lines\":1,\"records\":38,\"refused\":0,\"roots\":1,\"status\":0}\n",
        )
    };
    assert!(rt; runs(rt.alloc(), &session)?);
    Ok(())
}
