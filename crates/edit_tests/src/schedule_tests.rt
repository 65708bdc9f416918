//! Schedules that are used up, or go on behind their clients' lines, and the most clients.

use crate::sessions::{EDGES, INGEST, MERGED, SUPERVOXELS, Session, call, file_of, runs, spelled};
use memory_devices::{MemFile, MemPlace, MemSink};
use std::alloc::Global;
use std::test::Fail;

const MERGE: &str = "{\"do\":\"merge\",\"a\":\"`r`\",\"b\":\"`s`\"}\n";

const REPLY: &str =
    "{\"at\":1010,\"made\":[\"`811`\"],\"ok\":true,\"op\":1,\"retired\":[\"`809`\",\"`810`\"],\"seen\":2}\n";

const SAME: &str = "{\"ok\":false,\"refusal\":\"SameRoot\",\"root\":\"`811`\",\"seen\":2}\n";

/// Client 2 merges in twelve steps, and client 1 finds the roots merged in two: a schedule of just
/// these steps, one that goes on behind both clients' lines, and one that gives a client without
/// lines steps ahead of them.
#[test]
fn schedules_that_are_used_up(rt: HostRuntime) -> Result<(), Fail> {
    for schedule in [
        "2 2 2 2 2 2 2 2 2 2 2 2 1 1",
        "2 2 2 2 2 2 2 2 2 2 2 2 2 2 1 1 1 2 3 2 1\n",
        "3 2 3 2 2 2 2 2 2 2 2 2 2 2\r\n\t1 1 3",
    ] {
        let session = Session {
            words: "rehearse --bits 8 --grid 2,1,1 --supervoxels supervoxels.csv --edges edges.csv --merge-affinity 1 --clock 1000,10 --schedule schedule.txt first second third",
            supervoxels: SUPERVOXELS,
            edges: EDGES,
            schedule,
            requests: [MERGE, MERGE, ""],
            answers: [Some(SAME), Some(REPLY), Some("")],
            ingest: INGEST,
            log: "{\"at\":1010,\"changed\":[[\"`r`\",\"`s`\",true]],\"client\":2,\"line\":1,\"made\":[\"`811`\"],\"op\":1,\"request\":{\"a\":\"`r`\",\"b\":\"`s`\",\"do\":\"merge\"},\"retired\":[\"`809`\",\"`810`\"]}\n",
            summary: "{\"accepted\":1,\"clients\":3,\"entries\":2,\"faults\":[],\"lines\":2,\"records\":34,\"refused\":1,\"roots\":1,\"status\":0}\n",
            status: 0,
        };
        assert!(rt; runs(rt.alloc(), &session)?, "{schedule}");
    }
    Ok(())
}

/// The name of a client's file.
fn name_of(alloc: Global, client: u32, end: &str) -> Result<String, Fail> {
    let mut name = String::from_str(alloc, "c")?;
    name.push_str(client.to_string(alloc)?.as_str())?;
    name.push_str(end)?;
    Ok(name)
}

/// The usual tables, and the requests of so many clients that merge the same.
fn files_for(alloc: Global, clients: u32) -> Result<Vec<MemFile>, Fail> {
    let mut files = Vec::new(alloc);
    let table = Vec::from_slice(alloc, SUPERVOXELS)?;
    files.push(file_of(alloc, &[], "supervoxels.csv", table)?)?;
    let edges = Vec::from_slice(alloc, EDGES)?;
    files.push(file_of(alloc, &[], "edges.csv", edges)?)?;
    for client in 0..clients {
        let name = name_of(alloc, client, ".req")?;
        files.push(file_of(alloc, &[], name.as_str(), spelled(alloc, MERGE)?)?)?;
    }
    Ok(files)
}

/// The words of a job of so many clients.
fn words_for(alloc: Global, clients: u32) -> Result<String, Fail> {
    let mut words = String::from_str(
        alloc,
        "rehearse --bits 8 --grid 2,1,1 --supervoxels supervoxels.csv --edges edges.csv --merge-affinity 1 --clock 1000,10",
    )?;
    for client in 0..clients {
        words.push_str(" ")?;
        words.push_str(name_of(alloc, client, "")?.as_str())?;
    }
    Ok(words)
}

/// Whether the first of so many clients merged, and the others found the roots merged.
fn first_merged(alloc: Global, place: &MemPlace, clients: u32) -> Result<bool, Fail> {
    for client in 0..clients {
        let want = spelled(alloc, if client == 0 { REPLY } else { SAME })?;
        let name = name_of(alloc, client, ".ans")?;
        if place.bytes_at(name.as_str()).unwrap_or(b"") != want.as_slice() {
            return Ok(false);
        }
    }
    Ok(true)
}

/// Whether a job of so many clients ends with this status, and prints just this text.
fn ends_for(alloc: Global, clients: u32, status: u8, out: &[u8]) -> Result<bool, Fail> {
    let words = words_for(alloc, clients)?;
    let place = MemPlace::new(alloc, files_for(alloc, clients)?, 65536, 65536)?;
    let sink = MemSink::new(alloc, 65536, 65536, Vec::new(alloc))?;
    let ran = call(alloc, words.as_str(), place, sink)?;
    let answered = status != 0 || first_merged(alloc, &ran.place, clients)?;
    Ok(answered && ran.status == status && ran.out.bytes() == out)
}

#[test]
fn the_most_clients(rt: HostRuntime) -> Result<(), Fail> {
    let mut out = spelled(rt.alloc(), INGEST)?;
    out.extend_from_slice(spelled(rt.alloc(), MERGED)?.as_slice())?;
    out.extend_from_slice(
        b"{\"accepted\":1,\"clients\":64,\"entries\":2,\"faults\":[],\"lines\":64,\"records\":34,\"refused\":63,\"roots\":1,\"status\":0}\n",
    )?;
    assert!(rt; ends_for(rt.alloc(), 64, 0, out.as_slice())?);
    assert!(rt; ends_for(rt.alloc(), 65, 1, b"{\"fault\":\"BadWords\"}\n")?);
    Ok(())
}
