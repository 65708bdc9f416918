//! The texts of replies and of log entries, and sinks that fail.

use memory_devices::MemSink;
use node_ids::NodeId;
use op_model::{
    Asked, AskedPair, AskedPairs, Carries, Carry, Changed, ChangedPairs, Edit, Entry, Ids, Kind,
    Pair, Pairs, Refusal, Reply, Shown, Summaries, Summary,
};
use pcg_base::Failed;
use request_lines::{write_entry, write_reply};
use std::alloc::{AllocError, Global};

const P: u64 = 72057594037927937;

const Q: u64 = 72057594037927938;

const R: u64 = 72339069014638593;

const S: u64 = 72339069014638594;

fn ids(alloc: Global, numbers: &[u64]) -> Result<Ids, AllocError> {
    let mut list = Vec::new(alloc);
    for n in numbers {
        list.push(NodeId(*n)).map_err(|_| AllocError)?;
    }
    Ok(Ids { list })
}

/// Whether a reply is written with this text, in pieces of at most seven bytes.
pub fn writes(alloc: Global, reply: &Reply, text: &str) -> bool {
    let Ok(mut sink) = MemSink::new(alloc, 7, 1000, Vec::new(alloc)) else {
        return false;
    };
    write_reply(reply, &mut sink).is_ok() && sink.bytes() == text.as_bytes()
}

/// Whether an entry is written with this text, in pieces of at most seven bytes.
pub fn logs(alloc: Global, entry: &Entry, text: &str) -> bool {
    let Ok(mut sink) = MemSink::new(alloc, 7, 1000, Vec::new(alloc)) else {
        return false;
    };
    write_entry(entry, &mut sink).is_ok() && sink.bytes() == text.as_bytes()
}

#[test]
fn refusals(rt: HostRuntime) {
    let root = NodeId(216172782113783809);
    let (source, sink) = (NodeId(P), NodeId(Q));
    for (refusal, text) in [
        (
            Refusal::NoPairs,
            "{\"ok\":false,\"refusal\":\"NoPairs\",\"seen\":1}\n",
        ),
        (
            Refusal::Overtaken { by: 2 },
            "{\"by\":2,\"ok\":false,\"refusal\":\"Overtaken\",\"seen\":1}\n",
        ),
        (
            Refusal::NoSuchOp { op: 9 },
            "{\"ok\":false,\"op\":9,\"refusal\":\"NoSuchOp\",\"seen\":1}\n",
        ),
        (
            Refusal::SameRoot { root },
            "{\"ok\":false,\"refusal\":\"SameRoot\",\"root\":\"216172782113783809\",\"seen\":1}\n",
        ),
        (
            Refusal::Glued { source, sink },
            "{\"ok\":false,\"refusal\":\"Glued\",\"seen\":1,\"sink\":\"72057594037927938\",\"source\":\"72057594037927937\"}\n",
        ),
        (
            Refusal::IdsSpent {
                layer: 2,
                x: 0,
                y: 1,
                z: 3,
            },
            "{\"layer\":2,\"ok\":false,\"refusal\":\"IdsSpent\",\"seen\":1,\"x\":0,\"y\":1,\"z\":3}\n",
        ),
    ] {
        let reply = Reply::Refused { refusal, seen: 1 };
        assert!(rt; writes(rt.alloc(), &reply, text), "{text}");
    }
}

fn carry(from: u64, to: u64, amount: u64) -> Carry {
    Carry {
        from: NodeId(from),
        to: NodeId(to),
        amount,
    }
}

#[test]
fn changes(rt: HostRuntime) -> Result<(), AllocError> {
    let alloc = rt.alloc();
    let ingest = Summary {
        op: 0,
        at: 1000,
        kind: Kind::Ingest,
    };
    let ops = Summaries {
        list: vec![in alloc; ingest]?,
    };
    let reply = Reply::Changes { ops, seen: 3 };
    let text = "{\"changes\":[{\"at\":1000,\"do\":\"ingest\",\"op\":0}],\"ok\":true,\"seen\":3}\n";
    assert!(rt; writes(alloc, &reply, text));
    Ok(())
}

#[test]
fn a_split(rt: HostRuntime) -> Result<(), AllocError> {
    let alloc = rt.alloc();
    let pair = Pair {
        a: NodeId(R),
        b: NodeId(S),
    };
    let split = Reply::Edited {
        op: 2,
        at: 1020,
        retired: ids(alloc, &[216172782113783811])?,
        made: ids(alloc, &[216172782113783812, 216172782113783813])?,
        shown: Some(Shown {
            cut: Pairs {
                list: vec![in alloc; pair]?,
            },
            total: 5,
            flow: Carries {
                list: vec![in alloc; carry(P, Q, 5), carry(Q, R, 5)]?,
            },
        }),
        seen: 3,
    };
    assert!(rt;
        writes(
            alloc,
            &split,
            "{\"at\":1020,\"cut\":[[\"72339069014638593\",\"72339069014638594\"]],\"flow\":[[\"72057594037927937\",\"72057594037927938\",5],[\"72057594037927938\",\"72339069014638593\",5]],\"made\":[\"216172782113783812\",\"216172782113783813\"],\"ok\":true,\"op\":2,\"retired\":[\"216172782113783811\"],\"seen\":3,\"total\":5}\n"
        )
    );
    Ok(())
}

#[test]
fn an_entry(rt: HostRuntime) -> Result<(), AllocError> {
    let alloc = rt.alloc();
    let asked = AskedPair {
        a: NodeId(R),
        b: NodeId(S),
    };
    let pair = Pair {
        a: NodeId(R),
        b: NodeId(S),
    };
    let merge = Entry {
        number: 1,
        client: 1,
        line: 2,
        at: 1010,
        asked: Asked::Edit(Edit::Merge {
            pairs: AskedPairs {
                list: vec![in alloc; asked]?,
            },
        }),
        changed: ChangedPairs {
            list: vec![in alloc; Changed { pair, active: true }]?,
        },
        retired: ids(alloc, &[216172782113783809, 216172782113783810])?,
        made: ids(alloc, &[216172782113783811])?,
    };
    assert!(rt;
        logs(
            alloc,
            &merge,
            "{\"at\":1010,\"changed\":[[\"72339069014638593\",\"72339069014638594\",true]],\"client\":1,\"line\":2,\"made\":[\"216172782113783811\"],\"op\":1,\"request\":{\"a\":\"72339069014638593\",\"b\":\"72339069014638594\",\"do\":\"merge\"},\"retired\":[\"216172782113783809\",\"216172782113783810\"]}\n"
        )
    );
    Ok(())
}

/// Whether a reply of more than a page leaves the first page in a sink whose second write fails.
fn leaves_a_page(alloc: Global, fails: Vec<u32>, reply: &Reply) -> bool {
    let Ok(mut sink) = MemSink::new(alloc, 10000, 100000, fails) else {
        return false;
    };
    write_reply(reply, &mut sink) == Err(Failed)
        && sink.bytes().len() == 8192
        && sink
            .bytes()
            .starts_with(b"{\"leaves\":[\"72057594037927937\",\"")
        && sink.faults() == 1
}

#[test]
fn a_failed_write_leaves_a_front(rt: HostRuntime) -> Result<(), AllocError> {
    let alloc = rt.alloc();
    let reply = Reply::Leaves {
        leaves: ids(alloc, &[P; 1000])?,
        seen: 1,
    };
    assert!(rt; leaves_a_page(alloc, vec![in alloc; 2]?, &reply));
    Ok(())
}

/// Whether of two replies the second is answered `Failed` and counted, though it was written whole.
fn answers_a_failed_flush(alloc: Global, flush_fails: Vec<u32>) -> bool {
    let Ok(mut sink) = MemSink::with_flush_fails(alloc, 7, 1000, Vec::new(alloc), flush_fails)
    else {
        return false;
    };
    write_reply(&Reply::NoMemory, &mut sink).is_ok()
        && write_reply(&Reply::NoMemory, &mut sink) == Err(Failed)
        && sink.faults() == 1
        && sink.bytes()
            == b"{\"ok\":false,\"refusal\":\"NoMemory\"}\n{\"ok\":false,\"refusal\":\"NoMemory\"}\n".as_slice()
}

#[test]
fn a_failed_flush_is_answered(rt: HostRuntime) -> Result<(), AllocError> {
    let alloc = rt.alloc();
    assert!(rt; answers_a_failed_flush(alloc, vec![in alloc; 2]?));
    Ok(())
}
