//! Lines of a stream that are of other forms than a request has.

use crate::calls::{Outside, call, ends_so, usual};
use std::alloc::Global;
use std::test::Fail;

/// The lines behind a line of brackets: one that ends by a carriage return too, ids in other forms,
/// and a mark that is no id.
const LINES: &[u8] =
    b"\n{\"do\":\"root\",\"sv\":\"72057594037927937\"}\r\n{\"do\":\"root\",\"sv\":72057594037927937}\n{\"do\":\"root\",\"sv\":\"007\"}\n{\"do\":\"root\",\"sv\":1.5}\n{\"do\":\"root\",\"sv\":-1}\n{\"do\":\"split\",\"sources\":[true],\"sinks\":[\"72339069014638594\"]}\n";

const REPLIES: &[u8] =
    b"{\"ok\":false,\"refusal\":\"NotJson\"}\n{\"ok\":false,\"refusal\":\"NotJson\"}\n{\"ok\":false,\"refusal\":\"NotJson\"}\n{\"ok\":true,\"root\":\"216172782113783809\",\"seen\":1}\n{\"ok\":true,\"root\":\"216172782113783809\",\"seen\":1}\n{\"name\":\"sv\",\"ok\":false,\"refusal\":\"BadField\"}\n{\"name\":\"sv\",\"ok\":false,\"refusal\":\"BadField\"}\n{\"name\":\"sv\",\"ok\":false,\"refusal\":\"BadField\"}\n{\"name\":\"sources\",\"ok\":false,\"refusal\":\"BadField\"}\n";

/// Puts a byte so many times.
fn put_many(text: &mut Vec<u8>, byte: u8, count: u32) -> Result<(), Fail> {
    for _ in 0..count {
        text.push(byte)?;
    }
    Ok(())
}

/// An empty line, one that isn't UTF-8, one of 200 levels, and the lines above.
fn lines_of(alloc: Global) -> Result<Vec<u8>, Fail> {
    let mut requests = Vec::from_slice(alloc, b"\n\xff\n")?;
    put_many(&mut requests, b'[', 200)?;
    put_many(&mut requests, b']', 200)?;
    requests.extend_from_slice(LINES)?;
    Ok(requests)
}

#[test]
fn lines_of_other_forms(rt: HostRuntime) -> Result<(), Fail> {
    let requests = lines_of(rt.alloc())?;
    let outside = Outside {
        requests: requests.as_slice(),
        ..usual()
    };
    let ran = call(rt.alloc(), &outside)?;
    let summary =
        b"{\"accepted\":0,\"clients\":1,\"entries\":1,\"faults\":[],\"lines\":9,\"records\":24,\"refused\":7,\"roots\":2,\"status\":0}\n";
    assert!(rt; ends_so(&ran, 0, REPLIES, summary));
    Ok(())
}
