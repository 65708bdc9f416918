//! Refusals, behind which the log, its records, the locks and the turn are as before: each session is
//! played with the refused line and without it.

use crate::cores::{Session, alone};
use crate::playing::{gives, refuses};
use crate::texts::repeated;
use pcg_base::Ticks;
use std::alloc::Global;
use std::test::Fail;

/// A line that is refused behind others, and its reply.
struct Refused {
    before: &'static str,
    line: &'static str,
    reply: &'static str,
}

/// Whether these lines are refused over the usual tables.
fn refuses_each(alloc: Global, rows: &[Refused]) -> Result<bool, Fail> {
    for row in rows {
        if !refuses(alloc, &alone(row.before), row.line, row.reply)? {
            return Ok(false);
        }
    }
    Ok(true)
}

const MERGE: &str = "{\"do\":\"merge\",\"a\":\"`r`\",\"b\":\"`s`\"}\n";

/// Edits, reads and lines that are refused, each for its first cause.
const REFUSED: [Refused; 20] = [
    Refused {
        before: "",
        line: "{\"do\":\"merge\",\"a\":\"`p`\",\"b\":\"`q`\"}",
        reply: "{\"ok\":false,\"refusal\":\"SameRoot\",\"root\":\"`809`\",\"seen\":1}",
    },
    Refused {
        before: "",
        line: "{\"do\":\"merge\",\"a\":\"`p`\",\"b\":\"`p`\"}",
        reply: "{\"ok\":false,\"refusal\":\"SameRoot\",\"root\":\"`809`\",\"seen\":1}",
    },
    Refused {
        before: "",
        line: "{\"do\":\"merge\",\"pairs\":[[\"`r`\",\"`s`\"],[\"`p`\",\"`q`\"]]}",
        reply: "{\"ok\":false,\"refusal\":\"SameRoot\",\"root\":\"`809`\",\"seen\":1}",
    },
    Refused {
        before: "",
        line: "{\"do\":\"merge\",\"pairs\":[]}",
        reply: "{\"ok\":false,\"refusal\":\"NoPairs\",\"seen\":1}",
    },
    Refused {
        before: "",
        line: "{\"do\":\"split\",\"sources\":[\"`p`\"],\"sinks\":[\"`p`\"]}",
        reply: "{\"id\":\"`p`\",\"ok\":false,\"refusal\":\"BothSides\",\"seen\":1}",
    },
    Refused {
        before: "",
        line: "{\"do\":\"split\",\"sources\":[\"`p`\"],\"sinks\":[\"`p`\",\"5\"]}",
        reply: "{\"id\":\"5\",\"ok\":false,\"refusal\":\"NoSuchSupervoxel\",\"seen\":1}",
    },
    Refused {
        before: "",
        line: "{\"do\":\"split\",\"sources\":[\"`p`\"],\"sinks\":[\"`s`\"]}",
        reply: "{\"first\":\"`809`\",\"ok\":false,\"other\":\"`810`\",\"refusal\":\"DifferentRoots\",\"seen\":1}",
    },
    Refused {
        before: "",
        line: "{\"do\":\"split\",\"sources\":[\"`p`\"],\"sinks\":[]}",
        reply: "{\"ok\":false,\"refusal\":\"NoMarks\",\"seen\":1}",
    },
    Refused {
        before: "",
        line: "{\"do\":\"leaves\",\"root\":\"`p`\"}",
        reply: "{\"id\":\"`p`\",\"ok\":false,\"refusal\":\"NotARoot\",\"seen\":1}",
    },
    Refused {
        before: "",
        line: "{\"do\":\"leaves\",\"root\":\"`899`\"}",
        reply: "{\"id\":\"`899`\",\"ok\":false,\"refusal\":\"NoSuchRoot\",\"seen\":1}",
    },
    Refused {
        before: "",
        line: "{\"do\":\"undo\",\"op\":9}",
        reply: "{\"ok\":false,\"op\":9,\"refusal\":\"NoSuchOp\",\"seen\":1}",
    },
    Refused {
        before: "",
        line: "{\"do\":\"undo\",\"op\":0}",
        reply: "{\"ok\":false,\"op\":0,\"refusal\":\"NotAnEdit\",\"seen\":1}",
    },
    Refused {
        before: "",
        line: "{",
        reply: "{\"ok\":false,\"refusal\":\"NotJson\"}",
    },
    Refused {
        before: "",
        line: "[1]",
        reply: "{\"ok\":false,\"refusal\":\"NotObject\"}",
    },
    Refused {
        before: "",
        line: "{\"do\":\"fly\"}",
        reply: "{\"ok\":false,\"refusal\":\"NoSuchCommand\"}",
    },
    Refused {
        before: "",
        line: "{\"do\":\"root\"}",
        reply: "{\"name\":\"sv\",\"ok\":false,\"refusal\":\"MissingField\"}",
    },
    Refused {
        before: "",
        line: "{\"do\":\"root\",\"sv\":true}",
        reply: "{\"name\":\"sv\",\"ok\":false,\"refusal\":\"BadField\"}",
    },
    Refused {
        before: MERGE,
        line: "{\"do\":\"redo\",\"op\":1}",
        reply: "{\"ok\":false,\"op\":1,\"refusal\":\"InForce\",\"seen\":2}",
    },
    Refused {
        before: "{\"do\":\"merge\",\"a\":\"`r`\",\"b\":\"`s`\"}\n{\"do\":\"undo\",\"op\":1}\n",
        line: "{\"do\":\"undo\",\"op\":1}",
        reply: "{\"ok\":false,\"op\":1,\"refusal\":\"NotInForce\",\"seen\":3}",
    },
    Refused {
        before: "{\"do\":\"merge\",\"a\":\"`r`\",\"b\":\"`s`\"}\n{\"do\":\"split\",\"sources\":[\"`p`\"],\"sinks\":[\"`s`\"]}\n",
        line: "{\"do\":\"undo\",\"op\":1}",
        reply: "{\"by\":2,\"ok\":false,\"refusal\":\"Overtaken\",\"seen\":3}",
    },
];

#[test]
fn lines_that_are_refused(rt: HostRuntime) -> Result<(), Fail> {
    assert!(rt; refuses_each(rt.alloc(), &REFUSED)?);
    Ok(())
}

/// A split with 65 times the source p, and a merge with 65 times one pair.
#[test]
fn too_much_is_asked(rt: HostRuntime) -> Result<(), Fail> {
    let alloc = rt.alloc();
    let mut line = String::from_str(alloc, "{\"do\":\"split\",\"sources\":[\"`p`\"")?;
    line.push_str(repeated(alloc, ",\"`p`\"", 64)?.as_str())?;
    line.push_str("],\"sinks\":[\"`q`\"]}\n{\"do\":\"merge\",\"pairs\":[[\"`r`\",\"`s`\"]")?;
    line.push_str(repeated(alloc, ",[\"`r`\",\"`s`\"]", 64)?.as_str())?;
    line.push_str("]}")?;
    let replies =
        "{\"count\":65,\"ok\":false,\"refusal\":\"TooManyMarks\",\"seen\":1}\n1 {\"count\":65,\"ok\":false,\"refusal\":\"TooManyPairs\",\"seen\":1}";
    assert!(rt; refuses(alloc, &alone(""), line.as_str(), replies)?);
    Ok(())
}

/// A walk of glue joins a source to a sink.
#[test]
fn marks_joined_by_glue(rt: HostRuntime) -> Result<(), Fail> {
    let session = Session {
        edges: "a,b,affinity,active\n72057594037927937,72057594037927938,glue,1\n72057594037927938,72339069014638593,7,1\n72339069014638593,72339069014638594,5,0\n",
        ..alone("")
    };
    let line = "{\"do\":\"split\",\"sources\":[\"`r`\",\"`p`\"],\"sinks\":[\"`q`\"]}";
    let reply =
        "{\"ok\":false,\"refusal\":\"Glued\",\"seen\":1,\"sink\":\"`q`\",\"source\":\"`p`\"}";
    assert!(rt; refuses(rt.alloc(), &session, line, reply)?);
    Ok(())
}

/// A split that needs one record more than there is, and an undo that fits.
#[test]
fn records_run_out(rt: HostRuntime) -> Result<(), Fail> {
    let session = Session {
        records: 46,
        ..alone(MERGE)
    };
    let full = "{\"need\":13,\"ok\":false,\"refusal\":\"StoreFull\",\"seen\":2,\"spare\":12}";
    assert!(rt;
        refuses(
            rt.alloc(),
            &session,
            "{\"do\":\"split\",\"sources\":[\"`p`\"],\"sinks\":[\"`s`\"]}",
            full
        )?
    );
    let session = Session {
        lines: [
            "{\"do\":\"merge\",\"a\":\"`r`\",\"b\":\"`s`\"}\n{\"do\":\"split\",\"sources\":[\"`p`\"],\"sinks\":[\"`s`\"]}\n{\"do\":\"undo\",\"op\":1}",
            "",
            "",
        ],
        ..session
    };
    let replies = concat!(
        "1 {\"at\":1010,\"made\":[\"`811`\"],\"ok\":true,\"op\":1,\"retired\":[\"`809`\",\"`810`\"],\"seen\":2}\n",
        "1 {\"need\":13,\"ok\":false,\"refusal\":\"StoreFull\",\"seen\":2,\"spare\":12}\n",
        "1 {\"at\":1020,\"made\":[\"`812`\",\"`813`\"],\"ok\":true,\"op\":2,\"retired\":[\"`811`\"],\"seen\":3}\n",
    );
    assert!(rt; gives(rt.alloc(), &session, "", replies)?);
    Ok(())
}

/// Two clients whose merges need one record more than there is.
#[test]
fn two_clients_without_room(rt: HostRuntime) -> Result<(), Fail> {
    let session = Session {
        records: 33,
        lines: [MERGE, MERGE, ""],
        ..alone("")
    };
    let replies =
        "1 {\"need\":10,\"ok\":false,\"refusal\":\"StoreFull\",\"seen\":1,\"spare\":9}\n2 {\"need\":10,\"ok\":false,\"refusal\":\"StoreFull\",\"seen\":1,\"spare\":9}\n";
    assert!(rt; gives(rt.alloc(), &session, "", replies)?);
    Ok(())
}

/// No time is left behind the greatest.
#[test]
fn the_clock_ends(rt: HostRuntime) -> Result<(), Fail> {
    let session = Session {
        clock: Ticks {
            start: 4611686018427387903,
            step: 0,
        },
        ..alone("")
    };
    let reply = "{\"last\":4611686018427387903,\"ok\":false,\"refusal\":\"ClockEnd\",\"seen\":1}";
    assert!(rt; refuses(rt.alloc(), &session, MERGE, reply)?);
    Ok(())
}

/// Undos and redos use up the numbers of a chunk's nodes up to 255. The undo behind them is refused,
/// and a root is still answered.
#[test]
fn ids_are_spent(rt: HostRuntime) -> Result<(), Fail> {
    let alloc = rt.alloc();
    let mut lines = String::from_str(
        alloc,
        "{\"do\":\"split\",\"sources\":[\"`p`\"],\"sinks\":[\"`q`\"]}\n",
    )?;
    lines.push_str(repeated(
        alloc,
        "{\"do\":\"undo\",\"op\":1}\n{\"do\":\"redo\",\"op\":1}\n",
        84,
    )?
    .as_str())?;
    let session = Session {
        bits: 16,
        wide: 1,
        records: 100000,
        supervoxels: "supervoxel\n72057594037927937\n72057594037927938\n",
        edges: "a,b,affinity,active\n72057594037927937,72057594037927938,1,1\n",
        ..alone(lines.as_str())
    };
    let line = "{\"do\":\"undo\",\"op\":1}\n{\"do\":\"root\",\"sv\":\"`p`\"}";
    let reply =
        "{\"layer\":2,\"ok\":false,\"refusal\":\"IdsSpent\",\"seen\":170,\"x\":0,\"y\":0,\"z\":0}\n1 {\"ok\":true,\"root\":\"144115188075856126\",\"seen\":170}";
    assert!(rt; refuses(alloc, &session, line, reply)?);
    Ok(())
}
