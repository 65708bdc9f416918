//! What sentences say of files, records and words.

/// What is wrong with a file that a call could not begin with.
pub fn file_text(fault: &str, file: &[u8]) -> &'static [u8] {
    match fault {
        "ReadFault" if file == b"requests".as_slice() => b": this file can't be opened",
        "ReadFault" => b": this file can't be opened or read",
        "WriteFault" if file == b"answers".as_slice() => b": this file can't be opened for writing",
        "WriteFault" => b": this file can't be opened for writing, or a write to it failed",
        _ => b": this file has more than 1073741824 bytes",
    }
}

/// What ended a client's session.
pub fn session_text(fault: &str) -> &'static [u8] {
    match fault {
        "ReadFault" => b": a read of this file failed; the lines before it are answered",
        "WriteFault" => b": a write to this file failed; it lacks the replies from there on",
        _ =>
            b": this file has more than 1073741824 bytes; the lines that end within them are answered",
    }
}

/// What is wrong with a record of a table.
pub fn cause_text(cause: &str) -> &'static [u8] {
    match cause {
        "FieldCount" => b": it has more or fewer fields than the header",
        "BadId" => b": an id isn't decimal digits of a number below 2^64, without a leading zero",
        "WrongLayer" => b": the layer of its id isn't 1",
        "OutsideGrid" => b": the chunk of its id isn't in the grid",
        "ZeroSegment" => b": the segment of its id is 0",
        "DoubleSupervoxel" => b": an earlier record has the same id",
        "UnknownEnd" => b": an end of the edge isn't in the supervoxel table",
        "SelfEdge" => b": both ends of the edge are one supervoxel",
        "DoubleEdge" => b": an earlier record has the same two ends",
        "BadAffinity" =>
            b": the affinity is neither a number from 1 to 4294967295 nor the word glue",
        "BadActive" => b": the state is neither 1 nor 0",
        "GlueInactive" => b": an edge of glue has the state 0, and may only have 1",
        _ => b": it has a fault",
    }
}

/// What the header of a table has to be.
pub fn header_text(table: &[u8]) -> &'static [u8] {
    if table == b"edges".as_slice() {
        return b": the first record has to be the header a,b,affinity,active";
    }
    b": the first record has to be the header supervoxel"
}
