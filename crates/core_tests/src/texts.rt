//! Requests and replies with names for ids.

use std::alloc::Global;
use std::test::Fail;

/// Puts the digits of an id behind a text: `p` and `q` are supervoxels of the first base chunk, `r`,
/// `s` and `t` of the second, and three digits a root.
fn put_id(text: &mut Vec<u8>, name: &str) -> Result<(), Fail> {
    let digits = match name {
        "p" => "72057594037927937",
        "q" => "72057594037927938",
        "r" => "72339069014638593",
        "s" => "72339069014638594",
        "t" => "72339069014638595",
        _ => {
            text.extend_from_slice(b"216172782113783")?;
            name
        }
    };
    text.extend_from_slice(digits.as_bytes())?;
    Ok(())
}

/// A text whose ids, between backquotes, are written out.
pub fn spelled(alloc: Global, text: &str) -> Result<Vec<u8>, Fail> {
    let mut out = Vec::new(alloc);
    let mut named = false;
    for piece in text.split('`') {
        if named {
            put_id(&mut out, piece)?;
        } else {
            out.extend_from_slice(piece.as_bytes())?;
        }
        named = !named;
    }
    Ok(out)
}

/// So many times the same text.
pub fn repeated(alloc: Global, text: &str, count: usize) -> Result<String, Fail> {
    let mut all = String::new(alloc);
    for _ in 0..count {
        all.push_str(text)?;
    }
    Ok(all)
}
