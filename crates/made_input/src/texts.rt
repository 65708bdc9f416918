//! Tables and requests as texts.

ghost use Rattle.std.specs.Prelude.{◌≡◌, ◌≤◌, ◌<◌, ◌++◌, ◌∷◌, [], map, IfOk, OnOk, decimal};
ghost use Rattle.std.specs.List.{All};
ghost use Rattle.made_input.specs.Edges.{IsMade, IsWish, supervoxel};
ghost use Rattle.made_input.specs.Rows.{record_text, table_text};
ghost use Rattle.made_input.specs.Texts.{edge_fields, edge_header, id_text, merge_line, path_line, root_line, split_line, supervoxel_rows, undo_line};

use crate::edges::{MadeEdge, chunks, supervoxel};
use crate::wish::Wish;
use pcg_base::NoMemory;
use std::alloc::Global;

/// Puts bytes behind a text.
fn put(text: &mut Vec<u8>, piece: &[u8]) -> Result<(), NoMemory>
    ensures { OnOk result (text.new.items ≡ text.old.items ++ piece.now) }
{
    match text.extend_from_slice(piece) {
        Ok(()) => Ok(()),
        Err(_) => Err(NoMemory),
    }
}

/// Puts a number's digits behind a text.
fn put_number(text: &mut Vec<u8>, n: u64) -> Result<(), NoMemory>
    ensures { OnOk result (text.new.items ≡ text.old.items ++ decimal n) }
{
    let mut digits = itoa::Buffer::new();
    put(text, digits.format(n).as_bytes())
}

/// Puts the digits of a supervoxel's id behind a text.
fn put_id(wish: &Wish, k: u32, text: &mut Vec<u8>) -> Result<(), NoMemory>
    requires fits { IsWish wish.now }
    requires there { k < wish.now.size }
    ensures { OnOk result (text.new.items ≡ text.old.items ++ id_text wish.now k) }
{
    put_number(text, supervoxel(wish, k).0)
}

/// Puts the record of the supervoxel with a number behind a text.
#[tactic(auto, unfolding(crate::specs::Rows::more_fields))]
pub fn put_supervoxel(wish: &Wish, k: u32, text: &mut Vec<u8>) -> Result<(), NoMemory>
    requires fits { IsWish wish.now }
    requires there { k < wish.now.size }
    ensures { OnOk result (text.new.items ≡ text.old.items ++ record_text (id_text wish.now k ∷ [])) }
{
    put_id(wish, k, text)?;
    put(text, b"\n")?;
    Ok(())
}

/// Puts the record of an edge behind a text.
#[tactic(auto, unfolding(crate::specs::Texts::edge_fields, crate::specs::Rows::more_fields))]
pub fn put_edge(wish: &Wish, edge: &MadeEdge, text: &mut Vec<u8>) -> Result<(), NoMemory>
    requires fits { IsWish wish.now }
    requires a { edge.now.a < wish.now.size }
    requires b { edge.now.b < wish.now.size }
    ensures { OnOk result (text.new.items ≡ text.old.items ++ record_text (edge_fields wish.now edge.now)) }
{
    put_id(wish, edge.a, text)?;
    put(text, b",")?;
    put_id(wish, edge.b, text)?;
    put(text, b",")?;
    put_number(text, edge.affinity as u64)?;
    put(text, if edge.active { b",1\n" } else { b",0\n" })?;
    Ok(())
}

/// The supervoxel table.
pub(crate) fn supervoxel_table(alloc: Global, wish: &Wish) -> Result<Vec<u8>, NoMemory>
    requires { IsWish wish.now }
    ensures { IfOk result (λ text. text.items ≡ table_text (supervoxel_rows wish.now)) }
{
    let mut text = Vec::new(alloc);
    put(&mut text, b"supervoxel\n")?;
    for k in 0..wish.size {
        put_supervoxel(wish, k, &mut text)?;
    }
    Ok(text)
}

/// The edge table of these edges.
pub(crate) fn edge_table(
    alloc: Global,
    wish: &Wish,
    edges: &[MadeEdge],
) -> Result<Vec<u8>, NoMemory>
    requires fits { IsWish wish.now }
    requires made { All (IsMade wish.now) edges.now }
    ensures { IfOk result (λ text. text.items ≡ table_text (edge_header ∷ map (edge_fields wish.now) edges.now)) }
{
    let mut text = Vec::new(alloc);
    put(&mut text, b"a,b,affinity,active\n")?;
    for edge in edges {
        put_edge(wish, edge, &mut text)?;
    }
    Ok(text)
}

/// Puts a request for a root behind a text.
pub(crate) fn put_root(wish: &Wish, u: u32, text: &mut Vec<u8>) -> Result<(), NoMemory>
    requires fits { IsWish wish.now }
    requires there { u < wish.now.size }
    ensures { OnOk result (text.new.items ≡ text.old.items ++ root_line wish.now u) }
{
    put(text, b"{\"do\":\"root\",\"sv\":\"")?;
    put_id(wish, u, text)?;
    put(text, b"\"}\n")?;
    Ok(())
}

/// Puts a request for a path behind a text.
pub(crate) fn put_path(wish: &Wish, u: u32, text: &mut Vec<u8>) -> Result<(), NoMemory>
    requires fits { IsWish wish.now }
    requires there { u < wish.now.size }
    ensures { OnOk result (text.new.items ≡ text.old.items ++ path_line wish.now u) }
{
    put(text, b"{\"do\":\"path\",\"sv\":\"")?;
    put_id(wish, u, text)?;
    put(text, b"\"}\n")?;
    Ok(())
}

/// Puts a merge behind a text.
pub(crate) fn put_merge(wish: &Wish, u: u32, v: u32, text: &mut Vec<u8>) -> Result<(), NoMemory>
    requires fits { IsWish wish.now }
    requires u { u < wish.now.size }
    requires v { v < wish.now.size }
    ensures { OnOk result (text.new.items ≡ text.old.items ++ merge_line wish.now u v) }
{
    put(text, b"{\"a\":\"")?;
    put_id(wish, u, text)?;
    put(text, b"\",\"b\":\"")?;
    put_id(wish, v, text)?;
    put(text, b"\",\"do\":\"merge\"}\n")?;
    Ok(())
}

/// Puts a split of a supervoxel from the next one in its chunk behind a text.
pub(crate) fn put_split(wish: &Wish, u: u32, text: &mut Vec<u8>) -> Result<(), NoMemory>
    requires fits { IsWish wish.now }
    requires there { u < wish.now.size }
    ensures { OnOk result (text.new.items ≡ text.old.items ++ split_line wish.now u) }
{
    let sink = ((u as u64 + chunks(wish)) % wish.size as u64) as u32;
    put(text, b"{\"do\":\"split\",\"sinks\":[\"")?;
    put_id(wish, sink, text)?;
    put(text, b"\"],\"sources\":[\"")?;
    put_id(wish, u, text)?;
    put(text, b"\"]}\n")?;
    Ok(())
}

/// Puts an undo behind a text.
pub(crate) fn put_undo(op: u64, text: &mut Vec<u8>) -> Result<(), NoMemory>
    ensures { OnOk result (text.new.items ≡ text.old.items ++ undo_line op) }
{
    put(text, b"{\"do\":\"undo\",\"op\":")?;
    put_number(text, op)?;
    put(text, b"}\n")?;
    Ok(())
}
