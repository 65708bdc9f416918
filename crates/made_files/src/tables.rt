//! The tables and streams, piece by piece.

ghost use Rattle.std.specs.Prelude.{◌≡◌, ◌∷◌, IfOk, OnErr, OnOk, map};
ghost use Rattle.std.specs.List.{All};
ghost use Rattle.request_lines.specs.Sent.{Puts};
ghost use Rattle.made_input.specs.Edges.{IsMade, IsWish};
ghost use Rattle.made_input.specs.Rows.{table_text};
ghost use Rattle.made_input.specs.Texts.{edge_fields, edge_header, stream_of, supervoxel_rows};
ghost use Rattle.made_files.specs.Writing.{PutsFront};

use crate::pieces::Pieces;
use made_input::{MadeEdge, Wish, put_edge, put_line, put_supervoxel};
use pcg_base::{NoMemory, Sink};
use request_lines::Page;

/// The supervoxel table of a wish.
#[derive(Clone, Copy)]
pub struct SupervoxelTable<'a> {
    /// What is wished for.
    pub wish: &'a Wish,
}

impl Pieces for SupervoxelTable<'_> {
    ghost use Rattle.made_input.specs.Edges.{IsWish};
    ghost use Rattle.made_input.specs.Rows.{table_text};
    ghost use Rattle.made_input.specs.Texts.{supervoxel_rows};

    ghost fits = { λ t. IsWish t.wish.now };

    ghost text = { λ t. table_text (supervoxel_rows t.wish.now) };

    ghost state = { λ t. 0 };

    fn put_on<K: Sink>(
        &self,
        piece: &mut Vec<u8>,
        page: &mut Page,
        out: &mut K,
    ) -> Result<u64, NoMemory> {
        put_supervoxels(self.wish, piece, page, out)?;
        Ok(0)
    }
}

/// Puts the supervoxel table on a page, record by record.
fn put_supervoxels<K: Sink>(
    wish: &Wish,
    piece: &mut Vec<u8>,
    page: &mut Page,
    out: &mut K,
) -> Result<(), NoMemory>
    requires { IsWish wish.now }
    ensures text { OnOk result
        (Puts (K.state out.old) (K.state out.new) page.old page.new
        (table_text (supervoxel_rows wish.now))) }
    ensures front { OnErr result
        (PutsFront (K.state out.old) (K.state out.new) page.old page.new
        (table_text (supervoxel_rows wish.now))) }
{
    page.put(out, b"supervoxel\n");
    for k in 0..wish.size {
        piece.clear();
        put_supervoxel(wish, k, piece)?;
        page.put(out, piece.as_slice());
    }
    Ok(())
}

/// The edge table of a wish, of all its edges.
#[derive(Clone, Copy)]
pub struct EdgeTable<'a> {
    /// What is wished for.
    pub wish: &'a Wish,
    /// The edges.
    pub edges: &'a [MadeEdge],
}

impl Pieces for EdgeTable<'_> {
    ghost use Rattle.std.specs.Prelude.{◌∷◌, map};
    ghost use Rattle.std.specs.List.{All};
    ghost use Rattle.made_input.specs.Edges.{IsMade, IsWish};
    ghost use Rattle.made_input.specs.Rows.{table_text};
    ghost use Rattle.made_input.specs.Texts.{edge_fields, edge_header};

    ghost fits = { λ t. IsWish t.wish.now × All (IsMade t.wish.now) t.edges.now };

    ghost text = { λ t. table_text (edge_header ∷ map (edge_fields t.wish.now) t.edges.now) };

    ghost state = { λ t. 0 };

    fn put_on<K: Sink>(
        &self,
        piece: &mut Vec<u8>,
        page: &mut Page,
        out: &mut K,
    ) -> Result<u64, NoMemory> {
        put_edges(self.wish, self.edges, piece, page, out)?;
        Ok(0)
    }
}

/// Puts the edge table on a page, record by record.
fn put_edges<K: Sink>(
    wish: &Wish,
    edges: &[MadeEdge],
    piece: &mut Vec<u8>,
    page: &mut Page,
    out: &mut K,
) -> Result<(), NoMemory>
    requires fits { IsWish wish.now }
    requires made { All (IsMade wish.now) edges.now }
    ensures text { OnOk result
        (Puts (K.state out.old) (K.state out.new) page.old page.new
        (table_text (edge_header ∷ map (edge_fields wish.now) edges.now))) }
    ensures front { OnErr result
        (PutsFront (K.state out.old) (K.state out.new) page.old page.new
        (table_text (edge_header ∷ map (edge_fields wish.now) edges.now))) }
{
    page.put(out, b"a,b,affinity,active\n");
    for edge in edges {
        piece.clear();
        put_edge(wish, edge, piece)?;
        page.put(out, piece.as_slice());
    }
    Ok(())
}

/// The request stream of a client, which begins at a state.
#[derive(Clone, Copy)]
pub struct RequestStream<'a> {
    /// What is wished for.
    pub wish: &'a Wish,
    /// The state at which it begins.
    pub from: u64,
}

impl Pieces for RequestStream<'_> {
    ghost use Rattle.made_input.specs.Edges.{IsWish};
    ghost use Rattle.made_input.specs.Texts.{stream_of};

    ghost fits = { λ t. IsWish t.wish.now };

    ghost text = { λ t. (stream_of t.wish.now t.from t.wish.now.requests).0 };

    ghost state = { λ t. (stream_of t.wish.now t.from t.wish.now.requests).1 };

    fn put_on<K: Sink>(
        &self,
        piece: &mut Vec<u8>,
        page: &mut Page,
        out: &mut K,
    ) -> Result<u64, NoMemory> {
        put_stream(self.wish, self.from, piece, page, out)
    }
}

/// Puts a request stream on a page, line by line. Answers the state behind it.
fn put_stream<K: Sink>(
    wish: &Wish,
    from: u64,
    piece: &mut Vec<u8>,
    page: &mut Page,
    out: &mut K,
) -> Result<u64, NoMemory>
    requires { IsWish wish.now }
    ensures text { OnOk result
        (Puts (K.state out.old) (K.state out.new) page.old page.new
        (stream_of wish.now from wish.now.requests).0) }
    ensures state { IfOk result (λ s. s ≡ (stream_of wish.now from wish.now.requests).1) }
    ensures front { OnErr result
        (PutsFront (K.state out.old) (K.state out.new) page.old page.new
        (stream_of wish.now from wish.now.requests).0) }
{
    let mut state = from;
    for j in 0..wish.requests {
        piece.clear();
        state = put_line(wish, j + 1, state, piece)?;
        page.put(out, piece.as_slice());
    }
    Ok(state)
}
