//! The lines that answer what is refused.

ghost use Rattle.std.specs.Prelude.{◌≡◌, ◌++◌, codes, decimal};
ghost use Rattle.request_lines.specs.Sent.{Puts};
ghost use Rattle.request_lines.specs.Json.{id_text};
ghost use Rattle.request_lines.specs.Refused.{bad_line_text, bare, field_name, lacking, of_operation, plain, refused_text, telling};

use crate::page::Page;
use node_ids::NodeId;
use op_model::{FieldName, LineError, Refusal};
use pcg_base::Sink;

/// Puts a piece of text, the length of the log behind it, and the end of the line.
pub fn put_seen<K: Sink>(page: &mut Page, out: &mut K, piece: &[u8], seen: u32)
    ensures { Puts (K.state out.old) (K.state out.new) page.old page.new
        ((piece.now ++ decimal seen) ++ codes "}\n") }
{
    page.put_number(out, piece, seen as u64);
    page.put(out, b"}\n");
}

/// Puts a refusal without fields, at no log.
pub fn put_bare<K: Sink>(page: &mut Page, out: &mut K, name: &[u8])
    ensures { Puts (K.state out.old) (K.state out.new) page.old page.new (bare name.now) }
{
    page.put_word(out, b"{\"ok\":false,\"refusal\":", name);
    page.put(out, b"}\n");
}

/// Puts a refusal without fields.
fn put_plain<K: Sink>(page: &mut Page, out: &mut K, name: &[u8], seen: u32)
    ensures { Puts (K.state out.old) (K.state out.new) page.old page.new (plain name.now seen) }
{
    page.put_word(out, b"{\"ok\":false,\"refusal\":", name);
    put_seen(page, out, b",\"seen\":", seen);
}

/// Puts a refusal with one number, whose key stands before the others.
fn put_number<K: Sink>(
    page: &mut Page,
    out: &mut K,
    key: &[u8],
    number: u64,
    name: &[u8],
    seen: u32,
)
    ensures { Puts (K.state out.old) (K.state out.new) page.old page.new
        (telling key.now (decimal number) name.now seen) }
{
    page.put_word(out, b"{", key);
    page.put_number(out, b":", number);
    page.put_word(out, b",\"ok\":false,\"refusal\":", name);
    put_seen(page, out, b",\"seen\":", seen);
}

/// Puts a refusal that names an id.
fn put_id<K: Sink>(page: &mut Page, out: &mut K, id: NodeId, name: &[u8], seen: u32)
    ensures { Puts (K.state out.old) (K.state out.new) page.old page.new
        (telling (codes "id") (id_text id) name.now seen) }
{
    page.put_id(out, b"{\"id\":", id);
    page.put_word(out, b",\"ok\":false,\"refusal\":", name);
    put_seen(page, out, b",\"seen\":", seen);
}

/// Puts a refusal that names an operation.
fn put_op<K: Sink>(page: &mut Page, out: &mut K, op: u64, name: &[u8], seen: u32)
    ensures { Puts (K.state out.old) (K.state out.new) page.old page.new
        (of_operation op name.now seen) }
{
    page.put_number(out, b"{\"ok\":false,\"op\":", op);
    page.put_word(out, b",\"refusal\":", name);
    put_seen(page, out, b",\"seen\":", seen);
}

/// Puts the refusal of a merge whose ends have one root.
fn put_same_root<K: Sink>(page: &mut Page, out: &mut K, root: NodeId, seen: u32)
    ensures { Puts (K.state out.old) (K.state out.new) page.old page.new
        (refused_text (Refusal.SameRoot root) seen) }
{
    page.put_id(
        out,
        b"{\"ok\":false,\"refusal\":\"SameRoot\",\"root\":",
        root,
    );
    put_seen(page, out, b",\"seen\":", seen);
}

/// Puts the refusal of a split whose marks lie in several roots.
fn put_different_roots<K: Sink>(
    page: &mut Page,
    out: &mut K,
    first: NodeId,
    other: NodeId,
    seen: u32,
)
    ensures { Puts (K.state out.old) (K.state out.new) page.old page.new
        (refused_text (Refusal.DifferentRoots first other) seen) }
{
    page.put_id(out, b"{\"first\":", first);
    page.put_id(out, b",\"ok\":false,\"other\":", other);
    put_seen(
        page,
        out,
        b",\"refusal\":\"DifferentRoots\",\"seen\":",
        seen,
    );
}

/// Puts the refusal of a split whose marks are glued.
fn put_glued<K: Sink>(page: &mut Page, out: &mut K, source: NodeId, sink: NodeId, seen: u32)
    ensures { Puts (K.state out.old) (K.state out.new) page.old page.new
        (refused_text (Refusal.Glued source sink) seen) }
{
    page.put_number(
        out,
        b"{\"ok\":false,\"refusal\":\"Glued\",\"seen\":",
        seen as u64,
    );
    page.put_id(out, b",\"sink\":", sink);
    page.put_id(out, b",\"source\":", source);
    page.put(out, b"}\n");
}

/// Puts the refusal of an entry that needs more records than are spare.
fn put_store_full<K: Sink>(page: &mut Page, out: &mut K, need: u64, spare: u64, seen: u32)
    ensures { Puts (K.state out.old) (K.state out.new) page.old page.new
        (refused_text (Refusal.StoreFull need spare) seen) }
{
    page.put_number(out, b"{\"need\":", need);
    page.put_number(
        out,
        b",\"ok\":false,\"refusal\":\"StoreFull\",\"seen\":",
        seen as u64,
    );
    page.put_number(out, b",\"spare\":", spare);
    page.put(out, b"}\n");
}

/// Puts the refusal of an entry for which a chunk, whose place is x, y and z, has no numbers left.
fn put_ids_spent<K: Sink>(
    page: &mut Page,
    out: &mut K,
    layer: u8,
    place: (u32, u32, u32),
    seen: u32,
)
    ensures { Puts (K.state out.old) (K.state out.new) page.old page.new
        (refused_text (Refusal.IdsSpent layer place.0 place.1 place.2) seen) }
{
    page.put_number(out, b"{\"layer\":", layer as u64);
    page.put_number(
        out,
        b",\"ok\":false,\"refusal\":\"IdsSpent\",\"seen\":",
        seen as u64,
    );
    page.put_number(out, b",\"x\":", place.0 as u64);
    page.put_number(out, b",\"y\":", place.1 as u64);
    page.put_number(out, b",\"z\":", place.2 as u64);
    page.put(out, b"}\n");
}

/// Puts the answer to a request that is refused at a log of this length.
#[tactic(auto, unfolding(crate::specs::Refused::refused_text))]
pub fn put_refused<K: Sink>(page: &mut Page, out: &mut K, refusal: Refusal, seen: u32)
    ensures { Puts (K.state out.old) (K.state out.new) page.old page.new
        (refused_text refusal seen) }
{
    match refusal {
        Refusal::TooEarly { first } => put_number(page, out, b"first", first, b"TooEarly", seen),
        Refusal::Unpublished { latest } => put_number(
            page,
            out,
            b"latest",
            latest,
            b"Unpublished",
            seen,
        ),
        Refusal::NoSuchSupervoxel { id } => put_id(page, out, id, b"NoSuchSupervoxel", seen),
        Refusal::NotARoot { id } => put_id(page, out, id, b"NotARoot", seen),
        Refusal::NoSuchRoot { id } => put_id(page, out, id, b"NoSuchRoot", seen),
        Refusal::NoSuchOp { op } => put_op(page, out, op, b"NoSuchOp", seen),
        Refusal::NoPairs => put_plain(page, out, b"NoPairs", seen),
        Refusal::TooManyPairs { count } => put_number(
            page,
            out,
            b"count",
            count,
            b"TooManyPairs",
            seen,
        ),
        Refusal::NoMarks => put_plain(page, out, b"NoMarks", seen),
        Refusal::TooManyMarks { count } => put_number(
            page,
            out,
            b"count",
            count,
            b"TooManyMarks",
            seen,
        ),
        Refusal::BothSides { id } => put_id(page, out, id, b"BothSides", seen),
        Refusal::NotAnEdit { op } => put_op(page, out, op, b"NotAnEdit", seen),
        Refusal::NotInForce { op } => put_op(page, out, op, b"NotInForce", seen),
        Refusal::InForce { op } => put_op(page, out, op, b"InForce", seen),
        Refusal::Overtaken { by } => put_number(page, out, b"by", by as u64, b"Overtaken", seen),
        Refusal::SameRoot { root } => put_same_root(page, out, root, seen),
        Refusal::DifferentRoots { first, other } => put_different_roots(
            page, out, first, other, seen,
        ),
        Refusal::TooLarge { edges } => put_number(page, out, b"edges", edges, b"TooLarge", seen),
        Refusal::Glued { source, sink } => put_glued(page, out, source, sink, seen),
        Refusal::StoreFull { need, spare } => put_store_full(page, out, need, spare, seen),
        Refusal::IdsSpent { layer, x, y, z } => put_ids_spent(page, out, layer, (x, y, z), seen),
        Refusal::ClockEnd { last } => put_number(page, out, b"last", last, b"ClockEnd", seen),
        Refusal::NoMemory => put_bare(page, out, b"NoMemory"),
    }
}

/// The name of a field, which is its key in a line.
#[tactic(auto, unfolding(crate::specs::Refused::field_name))]
pub fn name_of(field: FieldName) -> &'static str
    ensures { result.now ≡ field_name field }
{
    match field {
        FieldName::Do => "do",
        FieldName::Sv => "sv",
        FieldName::At => "at",
        FieldName::Root => "root",
        FieldName::A => "a",
        FieldName::B => "b",
        FieldName::Sources => "sources",
        FieldName::Sinks => "sinks",
        FieldName::Op => "op",
        FieldName::Pairs => "pairs",
        FieldName::Low => "low",
        FieldName::High => "high",
    }
}

/// Puts the answer to a line one of whose fields has this fault.
fn put_field<K: Sink>(page: &mut Page, out: &mut K, field: FieldName, fault: &[u8])
    ensures { Puts (K.state out.old) (K.state out.new) page.old page.new (lacking field fault.now) }
{
    page.put_word(out, b"{\"name\":", name_of(field).as_bytes());
    page.put_word(out, b",\"ok\":false,\"refusal\":", fault);
    page.put(out, b"}\n");
}

/// Puts the answer to a line of too many bytes.
fn put_line_too_long<K: Sink>(page: &mut Page, out: &mut K, bytes: u64)
    ensures { Puts (K.state out.old) (K.state out.new) page.old page.new
        (bad_line_text (LineError.LineTooLong bytes)) }
{
    page.put_number(out, b"{\"bytes\":", bytes);
    page.put(out, b",\"ok\":false,\"refusal\":\"LineTooLong\"}\n");
}

/// Puts the answer to a line that is no request.
#[tactic(auto, unfolding(crate::specs::Refused::bad_line_text))]
pub fn put_bad_line<K: Sink>(page: &mut Page, out: &mut K, error: LineError)
    ensures { Puts (K.state out.old) (K.state out.new) page.old page.new (bad_line_text error) }
{
    match error {
        LineError::LineTooLong { bytes } => put_line_too_long(page, out, bytes),
        LineError::NotJson => put_bare(page, out, b"NotJson"),
        LineError::NotObject => put_bare(page, out, b"NotObject"),
        LineError::MissingField { name } => put_field(page, out, name, b"MissingField"),
        LineError::BadField { name } => put_field(page, out, name, b"BadField"),
        LineError::NoSuchCommand => put_bare(page, out, b"NoSuchCommand"),
        LineError::NoMemory => put_bare(page, out, b"NoMemory"),
    }
}
