//! What the records of the edge table mean.

ghost use Rattle.std.specs.Prelude.{◌≡◌, ℕ, List, [], ◌∷◌, ◌++◌, not, map, IsTrue, IfErr, IfOk, OnOk};
ghost use Rattle.csv.specs.Records.{fields_of};
ghost use Rattle.table_ingest.specs.Edges.{edge_of, edge_with, edges_of, ends, has_ends, is_edge_header, may_be, pair_in, state_of, weight_of};
ghost use Rattle.table_ingest.specs.Records.{Are, HasLeft, UnderHeader};
ghost use Rattle.table_ingest.specs.Tables.{Gives, Took, meanings};
ghost use Rattle.table_ingest.specs.declared.errors.Table.TheVariants as tables;
ghost use Rattle.table_ingest.specs.declared.errors.TableError.TheVariants as errors;

use crate::records::{field, next, reader_of};
use crate::supervoxels::has_id;
use crate::{Cause, Table, TableError};
use csv::{ByteRecord, Reader};
use indexmap::IndexSet;
use node_ids::{NodeId, read_digits};
use op_model::pairs::pair_between;
use op_model::{Edge, Pair, Weight};
use std::alloc::Global;

/// Whether a record is the header of the edge table.
#[tactic(auto, unfolding(crate::specs::Edges::is_edge_header))]
fn is_edge_header(row: &ByteRecord) -> bool
    ensures { result ≡ is_edge_header (fields_of row.now) }
{
    row.len() == 4
        && field(row, 0) == b"a".as_slice()
        && field(row, 1) == b"b".as_slice()
        && field(row, 2) == b"affinity".as_slice()
        && field(row, 3) == b"active".as_slice()
}

/// The weight that a field spells: `glue`, or an affinity from 1 to 4294967295.
#[tactic(auto, unfolding(crate::specs::Edges::weight_of))]
fn weight_of(text: &[u8]) -> Option<Weight>
    ensures { result ≡ weight_of text.now }
{
    if text == b"glue".as_slice() {
        return Some(Weight::Glue);
    }
    let Some(n) = read_digits(text) else {
        return None;
    };
    if 1 <= n && n < 4294967296 {
        return Some(Weight::Affinity(n as u32));
    }
    None
}

/// The state that a field spells: `1` where the edge is active, and `0` where it isn't.
#[tactic(auto, unfolding(crate::specs::Edges::state_of))]
fn state_of(text: &[u8]) -> Option<bool>
    ensures { result ≡ state_of text.now }
{
    if text == b"1".as_slice() {
        return Some(true);
    }
    if text == b"0".as_slice() {
        return Some(false);
    }
    None
}

/// Whether an edge may have this weight and this state.
fn may_be(weight: Weight, active: bool) -> bool
    ensures { result ≡ may_be weight active }
{
    match weight {
        Weight::Affinity(_) => true,
        Weight::Glue => active,
    }
}

/// The pair of a record: two different ids of the supervoxel table, in either order.
#[tactic(auto, unfolding(crate::specs::Edges::pair_in))]
fn pair_in(known: &IndexSet<u64>, row: &ByteRecord) -> Result<Pair, Cause>
    ensures { result ≡ pair_in known.now.keys (fields_of row.now) }
{
    if row.len() != 4 {
        return Err(Cause::FieldCount);
    }
    let Some(u) = read_digits(field(row, 0)) else {
        return Err(Cause::BadId);
    };
    let Some(v) = read_digits(field(row, 1)) else {
        return Err(Cause::BadId);
    };
    let pair = pair_between(NodeId(u), NodeId(v));
    if !has_id(known, pair.a.0) || !has_id(known, pair.b.0) {
        return Err(Cause::UnknownEnd);
    }
    if pair.a == pair.b {
        return Err(Cause::SelfEdge);
    }
    Ok(pair)
}

/// The edge that a record makes of its pair.
#[tactic(auto, unfolding(crate::specs::Edges::edge_with))]
fn edge_with(row: &ByteRecord, pair: Pair) -> Result<Edge, Cause>
    ensures { result ≡ edge_with (fields_of row.now) pair }
{
    let Some(weight) = weight_of(field(row, 2)) else {
        return Err(Cause::BadAffinity);
    };
    let Some(active) = state_of(field(row, 3)) else {
        return Err(Cause::BadActive);
    };
    if !may_be(weight, active) {
        return Err(Cause::GlueInactive);
    }
    Ok(Edge {
        pair,
        weight,
        active,
    })
}

/// The fault of the record with this number.
fn bad_edge(number: u64, cause: Cause) -> TableError
    ensures { result ≡ errors.Bad tables.Edges number cause }
{
    TableError::Bad {
        table: Table::Edges,
        row: number,
        cause,
    }
}

/// Puts the ends of a pair behind those before them, and answers whether they weren't there yet.
#[tactic(auto)]
fn put_pair(pairs: &mut IndexSet<(u64, u64)>, pair: &Pair) -> Result<bool, TableError>
    ensures is_new { IfOk result (λ is_new. is_new ≡ not (has_ends pairs.old.keys pair.now)) }
    ensures pairs { IfOk result (λ is_new. IsTrue is_new → pairs.new.keys ≡ pairs.old.keys ++ (pair.now.a, pair.now.b) ∷ []) }
    ensures err { IfErr result (λ e. e ≡ TableError.NoMemory) }
{
    let Ok((_, is_new)) = pairs.insert_full((pair.a.0, pair.b.0)) else {
        return Err(TableError::NoMemory);
    };
    Ok(is_new)
}

/// Takes the edge of the record with this number behind those before it, whose ends are `pairs`.
#[tactic(auto, unfolding(crate::specs::Edges::edge_of))]
fn take_edge(
    known: &IndexSet<u64>,
    row: &ByteRecord,
    number: u64,
    pairs: &mut IndexSet<(u64, u64)>,
    edges: &mut Vec<Edge>,
) -> Result<(), TableError>
    requires { pairs.old.keys ≡ map ends edges.old.items }
    ensures took { Took tables.Edges number edges.old.items result edges.new.items (edge_of known.now.keys edges.old.items (fields_of row.now)) }
    ensures pairs { OnOk result (pairs.new.keys ≡ map ends edges.new.items) }
{
    let pair = match pair_in(known, row) {
        Ok(pair) => pair,
        Err(cause) => return Err(bad_edge(number, cause)),
    };
    let is_new = put_pair(pairs, &pair)?;
    if !is_new {
        return Err(bad_edge(number, Cause::DoubleEdge));
    }
    let edge = match edge_with(row, pair) {
        Ok(edge) => edge,
        Err(cause) => return Err(bad_edge(number, cause)),
    };
    match edges.push(edge) {
        Ok(()) => Ok(()),
        Err(_) => Err(TableError::NoMemory),
    }
}

/// Takes the edges of the records that a reader has left into an empty list, and their ends into a set.
fn fill_edges(
    known: &IndexSet<u64>,
    rdr: &mut Reader<&[u8]>,
    row: &mut ByteRecord,
    pairs: &mut IndexSet<(u64, u64)>,
    edges: &mut Vec<Edge>,
) -> Result<(), TableError>
    requires empty { edges.old.items ≡ [] }
    requires pairs { pairs.old.keys ≡ map ends edges.old.items }
    ensures { (rows : List (List (List ℕ))) → HasLeft rdr.old rows → Gives (λ u. edges.new.items) result (meanings tables.Edges (edge_of known.now.keys) [] 1 rows) }
{
    for number in 1..u64::MAX {
        let found = next(rdr, row)?;
        if !found {
            return Ok(());
        }
        take_edge(known, row, number, pairs, edges)?;
    }
    Err(TableError::NoMemory)
}

/// The edges of the records that a reader has left.
fn take_edges(
    alloc: Global,
    known: &IndexSet<u64>,
    rdr: &mut Reader<&[u8]>,
    row: &mut ByteRecord,
) -> Result<Vec<Edge>, TableError>
    ensures { (rows : List (List (List ℕ))) → HasLeft rdr.old rows → Gives (λ edges. edges.items) result (meanings tables.Edges (edge_of known.now.keys) [] 1 rows) }
{
    let mut pairs = IndexSet::new(alloc);
    let mut edges = Vec::new(alloc);
    match fill_edges(known, rdr, row, &mut pairs, &mut edges) {
        Ok(()) => Ok(edges),
        Err(stop) => Err(stop),
    }
}

/// Whether the next record is the header.
fn takes_header(rdr: &mut Reader<&[u8]>, row: &mut ByteRecord) -> Result<bool, TableError>
    ensures found { IfOk result (λ found. (rows : List (List (List ℕ))) → HasLeft rdr.old rows → UnderHeader is_edge_header rdr.new rows found) }
    ensures err { IfErr result (λ e. e ≡ TableError.NoMemory) }
{
    let found = next(rdr, row)?;
    if !found {
        return Ok(false);
    }
    Ok(is_edge_header(row))
}

/// The edges of the records of an edge table, of which a reader has left all, or its first record with a cause.
#[tactic(auto, unfolding(crate::specs::Edges::edges_of))]
fn edges_under_header(
    alloc: Global,
    known: &IndexSet<u64>,
    rdr: &mut Reader<&[u8]>,
    row: &mut ByteRecord,
) -> Result<Vec<Edge>, TableError>
    ensures { (rows : List (List (List ℕ))) → HasLeft rdr.old rows → Gives (λ edges. edges.items) result (edges_of known.now.keys rows) }
{
    let found = takes_header(rdr, row)?;
    if !found {
        return Err(bad_edge(0, Cause::BadHeader));
    }
    take_edges(alloc, known, rdr, row)
}

/// The edges of an edge table in the order of its records, between supervoxels with these ids; or its first
/// record with a cause.
pub fn read_edges(
    alloc: Global,
    text: &[u8],
    known: &IndexSet<u64>,
) -> Result<Vec<Edge>, TableError>
    ensures { (rows : List (List (List ℕ))) → Are text.now rows → Gives (λ edges. edges.items) result (edges_of known.now.keys rows) }
{
    let mut rdr = reader_of(alloc, text);
    let mut row = ByteRecord::new(alloc);
    edges_under_header(alloc, known, &mut rdr, &mut row)
}
