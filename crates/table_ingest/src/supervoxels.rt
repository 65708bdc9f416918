//! What the records of the supervoxel table mean.

ghost use Rattle.std.specs.Prelude.{◌≡◌, ℕ, List, [], IfErr, IfOk};
ghost use Rattle.csv.specs.Records.{fields_of};
ghost use Rattle.op_model.specs.Lists.{has};
ghost use Rattle.table_ingest.specs.Records.{Are, HasLeft, UnderHeader};
ghost use Rattle.table_ingest.specs.Supervoxels.{id_of, ids_of, is_id_header, placed, placed_id, supervoxel_of};
ghost use Rattle.table_ingest.specs.Tables.{Gives, Took, meanings};
ghost use Rattle.table_ingest.specs.declared.errors.Table.TheVariants as tables;
ghost use Rattle.table_ingest.specs.declared.errors.TableError.TheVariants as errors;

use crate::records::{field, next, reader_of};
use crate::{Cause, Table, TableError};
use chunk_geometry::Cell;
use csv::{ByteRecord, Reader};
use indexmap::IndexSet;
use node_ids::{NodeId, read_digits};
use op_model::Dataset;
use std::alloc::Global;

/// Whether a record is the header of the supervoxel table.
#[tactic(auto, unfolding(crate::specs::Supervoxels::is_id_header))]
fn is_id_header(row: &ByteRecord) -> bool
    ensures { result ≡ is_id_header (fields_of row.now) }
{
    row.len() == 1 && field(row, 0) == b"supervoxel".as_slice()
}

/// The id of a record.
#[tactic(auto, unfolding(crate::specs::Supervoxels::id_of))]
fn id_of(row: &ByteRecord) -> Result<u64, Cause>
    ensures { result ≡ id_of (fields_of row.now) }
{
    if row.len() != 1 {
        return Err(Cause::FieldCount);
    }
    match read_digits(field(row, 0)) {
        Some(id) => Ok(id),
        None => Err(Cause::BadId),
    }
}

/// The id, if it has layer 1, a chunk in the grid and a segment.
#[tactic(auto, unfolding(crate::specs::Supervoxels::placed))]
fn placed(dataset: &Dataset, id: u64) -> Result<u64, Cause>
    ensures { result ≡ placed dataset.now id }
{
    let parts = dataset.layout.unpack(NodeId(id));
    if parts.layer != 1 {
        return Err(Cause::WrongLayer);
    }
    let chunk = Cell {
        x: parts.x,
        y: parts.y,
        z: parts.z,
    };
    if !dataset.grid.holds(chunk) {
        return Err(Cause::OutsideGrid);
    }
    if parts.segment == 0 {
        return Err(Cause::ZeroSegment);
    }
    Ok(id)
}

/// Whether an id is among these.
#[tactic(auto, using(crate::proofs::Names::has_name))]
pub fn has_id(ids: &IndexSet<u64>, id: u64) -> bool
    ensures { result ≡ has ids.now.keys id }
{
    ids.contains(&id)
}

/// The id of a record, if it is one of the dataset's supervoxels.
fn placed_id(dataset: &Dataset, row: &ByteRecord) -> Result<u64, Cause>
    ensures { result ≡ placed_id dataset.now (fields_of row.now) }
{
    match id_of(row) {
        Ok(id) => placed(dataset, id),
        Err(cause) => Err(cause),
    }
}

/// The fault of the record with this number.
fn bad_supervoxel(number: u64, cause: Cause) -> TableError
    ensures { result ≡ errors.Bad tables.Supervoxels number cause }
{
    TableError::Bad {
        table: Table::Supervoxels,
        row: number,
        cause,
    }
}

/// Takes the supervoxel of the record with this number behind those before it.
#[tactic(auto, unfolding(crate::specs::Supervoxels::supervoxel_of))]
fn take_supervoxel(
    dataset: &Dataset,
    row: &ByteRecord,
    number: u64,
    ids: &mut IndexSet<u64>,
) -> Result<(), TableError>
    ensures { Took tables.Supervoxels number ids.old.keys result ids.new.keys (supervoxel_of dataset.now ids.old.keys (fields_of row.now)) }
{
    let id = match placed_id(dataset, row) {
        Ok(id) => id,
        Err(cause) => return Err(bad_supervoxel(number, cause)),
    };
    match ids.insert_full(id) {
        Ok((_, true)) => Ok(()),
        Ok((_, false)) => Err(bad_supervoxel(number, Cause::DoubleSupervoxel)),
        Err(_) => Err(TableError::NoMemory),
    }
}

/// Takes the supervoxels of the records that a reader has left into an empty set.
fn fill_supervoxels(
    dataset: &Dataset,
    rdr: &mut Reader<&[u8]>,
    row: &mut ByteRecord,
    ids: &mut IndexSet<u64>,
) -> Result<(), TableError>
    requires empty { ids.old.keys ≡ [] }
    ensures { (rows : List (List (List ℕ))) → HasLeft rdr.old rows → Gives (λ u. ids.new.keys) result (meanings tables.Supervoxels (supervoxel_of dataset.now) [] 1 rows) }
{
    for number in 1..u64::MAX {
        let found = next(rdr, row)?;
        if !found {
            return Ok(());
        }
        take_supervoxel(dataset, row, number, ids)?;
    }
    Err(TableError::NoMemory)
}

/// The supervoxels of the records that a reader has left.
fn take_supervoxels(
    alloc: Global,
    dataset: &Dataset,
    rdr: &mut Reader<&[u8]>,
    row: &mut ByteRecord,
) -> Result<IndexSet<u64>, TableError>
    ensures { (rows : List (List (List ℕ))) → HasLeft rdr.old rows → Gives (λ ids. ids.keys) result (meanings tables.Supervoxels (supervoxel_of dataset.now) [] 1 rows) }
{
    let mut ids = IndexSet::new(alloc);
    match fill_supervoxels(dataset, rdr, row, &mut ids) {
        Ok(()) => Ok(ids),
        Err(stop) => Err(stop),
    }
}

/// Whether the next record is the header.
fn takes_header(rdr: &mut Reader<&[u8]>, row: &mut ByteRecord) -> Result<bool, TableError>
    ensures found { IfOk result (λ found. (rows : List (List (List ℕ))) → HasLeft rdr.old rows → UnderHeader is_id_header rdr.new rows found) }
    ensures err { IfErr result (λ e. e ≡ TableError.NoMemory) }
{
    let found = next(rdr, row)?;
    if !found {
        return Ok(false);
    }
    Ok(is_id_header(row))
}

/// The ids of the records of a supervoxel table, of which a reader has left all, or its first record with a cause.
#[tactic(auto, unfolding(crate::specs::Supervoxels::ids_of))]
fn ids_under_header(
    alloc: Global,
    dataset: &Dataset,
    rdr: &mut Reader<&[u8]>,
    row: &mut ByteRecord,
) -> Result<IndexSet<u64>, TableError>
    ensures { (rows : List (List (List ℕ))) → HasLeft rdr.old rows → Gives (λ ids. ids.keys) result (ids_of dataset.now rows) }
{
    let found = takes_header(rdr, row)?;
    if !found {
        return Err(bad_supervoxel(0, Cause::BadHeader));
    }
    take_supervoxels(alloc, dataset, rdr, row)
}

/// The ids of a supervoxel table in the order of its records, or its first record with a cause.
pub fn read_ids(alloc: Global, text: &[u8], dataset: &Dataset) -> Result<IndexSet<u64>, TableError>
    ensures { (rows : List (List (List ℕ))) → Are text.now rows → Gives (λ ids. ids.keys) result (ids_of dataset.now rows) }
{
    let mut rdr = reader_of(alloc, text);
    let mut row = ByteRecord::new(alloc);
    ids_under_header(alloc, dataset, &mut rdr, &mut row)
}
