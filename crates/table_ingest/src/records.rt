//! The records of a text, one after the other.

ghost use Rattle.std.specs.Prelude.{◌≡◌, ℕ, List, IfErr, IfOk};
ghost use Rattle.csv.specs.Records.{fields_of};
ghost use Rattle.table_ingest.specs.Records.{Are, HasLeft, Takes, field};

use crate::TableError;
use csv::{ByteRecord, Reader, ReaderBuilder};
use std::alloc::Global;

/// A reader of a table's text. It gives records with any number of fields.
#[tactic(auto, using(crate::proofs::Rows::fresh))]
pub fn reader_of(alloc: Global, text: &[u8]) -> Reader<&[u8]>
    ensures { (rows : List (List (List ℕ))) → Are text.now rows → HasLeft result rows }
{
    ReaderBuilder::new()
        .has_headers(false)
        .flexible(true)
        .from_reader(alloc, text)
}

/// The next record into `row`, and whether there was one.
#[tactic(auto, using(crate::proofs::Rows::takes_next))]
pub fn next(rdr: &mut Reader<&[u8]>, row: &mut ByteRecord) -> Result<bool, TableError>
    ensures takes { IfOk result (λ found. (rows : List (List (List ℕ))) → HasLeft rdr.old rows → Takes rdr.new (fields_of row.new) rows found) }
    ensures err { IfErr result (λ e. e ≡ TableError.NoMemory) }
{
    let Ok(found) = rdr.read_byte_record(row) else {
        return Err(TableError::NoMemory);
    };
    Ok(found)
}

/// The field of a record at a place, or no bytes.
#[tactic(auto, unfolding(crate::specs::Records::field))]
pub fn field(row: &ByteRecord, place: usize) -> &[u8]
    ensures { result.now ≡ field (fields_of row.now) place }
{
    match row.get(place) {
        Some(field) => field,
        None => b"".as_slice(),
    }
}
