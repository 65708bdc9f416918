ghost use Rattle.std.specs.Prelude.{◌≡◌, ◌≤◌, ◌⊎◌, length, IfOk, OnOk, OnErr, IsErrOf};
ghost use Rattle.std.specs.Io.KnownBytes.{Consumes, IsAtEnd};
ghost use Rattle.pcg_base.specs.Causes.{Rose};
ghost use Rattle.pcg_base.specs.States.{KeepsOtherCounts, KeepsOtherLeft, StaysIn, StaysOut};
ghost use Rattle.pcg_base.specs.Told.{KeepsFiles, TellsAt, LosesFront, LosesMore, IsLonger, IsLongerAt, LeavesNone, ReadsSource};

use crate::place::{Place, PlaceError};
use crate::traits::{NoMemory, Source};
use std::alloc::Global;

/// Why a stream was not read whole.
#[derive(Clone, Copy, Debug, PartialEq, Eq)]
pub enum ReadError {
    /// A read or an opening failed. A count of faults rose.
    Failed,
    /// There are more bytes than the limit.
    TooLong,
    /// Memory was refused.
    NoMemory,
}

/// How the reading of a stream ended.
#[derive(Clone, Copy, Debug)]
pub enum StreamEnd {
    /// It was read to its end.
    Whole,
    /// A read failed.
    Broken,
    /// It has more bytes than the limit.
    TooLong,
}

/// What was read of a stream.
#[derive(Drop)]
pub struct Stream {
    /// The bytes, at most as many as the limit.
    pub bytes: Vec<u8>,
    /// How the reading ended.
    pub end: StreamEnd,
}

/// Reads a stream to its end, its first fault or the limit. Past the limit the bytes up to it are
/// answered. The count of faults rises where the stream is `Broken` and nowhere else. Whatever it
/// answers, a front of what was left is gone.
pub fn read_stream<S: Source>(alloc: Global, from: &mut S, limit: u64) -> Result<Stream, NoMemory>
    ensures size { IfOk result (λ s. length s.bytes.items ≤ limit) }
    ensures whole { IfOk result (λ s. s.end ≡ StreamEnd.Whole
        → Consumes (S.left from.old) (S.left from.new) s.bytes.items × IsAtEnd (S.left from.new)) }
    ensures broken { IfOk result (λ s. s.end ≡ StreamEnd.Broken
        → Consumes (S.left from.old) (S.left from.new) s.bytes.items
        × Rose (S.faults from.old) (S.faults from.new)) }
    ensures long { IfOk result (λ s. s.end ≡ StreamEnd.TooLong → IsLonger (S.left from.old) limit) }
    ensures long_bytes { IfOk result (λ s. s.end ≡ StreamEnd.TooLong
        → (length s.bytes.items ≡ limit)
        × LosesMore (S.left from.old) (S.left from.new) s.bytes.items) }
    ensures still { IfOk result (λ s. s.end ≡ StreamEnd.Whole
        → S.faults from.new ≡ S.faults from.old) }
    ensures still_long { IfOk result (λ s. s.end ≡ StreamEnd.TooLong
        → S.faults from.new ≡ S.faults from.old) }
    ensures still_refused { OnErr result (S.faults from.new ≡ S.faults from.old) }
    ensures later { S.faults from.old ≤ S.faults from.new }
    ensures front { LosesFront (S.left from.old) (S.left from.new) }
{
    let mut bytes = Vec::new(alloc);
    let mut piece = [0u8; 4096];
    for turn in 0..u64::MAX {
        let count = match from.read(&mut piece) {
            Ok(count) => count,
            Err(_) => return Ok(Stream {
                bytes,
                end: StreamEnd::Broken,
            }),
        };
        if count == 0 {
            return Ok(Stream {
                bytes,
                end: StreamEnd::Whole,
            });
        }
        let room = limit - bytes.len() as u64;
        if count as u64 > room {
            match bytes.extend_from_slice(&piece[..room as usize]) {
                Ok(()) => {}
                Err(_) => return Err(NoMemory),
            }
            return Ok(Stream {
                bytes,
                end: StreamEnd::TooLong,
            });
        }
        match bytes.extend_from_slice(&piece[..count]) {
            Ok(()) => {}
            Err(_) => return Err(NoMemory),
        }
    }
    unreachable!()
}

/// Reads all bytes up to the end, at most `limit` of them. The count of faults rises where it
/// answers `Failed` and nowhere else. Whatever it answers, a front of what was left is gone.
pub fn read_all<S: Source>(alloc: Global, from: &mut S, limit: u64) -> Result<Vec<u8>, ReadError>
    ensures bytes { IfOk result (λ v. Consumes (S.left from.old) (S.left from.new) v.items) }
    ensures end { OnOk result (IsAtEnd (S.left from.new)) }
    ensures size { IfOk result (λ v. length v.items ≤ limit) }
    ensures failed { IsErrOf result ReadError.Failed
        → Rose (S.faults from.old) (S.faults from.new) }
    ensures long { IsErrOf result ReadError.TooLong → IsLonger (S.left from.old) limit }
    ensures still { OnOk result (S.faults from.new ≡ S.faults from.old) }
    ensures still_long { IsErrOf result ReadError.TooLong → S.faults from.new ≡ S.faults from.old }
    ensures still_refused { IsErrOf result ReadError.NoMemory → S.faults from.new
        ≡ S.faults from.old }
    ensures later { S.faults from.old ≤ S.faults from.new }
    ensures front { LosesFront (S.left from.old) (S.left from.new) }
{
    let Ok(stream) = read_stream(alloc, from, limit) else {
        return Err(ReadError::NoMemory);
    };
    let Stream { bytes, end } = stream;
    match end {
        StreamEnd::Whole => Ok(bytes),
        StreamEnd::Broken => Err(ReadError::Failed),
        StreamEnd::TooLong => Err(ReadError::TooLong),
    }
}

/// Opens a name, reads it whole, at most `limit` bytes of it, and keeps it back. Where it answers
/// the bytes no count rose.
pub fn read_name<P: Place>(
    alloc: Global,
    place: &mut P,
    name: &str,
    limit: u64,
) -> Result<Vec<u8>, ReadError>
    ensures bytes { IfOk result (λ v. TellsAt (P.state place.old).files name.now (Some v.items)) }
    ensures size { IfOk result (λ v. length v.items ≤ limit) }
    ensures end { OnOk result
        (LeavesNone (P.state place.old).files ((P.state place.new).left name.now)) }
    ensures long { IsErrOf result ReadError.TooLong
        → IsLongerAt (P.state place.old).files name.now limit }
    ensures failed { IsErrOf result ReadError.Failed
        → Rose (P.state place.old).reads (P.state place.new).reads }
    ensures failed_here { IsErrOf result ReadError.Failed
        → (Rose ((P.state place.old).counts name.now).source_openings
        ((P.state place.new).counts name.now).source_openings
        ⊎ Rose ((P.state place.old).counts name.now).source_faults
        ((P.state place.new).counts name.now).source_faults) }
    ensures still { OnOk result ((P.state place.new).reads ≡ (P.state place.old).reads) }
    ensures still_here { OnOk result ((P.state place.new).counts name.now
        ≡ (P.state place.old).counts name.now) }
    ensures later { (P.state place.old).reads ≤ (P.state place.new).reads }
    ensures other_kind { (P.state place.new).writes ≡ (P.state place.old).writes }
    ensures only_kind { ReadsSource ((P.state place.old).counts name.now)
        ((P.state place.new).counts name.now) }
    ensures only_here { KeepsOtherCounts (P.state place.old) (P.state place.new) name.now }
    ensures files { KeepsFiles (P.state place.old).files (P.state place.new).files }
    ensures only_left { KeepsOtherLeft (P.state place.old) (P.state place.new) name.now }
    ensures stays_in { StaysIn (P.state place.old) (P.state place.new) }
    ensures stays_out { StaysOut (P.state place.old) (P.state place.new) }
{
    let mut source = match place.source_of(name) {
        Ok(source) => source,
        Err(PlaceError::Failed) => return Err(ReadError::Failed),
        Err(PlaceError::NoMemory) => return Err(ReadError::NoMemory),
    };
    let found = read_all(alloc, &mut source, limit);
    place.keep_in(name, source);
    found
}
