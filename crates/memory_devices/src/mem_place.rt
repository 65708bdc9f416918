ghost use Rattle.std.specs.Prelude.{◌≡◌, ◌≢◌, ◌+◌, ◌≤◌, ◌<◌, ℕ, List, [], Bool, true, false, Some, None, IfOk, OnOk, OnErr, length};
ghost use Rattle.std.specs.FinMap.{get, insert};
ghost use Rattle.pcg_base.specs.Causes.{Rose, added};
ghost use Rattle.memory_devices.specs.Kept.{FirstAt, left_at, faults_in, faults_out, was_in, was_out, fails_at, map_of, times};
ghost use Rattle.memory_devices.specs.Sources as sources;
ghost use Rattle.memory_devices.specs.Sinks as sinks;

use crate::kept::{
    Kept, MemFile, keep_all, open_in, open_out, place_of, put_new, put_sink, put_source,
};
use crate::mem_sink::MemSink;
use crate::mem_source::MemSource;
use pcg_base::{NoMemory, Place, PlaceError};
use std::alloc::Global;

/// A source of the bytes at a name.
fn source_at(
    alloc: Global,
    kept: &[Kept],
    i: usize,
    name: &str,
    piece: usize,
) -> Result<MemSource, NoMemory>
    requires within { i < length kept.now }
    requires first { FirstAt name.now kept.now i }
    requires some { 0 < piece }
    ensures left { IfOk result (λ s. get (map_of kept.now) name.now ≡ Some (sources.left_in s)) }
    ensures faults { IfOk result (λ s. sources.faults_of s ≡ 0) }
    ensures piece { IfOk result (λ s. sources.piece_of s ≡ piece) }
    ensures fails { IfOk result (λ s. sources.fails_of s ≡ (fails_at name.now kept.now).reads) }
{
    let _ = name;
    let file = &kept[i].file;
    let Ok(bytes) = Vec::from_slice(alloc, file.bytes.as_slice()) else {
        return Err(NoMemory);
    };
    let Ok(fails) = Vec::from_slice(alloc, file.read_fails.as_slice()) else {
        return Err(NoMemory);
    };
    Ok(MemSource::new(bytes, piece, fails))
}

/// A sink for a name.
fn sink_at(
    alloc: Global,
    kept: &[Kept],
    name: &str,
    piece: usize,
    room: u64,
) -> Result<MemSink, NoMemory>
    requires some { 0 < piece }
    ensures held { IfOk result (λ k. sinks.held_in k ≡ []) }
    ensures flushed { IfOk result (λ k. sinks.flushed_in k ≡ []) }
    ensures room { IfOk result (λ k. sinks.room_of k ≡ room) }
    ensures piece { IfOk result (λ k. sinks.piece_of k ≡ piece) }
    ensures fails { IfOk result (λ k. sinks.fails_of k ≡ (fails_at name.now kept.now).writes) }
    ensures flush_fails { IfOk result (λ k. sinks.flush_fails_of k
        ≡ (fails_at name.now kept.now).flushes) }
    ensures faults { IfOk result (λ k. sinks.faults_of k ≡ 0) }
{
    let Some(i) = place_of(kept, name) else {
        return MemSink::new(alloc, piece, room, Vec::new(alloc));
    };
    let file = &kept[i].file;
    let Ok(fails) = Vec::from_slice(alloc, file.write_fails.as_slice()) else {
        return Err(NoMemory);
    };
    let Ok(flush_fails) = Vec::from_slice(alloc, file.flush_fails.as_slice()) else {
        return Err(NoMemory);
    };
    MemSink::with_flush_fails(alloc, piece, room, fails, flush_fails)
}

/// Empties a name or makes it, and notes that it was opened for writing.
fn make_room(alloc: Global, kept: &mut Vec<Kept>, name: &str) -> Result<(), NoMemory>
    ensures err { OnErr result (kept.new.items ≡ kept.old.items) }
    ensures files { OnOk result (map_of kept.new.items
        ≡ insert (map_of kept.old.items) name.now []) }
    ensures left { (n : List ℕ) → left_at n kept.new.items ≡ left_at n kept.old.items }
    ensures source_faults { (n : List ℕ) → faults_in n kept.new.items ≡ faults_in n kept.old.items }
    ensures sink_faults { (n : List ℕ) → faults_out n kept.new.items ≡ faults_out n kept.old.items }
    ensures opened { OnOk result (was_out name.now kept.new.items ≡ true) }
    ensures stays_in { (n : List ℕ) → was_in n kept.new.items ≡ was_in n kept.old.items }
    ensures stays_out { (n : List ℕ) → was_out n kept.old.items ≡ true
        → was_out n kept.new.items ≡ true }
    ensures fails { (n : List ℕ) → fails_at n kept.new.items ≡ fails_at n kept.old.items }
{
    let Some(i) = place_of(kept, name) else {
        return put_new(alloc, kept, name);
    };
    open_out(kept, i, name);
    Ok(())
}

/// Files in memory.
#[derive(Drop)]
pub struct MemPlace {
    kept: Vec<Kept>,
    missed: Vec<String>,
    piece: usize,
    room: u64,
    read_faults: u64,
    write_faults: u64,
    ghost some: { 0 < piece },
}

impl MemPlace {
    ghost use Rattle.std.specs.Option.{option_map};
    ghost use Rattle.pcg_base.specs.Told.{Counts};
    ghost use Rattle.memory_devices.specs.Kept.{files_in};
    ghost use Rattle.memory_devices.specs.Places.{told_by, counts_by, read_faults_by, write_faults_by, left_by, opened_in_by, opened_out_by, piece_by, room_by};

    /// A place of these files, of which the first of a name counts. Its sources and sinks go by
    /// pieces of at most `piece` bytes, and each sink has room for `room` bytes.
    pub fn new(
        alloc: Global,
        files: Vec<MemFile>,
        piece: usize,
        room: u64,
    ) -> Result<MemPlace, NoMemory>
        requires { 0 < piece }
        ensures files { IfOk result (λ p. told_by p ≡ files_in files.items) }
        ensures piece { IfOk result (λ p. piece_by p ≡ piece) }
        ensures room { IfOk result (λ p. room_by p ≡ room) }
        ensures read_faults { IfOk result (λ p. read_faults_by p ≡ 0) }
        ensures write_faults { IfOk result (λ p. write_faults_by p ≡ 0) }
        ensures counts { IfOk result (λ p. (n : List ℕ) → counts_by p n
            ≡ record {
              source_openings = 0;
              sink_openings = 0;
              source_faults = 0;
              sink_faults = 0;
            }) }
        ensures opened_in { IfOk result (λ p. (n : List ℕ) → opened_in_by p n ≡ false) }
        ensures opened_out { IfOk result (λ p. (n : List ℕ) → opened_out_by p n ≡ false) }
    {
        let kept = keep_all(alloc, files)?;
        Ok(MemPlace {
            kept,
            missed: Vec::new(alloc),
            piece,
            room,
            read_faults: 0,
            write_faults: 0,
        })
    }

    /// The bytes at a name.
    pub fn bytes_at(&self, name: &str) -> Option<&[u8]>
        ensures { option_map (λ bytes. bytes.now) result ≡ get (told_by self.now) name.now }
    {
        let Some(i) = place_of(&self.kept, name) else {
            return None;
        };
        Some(self.kept[i].file.bytes.as_slice())
    }

    /// How many reads failed of the sources that were kept back at a name.
    pub fn source_faults_at(&self, name: &str) -> u64
        ensures { result ≡ (counts_by self.now name.now).source_faults }
    {
        let Some(i) = place_of(&self.kept, name) else {
            return 0;
        };
        self.kept[i].source_faults
    }

    /// How many writes and flushes failed of the sinks that were kept back at a name.
    pub fn sink_faults_at(&self, name: &str) -> u64
        ensures { result ≡ (counts_by self.now name.now).sink_faults }
    {
        let Some(i) = place_of(&self.kept, name) else {
            return 0;
        };
        self.kept[i].sink_faults
    }

    /// Notes that no file has the name.
    fn miss(&mut self, name: &str) -> PlaceError
        ensures kept { self.new.kept ≡ self.old.kept }
        ensures piece { self.new.piece ≡ self.old.piece }
        ensures room { self.new.room ≡ self.old.room }
        ensures write_faults { self.new.write_faults ≡ self.old.write_faults }
        ensures failed { result ≡ PlaceError.Failed
            → Rose self.old.read_faults self.new.read_faults }
        ensures later { self.old.read_faults ≤ self.new.read_faults }
        ensures here { result ≡ PlaceError.Failed
            → times name.now self.new.missed.items ≡ times name.now self.old.missed.items + 1 }
        ensures later_here { times name.now self.old.missed.items
            ≤ times name.now self.new.missed.items }
        ensures elsewhere { (n : List ℕ) → n ≢ name.now
            → times n self.new.missed.items ≡ times n self.old.missed.items }
    {
        let alloc = *self.kept.allocator();
        let Ok(text) = String::from_str(alloc, name) else {
            return PlaceError::NoMemory;
        };
        if self.missed.push(text).is_err() {
            return PlaceError::NoMemory;
        }
        self.read_faults = self.read_faults.saturating_add(1);
        PlaceError::Failed
    }
}

impl Place for MemPlace {
    ghost use Rattle.std.specs.Prelude.{◌≡◌, ◌≢◌, ◌≤◌, ℕ, List, [], true, Some, None, IfOk, OnOk, OnErr, IsErrOf};
    ghost use Rattle.std.specs.FinMap.{get, insert};
    ghost use Rattle.pcg_base.specs.Causes.{Rose, added};
    ghost use Rattle.pcg_base.specs.Told.{IsFlushed, OpensSource, OpensSink, sinks_failed, sources_failed};
    ghost use Rattle.memory_devices.specs.Sources as sources;
    ghost use Rattle.memory_devices.specs.Sinks as sinks;
    ghost use Rattle.memory_devices.specs.Places.{told_by, counts_by, read_faults_by, write_faults_by, left_by, opened_in_by, opened_out_by, piece_by, room_by, fails_by, state_of};

    type In = MemSource;

    type Out = MemSink;

    ghost state = { λ p. state_of p };

    fn source_of(&mut self, name: &str) -> Result<MemSource, PlaceError>
        ensures later { read_faults_by self.old ≤ read_faults_by self.new }
        ensures other_kind { write_faults_by self.new ≡ write_faults_by self.old }
        ensures failed { IsErrOf result PlaceError.Failed
            → Rose (read_faults_by self.old) (read_faults_by self.new) }
        ensures failed_here { IsErrOf result PlaceError.Failed
            → Rose (counts_by self.old name.now).source_openings
            (counts_by self.new name.now).source_openings }
        ensures still { OnOk result (read_faults_by self.new ≡ read_faults_by self.old) }
        ensures still_here { OnOk result (counts_by self.new name.now
            ≡ counts_by self.old name.now) }
        ensures only_kind { OpensSource (counts_by self.old name.now)
            (counts_by self.new name.now) }
        ensures only_here { (n : List ℕ) → n ≢ name.now
            → counts_by self.new n ≡ counts_by self.old n }
        ensures files { told_by self.new ≡ told_by self.old }
        ensures left { (n : List ℕ) → left_by self.new n ≡ left_by self.old n }
        ensures fresh { IfOk result (λ s. sources.faults_of s ≡ 0) }
        ensures bytes { IfOk result (λ s. get (told_by self.old) name.now
            ≡ Some (sources.left_in s)) }
        ensures opened { OnOk result (opened_in_by self.new name.now ≡ true) }
        ensures stays_in { (n : List ℕ) → opened_in_by self.old n ≡ true
            → opened_in_by self.new n ≡ true }
        ensures stays_out { (n : List ℕ) → opened_out_by self.old n ≡ true
            → opened_out_by self.new n ≡ true }
        ensures missing { IsErrOf result PlaceError.Failed
            → get (told_by self.old) name.now ≡ None }
        ensures piece { IfOk result (λ s. sources.piece_of s ≡ piece_by self.old) }
        ensures fails { IfOk result (λ s. sources.fails_of s ≡ (fails_by self.old name.now).reads) }
        ensures same_piece { piece_by self.new ≡ piece_by self.old }
        ensures same_room { room_by self.new ≡ room_by self.old }
        ensures same_fails { (n : List ℕ) → fails_by self.new n ≡ fails_by self.old n }
    {
        let Some(i) = place_of(&self.kept, name) else {
            return Err(self.miss(name));
        };
        let alloc = *self.kept.allocator();
        let Ok(source) = source_at(alloc, &self.kept, i, name, self.piece) else {
            return Err(PlaceError::NoMemory);
        };
        open_in(&mut self.kept, i, name);
        Ok(source)
    }

    fn sink_of(&mut self, name: &str) -> Result<MemSink, PlaceError>
        ensures later { write_faults_by self.new ≡ write_faults_by self.old }
        ensures other_kind { read_faults_by self.new ≡ read_faults_by self.old }
        ensures never_failed { IsErrOf result PlaceError.Failed → ⊥ }
        ensures counts { (n : List ℕ) → counts_by self.new n ≡ counts_by self.old n }
        ensures made { OnOk result (told_by self.new ≡ insert (told_by self.old) name.now []) }
        ensures unmade { OnErr result (told_by self.new ≡ told_by self.old) }
        ensures left { (n : List ℕ) → left_by self.new n ≡ left_by self.old n }
        ensures fresh { IfOk result (λ k. sinks.faults_of k ≡ 0) }
        ensures empty { IfOk result (λ k. sinks.held_in k ≡ []) }
        ensures flushed { IfOk result
            (λ k. IsFlushed (Some (sinks.held_in k)) (Some (sinks.flushed_in k))) }
        ensures opened { OnOk result (opened_out_by self.new name.now ≡ true) }
        ensures stays_in { (n : List ℕ) → opened_in_by self.old n ≡ true
            → opened_in_by self.new n ≡ true }
        ensures stays_out { (n : List ℕ) → opened_out_by self.old n ≡ true
            → opened_out_by self.new n ≡ true }
        ensures piece { IfOk result (λ k. sinks.piece_of k ≡ piece_by self.old) }
        ensures room { IfOk result (λ k. sinks.room_of k ≡ room_by self.old) }
        ensures fails { IfOk result (λ k. sinks.fails_of k ≡ (fails_by self.old name.now).writes) }
        ensures flush_fails { IfOk result (λ k. sinks.flush_fails_of k
            ≡ (fails_by self.old name.now).flushes) }
        ensures same_piece { piece_by self.new ≡ piece_by self.old }
        ensures same_room { room_by self.new ≡ room_by self.old }
        ensures same_fails { (n : List ℕ) → fails_by self.new n ≡ fails_by self.old n }
    {
        let alloc = *self.kept.allocator();
        let Ok(sink) = sink_at(alloc, &self.kept, name, self.piece, self.room) else {
            return Err(PlaceError::NoMemory);
        };
        let Ok(()) = make_room(alloc, &mut self.kept, name) else {
            return Err(PlaceError::NoMemory);
        };
        Ok(sink)
    }

    fn keep_in(&mut self, name: &str, source: MemSource)
        requires { opened_in_by self.old name.now ≡ true }
        ensures later { read_faults_by self.old ≤ read_faults_by self.new }
        ensures total { read_faults_by self.new
            ≡ added (read_faults_by self.old) (sources.faults_of source) }
        ensures other_kind { write_faults_by self.new ≡ write_faults_by self.old }
        ensures here { counts_by self.new name.now
            ≡ sources_failed (counts_by self.old name.now) (sources.faults_of source) }
        ensures later_here { (counts_by self.old name.now).source_faults
            ≤ (counts_by self.new name.now).source_faults }
        ensures only_here { (n : List ℕ) → n ≢ name.now
            → counts_by self.new n ≡ counts_by self.old n }
        ensures files { told_by self.new ≡ told_by self.old }
        ensures left { left_by self.new name.now ≡ sources.left_in source }
        ensures only_left { (n : List ℕ) → n ≢ name.now → left_by self.new n ≡ left_by self.old n }
        ensures stays_in { (n : List ℕ) → opened_in_by self.old n ≡ true
            → opened_in_by self.new n ≡ true }
        ensures stays_out { (n : List ℕ) → opened_out_by self.old n ≡ true
            → opened_out_by self.new n ≡ true }
        ensures same_piece { piece_by self.new ≡ piece_by self.old }
        ensures same_room { room_by self.new ≡ room_by self.old }
        ensures same_fails { (n : List ℕ) → fails_by self.new n ≡ fails_by self.old n }
    {
        let i = place_of(&self.kept, name).unwrap();
        self.read_faults = self.read_faults.saturating_add(source.faults());
        put_source(&mut self.kept, i, name, source);
    }

    fn keep_out(&mut self, name: &str, sink: MemSink)
        requires { opened_out_by self.old name.now ≡ true }
        ensures later { write_faults_by self.old ≤ write_faults_by self.new }
        ensures total { write_faults_by self.new
            ≡ added (write_faults_by self.old) (sinks.faults_of sink) }
        ensures other_kind { read_faults_by self.new ≡ read_faults_by self.old }
        ensures here { counts_by self.new name.now
            ≡ sinks_failed (counts_by self.old name.now) (sinks.faults_of sink) }
        ensures later_here { (counts_by self.old name.now).sink_faults
            ≤ (counts_by self.new name.now).sink_faults }
        ensures only_here { (n : List ℕ) → n ≢ name.now
            → counts_by self.new n ≡ counts_by self.old n }
        ensures bytes { told_by self.new ≡ insert (told_by self.old) name.now (sinks.held_in sink) }
        ensures left { (n : List ℕ) → left_by self.new n ≡ left_by self.old n }
        ensures stays_in { (n : List ℕ) → opened_in_by self.old n ≡ true
            → opened_in_by self.new n ≡ true }
        ensures stays_out { (n : List ℕ) → opened_out_by self.old n ≡ true
            → opened_out_by self.new n ≡ true }
        ensures same_piece { piece_by self.new ≡ piece_by self.old }
        ensures same_room { room_by self.new ≡ room_by self.old }
        ensures same_fails { (n : List ℕ) → fails_by self.new n ≡ fails_by self.old n }
    {
        let i = place_of(&self.kept, name).unwrap();
        let faults = sink.faults();
        self.write_faults = self.write_faults.saturating_add(faults);
        put_sink(&mut self.kept, i, name, faults, sink.into_bytes());
    }
}
