ghost use Rattle.std.specs.Prelude.{◌≡◌, ◌≢◌, ◌+◌, ◌≤◌, ◌<◌, ℕ, List, [], ◌∷◌, Bool, true, false, Some, None, IfOk, OnOk, OnErr, IfSome, IfNone, length, map};
ghost use Rattle.std.specs.FinMap.{insert};
ghost use Rattle.pcg_base.specs.Causes.{added};
ghost use Rattle.memory_devices.specs.Kept.{Changes, FirstAt, name_of, entry_of, bytes_at, left_at, faults_in, faults_out, was_in, was_out, fails_at, fails_of, map_of, unopened_file};
ghost use Rattle.memory_devices.specs.Sources.{left_in};

use crate::mem_source::MemSource;
use pcg_base::NoMemory;
use std::alloc::Global;

/// A name in memory, its bytes, and which calls of its sources and sinks fail, by their numbers
/// counted from 1.
#[derive(Drop)]
pub struct MemFile {
    /// The name.
    pub name: String,
    /// The bytes at the name.
    pub bytes: Vec<u8>,
    /// The reads that fail, of each source of the name.
    pub read_fails: Vec<u32>,
    /// The writes that fail, of each sink of the name.
    pub write_fails: Vec<u32>,
    /// The flushes that fail, of each sink of the name.
    pub flush_fails: Vec<u32>,
}

/// What is kept beside a name.
#[derive(Drop)]
pub(crate) struct Kept {
    pub(crate) file: MemFile,
    pub(crate) left: Option<MemSource>,
    pub(crate) source_faults: u64,
    pub(crate) sink_faults: u64,
    pub(crate) opened_in: bool,
    pub(crate) opened_out: bool,
}

/// A file that was never opened.
pub(crate) fn unopened(file: MemFile) -> Kept
    ensures { result ≡ unopened_file file }
{
    Kept {
        file,
        left: None,
        source_faults: 0,
        sink_faults: 0,
        opened_in: false,
        opened_out: false,
    }
}

/// Files of which none was opened.
pub(crate) fn keep_all(alloc: Global, files: Vec<MemFile>) -> Result<Vec<Kept>, NoMemory>
    ensures { IfOk result (λ kept. kept.items ≡ map unopened_file files.items) }
{
    let mut kept = Vec::new(alloc);
    for file in files {
        if kept.push(unopened(file)).is_err() {
            return Err(NoMemory);
        }
    }
    Ok(kept)
}

/// Where a name's first entry stands.
pub(crate) fn place_of(kept: &[Kept], name: &str) -> Option<usize>
    ensures within { IfSome result (λ i. i < length kept.now) }
    ensures found { IfSome result (λ i. FirstAt name.now kept.now i) }
    ensures none { IfNone result (entry_of name.now kept.now ≡ None) }
{
    for i in 0..kept.len() {
        if kept[i].file.name.as_str() == name {
            return Some(i);
        }
    }
    None
}

/// Notes that a name was opened for reading.
pub(crate) fn open_in(kept: &mut Vec<Kept>, i: usize, name: &str)
    requires within { i < length kept.old.items }
    requires first { FirstAt name.now kept.old.items i }
    ensures files { map_of kept.new.items ≡ map_of kept.old.items }
    ensures left { (n : List ℕ) → left_at n kept.new.items ≡ left_at n kept.old.items }
    ensures source_faults { (n : List ℕ) → faults_in n kept.new.items ≡ faults_in n kept.old.items }
    ensures sink_faults { (n : List ℕ) → faults_out n kept.new.items ≡ faults_out n kept.old.items }
    ensures opened { was_in name.now kept.new.items ≡ true }
    ensures stays_in { (n : List ℕ) → was_in n kept.old.items ≡ true
        → was_in n kept.new.items ≡ true }
    ensures stays_out { (n : List ℕ) → was_out n kept.new.items ≡ was_out n kept.old.items }
    ensures fails { (n : List ℕ) → fails_at n kept.new.items ≡ fails_at n kept.old.items }
{
    let _ = name;
    kept[i].opened_in = true;
}

/// Empties a name, and notes that it was opened for writing.
pub(crate) fn open_out(kept: &mut Vec<Kept>, i: usize, name: &str)
    requires within { i < length kept.old.items }
    requires first { FirstAt name.now kept.old.items i }
    ensures files { map_of kept.new.items ≡ insert (map_of kept.old.items) name.now [] }
    ensures left { (n : List ℕ) → left_at n kept.new.items ≡ left_at n kept.old.items }
    ensures source_faults { (n : List ℕ) → faults_in n kept.new.items ≡ faults_in n kept.old.items }
    ensures sink_faults { (n : List ℕ) → faults_out n kept.new.items ≡ faults_out n kept.old.items }
    ensures opened { was_out name.now kept.new.items ≡ true }
    ensures stays_in { (n : List ℕ) → was_in n kept.new.items ≡ was_in n kept.old.items }
    ensures stays_out { (n : List ℕ) → was_out n kept.old.items ≡ true
        → was_out n kept.new.items ≡ true }
    ensures fails { (n : List ℕ) → fails_at n kept.new.items ≡ fails_at n kept.old.items }
{
    let _ = name;
    let entry = &mut kept[i];
    entry.file.bytes.clear();
    entry.opened_out = true;
}

/// Adds the faults of a source to its name's, and keeps what it has left.
pub(crate) fn put_source(kept: &mut Vec<Kept>, i: usize, name: &str, source: MemSource)
    requires within { i < length kept.old.items }
    requires first { FirstAt name.now kept.old.items i }
    ensures files { map_of kept.new.items ≡ map_of kept.old.items }
    ensures left { left_at name.now kept.new.items ≡ left_in source }
    ensures only_left { (n : List ℕ) → n ≢ name.now
        → left_at n kept.new.items ≡ left_at n kept.old.items }
    ensures here { faults_in name.now kept.new.items
        ≡ added (faults_in name.now kept.old.items) source.faults }
    ensures later { faults_in name.now kept.old.items ≤ faults_in name.now kept.new.items }
    ensures elsewhere { (n : List ℕ) → n ≢ name.now
        → faults_in n kept.new.items ≡ faults_in n kept.old.items }
    ensures sink_faults { (n : List ℕ) → faults_out n kept.new.items ≡ faults_out n kept.old.items }
    ensures stays_in { (n : List ℕ) → was_in n kept.new.items ≡ was_in n kept.old.items }
    ensures stays_out { (n : List ℕ) → was_out n kept.new.items ≡ was_out n kept.old.items }
    ensures fails { (n : List ℕ) → fails_at n kept.new.items ≡ fails_at n kept.old.items }
{
    let _ = name;
    let entry = &mut kept[i];
    entry.source_faults = entry.source_faults.saturating_add(source.faults());
    entry.left = Some(source);
}

/// Adds the faults of a sink to its name's, and puts its bytes there.
pub(crate) fn put_sink(kept: &mut Vec<Kept>, i: usize, name: &str, faults: u64, bytes: Vec<u8>)
    requires within { i < length kept.old.items }
    requires first { FirstAt name.now kept.old.items i }
    ensures files { map_of kept.new.items ≡ insert (map_of kept.old.items) name.now bytes.items }
    ensures left { (n : List ℕ) → left_at n kept.new.items ≡ left_at n kept.old.items }
    ensures here { faults_out name.now kept.new.items
        ≡ added (faults_out name.now kept.old.items) faults }
    ensures later { faults_out name.now kept.old.items ≤ faults_out name.now kept.new.items }
    ensures elsewhere { (n : List ℕ) → n ≢ name.now
        → faults_out n kept.new.items ≡ faults_out n kept.old.items }
    ensures source_faults { (n : List ℕ) → faults_in n kept.new.items ≡ faults_in n kept.old.items }
    ensures stays_in { (n : List ℕ) → was_in n kept.new.items ≡ was_in n kept.old.items }
    ensures stays_out { (n : List ℕ) → was_out n kept.new.items ≡ was_out n kept.old.items }
    ensures fails { (n : List ℕ) → fails_at n kept.new.items ≡ fails_at n kept.old.items }
{
    let _ = name;
    let entry = &mut kept[i];
    entry.sink_faults = entry.sink_faults.saturating_add(faults);
    entry.file.bytes = bytes;
}

/// An empty file of a name, opened for writing.
fn empty_file(alloc: Global, name: &str) -> Result<Kept, NoMemory>
    ensures name { IfOk result (λ k. name_of k ≡ name.now) }
    ensures bytes { IfOk result (λ k. k.file.bytes.items ≡ []) }
    ensures fails { IfOk result (λ k. fails_of (Some k) ≡ fails_of None) }
    ensures left { IfOk result (λ k. k.left ≡ None) }
    ensures source_faults { IfOk result (λ k. k.source_faults ≡ 0) }
    ensures sink_faults { IfOk result (λ k. k.sink_faults ≡ 0) }
    ensures opened_in { IfOk result (λ k. k.opened_in ≡ false) }
    ensures opened_out { IfOk result (λ k. k.opened_out ≡ true) }
{
    let Ok(text) = String::from_str(alloc, name) else {
        return Err(NoMemory);
    };
    let mut entry = unopened(MemFile {
        name: text,
        bytes: Vec::new(alloc),
        read_fails: Vec::new(alloc),
        write_fails: Vec::new(alloc),
        flush_fails: Vec::new(alloc),
    });
    entry.opened_out = true;
    Ok(entry)
}

/// Puts an entry of a name that has none behind the others.
fn push_entry(kept: &mut Vec<Kept>, name: &str, entry: Kept) -> Result<(), NoMemory>
    requires none { entry_of name.now kept.old.items ≡ None }
    requires named { name_of entry ≡ name.now }
    ensures changes { OnOk result (Changes name.now entry kept.old.items kept.new.items) }
    ensures err { OnErr result (kept.new.items ≡ kept.old.items) }
{
    let _ = name;
    if kept.push(entry).is_err() {
        return Err(NoMemory);
    }
    Ok(())
}

/// Makes an empty file at a name that has none, opened for writing.
pub(crate) fn put_new(alloc: Global, kept: &mut Vec<Kept>, name: &str) -> Result<(), NoMemory>
    requires { entry_of name.now kept.old.items ≡ None }
    ensures err { OnErr result (kept.new.items ≡ kept.old.items) }
    ensures files { OnOk result (map_of kept.new.items
        ≡ insert (map_of kept.old.items) name.now []) }
    ensures left { OnOk result ((n : List ℕ)
        → left_at n kept.new.items ≡ left_at n kept.old.items) }
    ensures source_faults { OnOk result ((n : List ℕ)
        → faults_in n kept.new.items ≡ faults_in n kept.old.items) }
    ensures sink_faults { OnOk result ((n : List ℕ)
        → faults_out n kept.new.items ≡ faults_out n kept.old.items) }
    ensures opened { OnOk result (was_out name.now kept.new.items ≡ true) }
    ensures stays_in { OnOk result ((n : List ℕ)
        → was_in n kept.new.items ≡ was_in n kept.old.items) }
    ensures stays_out { OnOk result ((n : List ℕ) → was_out n kept.old.items ≡ true
        → was_out n kept.new.items ≡ true) }
    ensures fails { OnOk result ((n : List ℕ)
        → fails_at n kept.new.items ≡ fails_at n kept.old.items) }
{
    let entry = empty_file(alloc, name)?;
    push_entry(kept, name, entry)?;
    Ok(())
}
