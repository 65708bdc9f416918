ghost use Rattle.std.specs.Prelude.{◌≡◌, ◌==◌, ◌||◌, ◌+◌, ◌-◌, ◌≤◌, ◌<◌, min, length, List, [], IfOk, is_err, Some, vec_len};
ghost use Rattle.std.specs.Vec.{vec_capacity};
ghost use Rattle.std.specs.List.{list_any};
ghost use Rattle.std.specs.Io.KnownBytes.{WriteAppends, Keeps};
ghost use Rattle.pcg_base.specs.Causes.{HasCause, added};

use crate::mem_source::is_named;
use pcg_base::{Failed, NoMemory, Sink};
use std::alloc::Global;

/// Bytes in memory that are taken in pieces into a fixed room, by writes and flushes of which chosen
/// ones fail.
#[derive(Drop)]
pub struct MemSink {
    bytes: Vec<u8>,
    room: usize,
    piece: usize,
    fails: Vec<u32>,
    flush_fails: Vec<u32>,
    calls: u64,
    flushes: u64,
    flushed: usize,
    faults: u64,
    ghost within: { flushed ≤ length bytes.items },
    ghost fits: { vec_len bytes + room ≤ vec_capacity bytes },
    ghost some: { 0 < piece },
}

impl MemSink {
    ghost use Rattle.memory_devices.specs.Sinks.{held_in, flushed_in, room_of, piece_of, fails_of, flush_fails_of, calls_of, flushes_of, faults_of};

    /// An empty sink with room for `room` bytes, taken at once. A write takes at most `piece` bytes
    /// and at most the room that is left; writes fail exactly at the numbers in `fails`, counted
    /// from 1, and where no room is left. No flush fails.
    pub fn new(alloc: Global, piece: usize, room: u64, fails: Vec<u32>) -> Result<MemSink, NoMemory>
        requires { 0 < piece }
        ensures held { IfOk result (λ k. held_in k ≡ []) }
        ensures flushed { IfOk result (λ k. flushed_in k ≡ []) }
        ensures room { IfOk result (λ k. room_of k ≡ room) }
        ensures piece { IfOk result (λ k. piece_of k ≡ piece) }
        ensures fails { IfOk result (λ k. fails_of k ≡ fails.items) }
        ensures flush_fails { IfOk result (λ k. flush_fails_of k ≡ []) }
        ensures calls { IfOk result (λ k. calls_of k ≡ 0) }
        ensures flushes { IfOk result (λ k. flushes_of k ≡ 0) }
        ensures faults { IfOk result (λ k. faults_of k ≡ 0) }
    {
        MemSink::with_flush_fails(alloc, piece, room, fails, Vec::new(alloc))
    }

    /// The same, whose flushes fail exactly at the numbers in `flush_fails`, counted from 1.
    pub fn with_flush_fails(
        alloc: Global,
        piece: usize,
        room: u64,
        fails: Vec<u32>,
        flush_fails: Vec<u32>,
    ) -> Result<MemSink, NoMemory>
        requires { 0 < piece }
        ensures held { IfOk result (λ k. held_in k ≡ []) }
        ensures flushed { IfOk result (λ k. flushed_in k ≡ []) }
        ensures room { IfOk result (λ k. room_of k ≡ room) }
        ensures piece { IfOk result (λ k. piece_of k ≡ piece) }
        ensures fails { IfOk result (λ k. fails_of k ≡ fails.items) }
        ensures flush_fails { IfOk result (λ k. flush_fails_of k ≡ flush_fails.items) }
        ensures calls { IfOk result (λ k. calls_of k ≡ 0) }
        ensures flushes { IfOk result (λ k. flushes_of k ≡ 0) }
        ensures faults { IfOk result (λ k. faults_of k ≡ 0) }
    {
        let room = room as usize;
        let Ok(bytes) = Vec::with_capacity(alloc, room) else {
            return Err(NoMemory);
        };
        Ok(MemSink {
            bytes,
            room,
            piece,
            fails,
            flush_fails,
            calls: 0,
            flushes: 0,
            flushed: 0,
            faults: 0,
        })
    }

    /// The bytes that it holds.
    pub fn bytes(&self) -> &[u8]
        ensures { result.now ≡ held_in self.now }
    {
        self.bytes.as_slice()
    }

    /// The bytes that it holds, taken out of it.
    pub fn into_bytes(self) -> Vec<u8>
        ensures { result.items ≡ held_in self }
    {
        self.bytes
    }

    /// How often it has failed.
    pub fn faults(&self) -> u64
        ensures { result ≡ faults_of self.now }
    {
        self.faults
    }
}

impl Sink for MemSink {
    ghost use Rattle.std.specs.Prelude.{◌≡◌, ◌==◌, ◌||◌, ◌-◌, ◌≤◌, ◌<◌, min, length, IfOk, OnOk, OnErr, is_err, Some};
    ghost use Rattle.pcg_base.specs.Told.{IsFlushed};
    ghost use Rattle.memory_devices.specs.Sinks.{held_in, flushed_in, room_of, piece_of, fails_of, flush_fails_of, calls_of, flushes_of, faults_of, state_of};

    ghost state = { λ k. state_of k };

    fn write(&mut self, piece: &[u8]) -> Result<usize, Failed>
        ensures bound { IfOk result (λ n. n ≤ length piece.now) }
        ensures some { 0 < length piece.now → IfOk result (λ n. 0 < n) }
        ensures bytes { WriteAppends (Some (held_in self.old)) (Some (held_in self.new)) result
            piece.now }
        ensures unflushed { flushed_in self.new ≡ flushed_in self.old }
        ensures cause { HasCause (faults_of self.old) (faults_of self.new) result }
        ensures call { calls_of self.new ≡ added (calls_of self.old) 1 }
        ensures fails { is_err result
            ≡ (list_any (λ f. f == calls_of self.new) (fails_of self.old) ||
            (room_of self.old == 0)) }
        ensures count { IfOk result (λ n. n
            ≡ min (min (length piece.now) (piece_of self.old)) (room_of self.old)) }
        ensures room { IfOk result (λ n. room_of self.new ≡ room_of self.old - n) }
        ensures same_piece { piece_of self.new ≡ piece_of self.old }
        ensures same_fails { fails_of self.new ≡ fails_of self.old }
        ensures same_flush_fails { flush_fails_of self.new ≡ flush_fails_of self.old }
        ensures same_flushes { flushes_of self.new ≡ flushes_of self.old }
    {
        self.calls = self.calls.saturating_add(1);
        if is_named(&self.fails, self.calls) || self.room == 0 {
            self.faults = self.faults.saturating_add(1);
            return Err(Failed);
        }
        let count = piece.len().min(self.piece).min(self.room);
        let (front, _) = piece.split_at(count);
        let Ok(()) = self.bytes.extend_from_slice(front) else {
            unreachable!()
        };
        self.room -= count;
        Ok(count)
    }

    fn flush(&mut self) -> Result<(), Failed>
        ensures bytes { held_in self.new ≡ held_in self.old }
        ensures flushed { OnOk result
            (IsFlushed (Some (held_in self.new)) (Some (flushed_in self.new))) }
        ensures unflushed { OnErr result (flushed_in self.new ≡ flushed_in self.old) }
        ensures cause { HasCause (faults_of self.old) (faults_of self.new) result }
        ensures call { flushes_of self.new ≡ added (flushes_of self.old) 1 }
        ensures fails { is_err result
            ≡ list_any (λ f. f == flushes_of self.new) (flush_fails_of self.old) }
        ensures room { room_of self.new ≡ room_of self.old }
        ensures calls { calls_of self.new ≡ calls_of self.old }
        ensures same_piece { piece_of self.new ≡ piece_of self.old }
        ensures same_fails { fails_of self.new ≡ fails_of self.old }
        ensures same_flush_fails { flush_fails_of self.new ≡ flush_fails_of self.old }
    {
        self.flushes = self.flushes.saturating_add(1);
        if is_named(&self.flush_fails, self.flushes) {
            self.faults = self.faults.saturating_add(1);
            return Err(Failed);
        }
        self.flushed = self.bytes.len();
        Ok(())
    }
}
