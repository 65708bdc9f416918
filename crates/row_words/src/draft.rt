//! New records on their way into the words.

ghost use Rattle.std.specs.Prelude.{◌≡◌, ◌<◌, ◌≤◌, ◌+◌, ◌^◌, [], length, slice_get, Some, IfOk};
ghost use Rattle.row_words.specs.Drafts.{with_link, with_row};

use crate::spot::Spot;
use pcg_base::NoMemory;
use std::alloc::Global;
use std::marker::Model;

/// A pointer of a record before the tail, and where it is to lead.
#[derive(Clone, Copy, PartialEq, Eq, Debug, Drop)]
pub struct DraftLink {
    /// The record that has the pointer.
    pub from: Spot,
    /// Which of its words the pointer is, from 4 to 7.
    pub k: u8,
    /// The record that it is to lead to.
    pub to: Spot,
}

/// New records behind those of the words, and pointers of those that are to be filled. The tail is
/// the place of the first new record. Memory was taken beforehand: contracts see the records, the
/// pointers, and for how many more of each there is room: no more records than have places below
/// 2^32.
#[derive(Debug, Drop)]
pub struct Draft {
    tail: u32,
    rows: Vec<[u64; 8]>,
    links: Vec<DraftLink>,
}

impl Model for Draft {
    ghost use Rattle.std.specs.Prelude.{◌-◌, length, min, vec_capacity, ◌^◌};
    ghost use Rattle.row_words.specs.Drafts.{DraftRows, IsDraft, draft_rows, most_rows};

    ghost Value = { DraftRows };

    ghost view = { λ d. draft_rows d.tail d.rows.items d.links.items
        (min (vec_capacity d.rows) (most_rows d.tail) - length d.rows.items)
        (min (vec_capacity d.links) (2 ^ 32 - 1) - length d.links.items) };

    ghost invariant = { λ d. IsDraft d.tail d.rows.items d.links.items };
}

impl Draft {
    /// An empty draft with room for at least `count` records, the first of them at place `tail`,
    /// and for at least `links` pointers.
    ///
    /// # Errors
    ///
    /// `NoMemory` where the room can't be had.
    pub fn new(alloc: Global, tail: u32, count: u32, links: u32) -> Result<Draft, NoMemory>
        requires places { tail + count ≤ 2 ^ 32 }
        ensures tail { IfOk result (λ d. d.tail ≡ tail) }
        ensures no_rows { IfOk result (λ d. d.rows ≡ []) }
        ensures no_links { IfOk result (λ d. d.links ≡ []) }
        ensures row_room { IfOk result (λ d. count ≤ d.row_room) }
        ensures link_room { IfOk result (λ d. links ≤ d.link_room) }
    {
        let mut rows = Vec::new(alloc);
        if rows.reserve(count as usize).is_err() {
            return Err(NoMemory);
        }
        let mut pointers = Vec::new(alloc);
        if pointers.reserve(links as usize).is_err() {
            return Err(NoMemory);
        }
        Ok(Draft {
            tail,
            rows,
            links: pointers,
        })
    }

    /// Puts a record behind the others, for which there must be room, and gives its place. It takes
    /// no memory.
    pub fn add_row(&mut self, words: [u64; 8]) -> Spot
        requires room { 0 < self.old.row_room }
        ensures place { result ≡ self.old.tail + length self.old.rows }
        ensures put { self.new ≡ with_row self.old words }
    {
        let place = Spot(self.tail + self.rows.len() as u32);
        self.rows.push_reserved(words);
        place
    }

    /// Puts a pointer behind the others, for which there must be room: word `k`, from 4 to 7, of
    /// the record at `from`, before the tail, is to lead to the record at `to`. It takes no memory.
    pub fn add_link(&mut self, from: Spot, k: u8, to: Spot)
        requires room { 0 < self.old.link_room }
        requires before { from < self.old.tail }
        requires pointer { (4 ≤ k) × (k < 8) }
        ensures put { self.new ≡ with_link self.old from k to }
    {
        self.links.push_reserved(DraftLink { from, k, to });
    }

    /// The place of the first new record.
    pub fn tail(&self) -> u32
        ensures { result ≡ self.now.tail }
    {
        self.tail
    }

    /// How many new records there are.
    pub fn rows(&self) -> u32
        ensures { result ≡ length self.now.rows }
    {
        self.rows.len() as u32
    }

    /// The words of the k-th new record, counted from 0.
    pub fn row(&self, k: u32) -> [u64; 8]
        requires { k < length self.now.rows }
        ensures { slice_get self.now.rows k ≡ Some result }
    {
        self.rows[k as usize]
    }

    /// How many pointers there are.
    pub fn links(&self) -> u32
        ensures { result ≡ length self.now.links }
    {
        self.links.len() as u32
    }

    /// The k-th pointer, counted from 0.
    pub fn link(&self, k: u32) -> DraftLink
        requires { k < length self.now.links }
        ensures is { slice_get self.now.links k ≡ Some result }
        ensures before { result.from < self.now.tail }
        ensures pointer { (4 ≤ result.k) × (result.k < 8) }
    {
        self.links[k as usize]
    }
}
