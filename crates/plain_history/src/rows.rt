//! Records with their pointers, one behind the other.

use std::alloc::{AllocError, Global};

/// What the records of a chain tell of.
#[derive(Clone, Copy, PartialEq, Eq, Drop)]
pub enum Subject {
    /// Nothing: no record is in such a chain.
    Nothing,
    /// The supervoxel or the node of an id.
    Id,
    /// The nodes of a chunk.
    NodeIn,
    /// The links of a child.
    VersionOf,
    /// The links to a parent.
    ChildOf,
    /// The edges of a supervoxel.
    EdgeAt,
    /// The edge of a pair.
    EdgeOf,
    /// The changes of a pair.
    ChangeOf,
    /// The changes of an entry.
    ChangeIn,
    /// The items of an entry.
    ItemIn,
    /// The entry of a number.
    Entry,
}

/// The records with one subject, in the order of their places.
#[derive(Clone, Copy, Drop)]
pub struct Chain {
    /// What they tell of.
    pub of: Subject,
    /// Its id or its number; of a pair the lesser id.
    pub a: u64,
    /// Of a pair the greater id, else 0.
    pub b: u64,
}

/// The chain without records.
pub const NOWHERE: Chain = Chain {
    of: Subject::Nothing,
    a: 0,
    b: 0,
};

impl Chain {
    // whether both are one chain; most differ in the first number
    fn is(self, other: Chain) -> bool {
        self.a == other.a && self.b == other.b && self.of == other.of
    }
}

/// A chain of what has one number.
pub fn of(of: Subject, a: u64) -> Chain {
    Chain { of, a, b: 0 }
}

/// A record.
#[derive(Clone, Copy, Drop)]
pub struct Row {
    /// Its words 0 to 3.
    pub fixed: [u64; 4],
    /// Its words 4 to 7: places of records, or 0.
    pub pointers: [u64; 4],
    /// The chains that the pointers lead along.
    pub aims: [Chain; 4],
    /// Whether a pointer leads to the first record of its chain, and not to the next one behind it.
    pub first: [bool; 4],
    /// The chains in which the record is.
    pub chains: [Chain; 3],
}

impl Row {
    // whether the record is in a chain
    fn is_in(&self, chain: Chain) -> bool {
        chain.of != Subject::Nothing
            && (self.chains[0].is(chain) || self.chains[1].is(chain) || self.chains[2].is(chain))
    }

    // whether this pointer is empty, and leads to such a record
    fn waits_for(&self, k: usize, row: &Row) -> bool {
        k < 4 && self.pointers[k] == 0 && row.is_in(self.aims[k])
    }

    // fills each empty pointer that leads to this record
    fn fill(&mut self, place: u64, row: &Row) {
        for k in 0..4 {
            if self.waits_for(k, row) {
                self.pointers[k] = place;
            }
        }
    }
}

/// Records, of which the first has place 0.
#[derive(Drop)]
pub struct Rows {
    pub list: Vec<Row>,
}

impl Rows {
    // no records
    pub(crate) fn new(alloc: Global) -> Rows {
        Rows {
            list: Vec::new(alloc),
        }
    }

    // the place of the first record in a chain, or 0
    pub(crate) fn first_in(&self, chain: Chain) -> u64 {
        let mut place: u64 = 0;
        for row in self.list.as_slice() {
            if row.is_in(chain) {
                return place;
            }
            place = place.wrapping_add(1);
        }
        0
    }

    // how many records are in a chain
    pub(crate) fn count_in(&self, chain: Chain) -> u64 {
        let mut count: u64 = 0;
        for row in self.list.as_slice() {
            if row.is_in(chain) {
                count = count.wrapping_add(1);
            }
        }
        count
    }

    // the pointers of a record that lead to records before it
    fn behind(&self, row: &mut Row) {
        for k in 0..4 {
            if row.first[k] {
                row.pointers[k] = self.first_in(row.aims[k]);
            }
        }
    }

    // puts a record behind the others, and fills the pointers that lead to it
    pub(crate) fn push(&mut self, row: Row) -> Result<(), AllocError> {
        let mut row = row;
        self.behind(&mut row);
        let place = self.list.len() as u64;
        for old in self.list.as_mut_slice() {
            old.fill(place, &row);
        }
        self.list.push(row)?;
        Ok(())
    }

    // fills the third pointer of a node, if it is empty
    pub(crate) fn retire(&mut self, id: u64, entry: u64) {
        let own = of(Subject::Id, id);
        for row in self.list.as_mut_slice() {
            if row.is_in(own) && row.pointers[2] == 0 {
                row.pointers[2] = entry;
            }
        }
    }
}
