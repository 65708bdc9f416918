//! What may be wrong with a table.

ghost use Rattle.std.specs.Prelude.{◌≡◌};
ghost use Rattle.table_ingest.specs.Faults.{cause_name, table_name};

use thiserror::Error;

/// Which of the two tables.
#[derive(Clone, Copy, PartialEq, Eq, Debug, Drop)]
pub enum Table {
    /// The table of supervoxels.
    Supervoxels,
    /// The table of edges.
    Edges,
}

/// What is wrong with a record. Of several causes that one record has, the first in this order counts.
#[derive(Clone, Copy, PartialEq, Eq, Debug, Drop)]
pub enum Cause {
    /// The first record isn't the table's header, or there is none.
    BadHeader,
    /// The record hasn't as many fields as the header.
    FieldCount,
    /// An id's field isn't 1 to 20 decimal digits of a number below 2^64, without a leading zero.
    BadId,
    /// A supervoxel's layer isn't 1.
    WrongLayer,
    /// A supervoxel's chunk isn't in the dataset's grid.
    OutsideGrid,
    /// A supervoxel's segment is 0.
    ZeroSegment,
    /// An earlier record of the supervoxel table has the same id.
    DoubleSupervoxel,
    /// An end of an edge isn't in the supervoxel table.
    UnknownEnd,
    /// Both ends of an edge are one supervoxel.
    SelfEdge,
    /// An earlier record of the edge table has the same two ends, in either order.
    DoubleEdge,
    /// The affinity is neither a number from 1 to 4,294,967,295 nor `glue`.
    BadAffinity,
    /// The state is neither `1` nor `0`.
    BadActive,
    /// An edge with glue has the state `0`.
    GlueInactive,
}

/// Why two tables gave no base.
#[derive(Debug, Drop, Error)]
pub enum TableError {
    /// This record is the first one with a cause, and this is its first cause. The supervoxel table comes
    /// first. The header is record 0, and the others are counted from 1.
    #[error("a record of a table has a cause")]
    Bad {
        table: Table,
        row: u64,
        cause: Cause,
    },
    /// Memory ran out. It may come at any time.
    #[error("memory ran out")]
    NoMemory,
}

impl Table {
    /// The table's name in a fault line.
    pub fn name(&self) -> &'static str
        ensures { result.now ≡ table_name self.now }
    {
        match self {
            Table::Supervoxels => "supervoxels",
            Table::Edges => "edges",
        }
    }
}

impl Cause {
    /// The cause's name in a fault line.
    pub fn name(&self) -> &'static str
        ensures { result.now ≡ cause_name self.now }
    {
        match self {
            Cause::BadHeader => "BadHeader",
            Cause::FieldCount => "FieldCount",
            Cause::BadId => "BadId",
            Cause::WrongLayer => "WrongLayer",
            Cause::OutsideGrid => "OutsideGrid",
            Cause::ZeroSegment => "ZeroSegment",
            Cause::DoubleSupervoxel => "DoubleSupervoxel",
            Cause::UnknownEnd => "UnknownEnd",
            Cause::SelfEdge => "SelfEdge",
            Cause::DoubleEdge => "DoubleEdge",
            Cause::BadAffinity => "BadAffinity",
            Cause::BadActive => "BadActive",
            Cause::GlueInactive => "GlueInactive",
        }
    }
}
