//! What a log begins with: the dataset, its supervoxels and its edges.

use crate::lists::{EdgeList, Ids};
use chunk_geometry::Grid;
use node_ids::{Layout, NodeId};

/// Two different supervoxels. Pairs are ordered by the lesser id, then the greater.
#[derive(Clone, Copy, PartialEq, Eq, Debug, Drop)]
pub struct Pair {
    /// The lesser id.
    pub a: NodeId,
    /// The greater id.
    pub b: NodeId,
}

/// How strongly two supervoxels belong together.
#[derive(Clone, Copy, PartialEq, Eq, Debug, Drop)]
pub enum Weight {
    /// What a cut pays for the pair, from 1 to 4,294,967,295.
    Affinity(u32),
    /// The pair is always active and never cut.
    Glue,
}

/// A pair of supervoxels with its weight and its state.
#[derive(Clone, Copy, PartialEq, Eq, Debug, Drop)]
pub struct Edge {
    /// The two supervoxels; a list of edges has each pair at most once.
    pub pair: Pair,
    /// It never changes.
    pub weight: Weight,
    /// Whether the edge joins its ends. Edits change this.
    pub active: bool,
}

/// The supervoxels and edges that a log begins with. `IsBase` in `specs/Valid.antt` says which
/// are meant: supervoxels of the dataset's grid, and edges between different ones of them.
#[derive(Drop)]
pub struct Base {
    /// Ids of layer 1, ascending.
    pub supervoxels: Ids,
    /// In any order, each pair at most once.
    pub edges: EdgeList,
}

/// What is fixed for a log. `IsDataset` in `specs/Valid.antt` says which are meant.
#[derive(Clone, Copy)]
pub struct Dataset {
    /// How ids hold layer, chunk and segment.
    pub layout: Layout,
    /// How many base chunks there are along each axis, at most what the layout's coordinates hold.
    pub grid: Grid,
    /// The affinity, at least 1, of an edge that a merge adds.
    pub merge_affinity: u32,
    /// How many records base and log may take, from 2 to 16,777,216.
    pub capacity: u32,
}
