//! Laws over the definitions, each the contract of a function that does nothing. They are written
//! out in `specs/Laws.antt`.

ghost use Rattle.layer_laws.specs.Laws.{ChunksNest, ComponentsNest, EdgesRise, FirstsAreFound, FoundNodesMake, LayersContract, LeastLeavesRise, NumbersContract, NumbersInOrder, OthersStay, SearchesRemake};
ghost use Rattle.layer_laws.specs.Worked.{WorkedLayers};

/// Each chunk lies in one chunk of the next layer, whose id is told by its own. Two supervoxels lie
/// in one chunk of a layer just where their level is at most the layer; a level is from 2 to 18.
pub fn chunks_nest()
    ensures { ChunksNest }
{}

/// Supervoxels that are joined in a layer are joined in each higher one, so that a component is one
/// of whole components of each layer below.
pub fn components_nest()
    ensures { ComponentsNest }
{}

/// A layer joins what the layer below joined, and the active pairs whose level it is; layer 2 joins
/// the active pairs whose ends lie in one base chunk.
pub fn layers_contract()
    ensures { LayersContract }
{}

/// Where the nodes of the layer below have numbers, the pairs of numbers that active pairs of the
/// layer's level give join just what the layer joins: of all supervoxels, of those of one chunk, or
/// of any list that misses none that is joined to one of its own.
pub fn numbers_contract()
    ensures { NumbersContract }
{}

/// For building: in layer 1 each supervoxel is the least leaf of its node. From the least leaves of
/// the layer below, the components of the pairs of them that meet in a layer give those of the
/// layer.
pub fn least_leaves_rise()
    ensures { LeastLeavesRise }
{}

/// The new nodes of a chunk have the chunk's next numbers in the order of their least leaves.
pub fn numbers_in_order()
    ensures { NumbersInOrder }
{}

/// At the ingest the least leaves of a chunk's nodes, ascending, are those that have its next
/// numbers (`ingest`); at a later entry so are the least leaves of the nodes that were found from
/// changed ones (`later`).
pub fn firsts_are_found()
    ensures { FirstsAreFound }
{}

/// An entry leaves a node alone that has no end of its changed pairs: leaves, id, and the active
/// edges that lead out of the chunk. Whether a node has such an end may be asked before the entry
/// or after it.
pub fn others_stay()
    ensures { OthersStay }
{}

/// For making a layer anew: a search that starts with the supervoxels of the changed nodes of the
/// layer below, and goes on to nodes that active pairs of the layer's level lead to, finds just
/// those of its own changed nodes.
pub fn searches_remake()
    ensures { SearchesRemake }
{}

/// The active edges that lead out of a node's chunk are those of the nodes below it but for the
/// ones whose level is the layer, and those tell what meets in the layer.
pub fn edges_rise()
    ensures { EdgesRise }
{}

/// For making a layer anew: nodes of the layer below that were found from changed ones, with the
/// pairs of them that edges of the layer's level give, make its changed nodes by the components of
/// those pairs: their leaves, their least leaves, and the edges that lead out of their chunks.
pub fn found_nodes_make()
    ensures { FoundNodesMake }
{}

/// Layers of a small log that were worked out by hand, before a merge and after it.
pub fn worked_layers()
    ensures { WorkedLayers }
{}
