//! Names of words that stand in the samples, and of ids.

// the supervoxels, two in each of two base chunks
pub const P: u64 = 72057594037927937;

pub const Q: u64 = 72057594037927938;

pub const R: u64 = 72339069014638593;

pub const S: u64 = 72339069014638594;

// a fifth supervoxel, in the chunk of r and s
pub const T: u64 = 72339069014638595;

// the only supervoxels of the third and the fourth chunk of four in a row
pub const C: u64 = 72620543991349249;

pub const D: u64 = 72902018968059905;

// the one chunk of the top layer where four chunks are in a row, and where there is one chunk
pub const FOUR_0: u64 = 288230376151711744;

pub const ONE_0: u64 = 144115188075855872;

// the first base chunk in layer 2, and its nodes
pub const LEFT_0: u64 = 144115188075855872;

pub const LEFT_1: u64 = 144115188075855873;

pub const LEFT_2: u64 = 144115188075855874;

// the second base chunk in layer 2, and its nodes
pub const RIGHT_0: u64 = 144396663052566528;

pub const RIGHT_1: u64 = 144396663052566529;

pub const RIGHT_2: u64 = 144396663052566530;

pub const RIGHT_3: u64 = 144396663052566531;

pub const RIGHT_4: u64 = 144396663052566532;

pub const RIGHT_5: u64 = 144396663052566533;

pub const RIGHT_6: u64 = 144396663052566534;

pub const RIGHT_7: u64 = 144396663052566535;

pub const RIGHT_8: u64 = 144396663052566536;

pub const RIGHT_9: u64 = 144396663052566537;

// the one chunk of layer 3, which is the top, and its nodes
pub const TOP_0: u64 = 216172782113783808;

pub const TOP_1: u64 = 216172782113783809;

pub const TOP_2: u64 = 216172782113783810;

pub const TOP_3: u64 = 216172782113783811;

pub const TOP_4: u64 = 216172782113783812;

pub const TOP_5: u64 = 216172782113783813;

pub const TOP_6: u64 = 216172782113783814;

pub const TOP_7: u64 = 216172782113783815;

pub const TOP_8: u64 = 216172782113783816;

// client 1, line 1
pub const LINE: u64 = 4294967297;

// two base chunks along x, one along y and z
pub const GRID: u64 = 1099512676354;

// four supervoxels and three chunks
pub const COUNTS: u64 = 12884901892;

// an edge that entry 3 made
pub const EDGE_3: u64 = 12884901894;
