//! What the tests run over: two tables and requests, and the texts that a call makes of them.

pub const WORDS: &str =
    "rehearse --bits 8 --grid 2,1,1 --supervoxels supervoxels.csv --edges edges.csv --merge-affinity 1 --clock 1000,10 first";

pub const SUPERVOXELS: &[u8] =
    b"supervoxel\n72057594037927937\n72057594037927938\n72339069014638593\n72339069014638594\n";

pub const EDGES: &[u8] =
    b"a,b,affinity,active\n72057594037927937,72057594037927938,10,1\n72057594037927938,72339069014638593,7,1\n72339069014638593,72339069014638594,5,0\n";

pub const ROOTS: &[u8] =
    b"{\"do\":\"root\",\"sv\":\"72057594037927937\"}\n{\"do\":\"root\",\"sv\":\"72339069014638594\"}\n";

pub const REPLIES: &[u8] =
    b"{\"ok\":true,\"root\":\"216172782113783809\",\"seen\":1}\n{\"ok\":true,\"root\":\"216172782113783810\",\"seen\":1}\n";

pub const LOG: &[u8] =
    b"{\"at\":1000,\"changed\":[],\"client\":0,\"line\":0,\"made\":[\"216172782113783809\",\"216172782113783810\"],\"op\":0,\"request\":{\"do\":\"ingest\"},\"retired\":[]}\n";

pub const SUMMARY: &[u8] =
    b"{\"accepted\":0,\"clients\":1,\"entries\":1,\"faults\":[],\"lines\":2,\"records\":24,\"refused\":0,\"roots\":2,\"status\":0}\n";
