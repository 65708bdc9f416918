//! Where chains end with one more record behind, each law the contract of a function that does
//! nothing. They are written out in `specs/Laws.antt`.

ghost use Rattle.row_append.specs.Laws.{ChunksBegin, EdgesEnd, EndsAreLast, EndsLie, EndsStay, FoundLast, FoundStays, FreeHasNone, FreeStays, HeadersStay, LinksEnd, NodesBegin, NodesEnd, SupervoxelsBegin};

/// Where a chain ends: at a pointer of its owner if it has no member, else of its last member
/// (`last`); and at one of the words (`within`).
pub fn ends_are_last()
    ensures last { EndsAreLast }
    ensures within { EndsLie }
{}

/// A record leaves the ends of the chains that it is no part of (`ends`), and leaves free those
/// that are free (`free`); and records that begin with a header still do (`headers`).
pub fn others_stay()
    ensures ends { EndsStay }
    ensures free { FreeStays }
    ensures headers { HeadersStay }
{}

/// A chain with neither owner nor member has no member (`none`). When its owner comes, it ends at
/// the owner's first pointer: of a supervoxel's two chains, a chunk's one and a node's two.
pub fn chains_begin()
    ensures none { FreeHasNone }
    ensures supervoxels { SupervoxelsBegin }
    ensures chunks { ChunksBegin }
    ensures nodes { NodesBegin }
{}

/// A chain ends at the new member's next pointer, wherever it ended before.
pub fn members_end()
    ensures edges { EdgesEnd }
    ensures nodes { NodesEnd }
    ensures links { LinksEnd }
{}

/// The place of the first record that a test passes: it stays when more come behind (`stays`), and
/// is the new record's if no other passes (`last`).
pub fn first_places_stay()
    ensures stays { FoundStays }
    ensures last { FoundLast }
{}
