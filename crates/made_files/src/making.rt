//! All files of a job.

ghost use Rattle.std.specs.Prelude.{◌≡◌, ◌<◌, ◌≤◌, ◌+◌, ◌∷◌, [], ℕ, List, IfOk, get_or, length, map};
ghost use Rattle.std.specs.List.{All};
ghost use Rattle.made_input.specs.Edges.{IsMade, IsWish, edges_below};
ghost use Rattle.made_input.specs.Rows.{table_text};
ghost use Rattle.made_input.specs.Texts.{edge_fields, edge_header, input_of, stream_of, streams_of, supervoxel_rows};
ghost use Rattle.pcg_words.specs.Job.{IsMake, request_file};
ghost use Rattle.made_files.specs.Writing.{KeepsBut};
ghost use Rattle.made_files.specs.Files.{IsFile, IsLater, Wrote, files_of, name_of, streams_at, wish_of};

use crate::files::write_file;
use crate::pieces::Pieces;
use crate::stops::{MadeFile, MakeStop};
use crate::tables::{EdgeTable, RequestStream, SupervoxelTable};
use made_input::{MadeEdge, Wish, make_edges};
use node_ids::Layout;
use pcg_base::{Place, PlaceError};
use pcg_words::{MakeJob, Name, request_file};
use std::alloc::Global;

/// What input a job wishes for.
#[tactic(auto, unfolding(crate::specs::Files::wish_of, pcg_words::specs::Job::most_supervoxels))]
fn wish_of(job: &MakeJob) -> Wish
    requires { IsMake job.now }
    ensures is { result ≡ wish_of job.now }
    ensures fits { IsWish result }
{
    let layout = Layout::new(job.bits as u8).unwrap();
    Wish {
        layout,
        grid: job.grid,
        number: job.from,
        size: job.size as u32,
        clients: job.stems.list.len() as u32,
        requests: job.requests as u32,
    }
}

/// Writes one of the files of a job, and answers the state behind its text.
fn write_one<P: Place, T: Pieces>(
    job: &MakeJob,
    file: MadeFile,
    name: &Name,
    text: &T,
    piece: &mut Vec<u8>,
    place: &mut P,
) -> Result<u64, MakeStop>
    requires fits { T.fits text.now }
    requires named { IsFile job.now file × (name.now ≡ name_of job.now file) }
    ensures wrote { Wrote job.now (P.state place.old) (P.state place.new)
        ((name.now, T.text text.now) ∷ []) result }
    ensures state { IfOk result (λ s. s ≡ T.state text.now) }
    ensures later { IsLater (P.state place.old) (P.state place.new) }
    ensures reads { (P.state place.new).reads ≡ (P.state place.old).reads }
{
    match write_file(place, name.text.as_str(), text, piece) {
        Ok(state) => Ok(state),
        Err(PlaceError::Failed) => Err(MakeStop::Failed { file }),
        Err(PlaceError::NoMemory) => Err(MakeStop::NoMemory),
    }
}

/// Writes the supervoxel table.
fn write_supervoxels<P: Place>(
    job: &MakeJob,
    wish: &Wish,
    piece: &mut Vec<u8>,
    place: &mut P,
) -> Result<u64, MakeStop>
    requires fits { IsWish wish.now }
    ensures wrote { Wrote job.now (P.state place.old) (P.state place.new)
        ((job.now.supervoxels, table_text (supervoxel_rows wish.now)) ∷ []) result }
    ensures later { IsLater (P.state place.old) (P.state place.new) }
    ensures reads { (P.state place.new).reads ≡ (P.state place.old).reads }
{
    let table = SupervoxelTable { wish };
    write_one(
        job,
        MadeFile::Supervoxels,
        &job.supervoxels,
        &table,
        piece,
        place,
    )
}

/// Writes the edge table.
fn write_edges<P: Place>(
    job: &MakeJob,
    wish: &Wish,
    edges: &[MadeEdge],
    piece: &mut Vec<u8>,
    place: &mut P,
) -> Result<u64, MakeStop>
    requires fits { IsWish wish.now }
    requires made { All (IsMade wish.now) edges.now }
    ensures wrote { Wrote job.now (P.state place.old) (P.state place.new)
        ((job.now.edges, table_text (edge_header ∷ map (edge_fields wish.now) edges.now))
        ∷ []) result }
    ensures later { IsLater (P.state place.old) (P.state place.new) }
    ensures reads { (P.state place.new).reads ≡ (P.state place.old).reads }
{
    let table = EdgeTable { wish, edges };
    write_one(job, MadeFile::Edges, &job.edges, &table, piece, place)
}

/// Writes the request stream of the client at this index, which begins at a state. Answers the state
/// behind it.
fn write_stream<P: Place>(
    alloc: Global,
    job: &MakeJob,
    wish: &Wish,
    index: usize,
    from: u64,
    piece: &mut Vec<u8>,
    place: &mut P,
) -> Result<u64, MakeStop>
    requires fits { IsWish wish.now }
    requires there { index < length job.now.stems }
    requires few { length job.now.stems ≤ 64 }
    ensures wrote { Wrote job.now (P.state place.old) (P.state place.new)
        ((
          request_file (get_or job.now.stems index []),
          (stream_of wish.now from wish.now.requests).0,
        ) ∷ []) result }
    ensures state { IfOk result (λ s. s ≡ (stream_of wish.now from wish.now.requests).1) }
    ensures later { IsLater (P.state place.old) (P.state place.new) }
    ensures reads { (P.state place.new).reads ≡ (P.state place.old).reads }
{
    let Ok(name) = request_file(alloc, &job.stems.list[index]) else {
        return Err(MakeStop::NoMemory);
    };
    let client = index as u32 + 1;
    let stream = RequestStream { wish, from };
    write_one(
        job,
        MadeFile::Requests { client },
        &name,
        &stream,
        piece,
        place,
    )
}

/// Writes each client's request stream, the first from the state that the edges leave.
fn write_streams<P: Place>(
    alloc: Global,
    job: &MakeJob,
    wish: &Wish,
    from: u64,
    piece: &mut Vec<u8>,
    place: &mut P,
) -> Result<(), MakeStop>
    requires fits { IsWish wish.now }
    requires few { length job.now.stems ≤ 64 }
    requires behind { from ≡ (edges_below wish.now wish.now.size).1 }
    ensures wrote { Wrote job.now (P.state place.old) (P.state place.new)
        (streams_at job.now.stems (streams_of wish.now (length job.now.stems)).0) result }
    ensures later { IsLater (P.state place.old) (P.state place.new) }
    ensures reads { (P.state place.new).reads ≡ (P.state place.old).reads }
{
    let mut state = from;
    for index in 0..job.stems.list.len() {
        state = match write_stream(alloc, job, wish, index, state, piece, place) {
            Ok(behind) => behind,
            Err(stop) => return Err(stop),
        };
    }
    Ok(())
}

/// Writes all files of a job in order: the supervoxel table, the edge table, and each client's request
/// stream. Answers how many edges there are. The first fault ends it, and the file that failed then
/// holds a front of its text, if it was opened.
pub fn make_files<P: Place>(alloc: Global, job: &MakeJob, place: &mut P) -> Result<u32, MakeStop>
    requires { IsMake job.now }
    ensures wrote { Wrote job.now (P.state place.old) (P.state place.new) (files_of job.now)
        result }
    ensures others { KeepsBut (files_of job.now) (P.state place.old).files
        (P.state place.new).files }
    ensures edges { IfOk result (λ count. count ≡ (input_of (wish_of job.now)).edge_count) }
    ensures later { IsLater (P.state place.old) (P.state place.new) }
    ensures reads { (P.state place.new).reads ≡ (P.state place.old).reads }
{
    let wish = wish_of(job);
    let Ok(edges) = make_edges(alloc, &wish) else {
        return Err(MakeStop::NoMemory);
    };
    let mut piece = Vec::new(alloc);
    match write_supervoxels(job, &wish, &mut piece, place) {
        Ok(_) => {}
        Err(stop) => return Err(stop),
    }
    match write_edges(job, &wish, edges.list.as_slice(), &mut piece, place) {
        Ok(_) => {}
        Err(stop) => return Err(stop),
    }
    match write_streams(alloc, job, &wish, edges.state, &mut piece, place) {
        Ok(()) => Ok(edges.list.len() as u32),
        Err(stop) => Err(stop),
    }
}
