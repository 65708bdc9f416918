//! The base of the made tables.

ghost use Rattle.std.specs.Prelude.{◌≡◌, IfErr, IfOk, map};
ghost use Rattle.made_bases.specs.Laws.{base_made};
ghost use Rattle.made_input.specs.Edges.{IsWish};
ghost use Rattle.made_input.specs.Texts.{input_of, said};
ghost use Rattle.op_model.specs.Valid.{IsBase};

use made_input::{MadeInput, Wish, make_tables};
use op_model::{Base, Dataset};
use std::alloc::Global;
use table_ingest::{TableError, read_base};

/// The base of the tables that are made for a wish, over a dataset of its layout and grid. It is a base
/// of that dataset. The only error is that memory ran out.
pub fn made_base(alloc: Global, wish: &Wish, dataset: &Dataset) -> Result<Base, TableError>
    requires fits { IsWish wish.now }
    requires layout { dataset.now.layout ≡ wish.now.layout }
    requires grid { dataset.now.grid ≡ wish.now.grid }
    ensures ok { IfOk result (λ b. b ≡ base_made wish.now) }
    ensures valid { IfOk result (λ b. IsBase dataset.now b) }
    ensures err { IfErr result (λ e. e ≡ TableError.NoMemory) }
{
    match base_and_streams(alloc, wish, dataset) {
        Ok(made) => {
            let BaseAndStreams { base, .. } = made;
            Ok(base)
        }
        Err(error) => Err(error),
    }
}

/// The base of tables that were made for a wish.
fn base_of(
    alloc: Global,
    wish: &Wish,
    dataset: &Dataset,
    made: &MadeInput,
) -> Result<Base, TableError>
    requires fits { IsWish wish.now }
    requires layout { dataset.now.layout ≡ wish.now.layout }
    requires grid { dataset.now.grid ≡ wish.now.grid }
    requires made { said made.now ≡ input_of wish.now }
    ensures ok { IfOk result (λ b. b ≡ base_made wish.now) }
    ensures valid { IfOk result (λ b. IsBase dataset.now b) }
    ensures err { IfErr result (λ e. e ≡ TableError.NoMemory) }
{
    read_base(
        alloc,
        made.supervoxels.as_slice(),
        made.edges.as_slice(),
        dataset,
    )
}

/// A base that was made for a wish, and the clients' request streams.
#[derive(Drop)]
pub struct BaseAndStreams {
    /// The base of the made tables.
    pub base: Base,
    /// The clients' request streams, in order.
    pub streams: Vec<Vec<u8>>,
}

/// The base of the tables that are made for a wish, as [`made_base`] answers it, and the request
/// streams that are made with them. The tables' texts are let go. The only error is that memory ran
/// out.
pub fn base_and_streams(
    alloc: Global,
    wish: &Wish,
    dataset: &Dataset,
) -> Result<BaseAndStreams, TableError>
    requires fits { IsWish wish.now }
    requires layout { dataset.now.layout ≡ wish.now.layout }
    requires grid { dataset.now.grid ≡ wish.now.grid }
    ensures base { IfOk result (λ m. m.base ≡ base_made wish.now) }
    ensures streams { IfOk result
        (λ m. map (λ v. v.items) m.streams.items ≡ (input_of wish.now).streams) }
    ensures valid { IfOk result (λ m. IsBase dataset.now m.base) }
    ensures err { IfErr result (λ e. e ≡ TableError.NoMemory) }
{
    let Ok(made) = make_tables(alloc, wish) else {
        return Err(TableError::NoMemory);
    };
    let base = match base_of(alloc, wish, dataset, &made) {
        Ok(base) => base,
        Err(error) => return Err(error),
    };
    let MadeInput { streams, .. } = made;
    Ok(BaseAndStreams { base, streams })
}
