//! The grid of base chunks and its layers.

ghost use Rattle.std.specs.Prelude.{◌≡◌, ◌≤◌, ◌^◌, ◌-◌, ℕ, true};
ghost use Rattle.chunk_geometry.specs.Chunks.{chunk_at, top_layer, widest};
ghost use Rattle.chunk_geometry.specs.Grids.{grid_of, in_grid};
ghost use Rattle.chunk_geometry.specs.Levels.{level};

use crate::Cell;
use std::marker::Model;

/// How many base chunks there are along each axis, from 1 to 65,536. Contracts see the three numbers.
#[derive(Clone, Copy, PartialEq, Eq, Debug)]
pub struct Grid {
    nx: u32,
    ny: u32,
    nz: u32,
}

impl Model for Grid {
    ghost use Rattle.std.specs.Prelude.{ℕ, ◌≤◌};
    ghost use Rattle.chunk_geometry.specs.Cells.{Cells};

    ghost Value = { Cells };

    ghost view = { λ a. record { x = a.nx; y = a.ny; z = a.nz } };

    ghost invariant = { λ a. (1 ≤ a.nx) × (a.nx ≤ 65536) × (1 ≤ a.ny) × (a.ny ≤ 65536) × (1 ≤ a.nz) × (a.nz ≤ 65536) };

    ghost inverse = { λ g. record { nx = g.x; ny = g.y; nz = g.z } };
}

/// The number of base chunks along an axis is 0 or over 65,536.
#[derive(Clone, Copy, PartialEq, Eq, Debug)]
pub struct GridError {
    /// The first such axis: 0 for x, 1 for y and 2 for z.
    pub axis: u8,
    /// The number that was asked for.
    pub value: u32,
}

impl Grid {
    /// A grid of so many base chunks along x, y and z, or the first axis whose number is 0 or over 65,536.
    #[tactic(auto, unfolding(crate::specs::Grids::grid_of))]
    pub fn new(nx: u32, ny: u32, nz: u32) -> Result<Grid, GridError>
        ensures { result ≡ grid_of nx ny nz }
    {
        if nx == 0 || nx > 65536 {
            return Err(GridError { axis: 0, value: nx });
        }
        if ny == 0 || ny > 65536 {
            return Err(GridError { axis: 1, value: ny });
        }
        if nz == 0 || nz > 65536 {
            return Err(GridError { axis: 2, value: nz });
        }
        Ok(Grid { nx, ny, nz })
    }

    /// How many base chunks there are along x, from 1 to 65,536.
    pub fn nx(&self) -> u32
        ensures is { result ≡ self.now.x }
        ensures range { (1 ≤ result) × (result ≤ 65536) }
    {
        self.nx
    }

    /// How many base chunks there are along y, from 1 to 65,536.
    pub fn ny(&self) -> u32
        ensures is { result ≡ self.now.y }
        ensures range { (1 ≤ result) × (result ≤ 65536) }
    {
        self.ny
    }

    /// How many base chunks there are along z, from 1 to 65,536.
    pub fn nz(&self) -> u32
        ensures is { result ≡ self.now.z }
        ensures range { (1 ≤ result) × (result ≤ 65536) }
    {
        self.nz
    }

    /// Whether a base chunk lies in the grid.
    pub fn holds(&self, cell: Cell) -> bool
        ensures { result ≡ in_grid self.now cell }
    {
        cell.x < self.nx && cell.y < self.ny && cell.z < self.nz
    }

    /// The top layer, from 2 to 18: the least layer from the second on where the whole grid is one chunk.
    pub fn top_layer(&self) -> u8
        ensures is { result ≡ top_layer self.now }
        ensures range { (2 ≤ result) × (result ≤ 18) }
        ensures one { widest self.now ≤ 2 ^ (result - 2) }
        ensures least { (layer : ℕ) → 2 ≤ layer → widest self.now ≤ 2 ^ (layer - 2) → result ≤ layer }
    {
        let widest = self.widest();
        if widest == 1 {
            2
        } else {
            3 + (widest - 1).ilog2() as u8
        }
    }

    // the greatest number of base chunks along an axis
    fn widest(&self) -> u32
        ensures is { result ≡ widest self.now }
        ensures range { (1 ≤ result) × (result ≤ 65536) }
    {
        self.nx.max(self.ny).max(self.nz)
    }

    /// The chunk of a layer that holds a base chunk. Layers 1 and 2 share the base chunks.
    #[tactic(auto, unfolding(crate::specs::Chunks::chunk_at))]
    pub fn chunk_at(&self, layer: u8, base: Cell) -> Cell
        requires layer { (1 ≤ layer) × (layer ≤ top_layer self.now) }
        requires base { in_grid self.now base ≡ true }
        ensures { result ≡ chunk_at layer base }
    {
        let shift = layer.saturating_sub(2);
        Cell {
            x: base.x >> shift,
            y: base.y >> shift,
            z: base.z >> shift,
        }
    }

    /// The level of two base chunks: the least layer from the second on whose chunk holds both.
    pub fn level(&self, a: Cell, b: Cell) -> u8
        requires a { in_grid self.now a ≡ true }
        requires b { in_grid self.now b ≡ true }
        ensures is { result ≡ level a b }
        ensures range { (2 ≤ result) × (result ≤ top_layer self.now) }
        ensures joint { chunk_at result a ≡ chunk_at result b }
        ensures least { (layer : ℕ) → 2 ≤ layer → chunk_at layer a ≡ chunk_at layer b → result ≤ layer }
    {
        let top = self.top_layer();
        for layer in 2..top {
            if self.chunk_at(layer, a) == self.chunk_at(layer, b) {
                return layer;
            }
        }
        top
    }
}
