//! The neighbours of each tile.
//!
//! The tiles are numbered row by row, including the border. So the tiles to the north and south are a row of tiles
//! away, and those to the west and east are the tiles before and after. On a cylinder the first and the last tile of a
//! row with sites are neighbours instead, across the seam. There the last column of the grid, which may be any column
//! of its tile, is next to the first: a grain moves from one to the other by a shift over that many columns.

ghost use Rattle.std.specs.Prelude.{◌≡◌, ◌-◌, ◌^◌, ◌<◌, ◌≤◌, ◌==◌, ◌&&◌, ◌%◌, IfOk};
ghost use Rattle.sand_model.specs.Grid.{joins};
ghost use Rattle.sand_fronts.specs.Tiling.{pitch, to_west, to_east, shift_west, shift_east};
ghost use Rattle.sand_fronts.specs.Waves.{open_beside, IsBeside, AreBeside};

use crate::tiling::{across, pitch, tiles};
use sand_model::{Edge, Shape};
use std::alloc::{AllocError, Global};

/// The four tiles next to a tile, and how far a column shifts to the west and to the east of it.
#[derive(Clone, Copy)]
pub(crate) struct Beside {
    pub(crate) north: usize,
    pub(crate) south: usize,
    pub(crate) west: usize,
    pub(crate) east: usize,
    pub(crate) west_shift: u32,
    pub(crate) east_shift: u32,
}

// Whether a tile is in this column of tiles, and the grid has a seam.
fn is_at_seam(shape: Shape, k: usize, column: usize) -> bool
    ensures { result ≡ (joins shape.edge && (k % pitch shape == column)) }
{
    match shape.edge() {
        Edge::Open => false,
        Edge::Cylinder => k % pitch(shape) == column,
    }
}

// The last column of the grid, within its tile.
fn last_column(shape: Shape) -> u32
    ensures { result ≡ (shape.width - 1) % 8 }
{
    ((shape.width() - 1) % 8) as u32
}

// The tile to the west, and its last column with sites.
#[tactic(auto, unfolding(crate::specs::Tiling::to_west, crate::specs::Tiling::shift_west))]
fn west_of(shape: Shape, k: usize) -> (usize, u32)
    requires { k < 2 ^ 32 }
    ensures tile { result.0 ≡ to_west shape k }
    ensures shift { result.1 ≡ shift_west shape k }
{
    if is_at_seam(shape, k, 1) {
        (k + (across(shape) - 1), last_column(shape))
    } else {
        (k.saturating_sub(1), 7)
    }
}

// The tile to the east, and the last column with sites of the tile `k` itself.
#[tactic(auto, unfolding(crate::specs::Tiling::to_east, crate::specs::Tiling::shift_east))]
fn east_of(shape: Shape, k: usize) -> (usize, u32)
    requires { k < 2 ^ 32 }
    ensures tile { result.0 ≡ to_east shape k }
    ensures shift { result.1 ≡ shift_east shape k }
{
    let column = across(shape);
    if is_at_seam(shape, k, column) {
        (k.saturating_sub(column - 1), last_column(shape))
    } else {
        (k + 1, 7)
    }
}

fn sides_of(shape: Shape, k: usize) -> Beside
    requires { k < 2 ^ 32 }
    ensures { IsBeside shape k result }
{
    let row = pitch(shape);
    let (west, west_shift) = west_of(shape, k);
    let (east, east_shift) = east_of(shape, k);
    Beside {
        north: k.saturating_sub(row),
        south: k + row,
        west,
        east,
        west_shift,
        east_shift,
    }
}

/// The neighbours of a tile of a grid with open edges, in which a row has this many tiles.
#[inline(always)]
pub(crate) fn open_sides(row: usize, k: usize) -> Beside
    requires { (1 ≤ row) × (row ≤ k) × (k < 2 ^ 32) }
    ensures { result ≡ open_beside row k }
{
    Beside {
        north: k - row,
        south: k + row,
        west: k - 1,
        east: k + 1,
        west_shift: 7,
        east_shift: 7,
    }
}

/// The neighbours of each tile of a grid. Fails only if an allocation fails.
pub(crate) fn all_sides(alloc: Global, shape: Shape) -> Result<Vec<Beside>, AllocError>
    ensures board { IfOk result (λ all. AreBeside shape all.items) }
{
    let n = tiles(shape);
    let mut all = Vec::with_capacity(alloc, n)?;
    for k in 0..n {
        all.push_reserved(sides_of(shape, k));
    }
    Ok(all)
}
