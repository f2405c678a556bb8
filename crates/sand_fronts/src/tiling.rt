//! A grid cut into tiles, and the place of each site.
//!
//! The tile in the north-west corner has the first 8 rows and columns of the grid. The last tiles of a row and of a
//! column may have places that are no sites. Around the tiles with sites is a border of tiles without: grains that fall
//! into the sink are added there, or at places that are no sites, and are never read.

ghost use Rattle.std.specs.Prelude.{◌≡◌, ℕ, ◌+◌, ◌*◌, ◌<◌, ◌≤◌, ◌^◌, length, slice_index, IfOk};
ghost use Rattle.sand_model.specs.Grid.{IsGrid, sites};
ghost use Rattle.sand_tiles.specs.Places.{bit, had};
ghost use Rattle.sand_fronts.specs.Tiling.{across, pitch, tiles, tile_of, place_of, on_tiles};
ghost use Rattle.sand_fronts.specs.TileLists.{IsClear};
ghost use Rattle.sand_fronts.specs.Waves.{tile_at, AreAllOpen};

use crate::filling::{is_inner, tile_of, tiles_of};
use crate::reach::Spot;
use sand_model::Shape;
use sand_tiles::Tile;
use std::alloc::{AllocError, Global};

pub(crate) const SIDE: usize = 8;

/// The number of tiles in a row that have sites.
#[inline(always)]
pub(crate) fn across(shape: Shape) -> usize
    ensures value { result ≡ across shape }
    ensures some { 1 ≤ result }
    ensures limit { result ≤ 1024 }
    ensures sides { IsGrid shape }
{
    shape.width().div_ceil(SIDE)
}

/// The number of tiles in a row, including the border.
#[inline(always)]
pub(crate) fn pitch(shape: Shape) -> usize
    ensures value { result ≡ pitch shape }
    ensures some { 3 ≤ result }
    ensures limit { result ≤ 1026 }
    ensures sides { IsGrid shape }
{
    across(shape) + 2
}

/// The number of tiles, including the border.
pub(crate) fn tiles(shape: Shape) -> usize
    ensures value { result ≡ tiles shape }
    ensures limit { result ≤ 2097152 }
    ensures sides { IsGrid shape }
{
    (shape.height().div_ceil(SIDE) + 4) * pitch(shape)
}

/// The tile and the place of the site in a column and a row.
#[inline(always)]
pub(crate) fn find_at(shape: Shape, column: usize, row: usize) -> (usize, usize)
    requires { (column < shape.width) × (row * shape.width + column < sites shape) }
    ensures tile { result.0 ≡ tile_of shape (row * shape.width + column) }
    ensures place { result.1 ≡ place_of shape (row * shape.width + column) }
    ensures inside { (result.0 < tiles shape) × (result.1 < 64) }
{
    let tile = (row / SIDE + 2) * pitch(shape) + (column / SIDE + 1);
    (tile, row % SIDE * SIDE + column % SIDE)
}

/// The tile and the place of a site.
#[inline(always)]
pub(crate) fn find(shape: Shape, site: usize) -> (usize, usize)
    requires { site < sites shape }
    ensures tile { result.0 ≡ tile_of shape site }
    ensures place { result.1 ≡ place_of shape site }
    ensures inside { (result.0 < tiles shape) × (result.1 < 64) }
{
    let (column, row) = shape.place(site);
    find_at(shape, column, row)
}

// The word of the places of a tile that are sites.
#[inline(always)]
fn open_in(shape: Shape, k: usize) -> u64
    requires { k < 2 ^ 22 }
    ensures { (p : ℕ) → p < 64 → bit result p ≡ on_tiles shape (λ j. 1) k p }
{
    if is_inner(shape, k) {
        return u64::MAX;
    }
    tile_of(shape, k, &|_: Spot| 1u64).low
}

/// For each tile, the word of its places that are sites. Fails only if an allocation fails.
pub(crate) fn all_open(alloc: Global, shape: Shape) -> Result<Vec<u64>, AllocError>
    ensures len { IfOk result (λ free. length free.items ≡ tiles shape) }
    ensures all { IfOk result (λ free. AreAllOpen shape (slice_index free.items)) }
{
    let n = tiles(shape);
    let mut free = Vec::with_capacity(alloc, n)?;
    for k in 0..n {
        free.push_reserved(open_in(shape, k));
    }
    Ok(free)
}

/// Tiles with these numbers by site: heights, and 4 more for sites that are due. Fails only if an allocation fails.
pub(crate) fn tiles_with(
    alloc: Global,
    shape: Shape,
    heights: &[u64],
) -> Result<Vec<Tile>, AllocError>
    requires len { length heights.now ≡ sites shape }
    requires low { (j : ℕ) → j < sites shape → slice_index heights.now j ≤ 7 }
    ensures len { IfOk result (λ all. length all.items ≡ tiles shape) }
    ensures clear { IfOk result (λ all. (m : ℕ) → IsClear (tile_at all.items m)) }
    ensures heights { IfOk result
        (λ all. (k p : ℕ) → p < 64 → had (tile_at all.items k) p ≡ on_tiles shape (slice_index heights.now) k p) }
{
    let width = shape.width();
    let all = tiles_of(
        alloc,
        shape,
        &|spot: Spot| heights[spot.row * width + spot.column],
    )?;
    Ok(all)
}
