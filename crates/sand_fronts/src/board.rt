//! The tiles of a grid without their sand: which of their places are free, and which tiles are next to each other.

ghost use Rattle.std.specs.Prelude.{◌≡◌, ℕ, ◌+◌, ◌*◌, ◌^◌, ◌<◌, ◌≤◌, true, length, IfOk, IfSome};
ghost use Rattle.sand_model.specs.Grid.{missing};
ghost use Rattle.sand_model.specs.Sand.{sum_below};
ghost use Rattle.sand_tiles.specs.Places.{bit, number};
ghost use Rattle.sand_fronts.specs.Tiling.{tiles, on_tiles};
ghost use Rattle.sand_fronts.specs.Waves.{tile_at, beside_at, AreAllOpen, AtTile, IsOpenRow};
ghost use Rattle.sand_fronts.specs.Drops.{AreOutside, AreLossless, flag_at};
ghost use Rattle.sand_fronts.specs.Boards.{free_of, IsBoard};

use crate::filling::{is_inner, tile_of};
use crate::reach::Spot;
use crate::sides::{Beside, all_sides, open_sides};
use crate::tiling::{all_open, tiles};
use sand_model::Shape;
use sand_tiles::{BARE, Tile, sum_over};
use std::alloc::{AllocError, Global};

/// The tiles of a grid.
#[derive(Drop)]
pub(crate) struct Board {
    pub(crate) shape: Shape,
    /// The free places of each tile, those that may topple: all sites, except the dropped one in its own waves.
    pub(crate) free: Vec<u64>,
    pub(crate) beside: Vec<Beside>,
    /// The number of places around each site that are outside the grid, in place of heights.
    pub(crate) outside: Vec<Tile>,
    /// Whether no site of a tile has such a place. It is so of most tiles, and then a wave reads no more of them.
    pub(crate) lossless: Vec<bool>,
}

/// The site of a drop, with its tile and place.
#[derive(Clone, Copy)]
pub(crate) struct DropSite {
    pub(crate) site: usize,
    pub(crate) tile: usize,
    pub(crate) place: usize,
}

// The number of places around a site that are outside the grid. Only a site at the border needs its neighbours.
#[inline(always)]
fn missing_at(shape: Shape, spot: Spot) -> u64
    requires { (spot.row < shape.height) × (spot.column < shape.width) }
    ensures { result ≡ missing shape (spot.row * shape.width + spot.column) }
{
    let Spot { column, row } = spot;
    let (width, height) = (shape.width(), shape.height());
    if row > 0 && row + 1 < height && column > 0 && column + 1 < width {
        return 0;
    }
    u64::from(shape.missing(row * width + column))
}

// The same for the places of a tile.
#[inline(always)]
fn outside_in(shape: Shape, k: usize) -> Tile
    requires { k < 2 ^ 22 }
    ensures { (p : ℕ) → p < 64 → number result p ≡ on_tiles shape (missing shape) k p }
{
    if is_inner(shape, k) {
        return BARE;
    }
    tile_of(shape, k, &|spot: Spot| missing_at(shape, spot))
}

// The same for all tiles.
fn all_outside(alloc: Global, shape: Shape) -> Result<Vec<Tile>, AllocError>
    ensures len { IfOk result (λ all. length all.items ≡ tiles shape) }
    ensures each { IfOk result (λ all. AreOutside shape (tile_at all.items)) }
{
    let n = tiles(shape);
    let mut all = Vec::with_capacity(alloc, n)?;
    for k in 0..n {
        all.push_reserved(outside_in(shape, k));
    }
    Ok(all)
}

// Whether no place has a number.
#[inline(always)]
fn has_none(numbers: &Tile) -> bool
    ensures { result ≡ true → (p : ℕ) → p < 64 → number numbers.now p ≡ 0 }
{
    numbers.low | numbers.high | numbers.due == 0
}

// The same for each tile.
fn all_lossless(alloc: Global, outside: &[Tile]) -> Result<Vec<bool>, AllocError>
    ensures len { IfOk result (λ all. length all.items ≡ length outside.now) }
    ensures each { IfOk result (λ all. AreLossless (flag_at all.items) (tile_at outside.now)) }
{
    let n = outside.len();
    let mut all = Vec::with_capacity(alloc, n)?;
    for k in 0..n {
        all.push_reserved(has_none(&outside[k]));
    }
    Ok(all)
}

impl Board {
    /// The tiles of a grid, with all sites free. Fails only if an allocation fails.
    pub(crate) fn new(alloc: Global, shape: Shape) -> Result<Board, AllocError>
        ensures shape { IfOk result (λ b. b.shape ≡ shape) }
        ensures board { IfOk result (λ b. IsBoard b) }
        ensures all_open { IfOk result (λ b. AreAllOpen b.shape (free_of b)) }
    {
        let free = all_open(alloc, shape)?;
        let beside = all_sides(alloc, shape)?;
        let outside = all_outside(alloc, shape)?;
        let lossless = all_lossless(alloc, outside.as_slice())?;
        Ok(Board {
            shape,
            free,
            beside,
            outside,
            lossless,
        })
    }

    /// The number of grains that leave the grid if each place of a set in a tile topples.
    #[inline(always)]
    pub(crate) fn lost_in(&self, k: usize, set: u64) -> u64
        requires board { IsBoard self.now }
        requires tile { k < tiles self.now.shape }
        ensures value { result ≡ sum_below 64 (λ p. number (tile_at self.now.outside.items k) p * bit set p) }
        ensures limit { result ≤ 448 }
    {
        if self.lossless[k] {
            return 0;
        }
        sum_over(&self.outside[k], set)
    }

    /// The neighbours of a tile with sites. On a grid with open edges they are found from the number of tiles in a row, and
    /// no table is read.
    #[inline(always)]
    pub(crate) fn beside(&self, k: usize, open_row: Option<usize>) -> Beside
        requires board { IsBoard self.now }
        requires tile { AtTile self.now.shape k (beside_at self.now.beside.items k) }
        requires row { IfSome open_row (IsOpenRow self.now.shape) }
        ensures { result ≡ beside_at self.now.beside.items k }
    {
        match open_row {
            Some(row) => open_sides(row, k),
            None => self.beside[k],
        }
    }
}
