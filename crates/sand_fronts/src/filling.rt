//! Tiles filled with a number for each site.
//!
//! A tile is filled from its last place to its first: each number is put before those that follow it, by a shift of the
//! tile's words. So a site's place is found by its tile, and not by a division for each site. Most tiles are inside the
//! grid with all their places and the places around: of them some numbers are known at once.

ghost use Rattle.std.specs.Prelude.{◌≡◌, ℕ, ◌+◌, ◌^◌, ◌<◌, ◌≤◌, Some, None, if◌then◌else◌, length, IfOk, IsTrue};
ghost use Rattle.sand_tiles.specs.Places.{bit, number};
ghost use Rattle.sand_fronts.specs.Tiling.{tiles, is_site, row_at, column_at, on_tiles};
ghost use Rattle.sand_fronts.specs.Waves.{tile_at};
ghost use Rattle.sand_fronts.specs.Filling.{AtSites, Tells, IsFilled, IsInner};

use crate::reach::Spot;
use crate::tiling::{SIDE, pitch, tiles};
use sand_model::Shape;
use sand_tiles::{BARE, Tile};
use std::alloc::{AllocError, Global};

// Moves each place of a set to the next one, and puts a first place before them.
#[inline(always)]
fn put_first(set: u64, first: u64) -> u64
    requires { first ≤ 1 }
    ensures first { bit result 0 ≡ first }
    ensures others { (p : ℕ) → p < 63 → bit result (p + 1) ≡ bit set p }
{
    set << 1 | first
}

// The same with the numbers of a tile.
#[inline(always)]
fn put_number(tile: &mut Tile, first: u64)
    requires { first ≤ 7 }
    ensures first { number tile.new 0 ≡ first }
    ensures others { (p : ℕ) → p < 63 → number tile.new (p + 1) ≡ number tile.old p }
    ensures wave { tile.new.wave ≡ tile.old.wave }
{
    tile.low = put_first(tile.low, first % 2);
    tile.high = put_first(tile.high, first / 2 % 2);
    tile.due = put_first(tile.due, first / 4);
}

// The column and the row of a place, if it is a site.
#[inline(always)]
#[tactic(auto, unfolding(crate::specs::Tiling::is_site))]
fn site_at(shape: Shape, k: usize, place: usize) -> Option<Spot>
    requires { (k < 2 ^ 22) × (place < 64) }
    ensures { result ≡ (if is_site shape k place
        then Some (record { column = column_at shape k place; row = row_at shape k place }) else None) }
{
    let (down, across) = (k / pitch(shape), k % pitch(shape));
    if down < 2 || across < 1 {
        return None;
    }
    let row = (down - 2) * SIDE + place / SIDE;
    let column = (across - 1) * SIDE + place % SIDE;
    if row < shape.height() && column < shape.width() {
        Some(Spot { column, row })
    } else {
        None
    }
}

/// Whether each place of a tile is a site with four neighbours. It may say so of fewer tiles.
#[inline(always)]
pub(crate) fn is_inner(shape: Shape, k: usize) -> bool
    requires { k < 2 ^ 22 }
    ensures { IsTrue result → IsInner shape k }
{
    let (down, across) = (k / pitch(shape), k % pitch(shape));
    if down < 3 || across < 2 {
        return false;
    }
    (down - 1) * SIDE < shape.height() && across * SIDE < shape.width()
}

// The number of a place: that of its site, or 0 if it is no site.
#[inline(always)]
fn number_at<F: Fn(Spot) -> u64>(shape: Shape, k: usize, place: usize, numbers: &F) -> u64
    requires place { (k < 2 ^ 22) × (place < 64) }
    requires sites { AtSites shape (F.pre numbers.now) (F.post numbers.now) }
    ensures bound { result ≤ 7 }
    ensures each { (h : ℕ → ℕ) → Tells shape (F.post numbers.now) h → result ≡ on_tiles shape h k place }
{
    match site_at(shape, k, place) {
        Some(spot) => numbers(spot),
        None => 0,
    }
}

/// One tile with the numbers of its sites.
pub(crate) fn tile_of<F: Fn(Spot) -> u64>(shape: Shape, k: usize, numbers: &F) -> Tile
    requires tile { k < 2 ^ 22 }
    requires sites { AtSites shape (F.pre numbers.now) (F.post numbers.now) }
    ensures { IsFilled shape (F.post numbers.now) k result }
{
    let mut tile = BARE;
    for place in (0..64).rev() {
        put_number(&mut tile, number_at(shape, k, place, numbers));
    }
    tile
}

/// All tiles with the numbers of their sites. Fails only if an allocation fails.
pub(crate) fn tiles_of<F: Fn(Spot) -> u64>(
    alloc: Global,
    shape: Shape,
    numbers: &F,
) -> Result<Vec<Tile>, AllocError>
    requires sites { AtSites shape (F.pre numbers.now) (F.post numbers.now) }
    ensures len { IfOk result (λ all. length all.items ≡ tiles shape) }
    ensures each { IfOk result
        (λ all. (k : ℕ) → IsFilled shape (F.post numbers.now) k (tile_at all.items k)) }
{
    let n = tiles(shape);
    let mut all = Vec::with_capacity(alloc, n)?;
    for k in 0..n {
        all.push_reserved(tile_of(shape, k, numbers));
    }
    Ok(all)
}
