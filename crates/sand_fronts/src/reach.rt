//! How far a drop has reached in one tile.
//!
//! The column and row of a place are found from those of its tile's first place, without a table. If no place of a tile
//! can be farther than the reach so far, its places are skipped.

ghost use Rattle.std.specs.Prelude.{◌≡◌, ℕ, ◌+◌, ◌/◌, ◌%◌, ◌^◌, ◌<◌, ◌≤◌, if◌then◌else◌, min};
ghost use Rattle.sand_model.specs.Grid.{joins};
ghost use Rattle.sand_tiles.specs.Places.{bit};
ghost use Rattle.sand_fronts.specs.Reaching.{distance_between, distance_within, IsReachedFrom};

use sand_model::{Edge, Shape};
use sand_tiles::set_of;

/// The column and the row of a site, or of the first place of a tile.
#[derive(Clone, Copy)]
pub(crate) struct Spot {
    pub(crate) column: usize,
    pub(crate) row: usize,
}

// On a cylinder, the shorter of two ways.
#[inline(always)]
fn shorter(shape: Shape, across: usize, back: usize) -> usize
    ensures { result ≡ (if joins shape.edge then min across back else across) }
{
    match shape.edge() {
        Edge::Open => across,
        Edge::Cylinder => across.min(back),
    }
}

#[inline(always)]
fn distance_to(shape: Shape, from: Spot, column: usize, row: usize) -> usize
    requires fits { (from.column < 2 ^ 32) × (from.row < 2 ^ 32) × (column < 2 ^ 32) × (row < 2 ^ 32) }
    ensures { result ≡ distance_between shape from column row }
{
    let across = from.column.abs_diff(column);
    shorter(shape, across, shape.width().saturating_sub(across)) + from.row.abs_diff(row)
}

// A bound on the distance of each place of a tile.
#[inline(always)]
fn farthest(shape: Shape, from: Spot, corner: Spot) -> usize
    requires fits { (from.column < 2 ^ 32) × (from.row < 2 ^ 32) × (corner.column < 2 ^ 32) × (corner.row < 2 ^ 32) }
    ensures { (p : ℕ) → p < 64 → distance_within shape from corner p ≤ result }
{
    let (left, right) = (corner.column, corner.column + 7);
    let (top, bottom) = (corner.row, corner.row + 7);
    let across = from.column.abs_diff(left).max(from.column.abs_diff(right));
    let down = from.row.abs_diff(top).max(from.row.abs_diff(bottom));
    shorter(shape, across, shape.width() / 2) + down
}

// The same as `reach_of`, place by place.
fn reach_in(shape: Shape, from: Spot, corner: Spot, set: u64, reach: usize) -> usize
    requires fits { (from.column < 2 ^ 32) × (from.row < 2 ^ 32) × (corner.column < 2 ^ 31) × (corner.row < 2 ^ 31) }
    ensures { IsReachedFrom shape from corner set reach result }
{
    let mut far = reach;
    let mut rest = set;
    'places: while rest != 0 {
        let place = rest.trailing_zeros() as usize;
        rest ^= set_of(place);
        let (column, row) = (corner.column + place % 8, corner.row + place / 8);
        far = far.max(distance_to(shape, from, column, row));
    }
    far
}

/// The greatest of a reach and the distances of the places of a set in a tile.
pub(crate) fn reach_of(shape: Shape, from: Spot, corner: Spot, set: u64, reach: usize) -> usize
    requires fits { (from.column < 2 ^ 32) × (from.row < 2 ^ 32) × (corner.column < 2 ^ 31) × (corner.row < 2 ^ 31) }
    ensures { IsReachedFrom shape from corner set reach result }
{
    if farthest(shape, from, corner) <= reach {
        return reach;
    }
    reach_in(shape, from, corner, set, reach)
}
