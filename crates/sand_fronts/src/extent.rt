//! How far a drop has reached: the number of sites that toppled and their greatest distance, from their sets.

ghost use Rattle.std.specs.Prelude.{◌≡◌, ℕ, ◌+◌, ◌^◌, ◌<◌, ◌≤◌, length, slice_index};
ghost use Rattle.sand_model.specs.Grid.{sites};
ghost use Rattle.sand_model.specs.Sand.{sum_below};
ghost use Rattle.sand_tiles.specs.Places.{bit};
ghost use Rattle.sand_fronts.specs.Marking.{in_sets};
ghost use Rattle.sand_fronts.specs.Reaching.{spot_of, corner_of, IsReachedFrom, IsReachedIn};

use crate::marks::Marks;
use crate::reach::{Spot, reach_of};
use crate::tiling::pitch;
use sand_model::Shape;
use sand_tiles::size;

/// The number of sites that toppled, and the greatest distance of one, or 0 if none did.
#[derive(Clone, Copy)]
pub(crate) struct Extent {
    pub(crate) area: u64,
    pub(crate) reach: usize,
}

const NOWHERE: Extent = Extent { area: 0, reach: 0 };

// The first place of a tile with sites.
#[inline(always)]
fn corner(shape: Shape, k: usize) -> Spot
    requires { k < 2 ^ 22 }
    ensures value { result ≡ corner_of shape k }
    ensures fits { (result.column < 2 ^ 31) × (result.row < 2 ^ 31) }
{
    let row = pitch(shape);
    Spot {
        column: (k % row).saturating_sub(1) * 8,
        row: (k / row).saturating_sub(2) * 8,
    }
}

fn spot(shape: Shape, site: usize) -> Spot
    requires { site < sites shape }
    ensures value { result ≡ spot_of shape site }
    ensures fits { (result.column < 2 ^ 32) × (result.row < 2 ^ 32) }
{
    let (column, row) = shape.place(site);
    Spot { column, row }
}

#[inline(always)]
fn add_set(shape: Shape, from: Spot, k: usize, set: u64, extent: Extent) -> Extent
    requires tile { k < 2 ^ 22 }
    requires fits { (from.column < 2 ^ 32) × (from.row < 2 ^ 32) × (extent.area < 2 ^ 40) }
    ensures area { result.area ≡ extent.area + sum_below 64 (bit set) }
    ensures reach { IsReachedFrom shape from (corner_of shape k) set extent.reach result.reach }
{
    Extent {
        area: extent.area + size(set),
        reach: reach_of(shape, from, corner(shape, k), set, extent.reach),
    }
}

/// Clears all sets. Returns how far they reached from a site.
pub(crate) fn take_all(shape: Shape, site: usize, marks: &mut Marks) -> Extent
    requires site { site < sites shape }
    requires fits { length marks.old.sets ≤ 2097152 }
    ensures area { result.area ≡ in_sets (length marks.old.sets) (slice_index marks.old.sets) }
    ensures reach { IsReachedIn shape (spot_of shape site) (slice_index marks.old.sets) result.reach }
    ensures len { length marks.new.sets ≡ length marks.old.sets }
    ensures none { (m : ℕ) → slice_index marks.new.sets m ≡ 0 }
{
    let mut extent = NOWHERE;
    if marks.len() == 0 {
        return extent;
    }
    let from = spot(shape, site);
    'tiles: while marks.len() > 0 {
        let (k, set) = marks.take_last();
        extent = add_set(shape, from, k, set, extent);
    }
    extent
}
