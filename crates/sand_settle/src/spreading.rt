//! Gives the grains of a toppling site to its neighbours, and lists those that may topple from then on.

ghost use Rattle.std.specs.Prelude.{◌≡◌, ℕ, ◌+◌, ◌*◌, ◌^◌, ◌<◌, ◌≤◌, length, sum, slice_index, slice_index_or, None, IfSome};
ghost use Rattle.sand_model.specs.Grid.{Grid, IsGrid, sites, places};
ghost use Rattle.sand_model.specs.Sand.{one_at, value_at};
ghost use Rattle.sand_settle.specs.SiteLists.{UnstableJoin};
ghost use Rattle.sand_settle.specs.Spreading.{NeighboursGain};

use sand_model::{IndexList, Lattice, TOPPLING_HEIGHT};

/// For the proof: no side of the grid is above 8,192, so there are at most 2^26 sites, and each fits into 32 bits. Does nothing
/// at run time.
#[inline(always)]
pub(crate) fn knows_sides(lattice: &Lattice)
    ensures { IsGrid lattice.now }
{
    let _ = lattice.shape();
}

// Gives grains to a neighbour if there is one, and lists it if it may topple from now on.
#[inline(always)]
fn deliver(heights: &mut [u64], list: &mut IndexList, neighbour: Option<usize>, times: u64)
    requires inside { IfSome neighbour (λ j. j < length heights.old) }
    requires limit { sum heights.old + times < 2 ^ 63 }
    requires fits { length heights.old ≤ 67108864 }
    requires room { length list.old.items < list.old.room }
    ensures each { (j : ℕ)
        → slice_index heights.new j ≡ slice_index heights.old j + times * value_at (λ k. one_at k j) neighbour }
    ensures total { sum heights.new ≤ sum heights.old + times }
    ensures joins { UnstableJoin 1 heights.old heights.new list.old list.new }
{
    if let Some(site) = neighbour {
        let before = heights[site];
        let after = before + times;
        heights[site] = after;
        let joins = (before < TOPPLING_HEIGHT) & (after >= TOPPLING_HEIGHT);
        list.push_if(site, joins);
    }
}

// Gives grains to each neighbour of a site.
#[inline(always)]
fn deliver_four(heights: &mut [u64], list: &mut IndexList, around: [Option<usize>; 4], times: u64)
    requires inside { (k : ℕ) → IfSome (slice_index_or around k None) (λ j. j < length heights.old) }
    requires limit { sum heights.old + 4 * times < 2 ^ 63 }
    requires fits { length heights.old ≤ 67108864 }
    requires room { length list.old.items + 4 ≤ list.old.room }
    ensures each { (g : Grid) (site : ℕ) → around ≡ places g site → site < sites g
        → NeighboursGain g site times heights.old heights.new }
    ensures joins { UnstableJoin 4 heights.old heights.new list.old list.new }
{
    let [north, west, east, south] = around;
    deliver(heights, list, north, times);
    deliver(heights, list, west, times);
    deliver(heights, list, east, times);
    deliver(heights, list, south, times);
}

/// Gives grains to each neighbour of a site, and lists those that may topple from now on. Most sites are inner: one
/// test for this saves a test for each neighbour.
#[inline(always)]
pub(crate) fn spread(
    lattice: &Lattice,
    heights: &mut [u64],
    list: &mut IndexList,
    site: usize,
    times: u64,
)
    requires site { site < sites lattice.now }
    requires len { length heights.old ≡ sites lattice.now }
    requires limit { sum heights.old + 4 * times < 2 ^ 63 }
    requires room { length list.old.items + 4 ≤ list.old.room }
    ensures each { NeighboursGain lattice.now site times heights.old heights.new }
    ensures joins { UnstableJoin 4 heights.old heights.new list.old list.new }
{
    knows_sides(lattice);
    if lattice.is_inner(site) {
        let [north, west, east, south] = lattice.inner_neighbours(site);
        let around = [Some(north), Some(west), Some(east), Some(south)];
        deliver_four(heights, list, around, times);
    } else {
        deliver_four(heights, list, lattice.neighbours(site), times);
    }
}
