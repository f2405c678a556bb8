//! A stable pile on tiles, for dropping grains one by one.
//!
//! It allocates all memory that its drops need, so that no drop can fail.
//!
//! A grain is added to the planes of its tile. If its site is 0 in them then, it had 3 and has 4: it topples, and all
//! that follows (`dropping`). In its waves the site is not free, and never due: its bit is taken out of the word of its
//! tile, and put back after them. Then area and reach are read from the marked sites (`extent`).

ghost use Rattle.std.specs.Prelude.{◌≡◌, ℕ, ◌+◌, ◌*◌, ◌^◌, ◌<◌, ◌≤◌, length, slice_index, IfOk};
ghost use Rattle.sand_model.specs.Grid.{IsGrid, sites};
ghost use Rattle.sand_model.specs.Sand.{one_at, topplings, lost};
ghost use Rattle.sand_tiles.specs.Counts.{counted};
ghost use Rattle.sand_fronts.specs.Tiling.{tiles};
ghost use Rattle.sand_fronts.specs.WaveSizes.{HasWaves};
ghost use Rattle.sand_fronts.specs.Waves.{AreAllOpen};
ghost use Rattle.sand_fronts.specs.Marking.{AreToppled, AreSites};
ghost use Rattle.sand_fronts.specs.Drops.{heights_on};
ghost use Rattle.sand_fronts.specs.Avalanches.{IsAvalanche};
ghost use Rattle.sand_fronts.specs.Boards.{tiles_of, free_of, counts_of, marks_of, grown, IsBoard, HasSettled};
ghost use Rattle.sand_fronts.specs.Reading.{IsFirstOfEight, AreOfEight};
ghost use Rattle.sand_fronts.specs.TiledPiles.{IsTiledPile, IsTiledView, HasDroppedOnTiles, by_site};

use crate::avalanche::Avalanche;
use crate::board::{Board, DropSite};
use crate::counts::{Counts, NOTHING, Total};
use crate::dropping::topple_all;
use crate::extent::{Extent, take_all};
use crate::marks::Marks;
use crate::reach::Spot;
use crate::reading::add_eights;
use crate::sand::Sand;
use crate::tiling::{find, find_at, tiles, tiles_with};
use sand_model::{IndexList, Shape};
use sand_tiles::{eight_heights, height_at, receive, set_of};
use std::alloc::{AllocError, Global};
use std::marker::Model;

// Drops a grain at a site, and topples until the pile is stable. Counts the topplings of each site, and marks the sites.
// Writes the sizes of the waves to a list, as many as it has room for, and returns their number, too.
fn topple_grain(
    board: &mut Board,
    sand: &mut Sand,
    counts: &mut Counts,
    site: usize,
    sizes: &mut [u64],
) -> (Total, usize)
    requires site { site < sites board.old.shape }
    requires pile { IsTiledPile board.old sand.old counts.old }
    requires bound { (m p : ℕ) → p < 64 → counted (counts_of counts.old m) p < 2 ^ 60 }
    ensures shape { board.new.shape ≡ board.old.shape }
    ensures board { IsBoard board.new }
    ensures all_open { AreAllOpen board.old.shape (free_of board.new) }
    ensures settled { HasSettled board.old.shape (λ j. heights_on board.old.shape (tiles_of sand.old) j + one_at site j)
        sand.new counts.old counts.new }
    ensures waves { HasWaves board.old.shape site
        (λ j. heights_on board.old.shape (tiles_of sand.old) j + one_at site j)
        (heights_on board.old.shape (tiles_of sand.new)) result.1 sizes.old sizes.new }
    ensures marked { AreToppled board.old.shape (grown board.old.shape counts.old counts.new) (marks_of counts.new) }
    ensures size { result.0.size ≡ topplings board.old.shape (grown board.old.shape counts.old counts.new) }
    ensures lost { result.0.lost ≡ lost board.old.shape (grown board.old.shape counts.old counts.new) }
{
    let (tile, place) = find(board.shape, site);
    let grain = set_of(place);
    let whole = board.free[tile];
    let others = whole ^ grain;
    receive(&mut sand.tiles[tile], grain, others);
    if height_at(&sand.tiles[tile], place) != 0 {
        return (NOTHING, 0);
    }
    board.free[tile] = others;
    let (total, waves) = topple_all(board, sand, counts, DropSite { site, tile, place }, sizes);
    board.free[tile] = whole;
    (total, waves)
}

// The avalanche of a drop, from its total and the sites that it marked. Clears the marks.
fn avalanche_of(shape: Shape, site: usize, total: Total, marks: &mut Marks) -> Avalanche
    requires site { site < sites shape }
    requires len { length marks.old.sets ≡ tiles shape }
    requires fits { (tiles shape ≤ 2097152) × IsGrid shape }
    requires at_sites { AreSites shape (slice_index marks.old.sets) }
    ensures avalanche { (v : ℕ → ℕ) → AreToppled shape v (slice_index marks.old.sets) → total.size ≡ topplings shape v
        → total.lost ≡ lost shape v → IsAvalanche shape site v result }
    ensures len { length marks.new.sets ≡ length marks.old.sets }
    ensures none { (m : ℕ) → slice_index marks.new.sets m ≡ 0 }
{
    let Extent { area, reach } = take_all(shape, site, marks);
    Avalanche {
        site,
        size: total.size,
        area: area as u32,
        reach: reach as u32,
        lost: total.lost,
    }
}

/// A stable pile on tiles, and all that its drops need.
#[derive(Drop)]
pub struct TiledPile {
    board: Board,
    sand: Sand,
    counts: Counts,
}

impl Model for TiledPile {
    ghost use Rattle.sand_fronts.specs.Boards.{CountsSites};
    ghost use Rattle.sand_fronts.specs.TiledPiles.{TiledView, tiled_view, IsTiledPile};

    ghost Value = { TiledView };

    ghost view = { λ p. tiled_view p.board.shape p.sand p.counts };

    ghost invariant = { λ p. IsTiledPile p.board p.sand p.counts };
}

impl TiledPile {
    /// A stable pile on tiles where no site has toppled yet. Fails only if an allocation fails.
    pub fn new(alloc: Global, shape: Shape, heights: &[u64]) -> Result<TiledPile, AllocError>
        requires len { length heights.now ≡ sites shape }
        requires low { (j : ℕ) → j < sites shape → slice_index heights.now j ≤ 3 }
        ensures grid { IfOk result (λ p. p.grid ≡ shape) }
        ensures by_site { IfOk result (λ p. IsTiledView p) }
        ensures heights { IfOk result
            (λ p. (j : ℕ) → j < sites shape → slice_index p.heights j ≡ slice_index heights.now j) }
        ensures none { IfOk result (λ p. (j : ℕ) → slice_index p.times j ≡ 0) }
    {
        let n = tiles(shape);
        let board = Board::new(alloc, shape)?;
        let tiles = tiles_with(alloc, shape, heights)?;
        let list = IndexList::new(alloc, shape.sites() + n + 8)?;
        let counts = Counts::new(alloc, n)?;
        let sand = Sand { tiles, list };
        Ok(TiledPile {
            board,
            sand,
            counts,
        })
    }

    /// Drops a grain at a site, and topples until the pile is stable. Writes the size of each wave to a list, as many as it
    /// has room for. Returns the avalanche and the number of waves.
    pub fn drop_with_waves(&mut self, site: usize, sizes: &mut [u64]) -> (Avalanche, usize)
        requires site { site < sites self.old.grid }
        requires bound { (j : ℕ) → j < sites self.old.grid → slice_index self.old.times j < 2 ^ 60 }
        ensures dropped { HasDroppedOnTiles self.old site result.0 self.new }
        ensures waves { HasWaves self.old.grid site (λ j. slice_index self.old.heights j + one_at site j)
            (slice_index self.new.heights) result.1 sizes.old sizes.new }
    {
        let shape = self.board.shape;
        let (total, waves) = topple_grain(
            &mut self.board,
            &mut self.sand,
            &mut self.counts,
            site,
            sizes,
        );
        let avalanche = avalanche_of(shape, site, total, &mut self.counts.marks);
        (avalanche, waves)
    }

    /// The height of the site in a column and a row. Unlike `height`, it needs no division.
    #[inline(always)]
    pub fn height_in(&self, column: usize, row: usize) -> u64
        requires column { column < self.now.grid.width }
        requires site { row * self.now.grid.width + column < sites self.now.grid }
        ensures { result ≡ slice_index self.now.heights (row * self.now.grid.width + column) }
    {
        let (tile, place) = find_at(self.board.shape, column, row);
        height_at(&self.sand.tiles[tile], place)
    }

    pub fn height(&self, site: usize) -> u64
        requires { site < sites self.now.grid }
        ensures { result ≡ slice_index self.now.heights site }
    {
        let (column, row) = self.board.shape.place(site);
        self.height_in(column, row)
    }

    /// How often the site in a column and a row has toppled. Unlike `times`, it needs no division.
    #[inline(always)]
    pub fn times_in(&self, column: usize, row: usize) -> u64
        requires column { column < self.now.grid.width }
        requires site { row * self.now.grid.width + column < sites self.now.grid }
        requires bound { slice_index self.now.times (row * self.now.grid.width + column) < 2 ^ 63 }
        ensures { result ≡ slice_index self.now.times (row * self.now.grid.width + column) }
    {
        let (tile, place) = find_at(self.board.shape, column, row);
        self.counts.times(tile, place)
    }

    /// How often a site has toppled.
    pub fn times(&self, site: usize) -> u64
        requires site { site < sites self.now.grid }
        requires bound { slice_index self.now.times site < 2 ^ 63 }
        ensures { result ≡ slice_index self.now.times site }
    {
        let (column, row) = self.board.shape.place(site);
        self.times_in(column, row)
    }

    // The heights of eight sites in a row of a tile, from the first of them on.
    #[inline(always)]
    fn eight_heights(&self, spot: Spot) -> [u64; 8]
        requires { IsFirstOfEight self.now.grid spot }
        ensures { AreOfEight self.now.grid spot (slice_index self.now.heights) result }
    {
        let (tile, place) = find_at(self.board.shape, spot.column, spot.row);
        eight_heights(&self.sand.tiles[tile], place)
    }

    // How often each of them has toppled.
    #[inline(always)]
    fn eight_times(&self, spot: Spot) -> [u64; 8]
        requires spot { IsFirstOfEight self.now.grid spot }
        requires bound { (j : ℕ) → j < sites self.now.grid → slice_index self.now.times j < 2 ^ 63 }
        ensures { AreOfEight self.now.grid spot (slice_index self.now.times) result }
    {
        let (tile, place) = find_at(self.board.shape, spot.column, spot.row);
        self.counts.eight_times(tile, place)
    }

    /// Writes the height of each site. It is faster than to read them one by one.
    pub fn read_heights(&self, heights: &mut [u64])
        requires { length heights.old ≡ sites self.now.grid }
        ensures { heights.new ≡ self.now.heights }
    {
        heights.fill(0);
        let shape = self.board.shape;
        let heights_from = |spot: Spot| -> [u64; 8]
            requires { IsFirstOfEight self.now.grid spot }
            ensures { AreOfEight self.entry.now.grid spot (slice_index self.entry.now.heights) result }
        { self.eight_heights(spot) };
        add_eights(shape, heights, &heights_from);
    }

    /// Adds to the entry of each site how often it has toppled. It is faster than to read them one by one.
    pub fn add_times(&self, odometer: &mut [u64])
        requires len { length odometer.old ≡ sites self.now.grid }
        requires bound { (j : ℕ) → j < sites self.now.grid
            → slice_index odometer.old j + slice_index self.now.times j < 2 ^ 63 }
        ensures { odometer.new ≡ by_site self.now.grid
            (λ j. slice_index odometer.old j + slice_index self.now.times j) }
    {
        let shape = self.board.shape;
        let times_from = |spot: Spot| -> [u64; 8]
            requires spot { IsFirstOfEight self.now.grid spot }
            requires bound { (j : ℕ) → j < sites self.now.grid → slice_index self.now.times j < 2 ^ 63 }
            ensures { AreOfEight self.entry.now.grid spot (slice_index self.entry.now.times) result }
        { self.eight_times(spot) };
        add_eights(shape, odometer, &times_from);
    }
}
