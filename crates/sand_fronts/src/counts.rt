//! How often each place has toppled.
//!
//! After a wave its sites are counted and marked, and taken out of the tiles. Each tile in which a site has toppled is
//! in the list of the wave. The sites counted so far and those still in the tiles are together the sites of the wave
//! (`AreCounted`: `each`; `size`, `lost`), and in the end the tiles have none.
//!
//! A tile whose 64 sites all topple in a wave is counted in one number. On large grids that is most tiles, and the bit
//! planes of all tiles would not stay in the nearest caches. A count is this number, that of the planes, and what was
//! spilled from them.
//!
//! How many grains a site loses when it topples, 0 to 4, is also kept on tiles: in `outside`, in place of heights.

ghost use Rattle.std.specs.Prelude.{◌≡◌, ◌≢◌, ℕ, ◌+◌, ◌^◌, ◌<◌, ◌≤◌, length, vec_capacity, slice_index, IfOk};
ghost use Rattle.sand_tiles.specs.Counts.{counted, IsCount};
ghost use Rattle.sand_fronts.specs.Tiling.{tiles};
ghost use Rattle.sand_fronts.specs.TileLists.{AreListed, IsClear};
ghost use Rattle.sand_fronts.specs.Waves.{tile_at};
ghost use Rattle.sand_fronts.specs.Counting.{spilled_at, in_wave, over_wave, with_wave};
ghost use Rattle.sand_fronts.specs.Boards.{tiles_of, counts_of, marks_of, IsBoard, IsSand, AreCounts, AreCounted, AddsSet};

use crate::board::Board;
use crate::marks::Marks;
use crate::reading::add_between;
use crate::sand::Sand;
use core::mem::replace_with;
use sand_tiles::{NO_RECENT, Recent, Tile, count_set, eight_times, size, spill, times_at};
use std::alloc::{AllocError, Global};

/// The number of topplings, and of grains that fell into the sink.
#[derive(Clone, Copy)]
pub(crate) struct Total {
    pub(crate) size: u64,
    pub(crate) lost: u64,
}

pub(crate) const NOTHING: Total = Total { size: 0, lost: 0 };

/// How often each place of each tile has toppled, and which places have in this drop.
#[derive(Drop)]
pub(crate) struct Counts {
    /// How often all places of each tile have toppled in one wave.
    pub(crate) whole: Vec<u64>,
    /// The latest other topplings of each tile.
    pub(crate) each: Vec<Recent>,
    /// All earlier ones, of the tiles up to the last that was spilled. There is room for all tiles.
    pub(crate) spilled: Vec<[u64; 64]>,
    /// None between two drops.
    pub(crate) marks: Marks,
}

// Adds the lists that are missing up to that of a tile. They come and go by value, since a reference to them would have
// the compiler keep the whole pile in memory, and copy it wherever it is moved.
#[cold]
#[inline(never)]
fn with_lists(spilled: Vec<[u64; 64]>, k: usize) -> (Vec<[u64; 64]>, ())
    requires { k < vec_capacity spilled }
    ensures len { k < length result.0.items }
    ensures room { vec_capacity result.0 ≡ vec_capacity spilled }
    ensures same { (m p : ℕ) → p < 64 → spilled_at result.0.items m p ≡ spilled_at spilled.items m p }
{
    let mut spilled = spilled;
    for _ in spilled.len()..k + 1 {
        spilled.push_reserved([0; 64]);
    }
    (spilled, ())
}

impl Counts {
    /// No topplings on n tiles. Fails only if an allocation fails.
    pub(crate) fn new(alloc: Global, n: usize) -> Result<Counts, AllocError>
        requires { n ≤ 2097152 }
        ensures len { IfOk result
            (λ c. (length c.whole.items ≡ n) × (length c.each.items ≡ n) × (length c.marks.sets ≡ n)) }
        ensures room { IfOk result (λ c. vec_capacity c.spilled ≡ n) }
        ensures sound { IfOk result (λ c. (m : ℕ) → IsCount (counts_of c m)) }
        ensures none { IfOk result (λ c. (m p : ℕ) → p < 64 → counted (counts_of c m) p ≡ 0) }
        ensures unmarked { IfOk result (λ c. (m : ℕ) → marks_of c m ≡ 0) }
    {
        let whole = vec![in alloc; 0u64; n]?;
        let each = vec![in alloc; NO_RECENT; n]?;
        let spilled = Vec::with_capacity(alloc, n)?;
        let marks = Marks::new(alloc, n)?;
        Ok(Counts {
            whole,
            each,
            spilled,
            marks,
        })
    }

    /// How often a place of a tile has toppled.
    #[inline(always)]
    pub(crate) fn times(&self, k: usize, place: usize) -> u64
        requires tile { (k < length self.now.each.items) × (k < length self.now.whole.items) }
        requires place { place < 64 }
        requires bound { counted (counts_of self.now k) place < 2 ^ 63 }
        ensures { result ≡ counted (counts_of self.now k) place }
    {
        let latest = self.whole[k] + times_at(&self.each[k], place);
        if k < self.spilled.len() {
            self.spilled[k][place] + latest
        } else {
            latest
        }
    }

    /// How often each of eight places has toppled, from one on.
    #[inline(always)]
    pub(crate) fn eight_times(&self, k: usize, place: usize) -> [u64; 8]
        requires tile { (k < length self.now.each.items) × (k < length self.now.whole.items) }
        requires place { place < 57 }
        requires bound { (p : ℕ) → p < 64 → counted (counts_of self.now k) p < 2 ^ 63 }
        ensures { (c : ℕ) → c < 8 → slice_index result c ≡ counted (counts_of self.now k) (place + c) }
    {
        let mut times = eight_times(&self.each[k], place);
        add_between(&mut times, 0, 8, &[self.whole[k]; 8], 0);
        if k < self.spilled.len() {
            add_between(&mut times, 0, 8, &self.spilled[k], place);
        }
        times
    }

    // Moves the latest topplings of a tile to its list.
    #[inline(always)]
    fn spill(&mut self, k: usize)
        requires tile { k < length self.old.each.items }
        requires room { k < vec_capacity self.old.spilled }
        requires bound { (p : ℕ) → p < 64 → counted (counts_of self.old k) p < 2 ^ 63 }
        ensures sound { IsCount (counts_of self.new k) }
        ensures added { AddsSet k 0 self.old self.new }
    {
        replace_with(&mut self.spilled, k, with_lists);
        spill(&mut self.each[k], &mut self.spilled[k]);
    }

    // Counts one toppling of each place of a set in a tile.
    #[inline(always)]
    fn add(&mut self, k: usize, set: u64)
        requires tile { (k < length self.old.each.items) × (k < length self.old.whole.items) }
        requires room { k < vec_capacity self.old.spilled }
        requires sound { IsCount (counts_of self.old k) }
        requires bound { (p : ℕ) → p < 64 → counted (counts_of self.old k) p < 2 ^ 62 }
        ensures sound { IsCount (counts_of self.new k) }
        ensures added { AddsSet k set self.old self.new }
    {
        if set == u64::MAX {
            self.whole[k] += 1;
            return;
        }
        let is_full = count_set(&mut self.each[k], set);
        if is_full {
            self.spill(k);
        }
    }

    // Counts and marks the places of a tile that have toppled, takes them out of the wave, and returns them.
    #[inline(always)]
    fn take(&mut self, tiles: &mut Vec<Tile>, k: usize) -> u64
        requires tile { k < length tiles.old.items }
        requires len { (length self.old.whole.items ≡ length tiles.old.items)
            × (length self.old.each.items ≡ length tiles.old.items)
            × (vec_capacity self.old.spilled ≡ length tiles.old.items)
            × (length self.old.marks.sets ≡ length tiles.old.items) }
        requires fits { length tiles.old.items ≤ 2097152 }
        requires sound { IsCount (counts_of self.old k) }
        requires bound { (p : ℕ) → p < 64 → counted (counts_of self.old k) p < 2 ^ 62 }
        ensures counted { AreCounted tiles.old.items tiles.new.items self.old self.new }
        ensures set { result ≡ (tile_at tiles.old.items k).wave }
        ensures empty { (tile_at tiles.new.items k).wave ≡ 0 }
        ensures others { (m : ℕ) → m ≢ k → (tile_at tiles.new.items m).wave ≡ (tile_at tiles.old.items m).wave }
    {
        let set = tiles[k].wave;
        tiles[k].wave = 0;
        self.add(k, set);
        self.marks.mark(k, set);
        set
    }

    /// Counts and marks the sites of a wave, and takes them out of the tiles. Returns their total.
    pub(crate) fn count_wave(&mut self, sand: &mut Sand, board: &Board) -> Total
        requires board { IsBoard board.now }
        requires sand { IsSand board.now.shape sand.old }
        requires counts { AreCounts board.now.shape self.old }
        requires bound { (m p : ℕ) → p < 64 → with_wave (tiles_of sand.old) (counts_of self.old) m p < 2 ^ 62 }
        requires listed { AreListed sand.old.list.items 0 (length sand.old.list.items) (tiles_of sand.old) }
        requires on_board { (t : ℕ) → t < length sand.old.list.items
            → slice_index sand.old.list.items t < tiles board.now.shape }
        ensures counted { AreCounted sand.old.tiles.items sand.new.tiles.items self.old self.new }
        ensures clear { (m : ℕ) → IsClear (tiles_of sand.new m) }
        ensures list { sand.new.list ≡ sand.old.list }
        ensures size { result.size ≡ in_wave (tiles board.now.shape) (tiles_of sand.old) }
        ensures lost { result.lost
            ≡ over_wave (tiles board.now.shape) (tile_at board.now.outside.items) (tiles_of sand.old) }
    {
        let mut total = NOTHING;
        for position in 0..sand.list.len() {
            let k = sand.list.item(position);
            let set = self.take(&mut sand.tiles, k);
            total.size += size(set);
            total.lost += board.lost_in(k, set);
        }
        total
    }
}
