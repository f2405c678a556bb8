//! The sand on the tiles, and one wave over them: the dropped site topples, then each other site that this brings to 4,
//! once each.
//!
//! - **The balance.** Let h be the heights at the start of the wave, T the sites that have toppled and D those that are
//!   due. For every site j except the dropped one, h(j) plus the number of its neighbours in T is the height in its
//!   tile's planes, plus 4 if j is in T or D (`IsWave`). A visit to a tile keeps this balance, once the grains that
//!   leave the tile are given to the tiles next to it.
//! - **No site topples twice.** h(j) is at most 3 and there are four neighbours, so the left side of the balance is at
//!   most 7, and a site that has toppled cannot become due again. The dropped site could; it is not free in its own
//!   wave.
//! - **Each toppling is legal, in any order.** Whatever stabilises the heights topples each site in T (`IsWave`:
//!   `needed`). So the wave is a legal sequence of topplings (`advances`), though none is ever written down.
//! - **The list.** It begins with the tile of the dropped site. A tile joins it when a site in it becomes due and none
//!   was before. Its turn topples all that is due there. So each turn topples a new site, and the list never has more
//!   tiles than there are sites and tiles, plus the eight that two turns may add. At its end no site is due
//!   (`none_due`). Only free sites become due: so one word of a tile tells whether it waits.
//! - **Two turns at once.** When two tiles wait, both are visited before either hands over its grains (`PairSteps`).
//!   No tile waits twice, so these are two tiles. The second is visited while the grains of the first are under way
//!   (`IsUnderWay`): what topples in it without them topples legally.
//! - **The tiles to count.** When the turn of a tile has come and no site of it has toppled yet in this wave, it is
//!   written to the front of the list, over tiles that have had their turn. In the end the list has only these tiles, so
//!   that each is counted once.
//!
//! A border of tiles without free sites spares all tests for the edge of the grid: grains that fall into the sink are
//! added to tiles that nobody reads. On a cylinder the tiles at the two ends of a row are neighbours, and the last
//! column of the grid need not be the last of its tile: hence the shifts of `Beside`.

ghost use Rattle.std.specs.Prelude.{◌≡◌, ◌≢◌, ℕ, ◌+◌, ◌<◌, ◌≤◌, length, slice_index, IfSome};
ghost use Rattle.sand_model.specs.IndexLists.{Joins};
ghost use Rattle.sand_tiles.specs.Places.{bit, IsReady};
ghost use Rattle.sand_fronts.specs.Tiling.{tiles};
ghost use Rattle.sand_fronts.specs.TileLists.{but, waits, AreListed, AreKept};
ghost use Rattle.sand_fronts.specs.Waves.{only, AreOpen, AreAtRest, AtTile, IsOnBoard, IsOpenRow, IsDropSite, IsWholeWave, beside_at, over_rim, tile_at, AreVisited, Steps, PairSteps};
ghost use Rattle.sand_fronts.specs.Boards.{tiles_of, free_of, IsBoard, IsSand, Gets};

use crate::board::{Board, DropSite};
use crate::sides::Beside;
use crate::tiling::pitch;
use core::mem::replace_with;
use sand_model::{Edge, IndexList};
use sand_tiles::{Tile, receive, set_of, visit, visit_pair};

// The first column of a tile.
const FIRST: u64 = 0x0101_0101_0101_0101;

// Visits two tiles side by side. It is a call of its own, so that nothing else is around the rounds, and on the list, so
// that no copy of the tiles leaves it: a copy would be read before the words written last have reached memory.
#[inline(never)]
fn visit_two(tiles: &mut [Tile], j: usize, k: usize, free_one: u64, free_two: u64) -> (u64, u64)
    requires tile { j < length tiles.old }
    requires other_tile { k < length tiles.old }
    requires ready { IsReady (tile_at tiles.old j) free_one 0 }
    requires other_ready { IsReady (tile_at tiles.old k) free_two 0 }
    ensures len { length tiles.new ≡ length tiles.old }
    ensures visited { AreVisited tiles.old tiles.new j k free_one free_two result.0 result.1 }
{
    let (mut one, mut two) = (tiles[j], tiles[k]);
    let new = visit_pair(&mut one, &mut two, free_one, free_two);
    tiles[j] = one;
    tiles[k] = two;
    new
}

/// The sand on the tiles, and a list of tiles that have their turn in a wave.
#[derive(Drop)]
pub(crate) struct Sand {
    pub(crate) tiles: Vec<Tile>,
    pub(crate) list: IndexList,
}

impl Sand {
    // Adds a grain at each place of a set in a tile, and lists the tile if a place becomes due and none was before.
    #[inline(always)]
    fn gain(&mut self, free: &[u64], k: usize, gain: u64)
        requires inside { k < length self.old.tiles.items }
        requires fits { length self.old.tiles.items ≤ 2097152 }
        requires len { length free.now ≡ length self.old.tiles.items }
        requires room { length self.old.list.items < self.old.list.room }
        ensures { Gets (slice_index free.now) 1 (only k (bit gain)) self.old self.new }
    {
        let tile = &mut self.tiles[k];
        let before = tile.due;
        receive(tile, gain, free[k]);
        let after = tile.due;
        self.list.push_if(k, (before == 0) & (after != 0));
    }

    // Gives the grains that leave a tile to the four tiles next to it.
    #[inline(always)]
    fn hand_over(&mut self, free: &[u64], beside: &Beside, new: u64)
        requires beside { IsOnBoard (length self.old.tiles.items) beside.now }
        requires fits { length self.old.tiles.items ≤ 2097152 }
        requires len { length free.now ≡ length self.old.tiles.items }
        requires room { length self.old.list.items + 4 ≤ self.old.list.room }
        ensures { Gets (slice_index free.now) 4 (over_rim beside.now new) self.old self.new }
    {
        self.gain(free, beside.north, new << 56);
        self.gain(free, beside.south, new >> 56);
        self.gain(free, beside.west, (new & FIRST) << beside.west_shift);
        self.gain(free, beside.east, new >> beside.east_shift & FIRST);
    }

    // Visits a tile, and hands over the grains that leave it.
    #[inline(always)]
    fn topple_tile(&mut self, board: &Board, open_row: Option<usize>, k: usize, start: u64)
        requires board { IsBoard board.now }
        requires row { IfSome open_row (IsOpenRow board.now.shape) }
        requires sand { IsSand board.now.shape self.old }
        requires tile { AtTile board.now.shape k (beside_at board.now.beside.items k) }
        requires ready { IsReady (tiles_of self.old k) (free_of board.now k) start }
        requires room { length self.old.list.items + 4 ≤ self.old.list.room }
        ensures sand { IsSand board.now.shape self.new }
        ensures steps { Steps (tiles_of self.old) (tiles_of self.new) (free_of board.now)
            (beside_at board.now.beside.items k) k start }
        ensures joins { Joins (tiles board.now.shape) 4 (but k (waits (tiles_of self.old)))
            (waits (tiles_of self.new)) self.old.list self.new.list }
    {
        let free = board.free.as_slice();
        let new = visit(&mut self.tiles[k], free[k], start);
        self.hand_over(free, &board.beside(k, open_row), new);
    }

    // Visits two tiles side by side, and only then hands over the grains that leave them.
    #[inline(always)]
    fn topple_pair(&mut self, board: &Board, open_row: Option<usize>, j: usize, k: usize)
        requires board { IsBoard board.now }
        requires row { IfSome open_row (IsOpenRow board.now.shape) }
        requires sand { IsSand board.now.shape self.old }
        requires different { j ≢ k }
        requires tile { AtTile board.now.shape j (beside_at board.now.beside.items j) }
        requires other_tile { AtTile board.now.shape k (beside_at board.now.beside.items k) }
        requires ready { IsReady (tiles_of self.old j) (free_of board.now j) 0 }
        requires other_ready { IsReady (tiles_of self.old k) (free_of board.now k) 0 }
        requires room { length self.old.list.items + 8 ≤ self.old.list.room }
        ensures sand { IsSand board.now.shape self.new }
        ensures steps { PairSteps (tiles_of self.old) (tiles_of self.new) (free_of board.now)
            (beside_at board.now.beside.items j) (beside_at board.now.beside.items k) j k }
        ensures joins { Joins (tiles board.now.shape) 8 (but k (but j (waits (tiles_of self.old))))
            (waits (tiles_of self.new)) self.old.list self.new.list }
    {
        let free = board.free.as_slice();
        let (new_one, new_two) = visit_two(self.tiles.as_mut_slice(), j, k, free[j], free[k]);
        self.hand_over(free, &board.beside(j, open_row), new_one);
        self.hand_over(free, &board.beside(k, open_row), new_two);
    }

    /// One wave: the dropped site topples, then each other site that this brings to 4, once each. Lists their tiles. It
    /// is not inlined, so that the registers hold what its turns need.
    #[inline(never)]
    pub(crate) fn topple_wave(&mut self, board: &Board, drop: DropSite)
        requires drop { IsDropSite board.now.shape drop }
        requires board { IsBoard board.now }
        requires sand { IsSand board.now.shape self.old }
        requires all_open { AreOpen board.now.shape drop.site (free_of board.now) }
        requires rest { AreAtRest board.now.shape drop.site (tiles_of self.old) }
        ensures wave { IsWholeWave board.now.shape drop.site (tiles_of self.old) (tiles_of self.new) }
        ensures sand { IsSand board.now.shape self.new }
        ensures listed { AreListed self.new.list.items 0 (length self.new.list.items) (tiles_of self.new) }
        ensures on_board { (t : ℕ) → t < length self.new.list.items
            → slice_index self.new.list.items t < tiles board.now.shape }
    {
        match board.shape.edge() {
            Edge::Open => {
                let row = pitch(board.shape);
                replace_with(self, (), |sand, ()| {
                    (topple_turns(sand, board, drop, Some(row)), ())
                })
            }
            Edge::Cylinder => replace_with(self, (), |sand, ()| {
                (topple_turns(sand, board, drop, None), ())
            }),
        }
    }
}

// The same on sand that it owns, so that the compiler keeps the length of the list in a register: behind a reference it
// would be read again after each grain. Compiled once for each edge.
#[inline(always)]
fn topple_turns(sand: Sand, board: &Board, drop: DropSite, open_row: Option<usize>) -> Sand
    requires drop { IsDropSite board.now.shape drop }
    requires board { IsBoard board.now }
    requires row { IfSome open_row (IsOpenRow board.now.shape) }
    requires sand { IsSand board.now.shape sand }
    requires all_open { AreOpen board.now.shape drop.site (free_of board.now) }
    requires rest { AreAtRest board.now.shape drop.site (tiles_of sand) }
    ensures wave { IsWholeWave board.now.shape drop.site (tiles_of sand) (tiles_of result) }
    ensures sand { IsSand board.now.shape result }
    ensures kept { AreKept (tiles board.now.shape) result.list.items (length result.list.items) (tiles_of result) }
{
    let mut sand = sand;
    sand.list.clear();
    sand.list.push_if(drop.tile, true);
    sand.topple_tile(board, open_row, drop.tile, set_of(drop.place));
    let (mut position, mut kept) = (1usize, 1usize);
    'turns: while position < sand.list.len() {
        let k = sand.list.item(position);
        let first = sand.tiles[k].wave == 0;
        if position + 1 < sand.list.len() {
            let other = sand.list.item(position + 1);
            let other_first = sand.tiles[other].wave == 0;
            kept = sand.list.keep_if(kept, k, first);
            kept = sand.list.keep_if(kept, other, other_first);
            sand.topple_pair(board, open_row, k, other);
            position += 2;
        } else {
            kept = sand.list.keep_if(kept, k, first);
            sand.topple_tile(board, open_row, k, 0);
            position += 1;
        }
    }
    sand.list.truncate(kept);
    sand
}
