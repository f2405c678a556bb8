//! A tile: 8 rows of 16 sites, a lane for each row and one bit of it for each site.
//!
//! In a visit each site of a tile topples that may, and each that this brings to 4, once at most. A front topples at
//! once: it is moved four ways and added to the heights bit by bit, as an adder does it, and the carries are due next.
//! A site with 3 grains next to one that topples must topple, too, and so on: two steps of this flood join each front,
//! so that a visit has fewer rounds (docs/SETTLING.md, "Drops").

use std::simd::prelude::*;

/// The number of rows of a tile.
pub(crate) const ROWS: usize = 8;

/// The number of columns of a tile.
pub(crate) const COLUMNS: usize = 16;

/// The offset of a height on a tile.
pub(crate) const LEVEL: i64 = 4;

/// More rounds than a visit has: in each round another site topples.
pub(crate) const ROUNDS: usize = ROWS * COLUMNS + 1;

/// The heights of 8 by 16 places plus `LEVEL`: low + 2 high + 4 four + 8 due. So what is due may topple.
#[derive(Clone, Copy)]
pub(crate) struct Tile {
    pub(crate) low: u16x8,
    pub(crate) high: u16x8,
    pub(crate) four: u16x8,
    pub(crate) due: u16x8,
    /// The places that are sites.
    pub(crate) sites: u16x8,
}

#[inline(always)]
pub(crate) fn is_any(set: u16x8) -> bool {
    set.reduce_or() != 0
}

// A set moved one place to the south, north, east and west. What leaves the tile is cut off.
#[inline(always)]
fn moved(set: u16x8) -> [u16x8; 4] {
    let (none, one) = (u16x8::splat(0), u16x8::splat(1));
    [
        none.shuffle(set, [0, 8, 9, 10, 11, 12, 13, 14]),
        set.shuffle(none, [1, 2, 3, 4, 5, 6, 7, 8]),
        set << one,
        set >> one,
    ]
}

// The places next to those of a set.
#[inline(always)]
fn next_to(set: u16x8) -> u16x8 {
    let [south, north, east, west] = moved(set);
    south | north | east | west
}

impl Tile {
    /// Adds a grain at each place of a set, and returns whether sites are due now and none was before.
    #[inline(always)]
    pub(crate) fn gain(&mut self, set: u16x8) -> bool {
        let carry = self.low & set;
        let four = self.high & carry & self.sites;
        let (before, new) = (self.due, self.four & four);
        self.low ^= set;
        self.high ^= carry;
        self.four ^= four;
        self.due |= new;
        !is_any(before) & is_any(new)
    }

    /// Takes a grain from each place of a set, and returns whether a site has less than none then.
    pub(crate) fn lose(&mut self, set: u16x8) -> bool {
        let borrowed = !self.low & set;
        let twos = !self.high & borrowed;
        self.low ^= set;
        self.high ^= borrowed;
        self.four ^= twos;
        self.is_below_none()
    }

    /// Whether a site of a stable tile has less than no grains.
    pub(crate) fn is_below_none(&self) -> bool {
        is_any(self.sites & !self.four)
    }

    /// Gives a grain to each neighbour in the tile of each place of a front. The flood pays with what it gets.
    #[inline(always)]
    pub(crate) fn give(&mut self, front: u16x8, flood: u16x8) {
        let [south, north, east, west] = moved(front);
        let (one_down, two_down) = (south ^ north, south & north);
        let (one_across, two_across) = (east ^ west, east & west);
        let sum = one_down ^ self.low;
        let carry = one_down & self.low | sum & one_across;
        self.low = sum ^ one_across;
        let twos = self.high ^ two_down;
        let all_twos = twos ^ two_across;
        let four = self.high & two_down | twos & two_across | all_twos & carry;
        self.high = all_twos ^ carry;
        let four = four & self.sites & !flood;
        let due = self.four & four;
        self.four ^= four;
        self.due |= due;
    }

    /// One round of a visit: topples places that are due, and the flood, whose two steps it returns.
    #[inline(always)]
    pub(crate) fn topple(&mut self, due: u16x8, toppled: u16x8) -> [u16x8; 2] {
        let ready = self.low & self.high & self.four & !(self.due | toppled);
        let first = ready & next_to(due);
        let second = ready & next_to(first) & !first;
        let flood = first | second;
        let stays = self.four | !due;
        self.due &= stays;
        self.four ^= due;
        self.give(due | flood, flood);
        [first, second]
    }

    /// Topples what may topple, once each, and returns it. It is a call of its own, so that the registers hold the
    /// tile.
    #[inline(never)]
    pub(crate) fn visit(&mut self) -> u16x8 {
        let (mut tile, mut toppled) = (*self, u16x8::splat(0));
        for _ in 0..ROUNDS {
            let due = tile.due & !toppled;
            if !is_any(due) {
                break;
            }
            let [first, second] = tile.topple(due, toppled);
            toppled |= due | first | second;
        }
        *self = tile;
        toppled
    }
}
