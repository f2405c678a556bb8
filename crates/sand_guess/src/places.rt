//! A tile in its place on the grid: its sites, the tiles beside it, and which of its sites burn.
//!
//! Tiles are numbered row by row. Around those with sites is a border of tiles without, which spares tests for the edge
//! of the grid: what falls there is never read.

ghost use Rattle.std.specs.Prelude.{◌≤◌, ◌<◌};

use crate::rows::{run, run_mut};
use crate::tile::{COLUMNS, LEVEL, ROUNDS, ROWS, Tile, is_any};
use sand_model::{Edge, Shape};
use std::alloc::{AllocError, Global};
use std::simd::prelude::*;

/// A tile in its place.
#[derive(Drop)]
pub(crate) struct Place {
    /// The site in its first row and column, if it has sites, and the number of columns with sites.
    corner: usize,
    columns: usize,
    /// The number of sites in a row of the grid.
    width: usize,
    /// Its places outside the grid that are next to sites, in it or in another tile.
    sinks: u16x8,
    /// The tiles to the west and to the east.
    pub(crate) west: usize,
    pub(crate) east: usize,
    /// The bit of the last column of the tile to the west, and of the last one that is next to the tile to the east.
    pub(crate) west_end: u16,
    pub(crate) east_end: u16,
    pub(crate) tile: Tile,
    /// Whether fires reach it. If not, all of it is taken to have burnt before. And whether it is on the list of tiles
    /// that take part in them.
    pub(crate) is_inside: bool,
    pub(crate) is_listed: bool,
    /// The sites that have toppled, and of these the ones that burn, and the ones that the last fire did not burn.
    marks: u16x8,
    pub(crate) burnt: u16x8,
    pub(crate) unburnt: u16x8,
    /// How often topplings can be taken back before marks change.
    slack: i64,
    /// Whether it rests: no site burns until the fire comes in from another tile. And how often topplings of all its sites
    /// were taken back since they were last counted.
    pub(crate) is_resting: bool,
    whole: i64,
}

// The most times that topplings are taken back before they are counted.
const MOST_SLACK: i64 = 0x7fff;

// The least of the numbers above `least`, less it.
fn least_above(numbers: &[i64], least: i64) -> i64 {
    let mut all = MOST_SLACK;
    for number in numbers {
        let more = number.wrapping_sub(least);
        all = if more > 0 { all.min(more) } else { all };
    }
    all
}

// The columns in which this bit of a number less `base` is set.
#[inline(always)]
fn bits_of(numbers: &[i64], base: i64, bit: u32) -> u16 {
    let mut bits = 0u16;
    for number in numbers.iter().rev() {
        let number = number.wrapping_sub(base).cast_unsigned();
        bits = bits << 1 | (number.wrapping_shr(bit) & 1) as u16;
    }
    bits
}

// Adds a number at the columns of a set.
#[inline(always)]
fn add_bits(sums: &mut [i64], bits: u16, number: i64) {
    let mut rest = bits;
    for _ in 0..COLUMNS {
        if rest == 0 {
            break;
        }
        if let Some(sum) = sums.get_mut(rest.trailing_zeros() as usize) {
            *sum = sum.wrapping_add(number);
        }
        rest &= rest.wrapping_sub(1);
    }
}

impl Place {
    // The site in the first column of a row.
    #[inline(always)]
    fn first_in(&self, row: usize) -> usize {
        self.corner.wrapping_add(row.wrapping_mul(self.width))
    }

    // The sites at which this bit of a number less `base` is set.
    #[inline(always)]
    fn sites_with(&self, list: &[i64], base: i64, bit: u32) -> u16x8 {
        let mut rows = [0u16; ROWS];
        for row in 0..ROWS {
            let numbers = run(list, self.first_in(row), self.columns);
            rows[row] = bits_of(numbers, base, bit);
        }
        u16x8::from_array(rows)
    }

    /// Adds a number at the sites of a set of places.
    pub(crate) fn add_where(&self, sums: &mut [i64], set: u16x8, number: i64) {
        let rows = set.to_array();
        for row in 0..ROWS {
            if rows[row] != 0 {
                let numbers = run_mut(sums, self.first_in(row), self.columns);
                add_bits(numbers, rows[row], number);
            }
        }
    }

    /// Loads heights.
    pub(crate) fn put(&mut self, heights: &[i64]) {
        self.tile.low = self.sites_with(heights, -LEVEL, 0);
        self.tile.high = self.sites_with(heights, -LEVEL, 1);
        self.tile.four = self.sites_with(heights, -LEVEL, 2);
        self.tile.due = self.sites_with(heights, -LEVEL, 3);
    }

    /// Marks the sites with counts above the least.
    pub(crate) fn mark(&mut self, counts: &[i64], least: i64) {
        let others = self.sites_with(counts, least.wrapping_add(1), 63);
        self.marks = self.tile.sites & !others;
    }

    /// Finds how often topplings can be taken back before marks change.
    pub(crate) fn limit(&mut self, counts: &[i64], least: i64) {
        self.slack = MOST_SLACK;
        for row in 0..ROWS {
            let numbers = run(counts, self.first_in(row), self.columns);
            self.slack = self.slack.min(least_above(numbers, least));
        }
    }

    /// The places that topple first in a fire: sinks, and sites that are not marked. If fires do not reach the tile, all
    /// sites.
    #[inline(always)]
    pub(crate) fn kindling(&self) -> u16x8 {
        let others = if self.is_inside {
            !self.marks
        } else {
            u16x8::splat(u16::MAX)
        };
        self.sinks | self.tile.sites & others
    }

    /// Begins a fire: what topples first pays for it.
    pub(crate) fn begin_fire(&mut self) {
        let kindling = self.kindling();
        self.burnt = u16x8::splat(0);
        if self.is_inside {
            self.tile.four &= !kindling;
        }
    }

    /// Ends a fire. A toppling of each marked site that did not burn is taken back: returns these, and whether marks may
    /// change before the next.
    pub(crate) fn end_fire(&mut self) -> (u16x8, bool) {
        if !self.is_inside {
            return (u16x8::splat(0), false);
        }
        self.unburnt = self.marks & !self.burnt;
        self.slack = self.slack.wrapping_sub(i64::from(is_any(self.unburnt)));
        (self.unburnt, self.slack <= 0)
    }

    /// Rests, if no site burns by itself and none burnt, and marks stay as they are for so many fires.
    pub(crate) fn rest_for(&mut self, fires: i64) -> bool {
        let is_whole = !is_any(self.kindling() | self.unburnt ^ self.tile.sites);
        self.is_resting = is_whole && self.is_inside && self.slack > fires;
        self.is_resting
    }

    /// Ends its rest of this many fires.
    pub(crate) fn wake(&mut self, fires: i64) {
        if self.is_resting {
            self.is_resting = false;
            self.whole = self.whole.wrapping_add(fires);
            self.slack = self.slack.wrapping_sub(fires);
        }
    }

    /// Subtracts what was taken back at all sites alike.
    pub(crate) fn count_whole(&mut self, counts: &mut [i64]) {
        if self.whole != 0 {
            self.add_where(counts, self.tile.sites, self.whole.wrapping_neg());
            self.whole = 0;
        }
    }

    /// Whether fires must reach the tile.
    pub(crate) fn is_open(&self) -> bool {
        is_any(self.unburnt) || self.tile.is_below_none()
    }

    /// Topples what may topple, once each, and returns it. Writes by site the turn at which it does, from the one after
    /// `turn` on.
    pub(crate) fn visit_in_turns(&mut self, turns: &mut [i64], turn: &mut i64) -> u16x8 {
        let mut toppled = u16x8::splat(0);
        for _ in 0..ROUNDS {
            let due = self.tile.due & !toppled;
            if !is_any(due) {
                break;
            }
            let [first, second] = self.tile.topple(due, toppled);
            toppled |= due | first | second;
            for set in [due, first, second] {
                *turn = turn.wrapping_add(1);
                self.add_where(turns, set, *turn);
            }
        }
        toppled
    }
}

/// The number of tiles in a row, with the border.
pub(crate) fn pitch_of(shape: Shape) -> usize
    ensures some { 0 < result }
    ensures bound { result ≤ 514 }
{
    shape.width().div_ceil(COLUMNS) + 2
}

// How many rows or columns of a tile are on the grid. The border has none.
fn span(side: usize, number: usize, most: usize) -> usize
    ensures { result ≤ most }
{
    let before = number.wrapping_sub(1).wrapping_mul(most);
    side.saturating_sub(before).min(most)
}

// The first columns of the first rows.
fn rectangle(columns: usize, rows: usize) -> u16x8
    requires { columns ≤ 16 }
{
    let row = u16::MAX.checked_shr((COLUMNS - columns) as u32);
    let mut all = [0u16; ROWS];
    for y in 0..ROWS.min(rows) {
        all[y] = row.unwrap_or(0);
    }
    u16x8::from_array(all)
}

// The tile in row y and column x, empty.
fn place_of(shape: Shape, x: usize, y: usize) -> Place {
    let across = shape.width().div_ceil(COLUMNS);
    let row = y.wrapping_mul(pitch_of(shape));
    let columns = span(shape.width(), x, COLUMNS);
    let sites = rectangle(columns, span(shape.height(), y, ROWS));
    let is_round = shape.edge() == Edge::Cylinder;
    let seam = 1u16 << (shape.width() - 1) % COLUMNS;
    let (is_first, is_last) = (is_round && x == 1, is_round && x == across);
    let all = rectangle(if is_round { columns } else { COLUMNS }, ROWS);
    let west = if is_first { across } else { x.wrapping_sub(1) };
    let east = if is_last { 1 } else { x.wrapping_add(1) };
    let above = y.wrapping_sub(1).wrapping_mul(ROWS);
    let before = x.wrapping_sub(1).wrapping_mul(COLUMNS);
    let none = u16x8::splat(0);
    Place {
        corner: above.wrapping_mul(shape.width()).wrapping_add(before),
        columns,
        width: shape.width(),
        sinks: all & !sites,
        west: row.wrapping_add(west),
        east: row.wrapping_add(east),
        west_end: if is_first { seam } else { 0x8000 },
        east_end: if is_last { seam } else { 0x8000 },
        tile: Tile {
            low: none,
            high: none,
            four: none,
            due: none,
            sites,
        },
        is_inside: true,
        is_listed: false,
        marks: none,
        burnt: none,
        unburnt: none,
        slack: 0,
        is_resting: false,
        whole: 0,
    }
}

/// All tiles of a grid, empty.
pub(crate) fn places_of(alloc: Global, shape: Shape) -> Result<Vec<Place>, AllocError> {
    let pitch = pitch_of(shape);
    let all = pitch * (shape.height().div_ceil(ROWS) + 2);
    let mut places = Vec::with_capacity(alloc, all)?;
    for k in 0..all {
        places.push(place_of(shape, k % pitch, k / pitch))?;
    }
    Ok(places)
}
