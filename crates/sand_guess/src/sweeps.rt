//! Small piles: all sites of a column topple at once, column after column, there and back.
//!
//! A column is a vector with a lane for each row. Each site topples as often as its height allows, and what moves on to
//! the next column topples there in the same sweep.
//!
//! **No fire is needed.** The turn of a site is the one in which it toppled last. Since then it has kept a grain of each
//! neighbour that toppled in that turn or later. So in the end it has at least as many grains as neighbours whose turn
//! is not earlier, which is what a certificate asks for (`sand_certify`).

ghost use Rattle.std.specs.Prelude.{◌≤◌, ◌<◌};

use crate::claim::Claim;
use sand_model::{Pile, Shape};
use std::alloc::{AllocError, Global};
use std::simd::prelude::*;

// The most rows and columns of a small grid.
const SIDE: usize = 16;

// The most grains of a small pile. They topple no site more often than a lane counts: on the narrowest cylinder not
// twice as often as there are grains.
const MOST_GRAINS: u64 = 0x7fff;

// A small pile is dense if it has this number of grains per site, and more in addition. On others little topples.
const DENSE: u64 = 2;

const MORE: u64 = 64;

// The most sweeps there and back before a claim is given up: a lane holds all turns.
const MOST_SWEEPS: u16 = 2_000;

// For each lane the next one, and the one before. Lane 16 is the first of a second vector.
const NEXT: [usize; SIDE] = [1, 2, 3, 4, 5, 6, 7, 8, 9, 10, 11, 12, 13, 14, 15, 16];

const BEFORE: [usize; SIDE] = [16, 0, 1, 2, 3, 4, 5, 6, 7, 8, 9, 10, 11, 12, 13, 14];

/// The sites of a column: their heights, how often each toppled, and the turn in which it toppled last. Next to it are
/// the columns `west` and `east`, or none.
#[derive(Clone, Copy)]
struct Column {
    /// All bits of the lanes that are sites.
    sites: u16x16,
    heights: u16x16,
    counts: u16x16,
    turns: u16x16,
    west: usize,
    east: usize,
}

// Column x of heights by site.
fn lanes_of(shape: Shape, heights: &[u64], x: usize) -> u16x16 {
    let mut lanes = [0u16; SIDE];
    for y in 0..SIDE {
        let height = heights.get(y.wrapping_mul(shape.width()).wrapping_add(x));
        lanes[y] = height.map_or(0, |height| (*height & MOST_GRAINS) as u16);
    }
    u16x16::from_array(lanes)
}

// Writes column x into a list by site.
fn put_lanes<T: From<u16> + Drop>(shape: Shape, list: &mut [T], x: usize, lanes: u16x16) {
    let lanes = lanes.to_array();
    for y in 0..SIDE {
        if let Some(to) = list.get_mut(y.wrapping_mul(shape.width()).wrapping_add(x)) {
            *to = T::from(lanes[y]);
        }
    }
}

// The columns of a small pile.
fn columns_of(alloc: Global, pile: &Pile) -> Result<Vec<Column>, AllocError> {
    let shape = pile.shape();
    let (none, all) = (u16x16::splat(0), u16x16::splat(u16::MAX));
    let rows = u16x16::from_array([0, 1, 2, 3, 4, 5, 6, 7, 8, 9, 10, 11, 12, 13, 14, 15]);
    let is_site = rows.simd_lt(u16x16::splat(shape.height() as u16));
    let mut columns = Vec::with_capacity(alloc, shape.width())?;
    for x in 0..shape.width() {
        let [_, west, east, _] = shape.neighbours(x);
        columns.push(Column {
            sites: is_site.select(all, none),
            heights: lanes_of(shape, pile.heights(), x),
            counts: none,
            turns: none,
            west: west.unwrap_or(usize::MAX),
            east: east.unwrap_or(usize::MAX),
        })?;
    }
    Ok(columns)
}

impl Column {
    // Adds grains, and topples each site as often as its height allows. Returns how often.
    #[inline(always)]
    fn topple(&mut self, grains: u16x16, turn: u16) -> u16x16 {
        let none = u16x16::splat(0);
        let sand = self.heights + grains;
        let times = sand >> u16x16::splat(2) & self.sites;
        let north = times.shuffle(none, NEXT);
        let south = times.shuffle(none, BEFORE);
        self.heights = (sand & u16x16::splat(3)) + north + south;
        self.counts += times;
        let is_toppled = times.simd_ne(none);
        self.turns = is_toppled.select(u16x16::splat(turn), self.turns);
        times
    }
}

// Gives grains to a column, if there is one.
#[inline(always)]
fn give(columns: &mut [Column], x: usize, grains: u16x16) {
    if let Some(column) = columns.get_mut(x) {
        column.heights += grains;
    }
}

// Topples all columns from one end to the other, and returns whether any site toppled. What moves on to the next column
// stays in a register.
#[inline(always)]
fn sweep(columns: &mut [Column], is_back: bool, turns_before: u16) -> bool {
    let width = columns.len();
    let (mut all, mut times) = (u16x16::splat(0), u16x16::splat(0));
    let (mut ahead, mut turn) = (usize::MAX, turns_before);
    for step in 0..width {
        let x = if is_back { width - 1 - step } else { step };
        let Some(column) = columns.get_mut(x) else {
            break;
        };
        turn = turn.wrapping_add(1);
        times = column.topple(times, turn);
        let (west, east) = (column.west, column.east);
        give(columns, if is_back { east } else { west }, times);
        ahead = if is_back { west } else { east };
        all |= times;
    }
    give(columns, ahead, times);
    all.reduce_or() != 0
}

// The counts and turns by site.
fn claim_of(alloc: Global, shape: Shape, columns: &[Column]) -> Result<Claim, AllocError> {
    let mut counts = vec![in alloc; 0u64; shape.sites()]?;
    let mut turns = vec![in alloc; 0u32; shape.sites()]?;
    for (x, column) in columns.iter().enumerate() {
        put_lanes(shape, &mut counts, x, column.counts);
        put_lanes(shape, &mut turns, x, column.turns);
    }
    Ok(Claim { counts, turns })
}

/// Whether a pile is small and dense, so that sweeps settle it fast.
pub fn is_small(shape: Shape, grains: u64) -> bool {
    let is_dense = grains >= DENSE * shape.sites() as u64 + MORE;
    shape.width() <= SIDE && shape.height() <= SIDE && is_dense && grains <= MOST_GRAINS
}

/// How often each site of a small pile topples, found by sweeps, with turns at which sites burn, or None. It is not
/// proved right: `sand_certify::certified` decides. Fails only if an allocation fails.
pub fn claim_by_sweeps(alloc: Global, pile: &Pile) -> Result<Option<Claim>, AllocError> {
    let mut columns = columns_of(alloc, pile)?;
    for n in 0..MOST_SWEEPS {
        let turn = n.wrapping_mul(2 * SIDE as u16);
        let after = turn.wrapping_add(SIDE as u16);
        if !sweep(&mut columns, false, turn) || !sweep(&mut columns, true, after) {
            return Ok(Some(claim_of(alloc, pile.shape(), &columns)?));
        }
    }
    Ok(None)
}
