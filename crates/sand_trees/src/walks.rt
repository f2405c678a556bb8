//! Random walks by Wilson's algorithm (1996), which make a random spanning tree.
//!
//! From each site that is not yet in the tree, a random walk goes on until it meets the tree or the sink, and notes at each
//! site how it leaves it last. These notes are the walk without its loops. They are followed to the tree, whose depth
//! is known there, and once more to add the sites on the way to the tree, each one edge nearer to it than the last.
//!
//! The walks go over a frame: rows of cells, one for each site and one more at the end of the row, with a row above and one
//! below. What is outside the grid is the sink or, on a cylinder, the seam, where a row goes on at its other end. So a step
//! needs no test of where the edge is.
//!
//! Three walks of five end after one step. Nobody can predict which sites these are, or which are in the tree already, so
//! both kinds are passed without a branch.
//!
//! A cell has 29 bits for the number of the next cell, or for a depth. Both are below 2^27: the largest frame, around 8,192 by
//! 8,192 sites, has 8,194 rows of 8,193 cells, 67,133,442 in all, and a depth is at most the number of sites. So no cell of the
//! tree looks like the seam, whose bits are all set. So large a tree takes about 4 * 10^8 steps.
//!
//! Of all this it is proved only that it is safe and ends.

ghost use Rattle.std.specs.Prelude.{◌<◌, length};

use rand_chacha::ChaCha8Rng;
use rand_core::utils::NextWord;
use sand_model::{Edge, Shape};
use sand_streams::words_of;
use std::alloc::{AllocError, Global};

// Cells from this one on are in the tree or outside the grid, and end a walk. Such a cell has a depth and a direction, any
// other one the cell that a walk went on to and the direction: two bits.
const JOINED: u32 = 0x8000_0000;

// A cell between the last site of a row of a cylinder and the first one of the next.
const SEAM: u32 = u32::MAX;

// The steps of two words of the stream.
const STEPS: u32 = 32;

// The pairs of words after which no walk goes on: 2^40 steps.
const PAIR_LIMIT: u64 = 34_359_738_368;

// The words of a stream, and how many pairs of them were read.
#[derive(Drop)]
struct Words {
    stream: ChaCha8Rng,
    pairs: u64,
}

// Steps to come: two bits each, from the low ones on.
#[derive(Clone, Copy)]
struct Steps {
    bits: u64,
    left: u32,
}

// Which cell is next, by direction, and from a seam.
#[derive(Drop)]
struct Ways {
    near: [u32; 4],
    around: [u32; 4],
}

impl Words {
    fn next_steps(&mut self) -> Steps {
        let low = self.stream.next_word();
        let high = self.stream.next_word();
        self.pairs = self.pairs.saturating_add(1);
        Steps {
            bits: u64::from(low) | u64::from(high) << 32,
            left: STEPS,
        }
    }
}

#[inline(always)]
fn cell_at(cells: &[u32], place: u32) -> u32
    ensures { result < 2147483648 → place < length cells.now }
{
    match cells.get(place as usize) {
        Some(cell) => *cell,
        None => JOINED,
    }
}

#[inline(always)]
fn set_cell(cells: &mut [u32], place: u32, cell: u32) {
    if (place as usize) < cells.len() {
        cells[place as usize] = cell;
    }
}

// A cell in the tree, so many edges before one that is there already.
#[inline(always)]
fn joined(met: u32, edges: u32, direction: u32) -> u32 {
    (met - met % 4).wrapping_add(edges.wrapping_mul(4)) | direction
}

// The cell that a step meets.
#[inline(always)]
fn met_by(cells: &[u32], ways: &Ways, from: u32, direction: u32) -> u32
    requires { direction < 4 }
{
    let next = from.wrapping_add(ways.near[direction as usize]);
    let met = cell_at(cells, next);
    if met != SEAM {
        return met;
    }
    cell_at(cells, next.wrapping_add(ways.around[direction as usize]))
}

// Walks on from a place by these steps. Returns where to, what steps are left, and whether the last one met the tree or the
// sink. Most steps do not: one test finds this.
#[inline(always)]
fn stroll(cells: &mut [u32], ways: &Ways, steps: Steps, from: u32) -> (u32, Steps, bool)
    requires { from < length cells.old }
    ensures { result.0 < length cells.new }
{
    let mut here = from;
    let mut bits = steps.bits;
    for left in (0..steps.left).rev() {
        let direction = (bits % 4) as u32;
        bits /= 4;
        let mut next = here.wrapping_add(ways.near[direction as usize]);
        let mut met = cell_at(cells, next);
        if met >= JOINED {
            if met == SEAM {
                next = next.wrapping_add(ways.around[direction as usize]);
                met = cell_at(cells, next);
            }
            if met >= JOINED {
                cells[here as usize] = next.wrapping_mul(4) | direction;
                return (here, Steps { bits, left }, true);
            }
        }
        cells[here as usize] = next.wrapping_mul(4) | direction;
        here = next;
    }
    (here, Steps { bits, left: 0 }, false)
}

// Walks from a place to the tree or the sink. Returns what steps are left.
fn wander(cells: &mut [u32], ways: &Ways, words: &mut Words, steps: Steps, from: u32) -> Steps
    requires { from < length cells.old }
{
    let mut here = from;
    let mut steps = steps;
    for _ in words.pairs..PAIR_LIMIT {
        let (place, left, has_met) = stroll(cells, ways, steps, here);
        if has_met {
            return left;
        }
        here = place;
        steps = words.next_steps();
    }
    steps
}

// Follows the notes of a place to the tree or the sink, and returns the number of edges on the way and the cell there.
fn follow(cells: &[u32], from: u32) -> (u32, u32) {
    let mut here = from;
    for edges in 0..cells.len().min(JOINED as usize) as u32 {
        let cell = cell_at(cells, here);
        if cell >= JOINED {
            return (edges, cell);
        }
        here = cell / 4;
    }
    (0, JOINED)
}

// Adds the places on the way from one to the tree, over so many edges to a cell of the tree.
fn join(cells: &mut [u32], from: u32, edges: u32, met: u32) {
    let mut here = from;
    for after in 0..edges {
        let cell = cell_at(cells, here);
        set_cell(cells, here, joined(met, edges - after, cell % 4));
        here = cell / 4;
    }
}

// The frame of a shape, with no site in the tree.
fn frame_of(alloc: Global, shape: Shape) -> Result<Vec<u32>, AllocError> {
    let width = shape.width();
    let outside = match shape.edge() {
        Edge::Open => JOINED,
        Edge::Cylinder => SEAM,
    };
    let mut cells = vec![in alloc; JOINED; (shape.height() + 2) * (width + 1)]?;
    for row in cells
        .chunks_exact_mut(width + 1)
        .skip(1)
        .take(shape.height())
    {
        row.fill(0);
        row[width] = outside;
    }
    cells[width] = outside;
    Ok(cells)
}

// Walks from each place that is not in the tree. A walk that ends after one step joins the tree at once.
fn walk_all(cells: &mut [u32], shape: Shape, seed: u64, stream: u64) {
    let width = shape.width() as u32;
    let ways = Ways {
        near: [0u32.wrapping_sub(width + 1), u32::MAX, 1, width + 1],
        around: [0, width, 0u32.wrapping_sub(width), 0],
    };
    let mut words = Words {
        stream: words_of(seed, stream),
        pairs: 0,
    };
    let mut steps = words.next_steps();
    for from in width + 1..(width + 1) * (shape.height() as u32 + 1) {
        if steps.left == 0 {
            steps = words.next_steps();
        }
        let direction = (steps.bits % 4) as u32;
        let met = met_by(cells, &ways, from, direction);
        let cell = cell_at(cells, from);
        let is_free = cell < JOINED;
        if is_free & (met < JOINED) {
            steps = wander(cells, &ways, &mut words, steps, from);
            let (edges, met) = follow(cells, from);
            join(cells, from, edges, met);
        } else {
            let cell = if is_free {
                joined(met, 1, direction)
            } else {
                cell
            };
            set_cell(cells, from, cell);
            steps.bits >>= 2 * u32::from(is_free);
            steps.left = steps.left.wrapping_sub(u32::from(is_free));
        }
    }
}

// The directions and depths of a row of cells.
fn read_row(cells: &[u32], directions: &mut [u8], depths: &mut [u32]) {
    for x in 0..cells.len().min(directions.len()).min(depths.len()) {
        directions[x] = (cells[x] % 4) as u8;
        depths[x] = cells[x] % JOINED / 4;
    }
}

/// Writes directions and depths, by site: those of a random tree of a shape.
pub(crate) fn draw(
    alloc: Global,
    shape: Shape,
    seed: u64,
    stream: u64,
    directions: &mut [u8],
    depths: &mut [u32],
) -> Result<(), AllocError> {
    let width = shape.width();
    let mut cells = frame_of(alloc, shape)?;
    walk_all(&mut cells, shape, seed, stream);
    let rows = cells.chunks_exact(width + 1).skip(1);
    let sites = directions
        .chunks_exact_mut(width)
        .zip(depths.chunks_exact_mut(width));
    for (row, (directions, depths)) in rows.zip(sites) {
        read_row(row, directions, depths);
    }
    Ok(())
}
