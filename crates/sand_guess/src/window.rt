//! The part of a grid in which heaps come to rest: a guess there is faster than one of the whole grid.
//!
//! Heaps of g grains fill a disc of g / room sites, where `room` is what a site still takes. Near an open edge most grains
//! leave. A function that is harmonic, and 0 just outside the grid, tells how many stay: toppling does not change its sum
//! over all grains. At one edge it is the distance d from it, so a half disc of radius r takes g * d = 2/3 r^3 * room. In
//! a corner it is the product of two distances, and a quarter disc takes g * d * e = 1/8 r^4 * room. All around a cylinder
//! a band of r rows takes g * d = 1/2 r^2 * width * room at an edge, and elsewhere sand fills r rows on both sides.

ghost use Rattle.std.specs.Prelude.{◌<◌};
ghost use Rattle.sand_model.specs.Grid.{sites};

use crate::claim::Claim;
use crate::density::USUAL;
use crate::levels::{Level, signed};
use crate::modes::PI;
use sand_model::{Edge, Pile, Shape, TOPPLING_HEIGHT};
use std::alloc::{AllocError, Global};
use std::num::{nearest_u64_to_f64, nearest_usize_to_f64, saturating_f64_to_i64};

// The least room of a site for which heaps are expected to stay in a part of the grid.
const LEAST_ROOM: f64 = 0.1;

// At most one of so many sites is unstable if there are only heaps.
const FEW: usize = 64;

// What is added to the radius.
const MARGIN: usize = 12;

// The rounds of a cube root.
const ROUNDS: usize = 12;

/// A part of a grid, from a column and a row on. On a cylinder the first column comes after the last.
#[derive(Clone, Copy)]
pub(crate) struct Window {
    pub(crate) shape: Shape,
    grid: Shape,
    column: usize,
    row: usize,
}

// The unstable sites of a pile: the first of their columns and the one after the last, the same of rows, how many they are, their
// grains, and the sums over these of the distance from the nearest edge and of the product of both distances.
#[derive(Clone, Copy)]
struct Heaps {
    columns: [usize; 2],
    rows: [usize; 2],
    number: usize,
    grains: f64,
    by_edge: f64,
    by_corner: f64,
}

// The cube root r of n, since it is the fourth root of n * r: each round leaves a quarter of the logarithm of the error. The
// library is linked without one.
fn cube_root(n: f64) -> f64 {
    let mut root = 1.0;
    for _ in 0..ROUNDS {
        root = (n * root).sqrt().sqrt();
    }
    root
}

impl Heaps {
    fn add(&mut self, shape: Shape, site: usize, height: u64)
        requires { site < sites shape }
    {
        let (x, y) = shape.place(site);
        let grains = nearest_u64_to_f64(height);
        let down = y.wrapping_add(1).min(shape.height().wrapping_sub(y));
        let across = match shape.edge() {
            Edge::Open => x.wrapping_add(1).min(shape.width().wrapping_sub(x)),
            Edge::Cylinder => down,
        };
        self.columns = [
            self.columns[0].min(x),
            self.columns[1].max(x.wrapping_add(1)),
        ];
        self.rows = [self.rows[0].min(y), self.rows[1].max(y.wrapping_add(1))];
        self.number = self.number.wrapping_add(1);
        self.grains += grains;
        self.by_edge += grains * nearest_usize_to_f64(across.min(down));
        self.by_corner += grains * nearest_usize_to_f64(across.wrapping_mul(down));
    }

    // Those of a pile, or None if they are many.
    fn of(pile: &Pile) -> Option<Heaps> {
        let shape = pile.shape();
        let mut heaps = Heaps {
            columns: [shape.width(), 0],
            rows: [shape.height(), 0],
            number: 0,
            grains: 0.0,
            by_edge: 0.0,
            by_corner: 0.0,
        };
        for site in 0..shape.sites() {
            let height = pile.height(site);
            if height >= TOPPLING_HEIGHT {
                heaps.add(shape, site, height);
                if heaps.number.wrapping_mul(FEW) > shape.sites() {
                    return None;
                }
            }
        }
        Some(heaps)
    }

    // How far from them the sand comes, if a site takes `room` grains.
    fn reach(&self, shape: Shape, room: f64) -> usize {
        let disc = (self.grains / room / PI).sqrt();
        let half_disc = cube_root(1.5 * self.by_edge / room);
        let radius = match shape.edge() {
            Edge::Open => {
                let quarter_disc = (8.0 * self.by_corner / room).sqrt().sqrt();
                disc.min(half_disc).min(quarter_disc)
            }
            Edge::Cylinder => {
                let row = nearest_usize_to_f64(shape.width()) * room;
                let at_edge = (2.0 * self.by_edge / row).sqrt();
                let elsewhere = self.grains / row / 2.0;
                disc.min(half_disc).max(at_edge.min(elsewhere))
            }
        };
        (saturating_f64_to_i64(radius).unsigned_abs() as usize).wrapping_add(MARGIN)
    }
}

// A run of places with `more` at both its ends, on a line of `length` places that may go round: its first place, and how many
// there are.
fn widened([first, end]: [usize; 2], more: usize, length: usize, goes_round: bool) -> [usize; 2] {
    let count = end.wrapping_sub(first).wrapping_add(more.wrapping_mul(2));
    if !goes_round {
        let from = first.saturating_sub(more);
        [from, end.wrapping_add(more).min(length).wrapping_sub(from)]
    } else if count < length {
        [
            first.wrapping_add(length).wrapping_sub(more) % length.max(1),
            count,
        ]
    } else {
        [0, length]
    }
}

impl Window {
    /// The part of the grid in which the heaps of a pile are expected to come to rest, or None if that is most of it.
    pub(crate) fn around(pile: &Pile) -> Option<Window> {
        let grid = pile.shape();
        let heaps = Heaps::of(pile)?;
        let others = nearest_usize_to_f64(grid.sites().wrapping_sub(heaps.number));
        let room = USUAL - (nearest_u64_to_f64(pile.grains()) - heaps.grains) / others;
        if room < LEAST_ROOM {
            return None;
        }
        let (reach, goes_round) = (heaps.reach(grid, room), grid.edge() == Edge::Cylinder);
        let [column, width] = widened(heaps.columns, reach, grid.width(), goes_round);
        let [row, height] = widened(heaps.rows, reach, grid.height(), false);
        let edge = if width == grid.width() {
            grid.edge()
        } else {
            Edge::Open
        };
        let shape = Shape::large(width, height, edge).ok()?;
        let is_small = shape.sites().wrapping_mul(4) <= grid.sites().wrapping_mul(3);
        is_small.then_some(Window {
            shape,
            grid,
            column,
            row,
        })
    }

    // A site of the window as a site of the grid.
    fn in_grid(&self, site: usize) -> usize
        requires { site < sites self.now.shape }
    {
        let (x, y) = self.shape.place(site);
        let column = self.column.wrapping_add(x) % self.grid.width();
        self.row
            .wrapping_add(y)
            .wrapping_mul(self.grid.width())
            .wrapping_add(column)
    }

    /// The heights of a pile in the window.
    pub(crate) fn level(&self, alloc: Global, pile: &Pile) -> Result<Level, AllocError> {
        let mut start = vec![in alloc; 0i64; self.shape.sites()]?;
        for site in 0..start.len().min(self.shape.sites()) {
            start[site] = signed(pile.heights().get(self.in_grid(site)).copied().unwrap_or(0));
        }
        Ok(Level {
            shape: self.shape,
            start,
            least: 0,
        })
    }

    /// Whether no site topples that has a neighbour outside the window.
    pub(crate) fn holds(&self, counts: &[u64]) -> bool {
        for site in 0..counts.len().min(self.shape.sites()) {
            if counts[site] > 0 {
                let there = self.in_grid(site);
                if there < self.grid.sites()
                    && self.shape.missing(site) > self.grid.missing(there)
                {
                    return false;
                }
            }
        }
        true
    }

    /// A claim for the whole grid, from one for the window: nothing else topples.
    pub(crate) fn widen(&self, alloc: Global, claim: &Claim) -> Result<Claim, AllocError> {
        let sites = self.grid.sites();
        let mut counts = vec![in alloc; 0u64; sites]?;
        let mut turns = vec![in alloc; 0u32; sites]?;
        for site in 0..claim
            .counts
            .len()
            .min(claim.turns.len())
            .min(self.shape.sites())
        {
            let there = self.in_grid(site);
            if there < counts.len() && there < turns.len() {
                counts[there] = claim.counts[site];
                turns[there] = claim.turns[site];
            }
        }
        Ok(Claim { counts, turns })
    }
}
