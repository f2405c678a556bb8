//! A coarser grid, for solves on large grids: on the grid itself they take the cube of a side.
//!
//! Its points divide each side evenly, so that both grids end at the same places. Cubic B-splines turn numbers by site
//! into numbers by point, and back. A solve and a second one of what it leaves come near for all long waves. The short
//! ones topple off soon.

ghost use Rattle.std.specs.Prelude.{◌≤◌, ◌<◌};

use crate::product::turned;
use crate::rows::{run, run_mut};
use sand_model::{Edge, Shape};
use std::alloc::{AllocError, Global};
use std::num::nearest_usize_to_f64;

// The sites for each point along a side.
const SITES: usize = 4;

// Grids with a shorter side than this are solved as they are.
const LEAST_SIDE: usize = 640;

/// A side of a grid, and the number of points along it.
#[derive(Clone, Copy)]
struct Side {
    length: usize,
    points: usize,
    is_round: bool,
    ghost long: { 0 < length },
    ghost some: { 0 < points },
}

/// The coarser grid of a grid, and its shape. If it is not used, that is the shape of the grid itself.
#[derive(Clone, Copy)]
pub(crate) struct Coarse {
    pub(crate) is_used: bool,
    pub(crate) shape: Shape,
    across: Side,
    down: Side,
}

// Adds a multiple of a row to another.
fn add_times(sums: &mut [f64], row: &[f64], factor: f64) {
    for x in 0..sums.len().min(row.len()) {
        sums[x] += factor * row[x];
    }
}

impl Side {
    // The index of a point, and its weight. At open ends points are counted from the edge, where all is 0, and one beyond
    // it is the mirror image of the first or the last, with the sign changed.
    fn point(&self, number: usize, weight: f64) -> (usize, f64) {
        let last = self.points - 1;
        if self.is_round {
            (number.wrapping_add(self.points) % self.points, weight)
        } else if number == usize::MAX {
            (0, -weight)
        } else if number == last.wrapping_add(3) {
            (last, -weight)
        } else {
            (number.wrapping_sub(1), weight)
        }
    }

    // The four points around a site, with their weights.
    fn points_around(&self, site: usize) -> [(usize, f64); 4] {
        let more = usize::from(!self.is_round);
        let steps = self.length.saturating_add(more);
        let place = site
            .wrapping_add(more)
            .wrapping_mul(self.points.wrapping_add(more));
        let number = place / steps;
        let t = nearest_usize_to_f64(place % steps) / nearest_usize_to_f64(steps);
        let s = 1.0 - t;
        [
            self.point(number.wrapping_sub(1), s * s * s / 6.0),
            self.point(number, (4.0 - 3.0 * t * t * (1.0 + s)) / 6.0),
            self.point(
                number.wrapping_add(1),
                (4.0 - 3.0 * s * s * (1.0 + t)) / 6.0,
            ),
            self.point(number.wrapping_add(2), t * t * t / 6.0),
        ]
    }

    // Turns a row for each site into one for each point, or back.
    fn change(
        &self,
        alloc: Global,
        rows: &[f64],
        width: usize,
        is_back: bool,
    ) -> Result<Vec<f64>, AllocError> {
        let number = if is_back { self.length } else { self.points };
        let mut sums = vec![in alloc; 0.0; number.wrapping_mul(width)]?;
        for site in 0..self.length {
            for (point, weight) in self.points_around(site) {
                let (from, to) = if is_back {
                    (point, site)
                } else {
                    (site, point)
                };
                let row = run(rows, from.wrapping_mul(width), width);
                add_times(
                    run_mut(&mut sums, to.wrapping_mul(width), width),
                    row,
                    weight,
                );
            }
        }
        Ok(sums)
    }
}

impl Coarse {
    /// The coarser grid of a grid, used if it may be and the grid is large.
    pub(crate) fn of(shape: Shape, may_be_used: bool) -> Coarse {
        let is_round = shape.edge() == Edge::Cylinder;
        let across = Side {
            length: shape.width(),
            points: shape.width() / SITES + 1,
            is_round,
        };
        let down = Side {
            length: shape.height(),
            points: shape.height() / SITES + 1,
            is_round: false,
        };
        let is_large = shape.width().min(shape.height()) >= LEAST_SIDE;
        match Shape::large(across.points, down.points, shape.edge()) {
            Ok(points) if is_large && may_be_used => Coarse {
                is_used: true,
                shape: points,
                across,
                down,
            },
            _ => Coarse {
                is_used: false,
                shape,
                across,
                down,
            },
        }
    }

    /// Numbers by point, from those by site.
    pub(crate) fn narrowed(&self, alloc: Global, list: &[f64]) -> Result<Vec<f64>, AllocError> {
        let rows = self.down.change(alloc, list, self.across.length, false)?;
        let columns = turned(alloc, &rows, self.across.length)?;
        let columns = self
            .across
            .change(alloc, &columns, self.down.points, false)?;
        turned(alloc, &columns, self.down.points)
    }

    /// Numbers by site, from those by point.
    pub(crate) fn widened(&self, alloc: Global, list: &[f64]) -> Result<Vec<f64>, AllocError> {
        let columns = turned(alloc, list, self.across.points)?;
        let columns = self.across.change(alloc, &columns, self.down.points, true)?;
        let rows = turned(alloc, &columns, self.down.points)?;
        self.down.change(alloc, &rows, self.across.length, true)
    }
}
