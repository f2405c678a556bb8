//! A grid that finds neighbours without a division.
//!
//! A `Shape` divides to find the neighbours of a site, and needs no memory. A table of two bytes per site saves the
//! division at every toppling.

ghost use Rattle.std.specs.Prelude.{◌≡◌, ◌<◌, Some, IfOk, IsTrue, map};
ghost use Rattle.sand_model.specs.Grid.{IsGrid, sites, places, is_inner, missing, distance};
ghost use Rattle.sand_model.specs.Columns.{AreSiteColumns};

use crate::shape::{Edge, Shape, outside};
use std::alloc::{AllocError, Global};
use std::marker::Model;

/// A grid with a table of the column of each site.
#[derive(Debug, Drop)]
pub struct Lattice {
    // Copies of the width and the number of sites, so that `is_inner` needs no multiplication.
    width: usize,
    end: usize,
    shape: Shape,
    columns: Vec<u16>,
}

impl Model for Lattice {
    ghost use Rattle.std.specs.Prelude.{◌≡◌};
    ghost use Rattle.sand_model.specs.Grid.{Grid, IsGrid, sites};
    ghost use Rattle.sand_model.specs.Columns.{AreSiteColumns};

    ghost Value = { Grid };

    ghost view = { λ l. l.shape };

    ghost invariant = { λ l. IsGrid l.shape × (l.width ≡ l.shape.width) × (l.end ≡ sites l.shape)
        × AreSiteColumns l.shape l.columns.items };
}

fn columns_of(alloc: Global, shape: Shape) -> Result<Vec<u16>, AllocError>
    ensures { IfOk result (λ columns. AreSiteColumns shape columns.items) }
{
    let width = shape.width();
    let mut columns = Vec::with_capacity(alloc, shape.sites())?;
    let mut column = 0usize;
    for _ in 0..shape.sites() {
        columns.push_reserved(column as u16);
        column += 1;
        if column == width {
            column = 0;
        }
    }
    Ok(columns)
}

impl Lattice {
    /// The lattice of a shape. Fails only if an allocation fails.
    pub fn new(alloc: Global, shape: Shape) -> Result<Lattice, AllocError>
        ensures { IfOk result (λ l. l ≡ shape) }
    {
        let columns = columns_of(alloc, shape)?;
        Ok(Lattice {
            width: shape.width(),
            end: shape.sites(),
            shape,
            columns,
        })
    }

    pub fn shape(&self) -> Shape
        ensures value { result ≡ self.now }
        ensures sides { IsGrid self.now }
    {
        self.shape
    }

    /// The sites north, west, east and south of a site, in that order, with None for one outside the grid.
    #[inline(always)]
    pub fn neighbours(&self, site: usize) -> [Option<usize>; 4]
        requires { site < sites self.now }
        ensures places { result ≡ places self.now site }
        ensures sides { IsGrid self.now }
    {
        self.shape.places(site, usize::from(self.columns[site]))
    }

    /// Whether a site is in neither the first nor the last row or column, on a cylinder too. `inner_neighbours` finds
    /// the neighbours of such a site without a test.
    #[inline(always)]
    pub fn is_inner(&self, site: usize) -> bool
        requires { site < sites self.now }
        ensures { result ≡ is_inner self.now site }
    {
        let width = self.width;
        let column = usize::from(self.columns[site]);
        (site >= width) & (site + width < self.end) & (column > 0) & (column + 1 < width)
    }

    /// The sites north, west, east and south of an inner site, in that order.
    #[inline(always)]
    #[tactic(auto, unfolding(crate::specs::Grid::north, crate::specs::Grid::west, crate::specs::Grid::east, crate::specs::Grid::south))]
    pub fn inner_neighbours(&self, site: usize) -> [usize; 4]
        requires site { site < sites self.now }
        requires inner { IsTrue (is_inner self.now site) }
        ensures { map Some result ≡ places self.now site }
    {
        let width = self.width;
        [site - width, site - 1, site + 1, site + width]
    }

    /// How many of a site's four places are outside the grid: the grains lost when it topples once.
    #[inline(always)]
    pub fn missing(&self, site: usize) -> u64
        requires { site < sites self.now }
        ensures { result ≡ missing self.now site }
    {
        u64::from(outside(&self.neighbours(site)))
    }

    /// The distance between two sites in columns and rows, |dx| + |dy|; on a cylinder, the shorter way around.
    #[tactic(auto, unfolding(crate::specs::Grid::distance))]
    pub fn distance(&self, from: usize, to: usize) -> u32
        requires from { from < sites self.now }
        requires to { to < sites self.now }
        ensures { result ≡ distance self.now from to }
    {
        let ((x, y), (to_x, to_y)) = (self.shape.place(from), self.shape.place(to));
        let (across, down) = (x.abs_diff(to_x), y.abs_diff(to_y));
        match self.shape.edge() {
            Edge::Open => (across + down) as u32,
            Edge::Cylinder => (across.min(self.shape.width() - across) + down) as u32,
        }
    }
}
