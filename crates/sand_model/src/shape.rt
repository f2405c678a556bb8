//! The shape of a grid: its sides, its edge, its sites and their neighbours.
//!
//! Sites are numbered row by row from the north-west corner: the site in column `x` and row `y` is `y * width + x`.

ghost use Rattle.std.specs.Prelude.{◌≡◌, ◌<◌, ◌≤◌, count_by, is_none};
ghost use Rattle.sand_model.specs.Grid.{IsGrid, grid_with_edge, large_grid, grid_up_to, sites, column, row, north, west, east, south, places, missing, site_at, middle};
ghost use Rattle.sand_model.specs.Edges.{most_to_edge};
ghost use Rattle.sand_model.specs.Piles.{most_grains, most_grains_on};
ghost use Rattle.sand_model.specs.declared.shape.Edge.TheVariants.{Open};

use crate::faults::ShapeFault;
use std::marker::Model;

/// The most grains that any pile holds, 2^40 - 1. On a large grid it may be fewer (`Shape::grain_limit`).
pub const GRAIN_LIMIT: u64 = 1_099_511_627_775;

// On up to this many rows `GRAIN_LIMIT` grains are light enough, so no limit is calculated at a drop.
const FULL_ROWS: usize = 256;

// The most that four times the weight of a pile may be, 2^57 - 1.
const WEIGHT_LIMIT: u64 = 144_115_188_075_855_871;

/// The greatest width and height.
pub const SIDE_LIMIT: usize = 256;

/// The greatest width and height of a large grid.
pub const LARGE_SIDE_LIMIT: usize = 8192;

/// The least width of a cylinder.
pub const CYLINDER_WIDTH: usize = 3;

/// What is west of a row's first site and east of its last.
#[derive(Clone, Copy, Debug, PartialEq, Eq)]
pub enum Edge {
    /// The sink.
    Open,
    /// The other end of the row: only the north and the south of the grid are open.
    Cylinder,
}

/// A rectangular grid of sites.
#[derive(Clone, Copy, Debug, PartialEq, Eq)]
pub struct Shape {
    width: usize,
    height: usize,
    edge: Edge,
}

impl Model for Shape {
    ghost use Rattle.sand_model.specs.Grid.{Grid, IsGrid};

    ghost Value = { Grid };

    ghost view = { λ s. record { width = s.width; height = s.height; edge = s.edge } };

    ghost invariant = { λ s. IsGrid (record { width = s.width; height = s.height; edge = s.edge }) };

    ghost inverse = { λ g. record { width = g.width; height = g.height; edge = g.edge } };
}

#[inline(always)]
pub(crate) fn outside(places: &[Option<usize>; 4]) -> u8
    ensures { result ≡ count_by is_none places.now }
{
    let [north, west, east, south] = *places;
    u8::from(north.is_none())
        + u8::from(west.is_none())
        + u8::from(east.is_none())
        + u8::from(south.is_none())
}

impl Shape {
    /// A grid with open edges. Returns Side if a side is outside 1 to 256.
    pub fn new(w: usize, h: usize) -> Result<Shape, ShapeFault>
        ensures { result ≡ grid_with_edge w h Open }
    {
        Shape::with_edge(w, h, Edge::Open)
    }

    /// A grid with this edge. Returns Side if a side is outside 1 to 256, and otherwise Narrow for a cylinder less than
    /// 3 wide.
    pub fn with_edge(w: usize, h: usize, edge: Edge) -> Result<Shape, ShapeFault>
        ensures { result ≡ grid_with_edge w h edge }
    {
        Shape::up_to(SIDE_LIMIT, w, h, edge)
    }

    /// A grid with this edge and sides up to 8192, which no text has. Returns Side if a side is outside 1 to 8192, and otherwise
    /// Narrow as `with_edge` does.
    pub fn large(w: usize, h: usize, edge: Edge) -> Result<Shape, ShapeFault>
        ensures { result ≡ large_grid w h edge }
    {
        Shape::up_to(LARGE_SIDE_LIMIT, w, h, edge)
    }

    // The same for any limit.
    fn up_to(limit: usize, w: usize, h: usize, edge: Edge) -> Result<Shape, ShapeFault>
        requires { limit ≤ 8192 }
        ensures { result ≡ grid_up_to limit w h edge }
    {
        if w < 1 || w > limit || h < 1 || h > limit {
            return Err(ShapeFault::Side);
        }
        if edge == Edge::Cylinder && w < CYLINDER_WIDTH {
            return Err(ShapeFault::Narrow);
        }
        Ok(Shape {
            width: w,
            height: h,
            edge,
        })
    }

    /// The most grains of a pile on this grid: 2^40 - 1, and on more than 361 rows fewer, so that they cannot topple 2^54
    /// times.
    pub fn grain_limit(self) -> u64
        ensures value { result ≡ most_grains_on self }
        ensures small { result ≤ most_grains }
    {
        if self.height <= FULL_ROWS {
            return GRAIN_LIMIT;
        }
        let rows = self.height as u64 + 1;
        GRAIN_LIMIT.min(WEIGHT_LIMIT / (rows * rows))
    }

    #[inline(always)]
    pub fn width(self) -> usize
        ensures value { result ≡ self.width }
        ensures sides { IsGrid self }
    {
        self.width
    }

    #[inline(always)]
    pub fn height(self) -> usize
        ensures value { result ≡ self.height }
        ensures sides { IsGrid self }
    {
        self.height
    }

    #[inline(always)]
    pub fn edge(self) -> Edge
        ensures value { result ≡ self.edge }
        ensures sides { IsGrid self }
    {
        self.edge
    }

    /// The number of sites.
    #[inline(always)]
    pub fn sites(self) -> usize
        ensures value { result ≡ sites self }
        ensures sides { IsGrid self }
    {
        self.width * self.height
    }

    /// The site in column `x` and row `y`, if it is in the grid.
    pub fn site(self, x: usize, y: usize) -> Option<usize>
        ensures { result ≡ site_at self x y }
    {
        if x < self.width && y < self.height {
            Some(y * self.width + x)
        } else {
            None
        }
    }

    /// The greatest distance of a site to the nearest open edge, counted from 1. So no drop on a stable pile topples a site
    /// more often.
    pub fn most_to_edge(self) -> usize
        ensures { result ≡ most_to_edge self }
    {
        let least = match self.edge {
            Edge::Open => self.width.min(self.height),
            Edge::Cylinder => self.height,
        };
        (least + 1) / 2
    }

    /// The site in the middle: in column `width / 2` and row `height / 2`.
    pub fn middle(self) -> usize
        ensures value { result ≡ middle self }
        ensures inside { result < sites self }
    {
        self.height / 2 * self.width + self.width / 2
    }

    /// The column and the row of a site.
    pub fn place(self, site: usize) -> (usize, usize)
        requires { site < sites self }
        ensures { result ≡ (column self site, row self site) }
    {
        (site % self.width, site / self.width)
    }

    #[inline(always)]
    #[tactic(auto, unfolding(crate::specs::Grid::north))]
    fn north(self, site: usize) -> Option<usize>
        requires { site < sites self }
        ensures { result ≡ north self site }
    {
        if site >= self.width {
            Some(site - self.width)
        } else {
            None
        }
    }

    #[inline(always)]
    #[tactic(auto, unfolding(crate::specs::Grid::west))]
    fn west(self, site: usize, x: usize) -> Option<usize>
        requires site { site < sites self }
        requires column { x ≡ column self site }
        ensures { result ≡ west self site }
    {
        if x > 0 {
            return Some(site - 1);
        }
        match self.edge {
            Edge::Open => None,
            Edge::Cylinder => Some(site + (self.width - 1)),
        }
    }

    #[inline(always)]
    #[tactic(auto, unfolding(crate::specs::Grid::east))]
    fn east(self, site: usize, x: usize) -> Option<usize>
        requires site { site < sites self }
        requires column { x ≡ column self site }
        ensures { result ≡ east self site }
    {
        if x + 1 < self.width {
            return Some(site + 1);
        }
        match self.edge {
            Edge::Open => None,
            Edge::Cylinder => Some(site - (self.width - 1)),
        }
    }

    #[inline(always)]
    #[tactic(auto, unfolding(crate::specs::Grid::south))]
    fn south(self, site: usize) -> Option<usize>
        requires { site < sites self }
        ensures { result ≡ south self site }
    {
        if site + self.width < self.sites() {
            Some(site + self.width)
        } else {
            None
        }
    }

    // The places around a site in column `x`. Neighbours are derived only here: `neighbours` divides to find the
    // column, and a `Lattice` looks it up.
    #[inline(always)]
    pub(crate) fn places(self, site: usize, x: usize) -> [Option<usize>; 4]
        requires site { site < sites self }
        requires column { x ≡ column self site }
        ensures { result ≡ places self site }
    {
        [
            self.north(site),
            self.west(site, x),
            self.east(site, x),
            self.south(site),
        ]
    }

    /// The sites north, west, east and south of a site, in that order, with None for one outside the grid.
    pub fn neighbours(self, site: usize) -> [Option<usize>; 4]
        requires { site < sites self }
        ensures { result ≡ places self site }
    {
        self.places(site, site % self.width)
    }

    /// How many of a site's four places are outside the grid: the grains lost when it topples once.
    pub fn missing(self, site: usize) -> u8
        requires { site < sites self }
        ensures { result ≡ missing self site }
    {
        outside(&self.neighbours(site))
    }
}
