//! Avalanches by fronts: on tiles of 8 by 8 sites, all sites of a tile that may topple do so at once.
//!
//! Where each step and type is:
//!
//! - `TiledPile`, a stable pile on tiles, in `tiled_pile`, and the `Avalanche` of a drop in `avalanche`.
//! - A drop: `dropping` topples wave after wave, `sand` (`Sand`) has one wave over the tiles, and `sand_tiles` one tile.
//! - What a drop has toppled: `counts` (`Counts`, how often each place), `marks` (`Marks`, which places), `extent` (`Extent`, area
//!   and reach of all tiles) and `reach` (of one tile).
//! - The grid in tiles: `tiling` has the place of each site, `board` (`Board`) the free places and the neighbours of all tiles,
//!   `sides` (`Beside`) the neighbours of one.
//! - Numbers of sites: `filling` writes them into tiles, `reading` adds them to lists.
#![tactic(auto)]

mod avalanche;
mod board;
mod counts;
mod dropping;
mod extent;
mod filling;
mod marks;
mod reach;
mod reading;
mod sand;
mod sides;
mod tiled_pile;
mod tiling;

pub use avalanche::Avalanche;
pub use tiled_pile::TiledPile;
