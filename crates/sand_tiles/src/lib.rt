//! Tiles of a sandpile: 8 by 8 sites, one bit of a word for each.
//!
//! On a stable pile heights are from 0 to 3, so two words hold the heights of 64 sites (`tile`). All sites of a tile
//! that may topple do so at once, by a few word operations (`visiting`). Words also count how often each has toppled
//! (`counting`). Eight places in a row are read at once (`reading`). A tile knows nothing of its grid: `sand_fronts`
//! joins tiles.
#![tactic(auto)]

mod counting;
mod reading;
mod tile;
mod visiting;

pub use counting::{NO_RECENT, Planes, Recent, count_set, size, spill, sum_over, times_at};
pub use reading::{eight_heights, eight_times};
pub use tile::{BARE, Tile, height_at, receive, set_of};
pub use visiting::{visit, visit_pair};
