//! The numbered streams of drop sites.

ghost use Rattle.std.specs.Prelude.{◌≡◌, ◌≢◌, Err};
ghost use Rattle.sand_c.specs.Arguments.{sides_of, grid_of, IsAnswer};
ghost use Rattle.sand_c.specs.Streams.{IsDrawing};

use crate::arguments::{grid_of, sides_of};
use sand_streams::SiteReader;

/// Writes the sites of a stream of drops on a grid, from its place `from` on. Returns 0, or the first of 1 (Side) and
/// 24 (Narrow).
#[unsafe(no_mangle)]
pub extern "C" fn sandpile_sites(
    width: usize,
    height: usize,
    cylinder: bool,
    seed: u64,
    stream: u64,
    from: u64,
    sites: &mut [usize],
) -> u32
    ensures drawn { result ≡ 0 → IsDrawing (grid_of (sides_of width height cylinder)) seed stream from sites.new }
    ensures answer { IsAnswer result (λ e. grid_of (sides_of width height cylinder) ≡ Err e) }
    ensures sites { result ≢ 0 → sites.new ≡ sites.old }
{
    let shape = match grid_of(sides_of(width, height, cylinder)) {
        Ok(shape) => shape,
        Err(fault) => return fault.number(),
    };
    let mut reader = SiteReader::new(shape, seed, stream);
    reader.go_to(from);
    for site in sites.iter_mut() {
        *site = reader.next_site();
    }
    0
}
