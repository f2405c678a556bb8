//! The grain limit of a grid.

ghost use Rattle.std.specs.Prelude.{◌≡◌, ◌≢◌, Ok};
ghost use Rattle.sand_c.specs.Arguments.{sides_of, limit_of, Returns};

use crate::arguments::{grid_of, sides_of};

/// Writes the most grains of a pile on a grid. Returns 0, or the first of 1 (Side) and 24 (Narrow).
#[unsafe(no_mangle)]
pub extern "C" fn sandpile_grain_limit(
    width: usize,
    height: usize,
    cylinder: bool,
    limit: &mut u64,
) -> u32
    ensures limit { result ≡ 0 → limit_of (sides_of width height cylinder) ≡ Ok limit.new }
    ensures answer { Returns result (limit_of (sides_of width height cylinder)) }
    ensures unchanged { result ≢ 0 → limit.new ≡ limit.old }
{
    match grid_of(sides_of(width, height, cylinder)) {
        Ok(shape) => {
            *limit = shape.grain_limit();
            0
        }
        Err(fault) => fault.number(),
    }
}
