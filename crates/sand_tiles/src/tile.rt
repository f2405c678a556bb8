//! One tile, and the grains that it gets.
//!
//! `low` and `high` hold each height modulo 4. A free place that reaches 4 grains is 0 in them, and its bit in `due`
//! says that it has 4 more and must topple. A place that has toppled in this wave is in `wave`. So since the wave began,
//! a free place has had `low + 2 high + 4 (due + wave)` grains.

ghost use Rattle.std.specs.Prelude.{◌≡◌, ℕ, ◌<◌};
ghost use Rattle.sand_model.specs.Sand.{one_at};
ghost use Rattle.sand_tiles.specs.Places.{bit, height, Receives};

/// The heights of 8 by 8 places modulo 4, the places that are due to topple, and those that have toppled.
#[derive(Clone, Copy)]
pub struct Tile {
    /// The low bit of each height.
    pub low: u64,
    /// The high bit of each height.
    pub high: u64,
    /// The places that have reached 4 grains and have not toppled since.
    pub due: u64,
    /// The places that have toppled in this wave.
    pub wave: u64,
}

/// Adds a grain at each place of a set. The free places that reach 4 become due.
#[inline(always)]
pub fn receive(tile: &mut Tile, gain: u64, free: u64)
    ensures { Receives tile.old tile.new gain free }
{
    let carry = tile.low & gain;
    tile.due |= tile.high & carry & free;
    tile.low ^= gain;
    tile.high ^= carry;
}

/// An empty tile.
pub const BARE: Tile = Tile {
    low: 0,
    high: 0,
    due: 0,
    wave: 0,
};

/// The set of one place.
#[inline(always)]
pub fn set_of(place: usize) -> u64
    requires { place < 64 }
    ensures { (p : ℕ) → p < 64 → bit result p ≡ one_at place p }
{
    1 << place
}

/// The height of a place modulo 4.
#[inline(always)]
pub fn height_at(tile: &Tile, place: usize) -> u64
    requires { place < 64 }
    ensures { result ≡ height tile.now place }
{
    (tile.low >> place & 1) + 2 * (tile.high >> place & 1)
}
