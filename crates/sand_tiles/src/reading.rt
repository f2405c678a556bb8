//! The numbers of eight places at once.
//!
//! Four bits of a plane are spread over a word, 16 bits apart. So the planes of four places are added in one word, each
//! times its power of 2. No number reaches 2^16, so none reaches into the next.

ghost use Rattle.std.specs.Prelude.{◌≡◌, ℕ, ◌+◌, ◌<◌, ◌≤◌, slice_index};
ghost use Rattle.sand_tiles.specs.Places.{bit, height};
ghost use Rattle.sand_tiles.specs.Counts.{times};
ghost use Rattle.sand_tiles.specs.Rows.{four};

use crate::counting::{Planes, Recent};
use crate::tile::Tile;

// The bits of the four places from one on, 16 bits apart. The factor puts copies of the four 15 bits apart, so that of
// each copy another bit is where it belongs.
#[inline(always)]
fn spread(set: u64, place: usize) -> u64
    requires { place < 64 }
    ensures value { result ≡ four (bit set) place }
    ensures bound { result ≤ 281479271743489 }
{
    (set >> place & 15) * 0x2000_4000_8001 & 0x0001_0001_0001_0001
}

// The heights modulo 4 of the four places from one on.
#[inline(always)]
fn four_heights(tile: &Tile, place: usize) -> u64
    requires { place < 64 }
    ensures { result ≡ four (height tile.now) place }
{
    spread(tile.low, place) + 2 * spread(tile.high, place)
}

// How often each of the four places from one on has toppled since the last spill.
#[inline(always)]
fn four_times(planes: &Planes, place: usize) -> u64
    requires { place < 64 }
    ensures { result ≡ four (times planes.now) place }
{
    spread(planes.ones, place)
        + 2 * spread(planes.twos, place)
        + 4 * spread(planes.fours, place)
        + 8 * spread(planes.eights, place)
        + 16 * spread(planes.sixteens, place)
        + 32 * spread(planes.thirty_twos, place)
        + 64 * spread(planes.sixty_fours, place)
        + 128 * spread(planes.next, place)
        + 256 * spread(planes.upper, place)
        + 512 * spread(planes.tops, place)
}

// The numbers of two words.
#[inline(always)]
fn numbers_of(first: u64, second: u64) -> [u64; 8]
    ensures { (f : ℕ → ℕ) → (p : ℕ) → ((q : ℕ) → f q < 65536) → first ≡ four f p → second ≡ four f (p + 4)
        → (c : ℕ) → c < 8 → slice_index result c ≡ f (p + c) }
{
    [
        first % 65536,
        (first >> 16) % 65536,
        (first >> 32) % 65536,
        first >> 48,
        second % 65536,
        (second >> 16) % 65536,
        (second >> 32) % 65536,
        second >> 48,
    ]
}

/// The heights modulo 4 of the eight places from one on.
#[inline(always)]
pub fn eight_heights(tile: &Tile, place: usize) -> [u64; 8]
    requires { place < 60 }
    ensures { (c : ℕ) → c < 8 → slice_index result c ≡ height tile.now (place + c) }
{
    numbers_of(four_heights(tile, place), four_heights(tile, place + 4))
}

/// How often each of the eight places from one on has toppled since the last spill.
#[inline(always)]
pub fn eight_times(recent: &Recent, place: usize) -> [u64; 8]
    requires { place < 60 }
    ensures { (c : ℕ) → c < 8 → slice_index result c ≡ times recent.now.planes (place + c) }
{
    let planes = &recent.planes;
    numbers_of(four_times(planes, place), four_times(planes, place + 4))
}
