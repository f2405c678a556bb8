//! Numbers on the tiles, added to a list by site.
//!
//! A row of the grid crosses a row of tiles, so eight of its sites at a time are in one row of a tile, and are read
//! together (`sand_tiles`). The tile is found once for the eight, and nothing is divided.

ghost use Rattle.std.specs.Prelude.{◌≡◌, ℕ, ◌+◌, ◌-◌, ◌*◌, ◌%◌, ◌^◌, ◌<◌, ◌≤◌, length, min, slice_index};
ghost use Rattle.sand_model.specs.Grid.{sites};
ghost use Rattle.sand_fronts.specs.Reading.{IsFirstOfEight, TellsEights, AddsBetween};
ghost use Rattle.sand_fronts.specs.TiledPiles.{by_site};

use crate::reach::Spot;
use crate::tiling::SIDE;
use sand_model::Shape;

/// Adds numbers to the entries of a list from `first` up to `end`. They are in another list, from `from` on.
#[inline(always)]
pub(crate) fn add_between(list: &mut [u64], first: usize, end: usize, numbers: &[u64], from: usize)
    requires order { first ≤ end }
    requires inside { end ≤ length list.old }
    requires enough { from + (end - first) ≤ length numbers.now }
    requires fits { (j : ℕ) → first ≤ j → j < end
        → slice_index list.old j + slice_index numbers.now (from + (j - first)) < 2 ^ 64 }
    ensures { AddsBetween first end (λ j. slice_index numbers.now (from + (j - first))) list.old list.new }
{
    for entry in first..end {
        list[entry] += numbers[from + (entry - first)];
    }
}

// The first of the next eight sites of a row, or of the next row.
#[inline(always)]
fn next_eight(shape: Shape, spot: Spot) -> Spot
    requires { IsFirstOfEight shape spot }
    ensures column { (result.column < shape.width) × (result.column % 8 ≡ 0) }
    ensures next { result.row * shape.width + result.column
        ≡ spot.row * shape.width + spot.column + min 8 (shape.width - spot.column) }
{
    if spot.column + SIDE < shape.width() {
        Spot {
            column: spot.column + SIDE,
            row: spot.row,
        }
    } else {
        Spot {
            column: 0,
            row: spot.row + 1,
        }
    }
}

/// Adds a number to each entry of a list by site. A function returns those of eight sites in a row of a tile, by the
/// first of them; what it returns past the end of the grid's row is not read.
#[inline(always)]
pub(crate) fn add_eights<F: Fn(Spot) -> [u64; 8]>(shape: Shape, list: &mut [u64], numbers: &F)
    requires len { length list.old ≡ sites shape }
    requires may { (spot : Spot) → IsFirstOfEight shape spot → F.pre numbers.now spot }
    requires fits { (v : ℕ → ℕ) × TellsEights shape (F.post numbers.now) v
        × ((j : ℕ) → j < sites shape → slice_index list.old j + v j < 2 ^ 64) }
    ensures { (v : ℕ → ℕ) → TellsEights shape (F.post numbers.now) v
        → list.new ≡ by_site shape (λ j. slice_index list.old j + v j) }
{
    let width = shape.width();
    let mut spot = Spot { column: 0, row: 0 };
    'eights: while spot.row < shape.height() {
        let first = spot.row * width + spot.column;
        let end = first + SIDE.min(width - spot.column);
        add_between(list, first, end, &numbers(spot), 0);
        spot = next_eight(shape, spot);
    }
}
