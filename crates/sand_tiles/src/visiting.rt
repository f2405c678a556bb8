//! One visit to a tile, or to two: all that is due topples, then what this brings to 4, until nothing is due.
//!
//! - **Shifts move a front four ways.** The places of a front topple at once. A shift by 8 moves a set one row north or
//!   south, a shift by 1 one column west or east; a mask cuts off what would wrap from one end of a row to the other.
//!   What is shifted out of the word leaves the tile; `sand_fronts` gives it to the tiles around.
//! - **The four shifted sets are added to the planes** `low` and `high` as one-bit numbers, for all 64 places at once,
//!   by half adders. At each place the height plus the neighbours in the front is at most 7. So the sum is the new
//!   height, plus 4 if a carry leaves the plane `high`.
//! - **The carry is the next front**, cut to the free places, which may topple in this wave, and to those that have not
//!   toppled yet.
//! - **A flood saves rounds.** A free place with 3 grains next to the front must topple, so it joins the front before the
//!   grains of the front are added. With them it comes to 4: this carry is its own toppling.
//! - **No place topples twice in a wave.** It had at most 3 grains, gets at most one from each of its four neighbours,
//!   and pays 4. If it has toppled and has 3 more, all its neighbours have toppled, so the flood does not reach it again.
//!   So each front has only new places. The set of all fronts grows, also as a number, and the rounds end
//!   (`proofs/Rounds`).
//! - **It is least.** Whatever stabilises the free places topples each place of a front (`Visits`: `least`). Without
//!   this clause, places could support each other in a ring, and the grains would still balance.
//! - **A round of two tiles costs about as much as a round of one**, since the same words of both fit one vector register.
//!   The rounds of a pair go on until nothing is due in either tile: a round without a front changes nothing. The compiler
//!   vectorizes a pair if the rounds work on copies of the tiles, in a function that does nothing else.

ghost use Rattle.std.specs.Prelude.{◌≡◌, ℕ, ◌+◌, ◌*◌, ◌^◌, ◌<◌, ◌≤◌};
ghost use Rattle.sand_tiles.specs.declared.tile.Tile.{Tile};
ghost use Rattle.sand_tiles.specs.Places.{bit, height, north, south, west, east, around, IsReady, IsVisit, Visits};

use crate::tile::Tile;

// All places except the first column, and all except the last.
const NOT_FIRST: u64 = 0xfefe_fefe_fefe_fefe;

const NOT_LAST: u64 = 0x7f7f_7f7f_7f7f_7f7f;

// A set moved one place to the south, north, east and west. What leaves the tile is cut off.
#[inline(always)]
fn moved(set: u64) -> (u64, u64, u64, u64)
    ensures { (p : ℕ) → p < 64
        → (bit result.0 p ≡ north (bit set) p) × (bit result.1 p ≡ south (bit set) p)
        × (bit result.2 p ≡ west (bit set) p) × (bit result.3 p ≡ east (bit set) p) }
{
    (
        set << 8,
        set >> 8,
        set << 1 & NOT_FIRST,
        set >> 1 & NOT_LAST,
    )
}

// Gives a grain to each neighbour, inside the tile, of each place of the front. Returns the places that lose 4.
#[inline(always)]
fn topple_front(tile: &mut Tile, front: u64) -> u64
    ensures { (p : ℕ) → p < 64
        → height tile.old p + around (bit front) p ≡ height tile.new p + 4 * bit result p }
{
    let (south, north, east, west) = moved(front);
    let (one_down, two_down) = (south ^ north, south & north);
    let (one_across, two_across) = (east ^ west, east & west);
    let sum = one_down ^ tile.low;
    let carry = one_down & tile.low | sum & one_across;
    tile.low = sum ^ one_across;
    let twos = tile.high ^ two_down;
    let all_twos = twos ^ two_across;
    let four = tile.high & two_down | twos & two_across | all_twos & carry;
    tile.high = all_twos ^ carry;
    four
}

// The places next to those of a set, inside the tile.
#[inline(always)]
fn next_to(set: u64) -> u64
    ensures { (p : ℕ) → p < 64 → (bit result p ≤ around (bit set) p) × (around (bit set) p ≤ 4 * bit result p) }
{
    let (south, north, east, west) = moved(set);
    south | north | east | west
}

// The tile as a visit begins: what topples first is due.
#[inline(always)]
fn begin(tile: &Tile, free: u64, start: u64) -> Tile
    requires { IsReady tile.now free start }
    ensures { IsVisit tile.now result free start }
{
    let mut first = *tile;
    first.due = tile.due & free | start;
    first
}

// One round of a visit: all that is due topples, and the flood with it.
#[inline(always)]
fn topple_due(tile: &mut Tile, free: u64)
    ensures { (t : Tile) → (start : ℕ) → IsReady t free start → IsVisit t tile.old free start
        → IsVisit t tile.new free start
        × (tile.old.wave + tile.old.due ≤ tile.new.wave) × (tile.new.wave < 2 ^ 64) }
{
    let flood = tile.low & tile.high & free & next_to(tile.due);
    let front = tile.due | flood;
    let wave = tile.wave | front;
    let four = topple_front(tile, front);
    tile.due = four & free & !wave;
    tile.wave = wave;
}

// The tile as a visit ends. Returns the places that have toppled.
#[inline(always)]
fn end(tile: &mut Tile, last: Tile) -> u64
    requires { last.due ≡ 0 }
    ensures { (free : ℕ) → (start : ℕ) → IsVisit tile.old last free start → Visits tile.old tile.new free start result }
{
    let new = last.wave ^ tile.wave;
    *tile = last;
    tile.due = 0;
    new
}

/// Topples the places of `start`, the free places that are due, and those that this brings to 4, until there are none.
/// Returns the places that have toppled.
#[inline(always)]
pub fn visit(tile: &mut Tile, free: u64, start: u64) -> u64
    requires { IsReady tile.old free start }
    ensures { Visits tile.old tile.new free start result }
{
    let mut now = begin(tile, free, start);
    'rounds: while now.due != 0 {
        topple_due(&mut now, free);
    }
    end(tile, now)
}

/// Visits two tiles side by side, as `visit` does without `start`. Returns the places of each that have toppled.
#[inline(always)]
pub fn visit_pair(one: &mut Tile, two: &mut Tile, free_one: u64, free_two: u64) -> (u64, u64)
    requires one { IsReady one.old free_one 0 }
    requires two { IsReady two.old free_two 0 }
    ensures one { Visits one.old one.new free_one 0 result.0 }
    ensures two { Visits two.old two.new free_two 0 result.1 }
{
    let mut first = begin(one, free_one, 0);
    let mut second = begin(two, free_two, 0);
    'rounds: while first.due | second.due != 0 {
        topple_due(&mut first, free_one);
        topple_due(&mut second, free_two);
    }
    (end(one, first), end(two, second))
}
