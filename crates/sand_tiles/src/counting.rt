//! Counting sets of places.
//!
//! The size of a set is the number of ones in a word, and a sum of small numbers over a set is a sum of three sizes
//! (`sum_over`). How often each of 64 places has toppled is kept in ten bit planes, one for each power of 2 below
//! 1024. To count one toppling at each place of a set, half adders add a one-bit number at each place. After 1023 sets
//! the planes are spilled, before a carry can leave the last one: their counts are added to a list of 64 numbers, and
//! they are cleared. The list is not beside the planes, so that the planes of many tiles stay in the nearest cache.

ghost use Rattle.std.specs.Prelude.{◌≡◌, ℕ, ◌+◌, ◌*◌, ◌^◌, ◌<◌, ◌≤◌, slice_index, false, true};
ghost use Rattle.sand_model.specs.Sand.{sum_below};
ghost use Rattle.sand_tiles.specs.Places.{bit, number};
ghost use Rattle.sand_tiles.specs.Counts.{times, count_of, counted, IsRecent, no_recent};

use crate::tile::Tile;

/// The number of places in a set.
#[inline(always)]
pub fn size(set: u64) -> u64
    ensures value { result ≡ sum_below 64 (bit set) }
    ensures limit { result ≤ 64 }
{
    u64::from(set.count_ones())
}

/// The sum of a tile's numbers over the places of a set. A number is a height, and 4 more if its place is due.
#[inline(always)]
pub fn sum_over(numbers: &Tile, set: u64) -> u64
    ensures value { result ≡ sum_below 64 (λ p. number numbers.now p * bit set p) }
    ensures limit { result ≤ 448 }
{
    size(set & numbers.low) + 2 * size(set & numbers.high) + 4 * size(set & numbers.due)
}

/// A number from 0 to 1023 at each place of a tile: one bit plane for each power of 2.
#[derive(Clone, Copy)]
pub struct Planes {
    pub ones: u64,
    pub twos: u64,
    pub fours: u64,
    pub eights: u64,
    pub sixteens: u64,
    pub thirty_twos: u64,
    pub sixty_fours: u64,
    /// The bits of 128.
    pub next: u64,
    /// The bits of 256.
    pub upper: u64,
    /// The bits of 512.
    pub tops: u64,
}

// The sets that the planes count before they are spilled. Two planes more than the bits of a byte cost less than four
// times as many spills.
const SPILL: u64 = 1023;

const EMPTY: Planes = Planes {
    ones: 0,
    twos: 0,
    fours: 0,
    eights: 0,
    sixteens: 0,
    thirty_twos: 0,
    sixty_fours: 0,
    next: 0,
    upper: 0,
    tops: 0,
};

/// The latest topplings of each place of a tile. All earlier ones are in a list of 64 numbers.
#[derive(Clone, Copy)]
pub struct Recent {
    /// The topplings since the last spill.
    pub planes: Planes,
    /// The number of sets counted in the planes.
    pub sets: u64,
}

/// No topplings since the last spill.
pub const NO_RECENT: Recent = Recent {
    planes: EMPTY,
    sets: 0,
};

#[inline(always)]
fn add_to(planes: &mut Planes, set: u64)
    requires { (p : ℕ) → p < 64 → times planes.old p ≤ 1022 }
    ensures { (p : ℕ) → p < 64 → times planes.new p ≡ times planes.old p + bit set p }
{
    let two = planes.ones & set;
    planes.ones ^= set;
    let four = planes.twos & two;
    planes.twos ^= two;
    let eight = planes.fours & four;
    planes.fours ^= four;
    let sixteen = planes.eights & eight;
    planes.eights ^= eight;
    let thirty_two = planes.sixteens & sixteen;
    planes.sixteens ^= sixteen;
    let sixty_four = planes.thirty_twos & thirty_two;
    planes.thirty_twos ^= thirty_two;
    let next = planes.sixty_fours & sixty_four;
    planes.sixty_fours ^= sixty_four;
    let upper = planes.next & next;
    planes.next ^= next;
    let top = planes.upper & upper;
    planes.upper ^= upper;
    planes.tops ^= top;
}

// Whether no place has toppled 16 times since the last spill. It is the same for all places of a tile, so a loop over
// them asks once.
#[inline(always)]
fn has_none_from_16(planes: &Planes) -> bool
    ensures { result ≡ true → (p : ℕ) → bit planes.now.sixteens p + bit planes.now.thirty_twos p
        + bit planes.now.sixty_fours p + bit planes.now.next p + bit planes.now.upper p + bit planes.now.tops p ≡ 0 }
{
    planes.sixteens
        | planes.thirty_twos
        | planes.sixty_fours
        | planes.next
        | planes.upper
        | planes.tops
        == 0
}

/// How often a place has toppled since the last spill.
#[inline(always)]
pub fn times_at(recent: &Recent, place: usize) -> u64
    requires { place < 64 }
    ensures { result ≡ times recent.now.planes place }
{
    let planes = &recent.planes;
    let below_16 = (planes.ones >> place & 1)
        + 2 * (planes.twos >> place & 1)
        + 4 * (planes.fours >> place & 1)
        + 8 * (planes.eights >> place & 1);
    if has_none_from_16(planes) {
        return below_16;
    }
    below_16
        + 16 * (planes.sixteens >> place & 1)
        + 32 * (planes.thirty_twos >> place & 1)
        + 64 * (planes.sixty_fours >> place & 1)
        + 128 * (planes.next >> place & 1)
        + 256 * (planes.upper >> place & 1)
        + 512 * (planes.tops >> place & 1)
}

/// Moves the counts of the planes to a list. It is not inlined, since it would take registers from the hot path.
#[cold]
#[inline(never)]
pub fn spill(recent: &mut Recent, spilled: &mut [u64; 64])
    requires bound { (p : ℕ) → p < 64 → counted (count_of recent.old spilled.old) p < 2 ^ 63 }
    ensures kept { (p : ℕ) → p < 64 → slice_index spilled.new p ≡ counted (count_of recent.old spilled.old) p }
    ensures empty { recent.new ≡ no_recent }
{
    for place in 0..64usize {
        spilled[place] += times_at(recent, place);
    }
    *recent = NO_RECENT;
}

/// Counts one toppling of each place of a set. Returns whether the planes are full, and must be spilled.
#[inline(always)]
pub fn count_set(recent: &mut Recent, set: u64) -> bool
    requires sound { IsRecent recent.old }
    ensures each { (p : ℕ) → p < 64 → times recent.new.planes p ≡ times recent.old.planes p + bit set p }
    ensures sets { recent.new.sets ≡ recent.old.sets + 1 }
    ensures full { result ≡ true → recent.new.sets ≡ 1023 }
    ensures room { result ≡ false → IsRecent recent.new }
{
    add_to(&mut recent.planes, set);
    recent.sets += 1;
    recent.sets == SPILL
}
