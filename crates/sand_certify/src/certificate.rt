//! The certifier: whether claimed counts and turns show how often each site of a pile topples.
//!
//! For each site it computes the height t = s - Lu after the counts u; 64-bit numbers suffice, as each count is below
//! `COUNT_LIMIT`. It checks three things: t is not negative; t is at most 3; and if the site has toppled, t is at least
//! the number of its neighbours whose turn is not earlier. If all sites pass, the counts are the least odometer
//! (`laws`). It takes one pass over the grid.

ghost use Rattle.std.specs.Prelude.{◌≡◌, ℕ, ◌+◌, ◌*◌, ◌^◌, ◌<◌, ◌≤◌, ◌↔◌, length, slice_index, slice_index_or, None, nat_le, if◌then◌else◌, IfOk, IfSome, IsTrue, IsSome, MatchOption, All};
ghost use Rattle.sand_model.specs.Grid.{Grid, sites, places};
ghost use Rattle.sand_model.specs.Sand.{flow, value_at, IsSettled};
ghost use Rattle.sand_model.specs.Piles.{height_of, most_grains};
ghost use Rattle.sand_certify.specs.Certificate.{no_earlier, IsShownAt, IsLeftAt, IsShownEverywhere, IsCertificate};

use sand_model::{Lattice, Pile};
use std::alloc::{AllocError, Global};

/// The bound on each count, 2^54. No site of a pile topples this often, and no sum of counts here overflows.
pub const COUNT_LIMIT: u64 = 18_014_398_509_481_984;

#[inline(always)]
fn value(values: &[u64], neighbour: Option<usize>) -> u64
    requires { IfSome neighbour (λ j. j < length values.now) }
    ensures { result ≡ value_at (slice_index values.now) neighbour }
{
    match neighbour {
        Some(site) => values[site],
        None => 0,
    }
}

// The grains that reach a site from these neighbours.
#[inline(always)]
fn inflow_from(around: [Option<usize>; 4], counts: &[u64]) -> u64
    requires inside { (k : ℕ) → IfSome (slice_index_or around k None) (λ j. j < length counts.now) }
    requires bound { (j : ℕ) → slice_index counts.now j < 2 ^ 54 }
    ensures value { (g : Grid) (site : ℕ) → around ≡ places g site → result ≡ flow g (slice_index counts.now) site }
    ensures below { result < 4 * 2 ^ 54 }
{
    let [north, west, east, south] = around;
    let up = value(counts, north);
    let left = value(counts, west);
    let right = value(counts, east);
    let down = value(counts, south);
    prove!(up < COUNT_LIMIT && left < COUNT_LIMIT && right < COUNT_LIMIT && down < COUNT_LIMIT);
    up + left + right + down
}

// Most sites are inner: one test for this saves a test for each neighbour.
#[inline(always)]
pub(crate) fn inflow(lattice: &Lattice, counts: &[u64], site: usize) -> u64
    requires len { length counts.now ≡ sites lattice.now }
    requires site { site < sites lattice.now }
    requires bound { (j : ℕ) → slice_index counts.now j < 2 ^ 54 }
    ensures value { result ≡ flow lattice.now (slice_index counts.now) site }
    ensures below { result < 4 * 2 ^ 54 }
{
    if lattice.is_inner(site) {
        let [north, west, east, south] = lattice.inner_neighbours(site);
        let around = [Some(north), Some(west), Some(east), Some(south)];
        inflow_from(around, counts)
    } else {
        inflow_from(lattice.neighbours(site), counts)
    }
}

#[inline(always)]
fn is_no_earlier(turns: &[u32], turn: u32, neighbour: Option<usize>) -> u64
    requires { IfSome neighbour (λ j. j < length turns.now) }
    ensures { result ≡ value_at (λ j. if nat_le turn (slice_index turns.now j) then 1 else 0) neighbour }
{
    match neighbour {
        Some(site) => u64::from(turns[site] >= turn),
        None => 0,
    }
}

// How many of these neighbours have this turn or a later one.
#[inline(always)]
fn unburnt_among(around: [Option<usize>; 4], turns: &[u32], turn: u32) -> u64
    requires { (k : ℕ) → IfSome (slice_index_or around k None) (λ j. j < length turns.now) }
    ensures { (g : Grid) (site : ℕ) → around ≡ places g site → slice_index turns.now site ≡ turn
        → result ≡ no_earlier g (slice_index turns.now) site }
{
    let [north, west, east, south] = around;
    let up = is_no_earlier(turns, turn, north);
    let left = is_no_earlier(turns, turn, west);
    let right = is_no_earlier(turns, turn, east);
    let down = is_no_earlier(turns, turn, south);
    up + left + right + down
}

#[inline(always)]
fn unburnt(lattice: &Lattice, turns: &[u32], site: usize) -> u64
    requires len { length turns.now ≡ sites lattice.now }
    requires site { site < sites lattice.now }
    ensures { result ≡ no_earlier lattice.now (slice_index turns.now) site }
{
    let turn = turns[site];
    if lattice.is_inner(site) {
        let [north, west, east, south] = lattice.inner_neighbours(site);
        let around = [Some(north), Some(west), Some(east), Some(south)];
        unburnt_among(around, turns, turn)
    } else {
        unburnt_among(lattice.neighbours(site), turns, turn)
    }
}

// The height that the counts leave at a site, if they pass the three checks there.
#[inline(always)]
fn height_left(
    lattice: &Lattice,
    start: &[u64],
    counts: &[u64],
    turns: &[u32],
    site: usize,
) -> Option<u64>
    requires starts_each { length start.now ≡ sites lattice.now }
    requires counts_each { length counts.now ≡ sites lattice.now }
    requires turns_each { length turns.now ≡ sites lattice.now }
    requires site { site < sites lattice.now }
    requires bound { (j : ℕ) → slice_index counts.now j < 2 ^ 54 }
    requires low { slice_index start.now site ≤ most_grains }
    ensures { MatchOption result
        (¬ IsShownAt lattice.now (slice_index start.now) (slice_index counts.now) (slice_index turns.now) site)
        (λ height.
        IsLeftAt lattice.now (slice_index start.now) (slice_index counts.now) (slice_index turns.now) site height) }
{
    let before = start[site] + inflow(lattice, counts, site);
    let taken = 4 * counts[site];
    if before < taken || before - taken > 3 {
        return None;
    }
    let height = before - taken;
    if counts[site] > 0 && height < unburnt(lattice, turns, site) {
        return None;
    }
    Some(height)
}

pub(crate) fn are_few(counts: &[u64]) -> bool
    ensures { IsTrue result ↔ All (λ n. n < 2 ^ 54) counts.now }
{
    counts.iter().all(|count| *count < COUNT_LIMIT)
}

fn heights_left(
    alloc: Global,
    lattice: &Lattice,
    start: &[u64],
    counts: &[u64],
    turns: &[u32],
) -> Result<Option<Vec<u64>>, AllocError>
    requires starts_each { length start.now ≡ sites lattice.now }
    requires counts_each { length counts.now ≡ sites lattice.now }
    requires turns_each { length turns.now ≡ sites lattice.now }
    requires bound { (j : ℕ) → slice_index counts.now j < 2 ^ 54 }
    requires low { (j : ℕ) → slice_index start.now j ≤ most_grains }
    ensures exactly { IfOk result (λ o. IsSome o
        ↔ IsShownEverywhere lattice.now (slice_index start.now) (slice_index counts.now) (slice_index turns.now)) }
    ensures len { IfOk result (λ o. IfSome o (λ heights. length heights.items ≡ sites lattice.now)) }
    ensures settled { IfOk result (λ o. IfSome o (λ heights.
        IsSettled lattice.now (slice_index start.now) (slice_index counts.now) (slice_index heights.items))) }
{
    let sites = lattice.shape().sites();
    let mut heights = Vec::with_capacity(alloc, sites)?;
    for site in 0..sites {
        let Some(height) = height_left(lattice, start, counts, turns, site) else {
            return Ok(None);
        };
        heights.push_reserved(height);
    }
    Ok(Some(heights))
}

/// The heights after each site of a pile topples as often as `counts` says, if `counts` and `turns`, by site, are a
/// certificate of the pile. Then the counts are its odometer. Returns None if they are not a certificate, and an error
/// if an allocation fails.
pub fn certified(
    alloc: Global,
    pile: &Pile,
    counts: &[u64],
    turns: &[u32],
) -> Result<Option<Vec<u64>>, AllocError>
    ensures exactly { IfOk result
        (λ o. IsSome o ↔ IsCertificate pile.now.grid (height_of pile.now) counts.now turns.now) }
    ensures len { IfOk result (λ o. IfSome o (λ heights. length heights.items ≡ sites pile.now.grid)) }
    ensures settled { IfOk result (λ o. IfSome o (λ heights.
        IsSettled pile.now.grid (height_of pile.now) (slice_index counts.now) (slice_index heights.items))) }
{
    let shape = pile.shape();
    if counts.len() != shape.sites() || turns.len() != shape.sites() || !are_few(counts) {
        return Ok(None);
    }
    let lattice = Lattice::new(alloc, shape)?;
    heights_left(alloc, &lattice, pile.heights(), counts, turns)
}
