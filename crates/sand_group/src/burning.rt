//! The burning test (Dhar 1990): whether a stable pile is recurrent.
//!
//! A site burns when its height is at least the number of its unburnt neighbours. No site of a forbidden set ever
//! burns: when the first of them burnt, all of its neighbours in the set would still be unburnt, and its height is
//! below their number. The sites that stay unburnt are themselves a forbidden set, or there are none. So they are the
//! greatest forbidden set, and a pile is recurrent if and only if all sites burn.
//!
//! The list of burnt sites is also the queue. A site is appended when the number of its unburnt neighbours falls to its
//! height, which happens once. A head moves along the list and subtracts one from the numbers of the neighbours of each
//! site. Each site is visited once, so the test takes time and space proportional to the number of sites.

ghost use Rattle.std.specs.Prelude.{◌≡◌, ℕ, ◌+◌, ◌<◌, ◌≤◌, ◌↔◌, [], length, slice_index, vec_len, vec_capacity, take, IfSome, IfOk, IsOkUnless, alloc_error};
ghost use Rattle.std.specs.List.Sorted.{IsStrictlyIncreasing};
ghost use Rattle.sand_model.specs.Grid.{sites, neighbours};
ghost use Rattle.sand_model.specs.Sand.{IsStable, occurrences, one_at, value_at};
ghost use Rattle.sand_model.specs.Piles.{height_of};
ghost use Rattle.sand_group.specs.Fire.{ListsBurning, ListsUnburnt, FireSpreadsFrom, CountsUnburnt};
ghost use Rattle.sand_group.specs.Burned.{IsBurned};

use crate::faults::GroupFault;
use sand_model::{Lattice, Pile};
use std::alloc::{AllocError, Global};

/// The result of the burning test.
#[derive(Debug, Drop)]
pub enum Burned {
    /// A burning order: all sites, each once; the height of each is at least the number of its neighbours that come
    /// later.
    Recurrent(Vec<usize>),
    /// The sites of the greatest forbidden set, which contains every other, in ascending order.
    Forbidden(Vec<usize>),
}

impl Burned {
    ghost use Rattle.std.specs.Prelude.{IsTrue};
    ghost use Rattle.sand_model.specs.Grid.{Grid};
    ghost use Rattle.sand_group.specs.Recurrence.{IsRecurrent};

    /// Whether this is the result of a recurrent pile.
    pub fn is_recurrent(&self) -> bool
        ensures { (g : Grid) (s : ℕ → ℕ) → IsBurned g s self.now → (IsTrue result ↔ IsRecurrent g s) }
    {
        match self {
            Burned::Recurrent(_) => true,
            Burned::Forbidden(_) => false,
        }
    }
}

// For each site, the number of its neighbours: none has burnt yet.
pub(crate) fn neighbour_counts(alloc: Global, lattice: &Lattice) -> Result<Vec<u8>, AllocError>
    ensures len { IfOk result (λ v. length v.items ≡ sites lattice.now) }
    ensures counts { IfOk result (λ v. CountsUnburnt lattice.now [] (slice_index v.items)) }
{
    let shape = lattice.shape();
    let mut counts = Vec::with_capacity(alloc, shape.sites())?;
    for site in 0..shape.sites() {
        counts.push((4 - lattice.missing(site)) as u8)?;
    }
    Ok(counts)
}

// The sites that may burn from the start, ascending, with capacity for all sites.
pub(crate) fn first_to_burn(
    alloc: Global,
    heights: &[u64],
    unburnt: &[u8],
) -> Result<Vec<usize>, AllocError>
    requires len { length unburnt.now ≡ length heights.now }
    ensures all { IfOk result (λ v. ListsBurning (length heights.now) heights.now unburnt.now v.items) }
    ensures room { IfOk result (λ v. length heights.now ≤ vec_capacity v) }
{
    let mut burnt = Vec::with_capacity(alloc, heights.len())?;
    for site in 0..heights.len() {
        if heights[site] >= u64::from(unburnt[site]) {
            burnt.push(site)?;
        }
    }
    Ok(burnt)
}

// One neighbour of a burnt site, if there is one, has one unburnt neighbour less, and burns if that number is now its
// height.
#[inline(always)]
fn note_burnt_neighbour(
    heights: &[u64],
    unburnt: &mut Vec<u8>,
    burnt: &mut Vec<usize>,
    neighbour: Option<usize>,
)
    requires len { length unburnt.old.items ≡ length heights.now }
    requires inside { IfSome neighbour (λ j. j < length heights.now) }
    requires unburnt { IfSome neighbour (λ j. 0 < slice_index unburnt.old.items j) }
    requires all { ListsBurning (length heights.now) heights.now unburnt.old.items burnt.old.items }
    requires room { length heights.now ≤ vec_capacity burnt.old }
    ensures len { length unburnt.new.items ≡ length heights.now }
    ensures one_less { (j : ℕ) → slice_index unburnt.new.items j + value_at (λ k. one_at k j) neighbour
        ≡ slice_index unburnt.old.items j }
    ensures all { ListsBurning (length heights.now) heights.now unburnt.new.items burnt.new.items }
    ensures room { length heights.now ≤ vec_capacity burnt.new }
    ensures kept { take (vec_len burnt.old) burnt.new.items ≡ burnt.old.items }
{
    if let Some(site) = neighbour {
        unburnt[site] -= 1;
        if heights[site] == u64::from(unburnt[site]) {
            burnt.push(site).unwrap();
        }
    }
}

// The same for each neighbour of a burnt site.
#[inline(always)]
fn spread_fire(
    lattice: &Lattice,
    heights: &[u64],
    unburnt: &mut Vec<u8>,
    burnt: &mut Vec<usize>,
    site: usize,
)
    requires site { site < sites lattice.now }
    requires heights_each { length heights.now ≡ sites lattice.now }
    requires len { length unburnt.old.items ≡ sites lattice.now }
    requires unburnt { (j : ℕ) → j < sites lattice.now
        → occurrences (neighbours lattice.now site) j ≤ slice_index unburnt.old.items j }
    requires all { ListsBurning (sites lattice.now) heights.now unburnt.old.items burnt.old.items }
    requires room { sites lattice.now ≤ vec_capacity burnt.old }
    ensures len { length unburnt.new.items ≡ sites lattice.now }
    ensures fewer { (j : ℕ) → slice_index unburnt.new.items j + occurrences (neighbours lattice.now site) j
        ≡ slice_index unburnt.old.items j }
    ensures all { ListsBurning (sites lattice.now) heights.now unburnt.new.items burnt.new.items }
    ensures room { sites lattice.now ≤ vec_capacity burnt.new }
    ensures kept { take (vec_len burnt.old) burnt.new.items ≡ burnt.old.items }
{
    let [north, west, east, south] = lattice.neighbours(site);
    note_burnt_neighbour(heights, unburnt, burnt, north);
    note_burnt_neighbour(heights, unburnt, burnt, west);
    note_burnt_neighbour(heights, unburnt, burnt, east);
    note_burnt_neighbour(heights, unburnt, burnt, south);
}

// Burns the sites of the list from `start` on, and returns the length that the list then had. The sites of the next step
// follow.
pub(crate) fn burn_step(
    lattice: &Lattice,
    heights: &[u64],
    unburnt: &mut Vec<u8>,
    burnt: &mut Vec<usize>,
    start: usize,
) -> usize
    requires heights_each { length heights.now ≡ sites lattice.now }
    requires len { length unburnt.old.items ≡ sites lattice.now }
    requires start { start ≤ vec_len burnt.old }
    requires counts { CountsUnburnt lattice.now (take start burnt.old.items) (slice_index unburnt.old.items) }
    requires all { ListsBurning (sites lattice.now) heights.now unburnt.old.items burnt.old.items }
    requires room { sites lattice.now ≤ vec_capacity burnt.old }
    requires in_turn { FireSpreadsFrom lattice.now (slice_index heights.now) [] (take start burnt.old.items) }
    ensures end { result ≡ vec_len burnt.old }
    ensures kept { take (vec_len burnt.old) burnt.new.items ≡ burnt.old.items }
    ensures inside { vec_len burnt.old ≤ vec_len burnt.new }
    ensures len { length unburnt.new.items ≡ sites lattice.now }
    ensures counts { CountsUnburnt lattice.now burnt.old.items (slice_index unburnt.new.items) }
    ensures all { ListsBurning (sites lattice.now) heights.now unburnt.new.items burnt.new.items }
    ensures room { sites lattice.now ≤ vec_capacity burnt.new }
    ensures in_turn { FireSpreadsFrom lattice.now (slice_index heights.now) [] burnt.old.items }
{
    let end = burnt.len();
    let mut head = start;
    while head < end {
        let site = burnt[head];
        spread_fire(lattice, heights, unburnt, burnt, site);
        head += 1;
    }
    end
}

// Spreads the fire from the sites that may burn from the start, until no other may. It has a loop of its own, since one that
// stops after each step is slower.
fn burn_out(lattice: &Lattice, heights: &[u64], unburnt: &mut Vec<u8>, burnt: &mut Vec<usize>)
    requires heights_each { length heights.now ≡ sites lattice.now }
    requires len { length unburnt.old.items ≡ sites lattice.now }
    requires counts { CountsUnburnt lattice.now [] (slice_index unburnt.old.items) }
    requires all { ListsBurning (sites lattice.now) heights.now unburnt.old.items burnt.old.items }
    requires room { sites lattice.now ≤ vec_capacity burnt.old }
    ensures len { length unburnt.new.items ≡ sites lattice.now }
    ensures counts { CountsUnburnt lattice.now burnt.new.items (slice_index unburnt.new.items) }
    ensures all { ListsBurning (sites lattice.now) heights.now unburnt.new.items burnt.new.items }
    ensures in_turn { FireSpreadsFrom lattice.now (slice_index heights.now) [] burnt.new.items }
{
    let mut head = 0;
    while head < burnt.len() {
        let site = burnt[head];
        spread_fire(lattice, heights, unburnt, burnt, site);
        head += 1;
    }
}

// The sites that may not burn, ascending.
fn left_over(alloc: Global, heights: &[u64], unburnt: &[u8]) -> Result<Vec<usize>, AllocError>
    requires len { length unburnt.now ≡ length heights.now }
    ensures all { IfOk result (λ v. ListsUnburnt (length heights.now) heights.now unburnt.now v.items) }
    ensures ascending { IfOk result (λ v. IsStrictlyIncreasing v.items) }
{
    let mut left = Vec::new(alloc);
    for site in 0..heights.len() {
        if heights[site] < u64::from(unburnt[site]) {
            left.push(site)?;
        }
    }
    Ok(left)
}

/// The burning test of a stable pile, in time proportional to the number of sites. Returns Unstable if a height is over
/// 3, and Memory if an allocation fails.
///
/// An example that runs is `crates/sand_drive`.
pub fn burn(alloc: Global, pile: &Pile) -> Result<Burned, GroupFault>
    ensures unstable { (result ≡ Err GroupFault.Unstable) ↔ ¬ IsStable pile.now.grid (height_of pile.now) }
    ensures memory { IsStable pile.now.grid (height_of pile.now) → IsOkUnless result (GroupFault.Memory alloc_error) }
    ensures burned { IfOk result (IsBurned pile.now.grid (height_of pile.now)) }
{
    if !pile.is_stable() {
        return Err(GroupFault::Unstable);
    }
    let shape = pile.shape();
    let heights = pile.heights();
    let lattice = Lattice::new(alloc, shape)?;
    let mut unburnt = neighbour_counts(alloc, &lattice)?;
    let mut burnt = first_to_burn(alloc, heights, &unburnt)?;
    burn_out(&lattice, heights, &mut unburnt, &mut burnt);
    if burnt.len() == shape.sites() {
        return Ok(Burned::Recurrent(burnt));
    }
    let left = left_over(alloc, heights, &unburnt)?;
    Ok(Burned::Forbidden(left))
}
