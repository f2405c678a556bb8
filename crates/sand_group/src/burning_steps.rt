//! The step in which each site of a stable pile burns, if in each step all sites burn that can.
//!
//! The fire of `burn` spreads step by step: the sites that one step appends to the list are those of the next. So each
//! site is noted once, however many steps there are.

ghost use Rattle.std.specs.Prelude.{◌≡◌, ℕ, ◌<◌, ◌≤◌, ◌↔◌, [], All, length, slice_index, take, vec_capacity, IfOk, IsOkUnless, alloc_error};
ghost use Rattle.sand_model.specs.Grid.{sites};
ghost use Rattle.sand_model.specs.Sand.{IsStable, occurrences};
ghost use Rattle.sand_model.specs.Piles.{height_of};
ghost use Rattle.sand_group.specs.Fire.{ListsBurning, CountsUnburnt};
ghost use Rattle.sand_group.specs.BurningTimes.{AreBurningTimes};

use crate::burning::{burn_step, first_to_burn, neighbour_counts};
use crate::faults::GroupFault;
use sand_model::{Lattice, Pile};
use std::alloc::{AllocError, Global};

// Notes the step of the sites of the list from `start` on.
fn note_step(times: &mut Vec<u32>, burnt: &[usize], start: usize, step: u32)
    requires inside { All (λ i. i < length times.old.items) burnt.now }
    requires start { start ≤ length burnt.now }
    ensures len { length times.new.items ≡ length times.old.items }
    ensures noted { (i : ℕ) → occurrences (take start burnt.now) i < occurrences burnt.now i
        → slice_index times.new.items i ≡ step }
    ensures kept { (i : ℕ) → occurrences burnt.now i ≡ occurrences (take start burnt.now) i
        → slice_index times.new.items i ≡ slice_index times.old.items i }
{
    for place in start..burnt.len() {
        times[burnt[place]] = step;
    }
}

// Spreads the fire from the sites that may burn from the start, and returns the steps in which the sites burn.
fn times_of(
    alloc: Global,
    lattice: &Lattice,
    heights: &[u64],
    unburnt: &mut Vec<u8>,
    burnt: &mut Vec<usize>,
) -> Result<Vec<u32>, AllocError>
    requires heights_each { length heights.now ≡ sites lattice.now }
    requires len { length unburnt.old.items ≡ sites lattice.now }
    requires counts { CountsUnburnt lattice.now [] (slice_index unburnt.old.items) }
    requires all { ListsBurning (sites lattice.now) heights.now unburnt.old.items burnt.old.items }
    requires room { sites lattice.now ≤ vec_capacity burnt.old }
    ensures len { IfOk result (λ v. length v.items ≡ sites lattice.now) }
    ensures times { IfOk result (λ v. AreBurningTimes lattice.now (slice_index heights.now) (slice_index v.items)) }
{
    let mut times = vec![in alloc; 0u32; lattice.shape().sites()]?;
    let mut head = 0;
    let mut step = 0u32;
    while head < burnt.len() {
        step += 1;
        note_step(&mut times, burnt, head, step);
        head = burn_step(lattice, heights, unburnt, burnt, head);
    }
    Ok(times)
}

/// The step in which each site of a stable pile burns, from 1 on, and 0 for each site that never does. Takes time
/// proportional to the number of sites, however many steps there are. Returns Unstable if a height is over 3, and Memory
/// if an allocation fails.
pub fn burning_times(alloc: Global, pile: &Pile) -> Result<Vec<u32>, GroupFault>
    ensures unstable { (result ≡ Err GroupFault.Unstable) ↔ ¬ IsStable pile.now.grid (height_of pile.now) }
    ensures memory { IsStable pile.now.grid (height_of pile.now) → IsOkUnless result (GroupFault.Memory alloc_error) }
    ensures len { IfOk result (λ v. length v.items ≡ sites pile.now.grid) }
    ensures times { IfOk result (λ v. AreBurningTimes pile.now.grid (height_of pile.now) (slice_index v.items)) }
{
    if !pile.is_stable() {
        return Err(GroupFault::Unstable);
    }
    let heights = pile.heights();
    let lattice = Lattice::new(alloc, pile.shape())?;
    let mut unburnt = neighbour_counts(alloc, &lattice)?;
    let mut burnt = first_to_burn(alloc, heights, &unburnt)?;
    Ok(times_of(alloc, &lattice, heights, &mut unburnt, &mut burnt)?)
}
