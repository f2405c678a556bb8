//! Settling heights where they are.
//!
//! `settle` returns new lists, and keeps the pile. A caller that has lists for the result, and settles many small piles,
//! saves the copies: a stable pile takes no memory, and a light one only that of the queue.

ghost use Rattle.std.specs.Prelude.{◌≡◌, ℕ, ◌<◌, ◌≤◌, length, sum, slice_index, IsTrue};
ghost use Rattle.sand_settle.specs.InPlace.{IsInPlace, SettlesInPlace};

use crate::choice::is_light;
use crate::faults::SettleFault;
use crate::queue::topple_to_rest;
use crate::settled::sum_of;
use crate::settling::settle;
use sand_model::{Pile, Shape, TOPPLING_HEIGHT};
use std::alloc::Global;

/// The number of topplings, and of grains lost.
#[derive(Clone, Copy, Debug, PartialEq, Eq)]
pub struct Totals {
    pub topplings: u64,
    pub lost: u64,
}

// Whether no site may topple. All heights are read in any case, since that costs less than a branch for each.
fn are_stable(heights: &[u64]) -> bool
    ensures { IsTrue result → (j : ℕ) → j < length heights.now → slice_index heights.now j ≤ 3 }
{
    let mut are_low = true;
    for height in heights {
        are_low &= *height < TOPPLING_HEIGHT;
    }
    are_low
}

fn settle_copy(
    alloc: Global,
    shape: Shape,
    heights: &mut [u64],
    odometer: &mut [u64],
    grains: u64,
) -> Result<Totals, SettleFault>
    requires place { IsInPlace shape heights.old odometer.old }
    requires counted { grains ≡ sum heights.old }
    ensures { SettlesInPlace shape heights.old odometer.old heights.new odometer.new result }
{
    let copy = Vec::from_slice(alloc, heights)?;
    let start = Pile::from_counted(shape, copy, grains);
    let settled = settle(alloc, &start)?;
    heights.copy_from_slice(settled.pile().heights());
    odometer.copy_from_slice(settled.odometers());
    Ok(Totals {
        topplings: settled.topplings(),
        lost: settled.lost(),
    })
}

/// Settles heights by site: writes the settled heights, and how often each site toppled. Fails only if an allocation
/// fails (Memory), and then writes nothing.
pub fn settle_in_place(
    alloc: Global,
    shape: Shape,
    heights: &mut [u64],
    odometer: &mut [u64],
) -> Result<Totals, SettleFault>
    requires { IsInPlace shape heights.old odometer.old }
    ensures { SettlesInPlace shape heights.old odometer.old heights.new odometer.new result }
{
    if are_stable(heights) {
        odometer.fill(0);
        return Ok(Totals {
            topplings: 0,
            lost: 0,
        });
    }
    let grains = sum_of(heights);
    if !is_light(shape, grains) {
        return settle_copy(alloc, shape, heights, odometer, grains);
    }
    let is_settled = topple_to_rest(alloc, shape, heights, odometer, u64::MAX)?;
    prove!(is_settled);
    let topplings = sum_of(odometer);
    let left = sum_of(heights);
    let lost = grains - left;
    Ok(Totals { topplings, lost })
}
