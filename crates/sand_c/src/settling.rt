//! Settling a pile, or several piles of one shape in one call.
//!
//! Of several piles, each argument has one after another. Nothing is written before the last pile has settled, so a
//! failed allocation changes nothing.

ghost use Rattle.std.specs.Prelude.{◌≡◌, ◌≢◌, ◌+◌, ◌*◌, ◌<◌, ◌≤◌, ℕ, true, length, Ok, OnOk, IfOk, IfErr};
ghost use Rattle.std.specs.Fork.{slice_chunk};
ghost use Rattle.sand_model.specs.Grid.{sites};
ghost use Rattle.sand_c.specs.Arguments.{sides_of, grid_of, Fails, Answers};
ghost use Rattle.sand_model.specs.Piles.{most_grains_on};
ghost use Rattle.sand_c.specs.Settling.{settling_of, settling_all_of, are_within, IsSettling, IsSettlingAt, AreRecords};

use crate::arguments::{Sides, grains_of, grid_for, grid_of, sides_of};
use crate::faults::Fault;
use sand_model::Shape;
use sand_settle::settle_in_place;
use std::alloc::{AllocError, Global};

/// Settles a pile. Writes the settled heights, how often each site toppled, the grains lost and the number of
/// topplings. Returns 0, or the first of 1 (Side), 24 (Narrow), 2 (Length of a slice) and 3 (TooManyGrains), or 4
/// (Memory).
#[unsafe(no_mangle)]
pub extern "C" fn sandpile_settle(
    alloc: Global,
    width: usize,
    height: usize,
    cylinder: bool,
    heights: &mut [u64],
    odometer: &mut [u64],
    lost: &mut u64,
    topplings: &mut u64,
) -> u32
    ensures settled { result ≡ 0
        → IsSettling (settling_of (sides_of width height cylinder) heights.old odometer.old)
        heights.new odometer.new lost.new topplings.new }
    ensures answer { Answers result (settling_of (sides_of width height cylinder) heights.old odometer.old) }
    ensures heights { result ≢ 0 → heights.new ≡ heights.old }
    ensures odometer { result ≢ 0 → odometer.new ≡ odometer.old }
    ensures lost { result ≢ 0 → lost.new ≡ lost.old }
    ensures topplings { result ≢ 0 → topplings.new ≡ topplings.old }
{
    let shape = match grid_for(sides_of(width, height, cylinder), heights, odometer.len()) {
        Ok(shape) => shape,
        Err(fault) => return fault.number(),
    };
    match settle_in_place(alloc, shape, heights, odometer) {
        Ok(totals) => {
            *lost = totals.lost;
            *topplings = totals.topplings;
            0
        }
        Err(_) => Fault::Memory.number(),
    }
}

// What piles of one shape settle to, one after another.
#[derive(Drop)]
struct SettledPiles {
    heights: Vec<u64>,
    odometer: Vec<u64>,
    lost: Vec<u64>,
    topplings: Vec<u64>,
}

// The heights of one of several piles, counted from 0.
fn heights_at(heights: &[u64], sites: usize, pile: usize) -> &[u64]
    requires { (pile + 1) * sites ≤ length heights.now }
    ensures value { result.now ≡ slice_chunk heights.now sites pile }
    ensures len { length result.now ≡ sites }
{
    heights.split_at(pile * sites).1.split_at(sites).0
}

// Whether each pile is within a limit.
fn are_within(heights: &[u64], sites: usize, limit: u64, count: usize) -> bool
    requires { length heights.now ≡ count * sites }
    ensures { result ≡ are_within limit sites heights.now count }
{
    for pile in 0..count {
        if grains_of(heights_at(heights, sites, pile), limit).is_none() {
            return false;
        }
    }
    true
}

// The grid in the arguments, if all slices have the length for as many piles as `lost` has places, and each pile is within
// the limit.
fn grid_for_all(
    sides: Sides,
    heights: &[u64],
    odometer: &[u64],
    lost: &[u64],
    topplings: &[u64],
) -> Result<Shape, Fault>
    ensures meant { IfOk result
        (λ g. settling_all_of sides heights.now odometer.now lost.now topplings.now ≡ Ok g) }
    ensures grid { IfOk result (λ g. grid_of sides ≡ Ok g) }
    ensures within { IfOk result (λ g. are_within (most_grains_on g) (sites g) heights.now (length lost.now) ≡ true) }
    ensures heights { IfOk result (λ g. length heights.now ≡ length lost.now * sites g) }
    ensures odometer { IfOk result (λ g. length odometer.now ≡ length lost.now * sites g) }
    ensures topplings { OnOk result (length topplings.now ≡ length lost.now) }
    ensures fault { IfErr result
        (λ e. Fails e (settling_all_of sides heights.now odometer.now lost.now topplings.now)) }
{
    let shape = grid_of(sides)?;
    if topplings.len() != lost.len() {
        return Err(Fault::Length);
    }
    let all = lost.len().checked_mul(shape.sites());
    if all != Some(heights.len()) || all != Some(odometer.len()) {
        return Err(Fault::Length);
    }
    if !are_within(heights, shape.sites(), shape.grain_limit(), lost.len()) {
        return Err(Fault::TooManyGrains);
    }
    Ok(shape)
}

// Each pile is copied into one list, and settles there.
fn settle_each(
    alloc: Global,
    shape: Shape,
    heights: &[u64],
    count: usize,
) -> Result<SettledPiles, AllocError>
    requires len { length heights.now ≡ count * sites shape }
    requires within { are_within (most_grains_on shape) (sites shape) heights.now count ≡ true }
    ensures { IfOk result (AreRecords shape heights.now count) }
{
    let sites = shape.sites();
    let mut all = SettledPiles {
        heights: Vec::with_capacity(alloc, heights.len())?,
        odometer: Vec::with_capacity(alloc, heights.len())?,
        lost: Vec::with_capacity(alloc, count)?,
        topplings: Vec::with_capacity(alloc, count)?,
    };
    let mut list = vec![in alloc; 0u64; sites]?;
    let mut counts = vec![in alloc; 0u64; sites]?;
    let pile = list.as_mut_slice();
    let odometer = counts.as_mut_slice();
    for next in 0..count {
        pile.copy_from_slice(heights_at(heights, sites, next));
        let Ok(totals) = settle_in_place(alloc, shape, pile, odometer) else {
            return Err(AllocError);
        };
        all.heights.extend_from_slice(pile)?;
        all.odometer.extend_from_slice(odometer)?;
        all.lost.push_reserved(totals.lost);
        all.topplings.push_reserved(totals.topplings);
    }
    Ok(all)
}

/// Settles piles of one shape, as many as `lost` has places. The heights of the first pile come first, then those of the
/// next. Writes for each pile what `sandpile_settle` does. Returns 0, or the first of 1 (Side), 24 (Narrow), 2 (Length of a
/// slice) and 3 (TooManyGrains on a pile), or 4 (Memory).
#[unsafe(no_mangle)]
pub extern "C" fn sandpile_settle_all(
    alloc: Global,
    width: usize,
    height: usize,
    cylinder: bool,
    heights: &mut [u64],
    odometer: &mut [u64],
    lost: &mut [u64],
    topplings: &mut [u64],
) -> u32
    ensures settled { result ≡ 0 → (j : ℕ) → j < length lost.old → IsSettlingAt j (sides_of width height cylinder)
        heights.old odometer.old heights.new odometer.new lost.new topplings.new }
    ensures answer { Answers result
        (settling_all_of (sides_of width height cylinder) heights.old odometer.old lost.old topplings.old) }
    ensures heights { result ≢ 0 → heights.new ≡ heights.old }
    ensures odometer { result ≢ 0 → odometer.new ≡ odometer.old }
    ensures lost { result ≢ 0 → lost.new ≡ lost.old }
    ensures topplings { result ≢ 0 → topplings.new ≡ topplings.old }
{
    let sides = sides_of(width, height, cylinder);
    let shape = match grid_for_all(sides, heights, odometer, lost, topplings) {
        Ok(shape) => shape,
        Err(fault) => return fault.number(),
    };
    let Ok(all) = settle_each(alloc, shape, heights, lost.len()) else {
        return Fault::Memory.number();
    };
    heights.copy_from_slice(&all.heights);
    odometer.copy_from_slice(&all.odometer);
    lost.copy_from_slice(&all.lost);
    topplings.copy_from_slice(&all.topplings);
    0
}
