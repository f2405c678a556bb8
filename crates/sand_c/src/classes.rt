//! The recurrent pile and the superstable heights of the class of integer heights, of any sign.

ghost use Rattle.std.specs.Prelude.{◌≡◌, ◌≢◌, ◌<◌, ◌≤◌, ◌⊎◌, ℕ, pos, All, length, slice_index, Ok, IfOk, IfErr, OnOk, OnErr};
ghost use Rattle.sand_model.specs.Grid.{sites};
ghost use Rattle.sand_group.specs.Classes.{integer_at, IsFiredToRecurrent, IsSuperstableOf};
ghost use Rattle.sand_c.specs.Arguments.{sides_of, Fails, Answers};
ghost use Rattle.sand_c.specs.Classes.{class_of, firing_of, IsRecurrentOfClass, IsSuperstableOfClass};

use crate::arguments::{Sides, grid_of, sides_of};
use crate::faults::{Fault, answer};
use sand_group::{Fired, recurrent_by_firing, superstable};
use sand_model::{Pile, PileFault};
use std::alloc::Global;

// Writes the heights of a stable pile as integers.
fn write_heights(heights: &mut [i64], pile: &[u64])
    requires len { length heights.old ≡ length pile.now }
    requires low { All (λ h. h ≤ 3) pile.now }
    ensures len { length heights.new ≡ length heights.old }
    ensures each { (i : ℕ) → i < length pile.now → integer_at heights.new i ≡ pos (slice_index pile.now i) }
{
    for (site, height) in pile.iter().enumerate() {
        heights[site] = *height as i64;
    }
}

// Writes a firing vector, if there is a place for each of its numbers.
fn write_firing(places: &mut [i64], firing: &[i64])
    ensures len { length places.new ≡ length places.old }
    ensures written { length places.old ≡ length firing.now → places.new ≡ firing.now }
{
    if places.len() == firing.len() {
        places.copy_from_slice(firing);
    }
}

// The recurrent pile of the heights in the arguments, and the firing vector, for which there are so many places.
fn fired_in(alloc: Global, sides: Sides, heights: &[i64], places: usize) -> Result<Fired, Fault>
    ensures fired { IfOk result
        (λ f. IsFiredToRecurrent f.recurrent.grid (integer_at heights.now) f.recurrent f.firing.items) }
    ensures meant { IfOk result (λ f. firing_of sides heights.now places ≡ Ok f.recurrent.grid) }
    ensures len { IfOk result (λ f. length heights.now ≡ sites f.recurrent.grid) }
    ensures places { IfOk result (λ f. (places ≡ 0) ⊎ (places ≡ sites f.recurrent.grid)) }
    ensures fault { IfErr result (λ e. Fails e (firing_of sides heights.now places)) }
{
    let shape = grid_of(sides)?;
    if places != 0 && places != shape.sites() {
        return Err(Fault::Length);
    }
    match recurrent_by_firing(alloc, shape, heights) {
        Ok(fired) => Ok(fired),
        Err(PileFault::Length) => Err(Fault::Length),
        Err(PileFault::TooManyGrains) => Err(Fault::TooManyGrains),
        Err(PileFault::Memory(_)) => Err(Fault::Memory),
    }
}

// The superstable pile of the heights in the arguments.
fn superstable_in(alloc: Global, sides: Sides, heights: &[i64]) -> Result<Pile, Fault>
    ensures superstable { IfOk result (λ p. IsSuperstableOf p.grid (integer_at heights.now) p) }
    ensures meant { IfOk result (λ p. class_of sides heights.now ≡ Ok p.grid) }
    ensures len { IfOk result (λ p. length heights.now ≡ sites p.grid) }
    ensures fault { IfErr result (λ e. Fails e (class_of sides heights.now)) }
{
    let shape = grid_of(sides)?;
    match superstable(alloc, shape, heights) {
        Ok(pile) => Ok(pile),
        Err(PileFault::Length) => Err(Fault::Length),
        Err(PileFault::TooManyGrains) => Err(Fault::TooManyGrains),
        Err(PileFault::Memory(_)) => Err(Fault::Memory),
    }
}

// What `sandpile_class` does.
fn fire_in_place(
    alloc: Global,
    sides: Sides,
    heights: &mut [i64],
    firing: &mut [i64],
) -> Result<(), Fault>
    ensures class { OnOk result
        (IsRecurrentOfClass (firing_of sides heights.old (length firing.old)) heights.old heights.new firing.new) }
    ensures fault { IfErr result (λ e. Fails e (firing_of sides heights.old (length firing.old))) }
    ensures heights { OnErr result (heights.new ≡ heights.old) }
    ensures firing { OnErr result (firing.new ≡ firing.old) }
{
    let fired = fired_in(alloc, sides, heights, firing.len())?;
    write_heights(heights, fired.recurrent.pile().heights());
    write_firing(firing, &fired.firing);
    Ok(())
}

// What `sandpile_superstable` does.
fn make_superstable(alloc: Global, sides: Sides, heights: &mut [i64]) -> Result<(), Fault>
    ensures superstable { OnOk result (IsSuperstableOfClass (class_of sides heights.old) heights.old heights.new) }
    ensures fault { IfErr result (λ e. Fails e (class_of sides heights.old)) }
    ensures heights { OnErr result (heights.new ≡ heights.old) }
{
    let pile = superstable_in(alloc, sides, heights)?;
    write_heights(heights, pile.heights());
    Ok(())
}

/// Replaces integer heights with the recurrent pile of their class, and writes the firing vector that leads there: how
/// often each site topples, less than 0 where topplings are taken back. An array `firing` of length 0 is left out.
/// Returns 0, or the first of 1 (Side), 24 (Narrow), 2 (Length of a slice) and 3 (TooManyGrains, by absolute values), or
/// 4 (Memory).
#[unsafe(no_mangle)]
#[tactic(auto, using(crate::proofs::Answered::answered))]
pub extern "C" fn sandpile_class(
    alloc: Global,
    width: usize,
    height: usize,
    cylinder: bool,
    heights: &mut [i64],
    firing: &mut [i64],
) -> u32
    ensures class { result ≡ 0
        → IsRecurrentOfClass (firing_of (sides_of width height cylinder) heights.old (length firing.old))
        heights.old heights.new firing.new }
    ensures answer { Answers result (firing_of (sides_of width height cylinder) heights.old (length firing.old)) }
    ensures heights { result ≢ 0 → heights.new ≡ heights.old }
    ensures firing { result ≢ 0 → firing.new ≡ firing.old }
{
    answer(fire_in_place(alloc, sides_of(width, height, cylinder), heights, firing))
}

/// Replaces integer heights with the superstable heights of their class. Returns 0, or the first of 1 (Side), 24
/// (Narrow), 2 (Length of the slice) and 3 (TooManyGrains, by absolute values), or 4 (Memory).
#[unsafe(no_mangle)]
#[tactic(auto, using(crate::proofs::Answered::answered))]
pub extern "C" fn sandpile_superstable(
    alloc: Global,
    width: usize,
    height: usize,
    cylinder: bool,
    heights: &mut [i64],
) -> u32
    ensures superstable { result ≡ 0
        → IsSuperstableOfClass (class_of (sides_of width height cylinder) heights.old) heights.old heights.new }
    ensures answer { Answers result (class_of (sides_of width height cylinder) heights.old) }
    ensures heights { result ≢ 0 → heights.new ≡ heights.old }
{
    answer(make_superstable(alloc, sides_of(width, height, cylinder), heights))
}
