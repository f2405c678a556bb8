//! The group of recurrent piles.

ghost use Rattle.std.specs.Prelude.{◌≡◌, ◌≢◌, ◌≤◌, ◌↔◌, length, sum, Ok, IfOk, IfErr, OnErr, IsOk};
ghost use Rattle.sand_model.specs.Grid.{sites};
ghost use Rattle.sand_model.specs.Piles.{height_of, most_grains_on};
ghost use Rattle.sand_group.specs.Recurrence.{IsRecurrent};
ghost use Rattle.sand_c.specs.Arguments.{sides_of, pile_of, Answers, IsAnswer};
ghost use Rattle.sand_c.specs.Faults.{number_of, of_group};
ghost use Rattle.sand_c.specs.Group.{identity_of, adding_of, IsIdentityOf, IsRecurrentOf, IsAdding, IsInverting, IsMultiplying, IsUnfit, ElementFails, AddFails};

use crate::arguments::{Sides, grains_of, grid_for, grid_of, pile_in, sides_of};
use crate::faults::Fault;
use sand_group::{GroupFault, Recurrent, add, equivalent_recurrent, identity, inverse, multiple};
use sand_model::{Pile, Shape};
use std::alloc::Global;

/// The recurrent pile with these heights.
#[tactic(auto, using(crate::proofs::Unfit::unfit, crate::proofs::Unfit::out_of_memory))]
pub(crate) fn recurrent_on(alloc: Global, shape: Shape, heights: &[u64]) -> Result<Recurrent, Fault>
    requires len { length heights.now ≡ sites shape }
    requires limit { sum heights.now ≤ most_grains_on shape }
    ensures made { IfOk result (λ c. c ≡ record { grid = shape; heights = heights.now }) }
    ensures recurrent { IfOk result (λ c. IsRecurrent c.grid (height_of c)) }
    ensures unfit { IfErr result (λ e. IsUnfit (record { grid = shape; heights = heights.now }) e) }
{
    let Ok(pile) = Pile::new(alloc, shape, heights) else {
        return Err(Fault::Memory);
    };
    Ok(Recurrent::from_pile(alloc, &pile)?)
}

// The recurrent pile in the arguments.
fn element_of(alloc: Global, sides: Sides, heights: &[u64]) -> Result<Recurrent, Fault>
    ensures meant { IfOk result (λ c. pile_of sides heights.now ≡ Ok c) }
    ensures recurrent { IfOk result (λ c. IsRecurrent c.grid (height_of c)) }
    ensures len { IfOk result (λ c. length heights.now ≡ sites c.grid) }
    ensures fault { IfErr result (λ e. ElementFails e (pile_of sides heights.now)) }
{
    let shape = grid_of(sides)?;
    if heights.len() != shape.sites() {
        return Err(Fault::Length);
    }
    if grains_of(heights, shape.grain_limit()).is_none() {
        return Err(Fault::TooManyGrains);
    }
    recurrent_on(alloc, shape, heights)
}

// The two recurrent piles in the arguments.
fn elements_of(
    alloc: Global,
    sides: Sides,
    heights: &[u64],
    others: &[u64],
) -> Result<(Recurrent, Recurrent), Fault>
    ensures meant { IfOk result (λ c. adding_of sides heights.now others.now ≡ Ok (c.0, c.1)) }
    ensures first_recurrent { IfOk result (λ c. IsRecurrent c.0.grid (height_of c.0)) }
    ensures second_recurrent { IfOk result (λ c. IsRecurrent c.1.grid (height_of c.1)) }
    ensures one_grid { IfOk result (λ c. c.0.grid ≡ c.1.grid) }
    ensures len { IfOk result (λ c. length heights.now ≡ sites c.0.grid) }
    ensures fault { IfErr result (λ e. AddFails e (adding_of sides heights.now others.now)) }
{
    let shape = grid_for(sides, heights, others.len())?;
    if grains_of(others, shape.grain_limit()).is_none() {
        return Err(Fault::TooManyGrains);
    }
    let first = recurrent_on(alloc, shape, heights)?;
    let second = recurrent_on(alloc, shape, others)?;
    Ok((first, second))
}

// Writes the heights of a recurrent pile, if there is one. Returns what an export does.
fn answer_in(outcome: Result<Recurrent, GroupFault>, heights: &mut [u64]) -> u32
    requires { IfOk outcome (λ c. length c.heights ≡ length heights.old) }
    ensures ok { IsOk outcome ↔ (result ≡ 0) }
    ensures fault { IfErr outcome (λ e. result ≡ number_of (of_group e)) }
    ensures written { IfOk outcome (λ c. heights.new ≡ c.heights) }
    ensures kept { OnErr outcome (heights.new ≡ heights.old) }
{
    match outcome {
        Ok(recurrent) => {
            heights.copy_from_slice(recurrent.pile().heights());
            0
        }
        Err(fault) => Fault::from(fault).number(),
    }
}

/// Writes the heights of the identity of the group on a grid. Returns 0, or the first of 1 (Side), 24 (Narrow) and 2
/// (Length of the slice), or 4 (Memory).
#[unsafe(no_mangle)]
pub extern "C" fn sandpile_identity(
    alloc: Global,
    width: usize,
    height: usize,
    cylinder: bool,
    heights: &mut [u64],
) -> u32
    ensures identity { result ≡ 0 → IsIdentityOf (identity_of (sides_of width height cylinder) heights.old) heights.new }
    ensures answer { Answers result (identity_of (sides_of width height cylinder) heights.old) }
    ensures heights { result ≢ 0 → heights.new ≡ heights.old }
{
    let shape = match grid_of(sides_of(width, height, cylinder)) {
        Ok(shape) => shape,
        Err(fault) => return fault.number(),
    };
    if heights.len() != shape.sites() {
        return Fault::Length.number();
    }
    answer_in(identity(alloc, shape), heights)
}

/// Replaces the heights with those of the unique recurrent pile equivalent to the pile. Returns 0, or the first of 1
/// (Side), 24 (Narrow), 2 (Length of the slice) and 3 (TooManyGrains), or 4 (Memory).
#[unsafe(no_mangle)]
pub extern "C" fn sandpile_recurrent(
    alloc: Global,
    width: usize,
    height: usize,
    cylinder: bool,
    heights: &mut [u64],
) -> u32
    ensures recurrent { result ≡ 0 → IsRecurrentOf (pile_of (sides_of width height cylinder) heights.old) heights.new }
    ensures answer { Answers result (pile_of (sides_of width height cylinder) heights.old) }
    ensures heights { result ≢ 0 → heights.new ≡ heights.old }
{
    match pile_in(alloc, sides_of(width, height, cylinder), heights) {
        Ok(pile) => answer_in(equivalent_recurrent(alloc, &pile), heights),
        Err(fault) => fault.number(),
    }
}

/// Replaces the heights with those of the sum of two recurrent piles. Returns 0, or the first of 1 (Side), 24 (Narrow),
/// 2 (Length of a slice), 3 (TooManyGrains), and 7 (Unstable) or 8 (NotRecurrent) for the first pile, then for the
/// second; or 4 (Memory).
#[unsafe(no_mangle)]
pub extern "C" fn sandpile_add(
    alloc: Global,
    width: usize,
    height: usize,
    cylinder: bool,
    heights: &mut [u64],
    others: &[u64],
) -> u32
    ensures added { result ≡ 0 → IsAdding (adding_of (sides_of width height cylinder) heights.old others.now) heights.new }
    ensures answer { IsAnswer result (λ e. AddFails e (adding_of (sides_of width height cylinder) heights.old others.now)) }
    ensures heights { result ≢ 0 → heights.new ≡ heights.old }
{
    match elements_of(alloc, sides_of(width, height, cylinder), heights, others) {
        Ok((first, second)) => answer_in(add(alloc, &first, &second), heights),
        Err(fault) => fault.number(),
    }
}

/// Replaces the heights with those of the inverse of a recurrent pile. Returns 0, or the first of 1 (Side), 24
/// (Narrow), 2 (Length of the slice), 3 (TooManyGrains), 7 (Unstable) and 8 (NotRecurrent), or 4 (Memory).
#[unsafe(no_mangle)]
pub extern "C" fn sandpile_inverse(
    alloc: Global,
    width: usize,
    height: usize,
    cylinder: bool,
    heights: &mut [u64],
) -> u32
    ensures inverted { result ≡ 0 → IsInverting (pile_of (sides_of width height cylinder) heights.old) heights.new }
    ensures answer { IsAnswer result (λ e. ElementFails e (pile_of (sides_of width height cylinder) heights.old)) }
    ensures heights { result ≢ 0 → heights.new ≡ heights.old }
{
    match element_of(alloc, sides_of(width, height, cylinder), heights) {
        Ok(pile) => answer_in(inverse(alloc, &pile), heights),
        Err(fault) => fault.number(),
    }
}

/// Replaces the heights with those of the n-fold sum of a recurrent pile. Returns 0, or the first of 1 (Side), 24
/// (Narrow), 2 (Length of the slice), 3 (TooManyGrains), 7 (Unstable) and 8 (NotRecurrent), or 4 (Memory).
#[unsafe(no_mangle)]
pub extern "C" fn sandpile_multiple(
    alloc: Global,
    width: usize,
    height: usize,
    cylinder: bool,
    heights: &mut [u64],
    n: u64,
) -> u32
    ensures multiplied { result ≡ 0 → IsMultiplying (pile_of (sides_of width height cylinder) heights.old) n heights.new }
    ensures answer { IsAnswer result (λ e. ElementFails e (pile_of (sides_of width height cylinder) heights.old)) }
    ensures heights { result ≢ 0 → heights.new ≡ heights.old }
{
    match element_of(alloc, sides_of(width, height, cylinder), heights) {
        Ok(pile) => answer_in(multiple(alloc, &pile, n), heights),
        Err(fault) => fault.number(),
    }
}
