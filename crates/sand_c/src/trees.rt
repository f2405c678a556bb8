//! Burning times, the spanning trees of recurrent piles, and random recurrent piles.

ghost use Rattle.std.specs.Prelude.{◌≡◌, ◌≢◌, length, IfOk, IfErr};
ghost use Rattle.sand_model.specs.Grid.{sites};
ghost use Rattle.sand_c.specs.Arguments.{sides_of, pile_with, Answers, IsAnswer};
ghost use Rattle.sand_c.specs.Burning.{BurnFails};
ghost use Rattle.sand_c.specs.Group.{identity_of, ElementFails};
ghost use Rattle.sand_c.specs.Trees.{directed_of, AreTimesOf, IsTreeOf, IsPileOf, IsRecurrentOn, TreeFails};

use crate::arguments::{Sides, grid_for, grid_of, sides_of};
use crate::faults::Fault;
use crate::group::recurrent_on;
use sand_group::{Recurrent, burning_times};
use sand_model::Pile;
use sand_trees::{Tree, pile_of_tree, random_recurrent, tree_of_pile};
use std::alloc::Global;

// The steps in which the sites of the pile in the arguments burn, if there are `places` for them.
fn times_in(alloc: Global, sides: Sides, heights: &[u64], places: usize) -> Result<Vec<u32>, Fault>
    ensures times { IfOk result (λ v. AreTimesOf (pile_with sides heights.now places) v.items) }
    ensures len { IfOk result (λ v. length v.items ≡ places) }
    ensures fault { IfErr result (λ e. BurnFails e (pile_with sides heights.now places)) }
{
    let shape = grid_for(sides, heights, places)?;
    let Ok(pile) = Pile::new(alloc, shape, heights) else {
        return Err(Fault::Memory);
    };
    Ok(burning_times(alloc, &pile)?)
}

// The tree of the pile in the arguments, if there are `places` for its directions.
#[tactic(auto, using(crate::proofs::Unfit::out_of_memory))]
fn tree_in(alloc: Global, sides: Sides, heights: &[u64], places: usize) -> Result<Tree, Fault>
    ensures tree { IfOk result (λ t. IsTreeOf (pile_with sides heights.now places) t.directions) }
    ensures len { IfOk result (λ t. length t.directions ≡ places) }
    ensures fault { IfErr result (λ e. ElementFails e (pile_with sides heights.now places)) }
{
    let shape = grid_for(sides, heights, places)?;
    let recurrent = recurrent_on(alloc, shape, heights)?;
    Ok(tree_of_pile(alloc, &recurrent)?)
}

// The pile of the tree in the arguments, if there are `places` for its heights.
fn pile_of(
    alloc: Global,
    sides: Sides,
    directions: &[u8],
    places: usize,
) -> Result<Recurrent, Fault>
    ensures pile { IfOk result
        (λ c. IsPileOf (directed_of sides (length directions.now) places) directions.now c.heights) }
    ensures len { IfOk result (λ c. length c.heights ≡ places) }
    ensures fault { IfErr result
        (λ e. TreeFails e (directed_of sides (length directions.now) places) directions.now) }
{
    let shape = grid_of(sides)?;
    if directions.len() != shape.sites() || places != shape.sites() {
        return Err(Fault::Length);
    }
    let tree = Tree::from_directions(alloc, shape, directions)?;
    Ok(pile_of_tree(alloc, &tree)?)
}

/// Writes the step in which each site of a stable pile burns, from 1 on, and 0 for each site that never does. Returns 0,
/// or the first of 1 (Side), 24 (Narrow), 2 (Length of a slice), 3 (TooManyGrains) and 7 (Unstable), or 4 (Memory).
#[unsafe(no_mangle)]
pub extern "C" fn sandpile_burn_times(
    alloc: Global,
    width: usize,
    height: usize,
    cylinder: bool,
    heights: &[u64],
    times: &mut [u32],
) -> u32
    ensures times_are { result ≡ 0
        → AreTimesOf (pile_with (sides_of width height cylinder) heights.now (length times.old)) times.new }
    ensures answer { IsAnswer result (λ e. BurnFails e
        (pile_with (sides_of width height cylinder) heights.now (length times.old))) }
    ensures times { result ≢ 0 → times.new ≡ times.old }
{
    let sides = sides_of(width, height, cylinder);
    match times_in(alloc, sides, heights, times.len()) {
        Ok(steps) => {
            times.copy_from_slice(&steps);
            0
        }
        Err(fault) => fault.number(),
    }
}

/// Writes the directions of the spanning tree of a recurrent pile: for each site 0 (north), 1 (west), 2 (east) or 3
/// (south). Returns 0, or the first of 1 (Side), 24 (Narrow), 2 (Length of a slice), 3 (TooManyGrains), 7 (Unstable) and
/// 8 (NotRecurrent), or 4 (Memory).
#[unsafe(no_mangle)]
pub extern "C" fn sandpile_tree(
    alloc: Global,
    width: usize,
    height: usize,
    cylinder: bool,
    heights: &[u64],
    directions: &mut [u8],
) -> u32
    ensures tree { result ≡ 0
        → IsTreeOf (pile_with (sides_of width height cylinder) heights.now (length directions.old)) directions.new }
    ensures answer { IsAnswer result (λ e. ElementFails e
        (pile_with (sides_of width height cylinder) heights.now (length directions.old))) }
    ensures directions { result ≢ 0 → directions.new ≡ directions.old }
{
    let sides = sides_of(width, height, cylinder);
    match tree_in(alloc, sides, heights, directions.len()) {
        Ok(tree) => {
            directions.copy_from_slice(tree.directions());
            0
        }
        Err(fault) => fault.number(),
    }
}

/// Writes the heights of the recurrent pile of a spanning tree. Returns 0, or the first of 1 (Side), 24 (Narrow), 2
/// (Length of a slice) and 28 (NotTree: also for a direction over 3), or 4 (Memory).
#[unsafe(no_mangle)]
pub extern "C" fn sandpile_of_tree(
    alloc: Global,
    width: usize,
    height: usize,
    cylinder: bool,
    directions: &[u8],
    heights: &mut [u64],
) -> u32
    ensures pile { result ≡ 0
        → IsPileOf (directed_of (sides_of width height cylinder) (length directions.now) (length heights.old))
        directions.now heights.new }
    ensures answer { IsAnswer result (λ e. TreeFails e
        (directed_of (sides_of width height cylinder) (length directions.now) (length heights.old)) directions.now) }
    ensures heights { result ≢ 0 → heights.new ≡ heights.old }
{
    let sides = sides_of(width, height, cylinder);
    match pile_of(alloc, sides, directions, heights.len()) {
        Ok(recurrent) => {
            heights.copy_from_slice(recurrent.pile().heights());
            0
        }
        Err(fault) => fault.number(),
    }
}

/// Writes the heights of a random recurrent pile: that of the random tree of a stream. That each recurrent pile is as
/// likely is tested, not proved. Returns 0, or the first of 1 (Side), 24 (Narrow) and 2 (Length of the slice), or 4
/// (Memory).
#[unsafe(no_mangle)]
pub extern "C" fn sandpile_random(
    alloc: Global,
    width: usize,
    height: usize,
    cylinder: bool,
    seed: u64,
    stream: u64,
    heights: &mut [u64],
) -> u32
    ensures recurrent { result ≡ 0
        → IsRecurrentOn (identity_of (sides_of width height cylinder) heights.old) heights.new }
    ensures answer { Answers result (identity_of (sides_of width height cylinder) heights.old) }
    ensures heights { result ≢ 0 → heights.new ≡ heights.old }
{
    let shape = match grid_of(sides_of(width, height, cylinder)) {
        Ok(shape) => shape,
        Err(fault) => return fault.number(),
    };
    if heights.len() != shape.sites() {
        return Fault::Length.number();
    }
    match random_recurrent(alloc, shape, seed, stream) {
        Ok(recurrent) => {
            heights.copy_from_slice(recurrent.pile().heights());
            0
        }
        Err(_) => Fault::Memory.number(),
    }
}
