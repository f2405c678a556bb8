//! The burning test.

ghost use Rattle.std.specs.Prelude.{◌≡◌, ◌≢◌, ◌≤◌, length, take, drop, IfOk, IfErr};
ghost use Rattle.sand_c.specs.Arguments.{sides_of, pile_with, IsAnswer};
ghost use Rattle.sand_c.specs.Burning.{IsBurning, BurnFails};

use crate::arguments::{Sides, grid_for, sides_of};
use crate::faults::Fault;
use sand_group::{Burned, burn};
use sand_model::Pile;
use std::alloc::Global;

// The sites that burning the pile in the arguments finds, and whether all burn, if there are `places` sites.
#[tactic(auto, using(crate::proofs::Found::order_fits))]
fn burned_in(
    alloc: Global,
    sides: Sides,
    heights: &[u64],
    places: usize,
) -> Result<(Vec<usize>, bool), Fault>
    ensures burned { IfOk result (λ b. IsBurning (pile_with sides heights.now places)
        b.0.items (length b.0.items) b.1) }
    ensures room { IfOk result (λ b. length b.0.items ≤ places) }
    ensures fault { IfErr result (λ e. BurnFails e (pile_with sides heights.now places)) }
{
    let shape = grid_for(sides, heights, places)?;
    let Ok(pile) = Pile::new(alloc, shape, heights) else {
        return Err(Fault::Memory);
    };
    match burn(alloc, &pile)? {
        Burned::Recurrent(order) => Ok((order, true)),
        Burned::Forbidden(set) => Ok((set, false)),
    }
}

/// Burns a stable pile. If it is recurrent, `found` becomes a burning order; if not, its first `count` places become
/// the sites of the greatest forbidden set, ascending, and the others stay. Returns 0, or the first of 1 (Side), 24
/// (Narrow), 2 (Length of a slice), 3 (TooManyGrains) and 7 (Unstable), or 4 (Memory).
#[unsafe(no_mangle)]
pub extern "C" fn sandpile_burn(
    alloc: Global,
    width: usize,
    height: usize,
    cylinder: bool,
    heights: &[u64],
    found: &mut [usize],
    count: &mut usize,
    recurrent: &mut bool,
) -> u32
    ensures burned { result ≡ 0 → IsBurning (pile_with (sides_of width height cylinder) heights.now (length found.old))
        found.new count.new recurrent.new }
    ensures rest { result ≡ 0 → drop count.new found.new ≡ drop count.new found.old }
    ensures answer { IsAnswer result (λ e. BurnFails e
        (pile_with (sides_of width height cylinder) heights.now (length found.old))) }
    ensures found { result ≢ 0 → found.new ≡ found.old }
    ensures count { result ≢ 0 → count.new ≡ count.old }
    ensures recurrent { result ≢ 0 → recurrent.new ≡ recurrent.old }
{
    match burned_in(
        alloc,
        sides_of(width, height, cylinder),
        heights,
        found.len(),
    ) {
        Ok((list, all)) => {
            let (front, _) = found.split_at_mut(list.len());
            front.copy_from_slice(&list);
            *count = list.len();
            *recurrent = all;
            0
        }
        Err(fault) => fault.number(),
    }
}
