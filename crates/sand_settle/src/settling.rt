//! Settling: from a pile to its settled record.
//!
//! A stable pile is its own settled pile. `choice` settles any other, by `queue` or by a claim that is certified.

ghost use Rattle.std.specs.Prelude.{◌≡◌, ◌+◌, ◌*◌, ◌^◌, ◌<◌, ◌≤◌, sum, IfOk};
ghost use Rattle.sand_model.specs.Sand.{weight};
ghost use Rattle.sand_model.specs.Piles.{height_of};
ghost use Rattle.sand_settle.specs.Settling.{IsSettledRecord};
ghost use Rattle.sand_settle.specs.Rests.{ComesToRest};

use crate::choice::{Rest, settle_by_any};
use crate::faults::SettleFault;
use crate::settled::Settled;
use sand_model::Pile;
use std::alloc::Global;

fn record_of(pile: &Pile, rest: Rest) -> Settled
    requires { ComesToRest pile.now rest }
    ensures record { IsSettledRecord pile.now.grid (height_of pile.now) result }
    ensures kept { result.lost + sum result.pile.heights ≡ sum pile.now.heights }
    ensures half { 2 * result.topplings ≤ weight pile.now.grid (height_of pile.now) }
    ensures bound { result.topplings < 2 ^ 54 }
{
    let Rest { heights, odometer } = rest;
    let before = pile.grains();
    let settled = Pile::from_vec(pile.shape(), heights);
    let lost = before - settled.grains();
    Settled::of_parts(settled, odometer, lost)
}

/// The settled record of a pile: its settled pile, its least odometer, the grains lost and the topplings. Fails only if
/// an allocation fails (Memory). The pile is unchanged.
///
/// An example that runs is `crates/sand_tower`.
pub fn settle(alloc: Global, pile: &Pile) -> Result<Settled, SettleFault>
    ensures record { IfOk result (λ r. IsSettledRecord pile.now.grid (height_of pile.now) r) }
    ensures kept { IfOk result (λ r. r.lost + sum r.pile.heights ≡ sum pile.now.heights) }
    ensures half { IfOk result (λ r. 2 * r.topplings ≤ weight pile.now.grid (height_of pile.now)) }
    ensures bound { IfOk result (λ r. r.topplings < 2 ^ 54) }
{
    if pile.is_stable() {
        return Ok(Settled::of_stable(alloc, pile)?);
    }
    let rest = settle_by_any(alloc, pile)?;
    Ok(record_of(pile, rest))
}
