//! The recurrent pile that is equivalent to a pile.
//!
//! A pile and its settled pile are equivalent, and the identity is equivalent to all 0. So the settled pile plus the
//! identity is equivalent to the pile, and it settles to a recurrent pile because the identity is recurrent.

ghost use Rattle.std.specs.Prelude.{◌≡◌, IfOk, IsOkUnless, alloc_error};
ghost use Rattle.sand_model.specs.Piles.{height_of};
ghost use Rattle.sand_group.specs.Recurrence.{IsRecurrent};
ghost use Rattle.sand_group.specs.Group.{IsEquivalentRecurrent};

use crate::faults::GroupFault;
use crate::group::{Recurrent, identity, settled_together};
use sand_model::Pile;
use sand_settle::settle;
use std::alloc::Global;

/// The one recurrent pile that is equivalent to a pile. Fails only if an allocation fails (Memory).
pub fn equivalent_recurrent(alloc: Global, pile: &Pile) -> Result<Recurrent, GroupFault>
    ensures memory { IsOkUnless result (GroupFault.Memory alloc_error) }
    ensures equivalent { IfOk result (λ c. IsEquivalentRecurrent pile.now.grid (height_of pile.now) c) }
    ensures itself { IsRecurrent pile.now.grid (height_of pile.now) → IfOk result (λ c. c ≡ pile.now) }
{
    let start = settle(alloc, pile)?.into_pile();
    let neutral = identity(alloc, pile.shape())?;
    Ok(Recurrent {
        pile: settled_together(alloc, neutral.pile(), &start)?,
    })
}
