//! The identity of the group from a guess, in place of two settlings.
//!
//! A recurrent pile that some topplings empty is equivalent to all 0, so it is the identity, wherever it came from. The
//! topplings are guessed (`sand_guess::guessed_identity`), and nothing is proved of the guess. The pile that they empty
//! is computed (`sand_certify::emptied`) and burnt.

ghost use Rattle.std.specs.Prelude.{◌≡◌, length, IfOk, IfSome, IsOkUnless, alloc_error};
ghost use Rattle.sand_model.specs.Grid.{sites};
ghost use Rattle.sand_model.specs.Piles.{height_of};
ghost use Rattle.sand_group.specs.Group.{IsIdentity};

use crate::burning::{Burned, burn};
use crate::faults::GroupFault;
use sand_certify::emptied;
use sand_guess::guessed_identity;
use sand_model::{Pile, Shape};
use std::alloc::{AllocError, Global};

/// The identity of the group of a shape, if a guess is made and shown to be right. Fails only if an allocation fails
/// (Memory).
pub(crate) fn shown_identity(alloc: Global, shape: Shape) -> Result<Option<Pile>, GroupFault>
    ensures memory { IsOkUnless result (GroupFault.Memory alloc_error) }
    ensures shape { IfOk result (λ o. IfSome o (λ e. e.grid ≡ shape)) }
    ensures len { IfOk result (λ o. IfSome o (λ e. length e.heights ≡ sites shape)) }
    ensures identity { IfOk result (λ o. IfSome o (λ e. IsIdentity shape (height_of e))) }
{
    let Some(counts) = guessed_identity(alloc, shape)? else {
        return Ok(None);
    };
    let Some(heights) = emptied(alloc, shape, &counts)? else {
        return Ok(None);
    };
    prove_eq!(heights.len(), shape.sites());
    let pile = Pile::from_vec(shape, heights);
    match burn(alloc, &pile) {
        Ok(Burned::Recurrent(_)) => Ok(Some(pile)),
        Ok(Burned::Forbidden(_)) => Ok(None),
        // Burning a stable pile fails only if an allocation does.
        Err(_) => Err(GroupFault::Memory(AllocError)),
    }
}
