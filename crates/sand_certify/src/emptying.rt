//! The pile that claimed counts of topplings empty: e = Lu.
//!
//! Toppling each site u times takes e to s - Lu = 0. So e is equivalent to the empty pile, wherever the counts came
//! from. It takes one pass over the grid.

ghost use Rattle.std.specs.Prelude.{◌≡◌, ℕ, ◌*◌, ◌^◌, ◌<◌, ◌≤◌, ◌↔◌, length, slice_index, IfOk, IfSome, IsSome, MatchOption, All};
ghost use Rattle.sand_model.specs.Grid.{sites};
ghost use Rattle.sand_model.specs.Sand.{IsToppled};
ghost use Rattle.sand_certify.specs.Emptying.{IsLowAt, IsLow, IsEmptying, IsEmptiedAt};

use crate::certificate::{are_few, inflow};
use sand_model::{Lattice, Shape};
use std::alloc::{AllocError, Global};

// The height that the counts take to 0 at a site, if it is from 0 to 3.
#[inline(always)]
fn height_emptied(lattice: &Lattice, counts: &[u64], site: usize) -> Option<u64>
    requires len { length counts.now ≡ sites lattice.now }
    requires site { site < sites lattice.now }
    requires bound { (j : ℕ) → slice_index counts.now j < 2 ^ 54 }
    ensures { MatchOption result
        (¬ IsLowAt lattice.now (slice_index counts.now) site)
        (λ height. IsEmptiedAt lattice.now (slice_index counts.now) site height) }
{
    let given = inflow(lattice, counts, site);
    let taken = 4 * counts[site];
    if taken < given || taken - given > 3 {
        return None;
    }
    Some(taken - given)
}

fn heights_emptied(
    alloc: Global,
    lattice: &Lattice,
    counts: &[u64],
) -> Result<Option<Vec<u64>>, AllocError>
    requires len { length counts.now ≡ sites lattice.now }
    requires bound { (j : ℕ) → slice_index counts.now j < 2 ^ 54 }
    ensures exactly { IfOk result (λ o. IsSome o ↔ IsLow lattice.now (slice_index counts.now)) }
    ensures len { IfOk result (λ o. IfSome o (λ heights. length heights.items ≡ sites lattice.now)) }
    ensures low { IfOk result (λ o. IfSome o (λ heights. All (λ h. h ≤ 3) heights.items)) }
    ensures emptied { IfOk result (λ o. IfSome o (λ heights.
        IsToppled lattice.now (slice_index heights.items) (slice_index counts.now) (λ _. 0))) }
{
    let sites = lattice.shape().sites();
    let mut heights = Vec::with_capacity(alloc, sites)?;
    for site in 0..sites {
        let Some(height) = height_emptied(lattice, counts, site) else {
            return Ok(None);
        };
        heights.push_reserved(height);
    }
    Ok(Some(heights))
}

/// The heights of the stable pile that is empty once each site has toppled as often as `counts` says. Returns None if
/// there is no such pile or a count is 2^54 or more, and an error if an allocation fails.
pub fn emptied(alloc: Global, shape: Shape, counts: &[u64]) -> Result<Option<Vec<u64>>, AllocError>
    ensures exactly { IfOk result (λ o. IsSome o ↔ IsEmptying shape counts.now) }
    ensures len { IfOk result (λ o. IfSome o (λ heights. length heights.items ≡ sites shape)) }
    ensures low { IfOk result (λ o. IfSome o (λ heights. All (λ h. h ≤ 3) heights.items)) }
    ensures emptied { IfOk result (λ o. IfSome o (λ heights.
        IsToppled shape (slice_index heights.items) (slice_index counts.now) (λ _. 0))) }
{
    if counts.len() != shape.sites() || !are_few(counts) {
        return Ok(None);
    }
    let lattice = Lattice::new(alloc, shape)?;
    heights_emptied(alloc, &lattice, counts)
}
