//! From heights p and q to the recurrent pile of p - q, or of p - q and as many more grains at each site.
//!
//! Let d = 6 - settled(6): it is equivalent to all 0, and at least 3 at each site. Then settled(p) + 2d - settled(q) is
//! equivalent to p - q, and it is at least 3 at each site, since a settled pile is at most 3. So it settles to the
//! recurrent pile. Four settlings, and their odometers make the firing vector.

ghost use Rattle.std.specs.Prelude.{◌≡◌, ℕ, ◌+◌, ◌*◌, ◌<◌, ◌≤◌, All, length, slice_index, IfOk};
ghost use Rattle.sand_model.specs.Piles.{height_of};
ghost use Rattle.sand_group.specs.Reaching.{IsShortRecord, IsReached};

use sand_model::{Pile, Shape};
use sand_settle::{SettleFault, Settled, settle};
use std::alloc::{AllocError, Global};

/// The settled records on the way to a recurrent pile.
#[derive(Drop)]
pub(crate) struct Reached {
    /// Of p.
    pub(crate) plus: Settled,
    /// Of q.
    pub(crate) minus: Settled,
    /// Of 6 at each site.
    pub(crate) full: Settled,
    /// Of settled(p) + 2d - settled(q), and the lift: its pile is the recurrent one.
    pub(crate) last: Settled,
}

fn short_record(alloc: Global, pile: &Pile) -> Result<Settled, AllocError>
    ensures { IfOk result (IsShortRecord pile.now.grid (height_of pile.now)) }
{
    match settle(alloc, pile) {
        Ok(settled) => Ok(settled),
        Err(SettleFault::Memory(error)) => Err(error),
    }
}

fn full_record(alloc: Global, shape: Shape) -> Result<Settled, AllocError>
    ensures { IfOk result (IsShortRecord shape (λ i. 6)) }
{
    let full = vec![in alloc; 6u64; shape.sites()]?;
    short_record(alloc, &Pile::from_vec(shape, full))
}

// plus - minus + 2 * (6 - full) + lift, at each site.
fn lifted(
    alloc: Global,
    plus: &[u64],
    minus: &[u64],
    full: &[u64],
    lift: u64,
) -> Result<Vec<u64>, AllocError>
    requires minus { length minus.now ≡ length plus.now }
    requires full { length full.now ≡ length plus.now }
    requires low_plus { All (λ h. h ≤ 3) plus.now }
    requires low_minus { All (λ h. h ≤ 3) minus.now }
    requires low_full { All (λ h. h ≤ 3) full.now }
    requires low_lift { lift ≤ 3 }
    ensures len { IfOk result (λ v. length v.items ≡ length plus.now) }
    ensures low { IfOk result (λ v. All (λ h. h ≤ 18) v.items) }
    ensures each { IfOk result (λ v. (i : ℕ) → i < length plus.now
        → slice_index v.items i + slice_index minus.now i + 2 * slice_index full.now i
        ≡ slice_index plus.now i + 12 + lift) }
{
    let mut heights = Vec::with_capacity(alloc, plus.len())?;
    for (site, height) in plus.iter().enumerate() {
        heights.push(*height + 12 + lift - minus[site] - 2 * full[site])?;
    }
    Ok(heights)
}

/// Settles p, q and 6 at each site, and then what is at least 3 at each site and equivalent to p - q + lift.
pub(crate) fn reach(alloc: Global, p: &Pile, q: &Pile, lift: u64) -> Result<Reached, AllocError>
    requires one_grid { q.now.grid ≡ p.now.grid }
    requires low { lift ≤ 3 }
    ensures { IfOk result (IsReached p.now.grid (height_of p.now) (height_of q.now) lift) }
{
    let shape = p.shape();
    let plus = short_record(alloc, p)?;
    let minus = short_record(alloc, q)?;
    let full = full_record(alloc, shape)?;
    let heights = lifted(
        alloc,
        plus.pile().heights(),
        minus.pile().heights(),
        full.pile().heights(),
        lift,
    )?;
    let last = short_record(alloc, &Pile::from_vec(shape, heights))?;
    Ok(Reached {
        plus,
        minus,
        full,
        last,
    })
}
