//! The group of recurrent piles (Dhar 1990): to add two, put their grains together and settle.
//!
//! Let m be the pile of all 3. Then d = 2m - settled(2m) is equivalent to all 0, and at least 3 at each site, since a
//! settled pile is at most 3. A pile of at least 3 at each site settles to a recurrent pile. So settled(d) is the
//! recurrent pile equivalent to all 0 (Holroyd et al. 2008), and settled(2d - c) the one equivalent to -c.
//!
//! A sum settles one pile, an inverse two, and the identity two unless a guess of it is right. The space is
//! proportional to the number of sites.

ghost use Rattle.std.specs.Prelude.{◌≡◌, ◌≢◌, ℕ, ◌+◌, ◌-◌, ◌*◌, ◌<◌, ◌≤◌, ◌↔◌, ◌⊎◌, All, length, slice_index, sum, IfOk, IfErr, IsOkUnless, OnOk, alloc_error};
ghost use Rattle.sand_model.specs.Grid.{sites};
ghost use Rattle.sand_model.specs.Sand.{IsStable, one_at};
ghost use Rattle.sand_model.specs.Piles.{height_of};
ghost use Rattle.sand_group.specs.Recurrence.{IsRecurrent};
ghost use Rattle.sand_group.specs.Group.{SettlesTo, IsSurplus, IsSum, IsIdentity, IsInverse};

use crate::burning::{Burned, burn};
use crate::faults::GroupFault;
use crate::neutral::shown_identity;
use sand_model::{Pile, PileFault, Shape};
use sand_settle::settle;
use std::alloc::{AllocError, Global};
use std::marker::Model;

/// A recurrent pile: it is stable, and no set of its sites is forbidden.
#[derive(Debug, Drop)]
pub struct Recurrent {
    pub(crate) pile: Pile,
}

impl Model for Recurrent {
    ghost use Rattle.sand_model.specs.Piles.{PileView, height_of};
    ghost use Rattle.sand_group.specs.Recurrence.{IsRecurrent};

    ghost Value = { PileView };

    ghost view = { λ c. c.pile };

    ghost invariant = { λ c. IsRecurrent c.pile.grid (height_of c.pile) };
}

impl Recurrent {
    /// A pile that is known to be recurrent. Burns and copies nothing.
    pub fn known(pile: Pile) -> Recurrent
        requires { IsRecurrent pile.grid (height_of pile) }
        ensures { result ≡ pile }
    {
        Recurrent { pile }
    }

    /// A recurrent pile with the same heights. Returns Unstable if a height is over 3, NotRecurrent if a set is
    /// forbidden, and Memory if an allocation fails.
    pub fn from_pile(alloc: Global, pile: &Pile) -> Result<Recurrent, GroupFault>
        ensures made { IfOk result (λ c. c ≡ pile.now) }
        ensures recurrent { OnOk result (IsRecurrent pile.now.grid (height_of pile.now)) }
        ensures unstable { (result ≡ Err GroupFault.Unstable) ↔ ¬ IsStable pile.now.grid (height_of pile.now) }
        ensures not_recurrent { result ≡ Err GroupFault.NotRecurrent
            → ¬ IsRecurrent pile.now.grid (height_of pile.now) }
        ensures faults { IsStable pile.now.grid (height_of pile.now)
            → IfErr result (λ e. (e ≡ GroupFault.NotRecurrent) ⊎ (e ≡ GroupFault.Memory alloc_error)) }
    {
        if let Burned::Forbidden(_) = burn(alloc, pile)? {
            return Err(GroupFault::NotRecurrent);
        }
        match pile.copy(alloc) {
            Ok(pile) => Ok(Recurrent { pile }),
            // A copy fails only if an allocation does.
            Err(_) => Err(GroupFault::Memory(AllocError)),
        }
    }

    /// The same pile. Fails only if an allocation fails (Memory).
    pub fn copy(&self, alloc: Global) -> Result<Recurrent, GroupFault>
        ensures same { IfOk result (λ c. c ≡ self.now) }
        ensures memory { IsOkUnless result (GroupFault.Memory alloc_error) }
    {
        match self.pile.copy(alloc) {
            Ok(pile) => Ok(Recurrent { pile }),
            Err(_) => Err(GroupFault::Memory(AllocError)),
        }
    }

    pub fn pile(&self) -> &Pile
        ensures value { result.now ≡ self.now }
        ensures recurrent { IsRecurrent self.now.grid (height_of self.now) }
    {
        &self.pile
    }
}

pub(crate) fn settled(alloc: Global, shape: Shape, heights: Vec<u64>) -> Result<Pile, GroupFault>
    requires len { length heights.items ≡ sites shape }
    requires low { All (λ h. h ≤ 12) heights.items }
    ensures settled { IfOk result (SettlesTo shape (slice_index heights.items)) }
    ensures memory { IsOkUnless result (GroupFault.Memory alloc_error) }
{
    prove_eq!(heights.len(), shape.sites());
    let settled = settle(alloc, &Pile::from_vec(shape, heights))?;
    Ok(settled.into_pile())
}

// The settled pile of two stable piles together.
pub(crate) fn settled_together(alloc: Global, a: &Pile, b: &Pile) -> Result<Pile, GroupFault>
    requires one_grid { b.now.grid ≡ a.now.grid }
    requires low_a { IsStable a.now.grid (height_of a.now) }
    requires low_b { IsStable b.now.grid (height_of b.now) }
    ensures settled { IfOk result (SettlesTo a.now.grid (λ i. height_of a.now i + height_of b.now i)) }
    ensures memory { IsOkUnless result (GroupFault.Memory alloc_error) }
{
    // For the proof: each pile has a height for each site, and is within the limit.
    let _ = (a.grains(), b.grains());
    let both = match a.plus(alloc, b) {
        Ok(both) => both,
        Err(PileFault::Memory(error)) => return Err(GroupFault::Memory(error)),
        Err(PileFault::TooManyGrains) => unreachable!(),
        Err(PileFault::Length) => unreachable!(),
    };
    Ok(settle(alloc, &both)?.into_pile())
}

fn six_less(alloc: Global, heights: &[u64]) -> Result<Vec<u64>, AllocError>
    requires { All (λ h. h ≤ 3) heights.now }
    ensures len { IfOk result (λ v. length v.items ≡ length heights.now) }
    ensures rests { IfOk result (λ v. (i : ℕ) → i < length heights.now
        → slice_index v.items i + slice_index heights.now i ≡ 6) }
{
    let mut rests = Vec::with_capacity(alloc, heights.len())?;
    for height in heights {
        rests.push(6 - *height)?;
    }
    Ok(rests)
}

fn twice_less(alloc: Global, twice: &[u64], less: &[u64]) -> Result<Vec<u64>, AllocError>
    requires same_length { length less.now ≡ length twice.now }
    requires high { All (λ h. 3 ≤ h) twice.now }
    requires most { All (λ h. h ≤ 6) twice.now }
    requires low { All (λ h. h ≤ 3) less.now }
    ensures len { IfOk result (λ v. length v.items ≡ length less.now) }
    ensures differences { IfOk result (λ v. (i : ℕ) → i < length less.now
        → slice_index v.items i ≡ 2 * slice_index twice.now i - slice_index less.now i) }
{
    let mut differences = Vec::with_capacity(alloc, less.len())?;
    for (site, height) in less.iter().enumerate() {
        // At least 2 * 3 - 3, so never negative.
        differences.push(2 * twice[site] - *height)?;
    }
    Ok(differences)
}

// d = 2m - settled(2m), m the pile of all 3.
fn surplus(alloc: Global, shape: Shape) -> Result<Vec<u64>, GroupFault>
    ensures len { IfOk result (λ v. length v.items ≡ sites shape) }
    ensures surplus { IfOk result (λ v. IsSurplus shape (slice_index v.items)) }
    ensures memory { IsOkUnless result (GroupFault.Memory alloc_error) }
{
    let twice = vec![in alloc; 6u64; shape.sites()]?;
    let rest = settled(alloc, shape, twice)?;
    Ok(six_less(alloc, rest.heights())?)
}

/// The sum of two recurrent piles: their grains together, settled. Returns Shapes if their shapes differ, and Memory if
/// an allocation fails.
pub fn add(alloc: Global, a: &Recurrent, b: &Recurrent) -> Result<Recurrent, GroupFault>
    ensures shapes { (result ≡ Err GroupFault.Shapes) ↔ (a.now.grid ≢ b.now.grid) }
    ensures one_shape { OnOk result (a.now.grid ≡ b.now.grid) }
    ensures memory { a.now.grid ≡ b.now.grid → IsOkUnless result (GroupFault.Memory alloc_error) }
    ensures settled { IfOk result (SettlesTo a.now.grid (λ i. height_of a.now i + height_of b.now i)) }
    ensures sum { IfOk result (λ c. IsSum a.now.grid (height_of a.now) (height_of b.now) (height_of c)) }
{
    if a.pile.shape() != b.pile.shape() {
        return Err(GroupFault::Shapes);
    }
    Ok(Recurrent {
        pile: settled_together(alloc, &a.pile, &b.pile)?,
    })
}

// The identity by two settlings: of 2m, and of d.
fn settled_identity(alloc: Global, shape: Shape) -> Result<Recurrent, GroupFault>
    ensures memory { IsOkUnless result (GroupFault.Memory alloc_error) }
    ensures settled { IfOk result (λ e. (d : ℕ → ℕ) × IsSurplus shape d × SettlesTo shape d e) }
    ensures identity { IfOk result (λ e. IsIdentity shape (height_of e)) }
{
    let heights = surplus(alloc, shape)?;
    Ok(Recurrent {
        pile: settled(alloc, shape, heights)?,
    })
}

/// The identity of the group of a shape: settled(d), from a guess if one is shown to be right. Fails only if an
/// allocation fails (Memory).
pub fn identity(alloc: Global, shape: Shape) -> Result<Recurrent, GroupFault>
    ensures memory { IsOkUnless result (GroupFault.Memory alloc_error) }
    ensures settled { IfOk result (λ e. (d : ℕ → ℕ) × IsSurplus shape d × SettlesTo shape d e) }
    ensures identity { IfOk result (λ e. IsIdentity shape (height_of e)) }
{
    match shown_identity(alloc, shape)? {
        Some(pile) => Ok(Recurrent { pile }),
        None => settled_identity(alloc, shape),
    }
}

/// The inverse of a recurrent pile: settled(2d - c). Fails only if an allocation fails (Memory).
pub fn inverse(alloc: Global, c: &Recurrent) -> Result<Recurrent, GroupFault>
    ensures memory { IsOkUnless result (GroupFault.Memory alloc_error) }
    ensures settled { IfOk result (λ v. (d : ℕ → ℕ) × IsSurplus c.now.grid d
        × SettlesTo c.now.grid (λ i. 2 * d i - height_of c.now i) v) }
    ensures inverse { IfOk result (λ v. IsInverse c.now.grid (height_of c.now) (height_of v)) }
{
    let shape = c.pile.shape();
    let surplus = surplus(alloc, shape)?;
    let heights = twice_less(alloc, &surplus, c.pile.heights())?;
    Ok(Recurrent {
        pile: settled(alloc, shape, heights)?,
    })
}

/// A recurrent pile with one more grain at a site, settled. Fails only if an allocation fails (Memory).
pub fn act(alloc: Global, c: &Recurrent, site: usize) -> Result<Recurrent, GroupFault>
    requires { site < sites c.now.grid }
    ensures memory { IsOkUnless result (GroupFault.Memory alloc_error) }
    ensures settled { IfOk result (SettlesTo c.now.grid (λ i. height_of c.now i + one_at site i)) }
    ensures recurrent { IfOk result (λ t. IsRecurrent t.grid (height_of t)) }
{
    let shape = c.pile.shape();
    let mut heights = Vec::from_slice(alloc, c.pile.heights())?;
    heights[site] += 1;
    Ok(Recurrent {
        pile: settled(alloc, shape, heights)?,
    })
}
