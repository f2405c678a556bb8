//! The recurrent pile of integer heights of any sign, and the firing vector that leads there.
//!
//! A class of integer heights has one recurrent pile c, and one firing vector z leads from the heights p to it: c = p -
//! Lz (Babai and Gorodezky 2007).

ghost use Rattle.std.specs.Prelude.{◌≡◌, ◌≢◌, ℕ, ◌+◌, ◌^◌, ◌*◌, ◌<◌, ◌≤◌, ◌↔◌, ℤ, pos, ◌-ℤ◌, All, length, slice_index, sum, IfOk, IsTrue};
ghost use Rattle.sand_model.specs.Grid.{sites};
ghost use Rattle.sand_model.specs.Piles.{height_of, most_grains_on};
ghost use Rattle.sand_group.specs.Recurrence.{IsRecurrent};
ghost use Rattle.sand_group.specs.Classes.{integer_at, whole_grains, IsFiredToRecurrent};

use crate::group::Recurrent;
use crate::reaching::{Reached, reach};
use sand_model::{Pile, PileFault, Shape};
use std::alloc::{AllocError, Global};

/// A recurrent pile, and how often each site topples on the way to it.
#[derive(Debug, Drop)]
pub struct Fired {
    pub recurrent: Recurrent,
    /// Less than 0 where topplings are taken back.
    pub firing: Vec<i64>,
}

// Whether the absolute values sum to at most a limit.
fn is_within(heights: &[i64], limit: u64) -> bool
    ensures { IsTrue result ↔ (whole_grains heights.now ≤ limit) }
{
    let mut grains: u64 = 0;
    for height in heights {
        let size = height.unsigned_abs();
        if size > limit - grains {
            return false;
        }
        grains += size;
    }
    true
}

// The heights above 0, and those below 0 without their sign; 0 at every other site.
fn parts_of(alloc: Global, heights: &[i64]) -> Result<(Vec<u64>, Vec<u64>), AllocError>
    ensures above_each { IfOk result (λ v. length v.0.items ≡ length heights.now) }
    ensures below_each { IfOk result (λ v. length v.1.items ≡ length heights.now) }
    ensures difference { IfOk result (λ v. (i : ℕ) → i < length heights.now
        → integer_at heights.now i ≡ pos (slice_index v.0.items i) -ℤ pos (slice_index v.1.items i)) }
    ensures grains { IfOk result (λ v. sum v.0.items + sum v.1.items ≡ whole_grains heights.now) }
{
    let mut above = Vec::with_capacity(alloc, heights.len())?;
    let mut below = Vec::with_capacity(alloc, heights.len())?;
    for height in heights {
        let size = height.unsigned_abs();
        let debt = if *height < 0 { size } else { 0 };
        above.push(size - debt)?;
        below.push(debt)?;
    }
    Ok((above, below))
}

/// Two piles: the heights above 0, and those below 0 without their sign. Returns Length unless there is one height for
/// each site, TooManyGrains if the absolute values sum to more than the limit, and Memory if an allocation fails.
pub(crate) fn piles_of(
    alloc: Global,
    shape: Shape,
    heights: &[i64],
) -> Result<(Pile, Pile), PileFault>
    ensures above_grid { IfOk result (λ p. p.0.grid ≡ shape) }
    ensures below_grid { IfOk result (λ p. p.1.grid ≡ shape) }
    ensures difference { IfOk result (λ p. (i : ℕ) → i < sites shape
        → integer_at heights.now i ≡ pos (height_of p.0 i) -ℤ pos (height_of p.1 i)) }
    ensures length { (result ≡ Err PileFault.Length) ↔ (length heights.now ≢ sites shape) }
    ensures limit { (result ≡ Err PileFault.TooManyGrains)
        ↔ ((length heights.now ≡ sites shape) × (most_grains_on shape < whole_grains heights.now)) }
{
    if heights.len() != shape.sites() {
        return Err(PileFault::Length);
    }
    if !is_within(heights, shape.grain_limit()) {
        return Err(PileFault::TooManyGrains);
    }
    let (above, below) = parts_of(alloc, heights)?;
    Ok((Pile::from_vec(shape, above), Pile::from_vec(shape, below)))
}

// up + last - down - 2 * full, at each site.
fn net_topplings(
    alloc: Global,
    up: &[u64],
    last: &[u64],
    down: &[u64],
    full: &[u64],
) -> Result<Vec<i64>, AllocError>
    requires last { length last.now ≡ length up.now }
    requires down { length down.now ≡ length up.now }
    requires full { length full.now ≡ length up.now }
    requires few_up { All (λ n. n < 2 ^ 54) up.now }
    requires few_last { All (λ n. n < 2 ^ 54) last.now }
    requires few_down { All (λ n. n < 2 ^ 54) down.now }
    requires few_full { All (λ n. n < 2 ^ 54) full.now }
    ensures len { IfOk result (λ v. length v.items ≡ length up.now) }
    ensures each { IfOk result (λ v. (i : ℕ) → i < length up.now
        → integer_at v.items i ≡ pos (slice_index up.now i + slice_index last.now i)
        -ℤ pos (slice_index down.now i + 2 * slice_index full.now i)) }
{
    let mut firing = Vec::with_capacity(alloc, up.len())?;
    for (site, count) in up.iter().enumerate() {
        let forwards = *count + last[site];
        let backwards = down[site] + 2 * full[site];
        firing.push(forwards as i64 - backwards as i64)?;
    }
    Ok(firing)
}

/// The recurrent pile of the class of these heights, of any sign, and the firing vector that leads there: how often each
/// site topples, less than 0 where topplings are taken back. Returns Length unless there is one height for each site,
/// TooManyGrains if the absolute values sum to more than the limit, and Memory if an allocation fails.
pub fn recurrent_by_firing(alloc: Global, shape: Shape, heights: &[i64]) -> Result<Fired, PileFault>
    ensures fired { IfOk result
        (λ f. IsFiredToRecurrent shape (integer_at heights.now) f.recurrent f.firing.items) }
    ensures itself { IfOk result (λ f. (c : ℕ → ℕ) → IsRecurrent shape c
        → ((i : ℕ) → i < sites shape → integer_at heights.now i ≡ pos (c i))
        → (i : ℕ) → i < sites shape → (height_of f.recurrent i ≡ c i) × (integer_at f.firing.items i ≡ pos 0)) }
    ensures length { (result ≡ Err PileFault.Length) ↔ (length heights.now ≢ sites shape) }
    ensures limit { (result ≡ Err PileFault.TooManyGrains)
        ↔ ((length heights.now ≡ sites shape) × (most_grains_on shape < whole_grains heights.now)) }
{
    let (above, below) = piles_of(alloc, shape, heights)?;
    let Reached {
        plus,
        minus,
        full,
        last,
    } = reach(alloc, &above, &below, 0)?;
    let firing = net_topplings(
        alloc,
        plus.odometers(),
        last.odometers(),
        minus.odometers(),
        full.odometers(),
    )?;
    Ok(Fired {
        recurrent: Recurrent {
            pile: last.into_pile(),
        },
        firing,
    })
}
