//! The n-fold sum of a recurrent pile, digit by digit.
//!
//! Let b be the base. If s is the recurrent pile of q * c, and d < b a digit, then b * s + d * c is equivalent to (b * q + d) * c,
//! and it settles to a recurrent pile because s is recurrent. So each digit of n, from the first on, takes one settling.
//!
//! The base is the greatest for which 6 * b grains a site, more than these heights have, are within the limit of a pile. On 256 by
//! 256 it is 2,796,202, so no n has more than three digits. On any grid it is at least 3, and no n has more than 41.

ghost use Rattle.std.specs.Prelude.{◌≡◌, ℕ, ◌+◌, ◌*◌, ◌/◌, ◌^◌, ◌<◌, ◌≤◌, pos, All, IfOk, IsOkUnless, length, slice_index, alloc_error};
ghost use Rattle.sand_model.specs.Grid.{sites};
ghost use Rattle.sand_model.specs.Piles.{height_of, most_grains_on};
ghost use Rattle.sand_group.specs.Group.{IsMultiple, Represents};

use crate::faults::GroupFault;
use crate::group::{Recurrent, identity};
use sand_model::{Pile, Shape};
use sand_settle::settle;
use std::alloc::{AllocError, Global};

// n * a + m * b, at each site.
fn combined(alloc: Global, n: u64, a: &[u64], m: u64, b: &[u64]) -> Result<Vec<u64>, AllocError>
    requires same_length { length b.now ≡ length a.now }
    requires low_a { All (λ h. h ≤ 3) a.now }
    requires low_b { All (λ h. h ≤ 3) b.now }
    requires few { n + m < 2 ^ 40 }
    ensures len { IfOk result (λ v. length v.items ≡ length a.now) }
    ensures low { IfOk result (λ v. All (λ h. h ≤ 3 * (n + m)) v.items) }
    ensures each { IfOk result (λ v. (i : ℕ) → i < length a.now
        → slice_index v.items i ≡ n * slice_index a.now i + m * slice_index b.now i) }
{
    let mut heights = Vec::with_capacity(alloc, a.len())?;
    for (site, height) in a.iter().enumerate() {
        heights.push(n * *height + m * b[site])?;
    }
    Ok(heights)
}

// The n-fold sum of a and the m-fold sum of b together, settled.
fn sum_of_multiples(
    alloc: Global,
    n: u64,
    a: &Recurrent,
    m: u64,
    b: &Recurrent,
) -> Result<Recurrent, GroupFault>
    requires one_grid { b.now.grid ≡ a.now.grid }
    requires some { 0 < n }
    requires few { 3 * (n + m) * sites a.now.grid ≤ most_grains_on a.now.grid }
    ensures memory { IsOkUnless result (GroupFault.Memory alloc_error) }
    ensures grid { IfOk result (λ r. r.grid ≡ a.now.grid) }
    ensures len { IfOk result (λ r. length r.heights ≡ sites a.now.grid) }
    ensures sum { IfOk result (λ r. Represents a.now.grid
        (λ i. pos (n * height_of a.now i + m * height_of b.now i)) (height_of r)) }
{
    let shape = a.pile.shape();
    let heights = combined(alloc, n, a.pile.heights(), m, b.pile.heights())?;
    let settled = settle(alloc, &Pile::from_vec(shape, heights))?;
    Ok(Recurrent {
        pile: settled.into_pile(),
    })
}

fn base_on(shape: Shape) -> u64
    ensures some { 3 ≤ result }
    ensures room { 6 * result * sites shape ≤ most_grains_on shape }
{
    shape.grain_limit() / (6 * shape.sites() as u64)
}

// The greatest power of a base that is at most n.
fn greatest_power(base: u64, n: u64) -> u64
    requires base { 2 ≤ base }
    requires some { 0 < n }
    ensures power { (k : ℕ) × (result ≡ base ^ k) }
    ensures some { 0 < result }
    ensures within { result ≤ n }
    ensures last { n / result < base }
{
    let mut power = 1;
    'powers: while n / power >= base {
        power *= base;
    }
    power
}

/// The n-fold sum of a recurrent pile: the identity if n is 0, and the pile itself if n is 1. Fails only if an
/// allocation fails (Memory).
pub fn multiple(alloc: Global, c: &Recurrent, n: u64) -> Result<Recurrent, GroupFault>
    ensures memory { IsOkUnless result (GroupFault.Memory alloc_error) }
    ensures grid { IfOk result (λ m. m.grid ≡ c.now.grid) }
    ensures len { IfOk result (λ m. length m.heights ≡ sites c.now.grid) }
    ensures multiple { IfOk result (λ m. IsMultiple c.now.grid n (height_of c.now) (height_of m)) }
{
    let shape = c.pile().shape();
    if n == 0 {
        return identity(alloc, shape);
    }
    let base = base_on(shape);
    let mut unit = greatest_power(base, n);
    let mut sum = sum_of_multiples(alloc, n / unit, c, 0, c)?;
    'digits: while unit != 1 {
        unit /= base;
        sum = sum_of_multiples(alloc, base, &sum, n / unit % base, c)?;
    }
    Ok(sum)
}
