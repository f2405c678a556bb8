//! The superstable heights of a class.
//!
//! Heights s are superstable if and only if 3 - s is recurrent. So the superstable heights of the class of p are 3 - c,
//! where c is the recurrent pile of the class of 3 - p.

ghost use Rattle.std.specs.Prelude.{◌≡◌, ◌≢◌, ℕ, ◌+◌, ◌<◌, ◌≤◌, ◌↔◌, pos, All, length, slice_index, IfOk};
ghost use Rattle.sand_model.specs.Grid.{sites};
ghost use Rattle.sand_model.specs.Piles.{height_of, most_grains_on};
ghost use Rattle.sand_group.specs.Classes.{integer_at, whole_grains, IsSuperstable, IsSuperstableOf};

use crate::classes::piles_of;
use crate::reaching::reach;
use sand_model::{Pile, PileFault, Shape};
use std::alloc::{AllocError, Global};

fn three_less(alloc: Global, heights: &[u64]) -> Result<Vec<u64>, AllocError>
    requires { All (λ h. h ≤ 3) heights.now }
    ensures len { IfOk result (λ v. length v.items ≡ length heights.now) }
    ensures low { IfOk result (λ v. All (λ h. h ≤ 3) v.items) }
    ensures rests { IfOk result (λ v. (i : ℕ) → i < length heights.now
        → slice_index v.items i + slice_index heights.now i ≡ 3) }
{
    let mut rests = Vec::with_capacity(alloc, heights.len())?;
    for height in heights {
        rests.push(3 - *height)?;
    }
    Ok(rests)
}

/// The superstable pile in the class of these heights, of any sign: it is the same as the heights if and only if they
/// are superstable. Returns Length unless there is one height for each site, TooManyGrains if the absolute values sum to
/// more than the limit, and Memory if an allocation fails.
pub fn superstable(alloc: Global, shape: Shape, heights: &[i64]) -> Result<Pile, PileFault>
    ensures superstable { IfOk result (IsSuperstableOf shape (integer_at heights.now)) }
    ensures itself { IfOk result (λ s. IsSuperstable shape (integer_at heights.now)
        ↔ ((i : ℕ) → i < sites shape → integer_at heights.now i ≡ pos (height_of s i))) }
    ensures length { (result ≡ Err PileFault.Length) ↔ (length heights.now ≢ sites shape) }
    ensures limit { (result ≡ Err PileFault.TooManyGrains)
        ↔ ((length heights.now ≡ sites shape) × (most_grains_on shape < whole_grains heights.now)) }
{
    let (above, below) = piles_of(alloc, shape, heights)?;
    // The recurrent pile of 3 - p.
    let reached = reach(alloc, &below, &above, 3)?;
    let rests = three_less(alloc, reached.last.pile().heights())?;
    Ok(Pile::from_vec(shape, rests))
}
