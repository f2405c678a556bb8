//! The sites of a stream of drops, with the faults of the laboratory.

ghost use Rattle.std.specs.Prelude.{◌≡◌, IfOk, IsOkUnless, alloc_error};
ghost use Rattle.sand_model.specs.Grid.{sites};
ghost use Rattle.sand_lab.specs.Streams.{stream_sites};

use crate::faults::LabFault;
use sand_model::Shape;
use std::alloc::Global;

/// The first `count` sites of a stream. The only error is Memory.
pub fn sites_of(
    alloc: Global,
    shape: Shape,
    seed: u64,
    stream: u64,
    count: u32,
) -> Result<Vec<usize>, LabFault>
    ensures sites { IfOk result (λ v. v.items ≡ stream_sites (sites shape) seed stream count) }
    ensures memory { IsOkUnless result (LabFault.Memory alloc_error) }
{
    Ok(sand_streams::sites_of(alloc, shape, seed, stream, count)?)
}
