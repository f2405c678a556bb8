//! Counters for the grains of a list, by site.

ghost use Rattle.std.specs.Prelude.{◌≡◌, IfOk};

use sand_model::Shape;
use std::alloc::{AllocError, Global};
use std::marker::Model;

/// A counter for each site of a grid. `SharedPile::drop_all` borrows them, so that it allocates nothing.
///
/// All counters are 0 between calls, so one value serves any number of calls, on any piles with this grid.
#[derive(Drop)]
pub struct SiteCounts {
    shape: Shape,
    pub(crate) counts: Vec<u64>,
}

impl Model for SiteCounts {
    ghost use Rattle.std.specs.Prelude.{◌≡◌};
    ghost use Rattle.sand_model.specs.Grid.{Grid, sites};
    ghost use Rattle.sand_shared.specs.Events.{zeros};

    ghost Value = { Grid };

    ghost view = { λ c. c.shape };

    ghost invariant = { λ c. c.counts.items ≡ zeros (sites c.shape) };
}

impl SiteCounts {
    pub fn new(alloc: Global, shape: Shape) -> Result<SiteCounts, AllocError>
        ensures { IfOk result (λ c. c ≡ shape) }
    {
        let counts = vec![in alloc; 0u64; shape.sites()]?;
        Ok(SiteCounts { shape, counts })
    }
}
