//! The meaning of a call's arguments.

ghost use Rattle.std.specs.Prelude.{◌≡◌, ◌≢◌, ◌<◌, ◌≤◌, Ok, Err, OnOk, IfOk, IfErr, IfSome, IfNone, length, sum};
ghost use Rattle.sand_model.specs.Piles.{most_grains_on};
ghost use Rattle.sand_model.specs.Grid.{sites};
ghost use Rattle.sand_c.specs.Arguments.{sides_of, edge_of, grid_of, pile_of, pile_with, Fails};

use crate::faults::Fault;
use sand_model::{Edge, Pile, PileFault, Shape, ShapeFault};
use std::alloc::Global;

/// The sides and the edge of a grid, as a caller gives them.
#[derive(Clone, Copy)]
pub(crate) struct Sides {
    pub(crate) width: usize,
    pub(crate) height: usize,
    pub(crate) cylinder: bool,
}

pub(crate) fn sides_of(width: usize, height: usize, cylinder: bool) -> Sides
    ensures { result ≡ sides_of width height cylinder }
{
    Sides {
        width,
        height,
        cylinder,
    }
}

fn edge_of(cylinder: bool) -> Edge
    ensures { result ≡ edge_of cylinder }
{
    if cylinder { Edge::Cylinder } else { Edge::Open }
}

/// The grid with these sides.
pub(crate) fn grid_of(sides: Sides) -> Result<Shape, Fault>
    ensures { result ≡ grid_of sides }
{
    match Shape::large(sides.width, sides.height, edge_of(sides.cylinder)) {
        Ok(shape) => Ok(shape),
        Err(ShapeFault::Side) => Err(Fault::Side),
        Err(ShapeFault::Narrow) => Err(Fault::Narrow),
    }
}

/// The pile with these heights on the grid with these sides.
pub(crate) fn pile_in(alloc: Global, sides: Sides, heights: &[u64]) -> Result<Pile, Fault>
    ensures made { IfOk result (λ p. pile_of sides heights.now ≡ Ok p) }
    ensures fault { IfErr result (λ e. Fails e (pile_of sides heights.now)) }
{
    let shape = grid_of(sides)?;
    match Pile::new(alloc, shape, heights) {
        Ok(pile) => Ok(pile),
        Err(PileFault::Length) => Err(Fault::Length),
        Err(PileFault::TooManyGrains) => Err(Fault::TooManyGrains),
        Err(PileFault::Memory(_)) => Err(Fault::Memory),
    }
}

/// The sum of the heights, if it is within a limit.
pub(crate) fn grains_of(heights: &[u64], limit: u64) -> Option<u64>
    ensures sum { IfSome result (λ n. n ≡ sum heights.now) }
    ensures within { IfSome result (λ n. n ≤ limit) }
    ensures over { IfNone result (limit < sum heights.now) }
{
    let mut grains: u64 = 0;
    for height in heights {
        if *height > limit - grains {
            return None;
        }
        grains += *height;
    }
    Some(grains)
}

/// The grid in the arguments, if it has as many sites as there are heights, and as there are places, and the sum of the
/// heights is within the limit.
pub(crate) fn grid_for(sides: Sides, heights: &[u64], places: usize) -> Result<Shape, Fault>
    ensures meant { IfOk result (λ g. pile_with sides heights.now places
        ≡ Ok (record { grid = g; heights = heights.now })) }
    ensures len { IfOk result (λ g. length heights.now ≡ sites g) }
    ensures places { IfOk result (λ g. places ≡ sites g) }
    ensures limit { IfOk result (λ g. sum heights.now ≤ most_grains_on g) }
    ensures fault { IfErr result (λ e. pile_with sides heights.now places ≡ Err e) }
    ensures known { IfErr result (λ e. e ≢ Fault.Memory) }
{
    let shape = grid_of(sides)?;
    if heights.len() != shape.sites() || places != shape.sites() {
        return Err(Fault::Length);
    }
    if grains_of(heights, shape.grain_limit()).is_none() {
        return Err(Fault::TooManyGrains);
    }
    Ok(shape)
}
