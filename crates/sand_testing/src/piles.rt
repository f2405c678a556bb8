//! Piles of a few sites.

use sand_model::{Edge, Pile, Shape};
use std::alloc::Global;
use std::test::Fail;

/// A pile on a grid with this edge.
pub fn pile_on(
    alloc: Global,
    width: usize,
    height: usize,
    edge: Edge,
    heights: &[u64],
) -> Result<Pile, Fail> {
    let shape = Shape::with_edge(width, height, edge)?;
    let pile = Pile::new(alloc, shape, heights)?;
    Ok(pile)
}

/// A pile on a grid with open edges.
pub fn open_pile(
    alloc: Global,
    width: usize,
    height: usize,
    heights: &[u64],
) -> Result<Pile, Fail> {
    pile_on(alloc, width, height, Edge::Open, heights)
}

/// A pile of one site.
pub fn one_site(alloc: Global, height: u64) -> Result<Pile, Fail> {
    open_pile(alloc, 1, 1, &[height])
}
