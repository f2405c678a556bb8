//! The pile of a spanning tree, and the tree of a recurrent pile.

ghost use Rattle.std.specs.Prelude.{◌≡◌, ◌<◌, ◌≤◌, ℕ, All, length, slice_index, IfOk, IfSome, IsTrue, MatchOption};
ghost use Rattle.sand_model.specs.Grid.{IsGrid, is_inner, sites};
ghost use Rattle.sand_model.specs.Piles.{height_of};
ghost use Rattle.sand_group.specs.BurningTimes.{AreBurningTimes};
ghost use Rattle.sand_trees.specs.Trees.{IsTree, IsPileOfTree, direction_of, depth_of};
ghost use Rattle.sand_trees.specs.Depths.{AreHeightsBefore, AreLayers};

use crate::around::{count_below, depths_around, depths_at_edge, height_among, pick};
use crate::tree::Tree;
use sand_group::{Recurrent, burning_times};
use sand_model::{Lattice, Pile, Shape};
use std::alloc::{AllocError, Global};

// Writes the heights of the sites from one on to another, by these directions and depths.
fn write_some(
    shape: Shape,
    directions: &[u8],
    depths: &[u32],
    heights: &mut [u32],
    from: usize,
    to: usize,
)
    requires before { AreHeightsBefore from shape directions.now depths.now heights.old }
    requires inside { to ≤ sites shape }
    ensures { AreHeightsBefore to shape directions.now depths.now heights.new }
{
    for site in from..to {
        let around = depths_at_edge(shape, depths, site);
        heights[site] = height_among(&around, depths[site], directions[site]);
    }
}

// The same of inner sites.
fn write_inner(
    shape: Shape,
    directions: &[u8],
    depths: &[u32],
    heights: &mut [u32],
    from: usize,
    to: usize,
)
    requires before { AreHeightsBefore from shape directions.now depths.now heights.old }
    requires inside { to ≤ sites shape }
    requires inner { (k : ℕ) → from ≤ k → k < to → IsTrue (is_inner shape k) }
    ensures { AreHeightsBefore to shape directions.now depths.now heights.new }
{
    let width = shape.width();
    for site in from..to {
        let around = [
            depths[site - width],
            depths[site - 1],
            depths[site + 1],
            depths[site + width],
        ];
        heights[site] = height_among(&around, depths[site], directions[site]);
    }
}

// Writes the heights of all sites. Most of them are inner, one after another in a row: then there is no branch at all.
fn write_heights(shape: Shape, directions: &[u8], depths: &[u32], heights: &mut [u32])
    requires directions { length directions.now ≡ sites shape }
    requires depths { length depths.now ≡ sites shape }
    requires heights { length heights.old ≡ sites shape }
    ensures { AreHeightsBefore (sites shape) shape directions.now depths.now heights.new }
{
    let width = shape.width();
    let mut done = 0;
    for row in 1..shape.height() - 1 {
        let first = row * width;
        write_some(shape, directions, depths, heights, done, first + 1);
        done = first + width - 1;
        write_inner(shape, directions, depths, heights, first + 1, done);
    }
    write_some(shape, directions, depths, heights, done, shape.sites());
}

// The directions that give a pile its heights, for its burning times.
fn directions_of(
    alloc: Global,
    lattice: &Lattice,
    heights: &[u64],
    depths: &[u32],
) -> Result<Vec<u8>, AllocError>
    requires heights { length heights.now ≡ sites lattice.now }
    requires depths { length depths.now ≡ sites lattice.now }
    requires low { All (λ h. h ≤ 3) heights.now }
    requires layers { AreLayers lattice.now (slice_index heights.now) (slice_index depths.now) }
    ensures len { IfOk result (λ v. length v.items ≡ sites lattice.now) }
    ensures tree { IfOk result (λ v. IsTree lattice.now (slice_index v.items) (slice_index depths.now)) }
    ensures pile { IfOk result (λ v. IsPileOfTree lattice.now (slice_index v.items) (slice_index depths.now)
        (slice_index heights.now)) }
    ensures sides { IsGrid lattice.now }
{
    let sites = lattice.shape().sites();
    let mut directions = Vec::with_capacity(alloc, sites)?;
    for site in 0..sites {
        let around = depths_around(lattice, depths, site);
        let below = count_below(&around, depths[site]);
        directions.push(pick(
            &around,
            depths[site] - 1,
            heights[site] + u64::from(below) - 4,
        ))?;
    }
    Ok(directions)
}

// The same numbers in 64 bits. Heights are first written in 32, as depths are, so that more of them fit in a vector.
fn widened(alloc: Global, numbers: &[u32]) -> Result<Vec<u64>, AllocError>
    ensures { IfOk result (λ v. v.items ≡ numbers.now) }
{
    let mut wide = Vec::with_capacity(alloc, numbers.len())?;
    for number in numbers {
        wide.push_reserved(u64::from(*number));
    }
    Ok(wide)
}

/// The pile of these directions and depths, or None if they are no tree. Fails only if an allocation fails.
pub(crate) fn pile_on(
    alloc: Global,
    shape: Shape,
    directions: &[u8],
    depths: &[u32],
) -> Result<Option<Recurrent>, AllocError>
    requires directions { length directions.now ≡ sites shape }
    requires depths { length depths.now ≡ sites shape }
    ensures grid { IfOk result (λ o. IfSome o (λ c. c.grid ≡ shape)) }
    ensures pile { IfOk result (λ o. MatchOption o
        (¬ IsTree shape (slice_index directions.now) (slice_index depths.now))
        (λ c. IsPileOfTree shape (slice_index directions.now) (slice_index depths.now) (height_of c))) }
{
    let mut heights = vec![in alloc; 0u32; shape.sites()]?;
    write_heights(shape, directions, depths, &mut heights);
    let pile = Pile::from_vec(shape, widened(alloc, &heights)?);
    if !pile.is_stable() {
        return Ok(None);
    }
    Ok(Some(Recurrent::known(pile)))
}

/// The pile of a tree, in time proportional to the number of sites. Fails only if an allocation fails.
pub fn pile_of_tree(alloc: Global, tree: &Tree) -> Result<Recurrent, AllocError>
    ensures grid { IfOk result (λ c. c.grid ≡ tree.now.grid) }
    ensures pile { IfOk result
        (λ c. IsPileOfTree tree.now.grid (direction_of tree.now) (depth_of tree.now) (height_of c)) }
{
    match pile_on(alloc, tree.shape(), tree.directions(), tree.depths())? {
        Some(recurrent) => Ok(recurrent),
        None => unreachable!(),
    }
}

/// The tree of a recurrent pile, in time proportional to the number of sites: that with this pile. Fails only if an
/// allocation fails.
pub fn tree_of_pile(alloc: Global, recurrent: &Recurrent) -> Result<Tree, AllocError>
    ensures grid { IfOk result (λ t. t.grid ≡ recurrent.now.grid) }
    ensures pile { IfOk result
        (λ t. IsPileOfTree recurrent.now.grid (direction_of t) (depth_of t) (height_of recurrent.now)) }
    ensures times { IfOk result (λ t. AreBurningTimes recurrent.now.grid (height_of recurrent.now) (depth_of t)) }
{
    let pile = recurrent.pile();
    let lattice = Lattice::new(alloc, pile.shape())?;
    let heights = pile.heights();
    // A stable pile has burning times, so only an allocation can fail.
    let Ok(depths) = burning_times(alloc, pile) else {
        return Err(AllocError);
    };
    let directions = directions_of(alloc, &lattice, heights, &depths)?;
    Ok(Tree::of_parts(pile.shape(), directions, depths))
}
