//! A spanning tree of a grid, rooted at the sink.

ghost use Rattle.std.specs.Prelude.{◌≡◌, ◌≢◌, ◌↔◌, ◌⊎◌, length, slice_index, IfOk, IfErr, OnOk, alloc_error};
ghost use Rattle.sand_model.specs.Grid.{sites};
ghost use Rattle.sand_trees.specs.Trees.{IsTreeView, IsSpanningTree};

use crate::depth_search::depths_of;
use crate::faults::TreeFault;
use sand_model::{Lattice, Shape};
use std::alloc::Global;
use std::marker::Model;

/// A spanning tree: a direction for each site, over which it reaches the sink. A direction is a byte, the place of the
/// neighbour in what `Lattice::neighbours` returns: 0 north, 1 west, 2 east, 3 south. It may lead out of the grid, into the
/// sink.
#[derive(Debug, Drop)]
pub struct Tree {
    shape: Shape,
    directions: Vec<u8>,
    depths: Vec<u32>,
}

impl Model for Tree {
    ghost use Rattle.sand_trees.specs.Trees.{TreeView, IsTreeView};

    ghost Value = { TreeView };

    ghost view = { λ t. record { grid = t.shape; directions = t.directions.items; depths = t.depths.items } };

    ghost invariant = { λ t.
        IsTreeView (record { grid = t.shape; directions = t.directions.items; depths = t.depths.items }) };
}

impl Tree {
    /// The tree with these directions, by site, in time proportional to the number of sites. Returns Length unless there
    /// is one direction for each site, NotTree if a direction is over 3 or the directions lead around a cycle, and Memory if
    /// an allocation fails.
    pub fn from_directions(
        alloc: Global,
        shape: Shape,
        directions: &[u8],
    ) -> Result<Tree, TreeFault>
        ensures grid { IfOk result (λ t. t.grid ≡ shape) }
        ensures made { IfOk result (λ t. t.directions ≡ directions.now) }
        ensures tree { OnOk result (IsSpanningTree shape (slice_index directions.now)) }
        ensures length { (result ≡ Err TreeFault.Length) ↔ (length directions.now ≢ sites shape) }
        ensures not_tree { result ≡ Err TreeFault.NotTree → ¬ IsSpanningTree shape (slice_index directions.now) }
        ensures faults { length directions.now ≡ sites shape
            → IfErr result (λ e. (e ≡ TreeFault.NotTree) ⊎ (e ≡ TreeFault.Memory alloc_error)) }
    {
        if directions.len() != shape.sites() {
            return Err(TreeFault::Length);
        }
        if !directions.iter().all(|direction| *direction < 4) {
            return Err(TreeFault::NotTree);
        }
        let lattice = Lattice::new(alloc, shape)?;
        let Some(depths) = depths_of(alloc, &lattice, directions)? else {
            return Err(TreeFault::NotTree);
        };
        let directions = Vec::from_slice(alloc, directions)?;
        Ok(Tree {
            shape,
            directions,
            depths,
        })
    }

    // The tree of these parts.
    pub(crate) fn of_parts(shape: Shape, directions: Vec<u8>, depths: Vec<u32>) -> Tree
        requires { IsTreeView (record { grid = shape; directions = directions.items; depths = depths.items }) }
        ensures { result ≡ record { grid = shape; directions = directions.items; depths = depths.items } }
    {
        Tree {
            shape,
            directions,
            depths,
        }
    }

    pub fn shape(&self) -> Shape
        ensures value { result ≡ self.now.grid }
        ensures tree { IsTreeView self.now }
    {
        self.shape
    }

    /// By site, the direction of the edge that leads to the sink.
    pub fn directions(&self) -> &[u8]
        ensures value { result.now ≡ self.now.directions }
        ensures tree { IsTreeView self.now }
    {
        self.directions.as_slice()
    }

    /// By site, the number of edges to the sink, from 1 on.
    pub fn depths(&self) -> &[u32]
        ensures value { result.now ≡ self.now.depths }
        ensures tree { IsTreeView self.now }
    {
        self.depths.as_slice()
    }
}
