//! Burning times, and spanning trees with their piles.

use crate::group::recurrent;
use crate::trying::refused;
use sand_group::burning_times;
use sand_model::Shape;
use sand_testing::piles::open_pile;
use sand_trees::{Tree, TreeFault, pile_of_tree, random_recurrent, random_tree, tree_of_pile};
use std::test::Fail;

#[test]
fn burning_times_report_out_of_memory(rt: HostRuntime) -> Result<(), Fail> {
    let pile = open_pile(rt.alloc(), 3, 1, &[0, 1, 1])?;
    refused!(rt, "burning_times", alloc => burning_times(alloc, &pile), times =>
        times.as_slice() == [3, 2, 1].as_slice())
}

// Two sites in a row: the first leads to the second, and that one into the sink. All edges of the first lead below its
// depth, and three of the second: the pile is 0 1.
#[test]
fn trees_report_out_of_memory(rt: HostRuntime) -> Result<(), Fail> {
    let pair = Shape::new(2, 1)?;
    refused!(rt, "Tree::from_directions", alloc => Tree::from_directions(alloc, pair, &[2, 0]), tree =>
        tree.depths() == [2, 1].as_slice())?;
    let pile = recurrent(rt.alloc(), [0, 1])?;
    refused!(rt, "tree_of_pile", alloc => tree_of_pile(alloc, &pile).map_err(TreeFault::Memory), tree =>
        tree.directions() == [2, 0].as_slice())
}

#[test]
fn piles_of_trees_report_out_of_memory(rt: HostRuntime) -> Result<(), Fail> {
    let tree = Tree::from_directions(rt.alloc(), Shape::new(2, 1)?, &[2, 0])?;
    refused!(rt, "pile_of_tree", alloc => pile_of_tree(alloc, &tree).map_err(TreeFault::Memory), pile =>
        pile.pile().heights() == [0, 1].as_slice())
}

// The first pairs of bits of the stream are 2, 3 and 3: the first walk goes east and into the sink, and so does the next one.
// In the pile of that tree the first site is at depth 2, with no other edge before its own to depth 1. The others are at
// depth 1: the second one has a sink before its own, and the third one two.
#[test]
fn random_trees_and_piles_report_out_of_memory(rt: HostRuntime) -> Result<(), Fail> {
    let shape = Shape::new(3, 1)?;
    refused!(rt, "random_tree", alloc => random_tree(alloc, shape, 0, 0).map_err(TreeFault::Memory), tree =>
        tree.directions() == [2, 3, 3].as_slice())?;
    refused!(rt, "random_recurrent", alloc => random_recurrent(alloc, shape, 0, 0).map_err(TreeFault::Memory), pile =>
        pile.pile().heights() == [0, 3, 3].as_slice())
}
