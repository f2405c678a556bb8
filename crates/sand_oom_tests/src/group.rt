//! The burning test and the group of recurrent piles.

use crate::trying::refused;
use sand_group::{
    Burned, Fired, Recurrent, act, add, burn, equivalent_recurrent, identity, inverse,
    recurrent_by_firing, superstable,
};
use sand_model::Shape;
use sand_testing::piles::open_pile;
use std::alloc::Global;
use std::test::Fail;

/// Two sites with these grains, which are recurrent.
pub fn recurrent(alloc: Global, heights: [u64; 2]) -> Result<Recurrent, Fail> {
    Ok(Recurrent::from_pile(alloc, &open_pile(alloc, 2, 1, &heights)?)?)
}

fn has_heights(recurrent: &Recurrent, heights: &[u64]) -> bool {
    recurrent.pile().heights() == heights
}

fn is_fired(fired: &Fired, heights: &[u64], firing: &[i64]) -> bool {
    has_heights(&fired.recurrent, heights) && fired.firing.as_slice() == firing
}

// The burning order of three sites in a row with a grain at each end: the middle burns after both ends.
fn is_order_of_three(burned: &Burned) -> bool {
    matches!(burned, Burned::Recurrent(order)
        if order.as_slice() == [0, 2, 1].as_slice() || order.as_slice() == [2, 0, 1].as_slice())
}

#[test]
fn burn_reports_out_of_memory(rt: HostRuntime) -> Result<(), Fail> {
    let pile = open_pile(rt.alloc(), 3, 1, &[1, 0, 1])?;
    refused!(rt, "burn, where the pile is recurrent", alloc => burn(alloc, &pile), burned =>
        is_order_of_three(&burned))?;
    let pile = open_pile(rt.alloc(), 3, 1, &[0, 0, 3])?;
    refused!(rt, "burn, where a set is forbidden", alloc => burn(alloc, &pile), burned =>
        matches!(&burned, Burned::Forbidden(set) if set.as_slice() == [0, 1].as_slice()))
}

#[test]
fn recurrent_piles_report_out_of_memory(rt: HostRuntime) -> Result<(), Fail> {
    let pile = open_pile(rt.alloc(), 2, 1, &[3, 1])?;
    refused!(rt, "Recurrent::from_pile", alloc => Recurrent::from_pile(alloc, &pile), pile =>
        has_heights(&pile, &[3, 1]))?;
    let pile = open_pile(rt.alloc(), 3, 1, &[5, 0, 1])?;
    refused!(rt, "equivalent_recurrent", alloc => equivalent_recurrent(alloc, &pile), pile =>
        has_heights(&pile, &[1, 1, 1]))?;
    let shape = Shape::new(3, 3)?;
    refused!(rt, "identity", alloc => identity(alloc, shape), pile =>
        has_heights(&pile, &[2, 1, 2, 1, 0, 1, 2, 1, 2]))
}

#[test]
fn operations_report_out_of_memory(rt: HostRuntime) -> Result<(), Fail> {
    let pile = recurrent(rt.alloc(), [3, 1])?;
    let other = recurrent(rt.alloc(), [0, 2])?;
    refused!(rt, "add", alloc => add(alloc, &pile, &other), sum => has_heights(&sum, &[3, 3]))?;
    refused!(rt, "inverse", alloc => inverse(alloc, &pile), pile => has_heights(&pile, &[0, 2]))?;
    let pile = recurrent(rt.alloc(), [3, 3])?;
    assert!(rt; pile.pile().shape().sites() > 0);
    refused!(rt, "act", alloc => act(alloc, &pile, 0), pile => has_heights(&pile, &[1, 0]))
}

// With a toppling of each of two sites taken back, -1 0 is 2 3, which is recurrent. And 3 less -1 0 is 4 3, where each
// site topples once, to 1 0.
#[test]
fn classes_report_out_of_memory(rt: HostRuntime) -> Result<(), Fail> {
    let shape = Shape::new(2, 1)?;
    refused!(rt, "recurrent_by_firing", alloc => recurrent_by_firing(alloc, shape, &[-1, 0]), fired =>
        is_fired(&fired, &[2, 3], &[-1, -1]))?;
    refused!(rt, "superstable", alloc => superstable(alloc, shape, &[-1, 0]), pile =>
        pile.heights() == [2, 3].as_slice())
}
