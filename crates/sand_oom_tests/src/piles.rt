//! Piles are made, copied and added.

use crate::trying::refused;
use sand_model::{Pile, Shape};
use sand_testing::piles::open_pile;
use std::alloc::Global;
use std::test::Fail;

/// Three by three sites of three grains.
pub fn full(alloc: Global) -> Result<Pile, Fail> {
    open_pile(alloc, 3, 3, &[3; 9])
}

#[test]
fn piles_report_out_of_memory(rt: HostRuntime) -> Result<(), Fail> {
    let shape = Shape::new(3, 1)?;
    refused!(rt, "Pile::new", alloc => Pile::new(alloc, shape, &[0, 4, 0]), pile =>
        pile.heights() == [0, 4, 0].as_slice())?;
    let pile = full(rt.alloc())?;
    refused!(rt, "Pile::copy", alloc => pile.copy(alloc), copy => copy.heights() == [3; 9].as_slice())?;
    let pile = open_pile(rt.alloc(), 2, 1, &[4, 0])?;
    let other = open_pile(rt.alloc(), 2, 1, &[1, 3])?;
    assert!(rt; pile.shape() == other.shape());
    refused!(rt, "Pile::plus", alloc => pile.plus(alloc, &other), sum => sum.heights() == [5, 3].as_slice())
}
