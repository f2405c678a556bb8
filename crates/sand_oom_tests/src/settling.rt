//! Settling, and the single-threaded pile.

use crate::piles::full;
use crate::trying::refused;
use sand_model::Pile;
use sand_settle::{Avalanche, OnePile, settle};
use sand_testing::piles::open_pile;
use sand_testing::records::is_settled;
use std::alloc::Global;
use std::test::Fail;

// A pile that is high in the middle, from a list that the proofs need not examine place by place.
fn heap(alloc: Global) -> Result<Pile, Fail> {
    let mut heights = vec![in alloc; 0u64; 256]?;
    heights[120] = 100_000;
    open_pile(alloc, 16, 16, heights.as_slice())
}

fn is_one_pile(one: &OnePile, tally: u64, heights: &[u64], odometer: &[u64], lost: u64) -> bool {
    (one.tally(), one.lost()) == (tally, lost)
        && one.pile().heights() == heights
        && one.odometers() == odometer
}

/// Whether one grain was dropped in the middle of nine sites of three grains each, and nothing else.
pub fn is_after_the_drop(one: &OnePile) -> bool {
    let heights = [1, 3, 1, 3, 0, 3, 1, 3, 1];
    let odometer = [1, 1, 1, 1, 2, 1, 1, 1, 1];
    is_one_pile(one, 1, &heights, &odometer, 12) && one.topplings() == 10
}

/// The drop in the middle of nine sites of three grains each.
pub const MIDDLE: Avalanche = Avalanche {
    site: 4,
    size: 10,
    area: 9,
    reach: 2,
    lost: 12,
};

/// The pile of one thread on nine sites of three grains each.
pub fn full_of_one_thread(alloc: Global) -> Result<OnePile, Fail> {
    Ok(OnePile::new(alloc, &full(alloc)?)?)
}

// Drops in the middle, if nothing was dropped before. Returns whether the drop and the pile after it are right, or the
// number of the fault.
fn drop_in_the_middle(alloc: Global, one: &mut OnePile) -> Result<bool, u32> {
    if one.pile().shape().sites() <= 4 || !is_one_pile(one, 0, &[3; 9], &[0; 9], 0) {
        return Ok(false);
    }
    match one.drop_at(alloc, 4) {
        Ok((number, avalanche)) => {
            Ok(number == 0 && avalanche == MIDDLE && is_after_the_drop(one))
        }
        Err(fault) => Err(fault.number()),
    }
}

#[test]
fn settling_reports_out_of_memory(rt: HostRuntime) -> Result<(), Fail> {
    let pile = open_pile(rt.alloc(), 2, 1, &[4, 4])?;
    refused!(rt, "settle", alloc => settle(alloc, &pile), settled => is_settled(&settled, &[1, 1], &[1, 1], 6))?;
    refused!(rt, "OnePile::new", alloc => OnePile::new(alloc, &pile), one =>
        is_one_pile(&one, 0, &[1, 1], &[1, 1], 6))?;
    // No grain is left over or missing.
    let pile = heap(rt.alloc())?;
    refused!(rt, "settle, by a guess", alloc => settle(alloc, &pile), settled =>
        settled.pile().grains().wrapping_add(settled.lost()) == 100_000)
}

#[test]
fn drop_at_reports_out_of_memory(rt: HostRuntime) -> Result<(), Fail> {
    refused!(
        rt,
        "OnePile::drop_at",
        full_of_one_thread,
        drop_in_the_middle
    )
}
