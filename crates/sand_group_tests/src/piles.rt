//! Piles, their limit, and one toppling.

use sand_model::{Edge, Pile, Shape, ToppleFault, topple};
use std::alloc::Global;
use std::test::Fail;

/// A pile on a grid with this edge, or `None` if it is rejected.
pub(crate) fn pile_on(
    alloc: Global,
    width: usize,
    height: usize,
    edge: Edge,
    heights: &[u64],
) -> Option<Pile> {
    let shape = Shape::with_edge(width, height, edge).ok()?;
    Pile::new(alloc, shape, heights).ok()
}

/// A pile in one row with open ends.
pub(crate) fn row(alloc: Global, heights: &[u64]) -> Option<Pile> {
    pile_on(alloc, heights.len(), 1, Edge::Open, heights)
}

#[test]
fn a_pile_and_its_copy(rt: HostRuntime) -> Result<(), Fail> {
    let pile = row(rt.alloc(), &[3, 5]).ok_or("no pile")?;
    let copy = pile.copy(rt.alloc()).ok();
    drop(pile);
    let (_, heights) = copy.ok_or("no copy")?.into_parts();
    assert!(rt; heights.as_slice() == [3, 5].as_slice());
    Ok(())
}

// The number of the fault if these heights are not a pile on two sites.
fn refusal(alloc: Global, heights: &[u64]) -> Option<u32> {
    let pair = Shape::new(2, 1).ok()?;
    let fault = Pile::new(alloc, pair, heights).err()?;
    Some(fault.number())
}

#[test]
fn heights_that_make_no_pile(rt: HostRuntime) {
    assert!(rt; refusal(rt.alloc(), &[1]) == Some(2));
    assert!(rt; refusal(rt.alloc(), &[1_099_511_627_775, 1]) == Some(3));
}

// A pile of one site after a grain is added: the fault's number, or 0, and the heights.
fn with_a_grain(alloc: Global, height: u64) -> Option<(u32, Vec<u64>)> {
    let mut pile = row(alloc, &[height])?;
    if pile.shape().sites() == 0 {
        return None;
    }
    let number = pile.add_grain(0).err().map_or(0, |fault| fault.number());
    Some((number, pile.into_parts().1))
}

#[test]
fn a_grain_is_added_up_to_the_limit(rt: HostRuntime) -> Result<(), Fail> {
    for (height, expected, after) in [
        (0, 0, 1),
        (1_099_511_627_774, 0, 1_099_511_627_775),
        (1_099_511_627_775, 3, 1_099_511_627_775),
    ] {
        let (number, heights) = with_a_grain(rt.alloc(), height).ok_or("no pile")?;
        assert!(rt;
            number == expected && heights.as_slice() == [after].as_slice(),
            "at {height}"
        );
    }
    Ok(())
}

// Whether toppling a site of a row returns this and leaves these heights.
fn topples(
    alloc: Global,
    start: &[u64],
    site: usize,
    expected: Result<u8, ToppleFault>,
    heights: &[u64],
) -> Option<bool> {
    let mut pile = row(alloc, start)?;
    if site >= pile.shape().sites() {
        return None;
    }
    Some(topple(&mut pile, site) == expected && pile.heights() == heights)
}

#[test]
fn a_site_topples_from_height_4_on(rt: HostRuntime) {
    for (start, site, expected, heights) in [
        ([0, 5, 1].as_slice(), 1, Ok(2), [1, 1, 2].as_slice()),
        (&[4], 0, Ok(4), &[0]),
        (&[3], 0, Err(ToppleFault::TooLow), &[3]),
    ] {
        let topples = topples(rt.alloc(), start, site, expected, heights);
        assert!(rt; topples == Some(true), "{start:?}");
    }
}
