//! Worked examples of the burning test and of the group.

use crate::piles::{pile_on, row};
use sand_group::{Burned, GroupFault, Recurrent, add, burn, identity};
use sand_model::{Edge, Pile, Shape};
use std::alloc::Global;
use std::test::Fail;

// Whether burning finds this forbidden set; if the set is empty, that the pile is recurrent.
fn leaves(alloc: Global, pile: &Pile, set: &[usize]) -> bool {
    burn(alloc, pile).is_ok_and(|burned| {
        burned.is_recurrent() == set.is_empty()
            && match &burned {
                Burned::Recurrent(_) => set.is_empty(),
                Burned::Forbidden(left) => left.as_slice() == set,
            }
    })
}

#[test]
fn burns_what_is_not_forbidden(rt: HostRuntime) -> Result<(), Fail> {
    let all = [0, 1, 2, 3, 4, 5, 6, 7, 8, 9, 10, 11, 12, 13, 14, 15];
    for (width, height, heights, set) in [
        (1, 1, [0].as_slice(), [].as_slice()),
        (3, 1, &[1, 0, 1], &[]),
        (2, 1, &[0, 0], &[0, 1]),
        (3, 1, &[0, 0, 3], &[0, 1]),
        (4, 4, &[1; 16], &all),
    ] {
        let pile = pile_on(rt.alloc(), width, height, Edge::Open, heights).ok_or("no pile")?;
        let leaves = leaves(rt.alloc(), &pile, set);
        drop(pile);
        assert!(rt; leaves, "{width} by {height}");
    }
    Ok(())
}

// Whether an operation returned the pile with these heights.
fn is_made(made: Result<Recurrent, GroupFault>, heights: &[u64]) -> bool {
    made.is_ok_and(|made| made.pile().heights() == heights)
}

// Whether the identity of a grid, and its sum with itself, have these heights.
fn is_identity(
    alloc: Global,
    width: usize,
    height: usize,
    edge: Edge,
    heights: &[u64],
) -> Option<bool> {
    let shape = Shape::with_edge(width, height, edge).ok()?;
    let neutral = identity(alloc, shape).ok()?;
    let is_twice = is_made(add(alloc, &neutral, &neutral), heights);
    Some(is_made(Ok(neutral), heights) && is_twice)
}

#[test]
fn knows_the_identity(rt: HostRuntime) {
    let alloc = rt.alloc();
    for (width, height, edge, heights) in [
        (1, 1, Edge::Open, [0].as_slice()),
        (2, 1, Edge::Open, &[3, 3]),
        (2, 2, Edge::Open, &[2, 2, 2, 2]),
        (3, 3, Edge::Open, &[2, 1, 2, 1, 0, 1, 2, 1, 2]),
        (3, 1, Edge::Cylinder, &[2, 2, 2]),
    ] {
        let is_known = is_identity(alloc, width, height, edge, heights);
        assert!(rt; is_known == Some(true), "{width} by {height}");
    }
}

// The number of the fault of a call of the group, or 0.
fn refusal<T: Drop>(called: Result<T, GroupFault>) -> u32 {
    called.map_or_else(|fault| fault.number(), |_| 0)
}

#[test]
fn refuses_what_is_not_recurrent(rt: HostRuntime) -> Result<(), Fail> {
    for (heights, burns, made) in [([3, 1], 0, 0), ([0, 0], 0, 8), ([4, 0], 7, 7)] {
        let pile = row(rt.alloc(), &heights).ok_or("no pile")?;
        assert!(rt; refusal(burn(rt.alloc(), &pile)) == burns);
        assert!(rt; refusal(Recurrent::from_pile(rt.alloc(), &pile)) == made);
        drop(pile);
    }
    Ok(())
}

// A recurrent pile in one row.
fn recurrent(alloc: Global, heights: &[u64]) -> Option<Recurrent> {
    Recurrent::from_pile(alloc, &row(alloc, heights)?).ok()
}

// `sand_oom_tests` has a sum, an inverse and a pile with one grain more.
#[test]
fn adds_in_one_shape(rt: HostRuntime) -> Result<(), Fail> {
    let pile = recurrent(rt.alloc(), &[3]).ok_or("not recurrent")?;
    let other = recurrent(rt.alloc(), &[3, 1]).ok_or("not recurrent")?;
    assert!(rt; refusal(add(rt.alloc(), &pile, &other)) == 9);
    drop((pile, other));
    Ok(())
}
