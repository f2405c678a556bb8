//! What no contract says: that a claim is made, by a guess, on tiles or by sweeps, and is right for small piles; that
//! `settle` and `identity` use claims; and which piles count as high or flat.

use crate::piles::{pile_on, row};
use sand_group::identity;
use sand_guess::{
    Claim, claim_by_sweeps, claim_by_tiles, guessed, guessed_identity, is_flat, is_high,
};
use sand_model::{Edge, Pile, Shape};
use sand_settle::settle;
use std::alloc::{AllocError, Global};
use std::test::Fail;

// Whether a claim has these counts.
fn is_claimed(claim: Result<Option<Claim>, AllocError>, counts: &[u64]) -> bool {
    matches!(claim, Ok(Some(claim)) if claim.counts.as_slice() == counts)
}

#[test]
fn claims_by_hand(rt: HostRuntime) -> Result<(), Fail> {
    for (edge, heights, counts) in [
        (Edge::Open, [0, 4, 0].as_slice(), [0, 1, 0].as_slice()),
        (Edge::Cylinder, &[4, 4, 4], &[1, 1, 1]),
        (Edge::Open, &[100], &[25]),
    ] {
        let pile = pile_on(rt.alloc(), heights.len(), 1, edge, heights).ok_or("no pile")?;
        assert!(rt;
            is_claimed(guessed(rt.alloc(), &pile), counts),
            "{heights:?}"
        );
        assert!(rt;
            is_claimed(claim_by_tiles(rt.alloc(), &pile), counts),
            "{heights:?}"
        );
        assert!(rt;
            is_claimed(claim_by_sweeps(rt.alloc(), &pile), counts),
            "{heights:?}"
        );
    }
    let most = row(rt.alloc(), &[1_099_511_627_775]).ok_or("no pile")?;
    assert!(rt; is_claimed(guessed(rt.alloc(), &most), &[274_877_906_943]));
    Ok(())
}

#[test]
fn guesses_an_identity(rt: HostRuntime) -> Result<(), Fail> {
    // By symmetry Lw = 2 1 2, 1 0 1, 2 1 2 has one solution: 1 at each site.
    let square = Shape::new(3, 3)?;
    let counts = guessed_identity(rt.alloc(), square)?.ok_or("no guess")?;
    assert!(rt; counts.as_slice() == [1; 9].as_slice());
    Ok(())
}

// A cylinder on which all columns of a pile that is level in each row are alike: a toppling moves a grain up and one
// down. So from 6 grains on each site, row i topples 3 i (8193 - i) / 2 times, and 3 are left on each.
fn tall_cylinder() -> Option<Shape> {
    Shape::large(3, 8192, Edge::Cylinder).ok()
}

// The queue would take 28 minutes: it took 3.3 seconds on 1,024 rows, and takes 8 times as long on twice as many. A test has
// one minute, and the claim takes 0.2 seconds.
#[test]
fn settles_by_a_claim(rt: HostRuntime) -> Result<(), Fail> {
    let shape = tall_cylinder().ok_or("no grid")?;
    let sixes = vec![in rt.alloc(); 6u64; shape.sites()]?;
    let pile = Pile::new(rt.alloc(), shape, &sixes).ok().ok_or("no pile")?;
    let settled = settle(rt.alloc(), &pile).ok().ok_or("no record")?;
    assert!(rt; settled.topplings() == 412_467_867_648);
    drop(settled);
    Ok(())
}

// These topplings take 3 from each site with 3, too: so 3 on each is equivalent to none.
#[test]
fn finds_the_identity_by_a_claim(rt: HostRuntime) -> Result<(), Fail> {
    let shape = tall_cylinder().ok_or("no grid")?;
    let threes = vec![in rt.alloc(); 3u64; shape.sites()]?;
    let neutral = identity(rt.alloc(), shape).ok().ok_or("no identity")?;
    assert!(rt; neutral.pile().heights() == threes.as_slice());
    drop(neutral);
    Ok(())
}

// Whether a square with `each` grains on every site but one, which has `heap`, counts as high.
fn is_high_with(alloc: Global, side: usize, each: u64, site: usize, heap: u64) -> Option<bool> {
    let shape = Shape::new(side, side).ok()?;
    let mut heights = vec![in alloc; each; shape.sites()].ok()?;
    *heights.get_mut(site)? = heap;
    let pile = Pile::new(alloc, shape, &heights).ok()?;
    Some(is_high(&pile))
}

// On a small grid the queue takes few turns, however high the pile. A plain queue was counted to take 47 turns per site
// for a heap in the middle, 1.5 for one at the middle of the west edge, and 0.2 for one in a corner. In a corner of the
// large grid it takes 3.5, and a guess looks only there.
#[test]
fn sees_what_is_high(rt: HostRuntime) {
    for (side, each, site, heap, expected) in [
        (64, 6, 0, 6, true),
        (64, 3, 0, 3, false),
        (16, 1_000_000, 0, 1_000_000, false),
        (64, 0, 32 * 64 + 32, 4_000, true),
        (64, 0, 32 * 64, 4_000, false),
        (64, 0, 0, 4_000, false),
        (256, 0, 0, 1 << 20, true),
    ] {
        let seen = is_high_with(rt.alloc(), side, each, site, heap);
        assert!(rt;
            seen == Some(expected),
            "{each} on {side}, {heap} at {site}"
        );
    }
}

#[test]
fn sees_what_is_flat(rt: HostRuntime) {
    for (most, expected) in [(100, true), (101, false)] {
        let seen = row(rt.alloc(), &[0, most]).map(|pile| is_flat(&pile));
        assert!(rt; seen == Some(expected), "{most}");
    }
}
