//! Guesses are made and accepted for piles of all shapes, edges and heights, and so are claims by tiles for flat piles
//! and by sweeps for small ones.

ghost use Rattle.std.specs.Prelude.{◌<◌};

use crate::piles::pile_on;
use sand_certify::certified;
use sand_guess::{Claim, claim_by_sweeps, claim_by_tiles, guessed, is_flat, is_small};
use sand_model::{Edge, Pile, Shape};
use std::alloc::{AllocError, Global};

const PILES: u64 = 400;

// Numbers without a pattern, the same in every run.
#[derive(Drop)]
struct Numbers(u64);

impl Numbers {
    fn below(&mut self, limit: u64) -> u64
        requires { 0 < limit }
        ensures { result < limit }
    {
        let mut x = self.0;
        x ^= x << 13;
        x ^= x >> 7;
        x ^= x << 17;
        self.0 = x;
        (x >> 11) % limit
    }

    fn side(&mut self) -> usize {
        let most = if self.below(8) == 0 { 256 } else { 32 };
        self.below(most) as usize + 1
    }

    fn edge(&mut self) -> Edge {
        [Edge::Open, Edge::Cylinder][self.below(2) as usize]
    }

    // Any order of magnitude below 2^40.
    fn grains(&mut self) -> u64 {
        (1u64 << self.below(40)) - 1
    }

    // Heights below a limit.
    fn heights_below(&mut self, alloc: Global, limit: u64, sites: usize) -> Option<Vec<u64>>
        requires { 0 < limit }
    {
        let mut heights = vec![in alloc; 0u64; sites].ok()?;
        for height in &mut heights {
            *height = self.below(limit);
        }
        Some(heights)
    }

    fn heap(&mut self, heights: &mut [u64]) {
        let grains = self.grains();
        let site = self.below((heights.len() as u64).max(1)) as usize;
        if site < heights.len() {
            heights[site] = heights[site].saturating_add(grains);
        }
    }

    // Heights below 4, and grains on two sites.
    fn heaped(&mut self, alloc: Global, sites: usize) -> Option<Vec<u64>> {
        let mut heights = self.heights_below(alloc, 4, sites)?;
        self.heap(&mut heights);
        self.heap(&mut heights);
        Some(heights)
    }

    // Heights below 8, or all equal, or nearly all grains on two sites.
    fn heights(&mut self, alloc: Global, sites: usize) -> Option<Vec<u64>> {
        match self.below(4) {
            0 => self.heights_below(alloc, 8, sites),
            1 => vec![in alloc; self.grains() / 1024; sites].ok(),
            _ => self.heaped(alloc, sites),
        }
    }

    // A pile, or `None` if it would be too narrow or have too many grains.
    fn pile(&mut self, alloc: Global) -> Option<Pile> {
        let edge = self.edge();
        let width = self.side();
        let height = self.side();
        let heights = self.heights(alloc, width.saturating_mul(height))?;
        pile_on(alloc, width, height, edge, &heights)
    }
}

// Whether a claim is made and accepted.
fn is_accepted(alloc: Global, pile: &Pile, claim: Result<Option<Claim>, AllocError>) -> bool {
    match claim {
        Ok(Some(claim)) => certified(alloc, pile, &claim.counts, &claim.turns).is_ok_and(
            |left| left.is_some(),
        ),
        _ => false,
    }
}

#[test]
fn claims_for_many_piles_are_accepted(rt: HostRuntime) {
    let mut numbers = Numbers(88_172_645_463_325_252);
    let (mut piles, mut flat, mut small) = (0u64, 0u64, 0u64);
    for _ in 0..PILES {
        if let Some(pile) = numbers.pile(rt.alloc()) {
            assert!(rt; is_accepted(rt.alloc(), &pile, guessed(rt.alloc(), &pile)));
            piles = piles.saturating_add(1);
            // A large pile with many grains may need more visits than are tried.
            if is_flat(&pile) && is_accepted(rt.alloc(), &pile, claim_by_tiles(rt.alloc(), &pile)) {
                flat = flat.saturating_add(1);
            }
            if is_small(pile.shape(), pile.grains()) {
                assert!(rt; is_accepted(rt.alloc(), &pile, claim_by_sweeps(rt.alloc(), &pile)));
                small = small.saturating_add(1);
            }
        }
    }
    assert!(rt;
        piles >= 300 && flat >= 100 && small >= 20,
        "{piles}, {flat} of them flat, {small} small"
    );
}

// Heaps, and `west` grains on each other site of the west half.
fn heaps_on(alloc: Global, shape: Shape, west: u64, heaps: &[(usize, u64)]) -> Option<Pile> {
    let mut heights = vec![in alloc; 0u64; shape.sites()].ok()?;
    for site in 0..heights.len() {
        if site % shape.width() < shape.width() / 2 {
            heights[site] = west;
        }
    }
    for (site, grains) in heaps {
        *heights.get_mut(*site)? = *grains;
    }
    Pile::new(alloc, shape, &heights).ok()
}

// Whether the claim of a guess is accepted for such a pile.
fn is_guessed(alloc: Global, shape: Option<Shape>, west: u64, heaps: &[(usize, u64)]) -> bool {
    let pile = shape.and_then(|shape| heaps_on(alloc, shape, west, heaps));
    pile.is_some_and(|pile| is_accepted(alloc, &pile, guessed(alloc, &pile)))
}

// A heap in a corner, at an edge, in the middle, at the seam of a cylinder, and in sand so full that it comes farther than
// expected.
#[test]
fn claims_for_heaps_are_accepted(rt: HostRuntime) {
    for (edge, west, site, grains) in [
        (Edge::Open, 0, 0, 1 << 20),
        (Edge::Open, 0, 64, 1 << 14),
        (Edge::Open, 0, 6208, 5000),
        (Edge::Cylinder, 0, 6144, 5000),
        (Edge::Open, 3, 6176, 1000),
    ] {
        let shape = Shape::with_edge(128, 96, edge).ok();
        let heaps = [(site, grains)];
        let is_accepted = is_guessed(rt.alloc(), shape, west, &heaps);
        assert!(rt; is_accepted, "{grains} at {site}");
    }
}

// After the solve some sites topple more than 65,536 times. A guess that loses count is refused. The grains at the other end
// of the long cylinder keep the guess from looking at a part of it.
#[test]
fn a_claim_for_many_topplings_of_a_site_is_accepted(rt: HostRuntime) {
    let shape = Shape::large(64, 4096, Edge::Cylinder).ok();
    let heaps = [(0, 1 << 25), (262_143, 4)];
    assert!(rt; is_guessed(rt.alloc(), shape, 0, &heaps));
}
