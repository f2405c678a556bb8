//! How a pile is settled: by the queue, or by a claim that is certified.
//!
//! The queue is the plain way, always right, and fast if little topples. A light pile, of which a bound shows that not
//! much topples (`is_light`), goes to the queue at once, and stays there. The odometer of a small and dense pile is
//! claimed by sweeps (`sand_guess::claim_by_sweeps`). On other piles the queue comes first, for a few turns per site,
//! unless the pile is found to be high (`sand_guess::is_high`), or is flat and flooded and no dam is near
//! (`is_flooded`). If the queue has not settled the pile, its odometer is claimed: by toppling on tiles if the pile is
//! low and flat (`sand_guess::claim_by_tiles`), and then by a guess (`sand_guess::guessed`). A claim is certified
//! (`sand_certify`), which is a proof. If every claim is rejected, the queue settles the pile from the start, however
//! long that takes. Nothing is proved of what `sand_guess` returns: a wrong claim costs time, and the result is the
//! same.

ghost use Rattle.std.specs.Prelude.{◌≤◌, ◌^◌, IfOk, IfSome, IsSome};
ghost use Rattle.sand_model.specs.Grid.{IsGrid};
ghost use Rattle.sand_settle.specs.Rests.{ComesToRest};

use crate::queue::topple_to_rest;
use sand_certify::certified;
use sand_guess::{Claim, claim_by_sweeps, claim_by_tiles, guessed, is_flat, is_high, is_small};
use sand_model::{Edge, Pile, PileFault, Shape, TOPPLING_HEIGHT};
use std::alloc::{AllocError, Global};

// The turns that the queue has before a guess is tried: a number per site, and more in addition. They take about as long
// as a guess.
const TURNS_BEFORE_A_GUESS: u64 = 16;

const MORE_TURNS_BEFORE_A_GUESS: u64 = 512;

// The turns per site before tiles are tried. The queue is faster than tiles only if hardly anything topples.
const TURNS_BEFORE_TILES: u64 = 1;

// The same if a pile is sparse: about as many sites topple as there are.
const TURNS_IF_SPARSE: u64 = 3;

// The most grains per 8 sites of a sparse pile: the density of a large settled pile (Kenyon and Wilson 2015).
const USUAL: u64 = 17;

// The least number of grains per 16 sites of a flooded pile. On 256 by 256 sites, 43 would do for random piles: with 3 or 2 grains
// at each site and one more in the middle, each of 100 such piles toppled 43 times a site. Others may have dams.
const FULL: u64 = 47;

// A dam in a flooded pile is looked for in a part of the grid with a sixth of its rows and of its columns, in so many turns
// per site of the part. On 256 by 256 that finds a square dam up to 16 sites away, and takes 1 to 3 percent of the time that a
// pile without a dam takes.
const PARTS: usize = 6;

const TURNS_IN_A_PART: u64 = 4;

// The bound on the topplings of a light pile: a part per site, and a constant.
const FEW_PER_SITE: u64 = 64;

const FEW: u64 = 8192;

/// The heights of a settled pile, and how often each site toppled.
#[derive(Drop)]
pub(crate) struct Rest {
    pub(crate) heights: Vec<u64>,
    pub(crate) odometer: Vec<u64>,
}

/// Whether a bound shows that few topplings settle a pile of `grains` grains, and it is not dense either. The topplings
/// number at most half the weight (`sand_model::laws`), and no grain weighs more than the square of (side + 1) / 2, for a
/// side with open ends.
pub(crate) fn is_light(shape: Shape, grains: u64) -> bool
    ensures { IsGrid shape }
{
    let side = match shape.edge() {
        Edge::Open => shape.width().min(shape.height()),
        Edge::Cylinder => shape.height(),
    };
    let square = (side as u64 + 1) * (side as u64 + 1);
    let few = FEW_PER_SITE * shape.sites() as u64 + FEW;
    grains.saturating_mul(square) / 8 <= few && !is_small(shape, grains)
}

/// Settles a pile by the queue. Returns None if `budget` sites or more have had their turn and others wait.
pub(crate) fn settle_by_queue(
    alloc: Global,
    pile: &Pile,
    budget: u64,
) -> Result<Option<Rest>, AllocError>
    ensures settled { IfOk result (λ o. IfSome o (ComesToRest pile.now)) }
    ensures ends { 2 ^ 54 ≤ budget → IfOk result (λ o. IsSome o) }
{
    let mut heights = Vec::from_slice(alloc, pile.heights())?;
    let mut odometer = vec![in alloc; 0u64; pile.shape().sites()]?;
    if !topple_to_rest(alloc, pile.shape(), &mut heights, &mut odometer, budget)? {
        return Ok(None);
    }
    Ok(Some(Rest { heights, odometer }))
}

/// Settles a pile by a claim of its odometer, if the claim is certified.
pub(crate) fn settle_by_claim(
    alloc: Global,
    pile: &Pile,
    claim: Option<Claim>,
) -> Result<Option<Rest>, AllocError>
    ensures { IfOk result (λ o. IfSome o (ComesToRest pile.now)) }
{
    let Some(claim) = claim else {
        return Ok(None);
    };
    let Claim { counts, turns } = claim;
    let Some(heights) = certified(alloc, pile, &counts, &turns)? else {
        return Ok(None);
    };
    Ok(Some(Rest {
        heights,
        odometer: counts,
    }))
}

// An unstable site away from the edge of a flooded pile, in which hardly a site has room for a grain.
fn flooded_at(pile: &Pile) -> Option<usize> {
    let shape = pile.shape();
    if pile.grains() * 16 >= shape.sites() as u64 * FULL {
        for site in 0..shape.sites() {
            if pile.height(site) >= TOPPLING_HEIGHT {
                if let [Some(_), Some(_), Some(_), Some(_)] = shape.neighbours(site) {
                    return Some(site);
                }
            }
        }
    }
    None
}

// The part of a pile around a site. Near an edge its rows may begin in one row and end in the next.
fn part_around(alloc: Global, pile: &Pile, site: usize) -> Result<Option<Pile>, AllocError> {
    let width = pile.shape().width();
    let wide = (width / PARTS).max(1);
    let tall = (pile.shape().height() / PARTS).max(1);
    let Ok(shape) = Shape::large(wide, tall, Edge::Open) else {
        return Ok(None);
    };
    let first = site.saturating_sub((tall / 2).wrapping_mul(width).wrapping_add(wide / 2));
    let mut heights = vec![in alloc; 0u64; shape.sites()]?;
    for here in 0..heights.len() {
        let (x, y) = (here % wide, here / wide);
        let at = first.wrapping_add(y.wrapping_mul(width)).wrapping_add(x);
        heights[here] = pile.heights().get(at).copied().unwrap_or(0);
    }
    match Pile::new(alloc, shape, &heights) {
        Err(PileFault::Memory(error)) => Err(error),
        part => Ok(part.ok()),
    }
}

// Whether the sand around a site of a flooded pile soon comes to rest, and stays in a small part of the grid.
fn is_dammed(alloc: Global, pile: &Pile, site: usize) -> Result<bool, AllocError> {
    let Some(part) = part_around(alloc, pile, site)? else {
        return Ok(false);
    };
    let budget = part.shape().sites() as u64 * TURNS_IN_A_PART;
    let Some(rest) = settle_by_queue(alloc, &part, budget)? else {
        return Ok(false);
    };
    let mut left = 0u64;
    for height in &rest.heights {
        left = left.wrapping_add(*height);
    }
    Ok(left == part.grains())
}

// Whether a pile is flooded, and no dam keeps the sand back. Then nearly all sites topple twice or more.
fn is_flooded(alloc: Global, pile: &Pile) -> Result<bool, AllocError> {
    let Some(site) = flooded_at(pile) else {
        return Ok(false);
    };
    Ok(!is_dammed(alloc, pile, site)?)
}

// Settles a pile that is not high: by sweeps if it is small, otherwise by the queue in a few turns, or on tiles.
fn settle_if_low(alloc: Global, pile: &Pile) -> Result<Option<Rest>, AllocError>
    ensures { IfOk result (λ o. IfSome o (ComesToRest pile.now)) }
{
    if is_small(pile.shape(), pile.grains()) {
        return settle_by_claim(alloc, pile, claim_by_sweeps(alloc, pile)?);
    }
    let sites = pile.shape().sites() as u64;
    let is_flat = is_flat(pile);
    let budget = if is_flat && pile.grains() * 8 <= sites * USUAL {
        sites * TURNS_IF_SPARSE
    } else if is_flat {
        sites * TURNS_BEFORE_TILES
    } else {
        sites * TURNS_BEFORE_A_GUESS + MORE_TURNS_BEFORE_A_GUESS
    };
    if !is_flat || !is_flooded(alloc, pile)? {
        let rest = settle_by_queue(alloc, pile, budget)?;
        if rest.is_some() || !is_flat {
            return Ok(rest);
        }
    }
    settle_by_claim(alloc, pile, claim_by_tiles(alloc, pile)?)
}

// Settles a pile of which more may topple: by sweeps, the queue or tiles unless it is high, otherwise by a guess.
fn settle_unless_light(alloc: Global, pile: &Pile) -> Result<Option<Rest>, AllocError>
    ensures { IfOk result (λ o. IfSome o (ComesToRest pile.now)) }
{
    if !is_high(pile) {
        if let Some(rest) = settle_if_low(alloc, pile)? {
            return Ok(Some(rest));
        }
    }
    settle_by_claim(alloc, pile, guessed(alloc, pile)?)
}

/// Settles a pile: by the queue if it is light, otherwise in the faster way, and if that fails by the queue.
pub(crate) fn settle_by_any(alloc: Global, pile: &Pile) -> Result<Rest, AllocError>
    ensures { IfOk result (ComesToRest pile.now) }
{
    if !is_light(pile.shape(), pile.grains()) {
        if let Some(rest) = settle_unless_light(alloc, pile)? {
            return Ok(rest);
        }
    }
    let rest = settle_by_queue(alloc, pile, u64::MAX)?;
    Ok(rest.unwrap())
}
