//! The queue: toppling until no site may topple (Bak, Tang and Wiesenfeld 1987).
//!
//! The time is at most proportional to the sites and the topplings, the space to the sites.
//!
//! Sites topple in generations. A generation lists all sites that may topple, each once. In turn each topples as often
//! as its height allows, and each neighbour that this raises to 4 or more joins the next generation, at the end of the
//! queue that the two form. A site leaves the queue when it topples and joins it when it reaches 4, so the queue never
//! holds more than all sites, and nothing grows while sand topples.
//!
//! - It ends, since each toppling lowers the weight of the pile by at least 2.
//! - No site topples more often than in any `w` that stabilises the start: each toppling is legal, so this is least
//!   action (Fey, Levine and Peres 2010; `sand_model::laws`), and it holds from turn to turn (`IsUnderway`).
//! - At the end the queue is empty, so no site may topple: the topplings stabilise the start, and are the least.

ghost use Rattle.std.specs.Prelude.{◌≡◌, ◌+◌, ◌*◌, ◌^◌, ◌<◌, ◌≤◌, length, sum, slice_index, IfOk, IsTrue, OnErr};
ghost use Rattle.sand_model.specs.Grid.{sites};
ghost use Rattle.sand_model.specs.Sand.{IsSettled, topplings, weight};
ghost use Rattle.sand_model.specs.Piles.{most_grains, most_grains_on};
ghost use Rattle.sand_model.specs.Underway.{Advances};
ghost use Rattle.sand_settle.specs.SiteLists.{ListsUnstable};

use crate::spreading::{knows_sides, spread};
use sand_model::{IndexList, Lattice, Shape, TOPPLING_HEIGHT};
use std::alloc::{AllocError, Global};
use std::mem;

// Topples each site of a generation in turn, as often as its height allows, and lists the next generation.
fn topple_generation(
    lattice: &Lattice,
    heights: &mut [u64],
    counts: &mut [u64],
    generation: &IndexList,
    next: &mut IndexList,
)
    requires len { (length heights.old ≡ sites lattice.now) × (length counts.old ≡ sites lattice.now) }
    requires limit { sum heights.old ≤ most_grains }
    requires bound { 2 * topplings lattice.now (slice_index counts.old) + weight lattice.now (slice_index heights.old)
        < 2 ^ 55 }
    requires waiting { ListsUnstable (sites lattice.now) heights.old generation.now.items }
    requires room { sites lattice.now + 4 ≤ next.old.room }
    ensures advances { Advances lattice.now (slice_index counts.old)
        (slice_index heights.old) (slice_index counts.new) (slice_index heights.new) }
    ensures each_topples { topplings lattice.now (slice_index counts.old) + length generation.now.items
        ≤ topplings lattice.now (slice_index counts.new) }
    ensures waiting { ListsUnstable (sites lattice.now) heights.new next.new.items }
    ensures room { next.new.room ≡ next.old.room }
{
    knows_sides(lattice);
    next.clear();
    for position in 0..generation.len() {
        let site = generation.item(position);
        let times = heights[site] / TOPPLING_HEIGHT;
        heights[site] -= TOPPLING_HEIGHT * times;
        spread(lattice, heights, next, site, times);
        counts[site] += times;
    }
}

fn list_unstable(heights: &[u64], generation: &mut IndexList)
    requires fits { length heights.now ≤ 67108864 }
    requires room { length heights.now < generation.old.room }
    ensures waiting { ListsUnstable (length heights.now) heights.now generation.new.items }
    ensures room { generation.new.room ≡ generation.old.room }
{
    generation.clear();
    for (site, height) in heights.iter().enumerate() {
        generation.push_if(site, *height >= TOPPLING_HEIGHT);
    }
}

// Topples until no site may topple, and counts how often each site topples. Returns false before a generation if `budget`
// sites or more have had their turn. What the two lists hold is dropped.
fn topple_generations(
    lattice: &Lattice,
    heights: &mut [u64],
    counts: &mut [u64],
    mut generation: IndexList,
    mut next: IndexList,
    budget: u64,
) -> bool
    requires heights_each { length heights.old ≡ sites lattice.now }
    requires counts_each { length counts.old ≡ sites lattice.now }
    requires limit { sum heights.old ≤ most_grains_on lattice.now }
    requires generation_room { sites lattice.now + 4 ≤ generation.room }
    requires next_room { sites lattice.now + 4 ≤ next.room }
    ensures settled { IsTrue result
        → IsSettled lattice.now (slice_index heights.old) (slice_index counts.new) (slice_index heights.new) }
    ensures ends { 2 ^ 54 ≤ budget → IsTrue result }
{
    knows_sides(lattice);
    counts.fill(0);
    list_unstable(heights, &mut generation);
    let mut left = budget;
    'generations: while generation.len() > 0 {
        if left == 0 {
            return false;
        }
        left = left.saturating_sub(generation.len() as u64);
        topple_generation(lattice, heights, counts, &generation, &mut next);
        mem::swap(&mut generation, &mut next);
    }
    true
}

/// Topples until no site may topple, and counts how often each site topples. Returns false before a generation if `budget`
/// sites or more have had their turn. If an allocation fails, nothing has toppled.
pub(crate) fn topple_to_rest(
    alloc: Global,
    shape: Shape,
    heights: &mut [u64],
    counts: &mut [u64],
    budget: u64,
) -> Result<bool, AllocError>
    requires heights_each { length heights.old ≡ sites shape }
    requires counts_each { length counts.old ≡ sites shape }
    requires limit { sum heights.old ≤ most_grains_on shape }
    ensures settled { IfOk result (λ b. IsTrue b
        → IsSettled shape (slice_index heights.old) (slice_index counts.new) (slice_index heights.new)) }
    ensures ends { 2 ^ 54 ≤ budget → IfOk result (λ b. IsTrue b) }
    ensures heights { OnErr result (heights.new ≡ heights.old) }
    ensures counts { OnErr result (counts.new ≡ counts.old) }
{
    // A toppling site may list 4 more.
    let room = shape.sites() + 4;
    let lattice = Lattice::new(alloc, shape)?;
    let generation = IndexList::new(alloc, room)?;
    let next = IndexList::new(alloc, room)?;
    Ok(topple_generations(&lattice, heights, counts, generation, next, budget))
}
