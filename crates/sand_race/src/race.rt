//! The race. The lists are halved, and the two halves are dropped at the same time, down to single lists: so each list
//! has a pass of its own, and a thread of its own if one can be made.

ghost use Rattle.std.specs.Prelude.{◌≡◌, ℕ, ◌+◌, ◌<◌, All, IfOk, sum_by};
ghost use Rattle.std.specs.Thread.{IsSync};
ghost use Rattle.sand_model.specs.Grid.{sites};
ghost use Rattle.sand_model.specs.Piles.{height_of};
ghost use Rattle.sand_model.specs.Sand.{occurrences};
ghost use Rattle.sand_settle.specs.Settling.{IsSettledRecord};
ghost use Rattle.sand_shared.specs.OpenPile.{receipts_for, grid_of_terms};
ghost use Rattle.sand_shared.specs.Passes.{IsPassOf};

use sand_model::{Pile, Shape};
use sand_shared::{Pass, Record, SharedPile, SiteCounts};
use std::alloc::Global;
use std::thread::{Threads, join};

fn grains_in(lists: &[Vec<usize>]) -> u64 {
    lists.iter().fold(
        0u64,
        |grains, list| grains.saturating_add(list.len() as u64),
    )
}

// Drops the lists with a pass, and with passes that are split from it and joined to it again.
#[cycle(halves)]
fn drop_lists<R: Threads + Sync>(
    rt: &R,
    alloc: Global,
    pile: &SharedPile,
    shape: Shape,
    mut pass: Pass,
    lists: &[Vec<usize>],
) -> anyhow::Result<Pass>
    requires pass { IsPassOf pile.now pass }
    requires shape { shape ≡ grid_of_terms pile.now.terms }
    requires inside { All (λ l. All (λ i. i < sites shape) l.items) lists.now }
    ensures of_pile { IfOk result (λ p. IsPassOf pile.now p) }
    ensures by_site { IfOk result (λ p. (i : ℕ) → receipts_for p.receipts i
        ≡ receipts_for pass.receipts i + sum_by (λ l. occurrences l.items i) lists.now) }
{
    if lists.is_empty() {
        return Ok(pass);
    }
    if lists.len() == 1 {
        pile.drop_all(&mut pass, &lists[0], &mut SiteCounts::new(alloc, shape)?)?;
        return Ok(pass);
    }
    let (left, right) = lists.split_at(lists.len() / 2);
    let other = pile.split(alloc, &mut pass, grains_in(right))?;
    let (pass, other) = join(
        rt,
        || -> anyhow::Result<Pass>
            requires { IsSync R.row × IsPassOf pile.now pass × (shape ≡ grid_of_terms pile.now.terms)
                × All (λ l. All (λ i. i < sites shape) l.items) left.now }
            ensures of_pile { IfOk result (λ p. IsPassOf pile.entry.now p) }
            ensures by_site { IfOk result (λ p. (i : ℕ) → receipts_for p.receipts i
                ≡ receipts_for pass.receipts i + sum_by (λ l. occurrences l.items i) left.entry.now) }
        { drop_lists(rt, alloc, pile, shape, pass, left) },
        || -> anyhow::Result<Pass>
            requires { IsSync R.row × IsPassOf pile.now other × (shape ≡ grid_of_terms pile.now.terms)
                × All (λ l. All (λ i. i < sites shape) l.items) right.now }
            ensures of_pile { IfOk result (λ p. IsPassOf pile.entry.now p) }
            ensures by_site { IfOk result (λ p. (i : ℕ) → receipts_for p.receipts i
                ≡ receipts_for other.receipts i + sum_by (λ l. occurrences l.items i) right.entry.now) }
        { drop_lists(rt, alloc, pile, shape, other, right) },
    );
    let mut pass = pass?;
    match pile.join(alloc, &mut pass, other?) {
        Ok(()) => Ok(pass),
        Err((fault, _)) => Err(fault.into()),
    }
}

/// Drops the grains of all lists at once, and settles the pile. The result is the settled record of the start with all
/// the grains, as `settle` would make it.
pub fn race<R: Threads + Sync>(
    rt: &R,
    alloc: Global,
    start: &Pile,
    lists: &[Vec<usize>],
) -> anyhow::Result<Record>
    requires inside { All (λ l. All (λ i. i < sites start.now.grid) l.items) lists.now }
    ensures { IfOk result (λ r. IsSettledRecord start.now.grid
        (λ i. height_of start.now i + sum_by (λ l. occurrences l.items i) lists.now) r.settled) }
{
    let (pile, first) = SharedPile::new(alloc, start, grains_in(lists))?;
    let whole = drop_lists(rt, alloc, &pile, start.shape(), first, lists)?;
    match pile.settle(alloc, whole) {
        Ok(record) => Ok(record),
        Err((fault, ..)) => Err(fault.into()),
    }
}
