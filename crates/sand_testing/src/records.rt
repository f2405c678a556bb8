//! Settled piles and records of shared piles, checked against values worked out by hand; and records made in one call,
//! because each call lengthens the proof of a test.

ghost use Rattle.std.specs.Prelude.{◌≡◌, ◌+◌, ◌≤◌, ◌<◌, length, sum, IfOk, IsTrue};
ghost use Rattle.sand_model.specs.Grid.{sites};
ghost use Rattle.sand_model.specs.Piles.{most_grains_on};
ghost use Rattle.sand_shared.specs.OpenPile.{grid_of_terms};
ghost use Rattle.sand_shared.specs.Passes.{IsPassOf};

use crate::piles::one_site;
use sand_model::Pile;
use sand_settle::Settled;
use sand_shared::{Pass, Record, SharedPile};
use std::alloc::Global;
use std::test::Fail;

/// Whether a settled pile has these heights, this odometer with its sum as the topplings, and this number of lost grains.
pub fn is_settled(settled: &Settled, heights: &[u64], odometer: &[u64], lost: u64) -> bool {
    let topplings = odometer
        .iter()
        .fold(0u64, |sum, count| sum.wrapping_add(*count));
    settled.pile().heights() == heights
        && settled.odometers() == odometer
        && settled.topplings() == topplings
        && settled.lost() == lost
}

/// Whether a record has this history, and what `is_settled` compares.
pub fn is_record(
    record: &Record,
    history: &[usize],
    heights: &[u64],
    odometer: &[u64],
    lost: u64,
) -> bool {
    record.history() == history && is_settled(record.settled(), heights, odometer, lost)
}

/// Whether a record has three drops on an empty site.
pub fn is_three(record: &Record) -> bool {
    is_record(record, &[0; 3], &[3], &[0], 0)
}

/// Whether a record has four drops on an empty site.
pub fn is_four(record: &Record) -> bool {
    is_record(record, &[0; 4], &[0], &[1], 4)
}

/// Whether a record may follow another: it starts from the pile of the other, and the grains of both are within the
/// limit.
pub fn may_follow(first: &Record, next: &Record) -> bool
    ensures start { IsTrue result → (next.now.start ≡ first.now.settled.pile) }
    ensures limit { IsTrue result
        → sum first.now.start.heights + (length first.now.history + length next.now.history)
        ≤ most_grains_on first.now.start.grid }
{
    let drops = first.history().len() + next.history().len();
    let limit = first.start().shape().grain_limit();
    let is_within_limit = first.start().grains() + drops as u64 <= limit;
    next.start().equals(first.pile()) && is_within_limit
}

/// Makes all remaining drops of a pass at one site.
pub fn drop_rest(pile: &SharedPile, pass: &mut Pass, site: usize)
    requires pass { IsPassOf pile.now pass.old }
    requires site { site < sites (grid_of_terms pile.now.terms) }
    ensures { IsPassOf pile.now pass.new }
{
    'drops: for _ in 0..pass.left() {
        let _ = pile.drop_at(pass, site);
    }
}

/// The record of `drops` drops on the first site of a pile.
pub fn dropped_on(alloc: Global, start: &Pile, drops: u64) -> Result<Record, Fail>
    ensures { IfOk result (λ r. r.start ≡ start.now) }
{
    if start.shape().sites() == 0 {
        return Err("a pile without sites".into());
    }
    let (pile, mut pass) = SharedPile::new(alloc, start, drops)?;
    drop_rest(&pile, &mut pass, 0);
    let record = pile.close(alloc, pass).ok().ok_or("close")?;
    Ok(record)
}

/// The record of drops on one site of this height.
pub fn dropped_on_a_site(alloc: Global, height: u64, drops: u64) -> Result<Record, Fail> {
    let start = one_site(alloc, height)?;
    let record = dropped_on(alloc, &start, drops);
    drop(start);
    record
}

/// The record of one more drop, which may follow another.
pub fn one_more(alloc: Global, first: &Record) -> Result<Record, Fail>
    ensures start { IfOk result (λ r. r.start ≡ first.now.settled.pile) }
    ensures limit { IfOk result
        (λ r. sum first.now.start.heights + (length first.now.history + length r.history)
        ≤ most_grains_on first.now.start.grid) }
{
    let next = dropped_on(alloc, first.pile(), 1)?;
    if !may_follow(first, &next) {
        return Err("too many grains".into());
    }
    Ok(next)
}
