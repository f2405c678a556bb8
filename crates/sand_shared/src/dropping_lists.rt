//! Dropping a list of grains: a pass draws numbers for all of them in one step, and then lays the grains of each site
//! in one step.
//!
//! So threads rarely contend for a word: they write the number word once a list, and a site's word once for all its
//! grains in the list. Counters by site say how many these are. They start at 0, grow while the list is counted, and
//! return to 0 one by one as the grains are laid, so no scan of the whole grid is needed.

ghost use Rattle.std.specs.Prelude.{◌≡◌, ℕ, ◌+◌, ◌-◌, ◌^◌, ◌<◌, ◌≤◌, ◌↔◌, [], ◌++◌, All, length, slice_index, vec_capacity, IfOk, IsErr, OnOk, OnErr};
ghost use Rattle.sand_model.specs.Grid.{sites};
ghost use Rattle.sand_model.specs.Sand.{occurrences};
ghost use Rattle.sand_shared.specs.OpenPile.{grid_of_terms, receipts_for};
ghost use Rattle.sand_shared.specs.Events.{zeros, receipts_from, one_for_each};
ghost use Rattle.sand_shared.specs.Passes.{IsPassOf};
ghost use Rattle.sand_shared.specs.Seats.{IsSeatAt, StaysSeated};

use crate::faults::DropFault;
use crate::pass::Pass;
use crate::shared_pile::SharedPile;
use crate::site_counts::SiteCounts;
use crate::steps::{PassSeat, Words};
use crate::view::Receipt;
use std::marker::Brand;

// Counts the drops of a list by site.
fn count_sites(counts: &mut Vec<u64>, drops: &[usize])
    requires none { (i : ℕ) → i < length counts.old.items → slice_index counts.old.items i ≡ 0 }
    requires inside { All (λ i. i < length counts.old.items) drops.now }
    ensures len { length counts.new.items ≡ length counts.old.items }
    ensures counted { (i : ℕ) → i < length counts.old.items → slice_index counts.new.items i ≡ occurrences drops.now i }
{
    'drops: for site in drops.iter() {
        counts[*site] += 1;
    }
}

impl Words {
    // Lays the grains in hand, one for each drop of a list, on their sites, and resets their counts to 0.
    fn place_all(&self, seat: &mut PassSeat, drops: &[usize], counts: &mut Vec<u64>)
        requires seat { IsSeatAt self.now seat.old }
        requires hand { seat.old.me.0.hand ≡ one_for_each drops.now }
        requires inside { All (λ i. i < sites (grid_of_terms self.now.terms)) drops.now }
        requires len { length counts.old.items ≡ sites (grid_of_terms self.now.terms) }
        requires counted { (i : ℕ) → i < sites (grid_of_terms self.now.terms)
            → slice_index counts.old.items i ≡ occurrences drops.now i }
        ensures seat { StaysSeated seat.old seat.new }
        ensures view { seat.new.me.0 ≡ record seat.old.me.0 { hand = [] } }
        ensures none { counts.new.items ≡ zeros (sites (grid_of_terms self.now.terms)) }
    {
        'drops: for site in drops.iter() {
            let amount = counts[*site];
            if amount != 0 {
                self.place::<Brand>(seat, *site, amount);
                counts[*site] = 0;
            }
        }
    }
}

// Appends the receipts of consecutive drops, numbered from `number` on.
fn note(receipts: &mut Vec<Receipt>, number: u64, drops: &[usize])
    requires room { length receipts.old.items + length drops.now ≤ vec_capacity receipts.old }
    requires fits { number + length drops.now < 2 ^ 64 }
    ensures items { receipts.new.items ≡ receipts.old.items ++ receipts_from number drops.now }
    ensures room { vec_capacity receipts.new ≡ vec_capacity receipts.old }
{
    let mut next = number;
    'drops: for site in drops.iter() {
        receipts.push_reserved(Receipt {
            number: next,
            site: *site,
        });
        next += 1;
    }
}

impl SharedPile {
    /// Drops a grain on each site of a list, in order, with consecutive numbers. Returns the first number; for an empty
    /// list, what the pass has seen. Returns Spent if the pass has less quota left than the list is long.
    pub fn drop_all(
        &self,
        pass: &mut Pass,
        drops: &[usize],
        counts: &mut SiteCounts,
    ) -> Result<u64, DropFault>
        requires pass { IsPassOf self.now pass.old }
        requires inside { All (λ i. i < sites (grid_of_terms self.now.terms)) drops.now }
        requires counts { counts.old ≡ grid_of_terms self.now.terms }
        ensures of_pile { IsPassOf self.now pass.new }
        ensures counts { counts.new ≡ counts.old }
        ensures spent { IsErr result ↔ (pass.old.left < length drops.now) }
        ensures unchanged { OnErr result (pass.new ≡ pass.old) }
        ensures after_all_seen { IfOk result (λ n. pass.old.seen ≤ n) }
        ensures empty { IfOk result (λ n. length drops.now ≡ 0 → n ≡ pass.old.seen) }
        ensures in_the_quota { IfOk result (λ n. 0 < length drops.now → n + length drops.now ≤ self.now.terms.quota) }
        ensures pass { IfOk result (λ n. pass.new ≡ record pass.old {
          left = pass.old.left - length drops.now;
          seen = n + length drops.now;
          receipts = pass.old.receipts ++ receipts_from n drops.now;
        }) }
        ensures by_site { OnOk result ((i : ℕ)
            → receipts_for pass.new.receipts i ≡ receipts_for pass.old.receipts i + occurrences drops.now i) }
    {
        let count = drops.len() as u64;
        let bare = &mut pass.bare;
        if bare.left < count {
            return Err(DropFault::Spent);
        }
        if count == 0 {
            return Ok(bare.seen);
        }
        count_sites(&mut counts.counts, drops);
        let number = self.words.draw::<Brand>(&mut bare.seat, drops);
        self.words
            .place_all(&mut bare.seat, drops, &mut counts.counts);
        bare.left -= count;
        bare.seen = number + count;
        bare.made += count;
        note(&mut pass.receipts, number, drops);
        Ok(number)
    }
}
