//! The pile that threads share: how it is made, single drops, and the tally.

ghost use Rattle.std.specs.Prelude.{◌≡◌, ◌+◌, ◌-◌, ◌<◌, ◌≤◌, ◌↔◌, [], ◌∷◌, ◌++◌, sum, IfOk, IsErr, OnErr, IsTrue};
ghost use Rattle.sand_model.specs.Grid.{sites};
ghost use Rattle.sand_shared.specs.OpenPile.{grid_of_terms};
ghost use Rattle.sand_shared.specs.Events.{receipt, zeros};
ghost use Rattle.sand_shared.specs.Passes.{IsPassOf, IsWhole};
ghost use Rattle.sand_model.specs.Piles.{most_grains_on};

use crate::bare_pass::BarePass;
use crate::faults::{DropFault, SharedFault};
use crate::pass::Pass;
use crate::record::copy_of;
use crate::rows::Rows;
use crate::steps::Words;
use crate::view::{Receipt, Terms};
use sand_model::Pile;
use std::alloc::Global;
use std::marker::{Brand, Model};

/// A pile of sand that many threads share by reference, each with its own pass.
///
/// Its calls take single atomic steps and never wait for another thread. At every moment its words and its passes are
/// an open pile to which the events of `specs/Events` have led, and so a lawful one (`laws::lawful_at_every_moment`).
///
/// An example that runs is `crates/sand_race`.
#[derive(Drop)]
pub struct SharedPile {
    pub(crate) words: Words,
}

impl Model for SharedPile {
    ghost use Rattle.sand_shared.specs.Passes.{SharedView};

    ghost Value = { SharedView };

    ghost view = { λ p. p.words };
}

impl SharedPile {
    /// A pile with the heights of `start`, which may be unstable, and its first pass, which has the whole quota and all
    /// rows, has seen no drop and has no receipts. Returns TooManyGrains if the start and the quota together exceed the
    /// limit; else Memory if an allocation fails.
    pub fn new(alloc: Global, start: &Pile, quota: u64) -> Result<(SharedPile, Pass), SharedFault>
        ensures limit { (result ≡ Err SharedFault.TooManyGrains) ↔ (most_grains_on start.now.grid < sum start.now.heights + quota) }
        ensures terms { IfOk result (λ r. r.0.terms ≡ record { start = start.now; quota = quota }) }
        ensures of_pile { IfOk result (λ r. IsPassOf r.0 r.1) }
        ensures pass { IfOk result (λ r. r.1 ≡ record {
          table = r.0.table;
          grid = start.now.grid;
          left = quota;
          seen = 0;
          receipts = [];
          rows = record { first = 0; end = start.now.grid.height };
          counts = zeros (sites start.now.grid);
        }) }
    {
        let shape = start.shape();
        if quota > shape.grain_limit() - start.grains() {
            return Err(SharedFault::TooManyGrains);
        }
        let receipts = Vec::with_capacity(alloc, quota as usize)?;
        let counts = vec![in alloc; 0u64; shape.sites()]?;
        let start = copy_of(alloc, start)?;
        let (words, seat) = Words::new(alloc, Terms { start, quota })?;
        let rows = Rows {
            first: 0,
            end: shape.height() as u16,
        };
        let bare = BarePass {
            seat,
            shape,
            left: quota,
            seen: 0,
            made: 0,
            rows,
            counts,
        };
        Ok((SharedPile { words }, Pass { bare, receipts }))
    }

    /// Drops a grain on a site, and returns the number of the drop in the history. Returns Spent if the pass has no
    /// quota left.
    pub fn drop_at(&self, pass: &mut Pass, site: usize) -> Result<u64, DropFault>
        requires pass { IsPassOf self.now pass.old }
        requires site { site < sites (grid_of_terms self.now.terms) }
        ensures of_pile { IsPassOf self.now pass.new }
        ensures spent { IsErr result ↔ (pass.old.left ≡ 0) }
        ensures unchanged { OnErr result (pass.new ≡ pass.old) }
        ensures after_all_seen { IfOk result (λ n. pass.old.seen ≤ n) }
        ensures in_the_quota { IfOk result (λ n. n < self.now.terms.quota) }
        ensures pass { IfOk result (λ n. pass.new ≡ record pass.old {
          left = pass.old.left - 1;
          seen = n + 1;
          receipts = pass.old.receipts ++ receipt n site ∷ [];
        }) }
    {
        let bare = &mut pass.bare;
        if bare.left == 0 {
            return Err(DropFault::Spent);
        }
        let number = self.words.draw::<Brand>(&mut bare.seat, &[site]);
        self.words.place::<Brand>(&mut bare.seat, site, 1);
        bare.left -= 1;
        bare.seen = number + 1;
        bare.made += 1;
        pass.receipts.push_reserved(Receipt { number, site });
        Ok(number)
    }

    /// How many drops have begun so far.
    pub fn tally(&self, pass: &mut Pass) -> u64
        requires { IsPassOf self.now pass.old }
        ensures of_pile { IsPassOf self.now pass.new }
        ensures at_least_seen { pass.old.seen ≤ result }
        ensures in_the_quota { result ≤ self.now.terms.quota }
        ensures pass { pass.new ≡ record pass.old { seen = result } }
    {
        let bare = &mut pass.bare;
        let drops = self.words.count::<Brand>(&mut bare.seat);
        bare.seen = drops;
        drops
    }

    /// Whether the pass has the whole quota, unspent or as receipts, and all rows.
    pub fn is_whole(&self, pass: &Pass) -> bool
        requires { IsPassOf self.now pass.now }
        ensures { IsTrue result ↔ IsWhole self.now.terms pass.now }
    {
        pass.bare.is_whole(self.words.terms())
    }
}
