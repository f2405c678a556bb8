//! Joining passes of one pile.

ghost use Rattle.std.specs.Prelude.{◌≡◌, ℕ, ◌+◌, ◌++◌, ◌↔◌, if◌then◌else◌, All, sum_by, IfErr, OnOk, OnErr};
ghost use Rattle.sand_shared.specs.Joins.{StopsAt};
ghost use Rattle.sand_shared.specs.OpenPile.{receipts_for};
ghost use Rattle.sand_shared.specs.Passes.{IsPassOf, together, together_all};
ghost use Rattle.sand_shared.specs.Rows.{AreApart};

use crate::bare_pass::BarePass;
use crate::faults::JoinFault;
use crate::pass::Pass;
use crate::shared_pile::SharedPile;
use std::alloc::{AllocError, Global};
use std::marker::Brand;

// Puts the second list after the first, or in front of it if they are not in order.
fn lay_together(
    first: &mut Vec<u64>,
    second: &mut Vec<u64>,
    in_order: bool,
) -> Result<(), AllocError>
    ensures together { OnOk result (first.new.items
        ≡ (if in_order then first.old.items ++ second.old.items else second.old.items ++ first.old.items)) }
    ensures unchanged { OnErr result ((first.new.items ≡ first.old.items) × (second.new.items ≡ second.old.items)) }
{
    if in_order {
        return first.extend_from_slice(second.as_slice());
    }
    second.extend_from_slice(first.as_slice())?;
    std::mem::swap(first, second);
    Ok(())
}

impl SharedPile {
    /// Joins `other`, a pass of the same pile, to `pass`: adds its quota, appends its receipts, takes its rows with
    /// their counts, and keeps the greater `seen`. Returns Apart if the rows do not touch; else Memory if an allocation
    /// fails. Both errors give `other` back.
    pub fn join(&self, alloc: Global, pass: &mut Pass, other: Pass) -> Result<(), (JoinFault, Pass)>
        requires pass { IsPassOf self.now pass.old }
        requires other { IsPassOf self.now other }
        ensures of_pile { IsPassOf self.now pass.new }
        ensures joined { OnOk result (pass.new ≡ together pass.old other) }
        ensures by_site { OnOk result ((i : ℕ) → receipts_for pass.new.receipts i
            ≡ receipts_for pass.old.receipts i + receipts_for other.receipts i) }
        ensures touching { OnOk result (¬ AreApart pass.old.rows other.rows) }
        ensures apart { IfErr result (λ e. (e.0 ≡ JoinFault.Apart) ↔ AreApart pass.old.rows other.rows) }
        ensures unchanged { OnErr result (pass.new ≡ pass.old) }
        ensures back { IfErr result (λ e. e.1 ≡ other) }
    {
        if !pass.bare.rows.touch(other.bare.rows) {
            return Err((JoinFault::Apart, other));
        }
        let room = pass.bare.left as usize + other.receipts.len() + other.bare.left as usize;
        if let Err(error) = pass.receipts.reserve(room) {
            return Err((JoinFault::Memory(error), other));
        }
        let Pass { bare, receipts } = other;
        if let Err((fault, bare)) = self.join_bare(alloc, &mut pass.bare, bare) {
            return Err((fault, Pass { bare, receipts }));
        }
        pass.receipts
            .extend_from_slice(receipts.as_slice())
            .unwrap();
        Ok(())
    }

    /// Joins the passes of a list to `first`, in order, as `SharedPile::join` does. Returns the error of the first join
    /// that fails, with the passes that are not joined, in order; those before them stay joined.
    pub fn join_all(
        &self,
        alloc: Global,
        first: &mut Pass,
        mut passes: Vec<Pass>,
    ) -> Result<(), (JoinFault, Vec<Pass>)>
        requires first { IsPassOf self.now first.old }
        requires passes { All (IsPassOf self.now) passes.items }
        ensures of_pile { IsPassOf self.now first.new }
        ensures joined { OnOk result (first.new ≡ together_all first.old passes.items) }
        ensures by_site { OnOk result ((i : ℕ) → receipts_for first.new.receipts i
            ≡ receipts_for first.old.receipts i + sum_by (λ p. receipts_for p.receipts i) passes.items) }
        ensures stops { IfErr result (λ e. StopsAt first.old passes.items e.0 first.new e.1.items) }
        ensures back { IfErr result (λ e. All (IsPassOf self.now) e.1.items) }
    {
        passes.reverse();
        'passes: while let Some(pass) = passes.pop() {
            if let Err((fault, refused)) = self.join(alloc, first, pass) {
                passes.push_reserved(refused);
                passes.reverse();
                return Err((fault, passes));
            }
        }
        Ok(())
    }

    /// Joins two bare passes of one pile, as `SharedPile::join` does. The receipts of `other` come after those of
    /// `pass`.
    pub fn join_bare(
        &self,
        _alloc: Global,
        pass: &mut BarePass,
        mut other: BarePass,
    ) -> Result<(), (JoinFault, BarePass)>
        requires pass { IsPassOf self.now pass.old }
        requires other { IsPassOf self.now other }
        ensures of_pile { IsPassOf self.now pass.new }
        ensures joined { OnOk result (pass.new ≡ together pass.old other) }
        ensures touching { OnOk result (¬ AreApart pass.old.rows other.rows) }
        ensures apart { IfErr result (λ e. (e.0 ≡ JoinFault.Apart) ↔ AreApart pass.old.rows other.rows) }
        ensures unchanged { OnErr result (pass.new ≡ pass.old) }
        ensures back { IfErr result (λ e. e.1 ≡ other) }
    {
        if !pass.rows.touch(other.rows) {
            return Err((JoinFault::Apart, other));
        }
        let in_order = pass.rows.are_followed_by(other.rows);
        if let Err(error) = lay_together(&mut pass.counts, &mut other.counts, in_order) {
            return Err((JoinFault::Memory(error), other));
        }
        let BarePass {
            seat,
            shape: _,
            left,
            seen,
            made,
            rows,
            counts: _,
        } = other;
        self.words.join(&mut pass.seat, seat);
        self.words.learn::<Brand>(&mut pass.seat);
        pass.left += left;
        pass.made += made;
        pass.seen = pass.seen.max(seen);
        pass.rows = pass.rows.together(rows);
        Ok(())
    }
}
