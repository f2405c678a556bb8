//! Splitting a pass: part of its quota, or its last rows, go to a new pass.

ghost use Rattle.std.specs.Prelude.{◌≡◌, ◌≢◌, ◌-◌, ◌<◌, ◌↔◌, [], take, drop, IfOk, OnOk, OnErr};
ghost use Rattle.sand_shared.specs.Passes.{IsPassOf, sites_kept};
ghost use Rattle.sand_shared.specs.Rows.{no_rows, count_of, upper_rows, lower_rows};

use crate::bare_pass::BarePass;
use crate::faults::SplitFault;
use crate::pass::Pass;
use crate::rows::Rows;
use crate::shared_pile::SharedPile;
use std::alloc::Global;
use std::marker::Brand;

impl SharedPile {
    /// Moves `quota` from a pass to a new one, which has seen as much and has no receipts and no rows. Returns TooMuch
    /// if the pass has less left; else Memory if an allocation fails.
    pub fn split(&self, alloc: Global, pass: &mut Pass, quota: u64) -> Result<Pass, SplitFault>
        requires { IsPassOf self.now pass.old }
        ensures of_pile { IsPassOf self.now pass.new }
        ensures child_of_pile { IfOk result (λ c. IsPassOf self.now c) }
        ensures too_much { (result ≡ Err SplitFault.TooMuch) ↔ (pass.old.left < quota) }
        ensures not_rows { result ≢ Err SplitFault.Rows }
        ensures unchanged { OnErr result (pass.new ≡ pass.old) }
        ensures parent { OnOk result (pass.new ≡ record pass.old { left = pass.old.left - quota }) }
        ensures child { IfOk result
            (λ c. c ≡ record pass.old { left = quota; receipts = []; rows = no_rows; counts = [] }) }
    {
        let bare = &mut pass.bare;
        if bare.left < quota {
            return Err(SplitFault::TooMuch);
        }
        let receipts = Vec::with_capacity(alloc, quota as usize)?;
        let seen = bare.seen;
        let kept = bare.counts.len();
        let seat = self.words.split::<Brand>(&mut bare.seat, quota, kept);
        bare.left -= quota;
        let child = BarePass {
            seat,
            shape: bare.shape,
            left: quota,
            seen,
            made: 0,
            rows: Rows { first: 0, end: 0 },
            counts: Vec::new(alloc),
        };
        Ok(Pass {
            bare: child,
            receipts,
        })
    }

    /// Moves the last `k` rows of a pass, with their counts, to a new one, which has seen as much and has no quota and
    /// no receipts. Returns Rows if the pass has fewer rows; else Memory if an allocation fails.
    pub fn split_rows(&self, alloc: Global, pass: &mut Pass, k: u16) -> Result<Pass, SplitFault>
        requires { IsPassOf self.now pass.old }
        ensures of_pile { IsPassOf self.now pass.new }
        ensures child_of_pile { IfOk result (λ c. IsPassOf self.now c) }
        ensures rows { (result ≡ Err SplitFault.Rows) ↔ (count_of pass.old.rows < k) }
        ensures not_too_much { result ≢ Err SplitFault.TooMuch }
        ensures unchanged { OnErr result (pass.new ≡ pass.old) }
        ensures parent { OnOk result (pass.new ≡ record pass.old {
          rows = upper_rows pass.old.rows k;
          counts = take (sites_kept pass.old k) pass.old.counts;
        }) }
        ensures child { IfOk result (λ c. c ≡ record pass.old {
          left = 0;
          receipts = [];
          rows = lower_rows pass.old.rows k;
          counts = drop (sites_kept pass.old k) pass.old.counts;
        }) }
    {
        let bare = &mut pass.bare;
        if bare.rows.count() < k {
            return Err(SplitFault::Rows);
        }
        let kept = bare.counts.len() - usize::from(k) * bare.shape.width();
        let counts = Vec::from_slice(alloc, bare.counts.as_slice().split_at(kept).1)?;
        let (upper, lower) = bare.rows.cut(k);
        let seat = self.words.split::<Brand>(&mut bare.seat, 0, kept);
        bare.rows = upper;
        bare.counts.truncate(kept);
        let child = BarePass {
            seat,
            shape: bare.shape,
            left: 0,
            seen: bare.seen,
            made: 0,
            rows: lower,
            counts,
        };
        Ok(Pass {
            bare: child,
            receipts: Vec::new(alloc),
        })
    }
}
