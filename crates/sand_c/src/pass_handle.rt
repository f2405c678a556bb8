//! A pass of a shared pile that C holds: one pointer, null or at the pass in a block of its own.

ghost use Rattle.std.specs.Prelude.{◌≡◌, Option, Some, None, MatchOption};
ghost use Rattle.sand_c.specs.OwnedPasses.{OwnedPassView};
ghost use Rattle.std.specs.Coded.{coded_option};
ghost use Rattle.sand_c.specs.Handles.{owns_at};
ghost use Rattle.sand_c.specs.contracts.owned_pass.OwnedPass.{the_row};

use crate::owned_pass::OwnedPass;
use crate::parts::Parts;
use std::alloc::Global;
use std::marker::Model;
use std::ptr::null_mut;

/// A pass of a shared pile, or nothing. `held` is what contracts see of it.
#[repr(C)]
#[derive(Drop)]
pub struct SandpilePass {
    at: *mut u8,
    pub ghost held: { Option OwnedPassView } by { coded_option the_row.coded },
}

impl Model for SandpilePass {
    ghost also_owns = { λ h. owns_at the_row h.at h.held };
}

impl SandpilePass {
    fn empty() -> SandpilePass
        ensures { result.held ≡ None }
    {
        SandpilePass { at: null_mut() }
    }

    fn of_parts(parts: Parts<OwnedPass, Global>) -> SandpilePass
        ensures { result.held ≡ Some parts.value }
    {
        let Parts { at, alloc: _ } = parts;
        SandpilePass { at: at as *mut u8 }
    }

    fn into_parts(self, alloc: Global) -> Option<Parts<OwnedPass, Global>>
        ensures { MatchOption result (self.held ≡ None) (λ p. self.held ≡ Some p.value) }
    {
        let SandpilePass { at } = self;
        if at.is_null() {
            None
        } else {
            let at = at as *mut OwnedPass;
            Some(Parts { at, alloc })
        }
    }

    /// Takes out what it holds.
    pub(crate) fn take(&mut self, alloc: Global) -> Option<Box<OwnedPass>>
        ensures taken { MatchOption result (self.old.held ≡ None) (λ b. self.old.held ≡ Some b.value) }
        ensures emptied { self.new.held ≡ None }
    {
        let handle = std::mem::replace(self, SandpilePass::empty());
        match handle.into_parts(alloc) {
            Some(parts) => Some(parts.into_box()),
            None => None,
        }
    }

    /// Frees what it holds, and returns an empty handle.
    pub(crate) fn freed(mut self, alloc: Global) -> SandpilePass
        ensures { result.held ≡ None }
    {
        drop(self.take(alloc));
        self
    }

    /// Makes it hold this. It must be empty: what it held would be neither freed nor reached any more.
    pub(crate) fn put(&mut self, held: Box<OwnedPass>)
        requires { self.old.held ≡ None }
        ensures { self.new.held ≡ Some held.value }
    {
        *self = SandpilePass::of_parts(Parts::of(held));
    }
}

unsafe impl Send for SandpilePass {}
