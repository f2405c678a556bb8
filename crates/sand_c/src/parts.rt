//! A box as its pointer, for a handle that C holds.

ghost use Rattle.std.specs.Prelude.{◌≡◌};
ghost use Rattle.std.specs.Box.Ownership.{box_owns};

use std::alloc::Allocator;
use std::marker::Model;

/// What a box is made of: a pointer to its value, and the allocator that frees the block. `value` is the value there.
pub struct Parts<T, A: Allocator> {
    pub(crate) at: *mut T,
    pub(crate) alloc: A,
    pub ghost value: { T },
}

impl<T, A: Allocator> Model for Parts<T, A> {
    ghost also_owns = { λ p. box_owns (A.dealloc_token p.alloc) T.row p.at p.value };
}

impl<T, A: Allocator> Parts<T, A> {
    pub(crate) fn of(held: Box<T, A>) -> Parts<T, A>
    where
        T: Drop,
        ensures { result.value ≡ held.value }
    {
        let (at, alloc) = Box::into_raw_with_allocator(held);
        Parts { at, alloc }
    }

    pub(crate) fn into_box(self) -> Box<T, A>
        ensures { result.value ≡ self.value }
    {
        let Parts { at, alloc } = self;
        unsafe { Box::from_raw(alloc, at) }
    }
}
