//! Allocations that are refused on demand.
//!
//! The refusing library sees every allocation of the program. So a request for more memory than any machine has is a
//! message to it: the amount is the question, and whether it is granted is the reply. Without the library no such
//! request is granted, and nothing else is refused.

use std::alloc::Global;

const IS_HERE: usize = 1 << 60;

const END: usize = IS_HERE + 1;

const BEGIN: usize = IS_HERE + 2;

// The memory that the library grants here must not be used.
fn is_granted(alloc: Global, wish: usize) -> bool {
    let mut block: Vec<u8> = Vec::new(alloc);
    block.reserve_exact(wish).is_ok()
}

/// Whether the library is loaded.
pub fn can_refuse(alloc: Global) -> bool {
    is_granted(alloc, IS_HERE)
}

/// From now on refuses only allocation `number`, counted from 1; 0 refuses all.
pub fn refuse(alloc: Global, number: u32) {
    is_granted(alloc, BEGIN + number as usize);
}

/// From now on refuses nothing. Returns whether an allocation was refused.
pub fn was_refused(alloc: Global) -> bool {
    is_granted(alloc, END)
}
