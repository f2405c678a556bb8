//! Handles that are lent to calls that only read.
//!
//! Behind a `&` of C no type may show what a pointer leads to. So these own nothing, and a call that reads one requires that
//! C lends it what the handle holds (`is_lent`), for some lifetime and with a share of its token, which it gets back.

/// A handle of a driven pile: null, or at the pile.
#[repr(C)]
pub struct LentDrive(pub(crate) *const u8);

/// A handle of a pass: null, or at the pass.
#[repr(C)]
pub struct LentPass(pub(crate) *const u8);
