//! Bare passes: passes without the list of their receipts, which the owner keeps. A `Pass` is a bare pass and its list.
//!
//! A receipt takes sixteen bytes, so joining many passes copies much. Bare passes are joined without their lists, which
//! other threads can read meanwhile. The rule of the pile still keeps track of their receipts.
//!
//! A caller can make a pass bare, and not the other way round. To be a `Pass` again it would need all of its list, in
//! order and with room for the drops that it has left. No call asks for that: `SharedPile::complete` takes a bare pass
//! and the history written from the lists.

ghost use Rattle.std.specs.Prelude.{◌↔◌, IsTrue};
ghost use Rattle.sand_shared.specs.Passes.{IsWhole};

use crate::rows::Rows;
use crate::view::{Terms, View};
use atomic_table::Seat;
use sand_model::Shape;
use std::marker::Model;

/// A pass without its list of receipts, which the owner keeps. To contracts it is a pass with its receipts.
///
/// It is one-way: a caller cannot turn it back into a `Pass`.
#[derive(Drop)]
pub struct BarePass {
    pub(crate) seat: Seat<u8, View>,
    pub(crate) shape: Shape,
    pub(crate) left: u64,
    pub(crate) seen: u64,
    pub(crate) made: u64,
    pub(crate) rows: Rows,
    pub(crate) counts: Vec<u64>,
}

impl Model for BarePass {
    ghost use Rattle.sand_shared.specs.Passes.{PassView};
    ghost use Rattle.sand_shared.specs.Bare.{shown, IsBare};

    ghost Value = { PassView };

    ghost view = { shown };

    ghost invariant = { IsBare };
}

impl BarePass {
    /// Whether it has the whole quota, unspent or as receipts, and all rows.
    pub(crate) fn is_whole(&self, terms: &Terms) -> bool
        ensures { IsTrue result ↔ IsWhole terms.now self.now }
    {
        self.made <= terms.quota
            && self.left == terms.quota - self.made
            && self.rows.first == 0
            && usize::from(self.rows.end) == terms.start.shape().height()
    }
}
