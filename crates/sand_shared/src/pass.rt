//! Passes: what a thread holds to drop grains on a shared pile and to topple some of its rows.
//!
//! A pass is a bare pass and the list of its receipts. All that the shared words know of it is in its bare part; the
//! list is for its owner, with room for the receipts of the drops that it has left.

ghost use Rattle.std.specs.Prelude.{◌≡◌, ◌+◌, ◌-◌, ◌*◌, ◌≤◌, length, vec_capacity};
ghost use Rattle.sand_shared.specs.Passes.{EachOnce, AllBelow, at_rest};
ghost use Rattle.sand_shared.specs.Rows.{HoldsSite};
ghost use Rattle.sand_shared.specs.OpenPile.{toppled_by};

use crate::bare_pass::BarePass;
use crate::view::Receipt;
use std::marker::Model;

/// The right to drop a number of grains on a shared pile and to topple some of its rows.
///
/// One thread holds it at a time, and may send it to another. What a pass says of itself stays true whatever other
/// threads do: nobody else can draw the number of one of its receipts, use its quota, or topple its rows. `seen` is how
/// many drops it knows have begun; there may be more by now.
///
/// A pass with no quota left, no receipts and no rows may be discarded. If any other pass is discarded, the pile can no
/// longer be closed.
#[derive(Drop)]
pub struct Pass {
    pub(crate) bare: BarePass,
    pub(crate) receipts: Vec<Receipt>,
}

impl Model for Pass {
    ghost use Rattle.std.specs.Prelude.{vec_capacity};
    ghost use Rattle.sand_shared.specs.Passes.{PassView, IsListed};

    ghost Value = { PassView };

    ghost view = { λ p. p.bare };

    ghost invariant = { λ p. IsListed p.bare p.receipts.items (vec_capacity p.receipts) };
}

impl Pass {
    /// How many grains it may still drop.
    pub fn left(&self) -> u64
        ensures { result ≡ self.now.left }
    {
        self.bare.left
    }

    /// How many drops it knows have begun.
    pub fn seen(&self) -> u64
        ensures { result ≡ self.now.seen }
    {
        self.bare.seen
    }

    /// The drops made with it and with passes joined to it.
    pub fn receipts(&self) -> &[Receipt]
        ensures value { result.now ≡ self.now.receipts }
        ensures each_once { EachOnce self.now.receipts }
        ensures seen { AllBelow self.now.seen self.now.receipts }
    {
        // For the proof: what a pass says of its receipts.
        let _ = &self.bare.seat;
        self.receipts.as_slice()
    }

    /// Its first row, and one past its last; both are 0 if it has none.
    pub fn rows(&self) -> (u16, u16)
        ensures { result ≡ (self.now.rows.first, self.now.rows.end) }
    {
        (self.bare.rows.first, self.bare.rows.end)
    }

    /// How often a site of its rows has toppled since the pile was made.
    pub fn toppled(&self, site: usize) -> u64
        requires { HoldsSite self.now.grid self.now.rows site }
        ensures { result ≡ toppled_by (at_rest self.now) site }
    {
        let bare = &self.bare;
        bare.counts[site - usize::from(bare.rows.first) * bare.shape.width()]
    }

    /// Separates a pass from the list of its receipts, for good: no call puts them together again.
    pub fn into_bare(self) -> (BarePass, Vec<Receipt>)
        ensures bare { result.0 ≡ self }
        ensures receipts { result.1.items ≡ self.receipts }
        ensures room { length self.receipts + self.left ≤ vec_capacity result.1 }
    {
        let Pass { bare, receipts } = self;
        (bare, receipts)
    }
}
