//! What the rule of a shared pile knows of the pile and of each pass.

use sand_model::Pile;
use std::collections::LinkedList;

/// A drop: its number in the history, and its site.
#[derive(Clone, Copy, Debug, PartialEq, Eq)]
pub struct Receipt {
    pub number: u64,
    pub site: usize,
}

/// Grains in hand for one site. No value of it exists at run time.
pub struct Grains {
    pub site: usize,
    pub amount: u64,
}

/// What a pass has and knows. No value of it exists at run time.
pub struct View {
    /// How many grains it may still drop.
    pub left: u64,
    /// How many drops it knows have begun.
    pub seen: u64,
    pub receipts: LinkedList<Receipt>,
    /// Grains drawn or unloaded, and not yet laid.
    pub hand: LinkedList<Grains>,
    /// The first site of its rows, 0 if it has none.
    pub base: usize,
    /// How often each site of its rows has toppled since the pile was made.
    pub counts: LinkedList<u64>,
    /// The site at which it last looked.
    pub spot: usize,
    /// A lower bound on the grains there.
    pub least: u64,
}

/// What a shared pile begins with.
#[derive(Drop)]
pub struct Terms {
    pub start: Pile,
    pub quota: u64,
}
