//! The words that threads share, and the steps on them. The contracts from draw to deliver name the event, or the
//! events in a row, that a step is. Those of split and join say what the passes have afterwards, and `learn` is a load
//! that is no event.
//!
//! A parameter that only the contract names, such as the quota of a split, begins with an underscore.

ghost use Rattle.std.specs.Prelude.{◌≡◌, ℕ, ◌+◌, ◌-◌, ◌*◌, ◌^◌, ◌<◌, ◌≤◌, ◌||◌, true, [], ◌∷◌, All, length, count_by, slice_index, vec_capacity, IfOk};
ghost use Rattle.std.specs.Mem.Slots.{slots_items, slots_len, IsFull};
ghost use Rattle.sand_model.specs.Grid.{sites, places};
ghost use Rattle.sand_shared.specs.OpenPile.{grid_of_terms, holds_site, AreTerms};
ghost use Rattle.sand_shared.specs.Events.{all_draws, all_places, count, split, look, unload, deliver, grains_for, are_for, behind_first, first_pass, parent, child, joined, follows};
ghost use Rattle.sand_shared.specs.Running.{Happened, Stands};
ghost use Rattle.sand_shared.specs.Record.{IsLast};
ghost use Rattle.sand_shared.specs.Seats.{IsSeatAt, StaysSeated};

use crate::rule::{Cut, Gather, Picked, Running, Take};
use crate::view::{Terms, View};
use atomic_table::{Closed, Seat, Table};
use sand_model::{Lattice, TOPPLING_HEIGHT};
use std::alloc::{AllocError, Global};
use std::marker::Model;

pub(crate) type PassSeat = Seat<u8, View>;

/// The words that threads share: the number of draws, and the height of each site. The lattice of their grid finds
/// neighbours without a division.
#[derive(Drop)]
pub(crate) struct Words {
    table: Table<u8, View, Terms, Running, Global>,
    terms: Terms,
    lattice: Lattice,
}

impl Model for Words {
    ghost use Rattle.sand_shared.specs.Passes.{SharedView};
    ghost use Rattle.sand_shared.specs.Seats.{AreWords};

    ghost Value = { SharedView };

    ghost view = { λ w. record { table = w.table.shared.table_id; terms = w.terms } };

    ghost invariant = { λ w.
        AreWords w.table.shared.key w.lattice (record { table = w.table.shared.table_id; terms = w.terms }) };
}

impl Words {
    /// The words of a new pile, and the seat of its first pass.
    pub(crate) fn new(alloc: Global, terms: Terms) -> Result<(Words, PassSeat), AllocError>
        requires { AreTerms terms }
        ensures terms { IfOk result (λ w. w.0.terms ≡ terms) }
        ensures seat { IfOk result (λ w. IsSeatAt w.0 w.1) }
        ensures first { IfOk result (λ w. w.1.me.0 ≡ first_pass terms) }
    {
        let heights = terms.start.heights();
        let mut words = Vec::with_capacity(alloc, heights.len() + 2)?;
        words.push_reserved(0);
        words.push_reserved(0);
        words.extend_from_slice(heights)?;
        let lattice = Lattice::new(alloc, terms.start.shape())?;
        let (table, seat) = Table::of_words(alloc, words.as_slice(), &terms)?;
        let words = Words {
            table,
            terms,
            lattice,
        };
        Ok((words, seat))
    }

    pub(crate) fn terms(&self) -> &Terms
        ensures value { result.now ≡ self.now.terms }
        ensures terms { AreTerms self.now.terms }
    {
        &self.terms
    }

    /// For the proof: the terms are within their limits. Does nothing at run time.
    #[inline(always)]
    pub(crate) fn tell_limits(&self)
        ensures { AreTerms self.now.terms }
    {
        let _ = &self.terms;
    }

    /// The places north, west, east and south of a site, in that order.
    #[inline(always)]
    pub(crate) fn neighbours(&self, site: usize) -> [Option<usize>; 4]
        requires { site < sites (grid_of_terms self.now.terms) }
        ensures { result ≡ places (grid_of_terms self.now.terms) site }
    {
        self.lattice.neighbours(site)
    }

    /// Draws consecutive numbers for grains on some sites, in one step. Returns the first.
    pub(crate) fn draw<J: Picked>(&self, seat: &mut PassSeat, drops: &[usize]) -> u64
        requires seat { IsSeatAt self.now seat.old }
        requires some { 0 < length drops.now }
        requires left { length drops.now ≤ seat.old.me.0.left }
        requires inside { All (λ i. i < sites (grid_of_terms self.now.terms)) drops.now }
        requires picked { (J.terms ≡ self.now.terms) × (J.pass ≡ seat.old.id)
            × (J.events ≡ all_draws seat.old.id drops.now) }
        ensures seat { StaysSeated seat.old seat.new }
        ensures happened { Happened self.now.terms seat.old.id
            (all_draws seat.old.id drops.now) seat.old.me.0 result seat.new.me.0 }
    {
        self.table
            .shared
            .fetch_add::<Take<J>>(seat, 1, drops.len() as u64)
    }

    /// Lays `amount` of the grains drawn for a site on it, in one step.
    pub(crate) fn place<J: Picked>(&self, seat: &mut PassSeat, site: usize, amount: u64)
        requires seat { IsSeatAt self.now seat.old }
        requires some { 0 < amount }
        requires hand { amount ≤ count_by (are_for site 1) seat.old.me.0.hand }
        requires site { site < sites (grid_of_terms self.now.terms) }
        requires picked { (J.terms ≡ self.now.terms) × (J.pass ≡ seat.old.id)
            × (J.events ≡ all_places seat.old.id site amount) }
        ensures seat { StaysSeated seat.old seat.new }
        ensures happened { (n : ℕ)
            × Happened self.now.terms seat.old.id (all_places seat.old.id site amount) seat.old.me.0 n seat.new.me.0 }
    {
        self.table
            .shared
            .fetch_add::<Take<J>>(seat, site + 2, amount);
    }

    /// Reads how many drops have begun.
    pub(crate) fn count<J: Picked>(&self, seat: &mut PassSeat) -> u64
        requires seat { IsSeatAt self.now seat.old }
        requires picked { (J.terms ≡ self.now.terms) × (J.pass ≡ seat.old.id) × (J.events ≡ count seat.old.id ∷ []) }
        ensures seat { StaysSeated seat.old seat.new }
        ensures happened { Happened self.now.terms seat.old.id
            (count seat.old.id ∷ []) seat.old.me.0 result seat.new.me.0 }
    {
        self.table.shared.load::<Take<J>>(seat, 1)
    }

    /// Reads the height of a site of the pass's rows.
    pub(crate) fn look<J: Picked>(&self, seat: &mut PassSeat, site: usize) -> u64
        requires seat { IsSeatAt self.now seat.old }
        requires own { holds_site seat.old.me.0 site ≡ true }
        requires site { site < sites (grid_of_terms self.now.terms) }
        requires picked { (J.terms ≡ self.now.terms) × (J.pass ≡ seat.old.id)
            × (J.events ≡ look seat.old.id site ∷ []) }
        ensures seat { StaysSeated seat.old seat.new }
        ensures happened { Happened self.now.terms seat.old.id
            (look seat.old.id site ∷ []) seat.old.me.0 result seat.new.me.0 }
    {
        self.table.shared.load::<Take<J>>(seat, site + 2)
    }

    /// Takes `4 * times` grains from the site at which the pass looked; then `times` for each neighbour are in hand.
    pub(crate) fn unload<J: Picked>(&self, seat: &mut PassSeat, site: usize, times: u64)
        requires seat { IsSeatAt self.now seat.old }
        requires own { (holds_site seat.old.me.0 site ≡ true) × (seat.old.me.0.spot ≡ site) }
        requires there { 4 * times ≤ seat.old.me.0.least }
        requires site { site < sites (grid_of_terms self.now.terms) }
        requires fits { 4 * times < 2 ^ 64 }
        requires picked { (J.terms ≡ self.now.terms) × (J.pass ≡ seat.old.id)
            × (J.events ≡ unload seat.old.id site times ∷ []) }
        ensures seat { StaysSeated seat.old seat.new }
        ensures happened { (n : ℕ)
            × Happened self.now.terms seat.old.id (unload seat.old.id site times ∷ []) seat.old.me.0 n seat.new.me.0 }
    {
        self.table
            .shared
            .fetch_sub::<Take<J>>(seat, site + 2, TOPPLING_HEIGHT * times);
    }

    /// Lays the first grains in hand on their site.
    pub(crate) fn deliver<J: Picked>(&self, seat: &mut PassSeat, site: usize, times: u64)
        requires seat { IsSeatAt self.now seat.old }
        requires hand { seat.old.me.0.hand ≡ grains_for site times ∷ behind_first seat.old.me.0.hand }
        requires site { site < sites (grid_of_terms self.now.terms) }
        requires picked { (J.terms ≡ self.now.terms) × (J.pass ≡ seat.old.id)
            × (J.events ≡ deliver seat.old.id site times ∷ []) }
        ensures seat { StaysSeated seat.old seat.new }
        ensures happened { (n : ℕ)
            × Happened self.now.terms seat.old.id (deliver seat.old.id site times ∷ []) seat.old.me.0 n seat.new.me.0 }
    {
        self.table
            .shared
            .fetch_add::<Take<J>>(seat, site + 2, times);
    }

    /// Tells the pass that what it has fits the rule, by a load that is no event.
    pub(crate) fn learn<J: Picked>(&self, seat: &mut PassSeat)
        requires seat { IsSeatAt self.now seat.old }
        requires picked { (J.terms ≡ self.now.terms) × (J.pass ≡ seat.old.id) × (J.events ≡ []) }
        ensures seat { StaysSeated seat.old seat.new }
        ensures view { seat.new.me.0 ≡ seat.old.me.0 }
        ensures stands { Stands self.now.terms seat.old.id seat.new.me.0 }
    {
        self.table.shared.load::<Take<J>>(seat, 0);
    }

    /// Moves part of the pass's quota and the last of its sites to a new pass.
    // For the proof: `_quota`, which is moved, and `_kept`, the number of sites that stay.
    pub(crate) fn split<J: Picked>(
        &self,
        seat: &mut PassSeat,
        _quota: u64,
        _kept: usize,
    ) -> PassSeat
        requires seat { IsSeatAt self.now seat.old }
        requires hand { seat.old.me.0.hand ≡ [] }
        requires quota { _quota ≤ seat.old.me.0.left }
        requires sites { _kept ≤ length seat.old.me.0.counts }
        requires picked { J.events ≡ split seat.old.id _quota (length seat.old.me.0.counts - _kept) ∷ [] }
        ensures seat { StaysSeated seat.old seat.new }
        ensures child_seat { IsSeatAt self.now result }
        ensures parent { seat.new.me.0 ≡ parent seat.old.me.0 _quota (length seat.old.me.0.counts - _kept) }
        ensures child { result.me.0 ≡ child seat.old.me.0 _quota (length seat.old.me.0.counts - _kept) }
    {
        self.table.shared.split_seat::<Cut<J>>(seat)
    }

    /// Takes over all that another pass has.
    pub(crate) fn join(&self, seat: &mut PassSeat, other: PassSeat)
        requires seat { IsSeatAt self.now seat.old }
        requires other { IsSeatAt self.now other }
        requires hands { (seat.old.me.0.hand ≡ []) × (other.me.0.hand ≡ []) }
        requires rows { (follows seat.old.me.0 other.me.0 || follows other.me.0 seat.old.me.0) ≡ true }
        ensures seat { StaysSeated seat.old seat.new }
        ensures joined { seat.new.me.0 ≡ joined seat.old.me.0 other.me.0 }
    {
        self.table.shared.join_seat::<Gather>(seat, other);
    }

    /// Closes the table with the seat of a pass, and reads the heights into a list with room for them.
    pub(crate) fn close(self, seat: PassSeat, heights: &mut Vec<u64>) -> Terms
        requires seat { IsSeatAt self seat }
        requires room { (heights.old.items ≡ []) × (sites (grid_of_terms self.terms) ≤ vec_capacity heights.old) }
        ensures terms { result ≡ self.terms }
        ensures last { IsLast self.terms seat.id seat.me.0 heights.new.items }
    {
        let Words {
            table,
            terms,
            lattice: _,
        } = self;
        let closed = table.close_with(seat);
        read_heights(&closed, terms.start.shape().sites(), heights);
        closed.free();
        terms
    }

    /// Closes the table with the seat of a pass, without reading it.
    pub(crate) fn end(self, seat: PassSeat) -> Terms
        requires seat { IsSeatAt self seat }
        ensures terms { result ≡ self.terms }
    {
        let Words {
            table,
            terms,
            lattice: _,
        } = self;
        table.close_with(seat).free();
        terms
    }
}

// The heights of the sites, from the words of a closed table.
fn read_heights(closed: &Closed<u8, Global>, sites: usize, heights: &mut Vec<u64>)
    requires closed { (slots_len closed.now.words ≡ sites + 2) × IsFull closed.now.words × (sites ≤ 67108864) }
    requires room { (heights.old.items ≡ []) × (sites ≤ vec_capacity heights.old) }
    ensures heights { (i : ℕ) → i < sites
        → slice_index heights.new.items i ≡ slice_index (slots_items closed.now.words) (i + 2) }
    ensures len { length heights.new.items ≡ sites }
{
    for site in 0..sites {
        heights.push_reserved(closed.word(site + 2));
    }
}
