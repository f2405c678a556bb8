//! A shared pile with its passes in a list, on which a test makes calls from a table, each with its expected result.
//!
//! The calls are named after the calls of `sand_shared` that they make. They ensure nothing, because a test compares
//! results, and require nothing, because the list is known to hold passes of this pile. So the proof of a test is
//! short: a table and one call.

ghost use Rattle.std.specs.Prelude.{◌≡◌, ◌<◌, [], All, IsTrue, IfOk, IfSome};
ghost use Rattle.sand_model.specs.Grid.{sites};
ghost use Rattle.sand_shared.specs.Passes.{IsPassOf};

use crate::pairs::both_at_once;
use crate::records::{drop_rest, is_record, is_settled};
use sand_model::{Edge, Pile, Shape};
use sand_shared::{BarePass, DropFault, Pass, Receipt, Record, SharedPile, SiteCounts, SplitFault};
use std::alloc::Global;
use std::marker::Model;
use std::thread::Threads;

/// A call. It names passes by their position in the list, and sites by their numbers.
#[derive(Clone, Copy)]
pub enum Call {
    DropAt(usize, usize),
    /// Makes all remaining drops of a pass at a site.
    DropRest(usize, usize),
    /// Drops a grain on each site of a list, in one call.
    DropAll(usize, &'static [usize]),
    Tally(usize),
    Sweep(usize),
    /// Gives a quota to a child, which is appended to the list.
    Split(usize, u64),
    /// Gives rows to a child, which is appended to the list.
    SplitRows(usize, u16),
    /// The first pass takes in the other, which leaves the list unless that fails.
    Join(usize, usize),
    /// A pass takes in all others, which leave the list as far as they are joined.
    JoinAll(usize),
    ThrowAway(usize),
    /// Makes a pass bare. It leaves the list for the end of another, that of the bare passes.
    IntoBare(usize),
    /// The last bare pass but one takes in the last.
    JoinBare,
    IsWhole(usize),
    /// What a pass has.
    Holds(usize),
    /// The receipt of a pass at a place.
    Receipt(usize, usize),
    /// How often a pass has toppled a site of its rows.
    Toppled(usize, usize),
    /// Tries both endings, so many times. Each fails because something is missing.
    StillMissing(u32),
}

/// What a call returns.
#[derive(Clone, Copy, Debug, PartialEq, Eq)]
pub enum Returned {
    Done,
    Number(u64),
    Fault(u32),
    Is(bool),
    /// A drop's number and its site.
    Dropped(u64, usize),
    /// The remaining quota of a pass, its number of receipts, how many drops it has seen, its first row and one past the last.
    Has(u64, usize, u64, u16, u16),
}

/// The ways to end a shared pile. All but the last leave the same record.
#[derive(Clone, Copy)]
pub enum Ending {
    Close,
    Settle,
    /// Makes the record, but leaves the pile open.
    RecordNow,
    /// Settles what is left with the last bare pass; its history is not written.
    SettleRest,
}

pub const ENDINGS: [Ending; 2] = [Ending::Close, Ending::Settle];

/// A start: the edge and the sides of its grid, its heights and a quota.
#[derive(Clone, Copy)]
pub struct Start<'a>(pub Edge, pub (usize, usize), pub &'a [u64], pub u64);

/// The expected contents of a record: its history, the heights, the odometer and the grains lost.
#[derive(Clone, Copy)]
pub struct Left<'a>(pub &'a [usize], pub &'a [u64], pub &'a [u64], pub u64);

const NOTHING: Left<'static> = Left(&[], &[], &[], 0);

/// A worked example: its name, a start, calls with what they return, and what both endings then leave; if that is not
/// given, the pile is not ended.
pub type Example = (
    &'static str,
    Start<'static>,
    &'static [(Call, Returned)],
    Option<Left<'static>>,
);

// Whether a site is in the grid, if there is one.
fn is_inside(shape: Shape, site: Option<usize>) -> bool
    ensures { IsTrue result → IfSome site (λ s. s < sites shape) }
{
    match site {
        Some(site) => site < shape.sites(),
        None => true,
    }
}

// Whether all sites of a list are in the grid.
fn are_inside(shape: Shape, list: &[usize]) -> bool
    ensures { IsTrue result → All (λ s. s < sites shape) list.now }
{
    let sites = shape.sites();
    list.iter().all(|site| *site < sites)
}

// For the proof: `_pile`, here and below, the pile of all passes of the list.

// Takes a pass out of a list.
fn take(_pile: &SharedPile, passes: &mut Vec<Pass>, place: usize) -> Option<Pass>
    requires { All (IsPassOf _pile.now) passes.old.items }
    ensures pass { IfSome result (IsPassOf _pile.now) }
    ensures rest { All (IsPassOf _pile.now) passes.new.items }
{
    if place >= passes.len() {
        return None;
    }
    Some(passes.remove(place))
}

// Inserts a pass into a list, if there is room.
fn put(_pile: &SharedPile, passes: &mut Vec<Pass>, place: usize, pass: Pass)
    requires passes { All (IsPassOf _pile.now) passes.old.items }
    requires pass { IsPassOf _pile.now pass }
    ensures { All (IsPassOf _pile.now) passes.new.items }
{
    if place <= passes.len() {
        let _ = passes.insert(place, pass);
    }
}

// Takes the last pass out of a list of bare ones.
fn take_bare(_pile: &SharedPile, passes: &mut Vec<BarePass>) -> Option<BarePass>
    requires { All (IsPassOf _pile.now) passes.old.items }
    ensures pass { IfSome result (IsPassOf _pile.now) }
    ensures rest { All (IsPassOf _pile.now) passes.new.items }
{
    passes.pop()
}

// Appends a pass to a list of bare ones, if there is room.
fn put_bare(_pile: &SharedPile, passes: &mut Vec<BarePass>, pass: BarePass)
    requires passes { All (IsPassOf _pile.now) passes.old.items }
    requires pass { IsPassOf _pile.now pass }
    ensures { All (IsPassOf _pile.now) passes.new.items }
{
    let _ = passes.push(pass);
}

// Appends a child to a list of passes.
fn appended(pile: &SharedPile, passes: &mut Vec<Pass>, child: Result<Pass, SplitFault>) -> Returned
    requires passes { All (IsPassOf pile.now) passes.old.items }
    requires child { IfOk child (IsPassOf pile.now) }
    ensures { All (IsPassOf pile.now) passes.new.items }
{
    match child {
        Ok(child) => {
            let end = passes.len();
            put(pile, passes, end, child);
            Returned::Done
        }
        Err(fault) => Returned::Fault(fault.number()),
    }
}

// The number of a drop, or the fault.
fn dropped(number: Result<u64, DropFault>) -> Returned {
    match number {
        Ok(number) => Returned::Number(number),
        Err(fault) => Returned::Fault(fault.number()),
    }
}

// More passes than a test has, so that a list of passes does not grow.
const ROOM: usize = 8;

// An empty list that does not grow.
fn list<T: Drop>(alloc: Global) -> Result<Vec<T>, u32>
    ensures { IfOk result (λ v. v.items ≡ []) }
{
    Vec::with_capacity(alloc, ROOM).map_err(|_| 4)
}

/// A shared pile and its passes. The first pass is at index 0. Calls allocate only what the shared pile does.
#[derive(Drop)]
pub struct PileWithPasses {
    shape: Shape,
    pile: SharedPile,
    passes: Vec<Pass>,
    // The list after a `JoinAll`, which takes the other one.
    spare: Vec<Pass>,
    bare: Vec<BarePass>,
    counts: SiteCounts,
}

impl Model for PileWithPasses {
    ghost use Rattle.std.specs.Prelude.{◌≡◌, All};
    ghost use Rattle.sand_shared.specs.OpenPile.{grid_of_terms};
    ghost use Rattle.sand_shared.specs.Passes.{IsPassOf};

    ghost Value = { Unit {0} };

    ghost view = { λ _. tt };

    ghost invariant = { λ p. (p.shape ≡ grid_of_terms p.pile.terms) × (p.counts ≡ p.shape)
        × All (λ q. IsPassOf p.pile q) p.passes.items
        × All (λ q. IsPassOf p.pile q) p.spare.items × All (λ q. IsPassOf p.pile q) p.bare.items };
}

impl PileWithPasses {
    /// A shared pile with this start, or the number of the fault.
    pub fn of_start(alloc: Global, start: &Pile, quota: u64) -> Result<PileWithPasses, u32> {
        let shape = start.shape();
        let Ok(counts) = SiteCounts::new(alloc, shape) else {
            return Err(4);
        };
        let (mut passes, spare, bare) = (list(alloc)?, list(alloc)?, list(alloc)?);
        let (pile, pass) = match SharedPile::new(alloc, start, quota) {
            Ok(made) => made,
            Err(fault) => return Err(fault.number()),
        };
        put(&pile, &mut passes, 0, pass);
        Ok(PileWithPasses {
            shape,
            pile,
            passes,
            spare,
            bare,
            counts,
        })
    }

    /// A shared pile with this start, if these calls return what is expected.
    pub fn played(
        alloc: Global,
        start: Start<'_>,
        calls: &[(Call, Returned)],
    ) -> Option<PileWithPasses> {
        let Start(edge, (width, height), heights, quota) = start;
        let shape = Shape::with_edge(width, height, edge).ok()?;
        let heights = Pile::new(alloc, shape, heights).ok()?;
        let pile = PileWithPasses::of_start(alloc, &heights, quota).ok();
        drop(heights);
        pile?.play(alloc, calls)
    }

    /// The pile, if these calls return what is expected.
    pub fn play(self, alloc: Global, calls: &[(Call, Returned)]) -> Option<PileWithPasses> {
        let mut pile = self;
        for (call, expected) in calls {
            pile = pile.step(alloc, *call, *expected)?;
        }
        Some(pile)
    }

    fn step(mut self, alloc: Global, call: Call, expected: Returned) -> Option<PileWithPasses> {
        match call {
            Call::StillMissing(times) if expected == Returned::Done => {
                self.still_missing(alloc, times)
            }
            _ if self.call(alloc, call) == Some(expected) => Some(self),
            _ => {
                drop(self);
                None
            }
        }
    }

    /// What a call returns; `None` if it names a pass, a receipt or a site that does not exist.
    pub fn call(&mut self, alloc: Global, call: Call) -> Option<Returned> {
        match call {
            Call::DropAt(pass, site) => self.drop_at(pass, site),
            Call::DropRest(pass, site) => self.drop_rest(pass, site),
            Call::DropAll(pass, list) => self.drop_all(pass, list),
            Call::Tally(pass) => self.tally(pass),
            Call::Sweep(pass) => self.sweep(pass),
            Call::Split(pass, quota) => self.split(alloc, pass, quota),
            Call::SplitRows(pass, rows) => self.split_rows(alloc, pass, rows),
            Call::Join(pass, other) => self.join(alloc, pass, other),
            Call::JoinAll(pass) => self.join_all(alloc, pass),
            Call::ThrowAway(pass) => self.throw_away(pass),
            Call::IntoBare(pass) => self.into_bare(pass),
            Call::JoinBare => self.join_bare(alloc),
            Call::IsWhole(pass) => self.is_whole(pass),
            Call::Holds(pass) => self.holds(pass),
            Call::Receipt(pass, place) => self.receipt(pass, place),
            Call::Toppled(pass, site) => self.toppled(pass, site),
            Call::StillMissing(_) => None,
        }
    }

    fn drop_at(&mut self, pass: usize, site: usize) -> Option<Returned> {
        if site >= self.shape.sites() {
            return None;
        }
        let pass = self.passes.get_mut(pass)?;
        Some(dropped(self.pile.drop_at(pass, site)))
    }

    fn drop_rest(&mut self, pass: usize, site: usize) -> Option<Returned> {
        if site >= self.shape.sites() {
            return None;
        }
        drop_rest(&self.pile, self.passes.get_mut(pass)?, site);
        Some(Returned::Done)
    }

    fn drop_all(&mut self, pass: usize, list: &[usize]) -> Option<Returned> {
        if !are_inside(self.shape, list) {
            return None;
        }
        let pass = self.passes.get_mut(pass)?;
        Some(dropped(self.pile.drop_all(pass, list, &mut self.counts)))
    }

    fn tally(&mut self, pass: usize) -> Option<Returned> {
        let tally = self.pile.tally(self.passes.get_mut(pass)?);
        Some(Returned::Number(tally))
    }

    fn sweep(&mut self, pass: usize) -> Option<Returned> {
        let toppled = self.pile.sweep(self.passes.get_mut(pass)?);
        Some(Returned::Number(toppled))
    }

    fn split(&mut self, alloc: Global, pass: usize, quota: u64) -> Option<Returned> {
        let pass = self.passes.get_mut(pass)?;
        let child = self.pile.split(alloc, pass, quota);
        Some(appended(&self.pile, &mut self.passes, child))
    }

    fn split_rows(&mut self, alloc: Global, pass: usize, rows: u16) -> Option<Returned> {
        let pass = self.passes.get_mut(pass)?;
        let child = self.pile.split_rows(alloc, pass, rows);
        Some(appended(&self.pile, &mut self.passes, child))
    }

    fn join(&mut self, alloc: Global, pass: usize, other: usize) -> Option<Returned> {
        if pass == other {
            return None;
        }
        let second = take(&self.pile, &mut self.passes, other)?;
        let place = pass.saturating_sub(usize::from(other < pass));
        let Some(mut first) = take(&self.pile, &mut self.passes, place) else {
            drop(second);
            return None;
        };
        let refused = self.pile.join(alloc, &mut first, second).err();
        put(&self.pile, &mut self.passes, place, first);
        let Some((fault, second)) = refused else {
            return Some(Returned::Done);
        };
        put(&self.pile, &mut self.passes, other, second);
        Some(Returned::Fault(fault.number()))
    }

    fn join_all(&mut self, alloc: Global, pass: usize) -> Option<Returned> {
        let mut first = take(&self.pile, &mut self.passes, pass)?;
        std::mem::swap(&mut self.passes, &mut self.spare);
        let others = std::mem::replace(&mut self.spare, Vec::new(alloc));
        let returned = match self.pile.join_all(alloc, &mut first, others) {
            Ok(()) => Returned::Done,
            Err((fault, back)) => {
                self.spare = std::mem::replace(&mut self.passes, back);
                Returned::Fault(fault.number())
            }
        };
        let place = pass.min(self.passes.len());
        put(&self.pile, &mut self.passes, place, first);
        Some(returned)
    }

    fn throw_away(&mut self, pass: usize) -> Option<Returned> {
        drop(take(&self.pile, &mut self.passes, pass)?);
        Some(Returned::Done)
    }

    fn into_bare(&mut self, pass: usize) -> Option<Returned> {
        let pass = take(&self.pile, &mut self.passes, pass)?;
        put_bare(&self.pile, &mut self.bare, pass.into_bare().0);
        Some(Returned::Done)
    }

    fn join_bare(&mut self, alloc: Global) -> Option<Returned> {
        let other = take_bare(&self.pile, &mut self.bare)?;
        let Some(mut last) = take_bare(&self.pile, &mut self.bare) else {
            drop(other);
            return None;
        };
        let refused = self.pile.join_bare(alloc, &mut last, other).err();
        put_bare(&self.pile, &mut self.bare, last);
        let Some((fault, other)) = refused else {
            return Some(Returned::Done);
        };
        put_bare(&self.pile, &mut self.bare, other);
        Some(Returned::Fault(fault.number()))
    }

    fn holds(&self, pass: usize) -> Option<Returned> {
        let pass = self.passes.get(pass)?;
        let (first, end) = pass.rows();
        let drops = pass.receipts().len();
        Some(Returned::Has(pass.left(), drops, pass.seen(), first, end))
    }

    fn is_whole(&self, pass: usize) -> Option<Returned> {
        let is_whole = self.pile.is_whole(self.passes.get(pass)?);
        Some(Returned::Is(is_whole))
    }

    fn receipt(&self, pass: usize, place: usize) -> Option<Returned> {
        let receipt = self.passes.get(pass)?.receipts().get(place)?;
        Some(Returned::Dropped(receipt.number, receipt.site))
    }

    fn toppled(&self, pass: usize, site: usize) -> Option<Returned> {
        let pass = self.passes.get(pass)?;
        if site >= self.shape.sites() {
            return None;
        }
        let (first, end) = pass.rows();
        let (_, row) = self.shape.place(site);
        let is_held = row >= usize::from(first) && row < usize::from(end);
        is_held.then(|| Returned::Number(pass.toppled(site)))
    }

    /// The receipts of a pass; none if there is no such pass.
    pub fn receipts(&self, pass: usize) -> &[Receipt] {
        match self.passes.get(pass) {
            Some(pass) => pass.receipts(),
            None => &[],
        }
    }

    /// Runs its two passes on two threads that meet: each makes all remaining drops at its site, or sweeps if it has
    /// none. Also returns how often the sweep of each toppled. Returns `None` if they do not meet.
    pub fn both_at_once<R: Threads + Sync>(
        mut self,
        rt: &R,
        here: Option<usize>,
        there: Option<usize>,
    ) -> Option<(PileWithPasses, (u64, u64))> {
        if !is_inside(self.shape, here) || !is_inside(self.shape, there) {
            drop(self);
            return None;
        }
        let one = take(&self.pile, &mut self.passes, 0);
        let Some((one, other)) = one.zip(take(&self.pile, &mut self.passes, 0)) else {
            drop(self);
            return None;
        };
        let (one, other, swept) = both_at_once(rt, &self.pile, one, other, here, there);
        put(&self.pile, &mut self.passes, 0, other);
        put(&self.pile, &mut self.passes, 0, one);
        match swept {
            Some(swept) => Some((self, swept)),
            None => {
                drop(self);
                None
            }
        }
    }

    // Ends the shared pile with its first pass, and returns whether the record is as expected. If it fails, everything
    // comes back, with the number of the fault.
    fn close(
        mut self,
        alloc: Global,
        ending: Ending,
        left: Left<'_>,
    ) -> Result<bool, (u32, PileWithPasses)> {
        let Some(first) = take(&self.pile, &mut self.passes, 0) else {
            return Err((0, self));
        };
        let ended = match ending {
            Ending::Close => self.pile.close(alloc, first),
            _ => self.pile.settle(alloc, first),
        };
        match ended {
            Ok(record) => {
                drop((self.passes, self.spare, self.bare, self.counts));
                Ok(is_left(record, left))
            }
            Err((fault, pile, first)) => {
                put(&pile, &mut self.passes, 0, first);
                Err((fault.number(), PileWithPasses { pile, ..self }))
            }
        }
    }

    // Whether what is left, settled with the last bare pass, is as expected, or the number of the fault.
    fn settle_rest(&mut self, alloc: Global, left: Left<'_>) -> Result<bool, u32> {
        let Some(last) = self.bare.len().checked_sub(1) else {
            return Ok(false);
        };
        let rest = self.pile.settle_rest(alloc, &mut self.bare[last]);
        let Left(_, heights, odometer, lost) = left;
        rest.map(|rest| is_settled(&rest, heights, odometer, lost))
            .map_err(|fault| fault.number())
    }

    // Whether the record, made with the first pass, is as expected, or the number of the fault.
    fn record_now(&mut self, alloc: Global, left: Left<'_>) -> Result<bool, u32> {
        if self.passes.is_empty() {
            return Ok(false);
        }
        let record = self.pile.record_now(alloc, &mut self.passes[0]);
        record
            .map(|record| is_left(record, left))
            .map_err(|fault| fault.number())
    }

    /// Ends the shared pile, and returns whether this has the expected result. If it fails, everything comes back, with
    /// the number of the fault.
    pub fn end(
        mut self,
        alloc: Global,
        ending: Ending,
        left: Left<'_>,
    ) -> Result<bool, (u32, PileWithPasses)> {
        let ended = match ending {
            Ending::RecordNow => self.record_now(alloc, left),
            Ending::SettleRest => self.settle_rest(alloc, left),
            _ => return self.close(alloc, ending, left),
        };
        match ended {
            Ok(is_right) => {
                drop(self);
                Ok(is_right)
            }
            Err(fault) => Err((fault, self)),
        }
    }

    // The pile, if this ending fails because something is missing.
    fn misses(self, alloc: Global, ending: Ending) -> Option<PileWithPasses> {
        match self.end(alloc, ending, NOTHING) {
            Err((14, pile)) => Some(pile),
            ended => {
                drop(ended);
                None
            }
        }
    }

    // The pile, if both endings fail so many times because something is missing.
    fn still_missing(self, alloc: Global, times: u32) -> Option<PileWithPasses> {
        let mut pile = self;
        for _ in 0..times {
            pile = pile
                .misses(alloc, Ending::Close)?
                .misses(alloc, Ending::Settle)?;
        }
        Some(pile)
    }

    /// Whether this ending has this result.
    pub fn leaves(self, alloc: Global, ending: Ending, left: Left<'_>) -> bool {
        self.end(alloc, ending, left).unwrap_or(false)
    }
}

fn is_left(record: Record, left: Left<'_>) -> bool {
    let Left(history, heights, odometer, lost) = left;
    let is_left = is_record(&record, history, heights, odometer, lost);
    drop(record);
    is_left
}

/// Whether there is a pile: the calls before it returned what was expected.
pub fn is_there(pile: Option<PileWithPasses>) -> bool {
    let is_there = pile.is_some();
    drop(pile);
    is_there
}

/// Whether these calls return what is expected, and both endings then have this result, if there is one.
pub fn both_leave(
    alloc: Global,
    start: Start<'_>,
    calls: &[(Call, Returned)],
    left: Option<Left<'_>>,
) -> bool {
    let Some(left) = left else {
        return is_there(PileWithPasses::played(alloc, start, calls));
    };
    ENDINGS.iter().all(|ending| match PileWithPasses::played(alloc, start, calls) {
        Some(pile) => pile.leaves(alloc, *ending, left),
        None => false,
    })
}
