//! A shared pile behind the handles of its passes.
//!
//! Each call takes the pass out of its handle, works on it, and puts it back.

ghost use Rattle.std.specs.Prelude.{◌≡◌, ◌≢◌, IfOk, IfErr, MatchOption, OnOk, IsOk, Option, None, length};
ghost use Rattle.sand_c.specs.Arguments.{sides_of, pile_of, Fails, Answers, Returns, IsAnswer};
ghost use Rattle.sand_c.specs.Driving.{Holds, LeadsTo, held_in};
ghost use Rattle.sand_c.specs.Passing.{IsFirstOf, HaveDropped, HasCounted, HasSwept, GivesAway, AreSplit, AreSplitByRows, TakesOver, AreOfOnePile, IsRecordTo, RecordFails, JoinFails, with_quota_of, sharing_of, dropping_by, splitting_of, splitting_rows_of, both_in, recording_of};
ghost use Rattle.sand_c.specs.Handles.{freed, is_at};
ghost use Rattle.sand_c.specs.contracts.pass_handle.SandpilePass.{the_row as pass_row};
ghost use denote.RawPtr.{null_ptr};
ghost use types.Logic.{sem};

use crate::arguments::{Sides, grains_of, grid_of, sides_of};
use crate::faults::Fault;
use crate::owned_pass::OwnedPass;
use crate::pass_handle::SandpilePass;
use sand_model::Pile;
use std::alloc::Global;

// The first pass of a shared pile with the start in the arguments, in a block of its own.
fn first_of(
    alloc: Global,
    sides: Sides,
    heights: &[u64],
    quota: u64,
) -> Result<Box<OwnedPass>, Fault>
    ensures made { IfOk result (λ b. IsFirstOf (pile_of sides heights.now) quota b.value) }
    ensures meant { OnOk result (IsOk (with_quota_of (pile_of sides heights.now) quota)) }
    ensures fault { IfErr result (λ e. Fails e (with_quota_of (pile_of sides heights.now) quota)) }
{
    let shape = grid_of(sides)?;
    if heights.len() != shape.sites() {
        return Err(Fault::Length);
    }
    let limit = shape.grain_limit();
    let Some(grains) = grains_of(heights, limit) else {
        return Err(Fault::TooManyGrains);
    };
    if quota > limit - grains {
        return Err(Fault::TooManyGrains);
    }
    // All other faults are ruled out.
    let Ok(start) = Pile::new(alloc, shape, heights) else {
        return Err(Fault::Memory);
    };
    let first = OwnedPass::first(alloc, &start, quota)?;
    Ok(Box::new(alloc, first)?)
}

/// Makes a shared pile, and makes an empty handle hold its first pass, which has the whole quota and all rows. Returns
/// 0, or the first of 17 (Taken), 1 (Side), 24 (Narrow), 2 (Length of the slice) and 3 (TooManyGrains, the quota
/// included), or 4 (Memory).
#[tactic(auto, using(crate::proofs::Answered::answered))]
#[unsafe(no_mangle)]
pub extern "C" fn sandpile_shared_new(
    alloc: Global,
    width: usize,
    height: usize,
    cylinder: bool,
    heights: &[u64],
    quota: u64,
    pass: &mut SandpilePass,
) -> u32
    ensures made { result ≡ 0 → Holds pass.new.held (IsFirstOf (pile_of (sides_of width height cylinder) heights.now) quota) }
    ensures answer { Answers result (sharing_of pass.old.held (pile_of (sides_of width height cylinder) heights.now) quota) }
    ensures pass { result ≢ 0 → pass.new.held ≡ pass.old.held }
{
    if let Some(held) = pass.take(alloc) {
        pass.put(held);
        return Fault::Taken.number();
    }
    match first_of(alloc, sides_of(width, height, cylinder), heights, quota) {
        Ok(held) => {
            pass.put(held);
            0
        }
        Err(fault) => fault.number(),
    }
}

/// Drops a grain at each site in turn. The drops have consecutive numbers in the history; writes the first. Returns 0,
/// or the first of 26 (Empty), 25 (NoSite) and 13 (Spent).
#[tactic(auto, using(crate::proofs::Answered::returned))]
#[unsafe(no_mangle)]
pub extern "C" fn sandpile_pass_drop(
    alloc: Global,
    pass: &mut SandpilePass,
    drops: &[usize],
    first: &mut u64,
) -> u32
    ensures dropped { result ≡ 0
        → LeadsTo pass.old.held (λ v w. HaveDropped v drops.now first.new w) pass.new.held }
    ensures answer { Returns result (dropping_by pass.old.held drops.now) }
    ensures pass { result ≢ 0 → pass.new.held ≡ pass.old.held }
    ensures first { result ≢ 0 → first.new ≡ first.old }
{
    let Some(mut held) = pass.take(alloc) else {
        return Fault::Empty.number();
    };
    let dropped = held.drop_all(drops);
    pass.put(held);
    match dropped {
        Ok(number) => {
            *first = number;
            0
        }
        Err(fault) => fault.number(),
    }
}

/// Writes how many drops have begun so far. Returns 0 or 26 (Empty).
#[unsafe(no_mangle)]
pub extern "C" fn sandpile_pass_tally(
    alloc: Global,
    pass: &mut SandpilePass,
    drops: &mut u64,
) -> u32
    ensures counted { result ≡ 0 → LeadsTo pass.old.held (λ v w. HasCounted v drops.new w) pass.new.held }
    ensures answer { Returns result (held_in pass.old.held) }
    ensures pass { result ≢ 0 → pass.new.held ≡ pass.old.held }
    ensures drops { result ≢ 0 → drops.new ≡ drops.old }
{
    let Some(mut held) = pass.take(alloc) else {
        return Fault::Empty.number();
    };
    *drops = held.tally();
    pass.put(held);
    0
}

/// Sweeps once over the rows of the pass: topples each site as often as its grains then allow. Writes the number of
/// topplings. Returns 0 or 26 (Empty).
#[unsafe(no_mangle)]
pub extern "C" fn sandpile_pass_sweep(
    alloc: Global,
    pass: &mut SandpilePass,
    topplings: &mut u64,
) -> u32
    ensures swept { result ≡ 0 → LeadsTo pass.old.held (λ v w. HasSwept v topplings.new w) pass.new.held }
    ensures answer { Returns result (held_in pass.old.held) }
    ensures pass { result ≢ 0 → pass.new.held ≡ pass.old.held }
    ensures topplings { result ≢ 0 → topplings.new ≡ topplings.old }
{
    let Some(mut held) = pass.take(alloc) else {
        return Fault::Empty.number();
    };
    *topplings = held.sweep();
    pass.put(held);
    0
}

/// Makes an empty handle hold a new pass with `quota` of the grains that a pass may still drop. Returns 0, or the first
/// of 17 (Taken, the child's handle), 26 (Empty, the pass's) and 10 (TooMuch), or 4 (Memory).
#[tactic(auto, using(crate::proofs::Answered::answered))]
#[unsafe(no_mangle)]
pub extern "C" fn sandpile_pass_split(
    alloc: Global,
    pass: &mut SandpilePass,
    quota: u64,
    child: &mut SandpilePass,
) -> u32
    ensures split { result ≡ 0 → GivesAway pass.old.held (λ v w c. AreSplit v quota w c) pass.new.held child.new.held }
    ensures answer { Answers result (splitting_of pass.old.held child.old.held quota) }
    ensures pass { result ≢ 0 → pass.new.held ≡ pass.old.held }
    ensures child { result ≢ 0 → child.new.held ≡ child.old.held }
{
    if let Some(held) = child.take(alloc) {
        child.put(held);
        return Fault::Taken.number();
    }
    let Some(mut held) = pass.take(alloc) else {
        return Fault::Empty.number();
    };
    let given = held.split(alloc, quota);
    pass.put(held);
    match given {
        Ok(given) => {
            child.put(given);
            0
        }
        Err(fault) => fault.number(),
    }
}

/// Makes an empty handle hold a new pass with the last `rows` rows of a pass. Returns 0, or the first of 17 (Taken, the
/// child's handle), 26 (Empty, the pass's) and 11 (Rows), or 4 (Memory).
#[tactic(auto, using(crate::proofs::Answered::answered))]
#[unsafe(no_mangle)]
pub extern "C" fn sandpile_pass_split_rows(
    alloc: Global,
    pass: &mut SandpilePass,
    rows: u16,
    child: &mut SandpilePass,
) -> u32
    ensures split { result ≡ 0
        → GivesAway pass.old.held (λ v w c. AreSplitByRows v rows w c) pass.new.held child.new.held }
    ensures answer { Answers result (splitting_rows_of pass.old.held child.old.held rows) }
    ensures pass { result ≢ 0 → pass.new.held ≡ pass.old.held }
    ensures child { result ≢ 0 → child.new.held ≡ child.old.held }
{
    if let Some(held) = child.take(alloc) {
        child.put(held);
        return Fault::Taken.number();
    }
    let Some(mut held) = pass.take(alloc) else {
        return Fault::Empty.number();
    };
    let given = held.split_rows(alloc, rows);
    pass.put(held);
    match given {
        Ok(given) => {
            child.put(given);
            0
        }
        Err(fault) => fault.number(),
    }
}

// The own number of the pass in a handle, to which this is added; or `None`, if the handle is empty.
fn count_in(alloc: Global, pass: &mut SandpilePass, more: u64) -> Option<u64>
    ensures counted { MatchOption result (pass.old.held ≡ None) (λ _. IsOk (held_in pass.old.held)) }
    ensures unchanged { pass.new.held ≡ pass.old.held }
{
    let held = pass.take(alloc)?;
    let count = held.count(more);
    pass.put(held);
    Some(count)
}

/// Joins another pass of the same pile to a pass, and empties the other handle. Returns 0, or the first of 26 (Empty),
/// 27 (OtherPile) and 12 (Apart), or 4 (Memory). The caller ensures that both passes are of one pile; a test refuses
/// others, and a pass that is to be joined to itself (OtherPile), and no proof relies on it.
#[unsafe(no_mangle)]
pub extern "C" fn sandpile_pass_join(
    alloc: Global,
    pass: &mut SandpilePass,
    other: &mut SandpilePass,
) -> u32
    requires { AreOfOnePile pass.old.held other.old.held }
    ensures joined { result ≡ 0 → TakesOver pass.old.held other.old.held pass.new.held }
    ensures emptied { result ≡ 0 → other.new.held ≡ None }
    ensures answer { IsAnswer result (λ e. JoinFails e (both_in pass.old.held other.old.held)) }
    ensures pass { result ≢ 0 → pass.new.held ≡ pass.old.held }
    ensures other { result ≢ 0 → other.new.held ≡ other.old.held }
{
    let Some(before) = count_in(alloc, pass, 0) else {
        return Fault::Empty.number();
    };
    let Some(_others) = count_in(alloc, other, 1) else {
        return Fault::Empty.number();
    };
    // If both handles hold one pass, its number has risen.
    if count_in(alloc, pass, 0) != Some(before) {
        return Fault::OtherPile.number();
    }
    let Some(mut held) = pass.take(alloc) else {
        return Fault::Empty.number();
    };
    let Some(mut taken) = other.take(alloc) else {
        pass.put(held);
        return Fault::Empty.number();
    };
    let joined = held.join(alloc, &mut taken);
    pass.put(held);
    match joined {
        Ok(()) => {
            drop(taken);
            0
        }
        Err(fault) => {
            other.put(taken);
            fault.number()
        }
    }
}

/// Settles what is left to topple, in plain memory, by a pass that has gathered everything: writes the settled heights,
/// how often each site toppled, the site of each drop by number, the number of topplings and the grains lost, as of one
/// thread that drops the history. The pile and the pass do not change, and may go on. Returns 0, or the first of 26
/// (Empty), 2 (Length of a slice) and 14 (Missing), or 4 (Memory).
#[unsafe(no_mangle)]
pub extern "C" fn sandpile_pass_settle(
    alloc: Global,
    pass: &mut SandpilePass,
    heights: &mut [u64],
    odometer: &mut [u64],
    history: &mut [usize],
    topplings: &mut u64,
    lost: &mut u64,
) -> u32
    ensures settled { result ≡ 0
        → Holds pass.old.held (IsRecordTo heights.new odometer.new history.new topplings.new lost.new) }
    ensures answer { IsAnswer result (λ e. RecordFails e
        (recording_of pass.old.held (length heights.old) (length odometer.old) (length history.old))) }
    ensures pass { pass.new.held ≡ pass.old.held }
    ensures heights { result ≢ 0 → heights.new ≡ heights.old }
    ensures odometer { result ≢ 0 → odometer.new ≡ odometer.old }
    ensures history { result ≢ 0 → history.new ≡ history.old }
    ensures topplings { result ≢ 0 → topplings.new ≡ topplings.old }
    ensures lost { result ≢ 0 → lost.new ≡ lost.old }
{
    let Some(mut held) = pass.take(alloc) else {
        return Fault::Empty.number();
    };
    let settled = held.record_now(alloc, heights.len(), odometer.len(), history.len());
    pass.put(held);
    match settled {
        Ok(settled) => {
            heights.copy_from_slice(settled.pile().heights());
            odometer.copy_from_slice(settled.odometers());
            history.copy_from_slice(settled.history());
            *topplings = settled.topplings();
            *lost = settled.lost();
            0
        }
        Err(fault) => fault.number(),
    }
}

/// Frees the pass that the handle holds, and empties it; null is no handle, and nothing is done. Unless the pass has no
/// quota left, no drops and no rows, no record of its pile can be made any more.
#[unsafe(no_mangle)]
pub extern "C" fn sandpile_pass_free(alloc: Global, pass: *mut SandpilePass)
    ghost handle: { Option pass_row.Denot }
    requires* { sem 𝓛 (is_at pass_row pass handle) }
    ensures* emptied { sem 𝓛 (is_at pass_row pass (freed (record { at = null_ptr; held = None }) handle)) }
{
    if !pass.is_null() {
        unsafe { pass.write(pass.read().freed(alloc)) }
    }
}
