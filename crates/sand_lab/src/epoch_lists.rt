//! The long lists of an epoch: they are made, written and freed on another thread while this one works.
//!
//! A list of all drops takes many pages of memory. The system provides a page when it is first touched, which takes
//! longer than the drops that the page is for, and takes it back when it is freed.

ghost use Rattle.std.specs.Prelude.{◌≡◌, ℕ, ◌≤◌, [], length, vec_len, vec_capacity, IfOk, IfErr};
ghost use Rattle.std.specs.Thread.{IsSync};
ghost use Rattle.sand_wish.specs.Plans.{quota_of};
ghost use Rattle.sand_shared.specs.Passes.{IsPassOf, IsWhole};
ghost use Rattle.sand_shared.specs.Sweeps.{IsRestOf};
ghost use Rattle.sand_lab.specs.Crews.{IsCrew, HasBecome};
ghost use Rattle.sand_lab.specs.Faults.{IsMemory};
ghost use Rattle.sand_lab.specs.Journals.{HavePlaces, IsJournal, flattened, lists, sites_in};

use crate::crew::Crew;
use crate::faults::LabFault;
use crate::journal::{Entry, blank_journal, history_of, room_for_history, write_journal};
use crate::plan::quota_of;
use sand_settle::Settled;
use sand_shared::{BarePass, Receipt, SharedPile};
use sand_wish::{Gate, Wish};
use std::alloc::Global;
use std::thread::{Threads, join, join_mut};

/// A blank journal, and room for a history, of `drops` drops by each dropper.
#[derive(Drop)]
pub(crate) struct Blank {
    pub(crate) drops: u32,
    pub(crate) journal: Vec<Entry>,
    pub(crate) history: Vec<usize>,
}

// Both lists, made concurrently.
fn make_blank<R: Threads + Sync>(rt: &R, alloc: Global, wish: Wish) -> Result<Blank, LabFault>
    ensures drops { IfOk result (λ b. b.drops ≡ wish.drops) }
    ensures journal { IfOk result (λ b. vec_len b.journal ≡ quota_of wish) }
    ensures history { IfOk result (λ b. (b.history.items ≡ []) × (quota_of wish ≤ vec_capacity b.history)) }
    ensures memory { IfErr result IsMemory }
{
    let drops = quota_of(wish);
    let (journal, history) = join(
        rt,
        || -> Result<Vec<Entry>, LabFault>
            ensures len { IfOk result (λ v. vec_len v ≡ drops) }
            ensures memory { IfErr result IsMemory }
        { blank_journal(alloc, drops) },
        || -> Result<Vec<usize>, LabFault>
            ensures empty { IfOk result (λ v. v.items ≡ []) }
            ensures room { IfOk result (λ v. drops ≤ vec_capacity v) }
            ensures memory { IfErr result IsMemory }
        { room_for_history(alloc, drops) },
    );
    let journal = journal?;
    let history = history?;
    Ok(Blank {
        drops: wish.drops,
        journal,
        history,
    })
}

/// A crew works while the lists for its results are made. The only error is Memory.
pub(crate) fn work_and_make_blank<R: Threads + Sync, G: Gate>(
    rt: &R,
    alloc: Global,
    crew: &mut Crew,
    pile: &SharedPile,
    gate: &G,
    wish: Wish,
) -> Result<Blank, LabFault>
    requires crew { (epoch : ℕ) × IsCrew pile.now wish epoch crew.old }
    ensures crew { HasBecome pile.now wish crew.old crew.new }
    ensures drops { IfOk result (λ b. b.drops ≡ wish.drops) }
    ensures journal { IfOk result (λ b. vec_len b.journal ≡ quota_of wish) }
    ensures history { IfOk result (λ b. (b.history.items ≡ []) × (quota_of wish ≤ vec_capacity b.history)) }
    ensures memory { IfErr result IsMemory }
{
    let ((), blank) = join_mut(
        rt,
        &mut ||
            requires { IsSync R.row × IsSync G.row × ((epoch : ℕ) × IsCrew pile.now wish epoch crew.now) }
            ensures { HasBecome pile.entry.now wish crew.entry.now crew.exit.now }
        { crew.work(rt, pile, gate, wish) },
        &mut || -> Result<Blank, LabFault>
            requires { IsSync R.row }
            ensures drops { IfOk result (λ b. b.drops ≡ wish.drops) }
            ensures journal { IfOk result (λ b. vec_len b.journal ≡ quota_of wish) }
            ensures history { IfOk result (λ b. (b.history.items ≡ []) × (quota_of wish ≤ vec_capacity b.history)) }
            ensures memory { IfErr result IsMemory }
        { make_blank(rt, alloc, wish) },
    );
    blank
}

/// Settles the rest of a pile while another thread, if one can be made, writes the journal of all receipts. The only
/// error is Memory.
pub(crate) fn settle_and_write_journal<R: Threads + Sync>(
    rt: &R,
    alloc: Global,
    pile: &SharedPile,
    all: &mut BarePass,
    blank: &mut Blank,
    parts: &[Vec<Receipt>],
) -> Result<Settled, LabFault>
    requires of_pile { IsPassOf pile.now all.old }
    requires whole { IsWhole pile.now.terms all.old }
    requires places { HavePlaces blank.old.drops (lists parts.now) (vec_len blank.old.journal) }
    ensures journal { IsJournal blank.old.drops (flattened (lists parts.now)) blank.new.journal.items }
    ensures history { blank.new.history ≡ blank.old.history }
    ensures pass { all.new ≡ all.old }
    ensures rest { IfOk result (IsRestOf pile.now.terms all.old) }
    ensures memory { IfErr result IsMemory }
{
    let drops = blank.drops;
    let journal = &mut blank.journal;
    let ((), rest) = join_mut(
        rt,
        &mut ||
            requires { HavePlaces drops (lists parts.now) (vec_len journal.now) }
            ensures { IsJournal drops (flattened (lists parts.entry.now)) journal.exit.now.items }
        { write_journal(journal, parts, drops) },
        &mut || -> Result<Settled, LabFault>
            requires { IsPassOf pile.now all.now × IsWhole pile.now.terms all.now }
            ensures pass { all.exit.now ≡ all.entry.now }
            ensures rest { IfOk result (IsRestOf pile.entry.now.terms all.entry.now) }
            ensures memory { IfErr result IsMemory }
        { pile.settle_rest(alloc, all).map_err(LabFault::of_close) },
    );
    rest
}

/// Writes the history of a journal into a list with room for it, while another thread frees the receipts.
pub(crate) fn write_history_and_free<R: Threads>(
    rt: &R,
    blank: Vec<usize>,
    journal: &[Entry],
    parts: Vec<Vec<Receipt>>,
) -> Vec<usize>
    requires empty { blank.items ≡ [] }
    requires room { length journal.now ≤ vec_capacity blank }
    ensures { result.items ≡ sites_in journal.now }
{
    let ((), history) = join(
        rt,
        move || drop(parts),
        move || -> Vec<usize>
            requires { (blank.items ≡ []) × (length journal.now ≤ vec_capacity blank) }
            ensures { result.items ≡ sites_in journal.entry.now }
        { history_of(blank, journal) },
    );
    history
}
