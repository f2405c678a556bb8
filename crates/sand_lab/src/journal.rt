//! The journal of an epoch: which dropper made each drop, and where, by drop number. Its sites are the history.

ghost use Rattle.std.specs.Prelude.{◌≡◌, ◌≤◌, [], length, vec_len, vec_capacity, IfOk, IfErr};
ghost use Rattle.sand_shared.specs.Passes.{AllBelow};
ghost use Rattle.sand_lab.specs.Faults.{IsMemory};
ghost use Rattle.sand_lab.specs.Journals.{Ascends, HavePlaces, IsJournal, HasEntries, AgreeBeside, flattened, lists, sites_in};

use crate::faults::LabFault;
use sand_shared::Receipt;
use std::alloc::Global;

/// One drop of a journal: the dropper that made it, and the site.
#[derive(Clone, Copy, Debug, PartialEq, Eq)]
pub struct Entry {
    pub dropper: u32,
    pub site: usize,
}

/// A blank journal with `drops` entries. The only error is Memory.
pub(crate) fn blank_journal(alloc: Global, drops: u64) -> Result<Vec<Entry>, LabFault>
    ensures len { IfOk result (λ v. vec_len v ≡ drops) }
    ensures memory { IfErr result IsMemory }
{
    let blank = Entry {
        dropper: 0,
        site: 0,
    };
    let journal = vec![in alloc; blank; drops as usize]?;
    Ok(journal)
}

fn write_part(journal: &mut Vec<Entry>, dropper: u32, receipts: &[Receipt])
    requires ascends { Ascends receipts.now }
    requires below { AllBelow (vec_len journal.old) receipts.now }
    ensures len { vec_len journal.new ≡ vec_len journal.old }
    ensures entries { HasEntries dropper receipts.now journal.new.items }
    ensures others { AgreeBeside receipts.now journal.old.items journal.new.items }
{
    for receipt in receipts.iter() {
        journal[receipt.number as usize] = Entry {
            dropper,
            site: receipt.site,
        };
    }
}

/// Writes the journal of all receipts. They come in parts, one for each dropper.
// For the proof: `_drops`, the number of receipts of each part.
pub(crate) fn write_journal(journal: &mut Vec<Entry>, parts: &[Vec<Receipt>], _drops: u32)
    requires { HavePlaces _drops (lists parts.now) (vec_len journal.old) }
    ensures journal { IsJournal _drops (flattened (lists parts.now)) journal.new.items }
{
    for dropper in 0..parts.len() {
        write_part(journal, dropper as u32, parts[dropper].as_slice());
    }
}

/// An empty list with room for a history of `drops` drops, in memory that the system has already provided. The only
/// error is Memory.
pub(crate) fn room_for_history(alloc: Global, drops: u64) -> Result<Vec<usize>, LabFault>
    ensures empty { IfOk result (λ v. v.items ≡ []) }
    ensures room { IfOk result (λ v. drops ≤ vec_capacity v) }
    ensures memory { IfErr result IsMemory }
{
    let mut history = vec![in alloc; 0usize; drops as usize]?;
    history.truncate(0);
    Ok(history)
}

/// The sites of a journal, in the given list.
pub(crate) fn history_of(mut blank: Vec<usize>, journal: &[Entry]) -> Vec<usize>
    requires empty { blank.items ≡ [] }
    requires room { length journal.now ≤ vec_capacity blank }
    ensures { result.items ≡ sites_in journal.now }
{
    for entry in journal.iter() {
        blank.push_reserved(entry.site);
    }
    blank
}
