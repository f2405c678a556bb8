//! The report of a run: a record of each epoch and one of all, the journals, and what workers and observers found.

ghost use Rattle.std.specs.Prelude.{◌≡◌, ◌+◌, ◌<◌, ◌≤◌, [], length, sum, slice_index, slice_index_or, vec_len, vec_capacity, IfOk, IfErr, OnOk, OnErr};
ghost use Rattle.sand_lab.specs.Faults.{IsMemory};
ghost use Rattle.sand_lab.specs.Reports.{HasGrown, IsBoth, report_of, sheet_at};
ghost use Rattle.sand_model.specs.Piles.{most_grains_on};

use crate::album::Note;
use crate::faults::LabFault;
use crate::gathering::Findings;
use crate::journal::Entry;
use sand_shared::Record;
use std::alloc::Global;
use std::marker::Model;

/// What is kept of an epoch, apart from its record.
#[derive(Drop)]
pub(crate) struct Sheet {
    pub(crate) journal: Vec<Entry>,
    pub(crate) findings: Findings,
    pub(crate) note: Note,
}

impl Model for Sheet {
    ghost use Rattle.std.specs.Prelude.{map};
    ghost use Rattle.sand_lab.specs.Reports.{SheetView};

    ghost Value = { SheetView };

    ghost view = { λ s. record {
      journal = s.journal.items;
      tallies = map (λ ts. ts.items) s.findings.tallies.items;
      swept = s.findings.swept.items;
      place = s.note.cell;
      shown = s.note.known;
    } };
}

/// The result of a run.
#[derive(Drop)]
pub struct Report {
    records: Vec<Record>,
    sheets: Vec<Sheet>,
    total: Record,
}

impl Model for Report {
    ghost use Rattle.std.specs.Prelude.{◌≡◌, ◌≤◌, vec_len};
    ghost use Rattle.sand_lab.specs.Reports.{ReportView};

    ghost Value = { ReportView };

    ghost view = { λ r. record { records = r.records.items; sheets = r.sheets.items; total = r.total } };

    ghost invariant = { λ r. (vec_len r.sheets ≡ vec_len r.records) × (vec_len r.records ≤ 100) };
}

impl Report {
    /// The record of each epoch, in order. Whatever else is kept by epoch has the same length.
    pub fn records(&self) -> &[Record]
        ensures value { result.now ≡ self.now.records }
        ensures sheets { length self.now.sheets ≡ length self.now.records }
        ensures bound { length self.now.records ≤ 100 }
    {
        self.records.as_slice()
    }

    /// One record of all epochs: from the first start, with all histories one after the other.
    pub fn total(&self) -> &Record
        ensures { result.now ≡ self.now.total }
    {
        &self.total
    }

    /// The drops of an epoch, by number: which dropper made each, and where.
    pub fn journal(&self, epoch: u32) -> &[Entry]
        requires { epoch < length self.now.sheets }
        ensures { result.now ≡ (sheet_at self.now epoch).journal }
    {
        self.sheets[epoch as usize].journal.as_slice()
    }

    /// The sixteen tallies that an observer read in an epoch.
    pub fn tallies(&self, epoch: u32, observer: u32) -> &[u64]
        requires epoch { epoch < length self.now.sheets }
        requires observer { observer < length (sheet_at self.now epoch).tallies }
        ensures { result.now ≡ slice_index_or (sheet_at self.now epoch).tallies observer [] }
    {
        let sheet = &self.sheets[epoch as usize];
        sheet.findings.tallies[observer as usize].as_slice()
    }

    /// How many topplings a worker's sweeps returned in an epoch.
    pub fn swept(&self, epoch: u32, worker: u32) -> u64
        requires epoch { epoch < length self.now.sheets }
        requires worker { worker < length (sheet_at self.now epoch).swept }
        ensures { result ≡ slice_index (sheet_at self.now epoch).swept worker }
    {
        let sheet = &self.sheets[epoch as usize];
        sheet.findings.swept[worker as usize]
    }

    /// A note of the album's place for an epoch. It knows the picture of the epoch's record.
    pub fn note(&mut self, epoch: u32) -> Note
        requires { epoch < length self.old.sheets }
        ensures same { self.new ≡ self.old }
        ensures place { result.cell ≡ (sheet_at self.old epoch).place }
        ensures shown { result.known ≡ (sheet_at self.old epoch).shown }
    {
        self.sheets[epoch as usize].again()
    }
}

impl Sheet {
    fn again(&mut self) -> Note
        ensures same { self.new ≡ self.old }
        ensures place { result.cell ≡ self.old.place }
        ensures shown { result.known ≡ self.old.shown }
    {
        self.note.again()
    }
}

// Appends a record that starts from the pile of the total.
fn append(alloc: Global, total: &mut Record, next: &Record) -> Result<(), LabFault>
    requires start { next.now.start ≡ total.old.settled.pile }
    requires limit { sum total.old.start.heights + (length total.old.history + length next.now.history)
        ≤ most_grains_on total.old.start.grid }
    ensures both { OnOk result (IsBoth total.old next.now total.new) }
    ensures unchanged { OnErr result (total.new ≡ total.old) }
    ensures memory { IfErr result IsMemory }
{
    total.append(alloc, next).map_err(LabFault::of_shared)
}

// Makes room for one more epoch.
fn reserve_one(records: &mut Vec<Record>, sheets: &mut Vec<Sheet>) -> Result<(), LabFault>
    ensures records { records.new.items ≡ records.old.items }
    ensures sheets { sheets.new.items ≡ sheets.old.items }
    ensures room_for_the_record { OnOk result (vec_len records.new < vec_capacity records.new) }
    ensures room_for_the_sheet { OnOk result (vec_len sheets.new < vec_capacity sheets.new) }
    ensures memory { IfErr result IsMemory }
{
    records.reserve(1)?;
    sheets.reserve(1)?;
    Ok(())
}

impl Report {
    /// The report of the first epoch; its record is also the total. The only error is Memory.
    pub(crate) fn of(
        alloc: Global,
        closed: Record,
        sheet: Sheet,
        total: Record,
    ) -> Result<Report, LabFault>
        requires total { total ≡ closed }
        ensures report { IfOk result (λ p. p ≡ report_of closed sheet) }
        ensures memory { IfErr result IsMemory }
    {
        let mut records = Vec::new(alloc);
        let mut sheets = Vec::new(alloc);
        reserve_one(&mut records, &mut sheets)?;
        records.push_reserved(closed);
        sheets.push_reserved(sheet);
        Ok(Report {
            records,
            sheets,
            total,
        })
    }

    /// Adds an epoch that starts from the pile of the total, which grows in place. The only error is Memory; the report
    /// is then unchanged.
    pub(crate) fn add(
        &mut self,
        alloc: Global,
        closed: Record,
        sheet: Sheet,
    ) -> Result<(), LabFault>
        requires bound { length self.old.records < 100 }
        requires start { closed.start ≡ self.old.total.settled.pile }
        requires limit { sum self.old.total.start.heights + (length self.old.total.history + length closed.history)
            ≤ most_grains_on self.old.total.start.grid }
        ensures grown { OnOk result (HasGrown self.old closed sheet self.new) }
        ensures unchanged { OnErr result (self.new ≡ self.old) }
        ensures memory { IfErr result IsMemory }
    {
        reserve_one(&mut self.records, &mut self.sheets)?;
        append(alloc, &mut self.total, &closed)?;
        self.records.push_reserved(closed);
        self.sheets.push_reserved(sheet);
        Ok(())
    }
}
