//! The command `lab`, and the texts of a report.

ghost use Rattle.std.specs.Prelude.{ℕ, ◌≡◌, ◌+◌, ◌++◌, List, map, sum, IfOk, IfErr, OnOk};
ghost use Rattle.sand_shared.specs.Record.{IsOneThreads};
ghost use Rattle.sand_text.specs.Runs.{epoch_line, journal_lines, lines_from};
ghost use Rattle.sand_cli.specs.Asked.{IsRun};
ghost use Rattle.sand_cli.specs.declared.task.Form.TheVariants as forms;
ghost use Rattle.sand_wish.specs.Plans.{all_drops};
ghost use Rattle.sand_lab.specs.Reports.{IsReport};
ghost use Rattle.sand_commands.specs.Answers.{IsText};
ghost use Rattle.sand_commands.specs.Commands.{Finds};
ghost use Rattle.sand_desk.specs.Commands.{IsLabFault, IsRunFault};
ghost use Rattle.sand_desk.specs.Laboratory.{IsLabText, dropper_and_site, journal_text_of_report, lab_text_of_report, report_text_of, sums_of};

use sand_cli::Form;
use sand_commands::{DeskFault, pgm_text, pile_text, read_pile};
use sand_lab::{Album, Entry, LabFault, Plan, Report, run};
use sand_model::Pile;
use sand_shared::Record;
use sand_text::{Sums, push_epoch, push_journal_line, push_odometer, push_pile, push_total};
use sand_wish::{Gate, Wish};
use std::alloc::{AllocError, Global};
use std::thread::Threads;

fn sums_of(record_of: &Record) -> Sums
    ensures { result ≡ sums_of record_of.now }
{
    Sums {
        drops: record_of.history().len() as u64,
        topplings: record_of.topplings(),
        lost: record_of.lost(),
        grains: record_of.pile().grains(),
    }
}

// Appends a line for each epoch, by number.
fn push_epochs(text: &mut Vec<u8>, records: &[Record]) -> Result<(), AllocError>
    ensures { OnOk result (text.new.items ≡ text.old.items ++ lines_from epoch_line 0 (map sums_of records.now)) }
{
    for (epoch, closed) in records.iter().enumerate() {
        push_epoch(text, epoch as u64, sums_of(closed))?;
    }
    Ok(())
}

/// The text of a report: the sums of each epoch and of all epochs, the last pile, and how often each site toppled.
pub fn lab_text(alloc: Global, report: &Report) -> Result<Vec<u8>, DeskFault>
    ensures { IsText result (lab_text_of_report report.now) }
{
    let total = report.total();
    let mut text = Vec::new(alloc);
    text.extend_from_slice(b"epoch drops topplings lost grains\n")?;
    push_epochs(&mut text, report.records())?;
    push_total(&mut text, sums_of(total))?;
    push_pile(&mut text, total.pile())?;
    push_odometer(&mut text, total.pile().shape(), total.odometers())?;
    Ok(text)
}

// Appends a line for each drop of an epoch, by number.
fn push_journal(text: &mut Vec<u8>, epoch: u32, journal: &[Entry]) -> Result<(), AllocError>
    ensures { OnOk result (text.new.items ≡ text.old.items ++ journal_lines epoch (map dropper_and_site journal.now)) }
{
    for (number, entry) in journal.iter().enumerate() {
        push_journal_line(text, epoch, number as u64, entry.dropper, entry.site)?;
    }
    Ok(())
}

fn push_journals(text: &mut Vec<u8>, report: &Report) -> Result<(), AllocError>
    ensures { OnOk result (text.new.items ≡ text.old.items ++ journal_text_of_report report.now) }
{
    let epochs = report.records().len() as u32;
    text.extend_from_slice(b"journal\n")?;
    for epoch in 0..epochs {
        push_journal(text, epoch, report.journal(epoch))?;
    }
    Ok(())
}

/// The journal of a report: a line for each drop, by epoch and by number within it.
pub fn journal_text(alloc: Global, report: &Report) -> Result<Vec<u8>, DeskFault>
    ensures { IsText result (journal_text_of_report report.now) }
{
    let mut text = Vec::new(alloc);
    push_journals(&mut text, report)?;
    Ok(text)
}

// The plan of the run that the command line asks for, with all of its settings.
fn plan_of(wish: Wish) -> Plan
    requires { IsRun wish }
    ensures { result ≡ wish }
{
    let Ok(plan) = Plan::new(wish) else {
        unreachable!()
    };
    plan
}

// Runs a wish from a starting pile, on as many threads as it asks for.
fn report_on<T: Threads + Sync, G: Gate>(
    rt: &T,
    alloc: Global,
    gate: &G,
    start: &Pile,
    wish: Wish,
) -> Result<Report, DeskFault>
    requires { IsRun wish }
    ensures report { IfOk result (λ p. (album : List ℕ) × IsReport album wish start.now p) }
    ensures fault { IfErr result (IsRunFault start.now.grid (sum start.now.heights + all_drops wish)) }
{
    let plan = plan_of(wish);
    let Ok(album) = Album::new(alloc, wish.epochs) else {
        return Err(DeskFault::Memory);
    };
    match run(rt, alloc, start, &plan, gate, &album) {
        Ok(report) => Ok(report),
        Err(LabFault::TooManyGrains) => Err(DeskFault::TooManyGrains),
        Err(LabFault::Memory(_)) => Err(DeskFault::Memory),
        Err(LabFault::Taken) => Err(DeskFault::Taken),
        Err(LabFault::Plan | LabFault::AlbumSize) => unreachable!(),
    }
}

// The text of a report, with its journal if wanted.
fn whole_text(alloc: Global, report: &Report, journal: bool) -> Result<Vec<u8>, DeskFault>
    ensures { IsText result (report_text_of journal forms.Text report.now) }
{
    let mut text = lab_text(alloc, report)?;
    if journal {
        push_journals(&mut text, report)?;
    }
    Ok(text)
}

/// What is written of a report: its text, with its journal if wanted, or only its last pile, as text or as a picture.
#[derive(Clone, Copy)]
pub(crate) struct Output {
    pub(crate) journal: bool,
    pub(crate) form: Form,
}

fn report_text(alloc: Global, report: &Report, output: Output) -> Result<Vec<u8>, DeskFault>
    requires { IsOneThreads report.now.total }
    ensures { IsText result (report_text_of output.journal output.form report.now) }
{
    match output.form {
        Form::Text => whole_text(alloc, report, output.journal),
        Form::Pile => pile_text(alloc, report.total().pile()),
        Form::Graymap => pgm_text(alloc, report.total().pile()),
    }
}

/// The output of a run on the pile in the input. Fails if the pile and all drops exceed the grain limit
/// (`TooManyGrains`).
pub(crate) fn lab_output<T: Threads + Sync, G: Gate>(
    rt: &T,
    alloc: Global,
    gate: &G,
    input: &[u8],
    wish: Wish,
    output: Output,
) -> Result<Vec<u8>, DeskFault>
    requires { IsRun wish }
    ensures text { IfOk result (λ text. IsLabText wish output.journal output.form input.now text.items) }
    ensures fault { IfErr result (Finds (IsLabFault wish input.now)) }
{
    let start = read_pile(alloc, input)?;
    let report = report_on(rt, alloc, gate, &start, wish)?;
    report_text(alloc, &report, output)
}
