//! The task that the command line asks for.

ghost use Rattle.std.specs.Prelude.{◌≡◌, ◌↔◌, IfErr, IfOk, Some, None, map, option_and_then, string_bytes};
ghost use Rattle.clap.specs.Words.{found_of, rows_of, subcommand_rows_of};
ghost use Rattle.sand_cli.specs.Asked.{AskForHelp, IsWithin, asked, conflict_among, conflict_of, draw_of, faults, form_in, identity_of, lacks_count, part_in, pile_and, task_named, wish_of};
ghost use Rattle.sand_cli.specs.Spelling.{Heeds};
ghost use Rattle.sand_cli.specs.Fault.{IsOfKinds, IsUsage, ShowsHelp, TellsConflict};

use crate::fault::{Conflict, WordsFault};
use crate::line::command_line;
use crate::options::{flag_in, number_in, setting_in};
use clap::ArgMatches;
use sand_wish::Wish;
use std::alloc::Global;

/// Drops at the sites of a random stream.
#[derive(Clone, Copy)]
pub struct Draw {
    /// The number of drops, at most 4,294,967,295.
    pub count: u32,
    /// The seed, at most 4,294,967,295.
    pub seed: u64,
    /// The number of the stream, at most 4,294,967,295.
    pub stream: u64,
    /// The number of sites of the stream to skip, at most 4,294,967,295.
    pub from: u64,
}

/// The part of the output of `drops` that is written.
#[derive(Clone, Copy)]
pub enum Part {
    /// The table of the drops, the pile and the sums.
    All,
    /// Only the table.
    Table,
    /// Only the pile.
    Pile,
}

/// The form in which a pile is written.
#[derive(Clone, Copy)]
pub enum Form {
    /// As text, with the other results of the command.
    Text,
    /// Alone, as text that parses back to this pile.
    Pile,
    /// As a picture, in plain PGM (portable graymap).
    Graymap,
}

/// What to do. `pgm` asks for a picture instead of text.
#[derive(Clone, Copy)]
pub enum Task {
    /// Settles a pile.
    Settle {
        form: Form,
    },
    /// Tests whether a pile is recurrent.
    Burn,
    /// Writes the identity of a grid with sides from 1 to 256. On a cylinder the rows wrap around.
    Identity {
        width: usize,
        height: usize,
        cylinder: bool,
        pgm: bool,
    },
    /// Drops grains on a pile one after another, at the drawn sites or at those in the input.
    Drops {
        drawn: Option<Draw>,
        part: Part,
    },
    /// Adds two recurrent piles.
    Add {
        pgm: bool,
    },
    /// Writes the inverse of a recurrent pile.
    Inverse {
        pgm: bool,
    },
    /// Writes the sum of `times` copies of a recurrent pile.
    Multiple {
        times: u64,
        pgm: bool,
    },
    /// Writes the recurrent pile that is equivalent to a pile.
    Recurrent {
        pgm: bool,
    },
    /// Drops grains on a pile on many threads at once. `journal` adds a line for each drop to the text.
    Lab {
        wish: Wish,
        journal: bool,
        form: Form,
    },
}

fn form_in(options: &ArgMatches<'_>) -> Form
    ensures { result ≡ form_in (rows_of (found_of options.now)) }
{
    if flag_in(options, "pile") {
        Form::Pile
    } else if flag_in(options, "pgm") {
        Form::Graymap
    } else {
        Form::Text
    }
}

fn identity_of(options: &ArgMatches<'_>) -> Option<Task>
    ensures { result ≡ identity_of (rows_of (found_of options.now)) }
{
    let width = number_in(options, "width")?;
    let height = number_in(options, "height")?;
    Some(Task::Identity {
        width,
        height,
        cylinder: flag_in(options, "cylinder"),
        pgm: flag_in(options, "pgm"),
    })
}

fn wish_of(options: &ArgMatches<'_>) -> Option<Wish>
    ensures { result ≡ wish_of (rows_of (found_of options.now)) }
{
    Some(Wish {
        seed: u64::from(setting_in(options, "seed")?),
        droppers: setting_in(options, "droppers")?,
        drops: setting_in(options, "drops")?,
        epochs: setting_in(options, "epochs")?,
        workers: setting_in(options, "workers")?,
        sweeps: setting_in(options, "sweeps")?,
        observers: setting_in(options, "observers")?,
    })
}

fn draw_of(options: &ArgMatches<'_>) -> Option<Draw>
    ensures { result ≡ draw_of (rows_of (found_of options.now)) }
{
    let seed = setting_in(options, "seed").unwrap_or(0);
    let stream = setting_in(options, "stream").unwrap_or(0);
    let from = setting_in(options, "from").unwrap_or(0);
    Some(Draw {
        count: setting_in(options, "count")?,
        seed: u64::from(seed),
        stream: u64::from(stream),
        from: u64::from(from),
    })
}

fn part_in(options: &ArgMatches<'_>) -> Part
    ensures { result ≡ part_in (rows_of (found_of options.now)) }
{
    if flag_in(options, "pile") {
        Part::Pile
    } else if flag_in(options, "table") {
        Part::Table
    } else {
        Part::All
    }
}

fn task_named(name: &str, options: &ArgMatches<'_>) -> Option<Task>
    ensures { result ≡ task_named (name.now, rows_of (found_of options.now)) }
{
    let pgm = flag_in(options, "pgm");
    match name {
        "settle" => Some(Task::Settle {
            form: form_in(options),
        }),
        "burn" => Some(Task::Burn),
        "identity" => identity_of(options),
        "drops" => Some(Task::Drops {
            drawn: draw_of(options),
            part: part_in(options),
        }),
        "add" => Some(Task::Add { pgm }),
        "inverse" => Some(Task::Inverse { pgm }),
        "multiple" => Some(Task::Multiple {
            times: number_in(options, "times")? as u64,
            pgm,
        }),
        "recurrent" => Some(Task::Recurrent { pgm }),
        "lab" => Some(Task::Lab {
            wish: wish_of(options)?,
            journal: flag_in(options, "journal"),
            form: form_in(options),
        }),
        _ => None,
    }
}

// Whether `--pile` is given together with another flag.
fn pile_and(other: &str, options: &ArgMatches<'_>) -> bool
    ensures { result ≡ pile_and other.now (rows_of (found_of options.now)) }
{
    flag_in(options, "pile") & flag_in(options, other)
}

// Whether `drops` has `--seed`, `--stream` or `--from` without `--count`.
fn lacks_count(name: &str, options: &ArgMatches<'_>) -> bool
    ensures { result ≡ lacks_count name.now (rows_of (found_of options.now)) }
{
    let drawn = setting_in(options, "seed").is_some()
        | setting_in(options, "stream").is_some()
        | setting_in(options, "from").is_some();
    let uncounted = !setting_in(options, "count").is_some() & drawn;
    matches!(name, "drops") & uncounted
}

fn conflict_of(name: &str, options: &ArgMatches<'_>) -> Option<Conflict>
    ensures { result ≡ conflict_of (name.now, rows_of (found_of options.now)) }
{
    if pile_and("pgm", options) {
        Some(Conflict::PileAndGraymap)
    } else if pile_and("journal", options) {
        Some(Conflict::PileAndJournal)
    } else if pile_and("table", options) {
        Some(Conflict::PileAndTable)
    } else if lacks_count(name, options) {
        Some(Conflict::Uncounted)
    } else {
        None
    }
}

fn conflict_among(matches: &ArgMatches<'_>) -> Option<Conflict>
    ensures { result ≡ option_and_then conflict_of (subcommand_rows_of matches.now) }
{
    let (name, options) = matches.subcommand()?;
    conflict_of(name, options)
}

fn chosen(matches: &ArgMatches<'_>) -> Option<Task>
    ensures { result ≡ option_and_then task_named (subcommand_rows_of matches.now) }
{
    let (name, options) = matches.subcommand()?;
    task_named(name, options)
}

/// Parses the words into a task; the first word is the program's name. The error is `Usage` if the command line rejects
/// the words or they ask for help, `Clash` if options exclude each other, and `Memory` if memory runs out.
pub fn task_of<'a>(alloc: Global, words: &'a [String]) -> Result<Task, WordsFault>
    ensures ok { IfOk result (λ t. asked (map string_bytes words.now) ≡ Some t) }
    ensures spelled { Heeds (map string_bytes words.now) result }
    ensures limits { IfOk result IsWithin }
    ensures refused { IfErr result (λ e. IsUsage e → asked (map string_bytes words.now) ≡ None) }
    ensures kind { IfErr result (IsOfKinds (faults (map string_bytes words.now))) }
    ensures clash { IfErr result (TellsConflict (conflict_among (map string_bytes words.now))) }
    ensures help { IfErr result (λ e. IsUsage e → (ShowsHelp e ↔ AskForHelp (map string_bytes words.now))) }
{
    let command = command_line(alloc)?;
    let matches = command.try_get_matches_from(words)?;
    match conflict_among(&matches) {
        Some(conflict) => Err(WordsFault::Clash(conflict)),
        None => match chosen(&matches) {
            Some(task) => Ok(task),
            None => unreachable!(),
        },
    }
}
