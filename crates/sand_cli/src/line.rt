//! The command line that `sandpile` accepts, built with clap.
//!
//! Commands and options are large values. Functions that make them are not inlined, because a single stack frame with
//! room for all of them would have 42 KB.

ghost use Rattle.std.specs.Prelude.{◌≡◌, IfOk, codes, false};
ghost use Rattle.clap.specs.Words.{App, Rule, app_of, rule_of};
ghost use Rattle.sand_cli.specs.Line.{AddsRule, IfLine, IsLine, bare_line, command_line, drops_line, flag, identity_line, lab_line, multiple_line, number, or_command, pgm_line, required, setting, settle_line};

use crate::help::{
    self, DROPPERS, DROPS_OF_EACH, EPOCHS, Help, OBSERVERS, SEED, SWEEPS, Setting, TIMES, WORKERS,
};
use clap::builder::ValueParser;
use clap::{Arg, ArgAction, Command};
use sand_wish::{
    MOST_DROPPERS, MOST_DROPS, MOST_EPOCHS, MOST_OBSERVERS, MOST_SWEEPS, MOST_WORKERS,
};
use std::alloc::{AllocError, Global};

/// A command, or out of memory.
type Line<'a> = Result<Command<'a>, AllocError>;

// An option with an integer from `least` to `most`.
fn number<'a>(alloc: Global, name: &'a str, least: u64, most: u64, about: &'static str) -> Arg<'a>
    ensures rule { rule_of result ≡ number name.entry.now least most }
    ensures local { result.global ≡ false }
{
    Arg::new(alloc, name)
        .long(name)
        .action(ArgAction::Set)
        .value_name("N")
        .value_parser(ValueParser::unsigned(least, most))
        .help(about)
}

fn bare_line<'a>(alloc: Global, name: &'a str, help: Help) -> Command<'a>
    ensures { IsLine result (bare_line name.entry.now) }
{
    let (first, _) = help.about.split_once('\n').unwrap_or((help.about, ""));
    Command::new(alloc, name)
        .about(first)
        .long_about(help.about)
        .after_long_help(help.details)
}

// Adds an option to a command. Takes a `Result` because in a chain of `?` the prover looks up every live value again at
// each later call, which doubles the proof time.
fn with_option<'a>(line: Line<'a>, option: Arg<'a>) -> Line<'a>
    ensures { (rule : Rule) → rule_of option.entry ≡ rule → option.entry.global ≡ false
        → AddsRule line.entry result rule }
{
    line?.arg(option)
}

// Adds an option without a value.
#[inline(never)]
fn with_flag<'a>(alloc: Global, line: Line<'a>, name: &'a str, about: &'static str) -> Line<'a>
    ensures { AddsRule line.entry result (flag name.entry.now) }
{
    let option = Arg::new(alloc, name)
        .long(name)
        .action(ArgAction::SetTrue)
        .help(about);
    with_option(line, option)
}

// Adds an option with a 32-bit unsigned integer.
#[inline(never)]
fn with_word<'a>(alloc: Global, line: Line<'a>, name: &'a str, about: &'static str) -> Line<'a>
    ensures { AddsRule line.entry result (number name.entry.now 0 4294967295) }
{
    with_option(line, number(alloc, name, 0, 4294967295, about))
}

// Adds an option with an integer from `least` to `most`; required.
#[inline(never)]
fn with_required<'a>(
    alloc: Global,
    line: Line<'a>,
    name: &'a str,
    least: u64,
    most: u64,
    about: &'static str,
) -> Line<'a>
    ensures { AddsRule line.entry result (required name.entry.now least most) }
{
    with_option(line, number(alloc, name, least, most, about).required(true))
}

// Adds a setting with an integer from `least` to `most` that defaults to `usual`.
#[inline(never)]
fn with_setting<'a>(
    alloc: Global,
    line: Line<'a>,
    named: Setting,
    least: u32,
    most: u32,
    usual: &'static str,
) -> Line<'a>
    ensures { AddsRule line.entry result (setting named.0.now least most usual.now) }
{
    let option = number(alloc, named.0, u64::from(least), u64::from(most), named.1);
    with_option(line, option.default_value(usual))
}

#[inline(never)]
fn pgm_line<'a>(alloc: Global, name: &'a str, help: Help) -> Line<'a>
    ensures { IfLine result (pgm_line name.entry.now) }
{
    let line = Ok(bare_line(alloc, name, help));
    with_flag(alloc, line, "pgm", help::PGM)
}

#[inline(never)]
fn settle_line<'a>(alloc: Global) -> Line<'a>
    ensures { IfLine result settle_line }
{
    let line = Ok(bare_line(alloc, "settle", help::SETTLE));
    let line = with_flag(alloc, line, "pile", help::PILE);
    with_flag(alloc, line, "pgm", help::PGM)
}

#[inline(never)]
fn drops_line<'a>(alloc: Global) -> Line<'a>
    ensures { IfLine result drops_line }
{
    let line = Ok(bare_line(alloc, "drops", help::DROPS));
    let line = with_word(alloc, line, "count", help::COUNT);
    let line = with_word(alloc, line, "seed", help::DROPS_SEED);
    let line = with_word(alloc, line, "stream", help::STREAM);
    let line = with_word(alloc, line, "from", help::FROM);
    let line = with_flag(alloc, line, "table", "Write only the table");
    with_flag(alloc, line, "pile", help::PILE)
}

#[inline(never)]
fn identity_line<'a>(alloc: Global) -> Line<'a>
    ensures { IfLine result identity_line }
{
    let line = Ok(bare_line(alloc, "identity", help::IDENTITY));
    let line = with_required(alloc, line, "width", 1, 256, help::WIDTH);
    let line = with_required(alloc, line, "height", 1, 256, help::HEIGHT);
    let line = with_flag(alloc, line, "cylinder", "Make the rows wrap around");
    with_flag(alloc, line, "pgm", help::PGM)
}

#[inline(never)]
fn multiple_line<'a>(alloc: Global) -> Line<'a>
    ensures { IfLine result multiple_line }
{
    let line = Ok(bare_line(alloc, "multiple", help::MULTIPLE));
    let line = with_required(alloc, line, "times", 0, u64::MAX, TIMES);
    with_flag(alloc, line, "pgm", help::PGM)
}

#[inline(never)]
fn lab_line<'a>(alloc: Global) -> Line<'a>
    ensures { IfLine result lab_line }
{
    let line = Ok(bare_line(alloc, "lab", help::LAB));
    let line = with_setting(alloc, line, SEED, 0, 4294967295, "0");
    let line = with_setting(alloc, line, DROPPERS, 1, MOST_DROPPERS, "2");
    let line = with_setting(alloc, line, DROPS_OF_EACH, 0, MOST_DROPS, "100");
    let line = with_setting(alloc, line, EPOCHS, 1, MOST_EPOCHS, "1");
    let line = with_setting(alloc, line, WORKERS, 1, MOST_WORKERS, "1");
    let line = with_setting(alloc, line, SWEEPS, 0, MOST_SWEEPS, "0");
    let line = with_setting(alloc, line, OBSERVERS, 0, MOST_OBSERVERS, "0");
    let line = with_flag(alloc, line, "journal", "Also write a line for each drop");
    let line = with_flag(alloc, line, "pile", help::PILE);
    with_flag(alloc, line, "pgm", help::PGM)
}

// Adds a command to the command line, if both are `Ok`.
fn with_command<'a>(line: Line<'a>, command: Line<'a>) -> Line<'a>
    ensures { (old sub : App) → IfOk line.entry (λ c. app_of c ≡ old) → IfLine command.entry sub
        → IfOk result (λ c. app_of c ≡ or_command old sub) }
{
    line?.subcommand(command?)
}

/// The command line of `sandpile`.
#[inline(never)]
pub(crate) fn command_line<'a>(alloc: Global) -> Line<'a>
    ensures { IfOk result (λ c. app_of c ≡ command_line) }
{
    let top = bare_line(alloc, "sandpile", help::PROGRAM)
        .after_help(help::SHORT)
        .subcommand_required(true)
        .disable_help_subcommand(true);
    let line = with_command(Ok(top), settle_line(alloc));
    let line = with_command(line, Ok(bare_line(alloc, "burn", help::BURN)));
    let line = with_command(line, identity_line(alloc));
    let line = with_command(line, drops_line(alloc));
    let line = with_command(line, pgm_line(alloc, "add", help::ADD));
    let line = with_command(line, pgm_line(alloc, "inverse", help::INVERSE));
    let line = with_command(line, multiple_line(alloc));
    let line = with_command(line, pgm_line(alloc, "recurrent", help::RECURRENT));
    with_command(line, lab_line(alloc))
}
