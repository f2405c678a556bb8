//! The values of a command's options.

ghost use Rattle.std.specs.Prelude.{◌≡◌};
ghost use Rattle.clap.specs.Words.{found_of, rows_of};
ghost use Rattle.sand_cli.specs.Options.{flag_in, number_in, setting_in};

use clap::ArgMatches;

/// Whether the flag is given.
pub(crate) fn flag_in(options: &ArgMatches<'_>, name: &str) -> bool
    ensures { result ≡ flag_in name.now (rows_of (found_of options.now)) }
{
    options.get_one::<bool>(name).unwrap_or(false)
}

/// The value of the option, if it has one.
pub(crate) fn number_in(options: &ArgMatches<'_>, name: &str) -> Option<usize>
    ensures { result ≡ number_in name.now (rows_of (found_of options.now)) }
{
    options.get_one::<usize>(name)
}

/// The value of the setting, if it has one.
pub(crate) fn setting_in(options: &ArgMatches<'_>, name: &str) -> Option<u32>
    ensures { result ≡ setting_in name.now (rows_of (found_of options.now)) }
{
    options.get_one::<u32>(name)
}
