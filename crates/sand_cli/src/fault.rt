//! Errors in the words of the command line, and their fault numbers.

ghost use Rattle.std.specs.Prelude.{◌≡◌};
ghost use Rattle.sand_cli.specs.Fault.{IsFaultOf, words_fault_number};

use clap::error::ErrorKind;
use std::alloc::AllocError;
use thiserror::Error;

/// Options that cannot be combined.
#[derive(Clone, Copy, Debug, PartialEq, Eq, Error)]
pub enum Conflict {
    /// `--pile` with `--pgm`.
    #[error("error: the argument '--pile' cannot be used with '--pgm'\n\nFor more information, try '--help'.")]
    PileAndGraymap,
    /// `--pile` with `--journal`.
    #[error("error: the argument '--pile' cannot be used with '--journal'\n\nFor more information, try '--help'.")]
    PileAndJournal,
    /// `--pile` with `--table`.
    #[error("error: the argument '--pile' cannot be used with '--table'\n\nFor more information, try '--help'.")]
    PileAndTable,
    /// `--seed`, `--stream` or `--from` without `--count`.
    #[error("error: the arguments '--seed', '--stream' and '--from' cannot be used without '--count'\n\n\
         For more information, try '--help'.")]
    Uncounted,
}

/// Why the words name no task.
#[derive(Debug, Drop, Error)]
pub enum WordsFault {
    /// Memory ran out.
    #[error("out of memory")]
    Memory,
    /// The words are invalid, or ask for help.
    #[error("{0}")]
    Usage(clap::Error),
    /// The words combine options that exclude each other.
    #[error("{0}")]
    Clash(Conflict),
}

impl WordsFault {
    pub fn number(&self) -> u32
        ensures { result ≡ words_fault_number self.now }
    {
        match self {
            WordsFault::Memory => 4,
            WordsFault::Usage(_) | WordsFault::Clash(_) => 23,
        }
    }
}

impl From<AllocError> for WordsFault {
    ghost use Rattle.sand_cli.specs.declared.fault.WordsFault.TheVariants.{Memory};

    ghost from_gives = { λ _ f. f ≡ Memory };

    fn from(_error: AllocError) -> WordsFault {
        WordsFault::Memory
    }
}

impl From<clap::Error> for WordsFault {
    ghost from_gives = { IsFaultOf };

    fn from(error: clap::Error) -> WordsFault {
        match error.kind() {
            ErrorKind::OutOfMemory => WordsFault::Memory,
            _ => WordsFault::Usage(error),
        }
    }
}
