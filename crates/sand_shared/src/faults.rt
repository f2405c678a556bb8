//! The faults of calls on a shared pile, and their numbers.

ghost use Rattle.std.specs.Prelude.{◌≡◌};
ghost use Rattle.sand_shared.specs.declared.faults.SharedFault.TheVariants.{Memory};
ghost use Rattle.sand_shared.specs.declared.faults.SplitFault.TheVariants.{Memory as SplitMemory};
ghost use Rattle.sand_shared.specs.declared.faults.CloseFault.TheVariants.{Memory as CloseMemory};

use crate::pass::Pass;
use crate::shared_pile::SharedPile;
use std::alloc::AllocError;
use thiserror::Error;

/// Why a shared pile could not be made, or a record copied or continued.
#[derive(Debug, Drop, Error)]
pub enum SharedFault {
    #[error("the pile and its drops exceed the grain limit")]
    TooManyGrains,
    #[error(transparent)]
    Memory(AllocError),
}

/// Why a pass could not be split.
#[derive(Debug, Drop, Error)]
pub enum SplitFault {
    #[error("the quota exceeds what is left")]
    TooMuch,
    #[error("more rows than the pass holds")]
    Rows,
    #[error(transparent)]
    Memory(AllocError),
}

/// Why two passes could not be joined.
#[derive(Debug, Drop, Error)]
pub enum JoinFault {
    #[error("the rows of the two passes are not adjacent")]
    Apart,
    #[error(transparent)]
    Memory(AllocError),
}

/// Why a grain could not be dropped.
#[derive(Clone, Copy, Debug, PartialEq, Eq, Error)]
pub enum DropFault {
    #[error("nothing left to drop")]
    Spent,
}

/// Why a shared pile could not be closed.
#[derive(Debug, Drop, Error)]
pub enum CloseFault {
    #[error("the pass is missing quota, receipts or rows")]
    Missing,
    #[error(transparent)]
    Memory(AllocError),
}

impl From<AllocError> for SharedFault {
    ghost from_gives = { λ e fault. fault ≡ Memory e };

    fn from(error: AllocError) -> SharedFault {
        SharedFault::Memory(error)
    }
}

impl SharedFault {
    ghost use Rattle.std.specs.Prelude.{◌≡◌};
    ghost use Rattle.sand_shared.specs.Faults.{shared_fault_number};

    pub fn number(&self) -> u32
        ensures { result ≡ shared_fault_number self.now }
    {
        match self {
            SharedFault::TooManyGrains => 3,
            SharedFault::Memory(_) => 4,
        }
    }
}

impl From<AllocError> for SplitFault {
    ghost from_gives = { λ e fault. fault ≡ SplitMemory e };

    fn from(error: AllocError) -> SplitFault {
        SplitFault::Memory(error)
    }
}

impl SplitFault {
    ghost use Rattle.std.specs.Prelude.{◌≡◌};
    ghost use Rattle.sand_shared.specs.Faults.{split_fault_number};

    pub fn number(&self) -> u32
        ensures { result ≡ split_fault_number self.now }
    {
        match self {
            SplitFault::TooMuch => 10,
            SplitFault::Rows => 11,
            SplitFault::Memory(_) => 4,
        }
    }
}

/// The fault alone, for `?`. The pass that could not be joined is discarded.
impl From<(JoinFault, Pass)> for JoinFault {
    ghost from_gives = { λ e fault. fault ≡ e.0 };

    fn from(error: (JoinFault, Pass)) -> JoinFault {
        error.0
    }
}

/// The fault alone, for `?`. The passes that were not joined are discarded.
impl From<(JoinFault, Vec<Pass>)> for JoinFault {
    ghost from_gives = { λ e fault. fault ≡ e.0 };

    fn from(error: (JoinFault, Vec<Pass>)) -> JoinFault {
        error.0
    }
}

impl JoinFault {
    ghost use Rattle.std.specs.Prelude.{◌≡◌};
    ghost use Rattle.sand_shared.specs.Faults.{join_fault_number};

    pub fn number(&self) -> u32
        ensures { result ≡ join_fault_number self.now }
    {
        match self {
            JoinFault::Apart => 12,
            JoinFault::Memory(_) => 4,
        }
    }
}

impl DropFault {
    ghost use Rattle.std.specs.Prelude.{◌≡◌};

    pub fn number(self) -> u32
        ensures { result ≡ 13 }
    {
        13
    }
}

impl From<AllocError> for CloseFault {
    ghost from_gives = { λ e fault. fault ≡ CloseMemory e };

    fn from(error: AllocError) -> CloseFault {
        CloseFault::Memory(error)
    }
}

/// The fault alone, for `?`. The pile and the pass are discarded.
impl From<(CloseFault, SharedPile, Pass)> for CloseFault {
    ghost from_gives = { λ e fault. fault ≡ e.0 };

    fn from(error: (CloseFault, SharedPile, Pass)) -> CloseFault {
        error.0
    }
}

impl CloseFault {
    ghost use Rattle.std.specs.Prelude.{◌≡◌};
    ghost use Rattle.sand_shared.specs.Faults.{close_fault_number};

    pub fn number(&self) -> u32
        ensures { result ≡ close_fault_number self.now }
    {
        match self {
            CloseFault::Missing => 14,
            CloseFault::Memory(_) => 4,
        }
    }
}
