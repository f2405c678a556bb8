//! The faults of the laboratory, and their numbers.

ghost use Rattle.std.specs.Prelude.{◌≡◌};
ghost use Rattle.sand_lab.specs.declared.faults.LabFault.TheVariants.{Memory};

use sand_shared::{CloseFault, JoinFault, SharedFault, SplitFault};
use std::alloc::AllocError;
use thiserror::Error;

/// Why a plan, an album or a run was refused.
#[derive(Debug, Drop, Error)]
pub enum LabFault {
    #[error("the pile and all drops exceed the grain limit")]
    TooManyGrains,
    #[error(transparent)]
    Memory(AllocError),
    #[error("a field of the plan is out of range")]
    Plan,
    #[error("the album does not have one place per epoch")]
    AlbumSize,
    #[error("an epoch's place in the album is already set")]
    Taken,
}

impl From<AllocError> for LabFault {
    ghost from_gives = { λ e fault. fault ≡ Memory e };

    fn from(error: AllocError) -> LabFault {
        LabFault::Memory(error)
    }
}

impl LabFault {
    ghost use Rattle.std.specs.Prelude.{◌≡◌};
    ghost use Rattle.sand_lab.specs.Faults.{lab_fault_number};

    pub fn number(&self) -> u32
        ensures { result ≡ lab_fault_number self.now }
    {
        match self {
            LabFault::TooManyGrains => 3,
            LabFault::Memory(_) => 4,
            LabFault::Plan => 15,
            LabFault::AlbumSize => 16,
            LabFault::Taken => 17,
        }
    }
}

// A run never asks a shared pile for anything it would refuse, so the only faults left are those of memory.
impl LabFault {
    ghost use Rattle.std.specs.Prelude.{◌≢◌};
    ghost use Rattle.sand_lab.specs.Faults.{IsMemory};

    /// The fault of a shared pile or a record whose grains stay within the limit.
    pub(crate) fn of_shared(fault: SharedFault) -> LabFault
        requires { fault ≢ SharedFault.TooManyGrains }
        ensures { IsMemory result }
    {
        match fault {
            SharedFault::Memory(error) => error.into(),
            SharedFault::TooManyGrains => unreachable!(),
        }
    }

    /// The fault of a split of a pass that has the quota and the rows to give away.
    pub(crate) fn of_split(fault: SplitFault) -> LabFault
        requires quota { fault ≢ SplitFault.TooMuch }
        requires rows { fault ≢ SplitFault.Rows }
        ensures { IsMemory result }
    {
        match fault {
            SplitFault::Memory(error) => error.into(),
            SplitFault::TooMuch | SplitFault::Rows => unreachable!(),
        }
    }

    /// The fault of a join of passes whose rows touch.
    pub(crate) fn of_join(fault: JoinFault) -> LabFault
        requires { fault ≢ JoinFault.Apart }
        ensures { IsMemory result }
    {
        match fault {
            JoinFault::Memory(error) => error.into(),
            JoinFault::Apart => unreachable!(),
        }
    }

    /// The fault of a close with a pass that has gathered everything.
    pub(crate) fn of_close(fault: CloseFault) -> LabFault
        requires { fault ≢ CloseFault.Missing }
        ensures { IsMemory result }
    {
        match fault {
            CloseFault::Memory(error) => error.into(),
            CloseFault::Missing => unreachable!(),
        }
    }
}
