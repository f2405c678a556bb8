//! Why the burning test or an operation of the group was refused, with the number of each fault.

ghost use Rattle.std.specs.Prelude.{◌≡◌, alloc_error};
ghost use Rattle.sand_group.specs.declared.faults.GroupFault.TheVariants.{Memory};

use sand_settle::SettleFault;
use std::alloc::AllocError;
use thiserror::Error;

#[derive(Debug, Drop, Error)]
pub enum GroupFault {
    #[error("a height is over 3")]
    Unstable,
    #[error("there is a forbidden set")]
    NotRecurrent,
    #[error("the two piles have different shapes")]
    Shapes,
    #[error(transparent)]
    Memory(AllocError),
}

impl GroupFault {
    ghost use Rattle.std.specs.Prelude.{◌≡◌};
    ghost use Rattle.sand_group.specs.Faults.{group_fault_number};

    pub fn number(&self) -> u32
        ensures { result ≡ group_fault_number self.now }
    {
        match self {
            GroupFault::Unstable => 7,
            GroupFault::NotRecurrent => 8,
            GroupFault::Shapes => 9,
            GroupFault::Memory(_) => 4,
        }
    }
}

impl From<AllocError> for GroupFault {
    ghost from_gives = { λ e fault. fault ≡ Memory e };

    fn from(error: AllocError) -> GroupFault {
        GroupFault::Memory(error)
    }
}

impl From<SettleFault> for GroupFault {
    ghost from_gives = { λ _ fault. fault ≡ Memory alloc_error };

    fn from(fault: SettleFault) -> GroupFault {
        match fault {
            SettleFault::Memory(error) => GroupFault::Memory(error),
        }
    }
}
