//! Why a pile was not settled, or a grain not dropped, with the number of each fault.

ghost use Rattle.std.specs.Prelude.{◌≡◌, alloc_error};
ghost use Rattle.sand_settle.specs.declared.faults.OneFault.TheVariants.{Memory};

use std::alloc::AllocError;
use thiserror::Error;

/// Why a pile was not settled.
#[derive(Debug, Drop, Error)]
pub enum SettleFault {
    #[error(transparent)]
    Memory(#[from(alloc)] AllocError),
}

/// Why a grain was not dropped.
#[derive(Debug, Drop, Error)]
pub enum OneFault {
    #[error("one more drop would exceed the grain limit")]
    Full,
    #[error(transparent)]
    Memory(AllocError),
}

impl From<SettleFault> for OneFault {
    ghost from_gives = { λ _ e. e ≡ Memory alloc_error };

    fn from(fault: SettleFault) -> OneFault {
        match fault {
            SettleFault::Memory(error) => OneFault::Memory(error),
        }
    }
}

impl SettleFault {
    ghost use Rattle.std.specs.Prelude.{◌≡◌};

    pub fn number(&self) -> u32
        ensures { result ≡ 4 }
    {
        4
    }
}

impl OneFault {
    ghost use Rattle.std.specs.Prelude.{◌≡◌};
    ghost use Rattle.sand_settle.specs.Faults.{one_fault_number};

    pub fn number(&self) -> u32
        ensures { result ≡ one_fault_number self.now }
    {
        match self {
            OneFault::Full => 6,
            OneFault::Memory(_) => 4,
        }
    }
}
