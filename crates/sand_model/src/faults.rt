//! Why a shape, a pile or a toppling was refused, with the number of each fault.

ghost use Rattle.std.specs.Prelude.{◌≡◌};
ghost use Rattle.sand_model.specs.declared.faults.PileFault.TheVariants.{Memory};

use std::alloc::AllocError;
use thiserror::Error;

/// Why a shape was not made.
#[derive(Clone, Copy, Debug, PartialEq, Eq, Error)]
pub enum ShapeFault {
    #[error("width or height is outside 1 to 256")]
    Side,
    #[error("a cylinder is less than 3 wide")]
    Narrow,
}

/// Why a pile was not made or not changed.
#[derive(Debug, Drop, Error)]
pub enum PileFault {
    #[error("wrong number of heights")]
    Length,
    #[error("too many grains")]
    TooManyGrains,
    #[error(transparent)]
    Memory(AllocError),
}

/// Why a site did not topple.
#[derive(Clone, Copy, Debug, PartialEq, Eq, Error)]
pub enum ToppleFault {
    #[error("the site has fewer than 4 grains")]
    TooLow,
}

impl ShapeFault {
    ghost use Rattle.std.specs.Prelude.{◌≡◌};
    ghost use Rattle.sand_model.specs.Faults.{shape_fault_number};

    pub fn number(self) -> u32
        ensures { result ≡ shape_fault_number self }
    {
        match self {
            ShapeFault::Side => 1,
            ShapeFault::Narrow => 24,
        }
    }
}

impl PileFault {
    ghost use Rattle.std.specs.Prelude.{◌≡◌};
    ghost use Rattle.sand_model.specs.Faults.{pile_fault_number};

    pub fn number(&self) -> u32
        ensures { result ≡ pile_fault_number self.now }
    {
        match self {
            PileFault::Length => 2,
            PileFault::TooManyGrains => 3,
            PileFault::Memory(_) => 4,
        }
    }
}

impl From<AllocError> for PileFault {
    ghost from_gives = { λ e fault. fault ≡ Memory e };

    fn from(error: AllocError) -> PileFault {
        PileFault::Memory(error)
    }
}

impl ToppleFault {
    ghost use Rattle.std.specs.Prelude.{◌≡◌};

    pub fn number(self) -> u32
        ensures { result ≡ 5 }
    {
        5
    }
}
