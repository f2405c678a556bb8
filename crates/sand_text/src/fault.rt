//! Why a text could not be read or a stream ended early, and the number of each fault.

ghost use Rattle.std.specs.Prelude.{◌≡◌};
ghost use Rattle.sand_text.specs.Faults.{read_fault_number, stream_fault_number, text_fault_number};
ghost use Rattle.sand_text.specs.Reading.{of_shape};
ghost use Rattle.sand_text.specs.declared.fault.ReadFault.TheVariants as read_faults;
ghost use Rattle.sand_text.specs.declared.fault.StreamFault.TheVariants as stream_faults;

use sand_model::ShapeFault;
use std::alloc::AllocError;
use thiserror::Error;

/// What is wrong with a text.
#[derive(Clone, Copy, Debug, PartialEq, Eq, Error)]
pub enum TextFault {
    /// A byte that cannot be in the text of a pile, with its offset; or fewer than two numbers, with the length of the
    /// text.
    #[error("unexpected byte or end of input, at byte {0}")]
    Text(usize),
    /// A number over the grain limit, with the offset of its first byte.
    #[error("the number at byte {0} is over the grain limit")]
    TooLarge(usize),
    #[error("width or height is outside 1 to 256")]
    Side,
    #[error("a cylinder is less than 3 wide")]
    Narrow,
    #[error("wrong number of heights")]
    Length,
    #[error("too many grains")]
    TooManyGrains,
    /// A drop at a site outside the grid, with its index among the drops, from 0.
    #[error("drop {0} is outside the grid")]
    NoSite(usize),
}

/// Why a text could not be read.
#[derive(Clone, Copy, Debug, PartialEq, Eq, Error)]
pub enum ReadFault {
    #[error("out of memory")]
    Memory,
    #[error("{0}")]
    Text(TextFault),
}

/// Why a reader could not be read to its end, or a text not be written whole.
#[derive(Clone, Copy, Debug, PartialEq, Eq, Error)]
pub enum StreamFault {
    #[error("out of memory")]
    Memory,
    #[error("the reader failed")]
    Read,
    /// The writer failed after it took this many bytes.
    #[error("the writer failed after {0} bytes")]
    Write(usize),
    #[error("too much input")]
    TooLong,
}

impl TextFault {
    pub fn number(self) -> u32
        ensures { result ≡ text_fault_number self }
    {
        match self {
            TextFault::Text(_) => 18,
            TextFault::TooLarge(_) => 19,
            TextFault::Side => 1,
            TextFault::Narrow => 24,
            TextFault::Length => 2,
            TextFault::TooManyGrains => 3,
            TextFault::NoSite(_) => 25,
        }
    }
}

impl ReadFault {
    pub fn number(self) -> u32
        ensures { result ≡ read_fault_number self }
    {
        match self {
            ReadFault::Memory => 4,
            ReadFault::Text(fault) => fault.number(),
        }
    }
}

impl StreamFault {
    pub fn number(self) -> u32
        ensures { result ≡ stream_fault_number self }
    {
        match self {
            StreamFault::Memory => 4,
            StreamFault::Read => 20,
            StreamFault::Write(_) => 21,
            StreamFault::TooLong => 22,
        }
    }
}

impl From<ShapeFault> for TextFault {
    ghost from_gives = { λ fault e. e ≡ of_shape fault };

    fn from(fault: ShapeFault) -> TextFault {
        match fault {
            ShapeFault::Side => TextFault::Side,
            ShapeFault::Narrow => TextFault::Narrow,
        }
    }
}

impl From<TextFault> for ReadFault {
    ghost from_gives = { λ fault e. e ≡ read_faults.Text fault };

    fn from(fault: TextFault) -> ReadFault {
        ReadFault::Text(fault)
    }
}

impl From<AllocError> for ReadFault {
    ghost from_gives = { λ _ e. e ≡ read_faults.Memory };

    fn from(_refused: AllocError) -> ReadFault {
        ReadFault::Memory
    }
}

impl From<AllocError> for StreamFault {
    ghost from_gives = { λ _ e. e ≡ stream_faults.Memory };

    fn from(_refused: AllocError) -> StreamFault {
        StreamFault::Memory
    }
}
