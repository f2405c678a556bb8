//! The reasons why a call fails, with the numbers that it returns.

ghost use Rattle.std.specs.Prelude.{◌≡◌, ◌↔◌, IfErr, IsOk};
ghost use Rattle.sand_c.specs.Faults.{number_of, of_group, of_tree};
ghost use Rattle.sand_c.specs.declared.faults.Fault.TheVariants as c;

use sand_group::GroupFault;
use sand_trees::TreeFault;
use std::alloc::{AllocError, AllocFailed};

/// Why a call failed.
#[derive(Clone, Copy)]
pub enum Fault {
    /// A side is outside 1 to 8192.
    Side,
    /// A slice has the wrong length.
    Length,
    /// The sum of the heights is over the grain limit.
    TooManyGrains,
    /// An allocation failed.
    Memory,
    /// The grains and the drops together are over the grain limit.
    Full,
    /// A height is over 3.
    Unstable,
    /// There is a forbidden set.
    NotRecurrent,
    /// Two piles have different shapes.
    Shapes,
    /// The quota exceeds what the pass has left.
    TooMuch,
    /// More rows than the pass has.
    Rows,
    /// The rows of the two passes are not adjacent.
    Apart,
    /// More drops than the pass has left.
    Spent,
    /// The pass is missing quota, receipts or rows.
    Missing,
    /// The handle that is to be filled already holds something.
    Taken,
    /// A cylinder is less than 3 wide.
    Narrow,
    /// A site is outside the grid.
    NoSite,
    /// The handle holds nothing.
    Empty,
    /// The two passes belong to different piles.
    OtherPile,
    /// The directions are not a spanning tree.
    NotTree,
}

impl Fault {
    /// The number that a call returns.
    pub fn number(self) -> u32
        ensures { result ≡ number_of self }
    {
        match self {
            Fault::Side => 1,
            Fault::Length => 2,
            Fault::TooManyGrains => 3,
            Fault::Memory => 4,
            Fault::Full => 6,
            Fault::Unstable => 7,
            Fault::NotRecurrent => 8,
            Fault::Shapes => 9,
            Fault::TooMuch => 10,
            Fault::Rows => 11,
            Fault::Apart => 12,
            Fault::Spent => 13,
            Fault::Missing => 14,
            Fault::Taken => 17,
            Fault::Narrow => 24,
            Fault::NoSite => 25,
            Fault::Empty => 26,
            Fault::OtherPile => 27,
            Fault::NotTree => 28,
        }
    }
}

/// What an export returns.
pub(crate) fn answer(outcome: Result<(), Fault>) -> u32
    ensures ok { IsOk outcome ↔ (result ≡ 0) }
    ensures fault { IfErr outcome (λ e. result ≡ number_of e) }
{
    match outcome {
        Ok(()) => 0,
        Err(fault) => fault.number(),
    }
}

impl From<GroupFault> for Fault {
    ghost from_gives = { λ fault e. e ≡ of_group fault };

    fn from(fault: GroupFault) -> Fault {
        match fault {
            GroupFault::Unstable => Fault::Unstable,
            GroupFault::NotRecurrent => Fault::NotRecurrent,
            GroupFault::Shapes => Fault::Shapes,
            GroupFault::Memory(_) => Fault::Memory,
        }
    }
}

impl From<TreeFault> for Fault {
    ghost from_gives = { λ fault e. e ≡ of_tree fault };

    fn from(fault: TreeFault) -> Fault {
        match fault {
            TreeFault::Length => Fault::Length,
            TreeFault::NotTree => Fault::NotTree,
            TreeFault::Memory(_) => Fault::Memory,
        }
    }
}

impl From<AllocError> for Fault {
    ghost from_gives = { λ _ e. e ≡ c.Memory };

    fn from(_error: AllocError) -> Fault {
        Fault::Memory
    }
}

impl<T: Drop> From<AllocFailed<T>> for Fault {
    ghost from_gives = { λ _ e. e ≡ c.Memory };

    fn from(_error: AllocFailed<T>) -> Fault {
        Fault::Memory
    }
}
