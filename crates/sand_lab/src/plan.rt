//! A plan: a wish within its limits.

ghost use Rattle.std.specs.Prelude.{◌≡◌, ◌↔◌, IfOk, IsErr};
ghost use Rattle.sand_wish.specs.Plans.{IsPlan, quota_of};

use crate::faults::LabFault;
use sand_wish::Wish;
use std::marker::Model;

/// A wish with each field within its limits.
#[derive(Debug, Drop)]
pub struct Plan {
    wish: Wish,
}

impl Model for Plan {
    ghost use Rattle.sand_wish.specs.declared.wish.Wish.{Wish};
    ghost use Rattle.sand_wish.specs.Plans.{IsPlan};

    ghost Value = { Wish };

    ghost view = { λ p. p.wish };

    ghost invariant = { λ p. IsPlan p.wish };
}

impl Plan {
    /// The plan of a wish. A field outside its limits is reported as `Plan`.
    pub fn new(wish: Wish) -> Result<Plan, LabFault>
        ensures plan { IfOk result (λ p. p ≡ wish) }
        ensures limits { IsErr result ↔ ¬ IsPlan wish }
        ensures err { IsErr result → result ≡ Err LabFault.Plan }
    {
        if wish.is_within_limits() {
            Ok(Plan { wish })
        } else {
            Err(LabFault::Plan)
        }
    }

    /// The wish that the plan was made of.
    pub fn wish(&self) -> Wish
        ensures value { result ≡ self.now }
        ensures limits { IsPlan result }
    {
        self.wish
    }
}

/// The number of drops in an epoch.
pub(crate) fn quota_of(wish: Wish) -> u64
    ensures { result ≡ quota_of wish }
{
    u64::from(wish.droppers) * u64::from(wish.drops)
}
